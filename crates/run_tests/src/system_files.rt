// System files. Their answers were worked out from TOML 1.1 and the table of fields, apart from this program.
use crate::calls::{field, hex_of};
use crate::systems::{LOOPED, SMALL, unscripted_answers};
use std::alloc::Global;
use std::test::Fail;

/// Systems of which the small image only jumps for 5 ticks.
static RAN: &str = "\
forms | # a comment;'version' = 0x1 # one;\"image\" = 'k.bin';guest_memory = 65_536;real_time_memory = 0b1_0000_0000_0000_0000;modules = [;  # none;];
the second version | version = 2;image = \"k.bin\";guest_memory = 65536;real_time_memory = 65536;
";

/// Systems that are refused: the status and the line.
static REFUSED: &str = "\
17modules | version = 1;image = \"k.bin\";guest_memory = 65536;real_time_memory = 65536;modules = [\"m0\", \"m1\", \"m2\", \"m3\", \"m4\", \"m5\", \"m6\", \"m7\", \"m8\", \"m9\", \"m10\", \"m11\", \"m12\", \"m13\", \"m14\", \"m15\", \"m16\"]; | 11 | E 11 s.toml;
FF | version = 1;image = \"k.bin\";guest_memory = 65536;real_time_memory = 65536;# ÿ; | 10 | E 10 s.toml;
empty | - | 11 | E 11 s.toml;
emptymodule | version = 1;image = \"k.bin\";guest_memory = 65536;real_time_memory = 65536;modules = [\"\"]; | 11 | E 11 s.toml;
emptyname | version = 1;image = \"\";guest_memory = 65536;real_time_memory = 65536; | 11 | E 11 s.toml;
emptyscript | version = 1;image = \"k.bin\";guest_memory = 65536;real_time_memory = 65536;script = \"\"; | 11 | E 11 s.toml;
float | version = 1.0;image = \"k.bin\";guest_memory = 65536;real_time_memory = 65536; | 11 | E 11 s.toml;
g16781312 | version = 1;image = \"k.bin\";guest_memory = 16781312;real_time_memory = 65536; | 11 | E 11 s.toml;
g61440 | version = 1;image = \"k.bin\";guest_memory = 61440;real_time_memory = 65536; | 11 | E 11 s.toml;
g65537 | version = 1;image = \"k.bin\";guest_memory = 65537;real_time_memory = 65536; | 11 | E 11 s.toml;
modtext | version = 1;image = \"k.bin\";guest_memory = 65536;real_time_memory = 65536;modules = \"m.elf\"; | 11 | E 11 s.toml;
name256 | version = 1;image = \"nnnnnnnnnnnnnnnnnnnnnnnnnnnnnnnnnnnnnnnnnnnnnnnnnnnnnnnnnnnnnnnnnnnnnnnnnnnnnnnnnnnnnnnnnnnnnnnnnnnnnnnnnnnnnnnnnnnnnnnnnnnnnnnnnnnnnnnnnnnnnnnnnnnnnnnnnnnnnnnnnnnnnnnnnnnnnnnnnnnnnnnnnnnnnnnnnnnnnnnnnnnnnnnnnnnnnnnnnnnnnnnnnnnnnnnnnnnnnnnnnnnnnnnnnnnnnnnn\";guest_memory = 65536;real_time_memory = 65536; | 11 | E 11 s.toml;
r4198400 | version = 1;image = \"k.bin\";guest_memory = 65536;real_time_memory = 4198400; | 11 | E 11 s.toml;
r61440 | version = 1;image = \"k.bin\";guest_memory = 65536;real_time_memory = 61440; | 11 | E 11 s.toml;
speed | version = 1;image = \"k.bin\";guest_memory = 65536;real_time_memory = 65536;speed = 1; | 11 | E 11 s.toml;
table | version = 1;image = \"k.bin\";guest_memory = 65536;real_time_memory = 65536;[speed]; | 11 | E 11 s.toml;
textversion | version = \"1\";image = \"k.bin\";guest_memory = 65536;real_time_memory = 65536; | 11 | E 11 s.toml;
twice | version = 1;image = \"k.bin\";guest_memory = 65536;real_time_memory = 65536;version = 1; | 10 | E 10 s.toml;
version0 | version = 0;image = \"k.bin\";guest_memory = 65536;real_time_memory = 65536; | 11 | E 11 s.toml;
version3 | version = 3;image = \"k.bin\";guest_memory = 65536;real_time_memory = 65536; | 11 | E 11 s.toml;
a key without a value | version = | 10 | E 10 s.toml;
no image | version = 1;guest_memory = 65536;real_time_memory = 65536; | 11 | E 11 s.toml;
the third version | version = 3;image = \"k.bin\";guest_memory = 65536;real_time_memory = 65536; | 11 | E 11 s.toml;
a name that is a number | version = 1;image = 1;guest_memory = 65536;real_time_memory = 65536; | 11 | E 11 s.toml;
a size as a text | version = 1;image = \"k.bin\";guest_memory = \"65536\";real_time_memory = 65536; | 11 | E 11 s.toml;
a module that is no name | version = 1;image = \"k.bin\";guest_memory = 65536;real_time_memory = 65536;modules = [\"m\", 1]; | 11 | E 11 s.toml;
a leading zero | version = 01;image = \"k.bin\";guest_memory = 65536;real_time_memory = 65536; | 10 | E 10 s.toml;
a text without its end | version = 1;image = \"k.bin;guest_memory = 65536;real_time_memory = 65536; | 10 | E 10 s.toml;
";

// Are these the answers to the small image with the system file of a row?
fn system_answers(alloc: Global, row: &str, status: &str, output: &str) -> Result<bool, Fail> {
    let image = hex_of(alloc, SMALL)?;
    unscripted_answers(alloc, field(row, 1)?, image.as_slice(), status, output)
}

#[test]
fn system_files_have_their_fields(rt: HostRuntime) -> Result<(), Fail> {
    let alloc = rt.alloc();
    for row in RAN.lines() {
        assert!(rt; system_answers(alloc, row, "done", LOOPED)?, "{row}");
    }
    for row in REFUSED.lines() {
        assert!(rt;
            system_answers(alloc, row, field(row, 2)?, field(row, 3)?)?,
            "{row}"
        );
    }
    Ok(())
}
