// Images of a system. Their answers were worked out from the ELF specification and the rules of the image, apart from this program.
use crate::calls::{field, hex_of};
use crate::systems::{PLAIN, SMALL, unscripted_answers};
use std::alloc::Global;
use std::test::Fail;

/// Small images that run: the changed bytes by their places, and the output.
static RAN: &str = "\
none | - | R 1 on guest;R 5 end 0 0;R 5 memory 0bfc2037b0c50f23c9e203d7c3da708f80cc5096f34972316976735de0dcdbdd;G 5 end runs 00000000 00000002 00000000 00000000 00000000 00000000 00010000 00000000 00000000 00000000;G 5 memory cb1b331b69eb73f470e06f876e8c99acd9de6d2fd3aa60e0ee9bab65faa6fcf6;
EI_OSABI isn't read | 7=09 | R 1 on guest;R 5 end 0 0;R 5 memory 0bfc2037b0c50f23c9e203d7c3da708f80cc5096f34972316976735de0dcdbdd;G 5 end runs 00000000 00000002 00000000 00000000 00000000 00000000 00010000 00000000 00000000 00000000;G 5 memory cb1b331b69eb73f470e06f876e8c99acd9de6d2fd3aa60e0ee9bab65faa6fcf6;
phnum0 | 44=00 | R 1 on guest;R 5 end 0 0;R 5 memory 0bfc2037b0c50f23c9e203d7c3da708f80cc5096f34972316976735de0dcdbdd;G 5 end runs 0000000a 00000046 00000000 00000000 00000000 00000000 00010000 00000000 00000000 00000000;G 5 memory de2f256064a0af797747c2b97505dc0b9f3df0de4f489eac731c23ae9ca9cc31;
size0 | 68=00 72=00 | R 1 on guest;R 5 end 0 0;R 5 memory 0bfc2037b0c50f23c9e203d7c3da708f80cc5096f34972316976735de0dcdbdd;G 5 end runs 0000000a 00000046 00000000 00000000 00000000 00000000 00010000 00000000 00000000 00000000;G 5 memory de2f256064a0af797747c2b97505dc0b9f3df0de4f489eac731c23ae9ca9cc31;
";

/// Small images that are refused: the changed bytes, how many bytes are left, the status and the line.
static REFUSED: &str = "\
byte3 | 3=47 | 86 | 20.2 | E 20.2 k.bin;
byte4 | 4=02 | 86 | 20.3 | E 20.3 k.bin;
byte5 | 5=02 | 86 | 20.3 | E 20.3 k.bin;
cut51 | - | 51 | 20.1 | E 20.1 k.bin;
cut83 | - | 83 | 20.6 | E 20.6 k.bin;
cut85 | - | 85 | 20.7 | E 20.7 k.bin;
empty | - | 0 | 20.1 | E 20.1 k.bin;
filesz3 | 68=03 | 86 | 20.7 | E 20.7 k.bin;
interp | 52=03 | 86 | 20.9 | E 20.9 k.bin;
machine62 | 18=3e | 86 | 20.5 | E 20.5 k.bin;
memsz1 | 72=01 | 86 | 20.8 | E 20.8 k.bin;
offset | 56=ff 57=ff 58=ff 59=ff | 86 | 20.7 | E 20.7 k.bin;
phentsize31 | 42=1f | 86 | 20.6 | E 20.6 k.bin;
phnum65 | 44=41 | 86 | 20.6 | E 20.6 k.bin;
phoff55 | 28=37 | 86 | 20.6 | E 20.6 k.bin;
phoff | 28=ff 29=ff 30=ff 31=ff | 86 | 20.6 | E 20.6 k.bin;
type1 | 16=01 | 86 | 20.4 | E 20.4 k.bin;
type3 | 16=03 | 86 | 20.4 | E 20.4 k.bin;
vaddr65535 | 60=ff 61=ff | 86 | 21 | E 21 k.bin;
vaddrF | 60=ff 61=ff 62=ff 63=ff | 86 | 21 | E 21 k.bin;
version0 | 20=00 | 86 | 20.5 | E 20.5 k.bin;
";

/// Other images that are refused.
static WHOLE: &str = "\
a header that is cut | 7f454c460101010000000000000000000200030001000000001001003400000000000000000000003400200003000000000000 | 20.1 | E 20.1 k.bin;
a part that ends behind the side | 7f454c460101010000000000000000000200030001000000fdff00003400000000000000000000003400200001000000000000000100000054000000fdff0000fdff00000400000004000000070000000100000090909090 | 21 | E 21 k.bin;
two parts that overlap | 7f454c460101010000000000000000000200030001000000000000003400000000000000000000003400200002000000000000000100000074000000000000000000000002000000020000000700000001000000010000007600000001000000010000000200000002000000070000000100000090909090 | 22 | E 22 k.bin;
an object file | 7f454c4601010100000000000000000001000300010000000000000000000000a600000000000000340000000000280006000000b800000000e8fcffffffc340c30000000000000000000000000000000000000000010000000000000000000000120001000d0000000b00000000000000020001000f00000000000000000000000100020000696e69745f6d6f64756c650066006400010000000103000006000000020200000000000000000000000000000000000000000000000000000000000000000000000000000000000000000000010000000600000000000000340000000d0000000000000000000000100000000000000000000000010000000300000000000000410000000400000000000000000000000400000000000000000000000200000000000000000000004500000040000000040000000100000004000000100000000000000003000000000000000000000085000000110000000000000000000000010000000000000000000000090000000000000000000000960000001000000003000000010000000400000008000000 | 20.4 | E 20.4 k.bin;
";

// The small image with these changes, each as in 44=00, and no more than so many bytes of it.
fn changed(alloc: Global, changes: &str, size: &str) -> Result<Vec<u8>, Fail> {
    let mut image = hex_of(alloc, SMALL)?;
    for change in changes.split_whitespace() {
        if let Some((at, digits)) = change.split_once('=') {
            let place = at.parse::<usize>().ok().ok_or("no place")?;
            for byte in hex_of(alloc, digits)?.as_slice() {
                *image.get_mut(place).ok_or("no such place")? = *byte;
            }
        }
    }
    image.truncate(size.parse::<usize>().ok().ok_or("no size")?);
    Ok(image)
}

// Are these the answers to an image of a system without a script?
fn image_answers(alloc: Global, image: &Vec<u8>, status: &str, output: &str) -> Result<bool, Fail> {
    unscripted_answers(alloc, PLAIN, image.as_slice(), status, output)
}

#[test]
fn images_run_or_break_a_rule(rt: HostRuntime) -> Result<(), Fail> {
    let alloc = rt.alloc();
    for row in RAN.lines() {
        let image = changed(alloc, field(row, 1)?, "86")?;
        assert!(rt;
            image_answers(alloc, &image, "done", field(row, 2)?)?,
            "{row}"
        );
    }
    for row in REFUSED.lines() {
        let image = changed(alloc, field(row, 1)?, field(row, 2)?)?;
        assert!(rt;
            image_answers(alloc, &image, field(row, 3)?, field(row, 4)?)?,
            "{row}"
        );
    }
    for row in WHOLE.lines() {
        let image = hex_of(alloc, field(row, 1)?)?;
        assert!(rt;
            image_answers(alloc, &image, field(row, 2)?, field(row, 3)?)?,
            "{row}"
        );
    }
    Ok(())
}
