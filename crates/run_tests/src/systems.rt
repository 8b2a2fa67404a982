// Systems with and without a script. Their outputs were worked out from the definitions of the machine, apart from this program.
use crate::calls::{Failing, Files, answers, answers_failing, bytes_of, hex_of};
use std::alloc::Global;
use std::test::Fail;

/// A system with a script.
pub static SYSTEM: &str =
    "version = 1;image = \"k.bin\";guest_memory = 65536;real_time_memory = 65536;script = \"d.txt\";";

/// Its script.
pub static SCRIPT: &str = "3 line 5;4 line 5;";

/// A guest that waits in a loop for its interrupt.
pub static WAITS: &str =
    "7f454c46010101000000000000000000020003000100000000000000340000000000000000000000340020000300000000000000010000009400000000000000000000002000000020000000070000000100000001000000b400000040000000400000000300000003000000070000000100000001000000b7000000280200002802000008000000080000000700000001000000b801000000bb00010000b926000000cdf6b80200000031dbcdf6cdf14141ebfd42cdf240000800008e0000";

/// What 13 ticks of it write under the script.
pub static WAITED: &str =
    "R 1 on guest;G 10 enter 37;R 13 end 0 0;R 13 memory 0bfc2037b0c50f23c9e203d7c3da708f80cc5096f34972316976735de0dcdbdd;G 13 end runs 0000001e 00000206 00000000 00000028 00000001 00000000 00010000 00000000 00000000 00000000;G 13 memory 69d58f58f011e819b02f457ffada37b7cb23bcec2d4bb7df6464e70ef9b5b31d;";

/// A guest that halts until its interrupt.
pub static HALTS: &str =
    "7f454c46010101000000000000000000020003000100000000000000340000000000000000000000340020000300000000000000010000009400000000000000000000001f0000001f000000070000000100000001000000b300000040000000400000000300000003000000070000000100000001000000b6000000280200002802000008000000080000000700000001000000b801000000bb00010000b926000000cdf6b80200000031dbcdf6cdf1cdf54142cdf240000800008e0000";

/// What 13 ticks of it write, without the lines of the hardware.
pub static HALTED: &str =
    "R 1 on guest;G 9 halt;G 10 enter 37;R 13 end 0 0;R 13 memory 0bfc2037b0c50f23c9e203d7c3da708f80cc5096f34972316976735de0dcdbdd;G 13 end runs 0000001f 00000206 00000000 00000027 00000001 00000000 00010000 00000000 00000000 00000000;G 13 memory f0136f7d1285072f6275bf31512cda47277818559f3cb9dc6695ea89b8518e7f;";

/// A system without a script.
pub static PLAIN: &str =
    "version = 1;image = \"k.bin\";guest_memory = 65536;real_time_memory = 65536;";

/// An image of one part, two bytes at address 0 that jump to themselves.
pub static SMALL: &str =
    "7f454c460101010000000000000000000200030001000000000000003400000000000000000000003400200001000000000000000100000054000000000000000000000002000000020000000000000000000000ebfe";

/// What 5 ticks of it write.
pub static LOOPED: &str =
    "R 1 on guest;R 5 end 0 0;R 5 memory 0bfc2037b0c50f23c9e203d7c3da708f80cc5096f34972316976735de0dcdbdd;G 5 end runs 00000000 00000002 00000000 00000000 00000000 00000000 00010000 00000000 00000000 00000000;G 5 memory cb1b331b69eb73f470e06f876e8c99acd9de6d2fd3aa60e0ee9bab65faa6fcf6;";

/// Are these the status and the output for these words over s.toml with its script and this guest?
pub fn scripted_answers(
    alloc: Global,
    failing: &Failing,
    words: &str,
    guest: &str,
    status: &str,
    output: &str,
) -> Result<bool, Fail> {
    let system = bytes_of(alloc, SYSTEM)?;
    let image = hex_of(alloc, guest)?;
    let script = bytes_of(alloc, SCRIPT)?;
    let files = [
        ("s.toml", system.as_slice()),
        ("k.bin", image.as_slice()),
        ("d.txt", script.as_slice()),
    ];
    answers_failing(alloc, failing, words, &files, status, output)
}

/// The same for 5 ticks of these files.
pub fn five_ticks_answer(
    alloc: Global,
    files: Files,
    status: &str,
    output: &str,
) -> Result<bool, Fail> {
    answers(alloc, "run s.toml --ticks 5", files, status, output)
}

/// The same of a system file and an image alone.
pub fn unscripted_answers(
    alloc: Global,
    system: &str,
    image: &[u8],
    status: &str,
    output: &str,
) -> Result<bool, Fail> {
    let system = bytes_of(alloc, system)?;
    let image = image.to_vec(alloc)?;
    let files = [("s.toml", system.as_slice()), ("k.bin", image.as_slice())];
    five_ticks_answer(alloc, &files, status, output)
}
