// Conditions on flags.
ghost use Rattle.std.specs.Prelude.{◌≡◌, ◌<◌};
ghost use Rattle.i386_alu.specs.Condition.{holds, condition_of};

use cpu_state::Eflags;

// Whether one of the eight even conditions holds, by half its code.
fn holds(k: u8, flags: Eflags) -> bool
    requires { k < 8 }
    ensures { result ≡ holds k flags }
{
    match k {
        0 => flags.overflow,
        1 => flags.carry,
        2 => flags.zero,
        3 => flags.carry || flags.zero,
        4 => flags.sign,
        5 => flags.parity,
        6 => flags.sign != flags.overflow,
        _ => flags.zero || flags.sign != flags.overflow,
    }
}

/// Whether the condition of a code from 0 to 15 holds, as in the low four bits of the opcodes of Jcc and SETcc (Intel 80386
/// manual, appendix D).
#[tactic(auto, unfolding(crate::specs::Condition::condition_of))]
pub fn condition(code: u8, flags: Eflags) -> bool
    requires { code < 16 }
    ensures { result ≡ condition_of code flags }
{
    if code % 2 == 1 {
        !holds(code / 2, flags)
    } else {
        holds(code / 2, flags)
    }
}
