// Operations on one operand.
ghost use Rattle.std.specs.Prelude.{◌≡◌, ◌<◌};
ghost use Rattle.cpu_state.specs.Width.{modulus};
ghost use Rattle.i386_alu.specs.Unary.{unary_of};

use crate::two_operands::{difference, sum};
use cpu_state::{Eflags, Op, Width};

/// INC, DEC, NOT or NEG of an operand: the result, and the flags after it (Intel 80386 manual, chapter 17 and appendix C).
/// INC and DEC keep CF, NOT keeps all flags. Any other operation gives `a` and the flags as they were.
#[tactic(auto, unfolding(crate::specs::Unary::unary_of))]
pub fn unary(op: Op, width: Width, a: u32, flags: Eflags) -> (u32, Eflags)
    requires { a < modulus width }
    ensures value { result.0 ≡ (unary_of op width a flags).value }
    ensures flags { result.1 ≡ (unary_of op width a flags).flags }
    ensures fits { result.0 < modulus width }
{
    match op {
        Op::Inc => {
            let (value, after) = sum(width, a, 1, 0, flags);
            (
                value,
                Eflags {
                    carry: flags.carry,
                    ..after
                },
            )
        }
        Op::Dec => {
            let (value, after) = difference(width, a, 1, 0, flags);
            (
                value,
                Eflags {
                    carry: flags.carry,
                    ..after
                },
            )
        }
        Op::Not => ((width.modulus() - 1 - a as u64) as u32, flags),
        Op::Neg => difference(width, 0, a, 0, flags),
        _ => (a, flags),
    }
}
