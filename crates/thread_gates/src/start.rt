// The start of an activity.
ghost use Rattle.std.specs.Prelude.{◌≡◌};
ghost use Rattle.cpu_state.specs.Registers.{starting};

use cpu_state::{Context, EAX, ESP, Eflags, Registers};

/// The first registers of an activity that begins at `entry`, with its argument in EAX and its stack below `stack`: EFLAGS is 2 but for
/// the interrupt flag, and all else is 0.
#[tactic(auto, unfolding(cpu_state::specs::Registers::starting))]
pub fn starting(entry: u32, argument: u32, stack: u32, interrupt: bool) -> Context
    ensures { result ≡ starting entry argument stack interrupt }
{
    let mut general = [0; 8];
    general[EAX] = argument;
    general[ESP] = stack;
    Registers {
        general,
        eip: entry,
        eflags: Eflags::from_word(2).with_interrupt(interrupt),
    }
}
