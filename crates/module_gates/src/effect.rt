// What a gate comes to.
ghost use Rattle.std.specs.Prelude.{◌≡◌, None, pos};
ghost use Rattle.flat_memory.specs.Side.{side_of};
ghost use Rattle.gate_table.specs.Gates.{range_of};
ghost use Rattle.module_gates.specs.Effects.{IsZeroBehind, count_printed, printed_of, text_of};
ghost use Rattle.module_gates.specs.Ranges.{IsInRange};

use flat_memory::Side;
use gate_table::{GateName, Request};
use side_ranges::{range, with_zeros};

/// What a gate comes to.
#[derive(Clone, Copy)]
pub struct Effect {
    /// What is left in EAX: 0 or above, or the negative of an error number.
    pub result: i32,
    /// The lines to mark for the guest.
    pub guest: u32,
    /// The line that was acknowledged, if one was.
    pub acknowledged: Option<u8>,
    /// How many bytes gate 24 prints.
    pub said: u16,
    /// These bytes, with zeros behind them.
    pub text: [u8; 256],
}

/// What becomes of a gate: an answer, or a fault, since a byte of its range is outside the side.
#[derive(Clone, Copy)]
pub enum ModuleUnit {
    Answered(Effect),
    Outside,
}

/// A result beside which nothing is marked, acknowledged or printed.
pub fn answer(value: i32) -> Effect
    ensures result { result.result ≡ value }
    ensures guest { result.guest ≡ 0 }
    ensures acknowledged { result.acknowledged ≡ None }
    ensures said { result.said ≡ 0 }
    ensures text { IsZeroBehind result }
{
    Effect {
        result: value,
        guest: 0,
        acknowledged: None,
        said: 0,
        text: [0; 256],
    }
}

/// An effect that succeeds, with the bytes that a gate prints.
pub fn with_text(name: GateName, q: &Request, side: &Side<'_>) -> Effect
    requires { IsInRange (side_of side.now) (range_of q.now name) }
    ensures result { result.result ≡ pos 0 }
    ensures printed { text_of name result ≡ printed_of name q.now (side_of side.now) }
    ensures said { result.said ≡ count_printed (text_of name result) }
    ensures text { IsZeroBehind result }
{
    let mut effect = answer(0);
    if let GateName::Print = name {
        effect.said = q.ecx as u16;
        effect.text = with_zeros(range(side.first(), side.bytes(), q.ebx, q.ecx));
    }
    effect
}
