// The gates on lines, one function each.
ghost use Rattle.std.specs.Prelude.{◌≡◌, ◌<◌, ℕ, ℤ, [], ◌∷◌, None, IfSome};
ghost use Rattle.line_sets.specs.LineSet.{union, without_line};
ghost use Rattle.pic_8259.specs.Controllers.{IsPair, latch_of};
ghost use Rattle.pic_8259.specs.Boot.{IsBooted};
ghost use Rattle.rt_irqs.specs.Irqs.{IsLines, request_result, requested, free_result, freed, free_soft_line, line_result, line_taken, free_soft_result, soft_freed};
ghost use Rattle.hard_dispatch.specs.Sets.{asked_lines, marked_lines};
ghost use Rattle.irq_gates.specs.Owners.{owner_changes, taken_of, without_taken};
ghost use Rattle.irq_gates.specs.Marks.{pend_result, pended, left_to_guest};

use hard_dispatch::take_line;
use line_sets::with_line32;
use pic_8259::Pair;
use rt_constants::lines::COM2_LINE;
use rt_constants::{EINVAL, failed};
use rt_irqs::Irqs;

/// What a gate on lines comes to.
#[derive(Clone, Copy, Debug)]
pub struct LineEffect {
    /// The result: 0 or above, or the negative of an error number.
    pub result: i32,
    /// The lines to mark for the guest.
    pub guest: u32,
    /// The line that was acknowledged, if one was.
    pub acknowledged: Option<u8>,
}

impl LineEffect {
    // No line is marked for the guest, and none was acknowledged.
    fn answer(value: i32) -> LineEffect
        ensures result { result.result ≡ value }
        ensures guest { result.guest ≡ 0 }
        ensures acknowledged { result.acknowledged ≡ None }
    {
        LineEffect {
            result: value,
            guest: 0,
            acknowledged: None,
        }
    }
}

// Acknowledges a line whose owner changes; its number where it stood.
fn acknowledge(line: u8, pair: &mut Pair) -> Option<u8>
    requires booted { IsBooted pair.old }
    requires within { line < 16 }
    ensures acknowledged { result ≡ taken_of (latch_of pair.old) (line ∷ []) }
    ensures latches { latch_of pair.new ≡ without_line (latch_of pair.old) line }
    ensures taken { latch_of pair.new ≡ without_taken result (latch_of pair.old) }
    ensures booted { IsBooted pair.new }
    ensures kept { IsPair pair.new }
{
    if take_line(pair, line) {
        Some(line)
    } else {
        None
    }
}

// The lines to mark for the guest when a module takes a line over, by what stood on it.
fn left_to_guest(taken: Option<u8>) -> u32
    requires { IfSome taken (λ n. n < 16) }
    ensures { result ≡ left_to_guest taken }
{
    match taken {
        Some(COM2_LINE) => 0,
        Some(line) => with_line32(0, line),
        None => 0,
    }
}

/// Function 18, rtl_request_irq: a module takes the hard line, with a handler at the entry. What stands on the line is acknowledged
/// and marked for the guest, whose line it was; line 3 was nobody's and is dropped. -22 where no module may hold the line, -16 where
/// one does, and then nothing changes.
pub fn request(line: u32, entry: u32, irqs: &mut Irqs, pair: &mut Pair) -> LineEffect
    requires { IsBooted pair.old }
    ensures result { result.result ≡ request_result irqs.old line }
    ensures lines { marked_lines (latch_of pair.new) irqs.new ≡ requested (marked_lines (latch_of pair.old) irqs.old) line entry }
    ensures acknowledged { result.acknowledged ≡ taken_of (latch_of pair.old) (owner_changes irqs.old irqs.new) }
    ensures guest { result.guest ≡ left_to_guest result.acknowledged }
    ensures latches { latch_of pair.new ≡ without_taken result.acknowledged (latch_of pair.old) }
    ensures asked { (pending : ℕ) → asked_lines (latch_of pair.new) irqs.new (union pending result.guest) ≡ asked_lines (latch_of pair.old) irqs.old pending }
    ensures booted { IsBooted pair.new }
    ensures kept { IsPair pair.new }
    ensures irqs { IsLines irqs.new }
{
    // Looked at so that the proof knows what is true of the pair and of the lines.
    let _line = pair.request();
    let _marked = irqs.next();
    // This tests the whole number: 101h isn't line 1.
    let result = irqs.request(line, entry);
    if result != 0 {
        return LineEffect::answer(result);
    }
    let acknowledged = acknowledge(line as u8, pair);
    LineEffect {
        result: 0,
        guest: left_to_guest(acknowledged),
        acknowledged,
    }
}

/// Function 19, rtl_free_irq: a module gives the hard line back. What stands on the line is acknowledged and dropped, as is its mark.
/// -22 where no module holds the line, and then nothing changes. A fault of the line's handler does the same.
pub fn free(line: u32, irqs: &mut Irqs, pair: &mut Pair) -> LineEffect
    requires { IsBooted pair.old }
    ensures result { result.result ≡ free_result irqs.old line }
    ensures lines { marked_lines (latch_of pair.new) irqs.new ≡ freed (marked_lines (latch_of pair.old) irqs.old) line }
    ensures acknowledged { result.acknowledged ≡ taken_of (latch_of pair.old) (owner_changes irqs.old irqs.new) }
    ensures guest { result.guest ≡ 0 }
    ensures latches { latch_of pair.new ≡ without_taken result.acknowledged (latch_of pair.old) }
    ensures asked { (pending : ℕ) → asked_lines (latch_of pair.new) irqs.new (union pending result.guest) ≡ asked_lines (latch_of pair.old) irqs.old pending }
    ensures booted { IsBooted pair.new }
    ensures kept { IsPair pair.new }
    ensures irqs { IsLines irqs.new }
{
    // Looked at so that the proof knows what is true of the pair and of the lines.
    let _line = pair.request();
    let _marked = irqs.next();
    let result = irqs.free(line);
    if result != 0 {
        return LineEffect::answer(result);
    }
    let taken = acknowledge(line as u8, pair);
    LineEffect {
        result: 0,
        guest: 0,
        acknowledged: taken,
    }
}

/// Function 20, rtl_get_soft_irq: a module takes the lowest soft line that is free, and gets its number; -16 where all are taken.
pub fn get_soft(irqs: &mut Irqs) -> LineEffect
    ensures result { result.result ≡ line_result (free_soft_line irqs.old.soft) }
    ensures lines { (latch : ℕ) → marked_lines latch irqs.new ≡ line_taken (free_soft_line irqs.old.soft) (marked_lines latch irqs.old) }
    ensures acknowledged { (latch : ℕ) → result.acknowledged ≡ taken_of latch (owner_changes irqs.old irqs.new) }
    ensures latches { (latch : ℕ) → latch ≡ without_taken result.acknowledged latch }
    ensures asked { (latch pending : ℕ) → asked_lines latch irqs.new (union pending result.guest) ≡ asked_lines latch irqs.old pending }
    ensures irqs { IsLines irqs.new }
{
    LineEffect::answer(irqs.get_soft())
}

/// Function 21, rtl_free_soft_irq: a module gives the soft line back, and a mark of the guest on it stays. -22 where it isn't taken,
/// and then nothing changes.
pub fn free_soft(line: u32, irqs: &mut Irqs) -> LineEffect
    ensures result { result.result ≡ free_soft_result irqs.old line }
    ensures lines { (latch : ℕ) → marked_lines latch irqs.new ≡ soft_freed (marked_lines latch irqs.old) line }
    ensures acknowledged { (latch : ℕ) → result.acknowledged ≡ taken_of latch (owner_changes irqs.old irqs.new) }
    ensures latches { (latch : ℕ) → latch ≡ without_taken result.acknowledged latch }
    ensures asked { (latch pending : ℕ) → asked_lines latch irqs.new (union pending result.guest) ≡ asked_lines latch irqs.old pending }
    ensures irqs { IsLines irqs.new }
{
    LineEffect::answer(irqs.free_soft(line))
}

/// Function 22, rtl_global_pend_irq: the line is marked for the guest. -22 where it is neither a hard line nor a soft one that is
/// taken, and then nothing is marked.
pub fn pend(line: u32, irqs: &Irqs) -> LineEffect
    ensures result { result.result ≡ pend_result irqs.now line }
    ensures acknowledged { (latch : ℕ) → result.acknowledged ≡ taken_of latch (owner_changes irqs.now irqs.now) }
    ensures latches { (latch : ℕ) → latch ≡ without_taken result.acknowledged latch }
    ensures asked { (latch pending : ℕ) → asked_lines latch irqs.now (union pending result.guest) ≡ pended irqs.now line (asked_lines latch irqs.now pending) }
{
    if irqs.is_pendable(line) {
        LineEffect {
            guest: with_line32(0, line as u8),
            ..LineEffect::answer(0)
        }
    } else {
        LineEffect::answer(failed(EINVAL))
    }
}
