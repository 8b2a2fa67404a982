// One iteration.
ghost use Rattle.std.specs.Prelude.{◌≡◌, None, true};
ghost use Rattle.memory_model.specs.Laws.{SamePlace};
ghost use Rattle.cpu_state.specs.Width.{modulus};
ghost use Rattle.i386_decode.specs.WellFormed.{is_string};
ghost use Rattle.i386_effects.specs.Accesses.{all_loaded};
ghost use Rattle.i386_strings.specs.Iteration.{string_loads, compared, moved, moved_where, uses_source, uses_target, repeats, counted, advanced, compares, is_decided, is_last, ended_by, after_loads, iteration, StaysOutside};

use cpu_state::{Access, Bus, ECX, EDI, ESI, Eflags, Op, Registers, Width};
use i386_alu::binary;
use i386_decode::{Form, Repeat};
use i386_effects::{ACCUMULATOR, part, set_part};

/// What an iteration came to.
#[derive(Clone, Copy, PartialEq, Eq, Debug)]
pub enum Iteration {
    /// It was performed, and the instruction goes on.
    More,
    /// It was performed, or ECX was 0, and the instruction ends.
    Finished,
    /// The first access that lies outside, by the address of its first byte. Nothing changed.
    Outside(Access, u32),
}

// The flags of a comparison of the low parts.
fn compare(width: Width, a: u32, b: u32, eflags: Eflags) -> Eflags
    ensures { result ≡ compared width a b eflags }
{
    let a = (a as u64 % width.modulus()) as u32;
    let b = (b as u64 % width.modulus()) as u32;
    binary(Op::Cmp, width, a, b, eflags).1
}

// An address moved by the width, down where DF is set.
fn moved(width: Width, eflags: Eflags, at: u32) -> u32
    ensures { result ≡ moved width eflags at }
{
    if eflags.direction {
        at.wrapping_sub(width.bytes())
    } else {
        at.wrapping_add(width.bytes())
    }
}

fn uses_source(op: Op) -> bool
    ensures { result ≡ uses_source op }
{
    match op {
        Op::Movs => true,
        Op::Cmps => true,
        Op::Lods => true,
        _ => false,
    }
}

fn uses_target(op: Op) -> bool
    ensures { result ≡ uses_target op }
{
    match op {
        Op::Movs => true,
        Op::Cmps => true,
        Op::Stos => true,
        Op::Scas => true,
        _ => false,
    }
}

fn repeats(repeat: Repeat) -> bool
    ensures { result ≡ repeats repeat }
{
    match repeat {
        Repeat::Once => false,
        Repeat::WhileEqual => true,
        Repeat::WhileUnequal => true,
    }
}

// Moves ESI.
fn move_source(test: bool, width: Width, eflags: Eflags, general: &mut [u32; 8])
    ensures { general.new ≡ moved_where test 6 width eflags general.old }
{
    if test {
        general[ESI] = moved(width, eflags, general[ESI]);
    }
}

// Moves EDI.
fn move_target(test: bool, width: Width, eflags: Eflags, general: &mut [u32; 8])
    ensures { general.new ≡ moved_where test 7 width eflags general.old }
{
    if test {
        general[EDI] = moved(width, eflags, general[EDI]);
    }
}

// Counts ECX down under a repeat prefix.
fn count(repeat: Repeat, general: &mut [u32; 8])
    ensures { general.new ≡ counted repeat general.old }
{
    if repeats(repeat) {
        general[ECX] = general[ECX].wrapping_sub(1);
    }
}

// Moves both pointers that a mnemonic uses, and counts.
fn advance(form: &Form, eflags: Eflags, general: &mut [u32; 8])
    ensures { general.new ≡ advanced form.now eflags general.old }
{
    move_source(uses_source(form.op), form.width, eflags, general);
    move_target(uses_target(form.op), form.width, eflags, general);
    count(form.repeat, general);
}

fn compares(op: Op) -> bool
    ensures { result ≡ compares op }
{
    match op {
        Op::Cmps => true,
        Op::Scas => true,
        _ => false,
    }
}

// Whether ZF ends a repeated comparison.
fn is_decided(repeat: Repeat, zero: bool) -> bool
    ensures { result ≡ is_decided repeat zero }
{
    match repeat {
        Repeat::Once => false,
        Repeat::WhileEqual => !zero,
        Repeat::WhileUnequal => zero,
    }
}

// Whether the instruction ends.
#[tactic(auto, unfolding(crate::specs::Iteration::is_last))]
fn is_last(form: &Form, after: &Registers) -> bool
    ensures { result ≡ is_last form.now after.now }
{
    !repeats(form.repeat)
        || after.general[ECX] == 0
        || compares(form.op) && is_decided(form.repeat, after.eflags.zero)
}

// What an iteration that was performed came to.
fn ended(form: &Form, regs: &Registers) -> Iteration
    ensures { result ≡ ended_by None (is_last form.now regs.now) }
{
    if is_last(form, regs) {
        Iteration::Finished
    } else {
        Iteration::More
    }
}

// MOVS: the word at [ESI] to [EDI].
#[tactic(auto, unfolding(crate::specs::Iteration::iterated))]
fn move_word<B: Bus>(form: &Form, regs: &mut Registers, bus: &mut B) -> Iteration
    requires { form.now.op ≡ Op.Movs }
    ensures effect { record { answer = result; registers = regs.new; bus = B.state bus.new } ≡ after_loads form.now regs.old (B.state bus.old) (all_loaded (B.state bus.old).side (string_loads Op.Movs form.now.width regs.old)) }
    ensures lenders { B.lenders bus.new ≡ B.lenders bus.old }
{
    let source = regs.general[ESI];
    let word = match bus.load(source, form.width) {
        Some(word) => word,
        None => return Iteration::Outside(Access::Load, source),
    };
    let target = regs.general[EDI];
    if !bus.store(target, form.width, word) {
        return Iteration::Outside(Access::Store, target);
    }
    advance(form, regs.eflags, &mut regs.general);
    ended(form, regs)
}

// CMPS: the word at [ESI] with that at [EDI].
#[tactic(auto, unfolding(crate::specs::Iteration::iterated))]
fn compare_words<B: Bus>(form: &Form, regs: &mut Registers, bus: &mut B) -> Iteration
    requires { form.now.op ≡ Op.Cmps }
    ensures effect { record { answer = result; registers = regs.new; bus = B.state bus.new } ≡ after_loads form.now regs.old (B.state bus.old) (all_loaded (B.state bus.old).side (string_loads Op.Cmps form.now.width regs.old)) }
    ensures lenders { B.lenders bus.new ≡ B.lenders bus.old }
{
    let source = regs.general[ESI];
    let word = match bus.load(source, form.width) {
        Some(word) => word,
        None => return Iteration::Outside(Access::Load, source),
    };
    let target = regs.general[EDI];
    let other = match bus.load(target, form.width) {
        Some(other) => other,
        None => return Iteration::Outside(Access::Load, target),
    };
    let eflags = compare(form.width, word, other, regs.eflags);
    advance(form, regs.eflags, &mut regs.general);
    regs.eflags = eflags;
    ended(form, regs)
}

// STOS: AL, AX or EAX to [EDI].
#[tactic(auto, unfolding(crate::specs::Iteration::iterated))]
fn store_word<B: Bus>(form: &Form, regs: &mut Registers, bus: &mut B) -> Iteration
    requires { form.now.op ≡ Op.Stos }
    ensures effect { record { answer = result; registers = regs.new; bus = B.state bus.new } ≡ after_loads form.now regs.old (B.state bus.old) (all_loaded (B.state bus.old).side (string_loads Op.Stos form.now.width regs.old)) }
    ensures lenders { B.lenders bus.new ≡ B.lenders bus.old }
{
    let target = regs.general[EDI];
    let word = part(form.width, ACCUMULATOR, &regs.general);
    if !bus.store(target, form.width, word) {
        return Iteration::Outside(Access::Store, target);
    }
    advance(form, regs.eflags, &mut regs.general);
    ended(form, regs)
}

// LODS: the word at [ESI] to AL, AX or EAX.
#[tactic(auto, unfolding(crate::specs::Iteration::iterated))]
fn load_word<B: Bus>(form: &Form, regs: &mut Registers, bus: &mut B) -> Iteration
    requires { form.now.op ≡ Op.Lods }
    ensures effect { record { answer = result; registers = regs.new; bus = B.state bus.new } ≡ after_loads form.now regs.old (B.state bus.old) (all_loaded (B.state bus.old).side (string_loads Op.Lods form.now.width regs.old)) }
    ensures lenders { B.lenders bus.new ≡ B.lenders bus.old }
{
    let source = regs.general[ESI];
    let word = match bus.load(source, form.width) {
        Some(word) => word,
        None => return Iteration::Outside(Access::Load, source),
    };
    set_part(form.width, ACCUMULATOR, word, &mut regs.general);
    advance(form, regs.eflags, &mut regs.general);
    ended(form, regs)
}

// SCAS: AL, AX or EAX with the word at [EDI].
#[tactic(auto, unfolding(crate::specs::Iteration::iterated))]
fn scan_word<B: Bus>(form: &Form, regs: &mut Registers, bus: &mut B) -> Iteration
    requires { form.now.op ≡ Op.Scas }
    ensures effect { record { answer = result; registers = regs.new; bus = B.state bus.new } ≡ after_loads form.now regs.old (B.state bus.old) (all_loaded (B.state bus.old).side (string_loads Op.Scas form.now.width regs.old)) }
    ensures lenders { B.lenders bus.new ≡ B.lenders bus.old }
{
    let target = regs.general[EDI];
    let with = match bus.load(target, form.width) {
        Some(with) => with,
        None => return Iteration::Outside(Access::Load, target),
    };
    let word = part(form.width, ACCUMULATOR, &regs.general);
    let eflags = compare(form.width, word, with, regs.eflags);
    advance(form, regs.eflags, &mut regs.general);
    regs.eflags = eflags;
    ended(form, regs)
}

// Performs one iteration: the effect alone.
#[tactic(auto, unfolding(crate::specs::Iteration::iteration))]
fn iterate_exactly<B: Bus>(form: &Form, regs: &mut Registers, bus: &mut B) -> Iteration
    requires string { is_string form.now.op ≡ true }
    ensures effect { record { answer = result; registers = regs.new; bus = B.state bus.new } ≡ iteration form.now regs.old (B.state bus.old) }
    ensures lenders { B.lenders bus.new ≡ B.lenders bus.old }
{
    if repeats(form.repeat) && regs.general[ECX] == 0 {
        return Iteration::Finished;
    }
    match form.op {
        Op::Movs => move_word(form, regs, bus),
        Op::Cmps => compare_words(form, regs, bus),
        Op::Stos => store_word(form, regs, bus),
        Op::Lods => load_word(form, regs, bus),
        Op::Scas => scan_word(form, regs, bus),
        // no other operation is a string instruction
        _ => Iteration::Finished,
    }
}

/// Performs one iteration of MOVS, CMPS, STOS, LODS or SCAS (Intel 80386 manual, section 3.6). EIP isn't touched.
pub fn iterate<B: Bus>(form: &Form, regs: &mut Registers, bus: &mut B) -> Iteration
    requires string { is_string form.now.op ≡ true }
    ensures effect { record { answer = result; registers = regs.new; bus = B.state bus.new } ≡ iteration form.now regs.old (B.state bus.old) }
    ensures outside { StaysOutside result ((regs.new ≡ regs.old) × (B.state bus.new ≡ B.state bus.old)) }
    ensures place { SamePlace (B.state bus.old).side (B.state bus.new).side }
    ensures lenders { B.lenders bus.new ≡ B.lenders bus.old }
{
    iterate_exactly(form, regs, bus)
}
