// Eight words that are pushed together, or none of them: no other instruction has more than one store.
ghost use Rattle.std.specs.Prelude.{◌≡◌, ◌<◌};
ghost use Rattle.i386_effects.specs.Accesses.{first_outside_store, all_stored};
ghost use Rattle.i386_effects.specs.Change.{pushed_word, eight_pushed};
ghost use Rattle.i386_effects.specs.Effect.{committed};

use crate::accesses::Write;
use cpu_state::{Bus, Registers, Width};

// The address of the first store that lies outside, or none.
fn outside_store<B: Bus>(writes: &[Write], bus: &B) -> Option<u32>
    ensures { result ≡ first_outside_store (B.state bus.now).side writes.now }
{
    for write in writes {
        if !bus.fits(write.at, write.width.bytes()) {
            return Some(write.at);
        }
    }
    None
}

// Makes stores in order, of which those outside change nothing.
fn store_all<B: Bus>(writes: &[Write], bus: &mut B)
    ensures state { B.state bus.new ≡ record (B.state bus.old) { side = all_stored (B.state bus.old).side writes.now } }
    ensures lenders { B.lenders bus.new ≡ B.lenders bus.old }
{
    for write in writes {
        let _ = bus.store(write.at, write.width, write.value);
    }
}

// The store of one of eight words that are pushed.
fn pushed_word(top: u32, words: &[u32; 8], i: usize) -> Write
    requires { i < 8 }
    ensures { result ≡ pushed_word top words.now i }
{
    Write {
        at: top.wrapping_sub(4 * i as u32 + 4),
        width: Width::W32,
        value: words[i],
    }
}

// The stores of eight words that are pushed.
fn eight_pushed(top: u32, words: &[u32; 8]) -> [Write; 8]
    ensures { result ≡ eight_pushed top words.now }
{
    [
        pushed_word(top, words, 0),
        pushed_word(top, words, 1),
        pushed_word(top, words, 2),
        pushed_word(top, words, 3),
        pushed_word(top, words, 4),
        pushed_word(top, words, 5),
        pushed_word(top, words, 6),
        pushed_word(top, words, 7),
    ]
}

/// Pushes eight words at a top of the stack, the first one first, and takes new registers, or does neither, and gives the
/// address of the first store that lies outside.
pub fn push_eight<B: Bus>(
    after: &Registers,
    top: u32,
    words: &[u32; 8],
    regs: &mut Registers,
    bus: &mut B,
) -> Option<u32>
    ensures lenders { B.lenders bus.new ≡ B.lenders bus.old }
    ensures effect { record { outside = result; registers = regs.new; bus = B.state bus.new } ≡ committed regs.old (B.state bus.old) after.now (eight_pushed top words.now) }
{
    let writes = eight_pushed(top, words);
    if let Some(at) = outside_store(&writes, bus) {
        return Some(at);
    }
    store_all(&writes, bus);
    *regs = *after;
    None
}
