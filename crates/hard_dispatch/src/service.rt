// Taking lines from the pair, with the ends of their service.
ghost use Rattle.std.specs.Prelude.{◌≡◌, ◌<◌, IfSome, IfNone, true, if◌then◌else◌};
ghost use Rattle.line_sets.specs.LineSet.{has, without_line, first_in};
ghost use Rattle.pic_8259.specs.Controllers.{IsPair, latch_of, acknowledged};
ghost use Rattle.pic_8259.specs.Boot.{IsBooted, acknowledge_order};
ghost use Rattle.hard_dispatch.specs.Service.{finished, lowered, lowered_where, masked};

use pic_8259::{
    CASCADE, CHIP_LINES, FIRST_VECTOR, MASTER_COMMAND, MASTER_DATA, OCW1_NO_MASK,
    OCW2_SPECIFIC_EOI, Pair, SLAVE_COMMAND, SLAVE_DATA,
};

// The specific ends of interrupt of a line that was acknowledged.
fn finish(pair: &mut Pair, line: u8)
    requires { line < 16 }
    ensures ended { pair.new ≡ finished line pair.old }
    ensures kept { IsPair pair.new }
{
    if line < CHIP_LINES {
        pair.write(MASTER_COMMAND, OCW2_SPECIFIC_EOI + line);
    } else {
        pair.write(SLAVE_COMMAND, OCW2_SPECIFIC_EOI + (line - CHIP_LINES));
        pair.write(MASTER_COMMAND, OCW2_SPECIFIC_EOI + CASCADE);
    }
}

/// Acknowledges the first standing line in the order 0, 1, 8 to 15, 3 to 7 and ends its service; `None` exactly where no line
/// stands, and then nothing changes.
pub fn take_first(pair: &mut Pair) -> Option<u8>
    requires { IsBooted pair.old }
    ensures first { result ≡ first_in acknowledge_order (latch_of pair.old) }
    ensures none { IfNone result (latch_of pair.old ≡ 0) }
    ensures same { IfNone result (pair.new ≡ pair.old) }
    ensures within { IfSome result (λ n. n < 16) }
    ensures stood { IfSome result (λ n. has (latch_of pair.old) n ≡ true) }
    ensures served { IfSome result (λ n. pair.new ≡ finished n (acknowledged n pair.old)) }
    ensures taken { IfSome result (λ n. pair.new ≡ lowered n pair.old) }
    ensures before { IsPair pair.old }
    ensures kept { IsPair pair.new }
{
    match pair.acknowledge() {
        Some(vector) => {
            let line = vector - FIRST_VECTOR;
            finish(pair, line);
            Some(line)
        }
        None => None,
    }
}

// Masks every line but one; for a line of the slave the cascade is let through.
fn mask_all_but(pair: &mut Pair, line: u8)
    requires booted { IsBooted pair.old }
    requires within { line < 16 }
    ensures masked { pair.new ≡ masked line pair.old.master.irr pair.old.slave.irr }
    ensures before { IsPair pair.old }
{
    if line < CHIP_LINES {
        pair.write(MASTER_DATA, !(1 << line));
    } else {
        pair.write(MASTER_DATA, !(1 << CASCADE));
        pair.write(SLAVE_DATA, !(1 << (line - CHIP_LINES)));
    }
}

fn finish_where(pair: &mut Pair, line: u8, stood: bool)
    requires { line < 16 }
    ensures { pair.new ≡ (if stood then finished line pair.old else pair.old) }
{
    if stood {
        finish(pair, line);
    }
}

// Takes one line other than the cascade's, with every other one masked for the moment.
fn take_alone(pair: &mut Pair, line: u8) -> bool
    requires booted { IsBooted pair.old }
    requires within { line < 16 }
    requires no_cascade { line ≡ 2 → ⊥ }
    ensures stood { result ≡ has (latch_of pair.old) line }
    ensures pair { pair.new ≡ lowered_where (has (latch_of pair.old) line) line pair.old }
    ensures before { IsPair pair.old }
    ensures kept { IsPair pair.new }
{
    mask_all_but(pair, line);
    let stood = pair.acknowledge().is_some();
    finish_where(pair, line, stood);
    pair.write(MASTER_DATA, OCW1_NO_MASK);
    pair.write(SLAVE_DATA, OCW1_NO_MASK);
    stood
}

/// Acknowledges one line alone, with every other one masked for the moment, and ends its service: true exactly where the line
/// stood. All other latches stay. Line 2, the cascade, never stands.
pub fn take_line(pair: &mut Pair, line: u8) -> bool
    requires booted { IsBooted pair.old }
    requires within { line < 16 }
    ensures stood { result ≡ has (latch_of pair.old) line }
    ensures latches { latch_of pair.new ≡ without_line (latch_of pair.old) line }
    ensures booted { IsBooted pair.new }
    ensures kept { IsPair pair.new }
{
    // Looked at so that the proof knows what is true of each pair: line 2 is never latched.
    let _line = pair.request();
    if line == CASCADE {
        return false;
    }
    take_alone(pair, line)
}
