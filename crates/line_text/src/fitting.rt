// Parts that surely fit.
ghost use Rattle.std.specs.Prelude.{◌≡◌, ◌≤◌, ◌+◌, ◌++◌, length, decimal};

use crate::LineText;

/// Appends a text that fits.
pub fn add(text: &mut LineText, more: &[u8])
    requires { length text.old + length more.now ≤ 640 }
    ensures { text.new ≡ text.old ++ more.now }
{
    let _ = text.push_text(more);
}

/// Appends a number that fits, in decimal digits, without leading zeros: 10 of them at most.
pub fn add_decimal(text: &mut LineText, n: u32)
    requires { length text.old + 10 ≤ 640 }
    ensures text { text.new ≡ text.old ++ decimal n }
    ensures short { length (decimal n) ≤ 10 }
{
    let _ = text.push_decimal(u64::from(n));
}
