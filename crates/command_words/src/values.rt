// The names and the numbers among the words.
ghost use Rattle.std.specs.Prelude.{◌≡◌};
ghost use Rattle.outside_io.specs.Names.{is_name as name_test};
ghost use Rattle.command_words.specs.Values.{is_number as number_test, number_of, ticks_of};

use line_text::{are_digits, read_decimal};
use outside_io::NAME_LIMIT;

/// The longest number, in digits.
const NUMBER_SIZE: usize = 20;

/// The most ticks of a run.
const TICK_LIMIT: u64 = 1_000_000_000;

/// Whether a word is a name: it has 1 to 255 bytes.
pub fn is_name(text: &[u8]) -> bool
    ensures { result ≡ name_test text.now }
{
    1 <= text.len() && text.len() <= NAME_LIMIT
}

/// Whether a word is a number: 1 to 20 decimal digits.
pub fn is_number(text: &[u8]) -> bool
    ensures { result ≡ number_test text.now }
{
    1 <= text.len() && text.len() <= NUMBER_SIZE && are_digits(text)
}

/// The ticks that a number says, where they are 1 to 1,000,000,000.
pub fn read_ticks(text: &[u8]) -> Option<u32>
    ensures { result ≡ ticks_of text.now }
{
    match read_decimal(text) {
        Some(n) => {
            if n >= 1 && n <= TICK_LIMIT {
                Some(n as u32)
            } else {
                None
            }
        }
        None => None,
    }
}

/// The number that a system is made from: 1 to 20 decimal digits, with leading zeros or without, that write one from 0 to
/// 4,294,967,295.
pub fn read_number(text: &[u8]) -> Option<u32>
    ensures { result ≡ number_of text.now }
{
    match read_decimal(text) {
        Some(n) => {
            if n <= u64::from(u32::MAX) {
                Some(n as u32)
            } else {
                None
            }
        }
        None => None,
    }
}
