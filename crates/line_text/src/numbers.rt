// Numbers that are read from a text.
ghost use Rattle.std.specs.Prelude.{◌≡◌, ◌⊎◌, ◌<◌, ◌≤◌, ◌^◌, length, IfSome};
ghost use Rattle.std.specs.Char.{is_ascii_digit};
ghost use Rattle.std.specs.List.{list_all};
ghost use Rattle.hex.specs.Hex.{hex_digit_value};
ghost use Rattle.line_text.specs.Numbers.{decimal_after, decimal_in, hex_after, hex_in};

/// The longest text of a `u64` in decimal digits.
const DECIMAL_DIGITS: usize = 20;

/// Whether each byte is a decimal digit.
pub fn are_digits(text: &[u8]) -> bool
    ensures { result ≡ list_all is_ascii_digit text.now }
{
    text.iter().all(|c| c.is_ascii_digit())
}

/// The number that 1 to 20 decimal digits write; `None` exactly where the text isn't that, or the number is past `u64`.
pub fn read_decimal(text: &[u8]) -> Option<u64>
    ensures { result ≡ decimal_in text.now }
{
    if text.is_empty() || text.len() > DECIMAL_DIGITS {
        return None;
    }
    decimal_digits(text)
}

fn decimal_digits(text: &[u8]) -> Option<u64>
    ensures { result ≡ decimal_after 0 text.now }
{
    let mut n = 0u64;
    for c in text {
        if !c.is_ascii_digit() {
            return None;
        }
        let next = u128::from(n) * 10 + u128::from(*c - b'0');
        if next > u128::from(u64::MAX) {
            return None;
        }
        n = next as u64;
    }
    Some(n)
}

/// The number that 2, 4 or 8 hexadecimal digits of either case write; `None` exactly where the text isn't that many
/// such digits.
pub fn read_hex(text: &[u8], digits: u8) -> Option<u32>
    requires { (digits ≡ 2) ⊎ (digits ≡ 4) ⊎ (digits ≡ 8) }
    ensures value { result ≡ hex_in digits text.now }
    ensures fits { IfSome result (λ n. n < 16 ^ digits) }
{
    if text.len() != digits as usize {
        return None;
    }
    hex_digits(text)
}

fn hex_digits(text: &[u8]) -> Option<u32>
    requires { length text.now ≤ 8 }
    ensures value { result ≡ hex_after 0 text.now }
    ensures fits { IfSome result (λ n. n < 16 ^ length text.now) }
{
    let mut n = 0u32;
    for c in text {
        match hex_digit(*c) {
            Some(digit) => n = n * 16 + u32::from(digit),
            None => return None,
        }
    }
    Some(n)
}

fn hex_digit(c: u8) -> Option<u8>
    ensures value { result ≡ hex_digit_value c }
    ensures small { IfSome result (λ digit. digit < 16) }
{
    match c {
        b'A'..=b'F' => Some(c - b'A' + 10),
        b'a'..=b'f' => Some(c - b'a' + 10),
        b'0'..=b'9' => Some(c - b'0'),
        _ => None,
    }
}
