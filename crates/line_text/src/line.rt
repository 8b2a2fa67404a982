// The text of a line, in place.
ghost use Rattle.std.specs.Prelude.{◌≡◌, ◌≤◌, ◌<◌, ◌^◌, [], ◌⊎◌, length, decimal};
ghost use Rattle.std.specs.Fmt.{signed_decimal};
ghost use Rattle.hex.specs.Hex.{encode_lower};
ghost use Rattle.line_text.specs.LineText.{Pushes, hex_text, bytes_text};

use itoa::Buffer;
use std::marker::Model;

/// How many bytes a line holds at most.
const CAPACITY: usize = 640;

/// The text of a line of up to 640 bytes, which takes no memory. It is seen as the list of its bytes.
///
/// A push appends its text where that fits, and else changes nothing and answers false.
#[derive(Drop)]
pub struct LineText {
    bytes: [u8; CAPACITY],
    len: usize,
}

impl Model for LineText {
    ghost use Rattle.std.specs.Prelude.{List, ℕ, take, ◌≤◌};

    ghost Value = { List ℕ };

    ghost view = { λ t. take t.len t.bytes };

    ghost invariant = { λ t. t.len ≤ 640 };
}

impl LineText {
    /// An empty line.
    pub fn new() -> LineText
        ensures { result ≡ [] }
    {
        LineText {
            bytes: [0; CAPACITY],
            len: 0,
        }
    }

    /// The text.
    pub fn as_bytes(&self) -> &[u8]
        ensures text { result.now ≡ self.now }
        ensures short { length self.now ≤ 640 }
    {
        &self.bytes[..self.len]
    }

    /// Appends a text.
    pub fn push_text(&mut self, text: &[u8]) -> bool
        ensures { Pushes self.old self.new text.now result }
    {
        if text.len() > CAPACITY - self.len {
            return false;
        }
        self.bytes[self.len..self.len + text.len()].copy_from_slice(text);
        self.len += text.len();
        true
    }

    /// Appends a number in decimal digits, without leading zeros.
    pub fn push_decimal(&mut self, n: u64) -> bool
        ensures { Pushes self.old self.new (decimal n) result }
    {
        let mut buffer = Buffer::new();
        self.push_text(buffer.format(n).as_bytes())
    }

    /// Appends a number in decimal digits, with `-` before a negative one.
    pub fn push_signed(&mut self, n: i32) -> bool
        ensures { Pushes self.old self.new (signed_decimal n) result }
    {
        let mut buffer = Buffer::new();
        self.push_text(buffer.format(n).as_bytes())
    }

    /// Appends the 2, 4 or 8 hexadecimal digits of a number, in lower case.
    pub fn push_hex(&mut self, n: u32, digits: u8) -> bool
        requires digits { (digits ≡ 2) ⊎ (digits ≡ 4) ⊎ (digits ≡ 8) }
        requires fits { n < 16 ^ digits }
        ensures { Pushes self.old self.new (hex_text digits n) result }
    {
        let word = n.to_be_bytes();
        self.push_pairs(&word[4 - (digits / 2) as usize..])
    }

    /// Appends two hexadecimal digits for each byte, in lower case, or `-` where there is none.
    pub fn push_bytes(&mut self, bytes: &[u8]) -> bool
        ensures { Pushes self.old self.new (bytes_text bytes.now) result }
    {
        if bytes.is_empty() {
            self.push_text(b"-")
        } else {
            self.push_pairs(bytes)
        }
    }

    fn push_pairs(&mut self, bytes: &[u8]) -> bool
        ensures { Pushes self.old self.new (encode_lower bytes.now) result }
    {
        if bytes.len() > (CAPACITY - self.len) / 2 {
            return false;
        }
        let end = self.len + 2 * bytes.len();
        let _ = hex::encode_to_slice(bytes, &mut self.bytes[self.len..end]);
        self.len = end;
        true
    }
}
