// The widths of operands.
ghost use Rattle.std.specs.Prelude.{◌≡◌, ◌≤◌};
ghost use Rattle.cpu_state.specs.Width.{size, bits, modulus, top};

/// The width of an operand: a byte, a word or a doubleword (Intel 80386 manual, section 2.2).
#[derive(Clone, Copy, PartialEq, Eq, Debug)]
pub enum Width {
    W8,
    W16,
    W32,
}

impl Width {
    /// How many bytes an operand has.
    pub fn bytes(self) -> u32
        ensures { result ≡ size self }
    {
        match self {
            Width::W8 => 1,
            Width::W16 => 2,
            Width::W32 => 4,
        }
    }

    /// How many bits an operand has.
    pub fn bits(self) -> u32
        ensures value { result ≡ bits self }
        ensures small { result ≤ 32 }
    {
        8 * self.bytes()
    }

    /// One more than the greatest unsigned operand.
    pub fn modulus(self) -> u64
        ensures { result ≡ modulus self }
    {
        match self {
            Width::W8 => 0x100,
            Width::W16 => 0x1_0000,
            Width::W32 => 0x1_0000_0000,
        }
    }

    /// Whether the top bit of an operand is set, which is its sign.
    pub fn top_bit(self, a: u32) -> bool
        ensures { result ≡ top self a }
    {
        u64::from(a) >= self.modulus() / 2
    }
}
