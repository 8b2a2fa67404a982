// What a unit comes to.
use cpu_state::{Access, Privileged};

/// What a unit came to. Only in the first case anything changed.
#[derive(Clone, Copy, PartialEq, Eq, Debug)]
pub enum Stepped {
    /// The unit was performed.
    Next,
    /// The processor's own exception of this vector: 0, the divide error, or 6, the invalid opcode.
    Trap(u8),
    /// INT of this vector, INT3, or INTO with OF set.
    Interrupt(u8),
    /// An instruction on the hard interrupt flag, or HLT, of so many bytes.
    Privileged(Privileged, u8),
    /// The first access that lies outside, by the address of its first byte.
    Outside(Access, u32),
    /// The first port of an access to ports that aren't all the owner's.
    Port(u16),
}
