// Events.

/// What a device meets from outside.
#[derive(Clone, Copy, Debug, PartialEq, Eq)]
pub enum Event {
    /// The interrupt line with this number rises: 1, or 5 to 15.
    Line(u8),
    /// COM1 receives this byte.
    Com1(u8),
    /// COM2 receives this byte.
    Com2(u8),
}
