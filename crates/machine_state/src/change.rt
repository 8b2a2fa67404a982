// What a unit did to the dues.

/// Whether a unit may have changed the dues, and then the nearest one before it, in ticks.
#[derive(Clone, Copy, Debug)]
pub enum DueChange {
    /// All dues stayed.
    Same,
    /// They may have changed: this was the nearest, if there was one.
    Was(Option<u64>),
}
