// The guest's soft side.

use pending_irqs::Pending;
use soft_flags::SoftFlags;
use trace_lines::Mode;

/// What the guest has beside its registers and its memory: its flag, shadow, mask and table, the lines that are marked for it, whether it
/// runs, and its timer.
#[derive(Clone, Copy, Debug)]
pub struct Guest {
    pub soft: SoftFlags,
    pub pending: Pending,
    pub mode: Mode,
    /// The tick in which the timer was set.
    pub timer_start: u32,
    /// The ticks of a period, at most 1,000,000,000; with 0 the timer is off.
    pub timer_period: u32,
}
