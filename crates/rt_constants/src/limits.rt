// Limits of the machine and of what both sides ask of it. All are this project's own.

/// The greatest number of ticks of the guest's timer, of a period and of a sleep.
pub const SPAN_LIMIT: u32 = 1_000_000_000;

/// The latest tick of a thread's first due.
pub const LATEST_START: u32 = 2_000_000_000;

/// How many bytes one FIFO call or one print has at most, so that no line shows more.
pub const BYTES_LIMIT: u32 = 256;

/// Threads have the numbers below this one.
pub const THREADS_LIMIT: u32 = 64;

/// The greatest priority of a thread.
pub const HIGHEST_PRIORITY: u32 = 255;

/// FIFOs have the numbers below this one.
pub const FIFOS_LIMIT: u32 = 64;

/// How many bytes one FIFO holds at most.
pub const FIFO_LIMIT: u32 = 16_384;

/// How many ticks the one-shot timer counts at most: 65,536 pulses of the 8254, two a tick.
pub const SHOT_LIMIT: u32 = 32_768;
