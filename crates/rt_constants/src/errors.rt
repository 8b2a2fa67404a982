// Error numbers (Linux, errno-base.h). A gate that fails answers the negative of one of these.
ghost use Rattle.std.specs.Prelude.{◌≡◌};
ghost use Rattle.rt_constants.specs.Errors.{failed as failed_by};

/// No thread is free.
pub const EAGAIN: u8 = 11;

/// There is one already, or a line is held, or no soft line is free.
pub const EBUSY: u8 = 16;

/// There is no such FIFO.
pub const ENODEV: u8 = 19;

/// An argument isn't one that the call takes.
pub const EINVAL: u8 = 22;

/// The bytes don't fit.
pub const ENOSPC: u8 = 28;

/// The result of a call that fails by an error number: its negative.
pub fn failed(error: u8) -> i32
    ensures { result ≡ failed_by error }
{
    -i32::from(error)
}
