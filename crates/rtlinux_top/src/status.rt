// The answers of the top call.
ghost use Rattle.std.specs.Prelude.{◌≡◌};
ghost use Rattle.rtlinux_top.specs.Verdict.{refused_by as refused_of, status_by};

use run_files::Cause;

/// What failed outside.
#[derive(Clone, Copy, Debug, PartialEq, Eq)]
pub enum Device {
    /// a fetch from the store
    Read,
    /// a put into the sink
    Write,
}

/// The number of a refusal, as its error line shows it: `number`, or `number.part` where the part isn't 0.
#[derive(Clone, Copy, Debug, PartialEq, Eq)]
pub struct Code {
    pub number: u8,
    pub part: u8,
}

/// The answer of the top call.
#[derive(Clone, Copy, Debug, PartialEq, Eq)]
pub enum Status {
    /// All ticks ran and all of the output was written, with no breach and no fault among the lines.
    Done,
    /// An input was refused, and the error line was written.
    Refused(Code),
    /// What is outside failed.
    Outside(Device),
    /// All ticks ran and all of the output was written, with a breach of the guest among the lines.
    Breach,
    /// All ticks ran and all of the output was written, with a fault of a real-time activity among the lines, and no
    /// breach.
    RtFault,
    /// The words were refused, and the error line was written.
    Usage,
    /// Memory was refused. Nothing was written.
    NoMemory,
}

impl Status {
    ghost use Rattle.rtlinux_top.specs.Status.{number_of};

    /// The status that the program ends with.
    pub fn number(&self) -> u8
        ensures { result ≡ number_of self.now }
    {
        match self {
            Status::Done => 0,
            Status::Refused(_) => 1,
            Status::Outside(_) => 2,
            Status::Breach => 3,
            Status::RtFault => 4,
            Status::Usage => 5,
            Status::NoMemory => 9,
        }
    }
}

fn refused(number: u8, part: u8) -> Status
    ensures { result ≡ refused_of number part }
{
    Status::Refused(Code { number, part })
}

/// The answer to a refusal.
pub fn status_by(cause: Cause) -> Status
    ensures { result ≡ status_by cause }
{
    match cause {
        Cause::Words => Status::Usage,
        Cause::Ticks => refused(40, 0),
        Cause::Read => Status::Outside(Device::Read),
        Cause::TooLarge => refused(12, 0),
        Cause::Document => refused(10, 0),
        Cause::Field => refused(11, 0),
        Cause::Image(rule) => refused(20, rule),
        Cause::Outside => refused(21, 0),
        Cause::Overlap => refused(22, 0),
        Cause::Line(_) => refused(30, 0),
    }
}
