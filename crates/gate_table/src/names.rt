// The names of the gates.
ghost use Rattle.std.specs.Prelude.{◌≡◌};
ghost use Rattle.gate_table.specs.Names.{gate_of};

/// A gate of real-time activities, as RTLinux 3 and POSIX name it; `Other` is every function that isn't one.
#[derive(Clone, Copy, Debug, PartialEq, Eq)]
pub enum GateName {
    Gethrtime,
    PthreadCreate,
    PthreadDelete,
    PthreadSuspend,
    PthreadWakeup,
    PthreadMakePeriodic,
    PthreadWait,
    PthreadSelf,
    PthreadSetprio,
    PthreadGetprio,
    FifoCreate,
    FifoDestroy,
    FifoPut,
    FifoGet,
    FifoFlush,
    FifoCreateHandler,
    FifoCount,
    RequestIrq,
    FreeIrq,
    GetSoftIrq,
    FreeSoftIrq,
    PendIrq,
    Nanosleep,
    Print,
    Other,
}

// The gates of functions 0 to 24. The numbers are this project's own.
static NAMES: [GateName; 25] = [
    GateName::Other,
    GateName::Gethrtime,
    GateName::PthreadCreate,
    GateName::PthreadDelete,
    GateName::PthreadSuspend,
    GateName::PthreadWakeup,
    GateName::PthreadMakePeriodic,
    GateName::PthreadWait,
    GateName::PthreadSelf,
    GateName::PthreadSetprio,
    GateName::PthreadGetprio,
    GateName::FifoCreate,
    GateName::FifoDestroy,
    GateName::FifoPut,
    GateName::FifoGet,
    GateName::FifoFlush,
    GateName::FifoCreateHandler,
    GateName::FifoCount,
    GateName::RequestIrq,
    GateName::FreeIrq,
    GateName::GetSoftIrq,
    GateName::FreeSoftIrq,
    GateName::PendIrq,
    GateName::Nanosleep,
    GateName::Print,
];

/// The gate of a function, the number that is in EAX at INT F8h.
#[tactic(auto, unfolding(crate::specs::Names::gate_of))]
pub fn gate_name(function: u32) -> GateName
    ensures { result ≡ gate_of function }
{
    if function < 25 {
        NAMES[function as usize]
    } else {
        GateName::Other
    }
}
