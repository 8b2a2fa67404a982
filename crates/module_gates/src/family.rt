// The gates by what they work on.
ghost use Rattle.std.specs.Prelude.{◌≡◌};
ghost use Rattle.module_gates.specs.Families.{family_of};

use gate_table::GateName;

/// What a gate works on: the threads with their ready list and dues, the FIFOs, the interrupt lines, or none of these.
#[derive(Clone, Copy)]
pub enum Family {
    Threads,
    Fifos,
    Lines,
    Alone,
}

/// What a gate of this name works on.
pub fn family_for(name: GateName) -> Family
    ensures { result ≡ family_of name }
{
    match name {
        GateName::PthreadCreate
        | GateName::PthreadDelete
        | GateName::PthreadSuspend
        | GateName::PthreadWakeup
        | GateName::PthreadMakePeriodic
        | GateName::PthreadWait
        | GateName::PthreadSetprio
        | GateName::PthreadGetprio
        | GateName::Nanosleep => Family::Threads,
        GateName::FifoCreate
        | GateName::FifoDestroy
        | GateName::FifoPut
        | GateName::FifoGet
        | GateName::FifoFlush
        | GateName::FifoCreateHandler
        | GateName::FifoCount => Family::Fifos,
        GateName::RequestIrq
        | GateName::FreeIrq
        | GateName::GetSoftIrq
        | GateName::FreeSoftIrq
        | GateName::PendIrq => Family::Lines,
        _ => Family::Alone,
    }
}
