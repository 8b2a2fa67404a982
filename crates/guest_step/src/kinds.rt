// How a line shows a breach.
ghost use Rattle.std.specs.Prelude.{◌≡◌};
ghost use Rattle.bare_machine.specs.Unit.{use_kind, access_kind, breach_kind};

use breach_monitor::Breach;
use cpu_state::{Access, Privileged};
use trace_lines::BreachKind;

fn use_kind(kind: Privileged) -> BreachKind
    ensures { result ≡ use_kind kind }
{
    match kind {
        Privileged::Cli => BreachKind::Cli,
        Privileged::Sti => BreachKind::Sti,
        Privileged::Iret => BreachKind::Iret,
        Privileged::Pushf => BreachKind::Pushf,
        Privileged::Popf => BreachKind::Popf,
        Privileged::Hlt => BreachKind::Hlt,
    }
}

/// The first access outside, at its address.
pub fn access_kind(access: Access, at: u32) -> BreachKind
    ensures { result ≡ access_kind access at }
{
    match access {
        Access::Load => BreachKind::Load(at),
        Access::Store => BreachKind::Store(at),
        Access::Fetch => BreachKind::Fetch(at),
    }
}

/// What the guest did that it may not do.
pub fn breach_kind(breach: Breach) -> BreachKind
    ensures { result ≡ breach_kind breach }
{
    match breach {
        Breach::Privileged(kind) => use_kind(kind),
        Breach::Int(vector) => BreachKind::Int(u32::from(vector)),
        Breach::Port(port) => BreachKind::Port(port),
        Breach::Outside(access, at) => access_kind(access, at),
    }
}
