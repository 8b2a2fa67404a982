// What the definition says of some numbers.

ghost use Rattle.work_maker.specs.Rows.{DrawsNumbers, DrawsScripts, MakesCode};

/// Threads and the period of the guest's timer.
#[tactic(auto, using(crate::proofs::Computed::numbers))]
pub fn draws_numbers()
    ensures { DrawsNumbers }
{}

/// Events.
#[tactic(auto, using(crate::proofs::Computed::scripts))]
pub fn draws_scripts()
    ensures { DrawsScripts }
{}

/// Bytes of the module and of the guest.
#[tactic(auto, using(crate::proofs::Computed::code))]
pub fn makes_code()
    ensures { MakesCode }
{}
