// What the definitions say of usual words.
ghost use Rattle.command_words.specs.Rows.{ReadsUsualWords, RefusesOtherWords, ReadsUsualMakeWords, RefusesOtherMakeWords};

/// The option may stand before the system or behind it, and its value in the next word or in the same one; the flag may stand
/// anywhere beside them.
#[tactic(auto, using(crate::proofs::Computed::usual))]
pub fn reads_usual_words()
    ensures { ReadsUsualWords }
{}

/// What is missing, twice there, shortened, unknown or of a wrong form is refused, and so are flags for help and a flag with a
/// value.
#[tactic(auto, using(crate::proofs::Computed::others))]
pub fn refuses_other_words()
    ensures { RefusesOtherWords }
{}

/// Behind `make` too the option may stand before the number or behind it; the least and the greatest number are taken, and
/// leading zeros.
#[tactic(auto, using(crate::proofs::Computed::usual_make))]
pub fn reads_usual_make_words()
    ensures { ReadsUsualMakeWords }
{}

/// A number above the greatest is refused behind `make`, and so is what is missing, twice there, unknown or of a wrong form, and
/// the flag of `run`.
#[tactic(auto, using(crate::proofs::Computed::others_make))]
pub fn refuses_other_make_words()
    ensures { RefusesOtherMakeWords }
{}
