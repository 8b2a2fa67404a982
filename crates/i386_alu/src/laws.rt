// What holds of the definitions.
ghost use Rattle.i386_alu.specs.Laws.{OddConditionsAreContraries, DivIsExact, IdivIsExact, LowestIsSet, HighestIsSet, ShiftsScale};

/// Each odd condition is the contrary of the one before.
pub fn odd_conditions_are_contraries()
    ensures { OddConditionsAreContraries }
{}

/// What DIV gives makes up the dividend, with a remainder below the divisor.
pub fn div_is_exact()
    ensures { DivIsExact }
{}

/// What IDIV gives makes up the dividend, with a remainder that is below the divisor in magnitude and has the dividend's sign
/// or is zero, all in signed numbers.
pub fn idiv_is_exact()
    ensures { IdivIsExact }
{}

/// The lowest bit that is set is set, and none below it.
pub fn lowest_is_set()
    ensures { LowestIsSet }
{}

/// A number is between the powers of two at its highest bit that is set.
pub fn highest_is_set()
    ensures { HighestIsSet }
{}

/// So many single shifts to the left multiply by a power of two, and to the right divide by it.
pub fn shifts_scale()
    ensures { ShiftsScale }
{}
