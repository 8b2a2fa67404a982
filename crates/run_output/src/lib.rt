//! The order in which a run's lines are printed, as a definition: real-time lines, hardware lines and guest lines in one.
#![tactic(auto)]

ghost use Rattle.run_output.specs.Halves.{LosesNothing};

/// Each half of a run and the hardware find all their lines among the merged ones, and no others.
pub fn output_loses_nothing()
    ensures { LosesNothing }
{}
