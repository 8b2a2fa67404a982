// What holds of every run that is shown.
ghost use Rattle.rtlinux_top.specs.Solution.{NoOther, ShowsOutput, ShowsSolution};

/// The lines of a run are the solution of both equations: the guest's are those of the bare machine beside the real-time lines, and these
/// are those of the schedule beside the guest's calls. No other lines are, and what is shown is the output of both machines in its order.
pub fn shows_solution()
    ensures solution { ShowsSolution }
    ensures no_other { NoOther }
    ensures output { ShowsOutput }
{}
