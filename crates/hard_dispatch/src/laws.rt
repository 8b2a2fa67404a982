// What a drain does with each line, and what becomes of the sets of asked lines.
ghost use Rattle.std.specs.Prelude.{ℕ};
ghost use Rattle.rt_irqs.specs.Irqs.{Lines, IsLines};
ghost use Rattle.hard_dispatch.specs.Dispatch.{GoesToOwner};
ghost use Rattle.hard_dispatch.specs.Sets.{DrainKeepsSets, OwnerChanges, RisesAsk};

/// Nothing that stood is lost, and nothing is given to two: each line goes to its one owner.
pub fn goes_to_owner()
    ensures { (lines : ℕ) (l : Lines) (n : ℕ) → IsLines l → GoesToOwner lines l n }
{}

/// What is asked of the guest, and what is marked for modules, stays over a drain: what was latched is marked.
pub fn drained_sets()
    ensures { DrainKeepsSets }
{}

/// A rise of a line goes to its one owner: it is asked of the guest, marked for a module, or neither.
pub fn rises_ask()
    ensures { RisesAsk }
{}

/// Where a line isn't latched, a change of who holds it changes no set.
pub fn changes_owner()
    ensures { OwnerChanges }
{}
