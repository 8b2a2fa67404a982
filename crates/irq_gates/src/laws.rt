// Where no owner changes.
ghost use Rattle.irq_gates.specs.Owners.{EntriesLeaveOwners};

/// Where the hard lines keep their handlers no line's owner changes, and without a mark the guest is asked for the same lines.
pub fn leaves_owners()
    ensures { EntriesLeaveOwners }
{}
