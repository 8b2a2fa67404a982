// The lines of the hardware.

ghost use Rattle.schedule_rows.specs.AcknowledgementRows.{InOrder, LateAck, OwnerAck, PendingEdges};
ghost use Rattle.schedule_rows.specs.OneShotRows.{BothTimers, Chain, EqualShots, GuestTimer, LongShots, PeriodicShots};

/// When the one-shot is set, row by row.
pub fn one_shot_rows()
    ensures guest_timer { GuestTimer }
    ensures periodic_shots { PeriodicShots }
    ensures long_shots { LongShots }
    ensures both_timers { BothTimers }
    ensures equal_shots { EqualShots }
    ensures chain { Chain }
{}

/// When latched lines are acknowledged, and the order of all lines, row by row.
pub fn acknowledgement_rows()
    ensures pending_edges { PendingEdges }
    ensures late_ack { LateAck }
    ensures owner_ack { OwnerAck }
    ensures in_order { InOrder }
{}
