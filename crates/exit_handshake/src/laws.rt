ghost use Rattle.exit_handshake.specs.Laws.{CloseTakesMissing, CloseLeavesTo, CloseWantsWithin, CloseStaysWithin, ExitGivesBack, ExitLeavesTo, ExitWantsWithin, ExitStaysWithin};

/// The laws of a close. It does nothing when it runs.
pub fn close_laws()
    ensures only_missing_desks_are_taken { CloseTakesMissing }
    ensures leaves_to { CloseLeavesTo }
    ensures wants_within { CloseWantsWithin }
    ensures stays_within { CloseStaysWithin }
{}

/// The laws of an exit. It does nothing when it runs.
pub fn exit_laws()
    ensures only_desks_and_chair_are_given { ExitGivesBack }
    ensures leaves_to { ExitLeavesTo }
    ensures wants_within { ExitWantsWithin }
    ensures stays_within { ExitStaysWithin }
{}
