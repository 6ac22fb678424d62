ghost use Rattle.arrival.specs.Laws.{OnlyTheClaimTakesTheChair, EntryLeavesTo, GatheringMovesNothing, SignalsOthers, SignalsMissing, GatheringLeavesTo, OnlyTheReportGivesTheDesk, ReportLeavesTo, EntryWantsWithin, GatheringWantsWithin, ReportWantsWithin, EntryStaysWithin, GatheringStaysWithin, ReportStaysWithin};

/// The laws of the entry. It does nothing when it runs.
pub fn entry_laws()
    ensures only_the_claim_takes { OnlyTheClaimTakesTheChair }
    ensures leaves_to { EntryLeavesTo }
    ensures wants_within { EntryWantsWithin }
    ensures stays_within { EntryStaysWithin }
{}

/// The laws of the gathering. It does nothing when it runs.
pub fn gather_laws()
    ensures moves_nothing { GatheringMovesNothing }
    ensures signals_others { SignalsOthers }
    ensures signals_missing { SignalsMissing }
    ensures leaves_to { GatheringLeavesTo }
    ensures wants_within { GatheringWantsWithin }
    ensures stays_within { GatheringStaysWithin }
{}

/// The laws of an AP's report. It does nothing when it runs.
pub fn report_laws()
    ensures only_the_report_gives { OnlyTheReportGivesTheDesk }
    ensures leaves_to { ReportLeavesTo }
    ensures wants_within { ReportWantsWithin }
    ensures stays_within { ReportStaysWithin }
{}
