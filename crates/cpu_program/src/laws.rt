ghost use Rattle.cpu_program.specs.Laws.{GivingKeepsWant, ReceivingKeepsWant, ThingsMoveOnTheirWords, WantsWithin, OffWantsNothing, GiftsComeBack};

/// The laws of a program, over all actors within bounds. It does nothing when it runs.
pub fn program_laws()
    ensures giving_keeps { GivingKeepsWant }
    ensures receiving_keeps { ReceivingKeepsWant }
    ensures moves { ThingsMoveOnTheirWords }
    ensures within { WantsWithin }
    ensures off { OffWantsNothing }
    ensures comes_back { GiftsComeBack }
{}
