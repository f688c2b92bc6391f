ghost use Rattle.prepared_txns.specs.Laws.{EngineFollows, IsFreeWithoutConflict};

/// An engine that sees only actions, and not the log, keeps up with its node: the transaction that a
/// commit applies is the front pair, and not read from the log again.
pub fn law_engine_follows()
    ensures { EngineFollows }
{}

/// A transaction meets no conflict exactly where an action that prepares it finds no key held.
pub fn law_no_conflict()
    ensures { IsFreeWithoutConflict }
{}
