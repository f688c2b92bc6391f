ghost use Rattle.engine_redo.specs.Laws.{OneFaultAtMost, StandsForOne, StandsUndamaged};

/// A content of a disk stands for at most one engine.
pub fn law_one_engine()
    ensures { StandsForOne }
{}

/// If it stands for one, it has no fault.
pub fn law_undamaged()
    ensures { StandsUndamaged }
{}

/// It has at most one fault.
pub fn law_one_fault()
    ensures { OneFaultAtMost }
{}
