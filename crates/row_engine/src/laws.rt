ghost use Rattle.row_engine.specs.Laws.{LastChangeDecides};

/// The last change of a valid log that names a table and a key decides the row of that key.
pub fn law_last_change()
    ensures { LastChangeDecides }
{}
