ghost use Rattle.event_frame.specs.Laws.{WrittenIsRead, ReadIsAtFront};

/// An event that was written is read, with its kind, flags and body, whatever stands behind it.
pub fn law_event_again()
    ensures { WrittenIsRead }
{}

/// Bytes in which an event is read begin with that event.
pub fn law_event_takes()
    ensures { ReadIsAtFront }
{}
