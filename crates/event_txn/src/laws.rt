ghost use Rattle.event_txn.specs.Laws.{WrittenIsRead, NoneBeginsAnother, EventsHaveSize, ReadIsAtFront};

/// What [`write_txn`](crate::write_txn) put is what [`read_txn`](crate::read_txn) gives, with the
/// size of the events, whatever stands behind them.
pub fn law_txn_again()
    ensures { WrittenIsRead }
{}

/// What is read is the transaction whose events the bytes begin with; its changes fit the tables.
pub fn law_txn_takes()
    ensures { ReadIsAtFront }
{}

/// No transaction's events begin another's at the same place: equal bytes are those of one
/// transaction, and the same bytes stand behind.
pub fn law_txn_front()
    ensures { NoneBeginsAnother }
{}

/// The events of a transaction take the bytes that its group has, but for the 42 of the opid event.
pub fn law_txn_length()
    ensures { EventsHaveSize }
{}
