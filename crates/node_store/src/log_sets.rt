//! The GTID set of a log, grown by the log's entries.
ghost use Rattle.std.specs.Prelude.{◌≡◌, ◌∷◌, [], ◌≤◌, IfOk, OnErr, OnOk, length, take};
ghost use Rattle.std.specs.List.{All};
ghost use Rattle.ring_types.specs.Gtids.{gtids_in};
ghost use Rattle.gtid_set.specs.Laws.{AreInRange};
ghost use Rattle.node_store.specs.Kept.{IsNumbered, IsSetOf, Lengthens};

use gtid_set::GtidSet;
use ring_types::{Entry, Memory, Payload};
use std::alloc::Global;

/// Puts in the GTID of an entry, if it has one.
fn put_gtid(gtids: &mut GtidSet, entry: &Entry) -> Result<(), Memory>
    requires { IsNumbered entry.now }
    ensures ok { OnOk result (Lengthens (entry.now ∷ []) gtids.old gtids.new) }
    ensures err { OnErr result (gtids.new ≡ gtids.old) }
{
    match &entry.payload {
        Payload::NoOp => Ok(()),
        Payload::Rotate => Ok(()),
        Payload::Txn(txn) => gtids.add(txn.gtid),
    }
}

/// Puts in the GTIDs of the first entries, and tells of how many entries: of fewer than all only
/// where memory was wanting.
pub(crate) fn put_gtids(gtids: &mut GtidSet, entries: &[Entry]) -> usize
    requires { All IsNumbered entries.now }
    ensures within { result ≤ length entries.now }
    ensures put { Lengthens (take result entries.now) gtids.old gtids.new }
{
    for (at, entry) in entries.iter().enumerate() {
        if put_gtid(gtids, entry).is_err() {
            return at;
        }
    }
    entries.len()
}

/// The GTID set of a log.
pub(crate) fn gtids_of(alloc: Global, log: &[Entry]) -> Result<GtidSet, Memory>
    requires { AreInRange (gtids_in log.now) }
    ensures { IfOk result (IsSetOf log.now) }
{
    let mut gtids = GtidSet::new(alloc);
    for entry in log {
        put_gtid(&mut gtids, entry)?;
    }
    Ok(gtids)
}
