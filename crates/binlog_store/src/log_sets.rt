//! The GTID set of a log, grown by the log's entries.
ghost use Rattle.std.specs.Prelude.{◌≡◌, ◌≤◌, ◌++◌, ◌∷◌, [], IfOk, List, OnOk, length};
ghost use Rattle.ring_types.specs.declared.entries.Entry.{Entry};
ghost use Rattle.ring_types.specs.Gtids as sets;
ghost use Rattle.gtid_set.specs.Laws.{AreInRange};
ghost use Rattle.event_control.specs.ControlEvents.{head};
ghost use Rattle.entry_group.specs.Files.{set_in_head};
ghost use Rattle.event_frame.specs.declared.frames.TheConstants.{MOST_BODY_BYTES};
ghost use Rattle.binlog_store.specs.Held.{IsNumbered};

use event_control::write_head;
use event_frame::MOST_BODY_BYTES;
use gtid_set::GtidSet;
use ring_types::{Entry, List, Memory, Payload};
use std::alloc::Global;

/// Puts in the GTID of an entry, if it has one.
pub(crate) fn put_gtid(gtids: &mut GtidSet, entry: &Entry) -> Result<(), Memory>
    requires { IsNumbered entry.now }
    ensures { OnOk result ((log : List Entry) → gtids.old ≡ sets.gtids log → AreInRange (sets.gtids_in (log ++ entry.now ∷ [])) → gtids.new ≡ sets.gtids (log ++ entry.now ∷ [])) }
{
    match &entry.payload {
        Payload::NoOp => Ok(()),
        Payload::Rotate => Ok(()),
        Payload::Txn(txn) => gtids.add(txn.gtid),
    }
}

/// The bytes of the set that stands in the head of a file, if these are the transactions of the files
/// before it: those of the empty set if there are too many for one event.
fn set_for_head(alloc: Global, gtids: &GtidSet) -> Result<List<u8>, Memory>
    ensures is { IfOk result (λ it. it ≡ set_in_head gtids.now) }
    ensures short { IfOk result (λ it. length it ≤ MOST_BODY_BYTES) }
{
    let set = gtids.to_bytes(alloc)?;
    if set.len() as u64 <= MOST_BODY_BYTES {
        return Ok(set);
    }
    let empty = GtidSet::new(alloc);
    empty.to_bytes(alloc)
}

/// The head of a file, if these are the transactions of the files before it.
pub(crate) fn head_of(alloc: Global, gtids: &GtidSet) -> Result<Vec<u8>, Memory>
    ensures { IfOk result (λ it. it.items ≡ head (set_in_head gtids.now)) }
{
    let set = set_for_head(alloc, gtids)?;
    let mut out = Vec::new(alloc);
    write_head(&mut out, set.as_slice())?;
    Ok(out)
}
