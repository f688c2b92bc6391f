//! What a log has at a position, and at its end. A log is a list of entries, of which the first has
//! position 1.
ghost use Rattle.std.specs.Prelude.{◌≡◌};
ghost use Rattle.std.specs.Option.{option_copied};
ghost use Rattle.ring_types.specs.Logs as spec;

use crate::entries::{Entry, Opid, Payload, RegionId};

/// The entry at a position counted from 1.
pub fn entry_at(log: &[Entry], position: u64) -> Option<&Entry>
    ensures { option_copied result ≡ spec.entry_at log.now position }
{
    if position == 0 {
        return None;
    }
    log.get(position as usize - 1)
}

/// The term of the entry at a position; 0 at position 0 and past the end.
pub fn term_at(log: &[Entry], position: u64) -> u64
    ensures { result ≡ spec.term_at log.now position }
{
    match entry_at(log, position) {
        Some(entry) => entry.opid.term,
        None => 0,
    }
}

/// The region of the entry at a position; the home region at position 0 and past the end.
pub fn region_at(home: RegionId, log: &[Entry], position: u64) -> RegionId
    ensures { result ≡ spec.region_at home log.now position }
{
    match entry_at(log, position) {
        Some(entry) => entry.region,
        None => home,
    }
}

/// The opid at the end of the log; without entries, 0:0.
pub fn last(log: &[Entry]) -> Opid
    ensures { result ≡ spec.last log.now }
{
    let position = log.len() as u64;
    Opid {
        term: term_at(log, position),
        position,
    }
}

/// Whether the two name one entry.
pub fn same_opid(a: Opid, b: Opid) -> bool
    ensures { result ≡ spec.same_opid a b }
{
    a.term == b.term && a.position == b.position
}

/// Whether `a` has a later term, or the same term and no smaller position (Raft's up-to-date test).
pub fn at_least(a: Opid, b: Opid) -> bool
    ensures { result ≡ spec.at_least a b }
{
    b.term < a.term || (a.term == b.term && b.position <= a.position)
}

/// Whether the log has an entry of this opid.
pub fn has_opid(log: &[Entry], opid: Opid) -> bool
    ensures { result ≡ spec.has_opid log.now opid }
{
    log.iter().any(|entry| same_opid(entry.opid, opid))
}

/// Whether the entry ends a binary log file.
pub fn is_rotate(entry: &Entry) -> bool
    ensures { result ≡ spec.is_rotate entry.now }
{
    match entry.payload {
        Payload::NoOp => false,
        Payload::Rotate => true,
        Payload::Txn(_) => false,
    }
}

/// How many entries end a binary log file.
pub fn rotates(log: &[Entry]) -> u64
    ensures { result ≡ spec.rotates log.now }
{
    let mut count = 0;
    for entry in log {
        if is_rotate(entry) {
            count += 1;
        }
    }
    count
}
