use crate::duplication::{Duplicate, Memory};
use crate::lists::List;
use crate::values::Txn;
use std::alloc::Global;
use std::marker::Model;

/// The number of a member of the ring. Contracts see the number itself.
#[derive(Clone, Copy, Debug, PartialEq, Eq)]
pub struct NodeId(pub u32);

impl Model for NodeId {
    ghost use Rattle.std.specs.Prelude.{ℕ};

    ghost Value = { ℕ };

    ghost view = { λ id. id.0 };

    ghost inverse = { λ number. record { 0 = number } };
}

/// The place of a region in the ring's declaration, counted from 1. Contracts see the number itself.
#[derive(Clone, Copy, Debug, PartialEq, Eq)]
pub struct RegionId(pub u16);

impl Model for RegionId {
    ghost use Rattle.std.specs.Prelude.{ℕ};

    ghost Value = { ℕ };

    ghost view = { λ id. id.0 };

    ghost inverse = { λ number. record { 0 = number } };
}

/// The term in which an entry was written and its position in the log, counted from 1 (Raft's term
/// and index). Opids are ordered by term, then by position.
#[derive(Clone, Copy, Debug, PartialEq, Eq)]
pub struct Opid {
    pub term: u64,
    pub position: u64,
}

/// What an entry of the log holds.
#[derive(Debug, PartialEq, Eq, Drop)]
pub enum Payload {
    /// The entry with which a leader begins its term (Raft).
    NoOp,
    /// Ends the current binary log file.
    Rotate,
    Txn(Txn),
}

/// An entry of the log, with the region of the leader that wrote it.
#[derive(Debug, PartialEq, Eq, Drop)]
pub struct Entry {
    pub opid: Opid,
    pub region: RegionId,
    pub payload: Payload,
}

/// A place in the binary log files: the file's number, the offset in bytes, and the number of the
/// transaction within the file, counted from 1.
#[derive(Clone, Copy)]
pub struct Place {
    pub file: u32,
    pub at: u64,
    pub sequence: u64,
}

/// The place at which the entry of a position begins.
#[derive(Clone, Copy)]
pub struct Anchor {
    pub position: u64,
    pub place: Place,
}

/// A vote that a node cast: for a candidate, in a term, with the candidate's region (FlexiRaft keeps
/// the history of these).
#[derive(Clone, Copy, Debug, PartialEq, Eq)]
pub struct Vote {
    pub term: u64,
    pub candidate: NodeId,
    pub region: RegionId,
}

/// A vote that a candidate was granted, with the votes that the voter reports (FlexiRaft).
#[derive(Debug, PartialEq, Eq, Drop)]
pub struct Grant {
    pub voter: NodeId,
    pub votes: List<Vote>,
}

/// A transaction that the engine has prepared, with the opid of its entry.
#[derive(Debug, PartialEq, Eq, Drop)]
pub struct Pair {
    pub opid: Opid,
    pub txn: Txn,
}

/// The first change, counted from 0, that writes a key which a prepared transaction writes, and
/// that transaction's opid.
#[derive(Clone, Copy)]
pub struct Conflict {
    pub change: u64,
    pub holder: Opid,
}

/// How much of each write since the last sync a crash of a memory disk leaves.
#[derive(Clone, Copy, PartialEq)]
pub enum Keep {
    Nothing,
    Half,
    All,
}

/// Where a node's disk stops or fails: at which of its calls, counted from 1 in an event.
#[derive(Clone, Copy, PartialEq)]
pub enum CutAt {
    /// At this call and all later ones, until a crash, which keeps that part of each write.
    Stop { call: u64, keep: Keep },
    /// At this call alone.
    Fail { call: u64 },
}

impl Duplicate for Opid {
    fn copy(&self, _alloc: Global) -> Result<Opid, Memory> {
        Ok(*self)
    }
}

impl Duplicate for NodeId {
    fn copy(&self, _alloc: Global) -> Result<NodeId, Memory> {
        Ok(*self)
    }
}

impl Duplicate for RegionId {
    fn copy(&self, _alloc: Global) -> Result<RegionId, Memory> {
        Ok(*self)
    }
}

impl Duplicate for Vote {
    fn copy(&self, _alloc: Global) -> Result<Vote, Memory> {
        Ok(*self)
    }
}

impl Duplicate for Payload {
    fn copy(&self, alloc: Global) -> Result<Payload, Memory> {
        match self {
            Payload::NoOp => Ok(Payload::NoOp),
            Payload::Rotate => Ok(Payload::Rotate),
            Payload::Txn(txn) => Ok(Payload::Txn(txn.copy(alloc)?)),
        }
    }
}

impl Duplicate for Entry {
    fn copy(&self, alloc: Global) -> Result<Entry, Memory> {
        Ok(Entry {
            opid: self.opid,
            region: self.region,
            payload: self.payload.copy(alloc)?,
        })
    }
}

impl Duplicate for Grant {
    fn copy(&self, alloc: Global) -> Result<Grant, Memory> {
        Ok(Grant {
            voter: self.voter,
            votes: self.votes.copy(alloc)?,
        })
    }
}

impl Duplicate for Pair {
    fn copy(&self, alloc: Global) -> Result<Pair, Memory> {
        Ok(Pair {
            opid: self.opid,
            txn: self.txn.copy(alloc)?,
        })
    }
}
