use ring_types::{Duplicate, Entry, Grant, Gtid, List, Memory, NodeId, Opid, Pair, Vote};
use std::alloc::Global;

/// What a running node does in its term (Raft).
#[derive(Clone, Copy, PartialEq)]
pub enum Role {
    Follower,
    Candidate,
    Leader,
}

/// What a leader knows of another member (Raft's match index and next index). `silent` counts the
/// beats since its last reply, up to 3.
#[derive(Clone, Copy, PartialEq)]
pub struct Peer {
    pub node: NodeId,
    pub matched: u64,
    pub next: u64,
    pub silent: u64,
}

/// A write of a client that waits for its commit.
#[derive(Clone, Copy, PartialEq)]
pub struct Pending {
    pub client: u32,
    pub gtid: Gtid,
    pub opid: Opid,
}

/// How far a leader is in handing its role over (MyRaft).
#[derive(Clone, Copy, PartialEq)]
pub enum Transfer {
    Off,
    /// A mock election of this round is on.
    Mock {
        target: NodeId,
        round: u64,
        client: u32,
    },
    /// The mock election passed: the target is told to elect itself once it has the whole log.
    Handing {
        target: NodeId,
        client: u32,
    },
}

/// The mock election that a node holds for a leader (MyRaft). `last` is the leader's last opid;
/// `passed` and `failed` stand in order of arrival.
#[derive(PartialEq, Drop)]
pub enum Mock {
    Off,
    On {
        leader: NodeId,
        round: u64,
        last: Opid,
        passed: List<NodeId>,
        failed: List<NodeId>,
    },
}

/// The volatile part of a running node. A restart makes it anew.
#[derive(PartialEq, Drop)]
pub struct Soft {
    pub role: Role,
    /// The commit count: so many entries of the log are known to be committed (Raft).
    pub commit: u64,
    /// The position of the NoOp of the node's last leadership; 0 before any.
    pub ready_at: u64,
    /// How many transfers this node began.
    pub rounds: u64,
    /// The votes that a candidate was granted, in order of arrival.
    pub grants: List<Grant>,
    /// The other members, in ring order; filled when the node leads.
    pub peers: List<Peer>,
    /// Writes that wait for their commit, in order of position.
    pub pending: List<Pending>,
    pub transfer: Transfer,
    pub mock: Mock,
}

/// The durable part of a node: what a crash leaves.
#[derive(PartialEq, Drop)]
pub struct Durable {
    pub term: u64,
    /// The kept votes, in rising terms.
    pub votes: List<Vote>,
    pub log: List<Entry>,
    /// How many entries the engine has applied; 0 on a logtailer.
    pub applied: u64,
    /// The prepared transactions, in order of position.
    pub prepared: List<Pair>,
}

impl Duplicate for Peer {
    fn copy(&self, _alloc: Global) -> Result<Peer, Memory> {
        Ok(*self)
    }
}

impl Duplicate for Pending {
    fn copy(&self, _alloc: Global) -> Result<Pending, Memory> {
        Ok(*self)
    }
}

impl Duplicate for Mock {
    fn copy(&self, alloc: Global) -> Result<Mock, Memory> {
        match self {
            Mock::Off => Ok(Mock::Off),
            Mock::On {
                leader,
                round,
                last,
                passed,
                failed,
            } => Ok(Mock::On {
                leader: *leader,
                round: *round,
                last: *last,
                passed: passed.copy(alloc)?,
                failed: failed.copy(alloc)?,
            }),
        }
    }
}

impl Duplicate for Soft {
    fn copy(&self, alloc: Global) -> Result<Soft, Memory> {
        Ok(Soft {
            role: self.role,
            commit: self.commit,
            ready_at: self.ready_at,
            rounds: self.rounds,
            grants: self.grants.copy(alloc)?,
            peers: self.peers.copy(alloc)?,
            pending: self.pending.copy(alloc)?,
            transfer: self.transfer,
            mock: self.mock.copy(alloc)?,
        })
    }
}

impl Duplicate for Durable {
    fn copy(&self, alloc: Global) -> Result<Durable, Memory> {
        Ok(Durable {
            term: self.term,
            votes: self.votes.copy(alloc)?,
            log: self.log.copy(alloc)?,
            applied: self.applied,
            prepared: self.prepared.copy(alloc)?,
        })
    }
}
