use crate::effects::What;
use ring_types::{Change, Duplicate, Entry, List, Memory, NodeId, Opid, Vote};
use std::alloc::Global;

/// A message from a node or a client to another. Numbers below 65,536 are members'.
#[derive(PartialEq, Drop)]
pub struct Message {
    pub from: u32,
    pub to: u32,
    pub body: Body,
}

/// What a message says.
#[derive(PartialEq, Drop)]
pub enum Body {
    RequestVote(RequestVote),
    VoteReply(VoteReply),
    Append(Append),
    AppendReply(AppendReply),
    ProxyAppend(ProxyAppend),
    MockStart(MockStart),
    MockRequest(MockRequest),
    MockReply(MockReply),
    MockResult(MockResult),
    /// Asks a node of this term to elect itself now (Raft's leadership transfer).
    TimeoutNow { term: u64 },
    ClientWrite { changes: List<Change> },
    ClientRotate,
    ClientTransfer { target: u32 },
    ClientCancel,
    ClientReply { what: What },
}

/// A candidate of `term` asks for a vote; `last` is the opid of its last entry (Raft).
#[derive(Clone, Copy, PartialEq)]
pub struct RequestVote {
    pub term: u64,
    pub last: Opid,
}

/// The answer, with the voter's term and, where granted, the votes that it reports (FlexiRaft).
#[derive(PartialEq, Drop)]
pub struct VoteReply {
    pub term: u64,
    pub granted: bool,
    pub votes: List<Vote>,
}

/// Entries after `prev`, with the leader's commit count (Raft). A proxy sends it in the leader's name.
#[derive(PartialEq, Drop)]
pub struct Append {
    pub term: u64,
    pub leader: NodeId,
    pub prev: Opid,
    pub commit: u64,
    pub entries: List<Entry>,
}

/// The answer: `position` is the last matched one, or, where not ok, the position after which the
/// leader may send next.
#[derive(Clone, Copy, PartialEq)]
pub struct AppendReply {
    pub term: u64,
    pub ok: bool,
    pub position: u64,
}

/// Asks a proxy to send `target` the entries of these opids (MyRaft).
#[derive(PartialEq, Drop)]
pub struct ProxyAppend {
    pub term: u64,
    pub target: NodeId,
    pub prev: Opid,
    pub commit: u64,
    pub opids: List<Opid>,
}

/// The leader asks a target to hold a mock election (MyRaft).
#[derive(Clone, Copy, PartialEq)]
pub struct MockStart {
    pub term: u64,
    pub round: u64,
    pub last: Opid,
}

/// The target asks a voter whether it is near enough to the leader's last entry.
#[derive(Clone, Copy, PartialEq)]
pub struct MockRequest {
    pub term: u64,
    pub round: u64,
    pub last: Opid,
}

/// The voter's answer.
#[derive(Clone, Copy, PartialEq)]
pub struct MockReply {
    pub term: u64,
    pub round: u64,
    pub ok: bool,
}

/// The target tells the leader whether the mock election passed.
#[derive(Clone, Copy, PartialEq)]
pub struct MockResult {
    pub term: u64,
    pub round: u64,
    pub ok: bool,
}

/// What a node is given. A client's message is the input of that name.
#[derive(PartialEq, Drop)]
pub enum Input {
    Elect,
    Beat,
    Deliver(Message),
    Write { client: u32, changes: List<Change> },
    Rotate { client: u32 },
    Transfer { client: u32, target: u32 },
    Cancel { client: u32 },
}

impl Duplicate for VoteReply {
    fn copy(&self, alloc: Global) -> Result<VoteReply, Memory> {
        Ok(VoteReply {
            term: self.term,
            granted: self.granted,
            votes: self.votes.copy(alloc)?,
        })
    }
}

impl Duplicate for Append {
    fn copy(&self, alloc: Global) -> Result<Append, Memory> {
        Ok(Append {
            term: self.term,
            leader: self.leader,
            prev: self.prev,
            commit: self.commit,
            entries: self.entries.copy(alloc)?,
        })
    }
}

impl Duplicate for ProxyAppend {
    fn copy(&self, alloc: Global) -> Result<ProxyAppend, Memory> {
        Ok(ProxyAppend {
            term: self.term,
            target: self.target,
            prev: self.prev,
            commit: self.commit,
            opids: self.opids.copy(alloc)?,
        })
    }
}

impl Duplicate for Body {
    fn copy(&self, alloc: Global) -> Result<Body, Memory> {
        match self {
            Body::RequestVote(asked) => Ok(Body::RequestVote(*asked)),
            Body::VoteReply(reply) => Ok(Body::VoteReply(reply.copy(alloc)?)),
            Body::Append(sent) => Ok(Body::Append(sent.copy(alloc)?)),
            Body::AppendReply(reply) => Ok(Body::AppendReply(*reply)),
            Body::ProxyAppend(sent) => Ok(Body::ProxyAppend(sent.copy(alloc)?)),
            Body::MockStart(sent) => Ok(Body::MockStart(*sent)),
            Body::MockRequest(sent) => Ok(Body::MockRequest(*sent)),
            Body::MockReply(sent) => Ok(Body::MockReply(*sent)),
            Body::MockResult(sent) => Ok(Body::MockResult(*sent)),
            Body::TimeoutNow { term } => Ok(Body::TimeoutNow { term: *term }),
            Body::ClientWrite { changes } => Ok(Body::ClientWrite {
                changes: changes.copy(alloc)?,
            }),
            Body::ClientRotate => Ok(Body::ClientRotate),
            Body::ClientTransfer { target } => Ok(Body::ClientTransfer { target: *target }),
            Body::ClientCancel => Ok(Body::ClientCancel),
            Body::ClientReply { what } => Ok(Body::ClientReply {
                what: what.copy(alloc)?,
            }),
        }
    }
}

impl Duplicate for Message {
    fn copy(&self, alloc: Global) -> Result<Message, Memory> {
        Ok(Message {
            from: self.from,
            to: self.to,
            body: self.body.copy(alloc)?,
        })
    }
}

impl Duplicate for Input {
    fn copy(&self, alloc: Global) -> Result<Input, Memory> {
        match self {
            Input::Elect => Ok(Input::Elect),
            Input::Beat => Ok(Input::Beat),
            Input::Deliver(message) => Ok(Input::Deliver(message.copy(alloc)?)),
            Input::Write { client, changes } => Ok(Input::Write {
                client: *client,
                changes: changes.copy(alloc)?,
            }),
            Input::Rotate { client } => Ok(Input::Rotate { client: *client }),
            Input::Transfer { client, target } => Ok(Input::Transfer {
                client: *client,
                target: *target,
            }),
            Input::Cancel { client } => Ok(Input::Cancel { client: *client }),
        }
    }
}
