use crate::messages::Message;
use crate::nodes::Soft;
use ring_types::{
    Duplicate, Entry, Gtid, List, Memory, NodeId, Opid, Pair, RowRefusal, Text, Value, Vote,
};
use std::alloc::Global;

/// A durable action: one switch of a control block.
#[derive(PartialEq, Drop)]
pub enum Action {
    SetTerm(u64),
    /// Drops the votes of terms up to `floor` and adds `vote`.
    Vote { vote: Vote, floor: u64 },
    Append(List<Entry>),
    /// Keeps so many entries.
    Truncate(u64),
    Prepare(Pair),
    /// Applies the entry of this position; a prepared transaction there is committed.
    Commit(u64),
    /// Rolls back prepared transactions of positions above this one.
    RollBackAfter(u64),
    DropPairs(List<Opid>),
}

/// Something said to a client; client 0 is the schedule.
#[derive(PartialEq, Drop)]
pub struct Say {
    pub client: u32,
    pub what: What,
}

/// What is said to a client.
#[derive(PartialEq, Drop)]
pub enum What {
    /// The write stands; `term` is the leader's term at the telling.
    Committed { gtid: Gtid, opid: Opid, term: u64 },
    /// The leader stopped leading before it knew.
    Unknown { gtid: Gtid, opid: Opid },
    Refused(Cause),
    Rotated(Opid),
    Moving(NodeId),
    MoveFailed(NodeId),
    Cancelled,
}

/// Why a client's command is refused; the causes are tested in this order.
#[derive(PartialEq, Drop)]
pub enum Cause {
    NotLeader,
    NotReady,
    NoEngine,
    Transferring,
    Invalid(RowRefusal),
    /// A prepared transaction writes this key.
    Locked {
        table: Text,
        key: Value,
        holder: Opid,
    },
    /// The group would have so many bytes.
    TooLarge {
        bytes: u64,
    },
    Exhausted,
    LastFile,
    BadTarget,
}

/// What a step does: actions in order, then messages in order, then sayings.
#[derive(PartialEq, Drop)]
pub struct Plan {
    pub actions: List<Action>,
    pub messages: List<Message>,
    pub says: List<Say>,
}

/// A step: its plan and the new soft part.
#[derive(PartialEq, Drop)]
pub struct Step {
    pub plan: Plan,
    pub soft: Soft,
}

/// What a step sends and says once its actions are done.
#[derive(PartialEq, Drop)]
pub struct Outcome {
    pub messages: List<Message>,
    pub says: List<Say>,
}

/// A committed position at which a message holds an entry of another term: no ring sends that.
#[derive(Clone, Copy, PartialEq)]
pub struct Tear {
    pub position: u64,
    pub kept_term: u64,
    pub sent_term: u64,
}

impl Duplicate for Action {
    fn copy(&self, alloc: Global) -> Result<Action, Memory> {
        match self {
            Action::SetTerm(term) => Ok(Action::SetTerm(*term)),
            Action::Vote { vote, floor } => Ok(Action::Vote {
                vote: *vote,
                floor: *floor,
            }),
            Action::Append(entries) => Ok(Action::Append(entries.copy(alloc)?)),
            Action::Truncate(position) => Ok(Action::Truncate(*position)),
            Action::Prepare(pair) => Ok(Action::Prepare(pair.copy(alloc)?)),
            Action::Commit(position) => Ok(Action::Commit(*position)),
            Action::RollBackAfter(position) => Ok(Action::RollBackAfter(*position)),
            Action::DropPairs(opids) => Ok(Action::DropPairs(opids.copy(alloc)?)),
        }
    }
}

impl Duplicate for Cause {
    fn copy(&self, alloc: Global) -> Result<Cause, Memory> {
        match self {
            Cause::NotLeader => Ok(Cause::NotLeader),
            Cause::NotReady => Ok(Cause::NotReady),
            Cause::NoEngine => Ok(Cause::NoEngine),
            Cause::Transferring => Ok(Cause::Transferring),
            Cause::Invalid(refusal) => Ok(Cause::Invalid(*refusal)),
            Cause::Locked { table, key, holder } => Ok(Cause::Locked {
                table: table.copy(alloc)?,
                key: key.copy(alloc)?,
                holder: *holder,
            }),
            Cause::TooLarge { bytes } => Ok(Cause::TooLarge { bytes: *bytes }),
            Cause::Exhausted => Ok(Cause::Exhausted),
            Cause::LastFile => Ok(Cause::LastFile),
            Cause::BadTarget => Ok(Cause::BadTarget),
        }
    }
}

impl Duplicate for What {
    fn copy(&self, alloc: Global) -> Result<What, Memory> {
        match self {
            What::Committed { gtid, opid, term } => Ok(What::Committed {
                gtid: *gtid,
                opid: *opid,
                term: *term,
            }),
            What::Unknown { gtid, opid } => Ok(What::Unknown {
                gtid: *gtid,
                opid: *opid,
            }),
            What::Refused(cause) => Ok(What::Refused(cause.copy(alloc)?)),
            What::Rotated(opid) => Ok(What::Rotated(*opid)),
            What::Moving(target) => Ok(What::Moving(*target)),
            What::MoveFailed(target) => Ok(What::MoveFailed(*target)),
            What::Cancelled => Ok(What::Cancelled),
        }
    }
}

impl Duplicate for Say {
    fn copy(&self, alloc: Global) -> Result<Say, Memory> {
        Ok(Say {
            client: self.client,
            what: self.what.copy(alloc)?,
        })
    }
}

impl Duplicate for Plan {
    fn copy(&self, alloc: Global) -> Result<Plan, Memory> {
        Ok(Plan {
            actions: self.actions.copy(alloc)?,
            messages: self.messages.copy(alloc)?,
            says: self.says.copy(alloc)?,
        })
    }
}

impl Duplicate for Step {
    fn copy(&self, alloc: Global) -> Result<Step, Memory> {
        Ok(Step {
            plan: self.plan.copy(alloc)?,
            soft: self.soft.copy(alloc)?,
        })
    }
}

impl Duplicate for Outcome {
    fn copy(&self, alloc: Global) -> Result<Outcome, Memory> {
        Ok(Outcome {
            messages: self.messages.copy(alloc)?,
            says: self.says.copy(alloc)?,
        })
    }
}
