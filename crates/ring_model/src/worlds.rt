ghost use Rattle.std.specs.Prelude.{◌≡◌, IfOk};

use crate::effects::Say;
use crate::messages::{Input, Message};
use crate::nodes::{Durable, Soft};
use ring_types::{CutAt, Duplicate, Entry, List, Memory, NodeId};
use std::alloc::Global;

/// A node as it is shown; `soft` is None where the node is down.
#[derive(PartialEq, Drop)]
pub struct Shown {
    pub node: NodeId,
    pub durable: Durable,
    pub soft: Option<Soft>,
}

/// Something said by a node in an event.
#[derive(PartialEq, Drop)]
pub struct Said {
    pub event: u64,
    pub node: NodeId,
    pub say: Say,
}

/// How many actions a step that was cut kept.
#[derive(Clone, Copy, PartialEq)]
pub struct Kept {
    pub event: u64,
    pub node: NodeId,
    pub actions: u64,
}

/// The ring after some events: nodes and cursors in ring order, and all that was ever sent, said,
/// kept and chosen.
#[derive(PartialEq, Drop)]
pub struct World {
    pub events: u64,
    pub nodes: List<Shown>,
    pub messages: List<Message>,
    pub cursors: List<u64>,
    pub said: List<Said>,
    pub kept: List<Kept>,
    pub chosen: List<Entry>,
}

/// An event of a schedule, with the line that it stands in. A generated event's line is its number.
#[derive(PartialEq, Drop)]
pub struct Event {
    pub line: u64,
    pub what: Line,
    pub cut: Option<CutAt>,
}

/// What a line of a schedule says.
#[derive(PartialEq, Drop)]
pub enum Line {
    At { node: NodeId, input: Input },
    /// Gives a message, by its number from 1, to its receiver.
    Give(u64),
    /// Gives the node its next message and moves its cursor there.
    Next(NodeId),
    /// Moves the cursor over the node's next message.
    Skip(NodeId),
    /// Gives the message at the node's cursor again.
    Again(NodeId),
    Crash(NodeId),
    Restart(NodeId),
}

fn copy_soft(alloc: Global, soft: &Option<Soft>) -> Result<Option<Soft>, Memory>
    ensures { IfOk result (λ it. it ≡ soft.now) }
{
    match soft {
        None => Ok(None),
        Some(soft) => Ok(Some(soft.copy(alloc)?)),
    }
}

impl Duplicate for Shown {
    fn copy(&self, alloc: Global) -> Result<Shown, Memory> {
        Ok(Shown {
            node: self.node,
            durable: self.durable.copy(alloc)?,
            soft: copy_soft(alloc, &self.soft)?,
        })
    }
}

impl Duplicate for Said {
    fn copy(&self, alloc: Global) -> Result<Said, Memory> {
        Ok(Said {
            event: self.event,
            node: self.node,
            say: self.say.copy(alloc)?,
        })
    }
}

impl Duplicate for Kept {
    fn copy(&self, _alloc: Global) -> Result<Kept, Memory> {
        Ok(*self)
    }
}

impl Duplicate for World {
    fn copy(&self, alloc: Global) -> Result<World, Memory> {
        Ok(World {
            events: self.events,
            nodes: self.nodes.copy(alloc)?,
            messages: self.messages.copy(alloc)?,
            cursors: self.cursors.copy(alloc)?,
            said: self.said.copy(alloc)?,
            kept: self.kept.copy(alloc)?,
            chosen: self.chosen.copy(alloc)?,
        })
    }
}

impl Duplicate for Line {
    fn copy(&self, alloc: Global) -> Result<Line, Memory> {
        match self {
            Line::At { node, input } => Ok(Line::At {
                node: *node,
                input: input.copy(alloc)?,
            }),
            Line::Give(number) => Ok(Line::Give(*number)),
            Line::Next(node) => Ok(Line::Next(*node)),
            Line::Skip(node) => Ok(Line::Skip(*node)),
            Line::Again(node) => Ok(Line::Again(*node)),
            Line::Crash(node) => Ok(Line::Crash(*node)),
            Line::Restart(node) => Ok(Line::Restart(*node)),
        }
    }
}

impl Duplicate for Event {
    fn copy(&self, alloc: Global) -> Result<Event, Memory> {
        Ok(Event {
            line: self.line,
            what: self.what.copy(alloc)?,
            cut: self.cut,
        })
    }
}
