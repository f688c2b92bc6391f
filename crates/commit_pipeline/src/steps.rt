ghost use Rattle.std.specs.Prelude.{◌≡◌, []};
ghost use Rattle.ring_model.specs.Steps as spec;

use ring_model::{Action, Body, Message, Plan, Say};
use ring_types::{List, NodeId};
use std::alloc::Global;

/// What stands first in a plan that is not whole yet: its actions and its sayings so far.
#[derive(Drop)]
pub struct Begun {
    pub actions: List<Action>,
    pub says: List<Say>,
}

impl Begun {
    /// Nothing so far.
    pub fn nothing(alloc: Global) -> Begun
        ensures { result ≡ record { actions = []; says = [] } }
    {
        Begun {
            actions: List::new(alloc),
            says: List::new(alloc),
        }
    }
}

/// The plan in which nothing happens.
pub fn idle(alloc: Global) -> Plan
    ensures { result ≡ record { actions = []; messages = []; says = [] } }
{
    Plan {
        actions: List::new(alloc),
        messages: List::new(alloc),
        says: List::new(alloc),
    }
}

/// A message between two members.
pub fn message(me: NodeId, to: NodeId, body: Body) -> Message
    ensures { result ≡ spec.message me to body }
{
    Message {
        from: me.0,
        to: to.0,
        body,
    }
}
