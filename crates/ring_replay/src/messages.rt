ghost use Rattle.std.specs.Prelude.{◌≡◌, ◌++◌, IfOk, OnOk, map};
ghost use Rattle.ring_model.specs.Worlds as spec;

use ring_model::{Message, Said, Say};
use ring_types::{Duplicate, List, Memory, NodeId};
use std::alloc::Global;

/// A copy of the message of a number counted from 1.
pub(crate) fn message_at(
    alloc: Global,
    messages: &[Message],
    number: u64,
) -> Result<Option<Message>, Memory>
    ensures { IfOk result (λ it. it ≡ spec.message_at messages.now number) }
{
    if number == 0 {
        return Ok(None);
    }
    match messages.get(number as usize - 1) {
        Some(message) => Ok(Some(message.copy(alloc)?)),
        None => Ok(None),
    }
}

/// What a node says in an event, at the end of what was said.
pub(crate) fn add_said(
    alloc: Global,
    said: &mut List<Said>,
    event: u64,
    node: NodeId,
    says: &[Say],
) -> Result<(), Memory>
    ensures { OnOk result (said.new ≡ said.old ++ map (spec.said_in event node) says.now) }
{
    for say in says {
        said.push(Said {
            event,
            node,
            say: say.copy(alloc)?,
        })?;
    }
    Ok(())
}
