//! Plans that only send, or only say one thing.
ghost use Rattle.std.specs.Prelude.{◌≡◌, ◌∷◌, [], IfOk};

use ring_model::{Message, Plan, Say, What};
use ring_types::{List, Memory};
use std::alloc::Global;

/// The plan that sends these messages.
pub(crate) fn sending(alloc: Global, messages: List<Message>) -> Plan
    ensures { result ≡ record { actions = []; messages = messages; says = [] } }
{
    Plan {
        actions: List::new(alloc),
        messages,
        says: List::new(alloc),
    }
}

/// The plan that sends one message.
pub(crate) fn sending_one(alloc: Global, message: Message) -> Result<Plan, Memory>
    ensures { IfOk result (λ it. it ≡ record { actions = []; messages = message ∷ []; says = [] }) }
{
    let messages = List::of_one(alloc, message)?;
    Ok(sending(alloc, messages))
}

/// The plan that says one thing to a client.
pub(crate) fn telling(alloc: Global, client: u32, what: What) -> Result<Plan, Memory>
    ensures { IfOk result (λ it. it ≡ record { actions = []; messages = []; says = record { client = client; what = what } ∷ [] }) }
{
    let says = List::of_one(alloc, Say { client, what })?;
    Ok(Plan {
        actions: List::new(alloc),
        messages: List::new(alloc),
        says,
    })
}
