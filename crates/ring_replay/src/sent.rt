//! The messages that were sent, and where no message to a node was found among them.
ghost use Rattle.std.specs.Prelude.{◌≡◌, ◌+◌, ◌^◌, ◌<◌, ◌++◌, [], List, OnOk, length};
ghost use Rattle.std.specs.List.{All};
ghost use Rattle.ring_model.specs.declared.messages.Message.{Message};
ghost use Rattle.ring_model.specs.Worlds as spec;
ghost use Rattle.ring_replay.specs.Stretches.{IsRight};

use ring_model::Message;
use ring_types::{List, Memory, after};
use std::alloc::Global;
use std::marker::Model;

/// A stretch of the list without a message to a node: none of the numbers above `from` up to `upto`.
#[derive(Drop)]
struct Passed {
    node: u32,
    from: u64,
    upto: u64,
}

/// The messages in the order in which they were sent, numbered from 1. Contracts see the list; beside
/// it stands, for each node that was looked for in vain, how far, so that no message is looked at
/// twice for the same node.
#[derive(Drop)]
pub(crate) struct Messages {
    sent: List<Message>,
    passed: Vec<Passed>,
}

impl Model for Messages {
    ghost use Rattle.std.specs.Prelude.{List};
    ghost use Rattle.std.specs.List.{All};
    ghost use Rattle.ring_model.specs.declared.messages.Message.{Message};

    ghost Value = { List Message };

    ghost use Rattle.ring_replay.specs.Stretches.{IsRight};

    ghost view = { λ m. m.sent };

    ghost invariant = { λ m. All (IsRight m.sent) m.passed.items };
}

fn first_to(messages: &[Message], node: u32, cursor: u64) -> Option<u64>
    requires { cursor + length messages.now < 2 ^ 64 }
    ensures { result ≡ spec.next_from (cursor + 1) messages.now node cursor }
{
    for (i, message) in messages.iter().enumerate() {
        if message.to == node {
            return Some(cursor + i as u64 + 1);
        }
    }
    None
}

/// Where the search for a message to a node begins: at the cursor, or at the end of a stretch above it
/// that is known to have none.
#[tactic(auto, using(crate::proofs::Stretches::skips))]
fn search_start(passed: &[Passed], node: u32, cursor: u64) -> u64
    ensures { (sent : List Message) → All (IsRight sent) passed.now → spec.next_from 1 sent node result ≡ spec.next_from 1 sent node cursor }
{
    for stretch in passed {
        if stretch.node == node && stretch.from <= cursor && cursor < stretch.upto {
            return stretch.upto;
        }
    }
    cursor
}

/// Notes a stretch in place of an older one of the same node. If there is no memory for it, it is left
/// out: then the next search looks at those messages again.
fn note_passed(passed: &mut Vec<Passed>, stretch: Passed)
    ensures { (sent : List Message) → All (IsRight sent) passed.old.items → IsRight sent stretch → All (IsRight sent) passed.new.items }
{
    match passed.iter().position(|older| older.node == stretch.node) {
        Some(place) => passed[place] = stretch,
        None => {
            let _ = passed.push(stretch);
        }
    }
}

impl Messages {
    /// No messages yet.
    pub(crate) fn new(alloc: Global) -> Messages
        ensures { result ≡ [] }
    {
        Messages {
            sent: List::new(alloc),
            passed: Vec::new(alloc),
        }
    }

    /// The messages, lent.
    pub(crate) fn as_slice(&self) -> &[Message]
        ensures { result.now ≡ self.now }
    {
        self.sent.as_slice()
    }

    /// Moves more messages to the end.
    #[tactic(auto, using(crate::proofs::Stretches::appended))]
    pub(crate) fn append(&mut self, more: List<Message>) -> Result<(), Memory>
        ensures { OnOk result (self.new ≡ self.old ++ more) }
    {
        self.sent.append(more)
    }

    /// The number of the first message to a node above its cursor. If there is none, the stretch that
    /// was looked through is noted, so that the next search begins behind it.
    #[tactic(auto, using(crate::proofs::Queues::next_from_cursor))]
    pub(crate) fn next_to(&mut self, node: u32, cursor: u64) -> Option<u64>
        ensures next { result ≡ spec.next_from 1 self.old node cursor }
        ensures same { self.new ≡ self.old }
    {
        let start = search_start(self.passed.as_slice(), node, cursor);
        match first_to(after(self.sent.as_slice(), start), node, start) {
            Some(number) => Some(number),
            None => {
                let upto = self.sent.len() as u64;
                note_passed(
                    &mut self.passed,
                    Passed {
                        node,
                        from: cursor,
                        upto,
                    },
                );
                None
            }
        }
    }

    /// The messages themselves.
    pub(crate) fn into_list(self) -> List<Message>
        ensures { result ≡ self }
    {
        self.sent
    }
}
