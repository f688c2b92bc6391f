ghost use Rattle.std.specs.Prelude.{◌≡◌, ℕ, ◌≤◌, option_map};
ghost use Rattle.edge_traits.specs.Counts.{last_count};
ghost use Rattle.edge_traits.specs.Links.{Traffic, LinkFails, after_receive, after_send};

use ring_types::{Address, Duplicate, List, Memory};
use std::alloc::Global;

/// Why a node did not join, or got nothing.
#[derive(Clone, Copy, Debug, PartialEq, Eq)]
pub enum LinkFault {
    /// The link failed.
    Failed,
    /// There was no memory.
    Memory,
}

/// What a node gets of its link.
#[derive(Debug, PartialEq, Eq, Drop)]
pub enum Got {
    /// No message came in the time that the link waits.
    Quiet,
    /// A message, and the number of the member or client that sent it.
    Message { from: u32, bytes: List<u8> },
}

/// A message that was sent: the number of the member or client that it goes to, and its bytes.
#[derive(Debug, PartialEq, Eq, Drop)]
pub struct Sent {
    pub to: u32,
    pub bytes: List<u8>,
}

impl Duplicate for Got {
    fn copy(&self, alloc: Global) -> Result<Got, Memory> {
        match self {
            Got::Quiet => Ok(Got::Quiet),
            Got::Message { from, bytes } => Ok(Got::Message {
                from: *from,
                bytes: bytes.copy(alloc)?,
            }),
        }
    }
}

/// Where a node sends messages to the other members and to clients, and gets theirs. A message may be
/// lost on the way, come late, or come twice.
pub trait Link {
    ghost use Rattle.std.specs.Prelude.{Option};

    // what was received and what was sent, if the link tells it
    ghost traffic: { Self → Option Traffic };

    // how many calls of `join` and `receive` failed: it never falls, and stays once it is at its last value
    ghost faults: { Self → ℕ };

    /// Begins to listen as `me`. It is called once, before the other calls; `peers` has the addresses of
    /// all members, the node's own among them, and of all clients.
    fn join(&mut self, me: u32, peers: &List<Address>) -> Result<(), LinkFault>
        ensures told { traffic self.new ≡ traffic self.old }
        ensures later { faults self.old ≤ faults self.new }
        ensures limit { faults self.new ≤ last_count }
        ensures failed { LinkFails (faults self.old) (faults self.new) result };

    /// The next message, or `Quiet` if none came in time.
    fn receive(&mut self) -> Result<Got, LinkFault>
        ensures told { traffic self.new ≡ option_map (after_receive result) (traffic self.old) }
        ensures later { faults self.old ≤ faults self.new }
        ensures limit { faults self.new ≤ last_count }
        ensures failed { LinkFails (faults self.old) (faults self.new) result };

    /// Sends a message. A failure outside is a lost message, which is sent all the same; `Memory` says
    /// that nothing was sent.
    fn send(&mut self, to: u32, bytes: &[u8]) -> Result<(), Memory>
        ensures told { traffic self.new ≡ option_map (after_send (record { to = to; bytes = bytes.now }) result) (traffic self.old) }
        ensures faults { faults self.new ≡ faults self.old };
}
