ghost use Rattle.std.specs.Prelude.{◌≡◌, ◌≢◌, ◌≤◌, ◌++◌, ◌∷◌, ◌↔◌, IsTrue, OnOk, OnErr, IfOk, [], Some, Err};
ghost use Rattle.edge_traits.specs.Calls.{no_calls, next_fails, counted};
ghost use Rattle.edge_traits.specs.Counts.{last_count};
ghost use Rattle.edge_traits.specs.Links.{no_traffic, traffic_of, gave, got_at};

use crate::failing::FailingCalls;
use crate::links::{Got, Link, LinkFault, Sent};
use crate::messages::Messages;
use ring_types::{Address, List, Memory};
use std::alloc::Global;
use std::marker::Model;

/// A link in memory, of which chosen calls of `join` and `receive` fail. A call that fails, or that has
/// no memory, gives and sends nothing.
#[derive(Drop)]
pub struct MemoryLink {
    messages: Messages,
    calls: FailingCalls,
}

impl Model for MemoryLink {
    ghost use Rattle.edge_traits.specs.Links.{LinkState};

    ghost Value = { LinkState };

    ghost view = { λ l. record { exchange = l.messages; calls = l.calls } };
}

impl MemoryLink {
    /// `gots` is what `receive` gives, in order; after it comes `Quiet`. `failing` says which calls of
    /// `join` and `receive` together fail, counted from 1.
    pub fn new(alloc: Global, gots: List<Got>, failing: List<u64>) -> MemoryLink
        ensures state { result ≡ record { exchange = no_traffic gots; calls = no_calls failing } }
        ensures told { ⟦<MemoryLink as Link>⟧.traffic result ≡ Some (record { received = []; sent = [] }) }
        ensures faults { ⟦<MemoryLink as Link>⟧.faults result ≡ 0 }
    {
        MemoryLink {
            messages: Messages::new(alloc, gots),
            calls: FailingCalls::new(failing),
        }
    }

    /// What was sent so far, in order.
    pub fn sent(&self) -> &List<Sent>
        ensures { result.now ≡ self.now.exchange.sent }
    {
        self.messages.sent()
    }
}

impl Link for MemoryLink {
    ghost traffic = { λ l. Some (traffic_of l.exchange) };

    ghost faults = { λ l. l.calls.faults };

    fn join(&mut self, me: u32, peers: &List<Address>) -> Result<(), LinkFault>
        ensures state { self.new ≡ record self.old { calls = counted self.old.calls } }
        ensures failing { (result ≡ Err LinkFault.Failed) ↔ IsTrue (next_fails self.old.calls) }
        ensures room { result ≢ Err LinkFault.Memory }
        ensures later { self.old.calls.faults ≤ self.new.calls.faults }
        ensures limit { self.new.calls.faults ≤ last_count }
    {
        if self.calls.count() {
            return Err(LinkFault::Failed);
        }
        Ok(())
    }

    fn receive(&mut self) -> Result<Got, LinkFault>
        ensures ok { OnOk result (self.new ≡ record { exchange = gave self.old.exchange; calls = counted self.old.calls }) }
        ensures given { IfOk result (λ it. it ≡ got_at self.old.exchange.gots self.old.exchange.given) }
        ensures err { OnErr result (self.new ≡ record self.old { calls = counted self.old.calls }) }
        ensures failing { (result ≡ Err LinkFault.Failed) ↔ IsTrue (next_fails self.old.calls) }
        ensures later { self.old.calls.faults ≤ self.new.calls.faults }
        ensures limit { self.new.calls.faults ≤ last_count }
    {
        if self.calls.count() {
            return Err(LinkFault::Failed);
        }
        self.messages.give().map_err(|_| LinkFault::Memory)
    }

    fn send(&mut self, to: u32, bytes: &[u8]) -> Result<(), Memory>
        ensures ok { OnOk result (self.new ≡ record self.old { exchange = record self.old.exchange { sent = self.old.exchange.sent ++ record { to = to; bytes = bytes.now } ∷ [] } }) }
        ensures err { OnErr result (self.new ≡ self.old) }
    {
        self.messages.take(to, bytes)
    }
}
