ghost use Rattle.std.specs.Prelude.{◌≡◌, ◌≢◌, ◌++◌, ◌∷◌, IsOk, OnOk, OnErr, IfOk, [], Some, Err};
ghost use Rattle.edge_traits.specs.Links.{no_traffic, traffic_of, gave, got_at};

use crate::links::{Got, Link, LinkFault, Sent};
use crate::messages::Messages;
use ring_types::{Address, List, Memory};
use std::alloc::Global;
use std::marker::Model;

/// A link in memory that never fails. A call that has no memory gives and sends nothing.
#[derive(Drop)]
pub struct SteadyLink {
    messages: Messages,
}

impl Model for SteadyLink {
    ghost use Rattle.edge_traits.specs.Links.{Exchange};

    ghost Value = { Exchange };

    ghost view = { λ l. l.messages };
}

impl SteadyLink {
    /// `gots` is what `receive` gives, in order. After it comes `Quiet`.
    pub fn new(alloc: Global, gots: List<Got>) -> SteadyLink
        ensures state { result ≡ no_traffic gots }
        ensures told { ⟦<SteadyLink as Link>⟧.traffic result ≡ Some (record { received = []; sent = [] }) }
        ensures faults { ⟦<SteadyLink as Link>⟧.faults result ≡ 0 }
    {
        SteadyLink {
            messages: Messages::new(alloc, gots),
        }
    }

    /// What was sent so far, in order.
    pub fn sent(&self) -> &List<Sent>
        ensures { result.now ≡ self.now.sent }
    {
        self.messages.sent()
    }
}

impl Link for SteadyLink {
    ghost traffic = { λ l. Some (traffic_of l) };

    // a count that never rises, so that no caller can answer for a fault
    ghost faults = { λ _. 0 };

    fn join(&mut self, me: u32, peers: &List<Address>) -> Result<(), LinkFault>
        ensures joined { IsOk result }
        ensures same { self.new ≡ self.old }
    {
        Ok(())
    }

    fn receive(&mut self) -> Result<Got, LinkFault>
        ensures ok { OnOk result (self.new ≡ gave self.old) }
        ensures given { IfOk result (λ it. it ≡ got_at self.old.gots self.old.given) }
        ensures err { OnErr result (self.new ≡ self.old) }
        ensures steady { result ≢ Err LinkFault.Failed }
    {
        self.messages.give().map_err(|_| LinkFault::Memory)
    }

    fn send(&mut self, to: u32, bytes: &[u8]) -> Result<(), Memory>
        ensures ok { OnOk result (self.new ≡ record self.old { sent = self.old.sent ++ record { to = to; bytes = bytes.now } ∷ [] }) }
        ensures err { OnErr result (self.new ≡ self.old) }
    {
        self.messages.take(to, bytes)
    }
}
