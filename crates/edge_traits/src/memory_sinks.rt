ghost use Rattle.std.specs.Prelude.{◌≡◌, ◌≤◌, ◌++◌, ◌↔◌, IsTrue, OnOk, OnErr, [], Some, Err};
ghost use Rattle.edge_traits.specs.Calls.{no_calls, next_fails, counted};
ghost use Rattle.edge_traits.specs.Counts.{last_count};

use crate::failing::FailingCalls;
use crate::sinks::{Sink, SinkFault};
use ring_types::List;
use std::alloc::Global;
use std::marker::Model;

/// A sink in memory, of which chosen calls fail. A call that fails, or that has no memory, takes
/// nothing.
#[derive(Drop)]
pub struct MemorySink {
    taken: List<u8>,
    calls: FailingCalls,
}

impl Model for MemorySink {
    ghost use Rattle.edge_traits.specs.Calls.{SinkState};

    ghost Value = { SinkState };

    ghost view = { λ s. record { taken = s.taken; calls = s.calls } };
}

impl MemorySink {
    /// `failing` says which calls of `put` fail, counted from 1.
    pub fn new(alloc: Global, failing: List<u64>) -> MemorySink
        ensures state { result ≡ record { taken = []; calls = no_calls failing } }
        ensures told { ⟦<MemorySink as Sink>⟧.taken result ≡ Some [] }
        ensures faults { ⟦<MemorySink as Sink>⟧.faults result ≡ 0 }
    {
        MemorySink {
            taken: List::new(alloc),
            calls: FailingCalls::new(failing),
        }
    }

    /// The bytes that were taken so far.
    pub fn taken(&self) -> &List<u8>
        ensures { result.now ≡ self.now.taken }
    {
        &self.taken
    }
}

impl Sink for MemorySink {
    ghost taken = { λ s. Some s.taken };

    ghost faults = { λ s. s.calls.faults };

    fn put(&mut self, bytes: &[u8]) -> Result<(), SinkFault>
        ensures ok { OnOk result (self.new ≡ record { taken = self.old.taken ++ bytes.now; calls = counted self.old.calls }) }
        ensures err { OnErr result (self.new ≡ record self.old { calls = counted self.old.calls }) }
        ensures failing { (result ≡ Err SinkFault.Failed) ↔ IsTrue (next_fails self.old.calls) }
        ensures later { self.old.calls.faults ≤ self.new.calls.faults }
        ensures limit { self.new.calls.faults ≤ last_count }
    {
        if self.calls.count() {
            return Err(SinkFault::Failed);
        }
        self.taken
            .extend_from_slice(bytes)
            .map_err(|_| SinkFault::Memory)
    }
}
