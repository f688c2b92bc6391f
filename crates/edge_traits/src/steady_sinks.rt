ghost use Rattle.std.specs.Prelude.{◌≡◌, ◌≢◌, ◌++◌, OnOk, OnErr, [], Some, Err};

use crate::sinks::{Sink, SinkFault};
use ring_types::List;
use std::alloc::Global;
use std::marker::Model;

/// A sink in memory that never fails. A call that has no memory takes nothing.
#[derive(Drop)]
pub struct SteadySink {
    taken: List<u8>,
}

impl Model for SteadySink {
    ghost use Rattle.std.specs.Prelude.{ℕ, List};

    ghost Value = { List ℕ };

    ghost view = { λ s. s.taken };
}

impl SteadySink {
    pub fn new(alloc: Global) -> SteadySink
        ensures state { result ≡ [] }
        ensures told { ⟦<SteadySink as Sink>⟧.taken result ≡ Some [] }
        ensures faults { ⟦<SteadySink as Sink>⟧.faults result ≡ 0 }
    {
        SteadySink {
            taken: List::new(alloc),
        }
    }

    /// The bytes that were taken so far.
    pub fn taken(&self) -> &List<u8>
        ensures { result.now ≡ self.now }
    {
        &self.taken
    }
}

impl Sink for SteadySink {
    ghost taken = { λ s. Some s };

    // a count that never rises, so that no caller can answer for a fault
    ghost faults = { λ _. 0 };

    fn put(&mut self, bytes: &[u8]) -> Result<(), SinkFault>
        ensures ok { OnOk result (self.new ≡ self.old ++ bytes.now) }
        ensures err { OnErr result (self.new ≡ self.old) }
        ensures steady { result ≢ Err SinkFault.Failed }
    {
        self.taken
            .extend_from_slice(bytes)
            .map_err(|_| SinkFault::Memory)
    }
}
