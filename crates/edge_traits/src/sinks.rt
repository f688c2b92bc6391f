ghost use Rattle.std.specs.Prelude.{◌≡◌, ℕ, ◌≤◌, List, IfSome, is_some};
ghost use Rattle.edge_traits.specs.Counts.{last_count};
ghost use Rattle.edge_traits.specs.Puts.{PutIs, PutFails};

/// Why not all of the bytes were taken.
#[derive(Clone, Copy, Debug, PartialEq, Eq)]
pub enum SinkFault {
    /// The sink failed.
    Failed,
    /// There was no memory to hold the bytes.
    Memory,
}

/// Where bytes are put, one run after the other.
pub trait Sink {
    ghost use Rattle.std.specs.Prelude.{Option};

    // the bytes that were taken so far, if the sink tells them
    ghost taken: { Self → Option (List ℕ) };

    // how many faults there were: it never falls, and stays once it is at its last value
    ghost faults: { Self → ℕ };

    /// Takes the bytes after those that came before. After a fault a prefix of them was taken.
    fn put(&mut self, bytes: &[u8]) -> Result<(), SinkFault>
        ensures told { IfSome (taken self.old) (λ old. PutIs old bytes.now (taken self.new) result) }
        ensures tells { is_some (taken self.new) ≡ is_some (taken self.old) }
        ensures later { faults self.old ≤ faults self.new }
        ensures limit { faults self.new ≤ last_count }
        ensures failed { PutFails (faults self.old) (faults self.new) result };
}
