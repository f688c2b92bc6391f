ghost use Rattle.std.specs.Prelude.{◌≡◌, ◌≤◌};

use ring_types::List;
use std::marker::Model;

/// The calls that are to fail, and how many came and failed. A count stays at its last value.
#[derive(Drop)]
pub(crate) struct FailingCalls {
    failing: List<u64>,
    made: u64,
    faults: u64,
}

impl Model for FailingCalls {
    ghost use Rattle.edge_traits.specs.Calls.{Calls};

    ghost Value = { Calls };

    ghost view = { λ c. record { failing = c.failing; made = c.made; faults = c.faults } };
}

impl FailingCalls {
    ghost use Rattle.edge_traits.specs.Calls.{no_calls, next_fails, counted};
    ghost use Rattle.edge_traits.specs.Counts.{last_count};

    pub(crate) fn new(failing: List<u64>) -> FailingCalls
        ensures { result ≡ no_calls failing }
    {
        FailingCalls {
            failing,
            made: 0,
            faults: 0,
        }
    }

    /// Counts one more call, and answers whether it fails.
    pub(crate) fn count(&mut self) -> bool
        ensures fails { result ≡ next_fails self.old }
        ensures counted { self.new ≡ counted self.old }
        ensures later { self.old.faults ≤ self.new.faults }
        ensures limit { self.new.faults ≤ last_count }
    {
        self.made = self.made.saturating_add(1);
        let fails = self.failing.as_slice().contains(&self.made);
        let faults = self.faults;
        if fails {
            self.faults = faults.saturating_add(1);
        }
        fails
    }
}
