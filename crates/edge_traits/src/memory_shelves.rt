ghost use Rattle.std.specs.Prelude.{◌≡◌, ◌≤◌, ◌↔◌, IsTrue, IfOk, Some, Err, length};
ghost use Rattle.edge_traits.specs.Calls.{no_calls, next_fails, counted};
ghost use Rattle.edge_traits.specs.Counts.{last_count};
ghost use Rattle.edge_traits.specs.Fetches.{FetchIs};
ghost use Rattle.edge_traits.specs.Files.{held};

use crate::failing::FailingCalls;
use crate::files::{ShelfFile, copy_held};
use crate::shelves::{FetchError, Shelf};
use ring_types::{List, Text};
use std::alloc::Global;
use std::marker::Model;

/// A shelf in memory, of which chosen calls fail.
#[derive(Drop)]
pub struct MemoryShelf {
    alloc: Global,
    files: List<ShelfFile>,
    calls: FailingCalls,
}

impl Model for MemoryShelf {
    ghost use Rattle.edge_traits.specs.Files.{ShelfState};

    ghost Value = { ShelfState };

    ghost view = { λ s. record { files = s.files; calls = s.calls } };
}

impl MemoryShelf {
    /// `failing` says which calls of `fetch` fail, counted from 1. If two files have one name, the
    /// first is fetched.
    pub fn new(alloc: Global, files: List<ShelfFile>, failing: List<u64>) -> MemoryShelf
        ensures state { result ≡ record { files = files; calls = no_calls failing } }
        ensures told { ⟦<MemoryShelf as Shelf>⟧.files result ≡ Some (held files) }
        ensures faults { ⟦<MemoryShelf as Shelf>⟧.faults result ≡ 0 }
    {
        MemoryShelf {
            alloc,
            files,
            calls: FailingCalls::new(failing),
        }
    }
}

impl Shelf for MemoryShelf {
    ghost files = { λ s. Some (held s.files) };

    ghost faults = { λ s. s.calls.faults };

    fn fetch(&mut self, name: &Text, limit: u64) -> Result<List<u8>, FetchError>
        ensures told { FetchIs (held self.old.files name.now) limit result }
        ensures within { IfOk result (λ bytes. length bytes ≤ limit) }
        ensures failing { (result ≡ Err FetchError.Failed) ↔ IsTrue (next_fails self.old.calls) }
        ensures state { self.new ≡ record self.old { calls = counted self.old.calls } }
        ensures later { self.old.calls.faults ≤ self.new.calls.faults }
        ensures limit { self.new.calls.faults ≤ last_count }
    {
        if self.calls.count() {
            return Err(FetchError::Failed);
        }
        copy_held(&self.files, self.alloc, name, limit)
    }
}
