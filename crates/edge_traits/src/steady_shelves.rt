ghost use Rattle.std.specs.Prelude.{◌≡◌, ◌≢◌, ◌≤◌, IfOk, Some, Err, length};
ghost use Rattle.edge_traits.specs.Fetches.{FetchIs};
ghost use Rattle.edge_traits.specs.Files.{held};

use crate::files::{ShelfFile, copy_held};
use crate::shelves::{FetchError, Shelf};
use ring_types::{List, Text};
use std::alloc::Global;
use std::marker::Model;

/// A shelf in memory that never fails.
#[derive(Drop)]
pub struct SteadyShelf {
    alloc: Global,
    files: List<ShelfFile>,
}

impl Model for SteadyShelf {
    ghost use Rattle.std.specs.Prelude.{List};
    ghost use Rattle.edge_traits.specs.declared.files.ShelfFile.{ShelfFile};

    ghost Value = { List ShelfFile };

    ghost view = { λ s. s.files };
}

impl SteadyShelf {
    /// If two files have one name, the first is fetched.
    pub fn new(alloc: Global, files: List<ShelfFile>) -> SteadyShelf
        ensures state { result ≡ files }
        ensures told { ⟦<SteadyShelf as Shelf>⟧.files result ≡ Some (held files) }
        ensures faults { ⟦<SteadyShelf as Shelf>⟧.faults result ≡ 0 }
    {
        SteadyShelf { alloc, files }
    }
}

impl Shelf for SteadyShelf {
    ghost files = { λ s. Some (held s) };

    // a count that never rises, so that no caller can answer for a fault
    ghost faults = { λ _. 0 };

    fn fetch(&mut self, name: &Text, limit: u64) -> Result<List<u8>, FetchError>
        ensures told { FetchIs (held self.old name.now) limit result }
        ensures within { IfOk result (λ bytes. length bytes ≤ limit) }
        ensures steady { result ≢ Err FetchError.Failed }
        ensures same { self.new ≡ self.old }
    {
        copy_held(&self.files, self.alloc, name, limit)
    }
}
