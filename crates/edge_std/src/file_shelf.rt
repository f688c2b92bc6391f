ghost use Rattle.std.specs.Prelude.{◌≡◌, ◌≤◌, IfOk, None, length};
ghost use Rattle.edge_std.specs.Counting.{after_fetch};
ghost use Rattle.edge_traits.specs.Counts.{last_count};

use crate::reading::read_named;
use edge_traits::{FetchError, Shelf};
use ring_types::{List, Text};
use std::alloc::Global;
use std::rt::Files;

/// Real files, each named by its path. A relative path begins at the current directory.
///
/// A name that leads to no file is `Absent`. Any other fault of the system is `Failed`, but for its want
/// of memory. A file may change while it is read, and then the bytes are those that the reads gave.
#[derive(Drop)]
pub struct FileShelf<R> {
    alloc: Global,
    files: R,
    faults: u64,
}

impl<R: Files> FileShelf<R> {
    /// `files` is the runtime, or a reference to it.
    pub fn new(alloc: Global, files: R) -> FileShelf<R>
        ensures told { ⟦<FileShelf<R> as Shelf>⟧.files result ≡ None }
        ensures faults { ⟦<FileShelf<R> as Shelf>⟧.faults result ≡ 0 }
    {
        FileShelf {
            alloc,
            files,
            faults: 0,
        }
    }
}

impl<R: Files> Shelf for FileShelf<R> {
    ghost files = { λ _. None };

    ghost faults = { λ s. s.faults };

    fn fetch(&mut self, name: &Text, limit: u64) -> Result<List<u8>, FetchError>
        ensures within { IfOk result (λ bytes. length bytes ≤ limit) }
        ensures count { self.new.faults ≡ after_fetch result self.old.faults }
        ensures later { self.old.faults ≤ self.new.faults }
        ensures limit { self.new.faults ≤ last_count }
    {
        let answer = read_named(self.alloc, &self.files, name, limit);
        let faults = self.faults;
        if matches!(answer, Err(FetchError::Failed)) {
            self.faults = faults.saturating_add(1);
        }
        answer
    }
}
