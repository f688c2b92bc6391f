ghost use Rattle.std.specs.Prelude.{◌≡◌, ◌≢◌, ◌≤◌, Err, IfOk, length};
ghost use Rattle.std.specs.Option.{option_copied};
ghost use Rattle.edge_traits.specs.Fetches.{FetchIs};
ghost use Rattle.edge_traits.specs.Files.{file_of, held};

use crate::shelves::FetchError;
use ring_types::{Duplicate, List, Memory, Text};
use std::alloc::Global;

/// A file of a shelf in memory.
#[derive(Debug, PartialEq, Eq, Drop)]
pub struct ShelfFile {
    pub name: Text,
    pub bytes: List<u8>,
}

impl Duplicate for ShelfFile {
    fn copy(&self, alloc: Global) -> Result<ShelfFile, Memory> {
        Ok(ShelfFile {
            name: self.name.copy(alloc)?,
            bytes: self.bytes.copy(alloc)?,
        })
    }
}

/// The first file of that name.
fn find_file<'a>(files: &'a List<ShelfFile>, name: &Text) -> Option<&'a ShelfFile>
    ensures { option_copied result ≡ file_of files.now name.now }
{
    files.as_slice().iter().find(|file| file.name == *name)
}

/// The bytes of that name, copied.
pub(crate) fn copy_held(
    files: &List<ShelfFile>,
    alloc: Global,
    name: &Text,
    limit: u64,
) -> Result<List<u8>, FetchError>
    ensures told { FetchIs (held files.now name.now) limit result }
    ensures within { IfOk result (λ bytes. length bytes ≤ limit) }
    ensures steady { result ≢ Err FetchError.Failed }
{
    let Some(file) = find_file(files, name) else {
        return Err(FetchError::Absent);
    };
    if file.bytes.len() as u64 > limit {
        return Err(FetchError::TooLarge);
    }
    file.bytes.copy(alloc).map_err(|_| FetchError::Memory)
}
