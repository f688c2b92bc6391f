ghost use Rattle.std.specs.Prelude.{◌≡◌, ◌≤◌};
ghost use Rattle.myraft_run.specs.Inputs as spec;
ghost use Rattle.myraft_run.specs.Parts.{Fetches};
ghost use Rattle.myraft_run.specs.Spans.{shelf_span};

use crate::stops::{File, Stop};
use edge_traits::{FetchError, Shelf};
use ring_types::{List, Text};

fn got(file: File, answer: Result<List<u8>, FetchError>) -> Result<List<u8>, Stop>
    ensures { result ≡ spec.got file answer }
{
    match answer {
        Ok(bytes) => Ok(bytes),
        Err(FetchError::Absent) => Err(Stop::NoFile(file)),
        Err(FetchError::TooLarge) => Err(Stop::TooLarge(file)),
        Err(FetchError::Failed) => Err(Stop::ReadFault(file)),
        Err(FetchError::Memory) => Err(Stop::Memory),
    }
}

/// Fetches a file, or says why the program stops.
pub(crate) fn fetch<H: Shelf>(
    shelf: &mut H,
    file: File,
    name: &Text,
    limit: u64,
) -> Result<List<u8>, Stop>
    ensures fetches { Fetches (shelf_span H.files H.faults shelf.old shelf.new) name.now limit file result }
    ensures same { H.files shelf.new ≡ H.files shelf.old }
    ensures later { H.faults shelf.old ≤ H.faults shelf.new }
{
    let answer = shelf.fetch(name, limit);
    got(file, answer)
}
