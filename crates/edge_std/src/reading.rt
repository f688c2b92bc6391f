ghost use Rattle.std.specs.Prelude.{◌≡◌, ◌<◌, ◌≤◌, ◌^◌, IfOk, IfErr, IfSome, Some, length, take};
ghost use Rattle.edge_std.specs.Refusals.{unopened, unread, IsUnread};
ghost use Rattle.edge_traits.specs.Fetches.{FetchIs};

use edge_traits::FetchError;
use ring_types::{List, Text};
use std::alloc::Global;
use std::fs;
use std::io::{ErrorKind, Read};
use std::rt::Files;

fn why_unopened(kind: ErrorKind) -> FetchError
    ensures { result ≡ unopened kind }
{
    match kind {
        ErrorKind::NotFound => FetchError::Absent,
        ErrorKind::OutOfMemory => FetchError::Memory,
        _ => FetchError::Failed,
    }
}

fn why_unread(kind: ErrorKind) -> FetchError
    ensures kind { result ≡ unread kind }
    ensures unread { IsUnread result }
{
    match kind {
        ErrorKind::OutOfMemory => FetchError::Memory,
        _ => FetchError::Failed,
    }
}

/// The front of what a reader has left, of at most `most` bytes.
fn read_front<F: Read + Drop>(alloc: Global, from: F, most: u64) -> Result<Vec<u8>, FetchError>
    ensures told { IfSome (F.remaining from) (λ left. IfOk result (λ bytes. bytes.items ≡ take most left)) }
    ensures failed { IfErr result IsUnread }
{
    let mut bytes = Vec::new(alloc);
    let mut front = from.take(most);
    front
        .read_to_end(&mut bytes)
        .map_err(|error| why_unread(error.kind()))?;
    Ok(bytes)
}

/// The bytes, where they are at most `limit`.
fn limited(bytes: Vec<u8>, limit: u64) -> Result<List<u8>, FetchError>
    ensures ok { IfOk result (λ list. (list ≡ bytes.items) × (length list ≤ limit) × (length list < 2 ^ 63)) }
    ensures err { IfErr result (λ error. (error ≡ FetchError.TooLarge) × (limit < length bytes.items)) }
{
    if bytes.len() as u64 > limit {
        return Err(FetchError::TooLarge);
    }
    Ok(List::from_vec(bytes))
}

/// All that a reader has left, where it is at most `limit` bytes. No more than one byte past the limit
/// is read.
#[tactic(auto, using(crate::proofs::Fronts::short_front, crate::proofs::Fronts::long_front))]
pub(crate) fn read_whole<F: Read + Drop>(
    alloc: Global,
    from: F,
    limit: u64,
) -> Result<List<u8>, FetchError>
    ensures told { IfSome (F.remaining from) (λ left. FetchIs (Some left) limit result) }
    ensures within { IfOk result (λ bytes. length bytes ≤ limit) }
{
    let bytes = read_front(alloc, from, limit.saturating_add(1))?;
    limited(bytes, limit)
}

/// All bytes of the file so named.
pub(crate) fn read_named<R: Files>(
    alloc: Global,
    files: &R,
    name: &Text,
    limit: u64,
) -> Result<List<u8>, FetchError>
    ensures within { IfOk result (λ bytes. length bytes ≤ limit) }
{
    let file = fs::open(files, name.as_str()).map_err(|error| why_unopened(error.kind()))?;
    read_whole(alloc, file, limit)
}
