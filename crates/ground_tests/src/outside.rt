//! What shelves give and sinks take, and whose failure a caller of both tells.
ghost use Rattle.std.specs.Prelude.{◌≡◌, ◌≢◌, ◌≤◌, ◌++◌, Err, IfOk, OnOk, IfSome, Some, is_some, length};
ghost use Rattle.edge_traits.specs.Counts.{Rose};
ghost use Rattle.edge_traits.specs.Fetches.{FetchIs, FetchFails};
ghost use Rattle.edge_traits.specs.Files.{held};
ghost use Rattle.edge_traits.specs.Puts.{PutIs, PutFails};

use super::fixtures::{numbers, pair, text, with};
use edge_traits::{
    FetchError, MemoryShelf, MemorySink, Shelf, ShelfFile, Sink, SinkFault, SteadyShelf, SteadySink,
};
use ring_types::{List, Text};
use std::alloc::Global;
use std::process::Abort;

// Callers that know no more than the traits.

/// Fetches a file once more where the shelf failed.
fn fetch_again<H: Shelf>(shelf: &mut H, name: &Text, limit: u64) -> Result<List<u8>, FetchError>
    ensures told { IfSome (H.files shelf.old) (λ f. FetchIs (f name.now) limit result) }
    ensures within { IfOk result (λ bytes. length bytes ≤ limit) }
    ensures same { H.files shelf.new ≡ H.files shelf.old }
    ensures later { H.faults shelf.old ≤ H.faults shelf.new }
    ensures failed { FetchFails (H.faults shelf.old) (H.faults shelf.new) result }
{
    match shelf.fetch(name, limit) {
        Err(FetchError::Failed) => shelf.fetch(name, limit),
        answer => answer,
    }
}

/// Puts one run of bytes after the other.
fn put_both<O: Sink>(sink: &mut O, first: &[u8], second: &[u8]) -> Result<(), SinkFault>
    ensures told { IfSome (O.taken sink.old) (λ old. OnOk result (O.taken sink.new ≡ Some (old ++ (first.now ++ second.now)))) }
    ensures tells { is_some (O.taken sink.new) ≡ is_some (O.taken sink.old) }
    ensures later { O.faults sink.old ≤ O.faults sink.new }
    ensures failed { PutFails (O.faults sink.old) (O.faults sink.new) result }
{
    sink.put(first)?;
    sink.put(second)
}

/// How a copy ended.
#[derive(Clone, Copy, PartialEq, Eq)]
enum Copied {
    Whole,
    ShelfFailed,
    SinkFailed,
    Refused,
}

/// Copies a file of the shelf into the sink, with a mark before it.
fn copy_file<H: Shelf, O: Sink>(shelf: &mut H, sink: &mut O, name: &Text, limit: u64) -> Copied
    ensures shelf_failed { result ≡ Copied.ShelfFailed → Rose (H.faults shelf.old) (H.faults shelf.new) }
    ensures sink_failed { result ≡ Copied.SinkFailed → Rose (O.faults sink.old) (O.faults sink.new) }
{
    match fetch_again(shelf, name, limit) {
        Err(FetchError::Failed) => Copied::ShelfFailed,
        Err(_) => Copied::Refused,
        Ok(bytes) => match put_both(sink, b">", bytes.as_slice()) {
            Ok(()) => Copied::Whole,
            Err(SinkFault::Failed) => Copied::SinkFailed,
            Err(SinkFault::Memory) => Copied::Refused,
        },
    }
}

/// Over steady forms neither failure is left.
fn copy_steadily(shelf: &mut SteadyShelf, sink: &mut SteadySink, name: &Text, limit: u64) -> Copied
    ensures shelf { result ≢ Copied.ShelfFailed }
    ensures sink { result ≢ Copied.SinkFailed }
{
    copy_file(shelf, sink, name, limit)
}

/// A generic caller's clauses on content, at forms in memory that were just made.
fn fetch_from_new(
    alloc: Global,
    files: List<ShelfFile>,
    name: &Text,
    limit: u64,
) -> Result<List<u8>, FetchError>
    ensures told { FetchIs (held files name.now) limit result }
    ensures steady { result ≢ Err FetchError.Failed }
{
    let mut shelf = SteadyShelf::new(alloc, files);
    fetch_again(&mut shelf, name, limit)
}

fn file(rt: &(impl AllocGlobal + Abort), name: &str, content: &str) -> ShelfFile {
    let mut bytes = List::new(rt.alloc());
    bytes
        .extend_from_slice(content.as_bytes())
        .expect(rt, "memory");
    ShelfFile {
        name: text(rt, name),
        bytes,
    }
}

/// Three files, two of them with one name.
fn files(rt: &(impl AllocGlobal + Abort)) -> List<ShelfFile> {
    let two = pair(rt, file(rt, "a", "one"), file(rt, "b", "12345"));
    with(rt, two, file(rt, "a", "two"))
}

/// The bytes of a file, or a word for why there are none.
fn shown(answer: &Result<List<u8>, FetchError>) -> &[u8] {
    match answer {
        Ok(bytes) => bytes.as_slice(),
        Err(FetchError::Absent) => b"absent",
        Err(FetchError::TooLarge) => b"too large",
        Err(FetchError::Failed) => b"failed",
        Err(FetchError::Memory) => b"memory",
    }
}

/// Expects a shelf to give these bytes, or this word for why it gives none.
fn gives<H: Shelf>(
    rt: &(impl AllocGlobal + Abort),
    shelf: &mut H,
    name: &str,
    limit: u64,
    want: &str,
) {
    let answer = shelf.fetch(&text(rt, name), limit);
    assert!(rt; shown(&answer) == want.as_bytes(), "{name}");
}

#[test]
fn a_shelf_gives_whole_files_or_says_why_not(rt: HostRuntime) {
    let mut shelf = MemoryShelf::new(rt.alloc(), files(&rt), numbers(&rt, &[2, 6]));
    gives(&rt, &mut shelf, "a", 3, "one");
    gives(&rt, &mut shelf, "a", 3, "failed");
    gives(&rt, &mut shelf, "b", 4, "too large");
    gives(&rt, &mut shelf, "b", 5, "12345");
    gives(&rt, &mut shelf, "c", 9, "absent");
    gives(&rt, &mut shelf, "c", 0, "failed");
}

/// Puts bytes, and expects the sink to have taken these so far; tells whether the call failed.
fn fails_to_take(rt: &impl Abort, sink: &mut MemorySink, bytes: &str, took: &str) -> bool {
    let fails = sink.put(bytes.as_bytes()) == Err(SinkFault::Failed);
    assert!(rt; sink.taken().as_slice() == took.as_bytes());
    fails
}

#[test]
fn a_sink_takes_all_bytes_or_none(rt: HostRuntime) {
    let mut sink = MemorySink::new(rt.alloc(), numbers(&rt, &[1, 3]));
    assert!(rt; fails_to_take(&rt, &mut sink, "ab", ""));
    assert!(rt; !fails_to_take(&rt, &mut sink, "cd", "cd"));
    assert!(rt; fails_to_take(&rt, &mut sink, "e", "cd"));
    assert!(rt; !fails_to_take(&rt, &mut sink, "fg", "cdfg"));
}

/// How a copy of the file `b` ends, of which the calls of these numbers fail.
fn copy_failing(rt: &(impl AllocGlobal + Abort), fetches: &[u64], puts: &[u64]) -> Copied {
    let mut shelf = MemoryShelf::new(rt.alloc(), files(rt), numbers(rt, fetches));
    let mut sink = MemorySink::new(rt.alloc(), numbers(rt, puts));
    copy_file(&mut shelf, &mut sink, &text(rt, "b"), 5)
}

#[test]
fn a_caller_tells_whose_failure_it_was(rt: HostRuntime) {
    assert!(rt; copy_failing(&rt, &[1], &[]) == Copied::Whole);
    assert!(rt; copy_failing(&rt, &[1, 2], &[]) == Copied::ShelfFailed);
    assert!(rt; copy_failing(&rt, &[], &[2]) == Copied::SinkFailed);
}

#[test]
fn steady_forms_never_fail(rt: HostRuntime) {
    let mut shelf = SteadyShelf::new(rt.alloc(), files(&rt));
    let mut sink = SteadySink::new(rt.alloc());
    let name = text(&rt, "b");
    assert!(rt; copy_steadily(&mut shelf, &mut sink, &name, 4) == Copied::Refused);
    assert!(rt; copy_steadily(&mut shelf, &mut sink, &name, 5) == Copied::Whole);
    assert!(rt; sink.taken().as_slice() == b">12345".as_slice());
}
