use crate::outcomes::{Outcome, REFUSED, REPORT};
use edge_std::FileShelf;
use edge_traits::{FetchError, MemorySink, Shelf};
use myraft_run::run;
use ring_types::{List, Memory, Text};
use std::alloc::Global;
use std::io;

/// The most bytes of a file that a case compares with.
const LIMIT: u64 = 1 << 20;

/// A case: the folder of its name, and the ring that it shares with others.
#[derive(Clone, Copy)]
pub struct Case<'a> {
    pub name: &'a str,
    pub ring: &'a str,
}

/// The bytes of a file, if it is there.
pub fn fetch(rt: &HostRuntime, path: String) -> io::Result<Option<List<u8>>> {
    let mut shelf = FileShelf::new(rt.alloc(), rt);
    match shelf.fetch(&Text::from_string(path), LIMIT) {
        Ok(bytes) => Ok(Some(bytes)),
        Err(FetchError::Absent) => Ok(None),
        Err(FetchError::Memory) => Err(io::Error::from(io::ErrorKind::OutOfMemory)),
        Err(FetchError::TooLarge | FetchError::Failed) => Err(io::Error::other(
            "a file cannot be read",
        )),
    }
}

/// The path of a file of the case.
pub fn path(alloc: Global, case: Case<'_>, file: &str) -> Result<String, Memory> {
    let folder = case.name;
    format!(in alloc; "{folder}/{file}")
}

/// The words of the command that the case is about.
fn words(alloc: Global, case: Case<'_>) -> Result<Vec<String>, Memory> {
    let ring = case.ring;
    let mut words = Vec::new(alloc);
    words.push(String::from_str(alloc, "replay")?)?;
    words.push(format!(in alloc; "rings/{ring}.toml")?)?;
    words.push(path(alloc, case, "schedule.txt")?)?;
    Ok(words)
}

/// Runs the command, and says what it came to.
pub fn outcome(rt: &HostRuntime, case: Case<'_>) -> Result<Outcome, Memory> {
    let alloc = rt.alloc();
    let mut shelf = FileShelf::new(alloc, rt);
    let mut out = MemorySink::new(alloc, List::new(alloc));
    let mut err = MemorySink::new(alloc, List::new(alloc));
    let words = words(alloc, case)?;
    let status = run(alloc, &words, &mut shelf, &mut out, &mut err);
    Outcome::new(alloc, status, out.taken(), err.taken())
}

/// Whether the case has both a report and a refusal, of which only one can be right.
pub fn has_both_files(rt: &HostRuntime, case: Case<'_>) -> io::Result<bool> {
    let report = fetch(rt, path(rt.alloc(), case, REPORT)?)?;
    let refused = fetch(rt, path(rt.alloc(), case, REFUSED)?)?;
    Ok(report.is_some() && refused.is_some())
}
