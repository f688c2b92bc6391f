//! The command over files in memory, of which chosen calls fail.
use edge_traits::{MemoryShelf, MemorySink, ShelfFile};
use myraft_run::{Status, run};
use ring_types::{List, Memory, Text};
use std::alloc::Global;
use std::test::Fail;

const RING: &str = "version = 1
home = \"east\"
database = \"app\"
regions = [\"east\"]

[[node]]
id = 1
region = \"east\"
kind = \"full\"
uuid = \"3e11fa47-71ca-11e1-9e33-c80aa9429562\"

[[table]]
name = \"t\"
columns = [\"id int\", \"name text 16000\"]
";

const SCHEDULE: &str = "elect 1
write 1 insert t 7 'a'
";

const REPORT: &str = "events 2 messages 0 chosen 2
chosen 1 1 1 noop
chosen 2 1 1 txn 3e11fa47-71ca-11e1-9e33-c80aa9429562:1
node 1 leader term 1 length 2 commit 2 applied 2 prepared 0
vote 1 1 1
log 1 1 1 noop
log 2 1 1 txn 3e11fa47-71ca-11e1-9e33-c80aa9429562:1
gtids 3e11fa47-71ca-11e1-9e33-c80aa9429562:1
file binlog.000001 472
table t 1
row 7 'a'
said 2 1 committed 3e11fa47-71ca-11e1-9e33-c80aa9429562:1 1:2
";

/// What a run ended with, and what it wrote.
#[derive(Drop)]
struct Finished {
    status: Status,
    out: MemorySink,
    err: MemorySink,
}

fn text(alloc: Global, of: &str) -> Result<Text, Memory> {
    Ok(Text::from_string(String::from_str(alloc, of)?))
}

fn bytes(alloc: Global, of: &str) -> Result<List<u8>, Memory> {
    let mut bytes = List::new(alloc);
    bytes.extend_from_slice(of.as_bytes())?;
    Ok(bytes)
}

fn file(alloc: Global, name: &str, content: &str) -> Result<ShelfFile, Memory> {
    Ok(ShelfFile {
        name: text(alloc, name)?,
        bytes: bytes(alloc, content)?,
    })
}

fn shelf(alloc: Global, schedule: &str, failing: List<u64>) -> Result<MemoryShelf, Memory> {
    let mut files = List::new(alloc);
    files.push(file(alloc, "r", RING)?)?;
    files.push(file(alloc, "s", schedule)?)?;
    Ok(MemoryShelf::new(alloc, files, failing))
}

fn words(alloc: Global, verb: &str, ring: &str, schedule: &str) -> Result<Vec<String>, Memory> {
    let mut words = Vec::new(alloc);
    words.push(String::from_str(alloc, verb)?)?;
    words.push(String::from_str(alloc, ring)?)?;
    words.push(String::from_str(alloc, schedule)?)?;
    Ok(words)
}

/// The number of the one call that fails; none where it is 0.
fn call(alloc: Global, number: u64) -> Result<List<u64>, Memory> {
    let mut calls = List::new(alloc);
    if number > 0 {
        calls.push(number)?;
    }
    Ok(calls)
}

fn ended(
    alloc: Global,
    words: &Vec<String>,
    shelf: MemoryShelf,
    out: u64,
    err: u64,
) -> Result<Finished, Memory> {
    let mut shelf = shelf;
    let mut out = MemorySink::new(alloc, call(alloc, out)?);
    let mut err = MemorySink::new(alloc, call(alloc, err)?);
    let status = run(alloc, words, &mut shelf, &mut out, &mut err);
    Ok(Finished { status, out, err })
}

/// Runs the schedule on the ring of one voter, where the given calls of the shelf and of the two outputs fail.
fn replayed(
    alloc: Global,
    schedule: &str,
    fetch: u64,
    out: u64,
    err: u64,
) -> Result<Finished, Memory> {
    let shelf = shelf(alloc, schedule, call(alloc, fetch)?)?;
    let words = words(alloc, "replay", "r", "s")?;
    ended(alloc, &words, shelf, out, err)
}

fn is(ended: &Finished, status: u8, out: &str, err: &str) -> bool {
    ended.status == Status(status)
        && ended.out.taken().as_slice() == out.as_bytes()
        && ended.err.taken().as_slice() == err.as_bytes()
}

#[test]
fn an_insert_is_reported(rt: HostRuntime) -> Result<(), Fail> {
    let ended = replayed(rt.alloc(), SCHEDULE, 0, 0, 0)?;
    assert!(rt; is(&ended, 0, REPORT, ""));
    Ok(())
}

#[test]
fn failing_calls_are_told(rt: HostRuntime) -> Result<(), Fail> {
    let first = replayed(rt.alloc(), SCHEDULE, 1, 0, 0)?;
    assert!(rt; is(&first, 5, "", "myraft: read fault r\n"));
    let second = replayed(rt.alloc(), SCHEDULE, 2, 0, 0)?;
    assert!(rt; is(&second, 5, "", "myraft: read fault s\n"));
    let output = replayed(rt.alloc(), SCHEDULE, 0, 1, 0)?;
    assert!(rt; is(&output, 8, "", "myraft: write fault\n"));
    Ok(())
}

#[test]
fn a_failing_line_changes_no_status(rt: HostRuntime) -> Result<(), Fail> {
    let whole = replayed(rt.alloc(), SCHEDULE, 0, 0, 1)?;
    assert!(rt; is(&whole, 0, REPORT, ""));
    let none = replayed(rt.alloc(), "elect 2\n", 0, 0, 1)?;
    assert!(rt; is(&none, 7, "", ""));
    let cut = replayed(rt.alloc(), "elect 2\n", 0, 0, 2)?;
    assert!(rt; is(&cut, 7, "", "myraft: bad schedule line "));
    Ok(())
}

fn of_words(alloc: Global, verb: &str, ring: &str, schedule: &str) -> Result<Finished, Memory> {
    let shelf = shelf(alloc, SCHEDULE, List::new(alloc))?;
    let words = words(alloc, verb, ring, schedule)?;
    ended(alloc, &words, shelf, 0, 0)
}

#[test]
fn words_and_files_are_looked_at_in_order(rt: HostRuntime) -> Result<(), Fail> {
    let verb = of_words(rt.alloc(), "play", "r", "s")?;
    assert!(rt; is(&verb, 15, "", "myraft: unbuilt\n"));
    let dashed = of_words(rt.alloc(), "replay", "r", "-s")?;
    assert!(rt; is(&dashed, 15, "", "myraft: unbuilt\n"));
    let ring = of_words(rt.alloc(), "replay", "x", "s")?;
    assert!(rt; is(&ring, 3, "", "myraft: no file x\n"));
    let schedule = of_words(rt.alloc(), "replay", "r", "x")?;
    assert!(rt; is(&schedule, 3, "", "myraft: no file x\n"));
    Ok(())
}

#[test]
fn no_words_are_no_command(rt: HostRuntime) -> Result<(), Fail> {
    let shelf = shelf(rt.alloc(), SCHEDULE, List::new(rt.alloc()))?;
    let ended = ended(rt.alloc(), &Vec::new(rt.alloc()), shelf, 0, 0)?;
    assert!(rt; is(&ended, 15, "", "myraft: unbuilt\n"));
    Ok(())
}

fn long_file(alloc: Global, length: usize) -> Result<List<u8>, Memory> {
    Ok(List::from_vec(vec![in alloc; b' '; length]?))
}

#[test]
fn a_file_above_its_limit_is_too_large(rt: HostRuntime) -> Result<(), Fail> {
    let alloc = rt.alloc();
    let mut files = List::new(alloc);
    files.push(ShelfFile {
        name: text(alloc, "r")?,
        bytes: long_file(alloc, 1048577)?,
    })?;
    let shelf = MemoryShelf::new(alloc, files, List::new(alloc));
    let words = words(alloc, "replay", "r", "s")?;
    let ended = ended(alloc, &words, shelf, 0, 0)?;
    assert!(rt; is(&ended, 4, "", "myraft: file too large r\n"));
    Ok(())
}

fn put_insert(schedule: &mut String, alloc: Global, key: u64, length: usize) -> Result<(), Memory> {
    let body = String::from_utf8(vec![in alloc; b'b'; length]?);
    let body = body.unwrap_or(String::new(alloc));
    let change = format!(in alloc; "insert t {key} '{body}'")?;
    schedule.push_str(change.as_str())
}

/// One transaction of 62 rows with texts of 16,000 bytes, and one row with a text of `last` bytes.
fn large_write(alloc: Global, last: usize) -> Result<String, Memory> {
    let mut schedule = String::from_str(alloc, "elect 1\nwrite 1 ")?;
    for key in 0..62 {
        put_insert(&mut schedule, alloc, key, 16000)?;
        schedule.push_str("; ")?;
    }
    put_insert(&mut schedule, alloc, 62, last)?;
    schedule.push_str("\n")?;
    Ok(schedule)
}

#[test]
fn a_group_has_at_most_a_million_bytes(rt: HostRuntime) -> Result<(), Fail> {
    let within = large_write(rt.alloc(), 2024)?;
    let taken = replayed(rt.alloc(), within.as_str(), 0, 0, 0)?;
    let committed = b"said 2 1 committed 3e11fa47-71ca-11e1-9e33-c80aa9429562:1 1:2\n";
    assert!(rt; taken.out.taken().as_slice().ends_with(committed.as_slice()));
    let above = large_write(rt.alloc(), 2025)?;
    let refused = replayed(rt.alloc(), above.as_str(), 0, 0, 0)?;
    let too_large = b"said 2 1 refused too-large 1000001\n";
    assert!(rt;
        refused
            .out
            .taken()
            .as_slice()
            .ends_with(too_large.as_slice())
    );
    Ok(())
}

/// So many inserts after an election.
fn inserts(alloc: Global, count: u64) -> Result<String, Memory> {
    let mut schedule = String::from_str(alloc, "elect 1\n")?;
    for key in 0..count {
        let line = format!(in alloc; "write 1 insert t {key} 'x'\n")?;
        schedule.push_str(line.as_str())?;
    }
    Ok(schedule)
}

#[test]
fn a_thousand_inserts_are_told(rt: HostRuntime) -> Result<(), Fail> {
    let schedule = inserts(rt.alloc(), 1000)?;
    let ended = replayed(rt.alloc(), schedule.as_str(), 0, 0, 0)?;
    let last = b"said 1001 1 committed 3e11fa47-71ca-11e1-9e33-c80aa9429562:1000 1:1001\n";
    assert!(rt; ended.status == Status(0));
    assert!(rt; ended.out.taken().as_slice().ends_with(last.as_slice()));
    Ok(())
}
