//! Calls on a log of which one call of the disk stops or fails.
ghost use Rattle.std.specs.Prelude.{◌≡◌, ◌≤◌, true, IfOk, OnOk, length, take};
ghost use Rattle.ring_types.specs.Rings.{is_schema};
ghost use Rattle.ring_types.specs.declared.schemas.Schema.{Schema};
ghost use Rattle.disk_memory.specs.Pasts.{states};
ghost use Rattle.binlog_store.specs.Mounted.{IsMounted, IsStore, log_of};
ghost use Rattle.binlog_store.specs.Stands.{IsWritten};
ghost use Rattle.binlog_store.specs.declared.stores.BinlogStore.{BinlogStore};

use crate::disks::{WHOLE, find, with_end};
use crate::ranges::Ranges;
use binlog_store::{BinlogStore, LogPoint, StoreFault};
use disk_memory::MemoryDisk;
use edge_traits::{Disk, DiskFault, FileId};
use ring_types::{CutAt, Entry, Keep, List, Memory, Ring, Schema, after};
use std::alloc::Global;

/// A call on a log.
#[derive(Clone, Copy)]
pub enum Work {
    /// The first NoOp is appended to the empty log of a new disk.
    First,
    /// Entries 3 to 7 are appended.
    Append,
    /// The log of 7 entries is truncated to 2.
    Truncate,
}

/// How a call of the disk cuts the work.
#[derive(Clone, Copy)]
pub struct Way {
    /// What its lines say of it, in front of the call and behind it.
    word: &'static str,
    tail: &'static str,
    /// How much the crash keeps of each write, if the call stops the disk; else it is the only one that
    /// fails.
    keep: Option<Keep>,
    /// Whether the disk crashes after it.
    crash: bool,
}

impl Way {
    fn cut_at(self, call: u64) -> CutAt {
        match self.keep {
            Some(keep) => CutAt::Stop { call, keep },
            None => CutAt::Fail { call },
        }
    }
}

fn stop(keep: Keep, tail: &'static str) -> Way {
    Way {
        word: "stop",
        tail,
        keep: Some(keep),
        crash: true,
    }
}

fn failure(crash: bool, tail: &'static str) -> Way {
    Way {
        word: "fail",
        tail,
        keep: None,
        crash,
    }
}

/// All of them, in the order of the lines.
pub fn ways() -> [Way; 5] {
    [
        stop(Keep::Nothing, " none"),
        stop(Keep::Half, " half"),
        stop(Keep::All, " all"),
        failure(true, ""),
        failure(false, ", no crash"),
    ]
}

/// Where the log of the first NoOp ends.
const ONE: LogPoint = LogPoint {
    count: 1,
    file: 1,
    end: 199,
    highest: 3,
};

/// The log of the first NoOp, as a mount reads it from another disk.
fn first_log(alloc: Global, ring: &Ring) -> Result<List<Entry>, StoreFault>
    ensures { IfOk result (IsWritten ring.now.schema) }
{
    let mut disk = with_end(alloc, ring, ONE)?;
    ring.law_built();
    let store = BinlogStore::mount(alloc, ring.schema(), &mut disk)?;
    let mut log = List::new(alloc);
    log.extend_copies(alloc, store.entries())?;
    Ok(log)
}

/// Begins the turn of which a call stops the disk or fails.
fn begin(disk: &mut MemoryDisk, cut: CutAt) -> Result<(), Memory>
    ensures { OnOk result (disk.new.past.records ≡ disk.old.past.records) }
{
    match cut {
        CutAt::Stop { call, keep } => disk.stop_at(call, keep),
        CutAt::Fail { call } => disk.fail_at(call),
    }
}

/// Syncs a file of the log, so that no crash brings back what was cut off it.
fn settle(disk: &mut MemoryDisk, number: u32) -> Result<(), DiskFault>
    ensures { OnOk result ((schema : Schema) (store : BinlogStore) → IsMounted schema store (states disk.old.past.records) → IsMounted schema store (states disk.new.past.records)) }
{
    disk.sync(FileId::Binlog(number))?;
    Ok(())
}

/// Truncates the log to two entries, and syncs its files.
fn truncate_for_good(
    store: &mut BinlogStore,
    schema: &Schema,
    disk: &mut MemoryDisk,
) -> Result<(), StoreFault>
    requires schema { is_schema schema.now ≡ true }
    requires store { IsStore schema.now store.old }
    requires within { 2 ≤ length (log_of store.old) }
    requires mounted { IsMounted schema.now store.old (states disk.old.past.records) }
    ensures log { OnOk result (log_of store.new ≡ take 2 (log_of store.old)) }
    ensures store { OnOk result (IsStore schema.now store.new) }
    ensures mounted { OnOk result (IsMounted schema.now store.new (states disk.new.past.records)) }
{
    store.truncate(schema, disk, 2)?;
    settle(disk, 1)?;
    settle(disk, 2)?;
    settle(disk, 3)?;
    Ok(())
}

/// What a call answered.
fn answer_of(done: Result<(), StoreFault>) -> Result<&'static str, StoreFault> {
    match done {
        Ok(()) => Ok("done"),
        Err(StoreFault::Disk) => Ok("failed"),
        Err(fault) => Err(fault),
    }
}

/// Appends the first NoOp to the empty log of the disk.
fn append_first(
    alloc: Global,
    ring: &Ring,
    disk: &mut MemoryDisk,
    cut: CutAt,
) -> Result<&'static str, StoreFault> {
    let log = first_log(alloc, ring)?;
    ring.law_built();
    let schema = ring.schema();
    let mut store = BinlogStore::mount(alloc, schema, disk)?;
    if store.length() != 0 {
        return Ok("not empty");
    }
    begin(disk, cut)?;
    answer_of(store.append(schema, disk, log))
}

/// Truncates the log of the disk to two entries, for good, and appends what that left out.
#[tactic(auto, using(crate::proofs::Parts::parts_written))]
fn append_again(
    alloc: Global,
    ring: &Ring,
    disk: &mut MemoryDisk,
    cut: CutAt,
) -> Result<&'static str, StoreFault> {
    ring.law_built();
    let schema = ring.schema();
    let mut store = BinlogStore::mount(alloc, schema, disk)?;
    if store.length() < 2 {
        return Ok("too short");
    }
    let mut rest = List::new(alloc);
    rest.extend_copies(alloc, after(store.entries(), 2))?;
    truncate_for_good(&mut store, schema, disk)?;
    begin(disk, cut)?;
    answer_of(store.append(schema, disk, rest))
}

/// Truncates the log of the disk to two entries.
fn truncate(
    alloc: Global,
    ring: &Ring,
    disk: &mut MemoryDisk,
    cut: CutAt,
) -> Result<&'static str, StoreFault> {
    ring.law_built();
    let schema = ring.schema();
    let mut store = BinlogStore::mount(alloc, schema, disk)?;
    if store.length() < 2 {
        return Ok("too short");
    }
    begin(disk, cut)?;
    answer_of(store.truncate(schema, disk, 2))
}

/// The disk on which the work begins.
fn disk_for(alloc: Global, ring: &Ring, work: Work) -> Result<MemoryDisk, StoreFault> {
    match work {
        Work::First => Ok(MemoryDisk::new(alloc)),
        Work::Append | Work::Truncate => with_end(alloc, ring, WHOLE),
    }
}

fn answer(
    alloc: Global,
    ring: &Ring,
    work: Work,
    disk: &mut MemoryDisk,
    cut: CutAt,
) -> Result<&'static str, StoreFault> {
    match work {
        Work::First => append_first(alloc, ring, disk, cut),
        Work::Append => append_again(alloc, ring, disk, cut),
        Work::Truncate => truncate(alloc, ring, disk, cut),
    }
}

/// What the work answered, and what is found afterwards.
fn found_after(
    alloc: Global,
    ring: &Ring,
    work: Work,
    way: Way,
    call: u64,
) -> Result<String, StoreFault> {
    let mut disk = disk_for(alloc, ring, work)?;
    let answer = answer(alloc, ring, work, &mut disk, way.cut_at(call))?;
    if way.crash {
        disk.crash()?;
    }
    disk.clear()?;
    let found = find(alloc, ring, &mut disk)?;
    Ok(format!(in alloc; "{answer}, {found}")?)
}

/// How many calls of the disk the work makes, and its word.
fn calls_of(work: Work) -> (u32, &'static str) {
    match work {
        Work::First => (6, "first"),
        Work::Append => (14, "append"),
        Work::Truncate => (9, "truncate"),
    }
}

/// The lines of the work that is cut in this way, at each of its calls and at the one behind them.
pub fn lines(alloc: Global, ring: &Ring, work: Work, way: Way) -> Result<String, StoreFault> {
    let (calls, name) = calls_of(work);
    let word = way.word;
    let head = format!(in alloc; "{name} {word} ")?;
    let mut lines = Ranges::new(alloc, head.as_str(), way.tail);
    for call in 1..u64::from(calls) + 2 {
        let found = found_after(alloc, ring, work, way, call)?;
        lines.add(format!(in alloc; "{call}")?, found)?;
    }
    Ok(lines.into_text()?)
}
