//! Workloads for `bench/run`, which times them from outside. `workloads NAME COUNT` does the work of
//! that name COUNT times and prints one line on what came of it:
//!
//! - `checksum`: the CRC-32 of 1 MiB;
//! - `write`: the group of a transaction with one insert, each behind the one before;
//! - `read`: the same, and then each is read back;
//! - `ascending`, `scattered`: a number is put into a GTID set, in order or all over the place;
//! - `rows`: an insert, an update or a delete, in turn, is checked and applied to a table of 10,000
//!   rows;
//! - `conflicts`: a change is held against the keys of 10,000 prepared transactions;
//! - `disk`: a call of a disk in memory, in turn four writes of 100 bytes at the end of a file and a sync;
//! - `switch`: a control file is switched to 1,000 bytes;
//! - `mount`: an entry of a log is read, when the log is mounted on a disk in memory;
//! - `append`: the same, and then the log is truncated to nothing, and each entry is appended by itself.
//!
//! `workloads file COUNT` writes a binary log file with so many such groups to standard output, for
//! `bench/stock-reader`.
//!
//! Nothing here is a test; the gate runs it once with a small count.
#![tactic(auto)]

mod disks;
mod engines;
mod groups;
mod logs;
mod sets;

use edge_std::StdSink;
use edge_traits::Sink;
use event_frame::crc32;
use ring_types::Memory;
use std::alloc::Global;
use std::io;
use std::process::ExitCode;

/// The checksums of so many blocks of 1 MiB, each other in its first byte, added up.
fn checksums(alloc: Global, count: u64) -> Result<u64, Memory> {
    let mut block = Vec::new(alloc);
    block.resize(1 << 20, 7u8)?;
    let mut all = 0u32;
    for i in 0..count {
        if let Some(first) = block.first_mut() {
            *first = (i & 0xff) as u8;
        }
        all = all.wrapping_add(crc32(block.as_slice()));
    }
    Ok(u64::from(all))
}

/// What came of the work of this name; nothing if there is no such work.
fn worked(alloc: Global, name: &str, count: u64) -> Result<Option<u64>, Memory> {
    let came = match name {
        "checksum" => checksums(alloc, count),
        "write" => groups::written(alloc, count),
        "read" => groups::read(alloc, count),
        "ascending" => sets::ascending(alloc, count),
        "scattered" => sets::scattered(alloc, count),
        "rows" => engines::changed(alloc, count),
        "conflicts" => engines::held(alloc, count),
        "disk" => Ok(disks::written(alloc, count)),
        "switch" => disks::switched(alloc, count),
        "mount" => logs::mounted(alloc, count),
        "append" => logs::appended(alloc, count),
        _ => return Ok(None),
    };
    Ok(Some(came?))
}

fn status(is_done: bool) -> ExitCode {
    if is_done {
        ExitCode::SUCCESS
    } else {
        ExitCode::from(1)
    }
}

fn main(rt: HostRuntime) -> io::Result<ExitCode> {
    let mut words = std::env::args(&rt)?;
    let _name = words.next();
    let words: Vec<String> = words.collect(rt.alloc())?;
    if let [name, count] = words.as_slice()
        && let Ok(count) = count.as_str().parse::<u64>()
    {
        if name.as_str() == "file" {
            let bytes = groups::file(rt.alloc(), count)?;
            return Ok(status(StdSink::new(rt.stdout()).put(bytes.as_slice()).is_ok()));
        }
        if let Some(came) = worked(rt.alloc(), name.as_str(), count)? {
            println!(rt; "{name} {count}: {came}")?;
            return Ok(ExitCode::SUCCESS);
        }
    }
    println!(rt; "workloads NAME COUNT")?;
    Ok(ExitCode::from(2))
}
