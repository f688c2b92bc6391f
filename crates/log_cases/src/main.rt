//! The cases of a log on a disk in memory. Cases that follow one another and find the same share a line.
//! What is printed was worked out from the sizes of the events and from the order in which the disk is
//! called; `stdout` has it, and the gate compares.
//!
//! The log has 7 entries in three files: a NoOp, an insert and a Rotate; an insert and a Rotate; a NoOp and
//! an insert. An opid event has 42 bytes and a ROTATE 44; the events of an insert have 65, 42, 46, 46 and 31
//! behind their opid event. The groups begin at 157, 199 and 471, at 197 and 469, and at 197 and 239; the
//! files have 557, 555 and 511 bytes.
//!
//! - `first stop C K: A, F`: the first NoOp was appended to an empty log, and stopped at the C-th call of
//!   the disk, where the crash keeps K of each write. The append answered A, and a mount finds F.
//! - `append stop C K`, `truncate stop C K`: the same of an append of entries 3 to 7 to files that hold no
//!   more than entries 1 and 2, and of a truncation from 7 entries to 2.
//! - `.. fail C: A, F`: only the C-th call fails, and the crash keeps nothing. With `no crash` the log is
//!   mounted at once, so that what was written stands.
//! - `one insert, flip FILE O.B: F`: of a log of a NoOp and an insert, bit B of the byte at offset O is
//!   changed.
//! - `cut FILE to N: F`: the file is cut off after N bytes. `flip FILE O.B: F`: a bit of it is changed; of
//!   each file those of the second group. Where the last file has a size that ends no event before the
//!   log's end, the group is named and not the event.
//! - `behind the end, ..: F`: what is changed stands behind the end of the log.
//! - `point C L E H: F`: the control file names an end of C entries in file L at E, with the highest number
//!   H.
#![tactic(auto)]

mod damages;
mod disks;
mod entries;
mod files;
mod points;
mod ranges;
mod stops;

use crate::damages::Target;
use crate::disks::WHOLE;
use crate::stops::Work;
use binlog_store::{LogPoint, StoreFault};
use ring_types::Ring;
use std::alloc::Global;
use std::io;
use std::process::ExitCode;

/// The numbers of the log's files, and from which offset up to which their second groups stand.
const SECOND_GROUPS: [(u32, usize, usize); 3] = [(1, 199, 471), (2, 469, 555), (3, 239, 511)];

/// Where the log of the first six entries ends.
const SIX: LogPoint = LogPoint {
    count: 6,
    file: 3,
    end: 239,
    highest: 3,
};

fn add_work(alloc: Global, text: &mut String, ring: &Ring, work: Work) -> Result<(), StoreFault> {
    for way in stops::ways() {
        text.push_str(stops::lines(alloc, ring, work, way)?.as_str())?;
    }
    Ok(())
}

fn add_row_one(alloc: Global, text: &mut String, ring: &Ring) -> Result<(), StoreFault> {
    let mut target = Target::row_one(alloc, ring)?;
    text.push_str(target.flips("one insert, ", 160, 161)?.as_str())?;
    Ok(())
}

fn add_cuts(alloc: Global, text: &mut String, ring: &Ring) -> Result<(), StoreFault> {
    for number in 1..4 {
        let mut target = Target::new(alloc, ring, WHOLE, number)?;
        text.push_str(target.cuts("", 0)?.as_str())?;
    }
    Ok(())
}

fn add_flips(alloc: Global, text: &mut String, ring: &Ring) -> Result<(), StoreFault> {
    for (number, from, end) in SECOND_GROUPS {
        let mut target = Target::new(alloc, ring, WHOLE, number)?;
        text.push_str(target.flips("", from, end)?.as_str())?;
    }
    Ok(())
}

fn add_behind(alloc: Global, text: &mut String, ring: &Ring) -> Result<(), StoreFault> {
    let mut six = Target::new(alloc, ring, SIX, 3)?;
    text.push_str(six.flips("behind the end, ", 239, 511)?.as_str())?;
    text.push_str(six.cuts("behind the end, ", 239)?.as_str())?;
    let mut whole = Target::new(alloc, ring, WHOLE, 3)?;
    text.push_str(whole.additions("behind the end, ", 65)?.as_str())?;
    Ok(())
}

fn report(alloc: Global, ring: &Ring) -> Result<String, StoreFault> {
    let mut text = String::new(alloc);
    for work in [Work::First, Work::Append, Work::Truncate] {
        add_work(alloc, &mut text, ring, work)?;
    }
    add_row_one(alloc, &mut text, ring)?;
    add_cuts(alloc, &mut text, ring)?;
    add_flips(alloc, &mut text, ring)?;
    add_behind(alloc, &mut text, ring)?;
    text.push_str(points::points(alloc, ring)?.as_str())?;
    text.push_str(points::others(alloc, ring)?.as_str())?;
    Ok(text)
}

/// The whole report, if there is a ring.
fn whole_report(alloc: Global) -> Result<String, StoreFault> {
    match entries::ring(alloc)? {
        Some(ring) => report(alloc, &ring),
        None => Ok(format!(in alloc; "no ring\n")?),
    }
}

fn main(rt: HostRuntime) -> io::Result<ExitCode> {
    match whole_report(rt.alloc()) {
        Ok(text) => {
            print!(rt; "{text}")?;
            Ok(ExitCode::SUCCESS)
        }
        Err(fault) => {
            println!(rt; "{fault}")?;
            Ok(ExitCode::FAILURE)
        }
    }
}
