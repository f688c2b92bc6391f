//! Control files that name no end of the log, or another one.
use crate::disks::{WHOLE, find, name_end, point_bytes, with_end, with_files};
use binlog_store::{LogPoint, StoreFault};
use edge_traits::{Disk, FileId};
use ring_types::Ring;
use std::alloc::Global;

/// A count, a file, an end and a highest number each.
const POINTS: [(u64, u32, u64, u32); 11] = [
    // of the log's first two entries
    (2, 1, 471, 3),
    // an entry too few, and one too many
    (6, 3, 511, 3),
    (8, 3, 511, 3),
    // an end within a head, and behind a Rotate
    (5, 3, 196, 3),
    (3, 1, 557, 3),
    // an end before the end of a group, and behind it
    (7, 3, 510, 3),
    (7, 3, 512, 3),
    // a file that is not there, and numbers that no file has
    (7, 4, 197, 4),
    (7, 0, 511, 3),
    (7, 3, 511, 2),
    (7, 3, 511, 1_000_000),
];

/// The line of a point.
fn line_of(
    alloc: Global,
    ring: &Ring,
    numbers: (u64, u32, u64, u32),
) -> Result<String, StoreFault> {
    let (count, file, end, highest) = numbers;
    let point = LogPoint {
        count,
        file,
        end,
        highest,
    };
    let mut disk = with_end(alloc, ring, point)?;
    let found = find(alloc, ring, &mut disk)?;
    Ok(format!(in alloc; "point {count} {file} {end} {highest}: {found}\n")?)
}

/// What is found where the control file has the first half of a point's bytes.
fn half_a_point(alloc: Global, ring: &Ring) -> Result<String, StoreFault> {
    let mut bytes = point_bytes(alloc, WHOLE)?;
    bytes.truncate(12);
    let mut disk = with_files(alloc, ring)?;
    name_end(alloc, &mut disk, bytes.as_slice())?;
    find(alloc, ring, &mut disk)
}

/// What is found where the slots of the control file, both open, have one tag.
fn equal_tags(alloc: Global, ring: &Ring) -> Result<String, StoreFault> {
    let mut disk = with_end(alloc, ring, WHOLE)?;
    disk.write(FileId::LogCtl, 1, &[1])?;
    find(alloc, ring, &mut disk)
}

/// What is found where the control file has one of its slots.
fn one_slot(alloc: Global, ring: &Ring) -> Result<String, StoreFault> {
    let mut disk = with_end(alloc, ring, WHOLE)?;
    disk.cut(FileId::LogCtl, 32_776)?;
    find(alloc, ring, &mut disk)
}

/// The lines of points.
pub fn points(alloc: Global, ring: &Ring) -> Result<String, StoreFault> {
    let mut text = String::new(alloc);
    for numbers in POINTS {
        let line = line_of(alloc, ring, numbers)?;
        text.push_str(line.as_str())?;
    }
    Ok(text)
}

/// The lines of control files without a point.
pub fn others(alloc: Global, ring: &Ring) -> Result<String, StoreFault> {
    let half = half_a_point(alloc, ring)?;
    let tags = equal_tags(alloc, ring)?;
    let slot = one_slot(alloc, ring)?;
    Ok(format!(in alloc;
        "12 bytes of a point: {half}\nequal tags: {tags}\nlog.ctl cut to 32776: {slot}\n"
    )?)
}
