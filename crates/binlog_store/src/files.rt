//! The binary log files of a disk: bytes behind the end of one, whole files, cuts, and reading one.
ghost use Rattle.std.specs.Prelude.{◌≡◌, ◌+◌, ◌≤◌, ◌++◌, ℕ, ◌<◌, [], true, IfOk, OnOk, length, take};
ghost use Rattle.ring_types.specs.declared.limits.TheConstants.{LAST_FILE};
ghost use Rattle.edge_traits.specs.DiskCalls.{DiskFails};
ghost use Rattle.edge_traits.specs.FileStates.{Firm, MayLeave, settled, shortened};
ghost use Rattle.edge_traits.specs.Moments.{AtEachMoment};
ghost use Rattle.edge_traits.specs.Works.{WorksOn};
ghost use Rattle.edge_traits.specs.declared.disks.FileId.TheVariants as id;
ghost use Rattle.binlog_store.specs.Faults.{StoreFails};
ghost use Rattle.binlog_store.specs.Files.{AreAdded, AreSettled, Begins, EndsAt, IsAny, LeavesAny, LeavesFront, from_file};

use crate::faults::StoreFault;
use edge_traits::{Disk, DiskFault, FileId, put};
use ring_types::List;
use std::alloc::Global;

/// Writes bytes behind the end of a file whose bytes stand, and syncs it. At each moment of it a crash
/// leaves the old bytes.
fn extend_file<D: Disk>(disk: &mut D, number: u32, at: u64, bytes: &[u8]) -> Result<(), DiskFault>
    requires { D.tells disk.old ≡ true → EndsAt at (D.files disk.old (id.Binlog number)) }
    ensures here { D.tells disk.old ≡ true → OnOk result (D.files disk.new (id.Binlog number) ≡ settled ((D.files disk.old (id.Binlog number)).bytes ++ bytes.now)) }
    ensures crash { D.tells disk.old ≡ true → AtEachMoment D.files D.moment D.left_since (id.Binlog number) disk.old disk.new (Begins at (D.files disk.old (id.Binlog number)).bytes) }
    ensures story { D.story disk.new ≡ D.story disk.old }
    ensures tells { D.tells disk.new ≡ D.tells disk.old }
    ensures later { D.faults disk.old ≤ D.faults disk.new }
    ensures failed { DiskFails (D.faults disk.old) (D.faults disk.new) result }
{
    put(disk, FileId::Binlog(number), at, bytes)
}

/// Writes a file anew: what it had is cut off, and the bytes are written and synced.
pub(crate) fn write_file<D: Disk>(disk: &mut D, number: u32, bytes: &[u8]) -> Result<(), DiskFault>
    ensures here { D.tells disk.old ≡ true → OnOk result (D.files disk.new (id.Binlog number) ≡ settled bytes.now) }
    ensures crash { D.tells disk.old ≡ true → AtEachMoment D.files D.moment D.left_since (id.Binlog number) disk.old disk.new IsAny }
    ensures story { D.story disk.new ≡ D.story disk.old }
    ensures tells { D.tells disk.new ≡ D.tells disk.old }
    ensures later { D.faults disk.old ≤ D.faults disk.new }
    ensures failed { DiskFails (D.faults disk.old) (D.faults disk.new) result }
{
    let file = FileId::Binlog(number);
    disk.cut(file, 0)?;
    put(disk, file, 0, bytes)
}

/// Writes files anew, of this number and those that follow. At each moment of it a crash may leave
/// anything of them, and leaves of every other file what it might have left before.
pub(crate) fn write_files<D: Disk>(
    disk: &mut D,
    first: u32,
    files: &[List<u8>],
) -> Result<(), DiskFault>
    requires { first + length files.now ≤ LAST_FILE + 1 }
    ensures here { D.tells disk.old ≡ true → OnOk result (AreSettled (D.files disk.new) first files.now) }
    ensures above { D.tells disk.old ≡ true → OnOk result ((n : ℕ) → first + length files.now ≤ n → D.files disk.new (id.Binlog n) ≡ D.files disk.old (id.Binlog n)) }
    ensures crash { D.tells disk.old ≡ true → WorksOn (from_file first) D.files D.moment D.left_since disk.old disk.new LeavesAny }
    ensures story { D.story disk.new ≡ D.story disk.old }
    ensures tells { D.tells disk.new ≡ D.tells disk.old }
    ensures later { D.faults disk.old ≤ D.faults disk.new }
    ensures failed { DiskFails (D.faults disk.old) (D.faults disk.new) result }
{
    for (i, bytes) in files.iter().enumerate() {
        write_file(disk, first + i as u32, bytes.as_slice())?;
    }
    Ok(())
}

/// Writes what entries add to the files of a log: bytes behind the end of its last file, and the files
/// that follow it, anew. At each moment of it a crash leaves the bytes before that end, and of the files
/// before the last what it might have left of them.
pub(crate) fn write_added<D: Disk>(
    disk: &mut D,
    number: u32,
    at: u64,
    added: &[List<u8>],
) -> Result<(), DiskFault>
    requires few { number + length added.now ≤ LAST_FILE + 1 }
    requires ends { D.tells disk.old ≡ true → EndsAt at (D.files disk.old (id.Binlog number)) }
    ensures here { D.tells disk.old ≡ true → OnOk result (AreAdded (D.files disk.new) number (D.files disk.old (id.Binlog number)).bytes added.now) }
    ensures above { D.tells disk.old ≡ true → OnOk result ((n : ℕ) → number + length added.now ≤ n → D.files disk.new (id.Binlog n) ≡ D.files disk.old (id.Binlog n)) }
    ensures crash { D.tells disk.old ≡ true → WorksOn (from_file number) D.files D.moment D.left_since disk.old disk.new (LeavesFront number at (D.files disk.old (id.Binlog number)).bytes) }
    ensures story { D.story disk.new ≡ D.story disk.old }
    ensures tells { D.tells disk.new ≡ D.tells disk.old }
    ensures later { D.faults disk.old ≤ D.faults disk.new }
    ensures failed { DiskFails (D.faults disk.old) (D.faults disk.new) result }
{
    let [first, others @ ..] = added else {
        return Ok(());
    };
    extend_file(disk, number, at, first.as_slice())?;
    write_files(disk, number + 1, others)
}

/// Cuts the files of these numbers to nothing. At each moment of it a crash may leave anything of them.
fn empty_files<D: Disk>(disk: &mut D, first: u32, last: u32) -> Result<(), DiskFault>
    requires { last ≤ LAST_FILE }
    ensures here { D.tells disk.old ≡ true → OnOk result ((n : ℕ) → first ≤ n → n < last + 1 → (D.files disk.new (id.Binlog n)).bytes ≡ []) }
    ensures crash { D.tells disk.old ≡ true → WorksOn (from_file first) D.files D.moment D.left_since disk.old disk.new LeavesAny }
    ensures story { D.story disk.new ≡ D.story disk.old }
    ensures tells { D.tells disk.new ≡ D.tells disk.old }
    ensures later { D.faults disk.old ≤ D.faults disk.new }
    ensures failed { DiskFails (D.faults disk.old) (D.faults disk.new) result }
{
    for number in first..last + 1 {
        disk.cut(FileId::Binlog(number), 0)?;
    }
    Ok(())
}

/// Cuts off what stands behind the end of a log: the rest of its last file, and the files above it, up to
/// number `last`. At each moment of it a crash leaves the bytes before that end, and of the
/// files before the last what it might have left of them.
pub(crate) fn cut_behind<D: Disk>(
    disk: &mut D,
    number: u32,
    at: u64,
    last: u32,
) -> Result<(), DiskFault>
    requires few { number ≤ last }
    requires last { last ≤ LAST_FILE }
    requires firm { D.tells disk.old ≡ true → Firm at (D.files disk.old (id.Binlog number)) }
    ensures here { D.tells disk.old ≡ true → OnOk result (D.files disk.new (id.Binlog number) ≡ shortened at (D.files disk.old (id.Binlog number))) }
    ensures above { D.tells disk.old ≡ true → OnOk result ((n : ℕ) → number + 1 ≤ n → n < last + 1 → (D.files disk.new (id.Binlog n)).bytes ≡ []) }
    ensures crash { D.tells disk.old ≡ true → WorksOn (from_file number) D.files D.moment D.left_since disk.old disk.new (LeavesFront number at (take at (D.files disk.old (id.Binlog number)).bytes)) }
    ensures story { D.story disk.new ≡ D.story disk.old }
    ensures tells { D.tells disk.new ≡ D.tells disk.old }
    ensures later { D.faults disk.old ≤ D.faults disk.new }
    ensures failed { DiskFails (D.faults disk.old) (D.faults disk.new) result }
{
    disk.cut(FileId::Binlog(number), at)?;
    empty_files(disk, number + 1, last)
}

/// All bytes of a file. It is synced first, so what is read is what a crash leaves from then on.
pub(crate) fn read_file<D: Disk>(
    disk: &mut D,
    alloc: Global,
    number: u32,
) -> Result<Vec<u8>, StoreFault>
    ensures told { D.tells disk.old ≡ true → IfOk result (λ it. it.items ≡ (D.files disk.old (id.Binlog number)).bytes) }
    ensures settled { D.tells disk.old ≡ true → IfOk result (λ it. D.files disk.new (id.Binlog number) ≡ settled it.items) }
    ensures same { D.tells disk.old ≡ true → (D.files disk.new (id.Binlog number)).bytes ≡ (D.files disk.old (id.Binlog number)).bytes }
    ensures crash { D.tells disk.old ≡ true → AtEachMoment D.files D.moment D.left_since (id.Binlog number) disk.old disk.new (MayLeave (D.files disk.old (id.Binlog number))) }
    ensures story { D.story disk.new ≡ D.story disk.old }
    ensures tells { D.tells disk.new ≡ D.tells disk.old }
    ensures later { D.faults disk.old ≤ D.faults disk.new }
    ensures failed { StoreFails (D.faults disk.old) (D.faults disk.new) result }
{
    let file = FileId::Binlog(number);
    disk.sync(file)?;
    let length = disk.length(file)?;
    let mut bytes = vec![in alloc; 0u8; length as usize]?;
    disk.read(file, 0, bytes.as_mut_slice())?;
    Ok(bytes)
}
