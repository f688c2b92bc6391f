//! Mounting a log: the control file says where it ends, and up to there its files are read.
ghost use Rattle.std.specs.Prelude.{◌≡◌, ◌≤◌, ◌<◌, ◌+◌, [], ℕ, None, Some, true, IfOk, OnOk, length};
ghost use Rattle.ring_types.specs.Logs.{rotates};
ghost use Rattle.ring_types.specs.Rings.{is_schema};
ghost use Rattle.ring_types.specs.declared.schemas.Schema.{Schema};
ghost use Rattle.edge_traits.specs.DiskCalls.{Elsewhere};
ghost use Rattle.edge_traits.specs.FileStates.{Contents, settled};
ghost use Rattle.edge_traits.specs.Works.{HoldsOn};
ghost use Rattle.edge_traits.specs.declared.disks.FileId.{FileId};
ghost use Rattle.edge_traits.specs.declared.disks.FileId.TheVariants as id;
ghost use Rattle.control_block.specs.Blocks.{Stands};
ghost use Rattle.control_block.specs.ControlFiles.{control_of};
ghost use Rattle.entry_group.specs.Files.{files, head_after};
ghost use Rattle.binlog_store.specs.Damages.{FilesFault, LogFault, before_end, ending_of};
ghost use Rattle.binlog_store.specs.Faults.{IfDamaged, MountFails, StoreFails};
ghost use Rattle.binlog_store.specs.Following.{ComesTo, IsAll, IsBegun};
ghost use Rattle.binlog_store.specs.Groups.{log_files};
ghost use Rattle.binlog_store.specs.Held.{EndsThere, IsHeldLog, IsLastFile, IsNextFile};
ghost use Rattle.binlog_store.specs.Mounted.{IsMounted, IsStore, log_of};
ghost use Rattle.binlog_store.specs.Mounting.{AreRead, HaveTheirBytes, IsSeen, Keeps, Names, PointTold, seen_of};
ghost use Rattle.binlog_store.specs.Stands.{IsWritten, LogStands, ReadsFiles};

use crate::endings::{before_end, ending_of};
use crate::faults::StoreFault;
use crate::files::{cut_behind, read_file, write_file};
use crate::held::HeldLog;
use crate::log_sets::head_of;
use crate::points::{LogPoint, named_point};
use crate::stores::BinlogStore;
use control_block::{ControlBlock, ControlFault};
use edge_traits::{Disk, FileId};
use ring_types::Schema;
use std::alloc::Global;

/// Mounts the control file.
fn mount_control<D: Disk>(alloc: Global, disk: &mut D) -> Result<ControlBlock, StoreFault>
    ensures stands { D.tells disk.old ≡ true → IfOk result (λ it. Stands it (D.files disk.new id.LogCtl)) }
    ensures holds { D.tells disk.old ≡ true → IfOk result (λ it. control_of (D.files disk.old id.LogCtl).bytes ≡ Some it.bytes) }
    ensures file { IfOk result (λ it. it.file ≡ id.LogCtl) }
    ensures damaged { D.tells disk.old ≡ true → IfDamaged (λ f at. (f ≡ id.LogCtl) × (at ≡ 0) × (control_of (D.files disk.old id.LogCtl).bytes ≡ None)) result }
    ensures elsewhere { D.tells disk.old ≡ true → Elsewhere id.LogCtl (D.files disk.old) (D.files disk.new) }
    ensures keeps { D.tells disk.old ≡ true → Keeps D.files D.moment D.left_since disk.old disk.new }
    ensures story { D.story disk.new ≡ D.story disk.old }
    ensures tells { D.tells disk.new ≡ D.tells disk.old }
    ensures later { D.faults disk.old ≤ D.faults disk.new }
    ensures failed { MountFails (D.faults disk.old) (D.faults disk.new) result }
{
    match ControlBlock::mount(alloc, disk, FileId::LogCtl) {
        Ok(control) => Ok(control),
        Err(ControlFault::Damaged) => Err(StoreFault::Damaged {
            file: FileId::LogCtl,
            at: 0,
        }),
        Err(ControlFault::Disk) => Err(StoreFault::Disk),
        Err(ControlFault::Memory) => Err(StoreFault::Memory),
        Err(ControlFault::TooLong) => unreachable!(),
    }
}

/// The point that the control file names, if it has bytes.
fn told_point(control: &ControlBlock) -> Result<Option<LogPoint>, StoreFault>
    ensures { PointTold control.now.bytes result }
{
    let Some(bytes) = control.get() else {
        return Ok(None);
    };
    match named_point(bytes.as_slice()) {
        Some(point) => Ok(Some(point)),
        None => Err(StoreFault::Damaged {
            file: FileId::LogCtl,
            at: 0,
        }),
    }
}

/// Reads the next file of a log that ends at the point.
fn read_next_file<D: Disk>(
    held: &mut HeldLog,
    alloc: Global,
    schema: &Schema,
    disk: &mut D,
    point: LogPoint,
) -> Result<(), StoreFault>
    requires schema { is_schema schema.now ≡ true }
    requires held { IsHeldLog schema.now held.old }
    requires written { IsWritten schema.now held.old.entries }
    requires begun { held.old.end.place.at ≡ length (head_after held.old.entries) }
    requires within { held.old.end.place.file ≤ point.file }
    ensures held { OnOk result (IsHeldLog schema.now held.new) }
    ensures written { OnOk result (IsWritten schema.now held.new.entries) }
    ensures next { OnOk result (held.old.end.place.file < point.file → IsNextFile held.old.end.place held.new) }
    ensures last { OnOk result (held.old.end.place.file ≡ point.file → IsLastFile held.old.end.place point.end point.count held.new) }
    ensures told { D.tells disk.old ≡ true → (c : Contents) (n : ℕ) → c (id.Binlog (n + 1)) ≡ (D.files disk.old (id.Binlog (n + 1))).bytes → held.old.end.place.file ≡ n + 1 → IsBegun schema.now (before_end point c) n held.old.entries → OnOk result (ComesTo schema.now point c (n + 1) held.new.entries (ending_of point c (n + 1))) }
    ensures damaged { D.tells disk.old ≡ true → (c : Contents) (n : ℕ) → c (id.Binlog (n + 1)) ≡ (D.files disk.old (id.Binlog (n + 1))).bytes → held.old.end.place.file ≡ n + 1 → IsBegun schema.now (before_end point c) n held.old.entries → IfDamaged (FilesFault schema.now point c) result }
    ensures read { D.tells disk.old ≡ true → OnOk result (D.files disk.new (id.Binlog held.old.end.place.file) ≡ settled (D.files disk.old (id.Binlog held.old.end.place.file)).bytes) }
    ensures same { D.tells disk.old ≡ true → (D.files disk.new (id.Binlog held.old.end.place.file)).bytes ≡ (D.files disk.old (id.Binlog held.old.end.place.file)).bytes }
    ensures elsewhere { D.tells disk.old ≡ true → Elsewhere (id.Binlog held.old.end.place.file) (D.files disk.old) (D.files disk.new) }
    ensures keeps { D.tells disk.old ≡ true → Keeps D.files D.moment D.left_since disk.old disk.new }
    ensures story { D.story disk.new ≡ D.story disk.old }
    ensures tells { D.tells disk.new ≡ D.tells disk.old }
    ensures later { D.faults disk.old ≤ D.faults disk.new }
    ensures failed { MountFails (D.faults disk.old) (D.faults disk.new) result }
{
    let number = held.end.place.file;
    let bytes = read_file(disk, alloc, number)?;
    let ending = ending_of(point, number, bytes.len() as u64);
    let shown = before_end(point, number, bytes.as_slice());
    held.read_shown(alloc, schema, shown, ending, point.count)
}

/// Reads a log that ends at the point.
fn read_log<D: Disk>(
    alloc: Global,
    schema: &Schema,
    disk: &mut D,
    point: LogPoint,
) -> Result<HeldLog, StoreFault>
    requires schema { is_schema schema.now ≡ true }
    requires file { 1 ≤ point.file }
    ensures held { IfOk result (λ it. IsHeldLog schema.now it) }
    ensures written { IfOk result (λ it. IsWritten schema.now it.entries) }
    ensures ends { IfOk result (λ it. EndsThere point it) }
    ensures all { D.tells disk.old ≡ true → (c : Contents) → IsSeen c (D.files disk.old) → IfOk result (λ it. IsAll schema.now point c it.entries) }
    ensures damaged { D.tells disk.old ≡ true → (c : Contents) → IsSeen c (D.files disk.old) → IfDamaged (FilesFault schema.now point c) result }
    ensures read { D.tells disk.old ≡ true → OnOk result (AreRead (point.file + 1) (D.files disk.old) (D.files disk.new)) }
    ensures same { D.tells disk.old ≡ true → HaveTheirBytes (D.files disk.old) (D.files disk.new) }
    ensures control { D.tells disk.old ≡ true → D.files disk.new id.LogCtl ≡ D.files disk.old id.LogCtl }
    ensures keeps { D.tells disk.old ≡ true → Keeps D.files D.moment D.left_since disk.old disk.new }
    ensures story { D.story disk.new ≡ D.story disk.old }
    ensures tells { D.tells disk.new ≡ D.tells disk.old }
    ensures later { D.faults disk.old ≤ D.faults disk.new }
    ensures failed { MountFails (D.faults disk.old) (D.faults disk.new) result }
{
    let mut held = HeldLog::new(alloc)?;
    while held.end.place.file < point.file {
        read_next_file(&mut held, alloc, schema, disk, point)?;
    }
    read_next_file(&mut held, alloc, schema, disk, point)?;
    Ok(held)
}

/// Mounts the empty log: writes the head of its first file.
fn mount_empty<D: Disk>(
    alloc: Global,
    disk: &mut D,
    control: ControlBlock,
) -> Result<BinlogStore, StoreFault>
    requires empty { control.bytes ≡ None }
    requires file { control.file ≡ id.LogCtl }
    requires stands { D.tells disk.old ≡ true → Stands control (D.files disk.old id.LogCtl) }
    ensures log { IfOk result (λ it. log_of it ≡ []) }
    ensures store { IfOk result (λ it. (schema : Schema) → IsStore schema it) }
    ensures control { IfOk result (λ it. it.control ≡ control) }
    ensures highest { IfOk result (λ it. it.highest ≡ 1) }
    ensures mounted { D.tells disk.old ≡ true → IfOk result (λ it. (schema : Schema) → IsMounted schema it (D.files disk.new)) }
    ensures keeps { D.tells disk.old ≡ true → Keeps D.files D.moment D.left_since disk.old disk.new }
    ensures story { D.story disk.new ≡ D.story disk.old }
    ensures tells { D.tells disk.new ≡ D.tells disk.old }
    ensures later { D.faults disk.old ≤ D.faults disk.new }
    ensures failed { StoreFails (D.faults disk.old) (D.faults disk.new) result }
{
    let held = HeldLog::new(alloc)?;
    let head = head_of(alloc, &held.end.gtids)?;
    write_file(disk, 1, head.as_slice())?;
    Ok(BinlogStore {
        alloc,
        held,
        highest: 1,
        control,
    })
}

/// Mounts a log that ends at the point: reads it, and cuts off what stands behind it.
fn mount_log<D: Disk>(
    alloc: Global,
    schema: &Schema,
    disk: &mut D,
    control: ControlBlock,
    point: LogPoint,
) -> Result<BinlogStore, StoreFault>
    requires schema { is_schema schema.now ≡ true }
    requires named { Names control.bytes point }
    requires file { control.file ≡ id.LogCtl }
    requires stands { D.tells disk.old ≡ true → Stands control (D.files disk.old id.LogCtl) }
    ensures store { IfOk result (λ it. IsStore schema.now it) }
    ensures control { IfOk result (λ it. it.control ≡ control) }
    ensures all { D.tells disk.old ≡ true → (c : Contents) → IsSeen c (D.files disk.old) → IfOk result (λ it. ReadsFiles c 1 (files schema.now (log_of it))) }
    ensures mounted { D.tells disk.old ≡ true → IfOk result (λ it. IsMounted schema.now it (D.files disk.new)) }
    ensures above { D.tells disk.old ≡ true → IfOk result (λ it. (n : ℕ) → rotates (log_of it) + 1 < n → n ≤ it.highest → (D.files disk.new (id.Binlog n)).bytes ≡ []) }
    ensures damaged { D.tells disk.old ≡ true → (c : Contents) → IsSeen c (D.files disk.old) → IfDamaged (FilesFault schema.now point c) result }
    ensures same { D.tells disk.old ≡ true → (c : Contents) → IsSeen c (D.files disk.old) → (f : FileId) (at : ℕ) → FilesFault schema.now point c f at → HaveTheirBytes (D.files disk.old) (D.files disk.new) }
    ensures keeps { D.tells disk.old ≡ true → Keeps D.files D.moment D.left_since disk.old disk.new }
    ensures story { D.story disk.new ≡ D.story disk.old }
    ensures tells { D.tells disk.new ≡ D.tells disk.old }
    ensures later { D.faults disk.old ≤ D.faults disk.new }
    ensures failed { MountFails (D.faults disk.old) (D.faults disk.new) result }
{
    let held = read_log(alloc, schema, disk, point)?;
    cut_behind(disk, point.file, point.end, point.highest)?;
    Ok(BinlogStore {
        alloc,
        held,
        highest: point.highest,
        control,
    })
}

impl BinlogStore {
    /// Mounts the log of a disk: reads the control file, and up to the end that it names the binary log
    /// files. What stands behind that end is cut off, as a truncation that was stopped would have done; of an
    /// empty log the first file is written.
    pub fn mount<D: Disk>(
        alloc: Global,
        schema: &Schema,
        disk: &mut D,
    ) -> Result<BinlogStore, StoreFault>
        requires { is_schema schema.now ≡ true }
        ensures store { IfOk result (λ it. IsStore schema.now it) }
        ensures log { D.tells disk.old ≡ true → IfOk result (λ it. LogStands schema.now (log_of it) (seen_of (D.files disk.old))) }
        ensures control { D.tells disk.old ≡ true → IfOk result (λ it. control_of (D.files disk.old id.LogCtl).bytes ≡ Some it.control.bytes) }
        ensures mounted { D.tells disk.old ≡ true → IfOk result (λ it. IsMounted schema.now it (D.files disk.new)) }
        ensures holds { D.tells disk.old ≡ true → IfOk result (λ it. HoldsOn log_files D.files D.moment D.left_since disk.new (LogStands schema.now (log_of it))) }
        ensures above { D.tells disk.old ≡ true → IfOk result (λ it. (n : ℕ) → rotates (log_of it) + 1 < n → n ≤ it.highest → (D.files disk.new (id.Binlog n)).bytes ≡ []) }
        ensures crash { D.tells disk.old ≡ true → Keeps D.files D.moment D.left_since disk.old disk.new }
        ensures damaged { D.tells disk.old ≡ true → IfDamaged (LogFault schema.now (seen_of (D.files disk.old))) result }
        ensures kept { D.tells disk.old ≡ true → (f : FileId) (at : ℕ) → LogFault schema.now (seen_of (D.files disk.old)) f at → HaveTheirBytes (D.files disk.old) (D.files disk.new) }
        ensures story { D.story disk.new ≡ D.story disk.old }
        ensures tells { D.tells disk.new ≡ D.tells disk.old }
        ensures later { D.faults disk.old ≤ D.faults disk.new }
        ensures failed { MountFails (D.faults disk.old) (D.faults disk.new) result }
    {
        let control = mount_control(alloc, disk)?;
        match told_point(&control)? {
            None => mount_empty(alloc, disk, control),
            Some(point) => mount_log(alloc, schema, disk, control, point),
        }
    }
}
