ghost use Rattle.std.specs.Prelude.{◌≡◌, ◌≢◌, ◌⊎◌, ◌≤◌, true, Some, None, Err, IfOk, OnOk, length};
ghost use Rattle.edge_traits.specs.DiskCalls.{Same};
ghost use Rattle.edge_traits.specs.FileStates.{MayLeave};
ghost use Rattle.edge_traits.specs.Moments.{AtEachMoment};
ghost use Rattle.control_block.specs.Blocks.{Stands, IsLaidOut, IsAsBefore};
ghost use Rattle.control_block.specs.ControlFiles.{control_of, content_of, head_of};
ghost use Rattle.control_block.specs.Faults.{ControlFails, IsOfDisk};
ghost use Rattle.control_block.specs.declared.faults.ControlFault.TheVariants as fault;

use crate::blocks::ControlBlock;
use crate::faults::ControlFault;
use crate::heads::{Head, read_head, read_part};
use crate::layouts::lay_out;
use crate::slots::{Winner, tag_after, winner_among};
use edge_traits::{Disk, FileId};
use ring_types::List;
use std::alloc::Global;

/// The bytes of the slot that begins at `at` and has this head.
fn read_content<D: Disk>(
    disk: &mut D,
    alloc: Global,
    file: FileId,
    at: u64,
    head: Head,
) -> Result<List<u8>, ControlFault>
    requires place { at ≤ 32776 }
    requires laid_out { D.tells disk.old ≡ true → IsLaidOut (D.files disk.old file) }
    requires head { D.tells disk.old ≡ true → head ≡ head_of at (D.files disk.old file).bytes }
    ensures told { D.tells disk.old ≡ true → IfOk result (λ bytes. content_of at (D.files disk.old file).bytes ≡ Some bytes) }
    ensures damaged { D.tells disk.old ≡ true → (result ≡ Err fault.Damaged) → content_of at (D.files disk.old file).bytes ≡ None }
    ensures same { D.tells disk.old ≡ true → Same (D.files disk.old) (D.files disk.new) }
    ensures crash { D.tells disk.old ≡ true → AtEachMoment D.files D.moment D.left_since file disk.old disk.new (MayLeave (D.files disk.old file)) }
    ensures past { D.past disk.new ≡ D.past disk.old }
    ensures story { D.story disk.new ≡ D.story disk.old }
    ensures tells { D.tells disk.new ≡ D.tells disk.old }
    ensures later { D.faults disk.old ≤ D.faults disk.new }
    ensures failed { ControlFails (D.faults disk.old) (D.faults disk.new) result }
    ensures short { result ≢ Err fault.TooLong }
{
    if head.size > 32768 {
        return Err(ControlFault::Damaged);
    }
    read_part(disk, alloc, file, at + 8, head.size)
}

/// The block of a file that is laid out.
fn read_block<D: Disk>(
    disk: &mut D,
    alloc: Global,
    file: FileId,
) -> Result<ControlBlock, ControlFault>
    requires { D.tells disk.old ≡ true → IsLaidOut (D.files disk.old file) }
    ensures stands { D.tells disk.old ≡ true → IfOk result (λ block. Stands block (D.files disk.old file)) }
    ensures file { IfOk result (λ block. block.file ≡ file) }
    ensures damaged { D.tells disk.old ≡ true → (result ≡ Err fault.Damaged) → control_of (D.files disk.old file).bytes ≡ None }
    ensures same { D.tells disk.old ≡ true → Same (D.files disk.old) (D.files disk.new) }
    ensures crash { D.tells disk.old ≡ true → AtEachMoment D.files D.moment D.left_since file disk.old disk.new (MayLeave (D.files disk.old file)) }
    ensures past { D.past disk.new ≡ D.past disk.old }
    ensures story { D.story disk.new ≡ D.story disk.old }
    ensures tells { D.tells disk.new ≡ D.tells disk.old }
    ensures later { D.faults disk.old ≤ D.faults disk.new }
    ensures failed { ControlFails (D.faults disk.old) (D.faults disk.new) result }
    ensures short { result ≢ Err fault.TooLong }
{
    let first = read_head(disk, file, 0)?;
    let second = read_head(disk, file, 32776)?;
    match winner_among(first.open_gate, first.tag, second.open_gate, second.tag) {
        Winner::Neither => Ok(ControlBlock {
            alloc,
            file,
            bytes: None,
            second: false,
            open_gate: false,
            tag: 0,
        }),
        Winner::First => {
            let bytes = read_content(disk, alloc, file, 0, first)?;
            Ok(ControlBlock {
                alloc,
                file,
                bytes: Some(bytes),
                second: true,
                open_gate: second.open_gate,
                tag: tag_after(first.tag),
            })
        }
        Winner::Second => {
            let bytes = read_content(disk, alloc, file, 32776, second)?;
            Ok(ControlBlock {
                alloc,
                file,
                bytes: Some(bytes),
                second: false,
                open_gate: first.open_gate,
                tag: tag_after(second.tag),
            })
        }
        Winner::Unclear => Err(ControlFault::Damaged),
    }
}

/// Syncs the file, and lays it out if it is not.
fn make_ready<D: Disk>(disk: &mut D, alloc: Global, file: FileId) -> Result<(), ControlFault>
    ensures here { D.tells disk.old ≡ true → OnOk result (IsLaidOut (D.files disk.new file) × (control_of (D.files disk.new file).bytes ≡ control_of (D.files disk.old file).bytes)) }
    ensures crash { D.tells disk.old ≡ true → AtEachMoment D.files D.moment D.left_since file disk.old disk.new (IsAsBefore (D.files disk.old file)) }
    ensures story { D.story disk.new ≡ D.story disk.old }
    ensures tells { D.tells disk.new ≡ D.tells disk.old }
    ensures later { D.faults disk.old ≤ D.faults disk.new }
    ensures failed { ControlFails (D.faults disk.old) (D.faults disk.new) result }
    ensures kinds { IsOfDisk result }
{
    disk.sync(file)?;
    if disk.length(file)? > 65552 {
        return Ok(());
    }
    lay_out(disk, alloc, file)
}

impl ControlBlock {
    /// Syncs the file, lays it out if it is not laid out, and reads it. At each moment of it a crash leaves
    /// what it might have left before, or a file that holds the same bytes. So a mount that failed may be
    /// tried again. The block keeps `alloc` for its switches.
    pub fn mount<D: Disk>(
        alloc: Global,
        disk: &mut D,
        file: FileId,
    ) -> Result<ControlBlock, ControlFault>
        ensures stands { D.tells disk.old ≡ true → IfOk result (λ block. Stands block (D.files disk.new block.file)) }
        ensures holds { D.tells disk.old ≡ true → IfOk result (λ block. control_of (D.files disk.old file).bytes ≡ Some block.bytes) }
        ensures file { IfOk result (λ block. block.file ≡ file) }
        ensures damaged { D.tells disk.old ≡ true → (result ≡ Err fault.Damaged) → control_of (D.files disk.old file).bytes ≡ None }
        ensures crash { D.tells disk.old ≡ true → AtEachMoment D.files D.moment D.left_since file disk.old disk.new (IsAsBefore (D.files disk.old file)) }
        ensures short { result ≢ Err fault.TooLong }
        ensures story { D.story disk.new ≡ D.story disk.old }
        ensures tells { D.tells disk.new ≡ D.tells disk.old }
        ensures later { D.faults disk.old ≤ D.faults disk.new }
        ensures failed { ControlFails (D.faults disk.old) (D.faults disk.new) result }
    {
        make_ready(disk, alloc, file)?;
        read_block(disk, alloc, file)
    }
}
