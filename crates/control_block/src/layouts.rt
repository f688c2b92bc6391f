ghost use Rattle.std.specs.Prelude.{◌≡◌, ℕ, ◌≤◌, true, Some, None, OnOk, length, get_or};
ghost use Rattle.edge_traits.specs.DiskCalls.{DiskFails};
ghost use Rattle.edge_traits.specs.FileStates.{settled};
ghost use Rattle.edge_traits.specs.Moments.{AtEachMoment};
ghost use Rattle.control_block.specs.Blocks.{IsNew, IsBlank, IsLaidOut};
ghost use Rattle.control_block.specs.ControlFiles.{control_of};
ghost use Rattle.control_block.specs.Faults.{ControlFails, IsOfDisk};

use crate::faults::ControlFault;
use crate::heads::zeros;
use edge_traits::{Disk, DiskFault, FileId, put};
use std::alloc::Global;

/// Writes two closed slots, which no byte says are there.
fn blank_slots<D: Disk>(disk: &mut D, file: FileId, slots: &[u8]) -> Result<(), DiskFault>
    requires new { D.tells disk.old ≡ true → IsNew (D.files disk.old file) }
    requires count { length slots.now ≡ 65552 }
    requires zero { (i : ℕ) → get_or slots.now i 0 ≡ 0 }
    ensures here { D.tells disk.old ≡ true → OnOk result ((D.files disk.new file ≡ settled (D.files disk.new file).bytes) × IsBlank (D.files disk.new file).bytes) }
    ensures crash { D.tells disk.old ≡ true → AtEachMoment D.files D.moment D.left_since file disk.old disk.new (λ left. control_of left ≡ Some None) }
    ensures story { D.story disk.new ≡ D.story disk.old }
    ensures tells { D.tells disk.new ≡ D.tells disk.old }
    ensures later { D.faults disk.old ≤ D.faults disk.new }
    ensures failed { DiskFails (D.faults disk.old) (D.faults disk.new) result }
{
    put(disk, file, 0, slots)
}

/// Adds the byte that says that the slots are there.
fn add_last_byte<D: Disk>(disk: &mut D, file: FileId) -> Result<(), DiskFault>
    requires synced { D.tells disk.old ≡ true → D.files disk.old file ≡ settled (D.files disk.old file).bytes }
    requires blank { D.tells disk.old ≡ true → IsBlank (D.files disk.old file).bytes }
    ensures here { D.tells disk.old ≡ true → OnOk result (IsLaidOut (D.files disk.new file) × (control_of (D.files disk.new file).bytes ≡ Some None)) }
    ensures crash { D.tells disk.old ≡ true → AtEachMoment D.files D.moment D.left_since file disk.old disk.new (λ left. control_of left ≡ Some None) }
    ensures story { D.story disk.new ≡ D.story disk.old }
    ensures tells { D.tells disk.new ≡ D.tells disk.old }
    ensures later { D.faults disk.old ≤ D.faults disk.new }
    ensures failed { DiskFails (D.faults disk.old) (D.faults disk.new) result }
{
    put(disk, file, 65552, &[0])
}

/// Lays out a file: two closed slots, and then the byte that says that they are there.
pub(crate) fn lay_out<D: Disk>(
    disk: &mut D,
    alloc: Global,
    file: FileId,
) -> Result<(), ControlFault>
    requires { D.tells disk.old ≡ true → IsNew (D.files disk.old file) }
    ensures here { D.tells disk.old ≡ true → OnOk result (IsLaidOut (D.files disk.new file) × (control_of (D.files disk.new file).bytes ≡ Some None)) }
    ensures crash { D.tells disk.old ≡ true → AtEachMoment D.files D.moment D.left_since file disk.old disk.new (λ left. control_of left ≡ Some None) }
    ensures story { D.story disk.new ≡ D.story disk.old }
    ensures tells { D.tells disk.new ≡ D.tells disk.old }
    ensures later { D.faults disk.old ≤ D.faults disk.new }
    ensures failed { ControlFails (D.faults disk.old) (D.faults disk.new) result }
    ensures kinds { IsOfDisk result }
{
    let slots = zeros(alloc, 65552)?;
    blank_slots(disk, file, &slots)?;
    add_last_byte(disk, file)?;
    Ok(())
}
