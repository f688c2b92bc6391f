ghost use Rattle.std.specs.Prelude.{◌≡◌, ◌≤◌, true, OnOk, length};
ghost use Rattle.edge_traits.specs.DiskCalls.{DiskFails};
ghost use Rattle.edge_traits.specs.FileStates.{settled, MayLeave, written, wrote};
ghost use Rattle.edge_traits.specs.Moments.{AtEachMoment};

use crate::disks::{Disk, DiskFault, FileId};

/// Writes the bytes from `at` on and syncs the file. Until it is done a crash may leave the write torn; after
/// a fault it may be torn for good.
pub fn put<D: Disk>(disk: &mut D, file: FileId, at: u64, bytes: &[u8]) -> Result<(), DiskFault>
    ensures here { D.tells disk.old ≡ true → OnOk result (D.files disk.new file ≡ settled (written at bytes.now (D.files disk.old file).bytes)) }
    ensures crash { D.tells disk.old ≡ true → AtEachMoment D.files D.moment D.left_since file disk.old disk.new (MayLeave (wrote at bytes.now (D.files disk.old file))) }
    ensures story { D.story disk.new ≡ D.story disk.old }
    ensures tells { D.tells disk.new ≡ D.tells disk.old }
    ensures later { D.faults disk.old ≤ D.faults disk.new }
    ensures failed { DiskFails (D.faults disk.old) (D.faults disk.new) result }
{
    disk.write(file, at, bytes)?;
    disk.sync(file)
}
