ghost use Rattle.std.specs.Prelude.{◌≡◌, ◌≤◌, true, Some, OnOk, length};
ghost use Rattle.edge_traits.specs.DiskCalls.{DiskFails};
ghost use Rattle.edge_traits.specs.Moments.{AtEachMoment};
ghost use Rattle.control_block.specs.Blocks.{place_of, Stands, IsShut, IsFilled, IsOpen};
ghost use Rattle.control_block.specs.ControlFiles.{control_of, behind_gate, IsEither};

use crate::blocks::ControlBlock;
use edge_traits::{Disk, DiskFault, put};

impl ControlBlock {
    /// Closes the gate of the slot that is to be written. A gate that is closed already is not written: a crash
    /// could leave it open over bytes that are not finished.
    fn shut_gate<D: Disk>(&self, disk: &mut D) -> Result<(), DiskFault>
        requires { D.tells disk.old ≡ true → Stands self.now (D.files disk.old self.now.file) }
        ensures here { D.tells disk.old ≡ true → OnOk result (IsShut (place_of self.now.second) self.now.tag self.now.bytes (D.files disk.new self.now.file)) }
        ensures crash { D.tells disk.old ≡ true → AtEachMoment D.files D.moment D.left_since self.now.file disk.old disk.new (λ left. control_of left ≡ Some self.now.bytes) }
        ensures story { D.story disk.new ≡ D.story disk.old }
        ensures tells { D.tells disk.new ≡ D.tells disk.old }
        ensures later { D.faults disk.old ≤ D.faults disk.new }
        ensures failed { DiskFails (D.faults disk.old) (D.faults disk.new) result }
    {
        if self.open_gate {
            return put(disk, self.file, self.place(), &[0]);
        }
        Ok(())
    }

    /// Writes the slot behind its closed gate.
    fn fill_slot<D: Disk>(&self, disk: &mut D, bytes: &[u8], slot: &[u8]) -> Result<(), DiskFault>
        requires shut { D.tells disk.old ≡ true → IsShut (place_of self.now.second) self.now.tag self.now.bytes (D.files disk.old self.now.file) }
        requires small { length bytes.now ≤ 32768 }
        requires slot { slot.now ≡ behind_gate self.now.tag bytes.now }
        ensures here { D.tells disk.old ≡ true → OnOk result (IsFilled (place_of self.now.second) self.now.tag self.now.bytes bytes.now (D.files disk.new self.now.file)) }
        ensures crash { D.tells disk.old ≡ true → AtEachMoment D.files D.moment D.left_since self.now.file disk.old disk.new (λ left. control_of left ≡ Some self.now.bytes) }
        ensures story { D.story disk.new ≡ D.story disk.old }
        ensures tells { D.tells disk.new ≡ D.tells disk.old }
        ensures later { D.faults disk.old ≤ D.faults disk.new }
        ensures failed { DiskFails (D.faults disk.old) (D.faults disk.new) result }
    {
        put(disk, self.file, self.place() + 1, slot)
    }

    /// Opens the gate of the slot that is filled, which then wins.
    fn open_slot<D: Disk>(&self, disk: &mut D, bytes: &[u8]) -> Result<(), DiskFault>
        requires filled { D.tells disk.old ≡ true → IsFilled (place_of self.now.second) self.now.tag self.now.bytes bytes.now (D.files disk.old self.now.file) }
        ensures here { D.tells disk.old ≡ true → OnOk result (IsOpen (place_of self.now.second) self.now.tag self.now.bytes bytes.now (D.files disk.new self.now.file)) }
        ensures crash { D.tells disk.old ≡ true → AtEachMoment D.files D.moment D.left_since self.now.file disk.old disk.new (IsEither self.now.bytes bytes.now) }
        ensures story { D.story disk.new ≡ D.story disk.old }
        ensures tells { D.tells disk.new ≡ D.tells disk.old }
        ensures later { D.faults disk.old ≤ D.faults disk.new }
        ensures failed { DiskFails (D.faults disk.old) (D.faults disk.new) result }
    {
        put(disk, self.file, self.place(), &[1])
    }

    /// Makes the slot that does not win the one that does, with these bytes.
    pub(crate) fn write_slot<D: Disk>(
        &self,
        disk: &mut D,
        bytes: &[u8],
        slot: &[u8],
    ) -> Result<(), DiskFault>
        requires stands { D.tells disk.old ≡ true → Stands self.now (D.files disk.old self.now.file) }
        requires small { length bytes.now ≤ 32768 }
        requires slot { slot.now ≡ behind_gate self.now.tag bytes.now }
        ensures here { D.tells disk.old ≡ true → OnOk result (IsOpen (place_of self.now.second) self.now.tag self.now.bytes bytes.now (D.files disk.new self.now.file)) }
        ensures crash { D.tells disk.old ≡ true → AtEachMoment D.files D.moment D.left_since self.now.file disk.old disk.new (IsEither self.now.bytes bytes.now) }
        ensures story { D.story disk.new ≡ D.story disk.old }
        ensures tells { D.tells disk.new ≡ D.tells disk.old }
        ensures later { D.faults disk.old ≤ D.faults disk.new }
        ensures failed { DiskFails (D.faults disk.old) (D.faults disk.new) result }
    {
        self.shut_gate(disk)?;
        self.fill_slot(disk, bytes, slot)?;
        self.open_slot(disk, bytes)
    }
}
