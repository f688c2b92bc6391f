ghost use Rattle.std.specs.Prelude.{◌≡◌, ◌≢◌, ◌↔◌, ◌<◌, ◌≤◌, true, Some, Err, OnOk, length};
ghost use Rattle.edge_traits.specs.Moments.{AtEachMoment};
ghost use Rattle.control_block.specs.Blocks.{Stands};
ghost use Rattle.control_block.specs.ControlFiles.{control_of, IsEither};
ghost use Rattle.control_block.specs.Faults.{ControlFails};
ghost use Rattle.control_block.specs.declared.faults.ControlFault.TheVariants as fault;

use crate::blocks::ControlBlock;
use crate::faults::ControlFault;
use crate::slots::slot_behind_gate;
use edge_traits::Disk;
use ring_types::List;

impl ControlBlock {
    /// Puts these bytes, at most 32,768, in the place of the old ones. It is the disk on which the block was
    /// mounted. After `Disk` or `Memory` mount the file again: it holds the old bytes or the new.
    pub fn switch<D: Disk>(&mut self, disk: &mut D, bytes: &[u8]) -> Result<(), ControlFault>
        requires { D.tells disk.old ≡ true → Stands self.old (D.files disk.old self.old.file) }
        ensures stands { D.tells disk.old ≡ true → OnOk result (Stands self.new (D.files disk.new self.new.file)) }
        ensures holds { D.tells disk.old ≡ true → OnOk result (control_of (D.files disk.new self.old.file).bytes ≡ Some (Some bytes.now)) }
        ensures bytes { OnOk result (self.new.bytes ≡ Some bytes.now) }
        ensures file { self.new.file ≡ self.old.file }
        ensures crash { D.tells disk.old ≡ true → AtEachMoment D.files D.moment D.left_since self.old.file disk.old disk.new (IsEither self.old.bytes bytes.now) }
        ensures too_long { (result ≡ Err fault.TooLong) ↔ (32768 < length bytes.now) }
        ensures undone { (result ≡ Err fault.TooLong) → (disk.new ≡ disk.old) × (self.new ≡ self.old) }
        ensures sound { result ≢ Err fault.Damaged }
        ensures story { D.story disk.new ≡ D.story disk.old }
        ensures tells { D.tells disk.new ≡ D.tells disk.old }
        ensures later { D.faults disk.old ≤ D.faults disk.new }
        ensures failed { ControlFails (D.faults disk.old) (D.faults disk.new) result }
    {
        if bytes.len() > 32768 {
            return Err(ControlFault::TooLong);
        }
        let held = List::from_vec(bytes.to_vec(self.alloc)?);
        let slot = slot_behind_gate(self.alloc, self.tag, bytes)?;
        self.write_slot(disk, bytes, &slot)?;
        self.turn(held);
        Ok(())
    }
}
