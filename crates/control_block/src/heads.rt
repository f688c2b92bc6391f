ghost use Rattle.std.specs.Prelude.{◌≡◌, ℕ, ◌+◌, ◌≤◌, ◌<◌, true, IfOk, length, get_or};
ghost use Rattle.edge_traits.specs.DiskCalls.{slice, Same};
ghost use Rattle.edge_traits.specs.FileStates.{MayLeave};
ghost use Rattle.edge_traits.specs.Moments.{AtEachMoment};
ghost use Rattle.control_block.specs.ControlFiles.{head_of};
ghost use Rattle.control_block.specs.Faults.{ControlFails, IsOfDisk};

use crate::faults::ControlFault;
use edge_traits::{Disk, FileId};
use ring_types::List;
use std::alloc::{AllocError, Global};

/// What stands in front of a slot's bytes.
#[derive(Clone, Copy)]
pub(crate) struct Head {
    /// Whether its gate is open.
    pub(crate) open_gate: bool,
    pub(crate) tag: u8,
    /// How many bytes the slot has.
    pub(crate) size: u32,
}

/// The head of the slot that begins at `at`.
pub(crate) fn read_head<D: Disk>(disk: &mut D, file: FileId, at: u64) -> Result<Head, ControlFault>
    requires { D.tells disk.old ≡ true → at + 8 ≤ length (D.files disk.old file).bytes }
    ensures told { D.tells disk.old ≡ true → IfOk result (λ head. head ≡ head_of at (D.files disk.old file).bytes) }
    ensures same { D.tells disk.old ≡ true → Same (D.files disk.old) (D.files disk.new) }
    ensures crash { D.tells disk.old ≡ true → AtEachMoment D.files D.moment D.left_since file disk.old disk.new (MayLeave (D.files disk.old file)) }
    ensures past { D.past disk.new ≡ D.past disk.old }
    ensures story { D.story disk.new ≡ D.story disk.old }
    ensures tells { D.tells disk.new ≡ D.tells disk.old }
    ensures later { D.faults disk.old ≤ D.faults disk.new }
    ensures failed { ControlFails (D.faults disk.old) (D.faults disk.new) result }
    ensures kinds { IsOfDisk result }
{
    let mut head = [0u8; 8];
    disk.read(file, at, &mut head)?;
    Ok(Head {
        open_gate: head[0] == 1,
        tag: head[1],
        size: u32::from_le_bytes([head[4], head[5], head[6], head[7]]),
    })
}

/// `count` zeros.
pub(crate) fn zeros(alloc: Global, count: usize) -> Result<Vec<u8>, AllocError>
    ensures count { IfOk result (λ zeros. length zeros.items ≡ count) }
    ensures zero { IfOk result (λ zeros. (i : ℕ) → get_or zeros.items i 0 ≡ 0) }
{
    vec![in alloc; 0u8; count]
}

/// `size` bytes of the file, from `at` on.
pub(crate) fn read_part<D: Disk>(
    disk: &mut D,
    alloc: Global,
    file: FileId,
    at: u64,
    size: u32,
) -> Result<List<u8>, ControlFault>
    requires { D.tells disk.old ≡ true → at + size ≤ length (D.files disk.old file).bytes }
    ensures told { D.tells disk.old ≡ true → IfOk result (λ bytes. bytes ≡ slice at size (D.files disk.old file).bytes) }
    ensures same { D.tells disk.old ≡ true → Same (D.files disk.old) (D.files disk.new) }
    ensures crash { D.tells disk.old ≡ true → AtEachMoment D.files D.moment D.left_since file disk.old disk.new (MayLeave (D.files disk.old file)) }
    ensures past { D.past disk.new ≡ D.past disk.old }
    ensures story { D.story disk.new ≡ D.story disk.old }
    ensures tells { D.tells disk.new ≡ D.tells disk.old }
    ensures later { D.faults disk.old ≤ D.faults disk.new }
    ensures failed { ControlFails (D.faults disk.old) (D.faults disk.new) result }
    ensures kinds { IsOfDisk result }
{
    let mut bytes = zeros(alloc, size as usize)?;
    disk.read(file, at, bytes.as_mut_slice())?;
    Ok(List::from_vec(bytes))
}
