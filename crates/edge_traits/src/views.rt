ghost use Rattle.std.specs.Prelude.{◌≡◌, ℕ, ◌<◌, ◌≤◌, Some, IfOk, IfSome};
ghost use Rattle.edge_traits.specs.DiskCalls.{DiskFails};
ghost use Rattle.edge_traits.specs.Views.{Sight, IsEntryOf, Keeps};
ghost use Rattle.ring_types.specs.Logs as logs;

use crate::disks::DiskFault;
use ring_types::{Entry, Opid, RegionId};

/// A node's log, read by position, counted from 1. Each call leaves what the view tells, and what lies
/// behind it, as it was.
pub trait LogView {
    // what the view tells of its log
    ghost sees: { Self → Sight };

    // what lies behind the view, as the disk that it reads and the reference to it: no call changes it
    ghost Behind: { Type 0 };

    ghost behind: { Self → Behind };

    // whether what is behind the view stands for that log
    ghost stands: { Self → Type 0 };

    // how many faults there were: it never falls, and stays once it is at its last value
    ghost faults: { Self → ℕ };

    /// The opid of the last entry, 0:0 if there is none.
    fn last(&mut self) -> Result<Opid, DiskFault>
        requires { stands self.old }
        ensures told { IfSome (sees self.old).log (λ log. IfOk result (λ it. it ≡ logs.last log)) }
        ensures position { IfOk result (λ it. it.position ≡ (sees self.old).length) }
        ensures keeps { Keeps sees behind stands faults self.old self.new }
        ensures failed { DiskFails (faults self.old) (faults self.new) result };

    /// The term of the entry at the position; 0 at position 0.
    fn term_at(&mut self, position: u64) -> Result<u64, DiskFault>
        requires stands { stands self.old }
        requires within { position ≤ (sees self.old).length }
        ensures told { IfSome (sees self.old).log (λ log. IfOk result (λ it. it ≡ logs.term_at log position)) }
        ensures keeps { Keeps sees behind stands faults self.old self.new }
        ensures failed { DiskFails (faults self.old) (faults self.new) result };

    /// The region of the entry at the position; the home region at position 0.
    fn region_at(&mut self, position: u64) -> Result<RegionId, DiskFault>
        requires stands { stands self.old }
        requires within { position ≤ (sees self.old).length }
        ensures told { IfSome (sees self.old).log (λ log. IfOk result (λ it. it ≡ logs.region_at (sees self.old).home log position)) }
        ensures keeps { Keeps sees behind stands faults self.old self.new }
        ensures failed { DiskFails (faults self.old) (faults self.new) result };

    /// The entry at the position, copied.
    fn entry(&mut self, position: u64) -> Result<Entry, DiskFault>
        requires stands { stands self.old }
        requires above { 0 < position }
        requires within { position ≤ (sees self.old).length }
        ensures told { IfSome (sees self.old).log (λ log. IfOk result (λ it. logs.entry_at log position ≡ Some it)) }
        ensures fits { IfOk result (IsEntryOf (sees self.old).schema position) }
        ensures keeps { Keeps sees behind stands faults self.old self.new }
        ensures failed { DiskFails (faults self.old) (faults self.new) result };
}
