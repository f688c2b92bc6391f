ghost use Rattle.std.specs.Prelude.{◌≡◌, ℕ, ◌+◌, ◌-◌, ◌^◌, ◌<◌, ◌≤◌, Bool, true, false, Err, IfOk, OnOk, length};
ghost use Rattle.edge_traits.specs.Counts.{Rose};
ghost use Rattle.edge_traits.specs.DiskCalls.{slice, Same, Elsewhere, WriteIs, CutIs, SyncIs, DiskFails};
ghost use Rattle.edge_traits.specs.FileStates.{Contents, Files, Leaves, MayLeave, Within, wrote, shortened};
ghost use Rattle.edge_traits.specs.Moments.{LeavesOnly, Remembers, IsUnmoved};
ghost use Rattle.edge_traits.specs.Stories.{Story};
ghost use Rattle.edge_traits.specs.declared.disks.FileId.{FileId};

/// The files of a node on its disk.
#[derive(Clone, Copy, Debug, PartialEq, Eq)]
pub enum FileId {
    /// The term and the votes.
    VoteCtl,
    /// The length of the log, and where it ends.
    LogCtl,
    /// The redo file that is written, and where it ends.
    EngineCtl,
    /// A redo file, by its number.
    Redo(u32),
    /// A binary log file, by its number.
    Binlog(u32),
}

/// Why a call on a disk was not done, or done in part.
#[derive(Clone, Copy, Debug, PartialEq, Eq)]
pub enum DiskFault {
    /// The disk failed. A write or a cut may be done in part.
    Failed,
    /// There was no memory, or a write would make the file longer than 2^63 - 1 bytes. Nothing was done.
    Memory,
}

/// The files of one node on a disk. A crash may come at any moment, within a call too; what it may leave
/// is told of each moment.
pub trait Disk {
    // whether it tells its content: if not, `files`, `moment` and `left_since` say nothing
    ghost tells: { Self → Bool };

    // of each file what a read gives, and what a crash now may leave
    ghost files: { Self → Files };

    // a number that never falls, to name a moment by
    ghost moment: { Self → ℕ };

    // what a crash at some moment from that one on might have left
    ghost left_since: { Self → ℕ → Contents → Type 0 };

    // what a read leaves as it is, in a type of the disk's own: the law `of_past` ties the three above to it
    ghost Past: { Type 0 };

    ghost past: { Self → Past };

    // the record of its turns, which no call changes
    ghost story: { Self → Story };

    // how many faults there were: it never falls, and stays once it is at its last value
    ghost faults: { Self → ℕ };

    /// The length of the file in bytes: 0 if it was never written. Nothing changes.
    fn length(&mut self, file: FileId) -> Result<u64, DiskFault>
        ensures told { tells self.old ≡ true → IfOk result (λ n. n ≡ length (files self.old file).bytes) }
        ensures limit { IfOk result (λ n. n < 2 ^ 63) }
        ensures same { tells self.old ≡ true → Same (files self.old) (files self.new) }
        ensures time { tells self.old ≡ true → LeavesOnly moment left_since self.old self.new (Leaves (files self.new)) }
        ensures remembers { tells self.old ≡ true → Remembers moment left_since self.old self.new }
        ensures past { past self.new ≡ past self.old }
        ensures tells { tells self.new ≡ tells self.old }
        ensures story { story self.new ≡ story self.old }
        ensures later { faults self.old ≤ faults self.new }
        ensures failed { DiskFails (faults self.old) (faults self.new) result };

    /// Fills `into` with the bytes from `at` on, counted from 0, which must lie within the file. Nothing
    /// changes but `into`, of which nothing is said after a fault.
    fn read(&mut self, file: FileId, at: u64, into: &mut [u8]) -> Result<(), DiskFault>
        requires { tells self.old ≡ true → at + length into.old ≤ length (files self.old file).bytes }
        ensures told { tells self.old ≡ true → OnOk result (into.new ≡ slice at (length into.old) (files self.old file).bytes) }
        ensures room { length into.new ≡ length into.old }
        ensures same { tells self.old ≡ true → Same (files self.old) (files self.new) }
        ensures time { tells self.old ≡ true → LeavesOnly moment left_since self.old self.new (Leaves (files self.new)) }
        ensures remembers { tells self.old ≡ true → Remembers moment left_since self.old self.new }
        ensures past { past self.new ≡ past self.old }
        ensures tells { tells self.new ≡ tells self.old }
        ensures story { story self.new ≡ story self.old }
        ensures later { faults self.old ≤ faults self.new }
        ensures failed { DiskFails (faults self.old) (faults self.new) result };

    /// Writes the bytes from `at` on; if that is past the end, zeros come between. Until the next sync a
    /// crash may leave any bytes there, and past the old end.
    fn write(&mut self, file: FileId, at: u64, bytes: &[u8]) -> Result<(), DiskFault>
        ensures here { tells self.old ≡ true → WriteIs at bytes.now (files self.old file) (files self.new file) result }
        ensures crash { tells self.old ≡ true → Within (files self.new file) (wrote at bytes.now (files self.old file)) }
        ensures elsewhere { tells self.old ≡ true → Elsewhere file (files self.old) (files self.new) }
        ensures time { tells self.old ≡ true → LeavesOnly moment left_since self.old self.new (Leaves (files self.new)) }
        ensures remembers { tells self.old ≡ true → Remembers moment left_since self.old self.new }
        ensures too_long { 2 ^ 63 ≤ at + length bytes.now → (result ≡ Err DiskFault.Memory) × (faults self.new ≡ faults self.old) }
        ensures tells { tells self.new ≡ tells self.old }
        ensures story { story self.new ≡ story self.old }
        ensures later { faults self.old ≤ faults self.new }
        ensures failed { DiskFails (faults self.old) (faults self.new) result };

    /// Cuts the file off after `length` bytes; a file that is no longer stays. Until the next sync a crash
    /// may leave the old length, or any between.
    fn cut(&mut self, file: FileId, length: u64) -> Result<(), DiskFault>
        ensures here { tells self.old ≡ true → CutIs length (files self.old file) (files self.new file) result }
        ensures crash { tells self.old ≡ true → Within (files self.new file) (shortened length (files self.old file)) }
        ensures elsewhere { tells self.old ≡ true → Elsewhere file (files self.old) (files self.new) }
        ensures time { tells self.old ≡ true → LeavesOnly moment left_since self.old self.new (Leaves (files self.new)) }
        ensures remembers { tells self.old ≡ true → Remembers moment left_since self.old self.new }
        ensures tells { tells self.new ≡ tells self.old }
        ensures story { story self.new ≡ story self.old }
        ensures later { faults self.old ≤ faults self.new }
        ensures failed { DiskFails (faults self.old) (faults self.new) result };

    /// Makes what was done to this file stand: from then on a crash leaves of it what a read gives.
    fn sync(&mut self, file: FileId) -> Result<(), DiskFault>
        ensures here { tells self.old ≡ true → SyncIs (files self.old file) (files self.new file) result }
        ensures crash { tells self.old ≡ true → Within (files self.new file) (files self.old file) }
        ensures elsewhere { tells self.old ≡ true → Elsewhere file (files self.old) (files self.new) }
        ensures time { tells self.old ≡ true → LeavesOnly moment left_since self.old self.new (Leaves (files self.new)) }
        ensures remembers { tells self.old ≡ true → Remembers moment left_since self.old self.new }
        ensures tells { tells self.new ≡ tells self.old }
        ensures story { story self.new ≡ story self.old }
        ensures later { faults self.old ≤ faults self.new }
        ensures failed { DiskFails (faults self.old) (faults self.new) result };

    /// Reports that a read contradicts what was written, which no disk that tells its content does. It
    /// counts as a fault.
    fn changed(&mut self)
        requires { tells self.old ≡ false }
        ensures rose { Rose (faults self.old) (faults self.new) }
        ensures tells { tells self.new ≡ tells self.old }
        ensures story { story self.new ≡ story self.old };

    // if the past is the same, so is all that is told
    ghost of_past: { (old new : Self) → tells old ≡ true → past new ≡ past old → IsUnmoved files moment left_since old new };

    // what a read gives now is among what a crash now may leave
    ghost reads_left: { (disk : Self) (file : FileId) → tells disk ≡ true → MayLeave (files disk file) (files disk file).bytes };

    // this moment is one of those since an earlier one
    ghost counts_now: { (disk : Self) (t : ℕ) (left : Contents) → tells disk ≡ true → t ≤ moment disk → Leaves (files disk) left → left_since disk t left };

    // since this moment there is no other
    ghost only_now: { (disk : Self) (left : Contents) → tells disk ≡ true → left_since disk (moment disk) left → Leaves (files disk) left };
}
