//! Reading one file of a log: its head, its groups, and how it ends.
ghost use Rattle.std.specs.Prelude.{◌≡◌, ◌≢◌, ◌≤◌, ◌+◌, ℕ, true, OnOk, length};
ghost use Rattle.ring_types.specs.declared.schemas.Schema.{Schema};
ghost use Rattle.edge_traits.specs.FileStates.{Contents};
ghost use Rattle.edge_traits.specs.declared.disks.FileId.TheVariants as id;
ghost use Rattle.ring_types.specs.Rings.{is_schema};
ghost use Rattle.entry_group.specs.Files.{head_after};
ghost use Rattle.binlog_store.specs.Damages.{FilesFault, agreeing, in_head};
ghost use Rattle.binlog_store.specs.Faults.{IfDamaged, IsNoDisk, damage};
ghost use Rattle.binlog_store.specs.Following.{Answers, ComesTo, HasNoHead, IsShown, at_end, group_event};
ghost use Rattle.binlog_store.specs.Held.{IsHeldLog, IsLastFile, IsNextFile};
ghost use Rattle.binlog_store.specs.Stands.{IsWritten};
ghost use Rattle.binlog_store.specs.declared.endings.Ending.TheVariants as how;
ghost use Rattle.binlog_store.specs.declared.points.LogPoint.{LogPoint};

use crate::endings::Ending;
use crate::faults::StoreFault;
use crate::heads::{agreeing, ends_within, head_event};
use crate::held::HeldLog;
use crate::log_sets::head_of;
use crate::reading::ReadFault;
use edge_traits::FileId;
use ring_types::{Schema, after};
use std::alloc::Global;

/// What is at fault where a file of this length has `same` bytes of its head and not the whole.
fn head_fault(ending: Ending, number: u32, same: u64, long: u64) -> StoreFault
    ensures { result ≡ damage (in_head ending number same long) }
{
    match ending {
        Ending::Reaching if same == long => StoreFault::Damaged {
            file: FileId::LogCtl,
            at: 0,
        },
        _ => StoreFault::Damaged {
            file: FileId::Binlog(number),
            at: head_event(same),
        },
    }
}

/// What is at fault where the next group is due at offset `group` of a file's bytes, and the event at offset
/// `at` is none of it.
fn group_fault(ending: Ending, number: u32, group: u64, at: u64, bytes: &[u8]) -> StoreFault
    ensures { result ≡ damage (id.Binlog number, group_event ending group at bytes.now) }
{
    let at = match ending {
        Ending::Reaching if !ends_within(after(bytes, at)) => group,
        _ => at,
    };
    StoreFault::Damaged {
        file: FileId::Binlog(number),
        at,
    }
}

/// Refuses a file of this length that does not end as it should, where its groups end at offset `at`.
fn check_end(
    ending: Ending,
    number: u32,
    at: u64,
    long: u64,
    rotated: bool,
    counted: bool,
) -> Result<(), StoreFault>
    ensures { Answers (at_end ending number at long rotated counted) result }
{
    let here = Err(StoreFault::Damaged {
        file: FileId::Binlog(number),
        at,
    });
    match ending {
        Ending::Earlier if rotated && at == long => Ok(()),
        Ending::Reaching if at >= long && !rotated && counted => Ok(()),
        Ending::Reaching if at >= long => Err(StoreFault::Damaged {
            file: FileId::LogCtl,
            at: 0,
        }),
        _ => here,
    }
}

impl HeldLog {
    /// The length of the head that is due behind the log, if these bytes of the next file, which ends so,
    /// begin with it.
    fn check_head(&self, alloc: Global, shown: &[u8], ending: Ending) -> Result<(), StoreFault>
        requires { (schema : Schema) × IsHeldLog schema self.now }
        ensures ok { OnOk result (agreeing shown.now (head_after self.now.entries) ≡ length (head_after self.now.entries)) }
        ensures long { OnOk result (length (head_after self.now.entries) ≤ length shown.now) }
        ensures damaged { IfDamaged (HasNoHead self.now.entries shown.now ending self.now.end.place.file) result }
        ensures disk { IsNoDisk result }
    {
        let head = head_of(alloc, &self.end.gtids)?;
        let same = agreeing(shown, head.as_slice());
        if same == head.len() as u64 {
            return Ok(());
        }
        let number = self.end.place.file;
        Err(head_fault(ending, number, same, shown.len() as u64))
    }

    /// Reads the next file of the log, of which these are the bytes up to the log's end, and which ends so;
    /// the whole log should have `count` entries. After a fault the log is given up.
    pub(crate) fn read_shown(
        &mut self,
        alloc: Global,
        schema: &Schema,
        shown: &[u8],
        ending: Ending,
        count: u64,
    ) -> Result<(), StoreFault>
        requires schema { is_schema schema.now ≡ true }
        requires held { IsHeldLog schema.now self.old }
        requires written { IsWritten schema.now self.old.entries }
        requires begun { self.old.end.place.at ≡ length (head_after self.old.entries) }
        ensures held { OnOk result (IsHeldLog schema.now self.new) }
        ensures written { OnOk result (IsWritten schema.now self.new.entries) }
        ensures next { OnOk result (ending ≡ how.Earlier → IsNextFile self.old.end.place self.new) }
        ensures last { OnOk result (ending ≡ how.Reaching → IsLastFile self.old.end.place (length shown.now) count self.new) }
        ensures short { OnOk result (ending ≢ how.TooShort) }
        ensures told { (p : LogPoint) (c : Contents) (n : ℕ) → self.old.end.place.file ≡ n + 1 → IsShown schema.now p c n self.old.entries shown.now ending count → OnOk result (ComesTo schema.now p c (n + 1) self.new.entries ending) }
        ensures damaged { (p : LogPoint) (c : Contents) (n : ℕ) → self.old.end.place.file ≡ n + 1 → IsShown schema.now p c n self.old.entries shown.now ending count → IfDamaged (FilesFault schema.now p c) result }
        ensures disk { IsNoDisk result }
    {
        self.check_head(alloc, shown, ending)?;
        let number = self.end.place.file;
        let at = match self.read_groups(alloc, schema, shown) {
            Ok(at) => at,
            Err(ReadFault::NotNext { group, at }) => {
                return Err(group_fault(ending, number, group, at, shown));
            }
            Err(ReadFault::Memory) => return Err(StoreFault::Memory),
        };
        let rotated = self.end.place.file != number;
        let counted = self.entries.len() as u64 == count;
        check_end(ending, number, at, shown.len() as u64, rotated, counted)
    }
}
