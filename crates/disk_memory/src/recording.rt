ghost use Rattle.std.specs.Prelude.{◌≡◌, [], ◌∷◌, ◌++◌, OnOk, OnErr};
ghost use Rattle.disk_memory.specs.declared.steps.Step.TheVariants as step;
ghost use Rattle.disk_memory.specs.declared.edits.Edit.TheVariants as edit;
ghost use Rattle.edge_traits.specs.Stories.{number_of};
ghost use Rattle.disk_memory.specs.Pasts.{past_of};
ghost use Rattle.disk_memory.specs.Tables.{SameRecords};

use crate::edits::Edit;
use crate::file_tables::FileTable;
use crate::steps::Step;
use edge_traits::FileId;
use ring_types::{Keep, List, Memory};
use std::alloc::Global;

/// The number under which a file is held.
pub(crate) fn number_of(file: FileId) -> u64
    ensures { result ≡ number_of file }
{
    match file {
        FileId::VoteCtl => 0,
        FileId::LogCtl => 1,
        FileId::EngineCtl => 2,
        FileId::Redo(number) => 3 + 2 * u64::from(number),
        FileId::Binlog(number) => 4 + 2 * u64::from(number),
    }
}

/// Records a write and does it. Without memory all is as before.
pub(crate) fn do_write(
    alloc: Global,
    steps: &mut Vec<Step>,
    table: &mut FileTable,
    file: FileId,
    at: u64,
    bytes: &[u8],
) -> Result<(), Memory>
    requires { SameRecords (past_of steps.old.items).records table.old }
    ensures ok { OnOk result (steps.new.items ≡ steps.old.items ++ step.Edit file (edit.Write at bytes.now) ∷ []) }
    ensures err { OnErr result (steps.new.items ≡ steps.old.items) }
    ensures same { SameRecords (past_of steps.new.items).records table.new }
{
    let mut copy = List::new(alloc);
    copy.extend_from_slice(bytes)?;
    steps.push(Step::Edit {
        file,
        edit: Edit::Write { at, bytes: copy },
    })?;
    match table.write(number_of(file), at, bytes) {
        Ok(()) => Ok(()),
        Err(error) => {
            steps.pop();
            Err(error)
        }
    }
}

/// Records a cut and does it. Without memory all is as before.
pub(crate) fn do_cut(
    steps: &mut Vec<Step>,
    table: &mut FileTable,
    file: FileId,
    to: u64,
) -> Result<(), Memory>
    requires { SameRecords (past_of steps.old.items).records table.old }
    ensures ok { OnOk result (steps.new.items ≡ steps.old.items ++ step.Edit file (edit.Cut to) ∷ []) }
    ensures err { OnErr result (steps.new.items ≡ steps.old.items) }
    ensures same { SameRecords (past_of steps.new.items).records table.new }
{
    steps.push(Step::Edit {
        file,
        edit: Edit::Cut { length: to },
    })?;
    match table.cut(number_of(file), to) {
        Ok(()) => Ok(()),
        Err(error) => {
            steps.pop();
            Err(error)
        }
    }
}

/// Records a sync and does it. Without memory all is as before.
pub(crate) fn do_sync(
    steps: &mut Vec<Step>,
    table: &mut FileTable,
    file: FileId,
) -> Result<(), Memory>
    requires { SameRecords (past_of steps.old.items).records table.old }
    ensures ok { OnOk result (steps.new.items ≡ steps.old.items ++ step.Sync file ∷ []) }
    ensures err { OnErr result (steps.new.items ≡ steps.old.items) }
    ensures same { SameRecords (past_of steps.new.items).records table.new }
{
    steps.push(Step::Sync { file })?;
    match table.sync(number_of(file)) {
        Ok(()) => Ok(()),
        Err(error) => {
            steps.pop();
            Err(error)
        }
    }
}

/// Records a crash and does it. Without memory all is as before.
pub(crate) fn do_crash(
    steps: &mut Vec<Step>,
    table: &mut FileTable,
    keep: Keep,
) -> Result<(), Memory>
    requires { SameRecords (past_of steps.old.items).records table.old }
    ensures ok { OnOk result (steps.new.items ≡ steps.old.items ++ step.Crash keep ∷ []) }
    ensures err { OnErr result (steps.new.items ≡ steps.old.items) }
    ensures same { SameRecords (past_of steps.new.items).records table.new }
{
    steps.push(Step::Crash { keep })?;
    match table.crash(keep) {
        Ok(()) => Ok(()),
        Err(error) => {
            steps.pop();
            Err(error)
        }
    }
}
