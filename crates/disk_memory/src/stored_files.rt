ghost use Rattle.std.specs.Prelude.{◌≡◌, ◌+◌, ◌^◌, ◌<◌, ◌≤◌, ◌++◌, OnOk, OnErr, IfOk, IfSome, IfNone, length, take, drop};
ghost use Rattle.edge_traits.specs.FileStates.{written};
ghost use Rattle.std.specs.List.{flat_map};
ghost use Rattle.ring_types.specs.declared.entries.Keep.TheVariants as keep;
ghost use Rattle.disk_memory.specs.Records.{filled, done, kept};
ghost use Rattle.disk_memory.specs.Undone.{undone, unedited, edits_of};
ghost use Rattle.disk_memory.specs.Noted.{write_of, cut_of};
ghost use Rattle.disk_memory.specs.declared.edits.Edit.TheVariants as edit;

use crate::edits::Edit;
use ring_types::{Keep, List, Memory};
use std::alloc::{AllocError, Global};
use std::marker::Model;

/// An edit since the last sync, with what takes it back.
#[derive(Drop)]
pub(crate) struct Pending {
    pub(crate) edit: Edit,
    /// The length before.
    pub(crate) length: usize,
    /// Where the bytes stood that it changed or cut off, and those bytes.
    pub(crate) from: usize,
    pub(crate) old: List<u8>,
}

/// Makes the bytes at least so many, by zeros.
fn fill(now: &mut Vec<u8>, length: usize) -> Result<(), Memory>
    ensures ok { OnOk result (now.new.items ≡ filled now.old.items length) }
    ensures err { OnErr result (now.new.items ≡ now.old.items) }
{
    if length > now.len() {
        now.resize(length, 0)?;
    }
    Ok(())
}

/// Puts the bytes at a place within.
fn paste(now: &mut [u8], at: usize, bytes: &[u8])
    requires { at + length bytes.now ≤ length now.old }
    ensures bytes { now.new ≡ take at now.old ++ bytes.now ++ drop (at + length bytes.now) now.old }
    ensures length { length now.new ≡ length now.old }
{
    let end = at + bytes.len();
    now[at..end].copy_from_slice(bytes);
}

/// Where a write ends, if that is below 2^63.
pub(crate) fn end_of(at: u64, length: usize) -> Option<usize>
    ensures some { IfSome result (λ end. (end ≡ at + length) × (end < 2 ^ 63)) }
    ensures none { IfNone result (2 ^ 63 ≤ at + length) }
{
    let end = at.checked_add(length as u64)?;
    if end < 1 << 63 {
        Some(end as usize)
    } else {
        None
    }
}

/// Puts the bytes at a place, and zeros in a gap before them. A vector longer than 2^63 - 1 bytes
/// has no memory.
fn overwrite(now: &mut Vec<u8>, at: u64, bytes: &[u8]) -> Result<(), Memory>
    ensures ok { OnOk result (now.new.items ≡ written at bytes.now now.old.items) }
    ensures err { OnErr result (now.new.items ≡ now.old.items) }
{
    let Some(end) = end_of(at, bytes.len()) else {
        return Err(AllocError);
    };
    fill(now, end)?;
    paste(now, at as usize, bytes);
    Ok(())
}

/// What is noted of a write.
fn noted_write(
    alloc: Global,
    now: &[u8],
    at: u64,
    end: usize,
    bytes: &[u8],
) -> Result<Pending, Memory>
    requires { end ≡ at + length bytes.now }
    ensures { IfOk result (λ p. p ≡ write_of now.now at bytes.now) }
{
    let from = (at as usize).min(now.len());
    let to = end.min(now.len());
    let mut copy = List::new(alloc);
    copy.extend_from_slice(bytes)?;
    let mut old = List::new(alloc);
    old.extend_from_slice(&now[from..to])?;
    Ok(Pending {
        edit: Edit::Write { at, bytes: copy },
        length: now.len(),
        from,
        old,
    })
}

/// What is noted of a cut.
fn noted_cut(alloc: Global, now: &[u8], length: u64) -> Result<Pending, Memory>
    ensures { IfOk result (λ p. p ≡ cut_of now.now length) }
{
    let from = (length as usize).min(now.len());
    let mut old = List::new(alloc);
    old.extend_from_slice(&now[from..])?;
    Ok(Pending {
        edit: Edit::Cut { length },
        length: now.len(),
        from,
        old,
    })
}

/// The bytes of the last sync.
fn taken_back(alloc: Global, now: &[u8], pending: &[Pending]) -> Result<Vec<u8>, Memory>
    ensures { IfOk result (λ bytes. bytes.items ≡ undone pending.now now.now) }
{
    let mut bytes = Vec::from_slice(alloc, now)?;
    let mut left = pending.len();
    while left > 0 {
        left -= 1;
        take_back(&mut bytes, &pending[left])?;
    }
    Ok(bytes)
}

fn take_back(bytes: &mut Vec<u8>, edit: &Pending) -> Result<(), Memory>
    ensures { OnOk result (bytes.new.items ≡ unedited edit.now bytes.old.items) }
{
    overwrite(bytes, edit.from as u64, edit.old.as_slice())?;
    bytes.truncate(edit.length);
    Ok(())
}

/// Does the first half of each write.
fn redo_halves(bytes: &mut Vec<u8>, pending: &[Pending]) -> Result<(), Memory>
    ensures { OnOk result (bytes.new.items ≡ done (flat_map (kept keep.Half) (edits_of pending.now)) bytes.old.items) }
{
    for edit in pending {
        redo_half(bytes, &edit.edit)?;
    }
    Ok(())
}

fn redo_half(bytes: &mut Vec<u8>, edit: &Edit) -> Result<(), Memory>
    ensures { OnOk result (bytes.new.items ≡ done (kept keep.Half edit.now) bytes.old.items) }
{
    match edit {
        Edit::Write { at, bytes: new } => {
            let half = new.len() / 2;
            if half == 0 {
                Ok(())
            } else {
                overwrite(bytes, *at, &new.as_slice()[..half])
            }
        }
        Edit::Cut { .. } => Ok(()),
    }
}

/// One file: what a read gives, and what was done since the last sync.
#[derive(Drop)]
pub(crate) struct StoredFile {
    held: Vec<u8>,
    pending: Vec<Pending>,
}

impl Model for StoredFile {
    ghost use Rattle.std.specs.Prelude.{◌≡◌};
    ghost use Rattle.disk_memory.specs.Records.{FileRecord, done};

    ghost Value = { FileRecord };

    ghost use Rattle.disk_memory.specs.Undone.{undone, edits_of, file_of};

    ghost view = { λ f. file_of f.pending.items f.held.items };

    ghost invariant = { λ f. done (edits_of f.pending.items) (undone f.pending.items f.held.items) ≡ f.held.items };
}

impl StoredFile {
    ghost use Rattle.disk_memory.specs.Records.{untouched, reads, with_edit, all_synced, crashed};

    pub(crate) fn new(alloc: Global) -> StoredFile
        ensures { result ≡ untouched }
    {
        StoredFile {
            held: Vec::new(alloc),
            pending: Vec::new(alloc),
        }
    }

    /// The bytes that a read gives.
    pub(crate) fn bytes(&self) -> &[u8]
        ensures { result.now ≡ reads self.now }
    {
        self.held.as_slice()
    }

    /// From here on all that a read gives is on the disk.
    pub(crate) fn sync(&mut self)
        ensures { self.new ≡ all_synced (reads self.old) }
    {
        self.pending.clear();
    }

    /// Without memory the file is as before.
    pub(crate) fn write(&mut self, alloc: Global, at: u64, bytes: &[u8]) -> Result<(), Memory>
        ensures ok { OnOk result (self.new ≡ with_edit self.old (edit.Write at bytes.now)) }
        ensures err { OnErr result (self.new ≡ self.old) }
    {
        let Some(end) = end_of(at, bytes.len()) else {
            return Err(AllocError);
        };
        let noted = noted_write(alloc, &self.held, at, end, bytes)?;
        self.pending.push(noted)?;
        match overwrite(&mut self.held, at, bytes) {
            Ok(()) => Ok(()),
            Err(error) => {
                self.pending.pop();
                Err(error)
            }
        }
    }

    /// Never lengthens. Without memory the file is as before.
    pub(crate) fn cut(&mut self, alloc: Global, length: u64) -> Result<(), Memory>
        ensures ok { OnOk result (self.new ≡ with_edit self.old (edit.Cut length)) }
        ensures err { OnErr result (self.new ≡ self.old) }
    {
        let noted = noted_cut(alloc, &self.held, length)?;
        self.pending.push(noted)?;
        self.held.truncate(length as usize);
        Ok(())
    }

    /// What the crash leaves is all on the disk. Without memory the file is as before.
    #[tactic(auto, using(crate::proofs::Crashes::all_left, crate::proofs::Crashes::nothing_left))]
    pub(crate) fn crash(&mut self, alloc: Global, keep: Keep) -> Result<(), Memory>
        ensures ok { OnOk result (self.new ≡ crashed keep self.old) }
        ensures err { OnErr result (self.new ≡ self.old) }
    {
        if self.pending.is_empty() {
            return Ok(());
        }
        match keep {
            Keep::Nothing => self.lose(alloc),
            Keep::Half => self.halve(alloc),
            Keep::All => {
                self.sync();
                Ok(())
            }
        }
    }

    fn lose(&mut self, alloc: Global) -> Result<(), Memory>
        ensures ok { OnOk result (self.new ≡ all_synced self.old.synced) }
        ensures err { OnErr result (self.new ≡ self.old) }
    {
        self.held = taken_back(alloc, &self.held, &self.pending)?;
        self.pending.clear();
        Ok(())
    }

    fn halve(&mut self, alloc: Global) -> Result<(), Memory>
        ensures ok { OnOk result (self.new ≡ crashed keep.Half self.old) }
        ensures err { OnErr result (self.new ≡ self.old) }
    {
        let mut bytes = taken_back(alloc, &self.held, &self.pending)?;
        redo_halves(&mut bytes, &self.pending)?;
        self.held = bytes;
        self.pending.clear();
        Ok(())
    }
}
