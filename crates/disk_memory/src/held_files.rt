ghost use Rattle.std.specs.Prelude.{◌≡◌, ◌+◌, ◌<◌, ◌≤◌, ◌^◌, OnOk, OnErr, IfOk, length};
ghost use Rattle.edge_traits.specs.DiskCalls.{slice};
ghost use Rattle.disk_memory.specs.declared.edits.Edit.TheVariants as edit;
ghost use Rattle.disk_memory.specs.Records.{untouched, reads, with_edit, all_synced};

use crate::stored_files::StoredFile;
use ring_types::{Keep, Memory};
use std::alloc::Global;

/// A file that takes note of a crash of its disk when it is next touched.
#[derive(Drop)]
pub(crate) struct HeldFile {
    pub(crate) file: StoredFile,
    /// How many crashes of the disk it has taken note of.
    pub(crate) seen: usize,
}

impl HeldFile {
    ghost use Rattle.disk_memory.specs.Tables.{brought};

    /// A file that was never touched, on a disk with so many crashes.
    pub(crate) fn new(alloc: Global, crashes: &[Keep]) -> HeldFile
        ensures file { brought crashes.now result ≡ untouched }
        ensures seen { result.seen ≡ length crashes.now }
    {
        HeldFile {
            file: StoredFile::new(alloc),
            seen: crashes.len(),
        }
    }

    /// Brings the file to what it is after all crashes. Without memory it is as before.
    fn bring(&mut self, alloc: Global, crashes: &[Keep]) -> Result<(), Memory>
        requires { self.old.seen ≤ length crashes.now }
        ensures ok { OnOk result ((self.new.file ≡ brought crashes.now self.old) × (self.new.seen ≡ length crashes.now)) }
        ensures err { OnErr result (self.new ≡ self.old) }
    {
        if self.seen < crashes.len() {
            self.file.crash(alloc, crashes[self.seen])?;
            self.seen = crashes.len();
        }
        Ok(())
    }

    /// The length, as a read gives it.
    #[tactic(auto, using(crate::proofs::Brought::brought_all))]
    pub(crate) fn length(&mut self, alloc: Global, crashes: &[Keep]) -> Result<usize, Memory>
        requires { self.old.seen ≤ length crashes.now }
        ensures ok { IfOk result (λ n. n ≡ length (reads (brought crashes.now self.old))) }
        ensures limit { IfOk result (λ n. n < 2 ^ 63) }
        ensures same { brought crashes.now self.new ≡ brought crashes.now self.old }
        ensures seen { self.new.seen ≤ length crashes.now }
    {
        self.bring(alloc, crashes)?;
        Ok(self.file.bytes().len())
    }

    /// Some bytes, as a read gives them.
    #[tactic(auto, using(crate::proofs::Brought::brought_all))]
    pub(crate) fn read(
        &mut self,
        alloc: Global,
        crashes: &[Keep],
        at: u64,
        into: &mut [u8],
    ) -> Result<(), Memory>
        requires seen { self.old.seen ≤ length crashes.now }
        requires within { at + length into.old ≤ length (reads (brought crashes.now self.old)) }
        ensures ok { OnOk result (into.new ≡ slice at (length into.old) (reads (brought crashes.now self.old))) }
        ensures room { length into.new ≡ length into.old }
        ensures same { brought crashes.now self.new ≡ brought crashes.now self.old }
        ensures seen { self.new.seen ≤ length crashes.now }
    {
        self.bring(alloc, crashes)?;
        let bytes = self.file.bytes();
        let rest = &bytes[at as usize..];
        into.copy_from_slice(&rest[..into.len()]);
        Ok(())
    }

    /// Without memory the file is as before.
    #[tactic(auto, using(crate::proofs::Brought::brought_all))]
    pub(crate) fn write(
        &mut self,
        alloc: Global,
        crashes: &[Keep],
        at: u64,
        bytes: &[u8],
    ) -> Result<(), Memory>
        requires { self.old.seen ≤ length crashes.now }
        ensures ok { OnOk result (brought crashes.now self.new ≡ with_edit (brought crashes.now self.old) (edit.Write at bytes.now)) }
        ensures err { OnErr result (brought crashes.now self.new ≡ brought crashes.now self.old) }
        ensures seen { self.new.seen ≤ length crashes.now }
    {
        self.bring(alloc, crashes)?;
        self.file.write(alloc, at, bytes)
    }

    /// Without memory the file is as before.
    #[tactic(auto, using(crate::proofs::Brought::brought_all))]
    pub(crate) fn cut(&mut self, alloc: Global, crashes: &[Keep], to: u64) -> Result<(), Memory>
        requires { self.old.seen ≤ length crashes.now }
        ensures ok { OnOk result (brought crashes.now self.new ≡ with_edit (brought crashes.now self.old) (edit.Cut to)) }
        ensures err { OnErr result (brought crashes.now self.new ≡ brought crashes.now self.old) }
        ensures seen { self.new.seen ≤ length crashes.now }
    {
        self.bring(alloc, crashes)?;
        self.file.cut(alloc, to)
    }

    /// Without memory the file is as before.
    #[tactic(auto, using(crate::proofs::Brought::brought_all))]
    pub(crate) fn sync(&mut self, alloc: Global, crashes: &[Keep]) -> Result<(), Memory>
        requires { self.old.seen ≤ length crashes.now }
        ensures ok { OnOk result (brought crashes.now self.new ≡ all_synced (reads (brought crashes.now self.old))) }
        ensures err { OnErr result (brought crashes.now self.new ≡ brought crashes.now self.old) }
        ensures seen { self.new.seen ≤ length crashes.now }
    {
        self.bring(alloc, crashes)?;
        self.file.sync();
        Ok(())
    }
}
