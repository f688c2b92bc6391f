ghost use Rattle.std.specs.Prelude.{◌≡◌, ◌+◌, ◌^◌, ◌≤◌, ◌<◌, true, false, [], ◌∷◌, ◌++◌, None, Some, Err, OnOk, OnErr, IfOk, length, min};
ghost use Rattle.edge_traits.specs.DiskCalls.{slice};
ghost use Rattle.ring_types.specs.declared.entries.CutAt.TheVariants as setting;
ghost use Rattle.disk_memory.specs.declared.steps.Step.TheVariants as step;
ghost use Rattle.disk_memory.specs.declared.edits.Edit.TheVariants as edit;
ghost use Rattle.edge_traits.specs.Stories.{number_of};
ghost use Rattle.disk_memory.specs.Pasts.{fresh, contents, states, record_at};
ghost use Rattle.disk_memory.specs.Meters.{is_reached};

use crate::file_tables::FileTable;
use crate::meters::Meter;
use crate::recording::{do_crash, do_cut, do_sync, do_write, number_of};
use crate::steps::Step;
use crate::stored_files::end_of;
use edge_traits::{Disk, DiskFault, FileId};
use ring_types::{CutAt, Keep, Memory};
use std::alloc::Global;
use std::marker::Model;

/// A disk in memory, which stops or fails at chosen calls, crashes on demand, and keeps a record of
/// its turns.
#[derive(Drop)]
pub struct MemoryDisk {
    alloc: Global,
    /// All that was done to the files and turns: what contracts see is told from it.
    steps: Vec<Step>,
    /// The files after these steps.
    table: FileTable,
    meter: Meter,
}

impl Model for MemoryDisk {
    ghost use Rattle.disk_memory.specs.Pasts.{DiskState, past_of};

    ghost Value = { DiskState };

    ghost use Rattle.disk_memory.specs.Disks.{IsKept};

    ghost view = { λ d. record { past = past_of d.steps.items; meter = d.meter } };

    ghost invariant = { λ d. IsKept d.steps.items d.table d.meter };
}

impl MemoryDisk {
    ghost use Rattle.disk_memory.specs.Disks.{turned, crashed_disk, story_of, Calls, Does};
    ghost use Rattle.disk_memory.specs.Pasts.{stepped};
    ghost use Rattle.edge_traits.specs.DiskCalls.{DiskFails};
    ghost use Rattle.std.specs.Result.{MatchResult};
    ghost use Rattle.edge_traits.specs.FileStates.{Leaves, settled};
    ghost use Rattle.edge_traits.specs.declared.disks.FileId.{FileId};
    ghost use Rattle.disk_memory.specs.Meters.{IsSteady};

    /// An empty disk, in its first turn, which has no setting.
    pub fn new(alloc: Global) -> MemoryDisk
        ensures { result ≡ record { past = fresh; meter = record { setting = None; calls = 0; ended = false; made = 0; faults = 0; faults_before = 0 } } }
    {
        MemoryDisk {
            alloc,
            steps: Vec::new(alloc),
            table: FileTable::new(alloc),
            meter: Meter::new(),
        }
    }

    /// Ends the turn and begins one of which this call and all later ones fail, until a crash.
    pub fn stop_at(&mut self, call: u64, keep: Keep) -> Result<(), Memory>
        ensures ok { OnOk result (self.new ≡ turned (Some (setting.Stop call keep)) self.old) }
        ensures err { OnErr result (self.new ≡ self.old) }
    {
        self.begin(Some(CutAt::Stop { call, keep }))
    }

    /// Ends the turn and begins one of which this call fails.
    pub fn fail_at(&mut self, call: u64) -> Result<(), Memory>
        ensures ok { OnOk result (self.new ≡ turned (Some (setting.Fail call)) self.old) }
        ensures err { OnErr result (self.new ≡ self.old) }
    {
        self.begin(Some(CutAt::Fail { call }))
    }

    /// Ends the turn and begins one of which no call fails.
    pub fn clear(&mut self) -> Result<(), Memory>
        ensures ok { OnOk result (self.new ≡ turned None self.old) }
        ensures err { OnErr result (self.new ≡ self.old) }
    {
        self.begin(None)
    }

    fn begin(&mut self, setting: Option<CutAt>) -> Result<(), Memory>
        ensures ok { OnOk result (self.new ≡ turned setting self.old) }
        ensures err { OnErr result (self.new ≡ self.old) }
    {
        self.steps.push(Step::Turn {
            setting: self.meter.setting,
            calls: self.meter.calls,
        })?;
        self.meter.begin(setting);
        Ok(())
    }

    /// Whether the turn's setting has made a call fail.
    pub fn stopped(&self) -> bool
        ensures reached { result ≡ is_reached self.now.meter }
        ensures steady { IsSteady self.now.meter }
    {
        self.meter.is_reached()
    }

    /// How many calls of a disk there were, up to 2^64 - 1.
    pub fn calls(&self) -> u64
        ensures { result ≡ self.now.meter.made }
    {
        self.meter.made
    }

    /// A crash, which keeps of the edits since each file's last sync what the turn's setting says. What
    /// it leaves is all on the disk, and is among what every crash might have left.
    pub fn crash(&mut self) -> Result<(), Memory>
        ensures ok { OnOk result (self.new ≡ crashed_disk self.old) }
        ensures err { OnErr result (self.new ≡ self.old) }
        ensures leaves { OnOk result (Leaves (states self.old.past.records) (contents self.new.past.records)) }
        ensures settled { OnOk result ((f : FileId) → states self.new.past.records f ≡ settled (contents self.new.past.records f)) }
    {
        self.crash_files()
    }

    fn crash_files(&mut self) -> Result<(), Memory>
        ensures ok { OnOk result (self.new ≡ crashed_disk self.old) }
        ensures err { OnErr result (self.new ≡ self.old) }
    {
        let keep = self.meter.keeps();
        do_crash(&mut self.steps, &mut self.table, keep)?;
        self.meter.crash();
        Ok(())
    }

    fn call_length(&mut self, file: FileId) -> Result<u64, DiskFault>
        ensures told { IfOk result (λ n. n ≡ length (contents self.old.past.records file)) }
        ensures limit { IfOk result (λ n. n < 2 ^ 63) }
        ensures state { Calls self.old self.new result }
        ensures past { self.new.past ≡ self.old.past }
        ensures story { story_of self.new ≡ story_of self.old }
        ensures later { self.old.meter.faults ≤ self.new.meter.faults }
        ensures failed { DiskFails self.old.meter.faults self.new.meter.faults result }
    {
        if self.meter.tick() {
            return Err(DiskFault::Failed);
        }
        match self.table.length(number_of(file)) {
            Ok(length) => Ok(length as u64),
            Err(_) => Err(DiskFault::Memory),
        }
    }

    fn call_read(&mut self, file: FileId, at: u64, into: &mut [u8]) -> Result<(), DiskFault>
        requires { at + length into.old ≤ length (contents self.old.past.records file) }
        ensures told { OnOk result (into.new ≡ slice at (length into.old) (contents self.old.past.records file)) }
        ensures room { length into.new ≡ length into.old }
        ensures state { Calls self.old self.new result }
        ensures past { self.new.past ≡ self.old.past }
        ensures story { story_of self.new ≡ story_of self.old }
        ensures later { self.old.meter.faults ≤ self.new.meter.faults }
        ensures failed { DiskFails self.old.meter.faults self.new.meter.faults result }
    {
        if self.meter.tick() {
            return Err(DiskFault::Failed);
        }
        match self.table.read(number_of(file), at, into) {
            Ok(()) => Ok(()),
            Err(_) => Err(DiskFault::Memory),
        }
    }

    fn call_write(&mut self, file: FileId, at: u64, bytes: &[u8]) -> Result<(), DiskFault>
        ensures state { at + length bytes.now < 2 ^ 63 → Does (step.Edit file (edit.Write at bytes.now)) self.old self.new result }
        ensures too_long { 2 ^ 63 ≤ at + length bytes.now → (result ≡ Err DiskFault.Memory) × (self.new ≡ self.old) }
        ensures past { MatchResult result (λ _. self.new.past ≡ stepped self.old.past (step.Edit file (edit.Write at bytes.now))) (λ _. self.new.past ≡ self.old.past) }
        ensures story { story_of self.new ≡ story_of self.old }
        ensures later { self.old.meter.faults ≤ self.new.meter.faults }
        ensures failed { DiskFails self.old.meter.faults self.new.meter.faults result }
    {
        if end_of(at, bytes.len()).is_none() {
            return Err(DiskFault::Memory);
        }
        if self.meter.tick() {
            return Err(DiskFault::Failed);
        }
        let Ok(()) = do_write(
            self.alloc,
            &mut self.steps,
            &mut self.table,
            file,
            at,
            bytes,
        ) else {
            return Err(DiskFault::Memory);
        };
        Ok(())
    }

    fn call_cut(&mut self, file: FileId, to: u64) -> Result<(), DiskFault>
        ensures state { Does (step.Edit file (edit.Cut to)) self.old self.new result }
        ensures past { MatchResult result (λ _. self.new.past ≡ stepped self.old.past (step.Edit file (edit.Cut to))) (λ _. self.new.past ≡ self.old.past) }
        ensures story { story_of self.new ≡ story_of self.old }
        ensures later { self.old.meter.faults ≤ self.new.meter.faults }
        ensures failed { DiskFails self.old.meter.faults self.new.meter.faults result }
    {
        if self.meter.tick() {
            return Err(DiskFault::Failed);
        }
        let Ok(()) = do_cut(&mut self.steps, &mut self.table, file, to) else {
            return Err(DiskFault::Memory);
        };
        Ok(())
    }

    fn call_sync(&mut self, file: FileId) -> Result<(), DiskFault>
        ensures state { Does (step.Sync file) self.old self.new result }
        ensures past { MatchResult result (λ _. self.new.past ≡ stepped self.old.past (step.Sync file)) (λ _. self.new.past ≡ self.old.past) }
        ensures story { story_of self.new ≡ story_of self.old }
        ensures later { self.old.meter.faults ≤ self.new.meter.faults }
        ensures failed { DiskFails self.old.meter.faults self.new.meter.faults result }
    {
        if self.meter.tick() {
            return Err(DiskFault::Failed);
        }
        let Ok(()) = do_sync(&mut self.steps, &mut self.table, file) else {
            return Err(DiskFault::Memory);
        };
        Ok(())
    }
}

impl Disk for MemoryDisk {
    ghost use Rattle.edge_traits.specs.DiskCalls.{Same, Elsewhere, WriteIs, CutIs, SyncIs, DiskFails};
    ghost use Rattle.edge_traits.specs.FileStates.{Leaves, Within, wrote, shortened};
    ghost use Rattle.edge_traits.specs.Moments.{LeavesOnly, Remembers};
    ghost use Rattle.disk_memory.specs.Pasts.{LeftSince, DiskState};
    ghost use Rattle.disk_memory.specs.Disks.{Calls, Does, moment, left_since, story_of};
    ghost use Rattle.disk_memory.specs.DiskLaws.{record_reads, only_now_of, counts_now_of, unmoved_of};
    ghost use Rattle.disk_memory.specs.Pasts as pasts;

    ghost tells = { λ _. true };

    ghost files = { λ d. states d.past.records };

    ghost moment = { moment };

    ghost left_since = { left_since };

    ghost Past = { pasts.Past };

    ghost past = { λ d. d.past };

    ghost story = { story_of };

    ghost faults = { λ d. d.meter.faults };

    ghost of_past = { λ old new _ same. unmoved_of old new same };

    ghost reads_left = { λ d f _. record_reads (record_at (number_of f) d.past.records) };

    ghost counts_now = { λ d t left _ _ now. counts_now_of d.past t left now };

    ghost only_now = { λ d left _ since. only_now_of d.past left since };

    fn length(&mut self, file: FileId) -> Result<u64, DiskFault>
        ensures state { Calls self.old self.new result }
        ensures told { IfOk result (λ n. n ≡ length (states self.old.past.records file).bytes) }
        ensures limit { IfOk result (λ n. n < 2 ^ 63) }
        ensures same { Same (states self.old.past.records) (states self.new.past.records) }
        ensures time { LeavesOnly moment left_since self.old self.new (Leaves (states self.new.past.records)) }
        ensures remembers { Remembers moment left_since self.old self.new }
        ensures past { self.new.past ≡ self.old.past }
        ensures story { story_of self.new ≡ story_of self.old }
        ensures later { self.old.meter.faults ≤ self.new.meter.faults }
        ensures failed { DiskFails self.old.meter.faults self.new.meter.faults result }
    {
        self.call_length(file)
    }

    fn read(&mut self, file: FileId, at: u64, into: &mut [u8]) -> Result<(), DiskFault>
        requires { at + length into.old ≤ length (states self.old.past.records file).bytes }
        ensures state { Calls self.old self.new result }
        ensures told { OnOk result (into.new ≡ slice at (length into.old) (states self.old.past.records file).bytes) }
        ensures room { length into.new ≡ length into.old }
        ensures same { Same (states self.old.past.records) (states self.new.past.records) }
        ensures time { LeavesOnly moment left_since self.old self.new (Leaves (states self.new.past.records)) }
        ensures remembers { Remembers moment left_since self.old self.new }
        ensures past { self.new.past ≡ self.old.past }
        ensures story { story_of self.new ≡ story_of self.old }
        ensures later { self.old.meter.faults ≤ self.new.meter.faults }
        ensures failed { DiskFails self.old.meter.faults self.new.meter.faults result }
    {
        self.call_read(file, at, into)
    }

    fn write(&mut self, file: FileId, at: u64, bytes: &[u8]) -> Result<(), DiskFault>
        ensures state { at + length bytes.now < 2 ^ 63 → Does (step.Edit file (edit.Write at bytes.now)) self.old self.new result }
        ensures unchanged { 2 ^ 63 ≤ at + length bytes.now → (result ≡ Err DiskFault.Memory) × (self.new ≡ self.old) }
        ensures here { WriteIs at bytes.now (states self.old.past.records file) (states self.new.past.records file) result }
        ensures crash { Within (states self.new.past.records file) (wrote at bytes.now (states self.old.past.records file)) }
        ensures elsewhere { Elsewhere file (states self.old.past.records) (states self.new.past.records) }
        ensures time { LeavesOnly moment left_since self.old self.new (Leaves (states self.new.past.records)) }
        ensures remembers { Remembers moment left_since self.old self.new }
        ensures too_long { 2 ^ 63 ≤ at + length bytes.now → (result ≡ Err DiskFault.Memory) × (self.new.meter.faults ≡ self.old.meter.faults) }
        ensures story { story_of self.new ≡ story_of self.old }
        ensures later { self.old.meter.faults ≤ self.new.meter.faults }
        ensures failed { DiskFails self.old.meter.faults self.new.meter.faults result }
    {
        self.call_write(file, at, bytes)
    }

    fn cut(&mut self, file: FileId, length: u64) -> Result<(), DiskFault>
        ensures state { Does (step.Edit file (edit.Cut length)) self.old self.new result }
        ensures here { CutIs length (states self.old.past.records file) (states self.new.past.records file) result }
        ensures crash { Within (states self.new.past.records file) (shortened length (states self.old.past.records file)) }
        ensures elsewhere { Elsewhere file (states self.old.past.records) (states self.new.past.records) }
        ensures time { LeavesOnly moment left_since self.old self.new (Leaves (states self.new.past.records)) }
        ensures remembers { Remembers moment left_since self.old self.new }
        ensures story { story_of self.new ≡ story_of self.old }
        ensures later { self.old.meter.faults ≤ self.new.meter.faults }
        ensures failed { DiskFails self.old.meter.faults self.new.meter.faults result }
    {
        self.call_cut(file, length)
    }

    fn sync(&mut self, file: FileId) -> Result<(), DiskFault>
        ensures state { Does (step.Sync file) self.old self.new result }
        ensures here { SyncIs (states self.old.past.records file) (states self.new.past.records file) result }
        ensures crash { Within (states self.new.past.records file) (states self.old.past.records file) }
        ensures elsewhere { Elsewhere file (states self.old.past.records) (states self.new.past.records) }
        ensures time { LeavesOnly moment left_since self.old self.new (Leaves (states self.new.past.records)) }
        ensures remembers { Remembers moment left_since self.old self.new }
        ensures story { story_of self.new ≡ story_of self.old }
        ensures later { self.old.meter.faults ≤ self.new.meter.faults }
        ensures failed { DiskFails self.old.meter.faults self.new.meter.faults result }
    {
        self.call_sync(file)
    }

    /// Does nothing: this disk tells its content, so no caller that knows no more than the trait may
    /// report it.
    fn changed(&mut self)
        ensures same { self.new ≡ self.old }
    {}
}
