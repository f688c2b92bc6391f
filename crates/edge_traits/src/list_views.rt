ghost use Rattle.std.specs.Prelude.{◌≡◌, ◌≢◌, ◌<◌, ◌≤◌, Some, Err, IfOk, length};
ghost use Rattle.edge_traits.specs.Views.{AreEntries};
ghost use Rattle.ring_types.specs.Logs as logs;

use crate::disks::DiskFault;
use crate::views::LogView;
use ring_types::{Duplicate, Entry, Opid, RegionId, Schema, last, region_at, term_at};
use std::alloc::Global;

/// A log that lies in memory as a list. It is told, and no call fails but for want of memory.
#[derive(Drop)]
pub struct ListView<'a> {
    alloc: Global,
    log: &'a [Entry],
    home: RegionId,
    schema: &'a Schema,
}

impl<'a> ListView<'a> {
    /// `home` and `schema` are the ring's.
    pub fn new(alloc: Global, log: &'a [Entry], home: RegionId, schema: &'a Schema) -> ListView<'a>
        ensures sees { ⟦<ListView<'a> as LogView>⟧.sees result ≡ record { log = Some log.now; length = length log.now; home = home; schema = schema.now } }
        ensures stands { AreEntries schema.now log.now → ⟦<ListView<'a> as LogView>⟧.stands result }
    {
        ListView {
            alloc,
            log,
            home,
            schema,
        }
    }
}

/// The entry at a position within the log, copied.
pub(crate) fn copy_entry(alloc: Global, log: &[Entry], position: u64) -> Result<Entry, DiskFault>
    requires above { 0 < position }
    requires within { position ≤ length log.now }
    ensures told { IfOk result (λ it. logs.entry_at log.now position ≡ Some it) }
    ensures steady { result ≢ Err DiskFault.Failed }
{
    log[position as usize - 1]
        .copy(alloc)
        .map_err(|_| DiskFault::Memory)
}

impl<'a> LogView for ListView<'a> {
    ghost sees = { λ v. record { log = Some v.log.now; length = length v.log.now; home = v.home; schema = v.schema.now } };

    ghost Behind = { Unit {0} };

    ghost behind = { λ _. tt };

    ghost stands = { λ v. AreEntries v.schema.now v.log.now };

    ghost faults = { λ _. 0 };

    fn last(&mut self) -> Result<Opid, DiskFault> {
        Ok(last(self.log))
    }

    fn term_at(&mut self, position: u64) -> Result<u64, DiskFault> {
        Ok(term_at(self.log, position))
    }

    fn region_at(&mut self, position: u64) -> Result<RegionId, DiskFault> {
        Ok(region_at(self.home, self.log, position))
    }

    #[tactic(auto, using(crate::proofs::Entries::entries_fit))]
    fn entry(&mut self, position: u64) -> Result<Entry, DiskFault> {
        copy_entry(self.alloc, self.log, position)
    }
}
