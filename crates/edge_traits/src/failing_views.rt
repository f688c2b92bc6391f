ghost use Rattle.std.specs.Prelude.{◌≡◌, Some, length};
ghost use Rattle.edge_traits.specs.Views.{AreEntries};

use crate::disks::DiskFault;
use crate::failing::FailingCalls;
use crate::list_views::copy_entry;
use crate::views::LogView;
use ring_types::{Entry, List, Opid, RegionId, Schema, last, region_at, term_at};
use std::alloc::Global;

/// A log that lies in memory as a list, of which chosen calls fail.
#[derive(Drop)]
pub struct FailingView<'a> {
    alloc: Global,
    log: &'a [Entry],
    home: RegionId,
    schema: &'a Schema,
    calls: FailingCalls,
}

impl<'a> FailingView<'a> {
    /// `home` and `schema` are the ring's. `failing` says which calls of the view fail, counted from 1.
    pub fn new(
        alloc: Global,
        log: &'a [Entry],
        home: RegionId,
        schema: &'a Schema,
        failing: List<u64>,
    ) -> FailingView<'a>
        ensures sees { ⟦<FailingView<'a> as LogView>⟧.sees result ≡ record { log = Some log.now; length = length log.now; home = home; schema = schema.now } }
        ensures stands { AreEntries schema.now log.now → ⟦<FailingView<'a> as LogView>⟧.stands result }
        ensures faults { ⟦<FailingView<'a> as LogView>⟧.faults result ≡ 0 }
    {
        FailingView {
            alloc,
            log,
            home,
            schema,
            calls: FailingCalls::new(failing),
        }
    }
}

impl<'a> LogView for FailingView<'a> {
    ghost sees = { λ v. record { log = Some v.log.now; length = length v.log.now; home = v.home; schema = v.schema.now } };

    ghost Behind = { Unit {0} };

    ghost behind = { λ _. tt };

    ghost stands = { λ v. AreEntries v.schema.now v.log.now };

    ghost faults = { λ v. v.calls.faults };

    fn last(&mut self) -> Result<Opid, DiskFault> {
        if self.calls.count() {
            return Err(DiskFault::Failed);
        }
        Ok(last(self.log))
    }

    fn term_at(&mut self, position: u64) -> Result<u64, DiskFault> {
        if self.calls.count() {
            return Err(DiskFault::Failed);
        }
        Ok(term_at(self.log, position))
    }

    fn region_at(&mut self, position: u64) -> Result<RegionId, DiskFault> {
        if self.calls.count() {
            return Err(DiskFault::Failed);
        }
        Ok(region_at(self.home, self.log, position))
    }

    #[tactic(auto, using(crate::proofs::Entries::entries_fit))]
    fn entry(&mut self, position: u64) -> Result<Entry, DiskFault> {
        if self.calls.count() {
            return Err(DiskFault::Failed);
        }
        copy_entry(self.alloc, self.log, position)
    }
}
