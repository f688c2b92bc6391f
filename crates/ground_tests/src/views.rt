//! What a view gives at each position of a log, and one that fails.
ghost use Rattle.std.specs.Prelude.{◌≡◌, ◌-◌, IfOk, IfSome, length};
ghost use Rattle.edge_traits.specs.DiskCalls.{DiskFails};
ghost use Rattle.edge_traits.specs.Views.{AreEntries, Keeps};
ghost use Rattle.ring_types.specs.Logs as logs;
ghost use Rattle.ring_types.specs.declared.entries.Payload.TheVariants as payload;
ghost use Rattle.ring_types.specs.declared.schemas.Schema.{Schema};

use super::fixtures::{numbers, text};
use edge_traits::{DiskFault, FailingView, ListView, LogView};
use ring_types::{Entry, List, Opid, Payload, RegionId};
use std::process::Abort;

/// The term of the last entry but one, 0 if there is none.
fn term_before_last<V: LogView>(view: &mut V) -> Result<u64, DiskFault>
    requires { V.stands view.old }
    ensures told { IfSome (V.sees view.old).log (λ log. IfOk result (λ it. it ≡ logs.term_at log (length log - 1))) }
    ensures keeps { Keeps V.sees V.behind V.stands V.faults view.old view.new }
    ensures failed { DiskFails (V.faults view.old) (V.faults view.new) result }
{
    let last = view.last()?;
    view.term_at(last.position.saturating_sub(1))
}

fn entry(term: u64, position: u64, region: u16) -> Entry
    ensures { result ≡ record { opid = record { term = term; position = position }; region = region; payload = payload.NoOp } }
{
    Entry {
        opid: Opid { term, position },
        region: RegionId(region),
        payload: Payload::NoOp,
    }
}

/// A log of two entries, of two terms and two regions.
fn two() -> [Entry; 2]
    ensures entries { (schema : Schema) → AreEntries schema result }
    ensures length { length result ≡ 2 }
{
    [entry(1, 1, 3), entry(3, 2, 4)]
}

fn no_tables(rt: &(impl AllocGlobal + Abort)) -> ring_types::Schema {
    ring_types::Schema {
        database: text(rt, "shop"),
        tables: List::new(rt.alloc()),
    }
}

#[test]
fn a_view_reads_the_log_by_position(rt: HostRuntime) {
    let log = two();
    let schema = no_tables(&rt);
    let mut view = ListView::new(rt.alloc(), &log, RegionId(7), &schema);
    assert!(rt; view.term_at(0) == Ok(0));
    assert!(rt; view.region_at(0) == Ok(RegionId(7)));
    assert!(rt; view.term_at(1) == Ok(1));
    assert!(rt; view.region_at(2) == Ok(RegionId(4)));
    let (term, position) = (3, 2);
    assert!(rt; view.last() == Ok(Opid { term, position }));
    assert!(rt; view.entry(1) == Ok(entry(1, 1, 3)));
}

#[test]
fn a_failing_view_fails_at_its_calls(rt: HostRuntime) {
    let log = two();
    let schema = no_tables(&rt);
    let failing = numbers(&rt, &[1, 3]);
    let mut view = FailingView::new(rt.alloc(), &log, RegionId(7), &schema, failing);
    assert!(rt; term_before_last(&mut view) == Err(DiskFault::Failed));
    assert!(rt; term_before_last(&mut view) == Err(DiskFault::Failed));
    assert!(rt; term_before_last(&mut view) == Ok(1));
}
