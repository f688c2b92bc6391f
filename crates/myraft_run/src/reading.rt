ghost use Rattle.std.specs.Prelude.{◌≡◌, ◌≤◌, map, string_bytes};
ghost use Rattle.std.specs.List.{list_any};
ghost use Rattle.ring_file.specs.Documents.{ring_of};
ghost use Rattle.schedule_text.specs.Schedules.{events_of};
ghost use Rattle.myraft_run.specs.Inputs as spec;
ghost use Rattle.myraft_run.specs.Inputs.{Gives};
ghost use Rattle.myraft_run.specs.Parts.{Finds, FindsFromNames, FindsFromRing};
ghost use Rattle.myraft_run.specs.Spans.{shelf_span};

use crate::fetching::fetch;
use crate::inputs::Inputs;
use crate::stops::{File, Stop};
use crate::words::{Names, names_of};
use edge_traits::Shelf;
use ring_file::{RingError, read_ring};
use ring_model::Event;
use ring_types::{List, RING_FILE_BYTES, Ring, SCHEDULE_BYTES, Text};
use schedule_text::{ScheduleError, read_schedule};
use std::alloc::Global;

/// The ring of a ring file.
fn ring_from(alloc: Global, bytes: &[u8]) -> Result<Ring, Stop>
    ensures { Gives (spec.ring_or_fault (ring_of bytes.now)) result }
{
    match read_ring(alloc, bytes) {
        Ok(ring) => Ok(ring),
        Err(RingError::Memory) => Err(Stop::Memory),
        Err(fault) => Err(Stop::BadRing(fault)),
    }
}

fn events_from(alloc: Global, bytes: &[u8]) -> Result<List<Event>, Stop>
    ensures { Gives (spec.events_or_line (events_of bytes.now)) result }
{
    match read_schedule(alloc, bytes) {
        Ok(events) => Ok(events),
        Err(ScheduleError::BadLine { line, .. }) => Err(Stop::BadLine(line)),
        Err(ScheduleError::Memory) => Err(Stop::Memory),
    }
}

fn any_suffix(events: &[Event]) -> bool
    ensures { result ≡ list_any spec.has_suffix events.now }
{
    events.iter().any(|event| event.cut.is_some())
}

fn built_events(events: List<Event>) -> Result<List<Event>, Stop>
    ensures { Gives (spec.built_events events) result }
{
    if any_suffix(events.as_slice()) {
        Err(Stop::Unbuilt)
    } else {
        Ok(events)
    }
}

/// The events of a schedule, read whole.
fn all_events(alloc: Global, bytes: &[u8]) -> Result<List<Event>, Stop>
    ensures { Gives (spec.events_in bytes.now) result }
{
    let events = events_from(alloc, bytes)?;
    built_events(events)
}

fn with_schedule(alloc: Global, ring: Ring, bytes: &[u8]) -> Result<Inputs, Stop>
    ensures { Gives (spec.inputs_with ring bytes.now) result }
{
    let events = all_events(alloc, bytes)?;
    Ok(Inputs { ring, events })
}

fn with_ring<H: Shelf>(
    alloc: Global,
    ring: Ring,
    name: &Text,
    shelf: &mut H,
) -> Result<Inputs, Stop>
    ensures finds { FindsFromRing ring name.now (shelf_span H.files H.faults shelf.old shelf.new) result }
    ensures later { H.faults shelf.old ≤ H.faults shelf.new }
{
    let bytes = fetch(shelf, File::Schedule, name, SCHEDULE_BYTES)?;
    with_schedule(alloc, ring, bytes.as_slice())
}

fn with_names<H: Shelf>(alloc: Global, names: &Names, shelf: &mut H) -> Result<Inputs, Stop>
    ensures { FindsFromNames names.now (shelf_span H.files H.faults shelf.old shelf.new) result }
{
    let bytes = fetch(shelf, File::Ring, &names.ring, RING_FILE_BYTES)?;
    let ring = ring_from(alloc, bytes.as_slice())?;
    with_ring(alloc, ring, &names.schedule, shelf)
}

/// What the words and the shelf's files give to run, or why the program stops before.
pub(crate) fn find_inputs<H: Shelf>(
    alloc: Global,
    words: &[String],
    shelf: &mut H,
) -> Result<Inputs, Stop>
    ensures { Finds (map string_bytes words.now) (shelf_span H.files H.faults shelf.old shelf.new) result }
{
    let names = names_of(alloc, words)?;
    with_names(alloc, &names, shelf)
}
