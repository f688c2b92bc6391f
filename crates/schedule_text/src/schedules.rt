ghost use Rattle.std.specs.Prelude.{◌≡◌, OnOk};
ghost use Rattle.schedule_text.specs.Lines.{line_of};
ghost use Rattle.schedule_text.specs.Schedules.{Adds, Refuses, Answers, events_of};

use crate::cutting::next_line;
use crate::faults::{LineError, ScheduleError};
use crate::lines::line;
use ring_model::Event;
use ring_types::List;
use std::alloc::Global;

/// Puts the event of a line behind the others, where the line stands for one.
fn add_line(
    alloc: Global,
    number: u64,
    text: &[u8],
    events: &mut List<Event>,
) -> Result<(), ScheduleError>
    ensures ok { OnOk result (Adds number (line_of text.now) events.old events.new) }
    ensures err { Refuses number (line_of text.now) result }
{
    match line(alloc, text) {
        Ok(None) => Ok(()),
        Ok(Some((what, cut))) => {
            let event = Event {
                line: number,
                what,
                cut,
            };
            events.push(event).map_err(|_| ScheduleError::Memory)
        }
        Err(LineError::Memory) => Err(ScheduleError::Memory),
        Err(LineError::NoForm) => Err(ScheduleError::BadLine {
            line: number,
            why: 2,
        }),
    }
}

/// The events of the schedule `bytes`, in order, each with its line's number.
#[tactic(auto, unfolding(crate::specs::Schedules::events_of))]
pub fn read_schedule(alloc: Global, bytes: &[u8]) -> Result<List<Event>, ScheduleError>
    ensures { Answers (events_of bytes.now) result }
{
    let mut events = List::new(alloc);
    let mut rest = bytes;
    let mut number: u64 = 1;
    while let Some((text, after)) = next_line(rest) {
        add_line(alloc, number, text, &mut events)?;
        rest = after;
        number += 1;
    }
    if !rest.is_empty() {
        return Err(ScheduleError::BadLine {
            line: number,
            why: 1,
        });
    }
    Ok(events)
}
