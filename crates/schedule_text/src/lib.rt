//! The text of a schedule, read to its events.
//!
//! A schedule is UTF-8 text, one line for each event: `elect 1`, `write 1 insert t 5 'text'`,
//! `next 2 stop 3 half`. Empty lines and lines that begin with `#` stand for no event.
//! [`read_schedule`] gives the events, or names the first line that is bad. Its definition is
//! `events_of` in `specs/Schedules.antt`: the text is cut into lines, a line at each `;` outside
//! quotes into parts, a part at each space outside quotes into words, and the words are read in order
//! (`specs/Lines.antt`, `specs/Changes.antt`, `specs/Values.antt`, `specs/Numbers.antt`).
//! A line is read from slices of the text, so the time grows with the length of the text.
#![tactic(auto)]

mod changes;
mod cutting;
mod faults;
mod lines;
mod numbers;
mod rows;
mod schedules;
mod suffixes;

pub use faults::ScheduleError;
pub use schedules::read_schedule;
