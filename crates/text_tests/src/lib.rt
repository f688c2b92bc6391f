//! The tests of the floor of texts: ring files (`ring_file`) and schedules (`schedule_text`).
//!
//! They call public functions alone, and stand in a crate of their own since a crate with tests is
//! proved twice, alone and with them. Want of memory ends a test.
#![tactic(auto)]

#[cfg(test)]
mod ring_texts;
#[cfg(test)]
mod schedules;
