//! Which lines are which events, and which lines are bad.
mod changes;
mod faults;
mod short;

use ring_model::{Event, Input, Line};
use ring_types::{CutAt, Keep, List, NodeId};
use schedule_text::{ScheduleError, read_schedule};
use std::alloc::Global;
use std::process::Abort;

/// Whether the text is a schedule of this one event and no other.
fn stands_for(alloc: Global, text: &str, event: &Event) -> bool {
    match read_schedule(alloc, text.as_bytes()) {
        Ok(events) => events.len() == 1 && events.as_slice().first() == Some(event),
        Err(_) => false,
    }
}

/// Expects the text to be a schedule of this one event, which may be cut.
fn takes(rt: &(impl AllocGlobal + Abort), text: &str, what: Line, cut: Option<CutAt>) {
    let event = Event { line: 1, what, cut };
    assert!(rt; stands_for(rt.alloc(), text, &event), "{text}");
}

/// How many events a text stands for.
fn count(alloc: Global, text: &str) -> Option<usize> {
    match read_schedule(alloc, text.as_bytes()) {
        Ok(events) => Some(events.len()),
        Err(_) => None,
    }
}

/// The fault of a text that is no schedule.
fn fault(alloc: Global, bytes: &[u8]) -> Option<ScheduleError> {
    match read_schedule(alloc, bytes) {
        Ok(_) => None,
        Err(fault) => Some(fault),
    }
}

fn stop(call: u64, keep: Keep) -> Option<CutAt> {
    Some(CutAt::Stop { call, keep })
}

fn fail(call: u64) -> Option<CutAt> {
    Some(CutAt::Fail { call })
}

fn at(node: u32, input: Input) -> Line {
    Line::At {
        node: NodeId(node),
        input,
    }
}
