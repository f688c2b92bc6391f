ghost use Rattle.std.specs.Prelude.{◌≡◌, ◌+◌, ◌≤◌, length, IfOk};
ghost use Rattle.event_control.specs.ControlEvents.{due_at, body_in};

use crate::faults::ControlError;
use event_frame::{Event, read_event};

// The types of the events of this crate, in MySQL's numbers.
pub(crate) const ROTATE: u8 = 4;

pub(crate) const FORMAT_DESCRIPTION: u8 = 15;

pub(crate) const IGNORABLE: u8 = 28;

pub(crate) const PREVIOUS_GTIDS: u8 = 35;

/// The flag of an event that a reader who does not know its type may pass over.
pub(crate) const MAY_IGNORE: u16 = 0x80;

/// The event at the front of the bytes, if it has this type and these flags.
pub(crate) fn due_at(bytes: &[u8], kind: u8, flags: u16, at: u64) -> Result<Event, ControlError>
    ensures given { result ≡ due_at kind flags bytes.now at }
    ensures end { IfOk result (λ e. e.size ≤ length bytes.now) }
    ensures place { IfOk result (λ e. e.body_at ≡ 19) }
    ensures body { IfOk result (λ e. 23 + e.body_len ≡ e.size) }
{
    let event = read_event(bytes, at)?;
    if event.kind != kind || event.flags != flags {
        return Err(ControlError::Kind);
    }
    Ok(event)
}

/// The body of an event that was read at the front of the bytes.
pub(crate) fn body_in<'a>(event: &Event, bytes: &'a [u8]) -> &'a [u8]
    requires { event.now.body_at + event.now.body_len ≤ length bytes.now }
    ensures { result.now ≡ body_in event.now bytes.now }
{
    let begin = event.body_at as usize;
    let end = begin + event.body_len as usize;
    &bytes[begin..end]
}
