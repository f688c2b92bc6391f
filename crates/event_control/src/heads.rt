ghost use Rattle.std.specs.Prelude.{◌≡◌, ◌≤◌, ◌^◌, ◌++◌, length, take, OnOk, OnErr};
ghost use Rattle.event_frame.specs.Forms.{body_of, front_of};
ghost use Rattle.event_frame.specs.Events.{event};
ghost use Rattle.event_frame.specs.Reading.{Gives};
ghost use Rattle.event_frame.specs.declared.frames.TheConstants.{MOST_BODY_BYTES};
ghost use Rattle.event_control.specs.Bodies.{server_name, fixed_sizes, format_form, format_body};
ghost use Rattle.event_control.specs.ControlEvents.{head, head_at};
ghost use Rattle.event_control.specs.declared.due_events.TheConstants.{FORMAT_DESCRIPTION};
ghost use Rattle.event_control.specs.declared.faults.ControlError.TheVariants.{Body};

use crate::due_events::{FORMAT_DESCRIPTION, MAY_IGNORE, PREVIOUS_GTIDS, body_in, due_at};
use crate::faults::ControlError;
use event_frame::{constant_at, ended, put_header, put_sum, write_event};
use ring_types::Memory;

/// The first four bytes of each file.
const MAGIC: [u8; 4] = [0xfe, b'b', b'i', b'n'];

/// The name of the server, with zeros behind it.
#[tactic(auto, unfolding(crate::specs::Bodies::server_name))]
fn server_name() -> [u8; 50]
    ensures { result ≡ server_name }
{
    [
        b'8', b'.', b'0', b'.', b'0', b'-', b'm', b'y', b'r', b'a', b'f', b't', 0, 0, 0, 0, 0, 0,
        0, 0, 0, 0, 0, 0, 0, 0, 0, 0, 0, 0, 0, 0, 0, 0, 0, 0, 0, 0, 0, 0, 0, 0, 0, 0, 0, 0, 0, 0,
        0, 0,
    ]
}

/// For each type of event from 1 on, the bytes of its body that do not vary.
#[tactic(auto, unfolding(crate::specs::Bodies::fixed_sizes))]
fn fixed_sizes() -> [u8; 41]
    ensures { result ≡ fixed_sizes }
{
    [
        0, 13, 0, 8, 0, 0, 0, 0, 0, 0, 0, 0, 0, 0, 0, 0, 0, 0, 8, 0, 0, 0, 0, 0, 0, 0, 0, 0, 0, 10,
        10, 10, 42, 0, 0, 0, 0, 0, 0, 0, 0,
    ]
}

/// The head of a file: where the set of earlier transactions lies, and how long the head is.
#[derive(Clone, Copy, Debug, PartialEq, Eq)]
pub struct Head {
    pub previous_at: u64,
    pub previous_len: u64,
    pub size: u64,
}

/// The head at the front of a file's bytes. The bytes of the set of earlier transactions are not tested.
pub fn read_head(bytes: &[u8]) -> Result<Head, ControlError>
    ensures { result ≡ head_at bytes.now }
{
    let rest = constant_at(bytes, &MAGIC)?;
    let format = due_at(rest, FORMAT_DESCRIPTION, 0, 4)?;
    check_format(body_in(&format, rest))?;
    let begin = 4 + format.size;
    let previous = due_at(
        &rest[format.size as usize..],
        PREVIOUS_GTIDS,
        MAY_IGNORE,
        begin,
    )?;
    Ok(Head {
        previous_at: begin + previous.body_at,
        previous_len: previous.body_len,
        size: begin + previous.size,
    })
}

fn check_format(body: &[u8]) -> Result<(), ControlError>
    ensures { Gives (λ u. u) result (body_of Body format_form body.now) }
{
    let rest = format_at(body)?;
    ended(rest)?;
    Ok(())
}

/// The bytes behind the fields of FORMAT_DESCRIPTION.
#[tactic(auto, unfolding(crate::specs::Bodies::format_form))]
fn format_at(body: &[u8]) -> Result<&[u8], ControlError>
    ensures { Gives (λ x. (tt, x.now)) result (front_of Body format_form body.now) }
{
    let rest = constant_at(body, &4u16.to_le_bytes())?;
    let rest = constant_at(rest, &server_name())?;
    let rest = constant_at(rest, &0u32.to_le_bytes())?;
    let rest = constant_at(rest, &[19])?;
    let rest = constant_at(rest, &fixed_sizes())?;
    let rest = constant_at(rest, &[1])?;
    Ok(rest)
}

/// Puts the head of a file; these are the bytes of the set of all transactions in earlier files.
pub fn write_head(out: &mut Vec<u8>, previous: &[u8]) -> Result<(), Memory>
    requires { length previous.now ≤ MOST_BODY_BYTES }
    ensures ok { OnOk result (out.new.items ≡ out.old.items ++ head previous.now) }
    ensures err { OnErr result (out.new.items ≡ out.old.items) }
{
    let begin = out.len();
    match put_head(out, previous) {
        Ok(()) => Ok(()),
        Err(error) => {
            out.truncate(begin);
            Err(error)
        }
    }
}

/// Without memory a part of it may be put.
fn put_head(out: &mut Vec<u8>, previous: &[u8]) -> Result<(), Memory>
    requires { length previous.now ≤ MOST_BODY_BYTES }
    ensures ok { OnOk result (out.new.items ≡ out.old.items ++ head previous.now) }
    ensures err { OnErr result (take (length out.old.items) out.new.items ≡ out.old.items) }
{
    out.extend_from_slice(&MAGIC)?;
    put_format(out)?;
    write_event(out, PREVIOUS_GTIDS, MAY_IGNORE, previous, 126)
}

/// Puts FORMAT_DESCRIPTION. Without memory a part of it may be put.
fn put_format(out: &mut Vec<u8>) -> Result<(), Memory>
    ensures ok { OnOk result (out.new.items ≡ out.old.items ++ event FORMAT_DESCRIPTION 0 format_body 4) }
    ensures err { OnErr result (take (length out.old.items) out.new.items ≡ out.old.items) }
{
    let begin = out.len();
    put_header(out, FORMAT_DESCRIPTION, 0, 99, 4)?;
    put_format_body(out)?;
    put_sum(out, begin)
}

/// Without memory a part of it may be put.
fn put_format_body(out: &mut Vec<u8>) -> Result<(), Memory>
    ensures ok { OnOk result (out.new.items ≡ out.old.items ++ format_body) }
    ensures err { OnErr result (take (length out.old.items) out.new.items ≡ out.old.items) }
{
    out.extend_from_slice(&4u16.to_le_bytes())?;
    out.extend_from_slice(&server_name())?;
    out.extend_from_slice(&0u32.to_le_bytes())?;
    out.extend_from_slice(&[19])?;
    out.extend_from_slice(&fixed_sizes())?;
    out.extend_from_slice(&[1])?;
    Ok(())
}
