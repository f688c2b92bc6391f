ghost use Rattle.std.specs.Prelude.{◌≡◌, ◌≤◌, ◌++◌, length, take, IfOk, OnOk, OnErr};
ghost use Rattle.event_frame.specs.Forms.{body_of};
ghost use Rattle.event_frame.specs.Reading.{Gives};
ghost use Rattle.event_control.specs.Bodies.{opid_form, opid_body};
ghost use Rattle.event_control.specs.ControlEvents.{opid_event, opid_event_at};
ghost use Rattle.event_control.specs.declared.faults.ControlError.TheVariants.{Body};

use crate::due_events::{IGNORABLE, MAY_IGNORE, body_in, due_at};
use crate::faults::ControlError;
use event_frame::{ended, put_header, put_sum, u8_at, u16_at, u64_at};
use ring_types::{Memory, Opid, RegionId};

/// The event with which an entry's group begins. `kind` is 1 for an entry that holds nothing, 2 for one
/// that ends the file, 3 for a transaction; `size` is that of the event.
#[derive(Clone, Copy, Debug, PartialEq, Eq)]
pub struct OpidEvent {
    pub kind: u8,
    pub opid: Opid,
    pub region: RegionId,
    pub size: u64,
}

/// The opid event at the front of the bytes, which stand at this offset of their file.
pub fn read_opid(bytes: &[u8], at: u64) -> Result<OpidEvent, ControlError>
    ensures given { result ≡ opid_event_at bytes.now at }
    ensures end { IfOk result (λ e. e.size ≤ length bytes.now) }
{
    let event = due_at(bytes, IGNORABLE, MAY_IGNORE, at)?;
    let (kind, opid, region) = opid_in(body_in(&event, bytes))?;
    Ok(OpidEvent {
        kind,
        opid,
        region,
        size: event.size,
    })
}

/// What the body says: the kind, the opid, the region.
fn opid_in(body: &[u8]) -> Result<(u8, Opid, RegionId), ControlError>
    ensures { Gives (λ said. said) result (body_of Body opid_form body.now) }
{
    let (kind, rest) = u8_at(body)?;
    if kind < 1 || kind > 3 {
        return Err(ControlError::Body);
    }
    let (term, rest) = u64_at(rest)?;
    let (position, rest) = u64_at(rest)?;
    let (region, rest) = u16_at(rest)?;
    ended(rest)?;
    Ok((kind, Opid { term, position }, RegionId(region)))
}

/// Puts the event with which the group of an entry begins; it stands at this offset of its file.
pub fn write_opid(
    out: &mut Vec<u8>,
    kind: u8,
    opid: Opid,
    region: RegionId,
    at: u64,
) -> Result<(), Memory>
    requires least { 1 ≤ kind }
    requires most { kind ≤ 3 }
    ensures ok { OnOk result (out.new.items ≡ out.old.items ++ opid_event kind opid region at) }
    ensures err { OnErr result (out.new.items ≡ out.old.items) }
{
    let begin = out.len();
    match put_event(out, kind, opid, region, at) {
        Ok(()) => Ok(()),
        Err(error) => {
            out.truncate(begin);
            Err(error)
        }
    }
}

/// Without memory a part of it may be put.
fn put_event(
    out: &mut Vec<u8>,
    kind: u8,
    opid: Opid,
    region: RegionId,
    at: u64,
) -> Result<(), Memory>
    ensures ok { OnOk result (out.new.items ≡ out.old.items ++ opid_event kind opid region at) }
    ensures err { OnErr result (take (length out.old.items) out.new.items ≡ out.old.items) }
{
    let begin = out.len();
    put_header(out, IGNORABLE, MAY_IGNORE, 19, at)?;
    put_body(out, kind, opid, region)?;
    put_sum(out, begin)
}

/// Without memory a part of it may be put.
fn put_body(out: &mut Vec<u8>, kind: u8, opid: Opid, region: RegionId) -> Result<(), Memory>
    ensures ok { OnOk result (out.new.items ≡ out.old.items ++ opid_body kind opid region) }
    ensures err { OnErr result (take (length out.old.items) out.new.items ≡ out.old.items) }
{
    out.extend_from_slice(&[kind])?;
    out.extend_from_slice(&opid.term.to_le_bytes())?;
    out.extend_from_slice(&opid.position.to_le_bytes())?;
    out.extend_from_slice(&region.0.to_le_bytes())?;
    Ok(())
}
