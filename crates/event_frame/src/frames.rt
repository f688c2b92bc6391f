ghost use Rattle.std.specs.Prelude.{◌≡◌, ◌≤◌, ◌<◌, ◌+◌, ◌%◌, ◌^◌, ◌++◌, length, take, drop, OnOk, OnErr, IfOk};
ghost use Rattle.std.specs.Int.{w32, to_le_bytes};
ghost use Rattle.event_frame.specs.Checksums.{crc32};
ghost use Rattle.event_frame.specs.Events.{event, unsummed, header, header_at, event_at, word_in};
ghost use Rattle.event_frame.specs.declared.frames.TheConstants.{MOST_BODY_BYTES};

use crate::checksums::crc32;
use std::alloc::AllocError;

/// The most bytes of an event's body, and so of the set of GTIDs in a file's head: an event's size is
/// far from 2^32 then, which its field could not say.
pub const MOST_BODY_BYTES: u64 = 1 << 24;

/// What stands at the front of some bytes; offsets are counted from their beginning.
#[derive(Clone, Copy, Debug, PartialEq, Eq)]
pub struct Event {
    pub kind: u8,
    pub flags: u16,
    pub body_at: u64,
    pub body_len: u64,
    pub size: u64,
}

/// Why no event stands there, in the order in which it is tested.
#[derive(Clone, Copy, Debug, PartialEq, Eq, thiserror::Error)]
pub enum FrameError {
    /// Fewer bytes than a header has, or than the event's size says.
    #[error("the event is cut")]
    Short,
    /// A size that a header and a checksum do not fit in.
    #[error("the event's size is below 23")]
    BadSize,
    /// A timestamp that is not 0, or a server id that is not 1.
    #[error("the header has a timestamp or another server")]
    BadHeader,
    /// The position is not that of the offset behind the event.
    #[error("the event stands at another position")]
    BadPos,
    #[error("the checksum is another")]
    BadSum,
}

fn word_in(bytes: &[u8], at: usize) -> u32
    requires { at + 4 ≤ length bytes.now }
    ensures { result ≡ word_in bytes.now at }
{
    u32::from_le_bytes([bytes[at], bytes[at + 1], bytes[at + 2], bytes[at + 3]])
}

/// The event at the front of the bytes, which stand at this offset of their file.
#[tactic(auto, unfolding(crate::specs::Events::event_at))]
pub fn read_event(bytes: &[u8], at: u64) -> Result<Event, FrameError>
    ensures exact { result ≡ event_at bytes.now at }
    ensures end { IfOk result (λ e. e.size ≤ length bytes.now) }
    ensures place { IfOk result (λ e. e.body_at ≡ 19) }
    ensures body { IfOk result (λ e. 23 + e.body_len ≡ e.size) }
{
    if bytes.len() < 19 {
        return Err(FrameError::Short);
    }
    let size = word_in(bytes, 9) as usize;
    if bytes.len() < size {
        return Err(FrameError::Short);
    }
    if size < 23 {
        return Err(FrameError::BadSize);
    }
    if word_in(bytes, 0) != 0 || word_in(bytes, 5) != 1 {
        return Err(FrameError::BadHeader);
    }
    if word_in(bytes, 13) != position_behind(at, size as u32) {
        return Err(FrameError::BadPos);
    }
    if word_in(bytes, size - 4) != crc32(&bytes[..size - 4]) {
        return Err(FrameError::BadSum);
    }
    Ok(Event {
        kind: bytes[4],
        flags: u16::from_le_bytes([bytes[17], bytes[18]]),
        body_at: 19,
        body_len: size as u64 - 23,
        size: size as u64,
    })
}

/// The low 32 bits of the offset behind.
fn position_behind(at: u64, size: u32) -> u32
    ensures { result ≡ (at + size) % 2 ^ 32 }
{
    ((at & 0xffff_ffff) as u32).wrapping_add(size)
}

/// Puts one event at the end; it stands at this offset of its file. Without memory nothing is put.
pub fn write_event(
    out: &mut Vec<u8>,
    kind: u8,
    flags: u16,
    body: &[u8],
    at: u64,
) -> Result<(), AllocError>
    requires { length body.now ≤ MOST_BODY_BYTES }
    ensures ok { OnOk result (out.new.items ≡ out.old.items ++ event kind flags body.now at) }
    ensures err { OnErr result (out.new.items ≡ out.old.items) }
{
    let begin = out.len();
    match put_event(out, kind, flags, body, at) {
        Ok(()) => Ok(()),
        Err(error) => {
            out.truncate(begin);
            Err(error)
        }
    }
}

/// Without memory a part of it may be put.
#[tactic(auto, unfolding(crate::specs::Events::event))]
fn put_event(
    out: &mut Vec<u8>,
    kind: u8,
    flags: u16,
    body: &[u8],
    at: u64,
) -> Result<(), AllocError>
    requires { length body.now ≤ MOST_BODY_BYTES }
    ensures ok { OnOk result (out.new.items ≡ out.old.items ++ event kind flags body.now at) }
    ensures err { OnErr result (take (length out.old.items) out.new.items ≡ out.old.items) }
{
    let begin = out.len();
    put_unsummed(out, kind, flags, body, at)?;
    put_sum(out, begin)
}

/// Puts the checksum of all that stands from `begin` on, which ends the event that begins there. Without memory nothing is put.
pub fn put_sum(out: &mut Vec<u8>, begin: usize) -> Result<(), AllocError>
    requires { begin ≤ length out.old.items }
    ensures ok { OnOk result (out.new.items ≡ out.old.items ++ to_le_bytes w32 (crc32 (drop begin out.old.items))) }
    ensures err { OnErr result (out.new.items ≡ out.old.items) }
{
    let sum = crc32(&out[begin..]);
    out.extend_from_slice(&sum.to_le_bytes())
}

fn put_unsummed(
    out: &mut Vec<u8>,
    kind: u8,
    flags: u16,
    body: &[u8],
    at: u64,
) -> Result<(), AllocError>
    requires { length body.now ≤ MOST_BODY_BYTES }
    ensures ok { OnOk result (out.new.items ≡ out.old.items ++ unsummed kind flags body.now at) }
    ensures err { OnErr result (take (length out.old.items) out.new.items ≡ out.old.items) }
{
    put_header(out, kind, flags, body.len() as u32, at)?;
    out.extend_from_slice(body)?;
    Ok(())
}

/// Puts the 19 bytes of the header of an event whose body will have this many bytes. Without memory nothing is put.
pub fn put_header(
    out: &mut Vec<u8>,
    kind: u8,
    flags: u16,
    body_size: u32,
    at: u64,
) -> Result<(), AllocError>
    requires { body_size + 23 < 2 ^ 32 }
    ensures ok { OnOk result (out.new.items ≡ out.old.items ++ header_at kind flags body_size at) }
    ensures err { OnErr result (out.new.items ≡ out.old.items) }
{
    let size = body_size + 23;
    out.extend_from_slice(&header(kind, flags, size, position_behind(at, size)))
}

#[tactic(auto, unfolding(crate::specs::Events::header))]
fn header(kind: u8, flags: u16, size: u32, behind: u32) -> [u8; 19]
    ensures { result ≡ header kind flags size behind }
{
    let [a, b, c, d] = size.to_le_bytes();
    let [e, f, g, h] = behind.to_le_bytes();
    let [i, j] = flags.to_le_bytes();
    [0, 0, 0, 0, kind, 1, 0, 0, 0, a, b, c, d, e, f, g, h, i, j]
}
