//! Events of MySQL's binary log, version 4: header, body and checksum; and the fields of bodies.
//!
//! An event is a header of 19 bytes, a body and a CRC-32 of all before it. [`read_event`] finds the event
//! at the front of some bytes and gives its kind, its flags and where its body lies, or the first of five
//! refusals. [`write_event`] puts an event whose body is at hand. A writer that makes the body in place
//! calls [`put_header`], puts the body's fields and ends with [`put_sum`].
//!
//! What kinds and bodies mean is for the crates above. They state a body as a form, a list of fields
//! (`specs/Forms.antt`, `specs/Fields.antt`), and read it with the functions `.._at`: each takes its field
//! from the front of the bytes and gives the bytes behind it. `proofs/Forms.antt` shows for every form at
//! once that what is spelled is read, that what is read is spelled so, and which fault is the first.
#![tactic(auto)]

mod checksums;
mod field_readers;
mod frames;
mod laws;
mod table;

pub use checksums::crc32;
pub use field_readers::{
    FieldFault, constant_at, ended, long_text_at, packed_at, server_at, short_text_at, u8_at,
    u16_at, u32_at, u64_at,
};
pub use frames::{
    Event, FrameError, MOST_BODY_BYTES, put_header, put_sum, read_event, write_event,
};
pub use laws::{law_event_again, law_event_takes};
