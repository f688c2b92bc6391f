//! Where a redo ends, as its control file says it.
ghost use Rattle.std.specs.Prelude.{◌≡◌, IfOk, IfSome};
ghost use Rattle.std.specs.Int.{w32};
ghost use Rattle.event_frame.specs.Fields.{number};
ghost use Rattle.event_frame.specs.Forms.{body_of, found};
ghost use Rattle.event_frame.specs.Reading.{Gives};
ghost use Rattle.event_frame.specs.declared.field_readers.FieldFault.TheVariants as fault;
ghost use Rattle.engine_redo.specs.Mounting.{IsNamed};
ghost use Rattle.engine_redo.specs.Points.{is_redo_file, point_bytes, point_form, point_in};

use event_frame::{FieldFault, ended, u32_at, u64_at};
use ring_types::Memory;
use std::alloc::Global;

/// Where a redo ends on its disk: 12 bytes of `engine.ctl`, each number with its lowest byte first.
#[derive(Clone, Copy, Debug, PartialEq, Eq)]
pub struct RedoPoint {
    /// The number of the redo file, 1 or 2.
    pub number: u32,
    /// Where the redo ends in that file.
    pub end: u64,
}

/// The bytes of a point.
pub(crate) fn bytes_of(alloc: Global, point: RedoPoint) -> Result<Vec<u8>, Memory>
    ensures { IfOk result (λ it. it.items ≡ point_bytes point) }
{
    let mut out = Vec::new(alloc);
    out.extend_from_slice(&point.number.to_le_bytes())?;
    out.extend_from_slice(&point.end.to_le_bytes())?;
    Ok(out)
}

/// Whether a redo file has this number.
fn is_redo_file(number: u32) -> bool
    ensures { result ≡ is_redo_file number }
{
    1 <= number && number <= 2
}

/// The number of a redo file.
fn number_at(bytes: &[u8]) -> Result<(u32, &[u8]), FieldFault>
    ensures { Gives (λ x. (x.0, x.1.now)) result (found fault.Cut fault.Wrong ((number w32 is_redo_file).at bytes.now)) }
{
    let (number, rest) = u32_at(bytes)?;
    if is_redo_file(number) {
        Ok((number, rest))
    } else {
        Err(FieldFault::Wrong)
    }
}

/// The point that has these bytes.
fn point_of(bytes: &[u8]) -> Result<RedoPoint, FieldFault>
    ensures { Gives (λ p. p) result (body_of fault.Cut point_form bytes.now) }
{
    let (number, rest) = number_at(bytes)?;
    let (end, rest) = u64_at(rest)?;
    ended(rest)?;
    Ok(RedoPoint { number, end })
}

/// The point that the bytes of a control file name, if they name one.
pub(crate) fn named_point(bytes: &[u8]) -> Option<RedoPoint>
    ensures is { result ≡ point_in bytes.now }
    ensures says { IfSome result (IsNamed bytes.now) }
{
    point_of(bytes).ok()
}
