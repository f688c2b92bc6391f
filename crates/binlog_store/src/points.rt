//! Where a log ends, as its control file says it.
ghost use Rattle.std.specs.Prelude.{◌≡◌, ◌^◌, ◌<◌, ◌++◌, IfOk, IfSome, OnOk};
ghost use Rattle.binlog_store.specs.Damages as damage;
ghost use Rattle.binlog_store.specs.Mounting.{IsNamed};
ghost use Rattle.event_frame.specs.Forms.{body_of};
ghost use Rattle.event_frame.specs.Reading.{Gives};
ghost use Rattle.event_frame.specs.declared.field_readers.FieldFault.TheVariants as fault;
ghost use Rattle.binlog_store.specs.Points.{point_bytes, point_form};

use event_frame::{FieldFault, ended, u32_at, u64_at};
use ring_types::{LAST_FILE, List, Memory};
use std::alloc::Global;

/// Where a log ends on its disk: 24 bytes of `log.ctl`, each number with its lowest byte first.
#[derive(Clone, Copy, Debug, PartialEq, Eq)]
pub struct LogPoint {
    /// How many entries the log has.
    pub count: u64,
    /// The number of its last file, counted from 1.
    pub file: u32,
    /// Where the log ends in that file.
    pub end: u64,
    /// The greatest number that the last file of a log had which the control file told.
    pub highest: u32,
}

impl LogPoint {
    /// A point of these numbers.
    pub(crate) fn new(count: u64, file: u32, end: u64, highest: u32) -> LogPoint
        ensures is { result ≡ record { count = count; file = file; end = end; highest = highest } }
        ensures fits { (count < 2 ^ 64) × (end < 2 ^ 64) }
    {
        LogPoint {
            count,
            file,
            end,
            highest,
        }
    }
}

/// The bytes of a point.
pub(crate) fn bytes_of(alloc: Global, point: LogPoint) -> Result<Vec<u8>, Memory>
    ensures { IfOk result (λ it. it.items ≡ point_bytes point) }
{
    let mut out = Vec::new(alloc);
    out.extend_from_slice(&point.count.to_le_bytes())?;
    out.extend_from_slice(&point.file.to_le_bytes())?;
    out.extend_from_slice(&point.end.to_le_bytes())?;
    out.extend_from_slice(&point.highest.to_le_bytes())?;
    Ok(out)
}

/// The point that has these bytes: there is one if they are 24.
pub(crate) fn point_of(bytes: &[u8]) -> Result<LogPoint, FieldFault>
    ensures { Gives (λ p. p) result (body_of fault.Cut point_form bytes.now) }
{
    let (count, rest) = u64_at(bytes)?;
    let (file, rest) = u32_at(rest)?;
    let (end, rest) = u64_at(rest)?;
    let (highest, rest) = u32_at(rest)?;
    ended(rest)?;
    Ok(LogPoint {
        count,
        file,
        end,
        highest,
    })
}

/// Whether a log may end at the point: its last file has a number that files can have, and no greater one
/// than the greatest so far.
fn may_end(point: LogPoint) -> bool
    ensures { result ≡ damage.may_end point }
{
    1 <= point.file && point.file <= point.highest && u64::from(point.highest) <= LAST_FILE
}

/// The point that the bytes of a control file name, if they name one at which a log may end.
pub(crate) fn named_point(bytes: &[u8]) -> Option<LogPoint>
    ensures is { result ≡ damage.point_in bytes.now }
    ensures says { IfSome result (IsNamed bytes.now) }
{
    match point_of(bytes) {
        Ok(point) if may_end(point) => Some(point),
        _ => None,
    }
}
