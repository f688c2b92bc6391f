//! How the files of a log end, as its point has it.
ghost use Rattle.std.specs.Prelude.{◌≡◌, ◌≤◌, length};
ghost use Rattle.edge_traits.specs.FileStates.{Contents};
ghost use Rattle.edge_traits.specs.declared.disks.FileId.TheVariants as id;
ghost use Rattle.binlog_store.specs.Damages as damage;

use crate::points::LogPoint;
use ring_types::first_of;

/// How a binary log file ends.
#[derive(Clone, Copy)]
pub(crate) enum Ending {
    /// Another file follows it.
    Earlier,
    /// It is the last one, and ends before the log does.
    TooShort,
    /// It is the last one, and reaches to the end of the log.
    Reaching,
}

/// How a file of this number and length ends, if the log ends at the point.
pub(crate) fn ending_of(point: LogPoint, number: u32, long: u64) -> Ending
    ensures { (c : Contents) → long ≡ length (c (id.Binlog number)) → result ≡ damage.ending_of point c number }
{
    if number < point.file {
        Ending::Earlier
    } else if long < point.end {
        Ending::TooShort
    } else {
        Ending::Reaching
    }
}

/// What of a file's bytes stands before the end of the log.
pub(crate) fn before_end(point: LogPoint, number: u32, bytes: &[u8]) -> &[u8]
    requires { number ≤ point.file }
    ensures { (c : Contents) → c (id.Binlog number) ≡ bytes.now → result.now ≡ damage.before_end point c (id.Binlog number) }
{
    if number < point.file {
        bytes
    } else {
        first_of(bytes, point.end)
    }
}
