ghost use Rattle.std.specs.Prelude.{◌≡◌};
ghost use Rattle.myraft_run.specs.Stops as spec;

use ring_file::RingError;

/// The exit status of the program.
#[derive(Clone, Copy, Debug, PartialEq, Eq)]
pub struct Status(pub u8);

/// One of the two files that the words name.
#[derive(Clone, Copy, Debug, PartialEq, Eq)]
pub enum File {
    Ring,
    Schedule,
}

/// Why the program stops before its job is done.
#[derive(Debug, PartialEq, Eq, Drop)]
pub enum Stop {
    /// The words are no form that is built, or an event of the schedule has a suffix.
    Unbuilt,
    NoFile(File),
    TooLarge(File),
    ReadFault(File),
    BadRing(RingError),
    /// The line is outside the grammar, or its event names no node or message that is there.
    BadLine(u64),
    WriteFault,
    Memory,
}

/// The status with which the program ends where it stops so.
pub(crate) fn status_of(stop: &Stop) -> Status
    ensures { result.0 ≡ spec.status_of stop.now }
{
    match stop {
        Stop::NoFile(_) => Status(3),
        Stop::TooLarge(_) => Status(4),
        Stop::ReadFault(_) => Status(5),
        Stop::BadRing(_) => Status(6),
        Stop::BadLine(_) => Status(7),
        Stop::WriteFault => Status(8),
        Stop::Memory => Status(13),
        Stop::Unbuilt => Status(15),
    }
}
