ghost use Rattle.std.specs.Prelude.{◌≡◌};
ghost use Rattle.schedule_text.specs.declared.faults.LineError.TheVariants.{Memory};

use std::alloc::{AllocError, AllocFailed};

/// Why a schedule was not read.
#[derive(Clone, Copy, Debug, PartialEq, Eq, thiserror::Error)]
pub enum ScheduleError {
    /// The first bad line, counted from 1. `why` is 1 where it is the last line and has no line feed,
    /// and 2 where it has none of the forms or is not UTF-8.
    #[error("line {line} is bad ({why})")]
    BadLine { line: u64, why: u8 },
    #[error("out of memory")]
    Memory,
}

/// Why a line, or a piece of one, was not read.
#[derive(Clone, Copy, Drop)]
pub(crate) enum LineError {
    NoForm,
    Memory,
}

impl From<AllocError> for LineError {
    ghost from_gives = { λ _ e. e ≡ Memory };

    fn from(_error: AllocError) -> LineError {
        LineError::Memory
    }
}

impl<T: Drop> From<AllocFailed<T>> for LineError {
    ghost from_gives = { λ _ e. e ≡ Memory };

    fn from(_error: AllocFailed<T>) -> LineError {
        LineError::Memory
    }
}
