ghost use Rattle.std.specs.Prelude.{◌≡◌, Ok};
ghost use Rattle.ring_file.specs.Faults.{Gives, place, in_range};
ghost use Rattle.ring_file.specs.declared.faults.RingError.TheVariants.{Memory as OutOfMemory};

use ring_types::{BuildError, Duplicate, Memory, Text};
use std::alloc::Global;

/// Why a ring file is refused. A place is a key of the top table, as `home`, or of a table of an
/// array, as `node[2].kind`, where the tables of an array are counted from 1.
#[derive(Debug, PartialEq, Eq, Drop, thiserror::Error)]
pub enum RingError {
    #[error("not TOML")]
    NotToml,
    #[error("{} is missing", .place.as_str())]
    Missing { place: Text },
    #[error("{} is not known", .place.as_str())]
    Unknown { place: Text },
    #[error("{} has a value outside its range", .place.as_str())]
    Range { place: Text },
    #[error("{0}")]
    Build(BuildError),
    #[error("out of memory")]
    Memory,
}

impl Duplicate for RingError {
    fn copy(&self, alloc: Global) -> Result<RingError, Memory> {
        match self {
            RingError::NotToml => Ok(RingError::NotToml),
            RingError::Missing { place } => Ok(RingError::Missing {
                place: place.copy(alloc)?,
            }),
            RingError::Unknown { place } => Ok(RingError::Unknown {
                place: place.copy(alloc)?,
            }),
            RingError::Range { place } => Ok(RingError::Range {
                place: place.copy(alloc)?,
            }),
            RingError::Build(cause) => Ok(RingError::Build(*cause)),
            RingError::Memory => Ok(RingError::Memory),
        }
    }
}

impl From<Memory> for RingError {
    ghost from_gives = { λ _ e. e ≡ OutOfMemory };

    fn from(_fault: Memory) -> RingError {
        RingError::Memory
    }
}

/// A table of the document: the top one, or one of an array by its number from 1.
#[derive(Clone, Copy, Debug, PartialEq, Eq)]
pub(crate) enum Within {
    Top,
    Node(usize),
    Client(usize),
    Table(usize),
}

/// The text of a place.
pub(crate) fn place(alloc: Global, within: Within, key: &str) -> Result<Text, RingError>
    ensures { Gives (Ok (place within key.now)) result }
{
    let text = match within {
        Within::Top => String::from_str(alloc, key)?,
        Within::Node(number) => format!(in alloc; "node[{number}].{key}")?,
        Within::Client(number) => format!(in alloc; "client[{number}].{key}")?,
        Within::Table(number) => format!(in alloc; "table[{number}].{key}")?,
    };
    Ok(Text::from_string(text))
}

/// The value, or that the key has none in its range.
pub(crate) fn in_range<T: Drop>(
    alloc: Global,
    within: Within,
    key: &str,
    value: Option<T>,
) -> Result<T, RingError>
    ensures { Gives (in_range within key.now value) result }
{
    match value {
        Some(value) => Ok(value),
        None => Err(RingError::Range {
            place: place(alloc, within, key)?,
        }),
    }
}
