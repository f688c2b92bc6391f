ghost use Rattle.std.specs.Prelude.{◌≡◌, map, string_bytes, Ok};
ghost use Rattle.myraft_run.specs.Words as spec;
ghost use Rattle.myraft_run.specs.Inputs.{Gives};

use crate::stops::{File, Stop};
use ring_types::Text;
use std::alloc::Global;

/// The names of the two files that the words of a replay give.
#[derive(Drop)]
pub(crate) struct Names {
    pub(crate) ring: Text,
    pub(crate) schedule: Text,
}

fn is_dashed(name: &str) -> bool
    ensures { result ≡ spec.is_dashed name.now }
{
    match name.as_bytes() {
        [] => false,
        [first, ..] => *first == b'-',
    }
}

fn text(alloc: Global, name: &str) -> Result<Text, Stop>
    ensures { Gives (Ok name.now) result }
{
    match String::from_str(alloc, name) {
        Ok(name) => Ok(Text::from_string(name)),
        Err(_) => Err(Stop::Memory),
    }
}

fn named(alloc: Global, verb: &str, ring: &str, schedule: &str) -> Result<Names, Stop>
    ensures { Gives (spec.named verb.now ring.now schedule.now) result }
{
    if verb != "replay" || is_dashed(ring) || is_dashed(schedule) {
        return Err(Stop::Unbuilt);
    }
    Ok(Names {
        ring: text(alloc, ring)?,
        schedule: text(alloc, schedule)?,
    })
}

/// The names that the words give.
pub(crate) fn names_of(alloc: Global, words: &[String]) -> Result<Names, Stop>
    ensures { Gives (spec.names_of (map string_bytes words.now)) result }
{
    match words {
        [verb, ring, schedule] => named(alloc, verb.as_str(), ring.as_str(), schedule.as_str()),
        _ => Err(Stop::Unbuilt),
    }
}

/// The name of a file among the words; empty where they name none.
pub(crate) fn name_in(words: &[String], file: File) -> &str
    ensures { result.now ≡ spec.name_in (map string_bytes words.now) file }
{
    match words {
        [_, ring, schedule] => match file {
            File::Ring => ring.as_str(),
            File::Schedule => schedule.as_str(),
        },
        _ => "",
    }
}
