ghost use Rattle.std.specs.Prelude.{◌≡◌, IsSome};
ghost use Rattle.schedule_text.specs.Cutting.{words_after, parts_after};
ghost use Rattle.schedule_text.specs.Reading.{Gives, provided};
ghost use Rattle.schedule_text.specs.Changes.{writing, change_at, named_of, change_of, next_words, changes_of};

use crate::cutting::{is, next_part, no_more_words, provided, text, word};
use crate::faults::LineError;
use crate::rows::{row, value};
use crate::suffixes::cut_at;
use ring_types::{Change, CutAt, List, Text, Value, is_name};
use std::alloc::Global;

/// The table's name, which must be a name.
fn table(alloc: Global, word: &[u8]) -> Result<Text, LineError>
    ensures { Gives (λ t. t) result (named_of word.now) }
{
    if !is_name(word) {
        return Err(LineError::NoForm);
    }
    text(Vec::from_slice(alloc, word)?)
}

fn writing(verb: &[u8], table: Text, row: Vec<Value>) -> Result<Change, LineError>
    ensures { Gives (λ c. c) result (writing verb.now table row.items) }
{
    provided(!row.is_empty())?;
    let row = List::from_vec(row);
    if is(verb, b"insert") {
        return Ok(Change::Insert { table, row });
    }
    if is(verb, b"update") {
        return Ok(Change::Update { table, row });
    }
    Err(LineError::NoForm)
}

#[tactic(auto, unfolding(crate::specs::Changes::change_at))]
fn change_at<'a>(
    alloc: Global,
    verb: &[u8],
    table: Text,
    rest: &'a [u8],
) -> Result<(Change, &'a [u8]), LineError>
    ensures { Gives (λ x. (x.0, words_after x.1.now)) result (change_at verb.now table (words_after rest.now)) }
{
    if is(verb, b"delete") {
        let (key, rest) = word(rest)?;
        let key = value(alloc, key)?;
        return Ok((Change::Delete { table, key }, rest));
    }
    let (values, rest) = row(alloc, rest)?;
    let change = writing(verb, table, values)?;
    Ok((change, rest))
}

#[tactic(auto, unfolding(crate::specs::Changes::change_of))]
fn change(alloc: Global, words: &[u8]) -> Result<(Change, &[u8]), LineError>
    ensures { Gives (λ x. (x.0, words_after x.1.now)) result (change_of (words_after words.now)) }
{
    let (verb, rest) = word(words)?;
    let (name, rest) = word(rest)?;
    let table = table(alloc, name)?;
    change_at(alloc, verb, table, rest)
}

/// That a space stands first, as it does in each part behind another.
fn spaced(part: &[u8]) -> Result<&[u8], LineError>
    ensures { Gives (λ x. words_after x.now) result (next_words part.now) }
{
    match part {
        [b' ', ..] => Ok(part),
        [..] => Err(LineError::NoForm),
    }
}

/// The changes in these words and in each further part, and the suffix of the last.
pub(crate) fn changes(
    alloc: Global,
    words: &[u8],
    parts: &[u8],
) -> Result<(Vec<Change>, Option<CutAt>), LineError>
    ensures { Gives (λ x. (x.0.items, x.1)) result (changes_of (words_after words.now) (parts_after parts.now)) }
{
    let mut changes = Vec::new(alloc);
    let mut words = words;
    let mut parts = parts;
    while let Some((part, after)) = next_part(parts) {
        let (change, rest) = change(alloc, words)?;
        no_more_words(rest)?;
        changes.push(change)?;
        words = spaced(part)?;
        parts = after;
    }
    let (change, rest) = change(alloc, words)?;
    let cut = cut_at(rest)?;
    changes.push(change)?;
    Ok((changes, cut))
}
