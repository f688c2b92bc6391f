ghost use Rattle.std.specs.Prelude.{◌≡◌};
ghost use Rattle.schedule_text.specs.Cutting.{words_after};
ghost use Rattle.schedule_text.specs.Reading.{Gives};
ghost use Rattle.schedule_text.specs.Changes.{keep_of, suffix_of, cut_of};

use crate::cutting::{is, next_word, no_more_words, word};
use crate::faults::LineError;
use crate::numbers::call;
use ring_types::{CutAt, Keep};

fn keep(word: &[u8]) -> Result<Keep, LineError>
    ensures { Gives (λ k. k) result (keep_of word.now) }
{
    if is(word, b"none") {
        return Ok(Keep::Nothing);
    }
    if is(word, b"half") {
        return Ok(Keep::Half);
    }
    if is(word, b"all") {
        return Ok(Keep::All);
    }
    Err(LineError::NoForm)
}

#[tactic(auto, unfolding(crate::specs::Changes::suffix_of))]
fn suffix(verb: &[u8], call: u64, rest: &[u8]) -> Result<CutAt, LineError>
    ensures { Gives (λ c. c) result (suffix_of verb.now call (words_after rest.now)) }
{
    if is(verb, b"fail") {
        no_more_words(rest)?;
        return Ok(CutAt::Fail { call });
    }
    if is(verb, b"stop") {
        let (kept, rest) = word(rest)?;
        no_more_words(rest)?;
        let keep = keep(kept)?;
        return Ok(CutAt::Stop { call, keep });
    }
    Err(LineError::NoForm)
}

/// The suffix that is left of a line, or None where nothing is left.
#[tactic(auto, unfolding(crate::specs::Changes::cut_of))]
pub(crate) fn cut_at(rest: &[u8]) -> Result<Option<CutAt>, LineError>
    ensures { Gives (λ c. c) result (cut_of (words_after rest.now)) }
{
    let Some((verb, rest)) = next_word(rest) else {
        return Ok(None);
    };
    let (number, rest) = word(rest)?;
    let call = call(number)?;
    let suffix = suffix(verb, call, rest)?;
    Ok(Some(suffix))
}
