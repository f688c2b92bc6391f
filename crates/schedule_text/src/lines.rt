ghost use Rattle.std.specs.Prelude.{◌≡◌};
ghost use Rattle.schedule_text.specs.Cutting.{words, words_after, parts_after};
ghost use Rattle.schedule_text.specs.Reading.{Gives};
ghost use Rattle.schedule_text.specs.Lines.{Said, input_of, act_of, at_node, crash_of, give_of, transfer_of, write_of, short_of, form_of, said_of, is_silent, line_of};

use crate::changes::changes;
use crate::cutting::{cut, is, is_utf8, no_more_parts, no_more_words, provided, word};
use crate::faults::LineError;
use crate::numbers::{node, number};
use crate::suffixes::cut_at;
use ring_model::{Input, Line};
use ring_types::{CutAt, List, NodeId};
use std::alloc::Global;

/// What a line says: its event without the line's number.
pub(crate) type Said = (Line, Option<CutAt>);

fn input(verb: &[u8], node: u32) -> Result<Line, LineError>
    ensures { Gives (λ l. l) result (input_of verb.now node) }
{
    let node = NodeId(node);
    if is(verb, b"elect") {
        return Ok(Line::At {
            node,
            input: Input::Elect,
        });
    }
    if is(verb, b"beat") {
        return Ok(Line::At {
            node,
            input: Input::Beat,
        });
    }
    if is(verb, b"rotate") {
        return Ok(Line::At {
            node,
            input: Input::Rotate { client: 0 },
        });
    }
    if is(verb, b"cancel") {
        return Ok(Line::At {
            node,
            input: Input::Cancel { client: 0 },
        });
    }
    Err(LineError::NoForm)
}

fn act(verb: &[u8], number: u32) -> Result<Line, LineError>
    ensures { Gives (λ l. l) result (act_of verb.now number) }
{
    let node = NodeId(number);
    if is(verb, b"next") {
        return Ok(Line::Next(node));
    }
    if is(verb, b"skip") {
        return Ok(Line::Skip(node));
    }
    if is(verb, b"again") {
        return Ok(Line::Again(node));
    }
    if is(verb, b"restart") {
        return Ok(Line::Restart(node));
    }
    input(verb, number)
}

#[tactic(auto, unfolding(crate::specs::Lines::at_node))]
fn at_node(verb: &[u8], number: &[u8], rest: &[u8]) -> Result<Said, LineError>
    ensures { Gives (λ s. s) result (at_node verb.now number.now (words_after rest.now)) }
{
    let node = node(number)?;
    let what = act(verb, node)?;
    let cut = cut_at(rest)?;
    Ok((what, cut))
}

#[tactic(auto, unfolding(crate::specs::Lines::crash_of))]
fn crash(number: &[u8], rest: &[u8]) -> Result<Said, LineError>
    ensures { Gives (λ s. s) result (crash_of number.now (words_after rest.now)) }
{
    let node = node(number)?;
    no_more_words(rest)?;
    Ok((Line::Crash(NodeId(node)), None))
}

#[tactic(auto, unfolding(crate::specs::Lines::give_of))]
fn give(message: &[u8], rest: &[u8]) -> Result<Said, LineError>
    ensures { Gives (λ s. s) result (give_of message.now (words_after rest.now)) }
{
    let message = number(message)?;
    let cut = cut_at(rest)?;
    Ok((Line::Give(message), cut))
}

#[tactic(auto, unfolding(crate::specs::Lines::transfer_of))]
fn transfer(number: &[u8], rest: &[u8]) -> Result<Said, LineError>
    ensures { Gives (λ s. s) result (transfer_of number.now (words_after rest.now)) }
{
    let from = node(number)?;
    let (second, rest) = word(rest)?;
    let target = node(second)?;
    let cut = cut_at(rest)?;
    let input = Input::Transfer { client: 0, target };
    Ok((
        Line::At {
            node: NodeId(from),
            input,
        },
        cut,
    ))
}

#[tactic(auto, unfolding(crate::specs::Lines::write_of))]
fn write(alloc: Global, number: &[u8], rest: &[u8], parts: &[u8]) -> Result<Said, LineError>
    ensures { Gives (λ s. s) result (write_of number.now (words_after rest.now) (parts_after parts.now)) }
{
    let node = node(number)?;
    let (changes, cut) = changes(alloc, rest, parts)?;
    let input = Input::Write {
        client: 0,
        changes: List::from_vec(changes),
    };
    Ok((
        Line::At {
            node: NodeId(node),
            input,
        },
        cut,
    ))
}

#[tactic(auto, unfolding(crate::specs::Lines::short_of))]
fn short(verb: &[u8], number: &[u8], rest: &[u8]) -> Result<Said, LineError>
    ensures { Gives (λ s. s) result (short_of verb.now number.now (words_after rest.now)) }
{
    if is(verb, b"crash") {
        return crash(number, rest);
    }
    if is(verb, b"deliver") {
        return give(number, rest);
    }
    if is(verb, b"transfer") {
        return transfer(number, rest);
    }
    at_node(verb, number, rest)
}

#[tactic(auto, unfolding(crate::specs::Lines::said_of, crate::specs::Lines::form_of))]
fn said(alloc: Global, text: &[u8]) -> Result<Said, LineError>
    ensures { Gives (λ s. s) result (said_of text.now) }
{
    let (first, parts) = cut(text, b';');
    let (verb, rest) = cut(first, b' ');
    let (number, rest) = word(rest)?;
    if is(verb, b"write") {
        return write(alloc, number, rest, parts);
    }
    no_more_parts(parts)?;
    short(verb, number, rest)
}

fn is_silent(text: &[u8]) -> bool
    ensures { result ≡ is_silent text.now }
{
    match text {
        [] => true,
        [first, ..] => *first == b'#',
    }
}

/// What a line stands for: no event, or one.
#[tactic(auto, unfolding(crate::specs::Lines::line_of))]
pub(crate) fn line(alloc: Global, text: &[u8]) -> Result<Option<Said>, LineError>
    ensures { Gives (λ s. s) result (line_of text.now) }
{
    provided(is_utf8(text))?;
    if is_silent(text) {
        return Ok(None);
    }
    let said = said(alloc, text)?;
    Ok(Some(said))
}
