ghost use Rattle.std.specs.Prelude.{◌≡◌, ◌<◌, length, IfOk, IfSome};
ghost use Rattle.schedule_text.specs.Cutting.{words_after};
ghost use Rattle.schedule_text.specs.Reading.{Gives};
ghost use Rattle.schedule_text.specs.Values.{is_escaped, hex_of, escape_of, bytes_of, Begins, text_of, value_of};
ghost use Rattle.schedule_text.specs.Changes.{begins_suffix, row_of};

use crate::cutting::{is, next_word, provided, text};
use crate::faults::LineError;
use crate::numbers::{integer, is_digit};
use ring_types::{Text, Value};
use std::alloc::Global;

fn is_escaped(byte: u8) -> bool
    ensures { result ≡ is_escaped byte }
{
    byte < 32 || byte == 127 || byte == b'\'' || byte == b'\\'
}

fn hex(byte: u8) -> Result<u8, LineError>
    ensures { Gives (λ h. h) result (hex_of byte) }
{
    if is_digit(byte) {
        return Ok(byte - b'0');
    }
    if b'a' <= byte && byte <= b'f' {
        return Ok(byte - 87);
    }
    Err(LineError::NoForm)
}

#[tactic(auto, unfolding(crate::specs::Values::escape_of))]
fn escape(x: u8, high: u8, low: u8) -> Result<u8, LineError>
    ensures { Gives (λ b. b) result (escape_of x high low) }
{
    provided(x == b'x')?;
    let high = hex(high)?;
    let low = hex(low)?;
    let byte = high * 16 + low;
    provided(is_escaped(byte))?;
    Ok(byte)
}

/// What stands first of a text: None where it ends, or a byte and the rest behind it.
fn letter(rest: &[u8]) -> Result<Option<(u8, &[u8])>, LineError>
    ensures byte { Begins result rest.now }
    ensures shorter { IfOk result (λ found. IfSome found (λ x. length x.1.now < length rest.now)) }
{
    match rest {
        [] => Err(LineError::NoForm),
        [b'\''] => Ok(None),
        [b'\\', x, high, low, after @ ..] => {
            let byte = escape(*x, *high, *low)?;
            Ok(Some((byte, after)))
        }
        [byte, after @ ..] => {
            if is_escaped(*byte) {
                return Err(LineError::NoForm);
            }
            Ok(Some((*byte, after)))
        }
    }
}

fn bytes(alloc: Global, quoted: &[u8]) -> Result<Vec<u8>, LineError>
    ensures { Gives (λ v. v.items) result (bytes_of quoted.now) }
{
    let mut bytes = Vec::new(alloc);
    let mut rest = quoted;
    while let Some((byte, after)) = letter(rest)? {
        bytes.push(byte)?;
        rest = after;
    }
    Ok(bytes)
}

#[tactic(auto, unfolding(crate::specs::Values::text_of))]
fn quoted_text(alloc: Global, quoted: &[u8]) -> Result<Text, LineError>
    ensures { Gives (λ t. t) result (text_of quoted.now) }
{
    let bytes = bytes(alloc, quoted)?;
    text(bytes)
}

#[tactic(auto, unfolding(crate::specs::Values::value_of))]
pub(crate) fn value(alloc: Global, word: &[u8]) -> Result<Value, LineError>
    ensures { Gives (λ v. v) result (value_of word.now) }
{
    match word {
        [] => Err(LineError::NoForm),
        [b'\'', quoted @ ..] => Ok(Value::Text(quoted_text(alloc, quoted)?)),
        [_, ..] => {
            if is(word, b"null") {
                return Ok(Value::Null);
            }
            Ok(Value::Int(integer(word)?))
        }
    }
}

fn begins_suffix(word: &[u8]) -> bool
    ensures { result ≡ begins_suffix word.now }
{
    is(word, b"stop") || is(word, b"fail")
}

/// The values up to a suffix or the end of the part, and what is left.
pub(crate) fn row(alloc: Global, words: &[u8]) -> Result<(Vec<Value>, &[u8]), LineError>
    ensures { Gives (λ x. (x.0.items, words_after x.1.now)) result (row_of (words_after words.now)) }
{
    let mut values = Vec::new(alloc);
    let mut rest = words;
    while let Some((word, after)) = next_word(rest) {
        if begins_suffix(word) {
            break;
        }
        values.push(value(alloc, word)?)?;
        rest = after;
    }
    Ok((values, rest))
}
