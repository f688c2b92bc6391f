ghost use Rattle.std.specs.Prelude.{◌≡◌, ◌∷◌, [], ◌<◌, ◌≤◌, false, length, bytes_eq, Some, IfSome, MatchOption};
ghost use Rattle.std.specs.Option.{option_map};
ghost use Rattle.std.specs.Str.{is_utf8};
ghost use Rattle.schedule_text.specs.Values.{utf8_of};
ghost use Rattle.schedule_text.specs.Cutting.{lines, pieces, pieces_after, words, words_after, parts_after, first_of};
ghost use Rattle.schedule_text.specs.Reading.{Gives, ended, provided};

use crate::faults::LineError;
use ring_types::Text;

/// The piece up to the first byte `at` outside quotes, and the rest from that byte on.
pub(crate) fn cut(bytes: &[u8], at: u8) -> (&[u8], &[u8])
    ensures pieces { result.0.now ∷ pieces_after at result.1.now ≡ pieces at false bytes.now }
    ensures rest { length result.1.now ≤ length bytes.now }
{
    let mut quoted = false;
    for (index, byte) in bytes.iter().enumerate() {
        if *byte == at && !quoted {
            return bytes.split_at(index);
        }
        if *byte == b'\'' {
            quoted = !quoted;
        }
    }
    bytes.split_at(bytes.len())
}

/// The first line, without its line feed, and what stands behind that; None where no line feed is left.
pub(crate) fn next_line(bytes: &[u8]) -> Option<(&[u8], &[u8])>
    ensures line { MatchOption result (lines bytes.now ≡ bytes.now ∷ []) (λ x. lines bytes.now ≡ x.0.now ∷ lines x.1.now) }
    ensures shorter { IfSome result (λ x. length x.1.now < length bytes.now) }
{
    for (index, byte) in bytes.iter().enumerate() {
        if *byte == b'\n' {
            return Some((&bytes[..index], &bytes[index + 1..]));
        }
    }
    None
}

/// The next word of what is left of a part, and the rest behind it; None where nothing is left.
pub(crate) fn next_word(rest: &[u8]) -> Option<(&[u8], &[u8])>
    ensures word { option_map (λ x. (x.0.now, words_after x.1.now)) result ≡ first_of (words_after rest.now) }
    ensures shorter { IfSome result (λ x. length x.1.now < length rest.now) }
{
    match rest {
        [] => None,
        [_, bytes @ ..] => Some(cut(bytes, b' ')),
    }
}

/// The next part of what is left of a line, and the rest behind it; None where nothing is left.
pub(crate) fn next_part(rest: &[u8]) -> Option<(&[u8], &[u8])>
    ensures part { option_map (λ x. (x.0.now, parts_after x.1.now)) result ≡ first_of (parts_after rest.now) }
    ensures shorter { IfSome result (λ x. length x.1.now < length rest.now) }
{
    match rest {
        [] => None,
        [_, bytes @ ..] => Some(cut(bytes, b';')),
    }
}

/// The next word, which must be there.
pub(crate) fn word(rest: &[u8]) -> Result<(&[u8], &[u8]), LineError>
    ensures { Gives (λ x. (x.0.now, words_after x.1.now)) result (first_of (words_after rest.now)) }
{
    match next_word(rest) {
        Some(found) => Ok(found),
        None => Err(LineError::NoForm),
    }
}

/// Refuses the line if a word is left.
pub(crate) fn no_more_words(rest: &[u8]) -> Result<(), LineError>
    ensures { Gives (λ x. tt) result (ended (words_after rest.now)) }
{
    match next_word(rest) {
        Some(_) => Err(LineError::NoForm),
        None => Ok(()),
    }
}

/// Refuses the line if a part is left.
pub(crate) fn no_more_parts(rest: &[u8]) -> Result<(), LineError>
    ensures { Gives (λ x. tt) result (ended (parts_after rest.now)) }
{
    match next_part(rest) {
        Some(_) => Err(LineError::NoForm),
        None => Ok(()),
    }
}

/// Whether the word is this one.
pub(crate) fn is(word: &[u8], other: &[u8]) -> bool
    ensures { result ≡ bytes_eq word.now other.now }
{
    word == other
}

/// Whether the bytes are UTF-8.
pub(crate) fn is_utf8(bytes: &[u8]) -> bool
    ensures { result ≡ is_utf8 bytes.now }
{
    match std::str::from_utf8(bytes) {
        Ok(_) => true,
        Err(_) => false,
    }
}

/// The text of bytes that are UTF-8.
pub(crate) fn text(bytes: Vec<u8>) -> Result<Text, LineError>
    ensures { Gives (λ t. t) result (utf8_of bytes.items) }
{
    match String::from_utf8(bytes) {
        Ok(text) => Ok(Text::from_string(text)),
        Err(_) => Err(LineError::NoForm),
    }
}

/// Refuses the line unless `test` holds.
pub(crate) fn provided(test: bool) -> Result<(), LineError>
    ensures { Gives (λ x. tt) result (provided test) }
{
    if test { Ok(()) } else { Err(LineError::NoForm) }
}
