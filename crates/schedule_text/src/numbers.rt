ghost use Rattle.std.specs.Prelude.{◌≡◌, ◌+◌, ◌-◌, ◌*◌, ◌<◌, ◌^◌};
ghost use Rattle.std.specs.List.{list_all};
ghost use Rattle.std.specs.Option.{SomeIff};
ghost use Rattle.schedule_text.specs.Reading.{Gives};
ghost use Rattle.schedule_text.specs.Numbers.{is_digit, is_decimal, number_after, number_of, node_of, call_of, negative_of, natural_of, integer_of};

use crate::cutting::provided;
use crate::faults::LineError;

pub(crate) fn is_digit(byte: u8) -> bool
    ensures { result ≡ is_digit byte }
{
    b'0' <= byte && byte <= b'9'
}

fn all_digits(word: &[u8]) -> bool
    ensures { result ≡ list_all is_digit word.now }
{
    word.iter().all(|byte| b'0' <= *byte && *byte <= b'9')
}

fn is_decimal(word: &[u8]) -> bool
    ensures { result ≡ is_decimal word.now }
{
    match word {
        [] => false,
        [first, others @ ..] => {
            if !all_digits(word) {
                return false;
            }
            *first != b'0' || others.is_empty()
        }
    }
}

/// A digit put behind the digits of a number; None above 64 bits.
fn with_digit(number: u64, digit: u8) -> Option<u64>
    ensures { SomeIff result (number * 10 + (digit - 48) < 2 ^ 64) (number * 10 + (digit - 48)) }
{
    match number.checked_mul(10) {
        Some(tens) => tens.checked_add(u64::from(digit.saturating_sub(b'0'))),
        None => None,
    }
}

fn number_of_digits(word: &[u8]) -> Option<u64>
    ensures { SomeIff result (number_after 0 word.now < 2 ^ 64) (number_after 0 word.now) }
{
    let mut number = 0;
    for digit in word {
        let Some(next) = with_digit(number, *digit) else {
            return None;
        };
        number = next;
    }
    Some(number)
}

/// A number of 64 bits.
#[tactic(auto, unfolding(crate::specs::Numbers::number_of))]
pub(crate) fn number(word: &[u8]) -> Result<u64, LineError>
    ensures { Gives (λ n. n) result (number_of word.now) }
{
    if !is_decimal(word) {
        return Err(LineError::NoForm);
    }
    match number_of_digits(word) {
        Some(number) => Ok(number),
        None => Err(LineError::NoForm),
    }
}

/// The number of a node, of 32 bits.
#[tactic(auto, unfolding(crate::specs::Numbers::node_of))]
pub(crate) fn node(word: &[u8]) -> Result<u32, LineError>
    ensures { Gives (λ n. n) result (node_of word.now) }
{
    let number = number(word)?;
    provided(number <= 0xFFFF_FFFF)?;
    Ok(number as u32)
}

/// The number of a disk call, from 1.
#[tactic(auto, unfolding(crate::specs::Numbers::call_of))]
pub(crate) fn call(word: &[u8]) -> Result<u64, LineError>
    ensures { Gives (λ n. n) result (call_of word.now) }
{
    let number = number(word)?;
    provided(0 < number)?;
    Ok(number)
}

#[tactic(auto, unfolding(crate::specs::Numbers::negative_of))]
fn negative(digits: &[u8]) -> Result<i64, LineError>
    ensures { Gives (λ n. n) result (negative_of digits.now) }
{
    let number = number(digits)?;
    provided(0 < number && number <= 0x8000_0000_0000_0000)?;
    match 0i64.checked_sub_unsigned(number) {
        Some(number) => Ok(number),
        None => Err(LineError::NoForm),
    }
}

#[tactic(auto, unfolding(crate::specs::Numbers::natural_of))]
fn natural(digits: &[u8]) -> Result<i64, LineError>
    ensures { Gives (λ n. n) result (natural_of digits.now) }
{
    let number = number(digits)?;
    provided(number < 0x8000_0000_0000_0000)?;
    Ok(number as i64)
}

/// A signed number of 64 bits.
#[tactic(auto, unfolding(crate::specs::Numbers::integer_of))]
pub(crate) fn integer(word: &[u8]) -> Result<i64, LineError>
    ensures { Gives (λ n. n) result (integer_of word.now) }
{
    match word {
        [] => Err(LineError::NoForm),
        [b'-', digits @ ..] => negative(digits),
        [_, ..] => natural(word),
    }
}
