ghost use Rattle.std.specs.Prelude.{◌≡◌, ◌+◌, ◌/◌, ◌%◌, ◌≤◌, ◌++◌, length, take, IfOk, OnOk, OnErr, Some, None, if◌then◌else◌};
ghost use Rattle.std.specs.List.{list_all};
ghost use Rattle.event_frame.specs.Forms.{body_of, found};
ghost use Rattle.event_frame.specs.Reading.{Gives};
ghost use Rattle.event_frame.specs.declared.field_readers.FieldFault.TheVariants as fault;
ghost use Rattle.ring_types.specs.declared.limits.TheConstants.{LAST_FILE};
ghost use Rattle.event_control.specs.Bodies.{rotate_form, rotate_body, file_number, six_digits, is_digit, digits_value};
ghost use Rattle.event_control.specs.ControlEvents.{rotate_event, rotation_at};
ghost use Rattle.event_control.specs.declared.faults.ControlError.TheVariants.{Body};

use crate::due_events::{ROTATE, body_in, due_at};
use crate::faults::ControlError;
use event_frame::{FieldFault, constant_at, ended, put_header, put_sum};
use ring_types::Memory;

/// The event that ends a file. `next_file` is the number in the next file's name, `size` the event's size.
#[derive(Clone, Copy, Debug, PartialEq, Eq)]
pub struct Rotation {
    pub next_file: u32,
    pub size: u64,
}

/// The ROTATE at the front of the bytes, which stand at this offset of their file.
pub fn read_rotate(bytes: &[u8], at: u64) -> Result<Rotation, ControlError>
    ensures given { result ≡ rotation_at bytes.now at }
    ensures end { IfOk result (λ r. r.size ≤ length bytes.now) }
{
    let event = due_at(bytes, ROTATE, 0, at)?;
    let next_file = next_in(body_in(&event, bytes))?;
    Ok(Rotation {
        next_file,
        size: event.size,
    })
}

/// What the body says: the number of the next file.
fn next_in(body: &[u8]) -> Result<u32, ControlError>
    ensures { Gives (λ file. file) result (body_of Body rotate_form body.now) }
{
    let rest = constant_at(body, &4u64.to_le_bytes())?;
    let rest = constant_at(rest, b"binlog.")?;
    let (file, rest) = file_number_at(rest)?;
    ended(rest)?;
    Ok(file)
}

/// The number that six digits spell, and the bytes behind them.
fn file_number_at(bytes: &[u8]) -> Result<(u32, &[u8]), FieldFault>
    ensures { Gives (λ x. (x.0, x.1.now)) result (found fault.Cut fault.Wrong (file_number.at bytes.now)) }
{
    if bytes.len() < 6 {
        return Err(FieldFault::Cut);
    }
    let (front, rest) = bytes.split_at(6);
    match digits_value(front) {
        Some(number) => Ok((number, rest)),
        None => Err(FieldFault::Wrong),
    }
}

/// The number that decimal digits spell, if all are.
fn digits_value(digits: &[u8]) -> Option<u32>
    requires { length digits.now ≤ 6 }
    ensures { result ≡ (if list_all is_digit digits.now then Some (digits_value digits.now) else None) }
{
    let mut number = 0;
    for digit in digits {
        if *digit < b'0' || *digit > b'9' {
            return None;
        }
        number = 10 * number + (*digit - b'0') as u32;
    }
    Some(number)
}

/// Puts the ROTATE that names this next file; it stands at this offset of its file.
pub fn write_rotate(out: &mut Vec<u8>, next_file: u32, at: u64) -> Result<(), Memory>
    requires { next_file ≤ LAST_FILE }
    ensures ok { OnOk result (out.new.items ≡ out.old.items ++ rotate_event next_file at) }
    ensures err { OnErr result (out.new.items ≡ out.old.items) }
{
    let begin = out.len();
    match put_event(out, next_file, at) {
        Ok(()) => Ok(()),
        Err(error) => {
            out.truncate(begin);
            Err(error)
        }
    }
}

/// Without memory a part of it may be put.
fn put_event(out: &mut Vec<u8>, next_file: u32, at: u64) -> Result<(), Memory>
    ensures ok { OnOk result (out.new.items ≡ out.old.items ++ rotate_event next_file at) }
    ensures err { OnErr result (take (length out.old.items) out.new.items ≡ out.old.items) }
{
    let begin = out.len();
    put_header(out, ROTATE, 0, 21, at)?;
    put_body(out, next_file)?;
    put_sum(out, begin)
}

/// Without memory a part of it may be put.
fn put_body(out: &mut Vec<u8>, next_file: u32) -> Result<(), Memory>
    ensures ok { OnOk result (out.new.items ≡ out.old.items ++ rotate_body next_file) }
    ensures err { OnErr result (take (length out.old.items) out.new.items ≡ out.old.items) }
{
    out.extend_from_slice(&4u64.to_le_bytes())?;
    out.extend_from_slice(b"binlog.")?;
    out.extend_from_slice(&six_digits(next_file as u64))?;
    Ok(())
}

/// The digits that a file's name has behind `binlog.`: the six lowest of its number.
pub fn six_digits(number: u64) -> [u8; 6]
    ensures { result ≡ six_digits number }
{
    [
        digit(number, 100_000),
        digit(number, 10_000),
        digit(number, 1_000),
        digit(number, 100),
        digit(number, 10),
        digit(number, 1),
    ]
}

fn digit(number: u64, weight: u64) -> u8
    requires { 1 ≤ weight }
    ensures { result ≡ 48 + number / weight % 10 }
{
    b'0' + (number / weight % 10) as u8
}
