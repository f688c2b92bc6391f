//! The fields of bodies, each with the fault that it is.
ghost use Rattle.std.specs.Prelude.{◌≡◌, ◌≤◌, ◌<◌, true, length, IfOk};
ghost use Rattle.std.specs.Int.{w64};
ghost use Rattle.event_frame.specs.Forms.{found, front_of, ended};
ghost use Rattle.event_frame.specs.Fields.{constant, number, server, packed, agrees};
ghost use Rattle.event_frame.specs.Reading.{Gives};
ghost use Rattle.ring_types.specs.Rows.{is_number};
ghost use Rattle.event_txn.specs.Tables.{bitmap, table_of_many};
ghost use Rattle.event_txn.specs.Rows.{nulls, bits_in, text_form};
ghost use Rattle.event_txn.specs.declared.faults.BodyFault.TheVariants.{Field, Table, Value};

use crate::faults::{BodyFault, fault_of};
use ring_types::LAST_GTID;

/// The bytes behind one text, the only one that may stand there.
#[tactic(auto, using(crate::proofs::FieldFaults::found_again, crate::proofs::FieldFaults::fault_again))]
pub fn constant_at<'a>(
    bytes: &'a [u8],
    text: &[u8],
    wrong: BodyFault,
) -> Result<&'a [u8], BodyFault>
    ensures { Gives (λ x. (tt, x.now)) result (found Field wrong ((constant text.now).at bytes.now)) }
{
    match event_frame::constant_at(bytes, text) {
        Ok(rest) => Ok(rest),
        Err(fault) => Err(fault_of(wrong, fault)),
    }
}

/// A server's 16 bytes.
pub fn server_at(bytes: &[u8]) -> Result<(u128, &[u8]), BodyFault>
    ensures { Gives (λ x. (x.0, x.1.now)) result (found Field Field (server.at bytes.now)) }
{
    match event_frame::server_at(bytes) {
        Ok(read) => Ok(read),
        Err(fault) => Err(fault_of(BodyFault::Field, fault)),
    }
}

/// The number of a GTID.
pub fn number_at(bytes: &[u8]) -> Result<(u64, &[u8]), BodyFault>
    ensures { Gives (λ x. (x.0, x.1.now)) result (found Field Field ((number w64 is_number).at bytes.now)) }
{
    let (number, rest) = long_at(bytes, BodyFault::Field)?;
    if number < 1 || number > LAST_GTID {
        return Err(BodyFault::Field);
    }
    Ok((number, rest))
}

/// Any eight bytes as a number.
pub fn long_at(bytes: &[u8], wrong: BodyFault) -> Result<(u64, &[u8]), BodyFault>
    ensures { Gives (λ x. (x.0, x.1.now)) result (found Field wrong ((number w64 (λ _. true)).at bytes.now)) }
{
    match event_frame::u64_at(bytes) {
        Ok(read) => Ok(read),
        Err(fault) => Err(fault_of(wrong, fault)),
    }
}

/// A packed integer in its shortest form.
#[tactic(auto, using(crate::proofs::FieldFaults::found_again, crate::proofs::FieldFaults::fault_again))]
pub fn packed_at(bytes: &[u8]) -> Result<(u64, &[u8]), BodyFault>
    ensures { Gives (λ x. (x.0, x.1.now)) result (found Field Field (packed.at bytes.now)) }
{
    match event_frame::packed_at(bytes) {
        Ok(read) => Ok(read),
        Err(fault) => Err(fault_of(BodyFault::Field, fault)),
    }
}

/// Nothing is taken: what was read is what is due, or not.
pub fn agrees_at(bytes: &[u8], is_due: bool, wrong: BodyFault) -> Result<&[u8], BodyFault>
    ensures { Gives (λ x. (tt, x.now)) result (found Field wrong ((agrees is_due).at bytes.now)) }
{
    if is_due { Ok(bytes) } else { Err(wrong) }
}

/// The only bits that may stand there, in whole bytes.
pub fn bitmap_at<'a>(
    bytes: &'a [u8],
    columns: usize,
    bits: u64,
    wrong: BodyFault,
) -> Result<&'a [u8], BodyFault>
    requires { columns ≤ 64 }
    ensures { Gives (λ x. (tt, x.now)) result (found Field wrong ((constant (bitmap columns bits)).at bytes.now)) }
{
    let size = (columns + 7) / 8;
    constant_at(bytes, &bits.to_le_bytes()[..size], wrong)
}

/// Nothing is left.
pub fn ended(rest: &[u8]) -> Result<(), BodyFault>
    ensures { Gives (λ u. u) result (ended Field rest.now) }
{
    match rest {
        [] => Ok(()),
        [_, ..] => Err(BodyFault::Field),
    }
}

/// The place of one of `count` tables.
pub fn table_at(bytes: &[u8], count: usize) -> Result<(usize, &[u8]), BodyFault>
    ensures given { Gives (λ x. (x.0, x.1.now)) result (found Field Table ((table_of_many count).at bytes.now)) }
    ensures place { IfOk result (λ x. x.0 < count) }
{
    if bytes.len() < 6 {
        return Err(BodyFault::Field);
    }
    let (front, rest) = bytes.split_at(6);
    if front[4..] != [0, 0] {
        return Err(BodyFault::Table);
    }
    let number = u32::from_le_bytes([front[0], front[1], front[2], front[3]]) as usize;
    if number < 1 || number > count {
        return Err(BodyFault::Table);
    }
    Ok((number - 1, rest))
}

/// A text of a column with this limit.
#[tactic(auto, using(crate::proofs::FieldFaults::found_again, crate::proofs::FieldFaults::fault_again))]
pub fn text_at(bytes: &[u8], limit: u16) -> Result<(&str, &[u8]), BodyFault>
    ensures { Gives (λ x. (x.0.now, x.1.now)) result (front_of Field (text_form limit) bytes.now) }
{
    let read = if limit < 256 {
        event_frame::short_text_at(bytes, limit)
    } else {
        event_frame::long_text_at(bytes, limit)
    };
    match read {
        Ok(read) => Ok(read),
        Err(fault) => Err(fault_of(BodyFault::Value, fault)),
    }
}

/// Which columns are Null, as bits.
pub fn nulls_at(bytes: &[u8], columns: usize) -> Result<(u64, &[u8]), BodyFault>
    requires { columns ≤ 64 }
    ensures { Gives (λ x. (x.0, x.1.now)) result (found Field Value ((nulls columns).at bytes.now)) }
{
    let size = (columns + 7) / 8;
    if bytes.len() < size {
        return Err(BodyFault::Field);
    }
    let (front, rest) = bytes.split_at(size);
    let bits = bits_in(front);
    if (columns < 64 && bits >= 1u64 << columns) || bits % 2 == 1 {
        return Err(BodyFault::Value);
    }
    Ok((bits, rest))
}

fn bits_in(bytes: &[u8]) -> u64
    requires { length bytes.now ≤ 8 }
    ensures { result ≡ bits_in bytes.now }
{
    let mut word = [0; 8];
    word[..bytes.len()].copy_from_slice(bytes);
    u64::from_le_bytes(word)
}
