ghost use Rattle.std.specs.Prelude.{◌≡◌, ◌∷◌, ◌^◌, ◌++◌, [], Ok, Err, true, if◌then◌else◌, nat_le};
ghost use Rattle.std.specs.Int.{w8, w16, w32, w64, from_le_bytes};
ghost use Rattle.std.specs.Str.{is_utf8};
ghost use Rattle.event_frame.specs.Forms.{found, ended};
ghost use Rattle.event_frame.specs.Fields.{constant, number, server, packed, taken, text, text_fits};
ghost use Rattle.event_frame.specs.Reading.{Gives};
ghost use Rattle.event_frame.specs.declared.field_readers.FieldFault.TheVariants as fault;

/// Why a field is not there.
#[derive(Clone, Copy, Debug, PartialEq, Eq, thiserror::Error)]
pub enum FieldFault {
    /// Fewer bytes are left than the field takes, as far as its first bytes tell.
    #[error("the field is cut")]
    Cut,
    /// The field is whole and its bytes are not allowed.
    #[error("the field has no such value")]
    Wrong,
}

/// The bytes behind one text, the only one that may stand there.
pub fn constant_at<'a>(bytes: &'a [u8], text: &[u8]) -> Result<&'a [u8], FieldFault>
    ensures { Gives (λ x. (tt, x.now)) result (found fault.Cut fault.Wrong ((constant text.now).at bytes.now)) }
{
    if bytes.len() < text.len() {
        return Err(FieldFault::Cut);
    }
    let (front, rest) = bytes.split_at(text.len());
    if front == text {
        Ok(rest)
    } else {
        Err(FieldFault::Wrong)
    }
}

/// Nothing is left.
pub fn ended(rest: &[u8]) -> Result<(), FieldFault>
    ensures { Gives (λ u. u) result (ended fault.Cut rest.now) }
{
    match rest {
        [] => Ok(()),
        [_, ..] => Err(FieldFault::Cut),
    }
}

/// Any byte, and the bytes behind it.
pub fn u8_at(bytes: &[u8]) -> Result<(u8, &[u8]), FieldFault>
    ensures { Gives (λ x. (x.0, x.1.now)) result (found fault.Cut fault.Wrong ((number w8 (λ _. true)).at bytes.now)) }
{
    if bytes.len() < 1 {
        return Err(FieldFault::Cut);
    }
    let (front, rest) = bytes.split_at(1);
    Ok((front[0], rest))
}

/// Any number of two bytes, lowest first, and the bytes behind it.
pub fn u16_at(bytes: &[u8]) -> Result<(u16, &[u8]), FieldFault>
    ensures { Gives (λ x. (x.0, x.1.now)) result (found fault.Cut fault.Wrong ((number w16 (λ _. true)).at bytes.now)) }
{
    if bytes.len() < 2 {
        return Err(FieldFault::Cut);
    }
    let (front, rest) = bytes.split_at(2);
    Ok((u16::from_le_bytes([front[0], front[1]]), rest))
}

/// Any number of four bytes, lowest first, and the bytes behind it.
pub fn u32_at(bytes: &[u8]) -> Result<(u32, &[u8]), FieldFault>
    ensures { Gives (λ x. (x.0, x.1.now)) result (found fault.Cut fault.Wrong ((number w32 (λ _. true)).at bytes.now)) }
{
    if bytes.len() < 4 {
        return Err(FieldFault::Cut);
    }
    let (front, rest) = bytes.split_at(4);
    Ok((
        u32::from_le_bytes([front[0], front[1], front[2], front[3]]),
        rest,
    ))
}

/// Any number of eight bytes, lowest first, and the bytes behind it.
pub fn u64_at(bytes: &[u8]) -> Result<(u64, &[u8]), FieldFault>
    ensures { Gives (λ x. (x.0, x.1.now)) result (found fault.Cut fault.Wrong ((number w64 (λ _. true)).at bytes.now)) }
{
    if bytes.len() < 8 {
        return Err(FieldFault::Cut);
    }
    let (front, rest) = bytes.split_at(8);
    let number = u64::from_le_bytes([
        front[0], front[1], front[2], front[3], front[4], front[5], front[6], front[7],
    ]);
    Ok((number, rest))
}

/// A server's 16 bytes, highest first, and the bytes behind them.
pub fn server_at(bytes: &[u8]) -> Result<(u128, &[u8]), FieldFault>
    ensures { Gives (λ x. (x.0, x.1.now)) result (found fault.Cut fault.Wrong (server.at bytes.now)) }
{
    if bytes.len() < 16 {
        return Err(FieldFault::Cut);
    }
    let (front, rest) = bytes.split_at(16);
    let server = u128::from_be_bytes([
        front[0], front[1], front[2], front[3], front[4], front[5], front[6], front[7], front[8],
        front[9], front[10], front[11], front[12], front[13], front[14], front[15],
    ]);
    Ok((server, rest))
}

/// A packed integer in its shortest form (MySQL's length-encoded integer), and the bytes behind it.
pub fn packed_at(bytes: &[u8]) -> Result<(u64, &[u8]), FieldFault>
    ensures { Gives (λ x. (x.0, x.1.now)) result (found fault.Cut fault.Wrong (packed.at bytes.now)) }
{
    match bytes {
        [] => Err(FieldFault::Cut),
        [mark, rest @ ..] => {
            if *mark <= 250 {
                Ok((*mark as u64, rest))
            } else if *mark == 252 {
                packed_in_two(rest)
            } else if *mark == 253 {
                packed_in_three(rest)
            } else if *mark == 254 {
                packed_in_eight(rest)
            } else {
                Err(FieldFault::Wrong)
            }
        }
    }
}

fn packed_in_two(bytes: &[u8]) -> Result<(u64, &[u8]), FieldFault>
    ensures { Gives (λ x. (x.0, x.1.now)) result (found fault.Cut fault.Wrong (taken 2 (λ b. nat_le 251 (from_le_bytes w16 b)) (from_le_bytes w16) bytes.now)) }
{
    let (number, rest) = u16_at(bytes)?;
    if number < 251 {
        return Err(FieldFault::Wrong);
    }
    Ok((number as u64, rest))
}

fn packed_in_three(bytes: &[u8]) -> Result<(u64, &[u8]), FieldFault>
    ensures { Gives (λ x. (x.0, x.1.now)) result (found fault.Cut fault.Wrong (taken 3 (λ b. nat_le (2 ^ 16) (from_le_bytes w32 (b ++ 0 ∷ []))) (λ b. from_le_bytes w32 (b ++ 0 ∷ [])) bytes.now)) }
{
    if bytes.len() < 3 {
        return Err(FieldFault::Cut);
    }
    let (front, rest) = bytes.split_at(3);
    let number = u32::from_le_bytes([front[0], front[1], front[2], 0]);
    if number < 65_536 {
        return Err(FieldFault::Wrong);
    }
    Ok((number as u64, rest))
}

fn packed_in_eight(bytes: &[u8]) -> Result<(u64, &[u8]), FieldFault>
    ensures { Gives (λ x. (x.0, x.1.now)) result (found fault.Cut fault.Wrong (taken 8 (λ b. nat_le (2 ^ 24) (from_le_bytes w64 b)) (from_le_bytes w64) bytes.now)) }
{
    let (number, rest) = u64_at(bytes)?;
    if number < 16_777_216 {
        return Err(FieldFault::Wrong);
    }
    Ok((number, rest))
}

/// A text with its length before it in one byte, and the bytes behind it. It has at most `limit` bytes.
pub fn short_text_at(bytes: &[u8], limit: u16) -> Result<(&str, &[u8]), FieldFault>
    ensures { Gives (λ x. (x.0.now, x.1.now)) result (found fault.Cut fault.Wrong ((text w8 (text_fits limit)).at bytes.now)) }
{
    let (size, rest) = u8_at(bytes)?;
    text_part(rest, size as usize, limit)
}

/// A text with its length before it in two bytes, and the bytes behind it. It has at most `limit` bytes.
pub fn long_text_at(bytes: &[u8], limit: u16) -> Result<(&str, &[u8]), FieldFault>
    ensures { Gives (λ x. (x.0.now, x.1.now)) result (found fault.Cut fault.Wrong ((text w16 (text_fits limit)).at bytes.now)) }
{
    let (size, rest) = u16_at(bytes)?;
    text_part(rest, size as usize, limit)
}

/// The bytes of a text and the bytes behind it, from behind its length on.
fn text_part(bytes: &[u8], size: usize, limit: u16) -> Result<(&str, &[u8]), FieldFault>
    ensures { Gives (λ x. (x.0.now, x.1.now)) result (found fault.Cut fault.Wrong (taken size (text_fits limit) (λ t. t) bytes.now)) }
{
    if bytes.len() < size {
        return Err(FieldFault::Cut);
    }
    let (front, rest) = bytes.split_at(size);
    if size > limit as usize {
        return Err(FieldFault::Wrong);
    }
    Ok((utf8_of(front)?, rest))
}

#[tactic(auto, using(crate::proofs::Texts::is_text, crate::proofs::Texts::is_no_text))]
fn utf8_of(bytes: &[u8]) -> Result<&str, FieldFault>
    ensures { Gives (λ x. x.now) result (if is_utf8 bytes.now then Ok bytes.now else Err fault.Wrong) }
{
    match std::str::from_utf8(bytes) {
        Ok(text) => Ok(text),
        Err(_) => Err(FieldFault::Wrong),
    }
}
