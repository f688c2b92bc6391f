//! Fields at the end of what was written. Without memory a part may be put; what stood before stays.
ghost use Rattle.std.specs.Prelude.{◌≡◌, ◌≤◌, ◌<◌, ◌++◌, length, OnOk, OnErr};
ghost use Rattle.event_frame.specs.Fields.{packed_text};
ghost use Rattle.event_txn.specs.Tables.{name_text, bitmap};
ghost use Rattle.event_txn.specs.Writing.{Keeps};

use crate::tables::length_byte;
use std::alloc::AllocError;

/// Puts these bytes.
#[tactic(auto, using(crate::proofs::Kept::kept_same))]
pub fn put(out: &mut Vec<u8>, bytes: &[u8]) -> Result<(), AllocError>
    ensures ok { OnOk result (out.new.items ≡ out.old.items ++ bytes.now) }
    ensures err { OnErr result (Keeps out.old.items out.new.items) }
{
    out.extend_from_slice(bytes)
}

/// Puts a packed integer in its shortest form.
pub fn put_packed(out: &mut Vec<u8>, number: u64) -> Result<(), AllocError>
    ensures ok { OnOk result (out.new.items ≡ out.old.items ++ packed_text number) }
    ensures err { OnErr result (Keeps out.old.items out.new.items) }
{
    if number <= 250 {
        put(out, &[number as u8])
    } else if number < 65_536 {
        let [a, b] = (number as u16).to_le_bytes();
        put(out, &[252, a, b])
    } else if number < 16_777_216 {
        let [a, b, c, _] = (number as u32).to_le_bytes();
        put(out, &[253, a, b, c])
    } else {
        let [a, b, c, d, e, f, g, h] = number.to_le_bytes();
        put(out, &[254, a, b, c, d, e, f, g, h])
    }
}

/// Puts a name: its length, its bytes, a zero.
#[tactic(auto, using(crate::proofs::Kept::kept_behind))]
pub fn put_name(out: &mut Vec<u8>, name: &[u8]) -> Result<(), AllocError>
    requires { length name.now < 256 }
    ensures ok { OnOk result (out.new.items ≡ out.old.items ++ name_text name.now) }
    ensures err { OnErr result (Keeps out.old.items out.new.items) }
{
    put(out, &length_byte(name))?;
    put(out, name)?;
    put(out, &[0])
}

/// Puts the bits, lowest first, in whole bytes.
pub fn put_bitmap(out: &mut Vec<u8>, count: usize, bits: u64) -> Result<(), AllocError>
    requires { count ≤ 64 }
    ensures ok { OnOk result (out.new.items ≡ out.old.items ++ bitmap count bits) }
    ensures err { OnErr result (Keeps out.old.items out.new.items) }
{
    let size = (count + 7) / 8;
    put(out, &bits.to_le_bytes()[..size])
}
