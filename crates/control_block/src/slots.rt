ghost use Rattle.std.specs.Prelude.{◌≡◌, ◌++◌, ◌≤◌, IfOk, length};
ghost use Rattle.control_block.specs.ControlFiles.{winner, next_tag, behind_gate};

use std::alloc::{AllocError, Global};

/// Which of the two slots wins.
#[derive(Clone, Copy, Debug, PartialEq, Eq)]
pub(crate) enum Winner {
    /// No gate is open.
    Neither,
    First,
    Second,
    /// Both gates are open, and neither tag is the one after the other.
    Unclear,
}

/// The tag that follows.
pub(crate) fn tag_after(tag: u8) -> u8
    ensures { result ≡ next_tag tag }
{
    ((tag as u16 + 1) % 3) as u8
}

/// The slot that wins, of two given by their gates and tags.
pub(crate) fn winner_among(first: bool, tag: u8, second: bool, other: u8) -> Winner
    ensures { result ≡ winner first tag second other }
{
    if first {
        if second {
            if tag == tag_after(other) {
                Winner::First
            } else if other == tag_after(tag) {
                Winner::Second
            } else {
                Winner::Unclear
            }
        } else {
            Winner::First
        }
    } else if second {
        Winner::Second
    } else {
        Winner::Neither
    }
}

/// What is written of a slot before its gate is opened.
pub(crate) fn slot_behind_gate(alloc: Global, tag: u8, bytes: &[u8]) -> Result<Vec<u8>, AllocError>
    requires { length bytes.now ≤ 32768 }
    ensures { IfOk result (λ slot. slot.items ≡ behind_gate tag bytes.now) }
{
    let mut slot = Vec::new(alloc);
    slot.push(tag)?;
    slot.push(0)?;
    slot.push(0)?;
    slot.extend_from_slice(&(bytes.len() as u32).to_le_bytes())?;
    slot.extend_from_slice(bytes)?;
    Ok(slot)
}
