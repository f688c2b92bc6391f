ghost use Rattle.std.specs.Prelude.{◌≡◌, ◌-◌, ◌^◌, ◌∷◌, ◌++◌, [], IfOk, length, map, min};
ghost use Rattle.gtid_set.specs.Bytes.{server_bytes, set_bytes};
ghost use Rattle.entry_group.specs.Files as spec;

use event_frame::MOST_BODY_BYTES;
use ring_plain::{group_size, gtids};
use ring_types::{Entry, List, Memory, Schema, ServerSet, is_rotate};
use std::alloc::Global;

fn server_size(set: &ServerSet) -> u64
    ensures { result ≡ min (length (server_bytes set.now)) (2 ^ 64 - 1) }
{
    (set.intervals.len() as u64)
        .saturating_mul(16)
        .saturating_add(24)
}

fn set_size(sets: &[ServerSet]) -> u64
    ensures { result ≡ min (length (set_bytes sets.now)) (2 ^ 64 - 1) }
{
    let mut size = 8u64;
    for set in sets {
        size = size.saturating_add(server_size(set));
    }
    size
}

/// How many bytes the head of a file takes, if these entries stand in the files before.
#[tactic(auto, using(crate::proofs::Sizes::small_head, crate::proofs::Sizes::large_head))]
fn head_size(alloc: Global, before: &[Entry]) -> Result<u64, Memory>
    ensures { IfOk result (λ it. it ≡ spec.head_size before.now) }
{
    let set = gtids(alloc, before)?;
    let size = set_size(set.as_slice());
    if size <= MOST_BODY_BYTES {
        Ok(149 + size)
    } else {
        Ok(157)
    }
}

/// The sizes with that of the last file.
fn closed(sizes: List<u64>, size: u64) -> Result<List<u64>, Memory>
    ensures { IfOk result (λ it. it ≡ sizes ++ spec.told_size size ∷ []) }
{
    let mut all = sizes;
    all.push(size)?;
    Ok(all)
}

/// How many bytes each binary log file of the log has, the first file first; 2^64 - 1 for a file of
/// that many bytes or more. No byte of a file is made for it.
#[tactic(auto, unfolding(crate::specs::Files::file_sizes))]
pub fn file_sizes(alloc: Global, schema: &Schema, log: &[Entry]) -> Result<List<u64>, Memory>
    ensures { IfOk result (λ it. it ≡ map spec.told_size (spec.file_sizes schema.now log.now)) }
{
    let mut sizes = List::new(alloc);
    let mut size = head_size(alloc, &log[..0])?;
    for (i, entry) in log.iter().enumerate() {
        size = size.saturating_add(group_size(schema, &entry.payload));
        if is_rotate(entry) {
            sizes.push(size)?;
            size = head_size(alloc, &log[..i])?;
        }
    }
    closed(sizes, size)
}
