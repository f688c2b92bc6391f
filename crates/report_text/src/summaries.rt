//! A world in short: its counts, without its entries, votes and rows.
ghost use Rattle.std.specs.Prelude.{◌≡◌, ◌++◌, IfOk, OnOk, count_by};
ghost use Rattle.std.specs.List.{flat_map};
ghost use Rattle.report_text.specs.Report as spec;

use crate::appending::{put, put_field};
use crate::node_block::put_short_block;
use crate::reports::put_head_line;
use ring_model::{Kept, Said, Shown, What, World};
use ring_types::{List, Memory, Ring};
use std::alloc::Global;

fn is_committed(said: &Said) -> bool
    ensures { result ≡ spec.is_committed said.now }
{
    matches!(said.say.what, What::Committed { .. })
}

fn is_unknown(said: &Said) -> bool
    ensures { result ≡ spec.is_unknown said.now }
{
    matches!(said.say.what, What::Unknown { .. })
}

fn is_refused(said: &Said) -> bool
    ensures { result ≡ spec.is_refused said.now }
{
    matches!(said.say.what, What::Refused(_))
}

fn is_other(said: &Said) -> bool
    ensures { result ≡ spec.is_other said.now }
{
    !(is_committed(said) || is_unknown(said) || is_refused(said))
}

fn count_committed(said: &[Said]) -> usize
    ensures { result ≡ count_by spec.is_committed said.now }
{
    said.iter().filter(|one| is_committed(one)).count()
}

fn count_unknown(said: &[Said]) -> usize
    ensures { result ≡ count_by spec.is_unknown said.now }
{
    said.iter().filter(|one| is_unknown(one)).count()
}

fn count_refused(said: &[Said]) -> usize
    ensures { result ≡ count_by spec.is_refused said.now }
{
    said.iter().filter(|one| is_refused(one)).count()
}

fn count_other(said: &[Said]) -> usize
    ensures { result ≡ count_by spec.is_other said.now }
{
    said.iter().filter(|one| is_other(one)).count()
}

#[tactic(auto, unfolding(crate::specs::Report::sayings_line))]
fn put_sayings_line(out: &mut Vec<u8>, said: &[Said]) -> Result<(), Memory>
    ensures { OnOk result (out.new.items ≡ out.old.items ++ spec.sayings_line said.now) }
{
    put_field(out, b"sayings committed ", count_committed(said) as u64)?;
    put_field(out, b" unknown ", count_unknown(said) as u64)?;
    put_field(out, b" refused ", count_refused(said) as u64)?;
    put_field(out, b" other ", count_other(said) as u64)?;
    put(out, b"\n")
}

#[tactic(auto, unfolding(crate::specs::Report::stops_line))]
fn put_stops_line(out: &mut Vec<u8>, kept: &[Kept]) -> Result<(), Memory>
    ensures { OnOk result (out.new.items ≡ out.old.items ++ spec.stops_line kept.now) }
{
    put_field(out, b"stops ", kept.len() as u64)?;
    put(out, b"\n")
}

fn put_short_blocks(
    alloc: Global,
    out: &mut Vec<u8>,
    ring: &Ring,
    nodes: &[Shown],
) -> Result<(), Memory>
    ensures { OnOk result (out.new.items ≡ out.old.items ++ flat_map (spec.short_block ring.now) nodes.now) }
{
    for node in nodes {
        put_short_block(alloc, out, ring, node)?;
    }
    Ok(())
}

/// The summary of a world: its totals, for each node its state, its GTIDs, its files and how many rows
/// its tables have, then how many sayings there are of each kind and how many steps were cut.
#[tactic(auto, unfolding(crate::specs::Report::summary))]
pub fn write_summary(alloc: Global, ring: &Ring, world: &World) -> Result<List<u8>, Memory>
    ensures { IfOk result (λ it. it ≡ spec.summary ring.now world.now) }
{
    let mut out = Vec::new(alloc);
    put_head_line(&mut out, world)?;
    put_short_blocks(alloc, &mut out, ring, world.nodes.as_slice())?;
    put_sayings_line(&mut out, world.said.as_slice())?;
    put_stops_line(&mut out, world.kept.as_slice())?;
    Ok(List::from_vec(out))
}
