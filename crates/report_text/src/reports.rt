ghost use Rattle.std.specs.Prelude.{◌≡◌, ◌++◌, OnOk, IfOk};
ghost use Rattle.std.specs.List.{flat_map};
ghost use Rattle.report_text.specs.Report as spec;

use crate::appending::{put, put_field};
use crate::node_block::put_block;
use crate::sayings::put_saying;
use crate::words::put_entry;
use ring_model::{Kept, Said, Shown, World};
use ring_types::{Entry, List, Memory, Ring};
use std::alloc::Global;

#[tactic(auto, unfolding(crate::specs::Report::head_line))]
pub(crate) fn put_head_line(out: &mut Vec<u8>, world: &World) -> Result<(), Memory>
    ensures { OnOk result (out.new.items ≡ out.old.items ++ spec.head_line world.now) }
{
    put_field(out, b"events ", world.events)?;
    put_field(out, b" messages ", world.messages.len() as u64)?;
    put_field(out, b" chosen ", world.chosen.len() as u64)?;
    put(out, b"\n")
}

#[tactic(auto, unfolding(crate::specs::Report::chosen_line))]
fn put_chosen_line(out: &mut Vec<u8>, entry: &Entry) -> Result<(), Memory>
    ensures { OnOk result (out.new.items ≡ out.old.items ++ spec.chosen_line entry.now) }
{
    put(out, b"chosen ")?;
    put_entry(out, entry)?;
    put(out, b"\n")
}

fn put_chosen_lines(out: &mut Vec<u8>, chosen: &[Entry]) -> Result<(), Memory>
    ensures { OnOk result (out.new.items ≡ out.old.items ++ flat_map spec.chosen_line chosen.now) }
{
    for entry in chosen {
        put_chosen_line(out, entry)?;
    }
    Ok(())
}

fn put_blocks(alloc: Global, out: &mut Vec<u8>, ring: &Ring, nodes: &[Shown]) -> Result<(), Memory>
    ensures { OnOk result (out.new.items ≡ out.old.items ++ flat_map (spec.block ring.now) nodes.now) }
{
    for node in nodes {
        put_block(alloc, out, ring, node)?;
    }
    Ok(())
}

#[tactic(auto, unfolding(crate::specs::Report::said_line))]
fn put_said_line(out: &mut Vec<u8>, said: &Said) -> Result<(), Memory>
    ensures { OnOk result (out.new.items ≡ out.old.items ++ spec.said_line said.now) }
{
    put_field(out, b"said ", said.event)?;
    put_field(out, b" ", u64::from(said.node.0))?;
    put(out, b" ")?;
    put_saying(out, &said.say.what)?;
    put(out, b"\n")
}

fn put_said_lines(out: &mut Vec<u8>, sayings: &[Said]) -> Result<(), Memory>
    ensures { OnOk result (out.new.items ≡ out.old.items ++ flat_map spec.said_line sayings.now) }
{
    for said in sayings {
        put_said_line(out, said)?;
    }
    Ok(())
}

#[tactic(auto, unfolding(crate::specs::Report::kept_line))]
fn put_kept_line(out: &mut Vec<u8>, kept: &Kept) -> Result<(), Memory>
    ensures { OnOk result (out.new.items ≡ out.old.items ++ spec.kept_line kept.now) }
{
    put_field(out, b"kept ", kept.event)?;
    put_field(out, b" ", u64::from(kept.node.0))?;
    put_field(out, b" ", kept.actions)?;
    put(out, b"\n")
}

fn put_kept_lines(out: &mut Vec<u8>, cuts: &[Kept]) -> Result<(), Memory>
    ensures { OnOk result (out.new.items ≡ out.old.items ++ flat_map spec.kept_line cuts.now) }
{
    for kept in cuts {
        put_kept_line(out, kept)?;
    }
    Ok(())
}

#[tactic(auto, unfolding(crate::specs::Report::report))]
fn put_report(alloc: Global, out: &mut Vec<u8>, ring: &Ring, world: &World) -> Result<(), Memory>
    ensures { OnOk result (out.new.items ≡ out.old.items ++ spec.report ring.now world.now) }
{
    put_head_line(out, world)?;
    put_chosen_lines(out, world.chosen.as_slice())?;
    put_blocks(alloc, out, ring, world.nodes.as_slice())?;
    put_said_lines(out, world.said.as_slice())?;
    put_kept_lines(out, world.kept.as_slice())
}

/// The report of a world. The lines of nodes stand in the world's order.
pub fn write_report(alloc: Global, ring: &Ring, world: &World) -> Result<List<u8>, Memory>
    ensures { IfOk result (λ text. text ≡ spec.report ring.now world.now) }
{
    let mut out = Vec::new(alloc);
    put_report(alloc, &mut out, ring, world)?;
    Ok(List::from_vec(out))
}

/// One node's lines of the report.
pub fn write_node(alloc: Global, ring: &Ring, node: &Shown) -> Result<List<u8>, Memory>
    ensures { IfOk result (λ text. text ≡ spec.block ring.now node.now) }
{
    let mut out = Vec::new(alloc);
    put_block(alloc, &mut out, ring, node)?;
    Ok(List::from_vec(out))
}
