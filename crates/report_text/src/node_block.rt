ghost use Rattle.std.specs.Prelude.{◌≡◌, ◌++◌, OnOk};
ghost use Rattle.std.specs.List.{flat_map};
ghost use Rattle.report_text.specs.Report as spec;

use crate::appending::{put, put_field};
use crate::file_lines::put_files;
use crate::table_text::{put_applied_tables, put_counted_tables};
use crate::words::{put_entry, put_set};
use ring_model::{Durable, Role, Shown, Soft};
use ring_plain::gtids;
use ring_types::{Entry, Memory, Ring, ServerSet, Vote};
use std::alloc::Global;

fn role_word(role: Role) -> &'static [u8]
    ensures { result.now ≡ spec.role_word role }
{
    match role {
        Role::Follower => b"follower",
        Role::Candidate => b"candidate",
        Role::Leader => b"leader",
    }
}

fn put_term_words(out: &mut Vec<u8>, durable: &Durable) -> Result<(), Memory>
    ensures { OnOk result (out.new.items ≡ out.old.items ++ spec.term_words durable.now) }
{
    put_field(out, b" term ", durable.term)?;
    put_field(out, b" length ", durable.log.len() as u64)
}

fn put_engine_words(out: &mut Vec<u8>, durable: &Durable) -> Result<(), Memory>
    ensures { OnOk result (out.new.items ≡ out.old.items ++ spec.engine_words durable.now) }
{
    put_field(out, b" applied ", durable.applied)?;
    put_field(out, b" prepared ", durable.prepared.len() as u64)
}

fn put_running_words(out: &mut Vec<u8>, durable: &Durable, soft: &Soft) -> Result<(), Memory>
    ensures { OnOk result (out.new.items ≡ out.old.items ++ spec.running_words durable.now soft.now) }
{
    put(out, role_word(soft.role))?;
    put_term_words(out, durable)?;
    put_field(out, b" commit ", soft.commit)?;
    put_engine_words(out, durable)
}

fn put_down_words(out: &mut Vec<u8>, durable: &Durable) -> Result<(), Memory>
    ensures { OnOk result (out.new.items ≡ out.old.items ++ spec.down_words durable.now) }
{
    put(out, b"down")?;
    put_term_words(out, durable)?;
    put_engine_words(out, durable)
}

fn put_node_words(out: &mut Vec<u8>, node: &Shown) -> Result<(), Memory>
    ensures { OnOk result (out.new.items ≡ out.old.items ++ spec.node_words node.now) }
{
    match &node.soft {
        None => put_down_words(out, &node.durable),
        Some(soft) => put_running_words(out, &node.durable, soft),
    }
}

#[tactic(auto, unfolding(crate::specs::Report::node_line))]
fn put_node_line(out: &mut Vec<u8>, node: &Shown) -> Result<(), Memory>
    ensures { OnOk result (out.new.items ≡ out.old.items ++ spec.node_line node.now) }
{
    put_field(out, b"node ", u64::from(node.node.0))?;
    put(out, b" ")?;
    put_node_words(out, node)?;
    put(out, b"\n")
}

#[tactic(auto, unfolding(crate::specs::Report::vote_line))]
fn put_vote_line(out: &mut Vec<u8>, vote: &Vote) -> Result<(), Memory>
    ensures { OnOk result (out.new.items ≡ out.old.items ++ spec.vote_line vote.now) }
{
    put_field(out, b"vote ", vote.term)?;
    put_field(out, b" ", u64::from(vote.candidate.0))?;
    put_field(out, b" ", u64::from(vote.region.0))?;
    put(out, b"\n")
}

fn put_vote_lines(out: &mut Vec<u8>, votes: &[Vote]) -> Result<(), Memory>
    ensures { OnOk result (out.new.items ≡ out.old.items ++ flat_map spec.vote_line votes.now) }
{
    for vote in votes {
        put_vote_line(out, vote)?;
    }
    Ok(())
}

#[tactic(auto, unfolding(crate::specs::Report::log_line))]
fn put_log_line(out: &mut Vec<u8>, entry: &Entry) -> Result<(), Memory>
    ensures { OnOk result (out.new.items ≡ out.old.items ++ spec.log_line entry.now) }
{
    put(out, b"log ")?;
    put_entry(out, entry)?;
    put(out, b"\n")
}

fn put_log_lines(out: &mut Vec<u8>, log: &[Entry]) -> Result<(), Memory>
    ensures { OnOk result (out.new.items ≡ out.old.items ++ flat_map spec.log_line log.now) }
{
    for entry in log {
        put_log_line(out, entry)?;
    }
    Ok(())
}

fn put_shown_set(out: &mut Vec<u8>, sets: &[ServerSet]) -> Result<(), Memory>
    ensures { OnOk result (out.new.items ≡ out.old.items ++ spec.shown_set sets.now) }
{
    match sets {
        [] => put(out, b"-"),
        [_, ..] => put_set(out, sets),
    }
}

#[tactic(auto, unfolding(crate::specs::Report::gtids_line))]
fn put_gtids_line(alloc: Global, out: &mut Vec<u8>, log: &[Entry]) -> Result<(), Memory>
    ensures { OnOk result (out.new.items ≡ out.old.items ++ spec.gtids_line log.now) }
{
    let sets = gtids(alloc, log)?;
    put(out, b"gtids ")?;
    put_shown_set(out, sets.as_slice())?;
    put(out, b"\n")
}

#[tactic(auto, using(row_engine::proofs::Names::names_once, row_engine::proofs::Names::tables_few))]
fn put_engine_text(
    alloc: Global,
    out: &mut Vec<u8>,
    ring: &Ring,
    node: &Shown,
) -> Result<(), Memory>
    ensures { OnOk result (out.new.items ≡ out.old.items ++ spec.engine_text ring.now node.now) }
{
    ring.law_built();
    if ring.runs_engine(node.node) {
        put_applied_tables(alloc, out, ring.schema(), &node.durable)
    } else {
        Ok(())
    }
}

/// Puts all lines of one node at the end.
#[tactic(auto, unfolding(crate::specs::Report::block))]
pub(crate) fn put_block(
    alloc: Global,
    out: &mut Vec<u8>,
    ring: &Ring,
    node: &Shown,
) -> Result<(), Memory>
    ensures { OnOk result (out.new.items ≡ out.old.items ++ spec.block ring.now node.now) }
{
    put_node_line(out, node)?;
    put_vote_lines(out, node.durable.votes.as_slice())?;
    put_log_lines(out, node.durable.log.as_slice())?;
    put_gtids_line(alloc, out, node.durable.log.as_slice())?;
    put_files(alloc, out, ring.schema(), node.durable.log.as_slice())?;
    put_engine_text(alloc, out, ring, node)
}

#[tactic(auto, using(row_engine::proofs::Names::names_once, row_engine::proofs::Names::tables_few))]
fn put_engine_lines(
    alloc: Global,
    out: &mut Vec<u8>,
    ring: &Ring,
    node: &Shown,
) -> Result<(), Memory>
    ensures { OnOk result (out.new.items ≡ out.old.items ++ spec.engine_lines ring.now node.now) }
{
    ring.law_built();
    if ring.runs_engine(node.node) {
        put_counted_tables(alloc, out, ring.schema(), &node.durable)
    } else {
        Ok(())
    }
}

/// Puts the lines of one node that a summary has at the end.
#[tactic(auto, unfolding(crate::specs::Report::short_block))]
pub(crate) fn put_short_block(
    alloc: Global,
    out: &mut Vec<u8>,
    ring: &Ring,
    node: &Shown,
) -> Result<(), Memory>
    ensures { OnOk result (out.new.items ≡ out.old.items ++ spec.short_block ring.now node.now) }
{
    put_node_line(out, node)?;
    put_gtids_line(alloc, out, node.durable.log.as_slice())?;
    put_files(alloc, out, ring.schema(), node.durable.log.as_slice())?;
    put_engine_lines(alloc, out, ring, node)
}
