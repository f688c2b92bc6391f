//! What a leader makes of the reply to its entries: how far the member has matched, and from where it
//! sends next.
ghost use Rattle.std.specs.Prelude.{◌≡◌, ◌<◌, IfOk, IfSome, OnErr};
ghost use Rattle.ring_types.specs.declared.limits.TheConstants.{TERM_END};
ghost use Rattle.edge_traits.specs.Views.{Keeps};
ghost use Rattle.ring_model.specs.Replication as spec;
ghost use Rattle.commit_pipeline.specs.Faults.{CoreFails};
ghost use Rattle.commit_pipeline.specs.Heres.{StandsForNode, durable_of};
ghost use Rattle.replicate_core.specs.Replies as own;

use commit_pipeline::{Engine, Here, Leader, adopted, advance_by, demote, idle, is_leader, last};
use edge_traits::LogView;
use ring_model::{AppendReply, CoreFault, Peer, Plan, Soft};
use ring_types::{List, Memory, NodeId};
use std::alloc::Global;

/// What a leader knows of a member once it has its reply. The sum that stops at the last number
/// never does on a node, where a matched position is below the next one to send.
fn heard_from(peer: Peer, ok: bool, position: u64) -> Peer
    requires { position < TERM_END }
    ensures { result ≡ own.heard_from peer ok position }
{
    let after = position + 1;
    if ok {
        Peer {
            silent: 0,
            matched: peer.matched.max(position),
            next: peer.next.max(after),
            ..peer
        }
    } else {
        Peer {
            silent: 0,
            next: peer.matched.saturating_add(1).max(peer.next.min(after)),
            ..peer
        }
    }
}

fn heard_one(from: NodeId, ok: bool, position: u64, peer: Peer) -> Peer
    requires { position < TERM_END }
    ensures { result ≡ own.heard_one from ok position peer }
{
    if peer.node == from {
        heard_from(peer, ok, position)
    } else {
        peer
    }
}

/// What a leader knows of all members once it has the reply of one.
fn heard_among(
    alloc: Global,
    peers: &[Peer],
    from: NodeId,
    ok: bool,
    position: u64,
) -> Result<List<Peer>, Memory>
    requires { position < TERM_END }
    ensures { IfOk result (λ it. it ≡ own.heard_among peers.now from ok position) }
{
    let mut heard = List::new(alloc);
    for peer in peers {
        heard.push(heard_one(from, ok, position, *peer))?;
    }
    Ok(heard)
}

/// Whether the reply is of the leader's own term, with a position within its log of `end` entries.
fn counts(term: u64, end: u64, soft: &Soft, reply: &AppendReply) -> bool
    ensures { result ≡ own.counts term end soft.now reply.now }
{
    is_leader(soft.role) && reply.term == term && reply.position <= end
}

/// The plan of a leader that hears the reply of the member `from`, but for a transfer under way.
pub fn on_ack<'a, V: LogView>(
    alloc: Global,
    here: Here<'a, V>,
    soft: &mut Soft,
    from: NodeId,
    reply: &AppendReply,
) -> Result<Plan, CoreFault>
    requires node { StandsForNode V.stands V.sees here soft.old }
    ensures told { IfSome (V.sees here.entry.view.now).log (λ log. IfOk result (λ it. spec.on_ack here.entry.ring.now here.entry.me (durable_of here.entry log) soft.old from reply.now ≡ record { plan = it; soft = soft.new })) }
    ensures stays { OnErr result (soft.new ≡ soft.old) }
    ensures keeps { Keeps V.sees V.behind V.stands V.faults here.entry.view.now here.exit.0.now }
    ensures failed { CoreFails (V.faults here.entry.view.now) (V.faults here.exit.0.now) result }
{
    let Here {
        view,
        ring,
        me,
        term,
        applied,
        prepared,
        ..
    } = here;
    if term < reply.term {
        let Ok(plan) = adopted(alloc, reply.term, soft) else {
            return Err(CoreFault::Memory);
        };
        demote(alloc, soft);
        return Ok(plan);
    }
    let end = last(view)?.position;
    if !counts(term, end, soft, reply) {
        return Ok(idle(alloc));
    }
    let known = soft.peers.as_slice();
    let Ok(peers) = heard_among(alloc, known, from, reply.ok, reply.position) else {
        return Err(CoreFault::Memory);
    };
    let before = Leader::new(ring, me, term, applied, prepared, soft);
    let leader = Leader {
        peers: peers.as_slice(),
        ..before
    };
    let advanced = advance_by(alloc, view, &leader, idle(alloc))?;
    soft.peers = peers;
    Ok(advanced.settle(soft))
}
