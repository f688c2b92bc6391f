ghost use Rattle.std.specs.Prelude.{◌≡◌, ◌++◌, ◌∷◌, [], IfOk, IfSome, OnErr};
ghost use Rattle.edge_traits.specs.Views.{Keeps};
ghost use Rattle.ring_model.specs.Elections as spec;
ghost use Rattle.commit_pipeline.specs.Faults.{CoreFails};
ghost use Rattle.commit_pipeline.specs.Heres.{StandsForNode, durable_of};
ghost use Rattle.election_core.specs.Bids as own;

use crate::leading::{Bid, Candidate, lead_or_ask, settle};
use commit_pipeline::{Begun, Here, adopted, demote, idle, last};
use edge_traits::LogView;
use ring_model::{CoreFault, Plan, Role, Soft, VoteReply};
use ring_types::{Duplicate, Grant, List, Memory, NodeId};
use std::alloc::Global;

/// Whether a node of this role makes nothing of a reply: only a candidate hears it.
fn is_deaf(role: Role) -> bool
    ensures { result ≡ own.is_deaf role }
{
    match role {
        Role::Follower => true,
        Role::Candidate => false,
        Role::Leader => true,
    }
}

fn has_granted(grants: &[Grant], from: NodeId) -> bool
    ensures { result ≡ spec.has_granted grants.now from }
{
    grants.iter().any(|grant| grant.voter == from)
}

/// Whether the reply is a grant of the present term that is not counted yet.
fn counts(term: u64, grants: &[Grant], from: NodeId, reply: &VoteReply) -> bool
    ensures { result ≡ own.counts term grants.now from reply.now }
{
    reply.granted && reply.term == term && !has_granted(grants, from)
}

/// What a candidate comes with once the reply is counted.
fn next_bid(
    alloc: Global,
    grants: &List<Grant>,
    from: NodeId,
    reply: &VoteReply,
) -> Result<Bid, Memory>
    ensures { IfOk result (λ it. it ≡ own.next_bid grants.now from reply.now) }
{
    let mut grants = grants.copy(alloc)?;
    grants.push(Grant {
        voter: from,
        votes: reply.votes.copy(alloc)?,
    })?;
    Ok(Bid {
        grants,
        begun: Begun::nothing(alloc),
        asks: List::new(alloc),
    })
}

/// The plan of a node that hears the reply of the voter `from`.
pub fn on_reply<'a, V: LogView>(
    alloc: Global,
    here: Here<'a, V>,
    soft: &mut Soft,
    from: NodeId,
    reply: &VoteReply,
) -> Result<Plan, CoreFault>
    requires node { StandsForNode V.stands V.sees here soft.old }
    ensures told { IfSome (V.sees here.entry.view.now).log (λ log. IfOk result (λ it. spec.on_reply here.entry.ring.now here.entry.me (durable_of here.entry log) soft.old from reply.now ≡ record { plan = it; soft = soft.new })) }
    ensures stays { OnErr result (soft.new ≡ soft.old) }
    ensures keeps { Keeps V.sees V.behind V.stands V.faults here.entry.view.now here.exit.0.now }
    ensures failed { CoreFails (V.faults here.entry.view.now) (V.faults here.exit.0.now) result }
{
    let Here {
        view,
        ring,
        me,
        term,
        applied,
        prepared,
        ..
    } = here;
    if is_deaf(soft.role) {
        return Ok(idle(alloc));
    }
    if term < reply.term {
        let Ok(plan) = adopted(alloc, reply.term, soft) else {
            return Err(CoreFault::Memory);
        };
        demote(alloc, soft);
        return Ok(plan);
    }
    if counts(term, soft.grants.as_slice(), from, reply) {
        let Ok(bid) = next_bid(alloc, &soft.grants, from, reply) else {
            return Err(CoreFault::Memory);
        };
        let base = last(view)?;
        let pairs = prepared.pairs().as_slice();
        let pending = soft.pending.as_slice();
        let candidate = Candidate {
            ring,
            me,
            term,
            applied,
            pairs,
            commit: soft.commit,
            pending,
        };
        let election = lead_or_ask(alloc, view, base, &candidate, bid)?;
        return Ok(settle(soft, election));
    }
    Ok(idle(alloc))
}
