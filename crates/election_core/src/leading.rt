//! A candidate's grants, and what it does once they win: it leads, and adds its NoOp.
ghost use Rattle.std.specs.Prelude.{◌≡◌, ◌+◌, ◌-◌, ◌<◌, ◌≤◌, IfOk, IfSome, length};
ghost use Rattle.ring_types.specs.declared.limits.TheConstants.{TERM_END};
ghost use Rattle.ring_types.specs.Logs as logs;
ghost use Rattle.edge_traits.specs.Views.{Keeps};
ghost use Rattle.ring_model.specs.Elections as spec;
ghost use Rattle.commit_pipeline.specs.Faults.{CoreFails};
ghost use Rattle.election_core.specs.Bids as own;

use commit_pipeline::{Advanced, Begun, Engine, Leader, add_entry, region_at};
use edge_traits::LogView;
use flexi_quorum::wins;
use ring_model::{CoreFault, Message, Peer, Pending, Plan, Role, Soft};
use ring_types::{Entry, Grant, List, Member, Memory, NodeId, Opid, Pair, Payload, Ring};
use std::alloc::Global;

/// A candidate once a plan's actions are done, beside its log.
#[derive(Clone, Copy)]
pub(crate) struct Candidate<'a> {
    pub ring: &'a Ring,
    pub me: NodeId,
    pub term: u64,
    pub applied: u64,
    pub pairs: &'a [Pair],
    pub commit: u64,
    pub pending: &'a [Pending],
}

/// What a candidate comes with: its grants, what stands first in its plan, and the requests that it
/// sends unless it leads.
#[derive(Drop)]
pub(crate) struct Bid {
    pub grants: List<Grant>,
    pub begun: Begun,
    pub asks: List<Message>,
}

/// What a new leader begins with: the position of its NoOp, and its volatile part beside its grants.
#[derive(Drop)]
pub(crate) struct Leadership {
    pub noop: u64,
    pub peers: List<Peer>,
    pub commit: u64,
    pub pending: List<Pending>,
}

/// What an election has come to: the plan, the grants so far, and the leadership if they win.
#[derive(Drop)]
pub(crate) struct Election {
    pub plan: Plan,
    pub grants: List<Grant>,
    pub won: Option<Leadership>,
}

/// What a new leader knows of the other members: nothing, and that it sends from `next` on.
fn first_peers(
    alloc: Global,
    me: NodeId,
    next: u64,
    members: &[Member],
) -> Result<List<Peer>, Memory>
    ensures { IfOk result (λ it. it ≡ spec.first_peers me next members.now) }
{
    let mut peers = List::new(alloc);
    for member in members {
        if member.id != me {
            peers.push(Peer {
                node: member.id,
                matched: 0,
                next,
                silent: 0,
            })?;
        }
    }
    Ok(peers)
}

/// The entry with which a leader begins its term.
fn noop_at(ring: &Ring, me: NodeId, term: u64, position: u64) -> Entry
    ensures { result ≡ own.noop_at ring.now me term position }
{
    Entry {
        opid: Opid { term, position },
        region: ring.region_of(me),
        payload: Payload::NoOp,
    }
}

fn led_by(noop: u64, peers: List<Peer>, grants: List<Grant>, advanced: Advanced) -> Election
    ensures { result ≡ own.led_by noop peers grants advanced }
{
    let Advanced {
        plan,
        commit,
        pending,
    } = advanced;
    let leadership = Leadership {
        noop,
        peers,
        commit,
        pending,
    };
    Election {
        plan,
        grants,
        won: Some(leadership),
    }
}

/// A candidate leads, after what comes first: it adds its NoOp.
fn lead<V: LogView>(
    alloc: Global,
    view: &mut V,
    end: u64,
    candidate: &Candidate<'_>,
    bid: Bid,
) -> Result<Election, CoreFault>
    requires may_lead { own.MayLead V.stands V.sees view.old candidate.now }
    requires end { end ≡ (V.sees view.old).length }
    ensures told { IfSome (V.sees view.old).log (λ log. IfOk result (λ it. it ≡ own.leads_at candidate.now.ring.now candidate.now.me (own.part_of candidate.now log) candidate.now.commit candidate.now.pending.now bid (end + 1))) }
    ensures keeps { Keeps V.sees V.behind V.stands V.faults view.old view.new }
    ensures failed { CoreFails (V.faults view.old) (V.faults view.new) result }
{
    let Bid { grants, begun, .. } = bid;
    let ring = candidate.ring;
    let me = candidate.me;
    let noop = end + 1;
    let members = ring.members().as_slice();
    let Ok(peers) = first_peers(alloc, me, noop, members) else {
        return Err(CoreFault::Memory);
    };
    let known = peers.as_slice();
    let engine = Engine {
        ring,
        me,
        applied: candidate.applied,
        pairs: candidate.pairs,
        upto: None,
        made: None,
    };
    let leader = Leader {
        engine,
        term: candidate.term,
        commit: candidate.commit,
        peers: known,
        pending: candidate.pending,
    };
    let entry = noop_at(ring, me, candidate.term, noop);
    let advanced = add_entry(alloc, view, end, &leader, entry, begun)?;
    Ok(led_by(noop, peers, grants, advanced))
}

/// Whether the grants cover what they and the log make needed. `base` is the opid of the last entry.
fn has_won<V: LogView>(
    alloc: Global,
    view: &mut V,
    base: Opid,
    candidate: &Candidate<'_>,
    grants: &[Grant],
) -> Result<bool, CoreFault>
    requires may_lead { own.MayLead V.stands V.sees view.old candidate.now }
    requires end { base.position ≡ (V.sees view.old).length }
    requires last { IfSome (V.sees view.old).log (λ log. base ≡ logs.last log) }
    ensures told { IfSome (V.sees view.old).log (λ log. IfOk result (λ it. it ≡ spec.has_won candidate.now.ring.now candidate.now.me (own.part_of candidate.now log) grants.now)) }
    ensures keeps { Keeps V.sees V.behind V.stands V.faults view.old view.new }
    ensures failed { CoreFails (V.faults view.old) (V.faults view.new) result }
{
    let base_region = region_at(view, base.position)?;
    let ring = candidate.ring;
    let Ok(won) = wins(
        alloc,
        ring,
        base.term,
        base_region,
        ring.region_of(candidate.me),
        candidate.term,
        grants,
    ) else {
        return Err(CoreFault::Memory);
    };
    Ok(won)
}

fn ask(bid: Bid) -> Election
    ensures { result ≡ own.asks_on bid }
{
    let Bid {
        grants,
        begun,
        asks,
    } = bid;
    let Begun { actions, says } = begun;
    Election {
        plan: Plan {
            actions,
            messages: asks,
            says,
        },
        grants,
        won: None,
    }
}

/// What the election of a candidate with these grants comes to: it leads if they win, and else goes
/// on asking. `base` is the opid of the last entry.
pub(crate) fn lead_or_ask<V: LogView>(
    alloc: Global,
    view: &mut V,
    base: Opid,
    candidate: &Candidate<'_>,
    bid: Bid,
) -> Result<Election, CoreFault>
    requires may_lead { own.MayLead V.stands V.sees view.old candidate.now }
    requires end { base.position ≡ (V.sees view.old).length }
    requires last { IfSome (V.sees view.old).log (λ log. base ≡ logs.last log) }
    ensures told { IfSome (V.sees view.old).log (λ log. IfOk result (λ it. it ≡ own.election candidate.now.ring.now candidate.now.me (own.part_of candidate.now log) candidate.now.commit candidate.now.pending.now bid)) }
    ensures keeps { Keeps V.sees V.behind V.stands V.faults view.old view.new }
    ensures failed { CoreFails (V.faults view.old) (V.faults view.new) result }
{
    let won = has_won(alloc, view, base, candidate, bid.grants.as_slice())?;
    if won {
        lead(alloc, view, base.position, candidate, bid)
    } else {
        Ok(ask(bid))
    }
}

/// Makes a leader, or a candidate.
fn take_role(soft: &mut Soft, won: Option<Leadership>)
    ensures { soft.new ≡ own.in_role soft.old won }
{
    match won {
        Some(leadership) => {
            let Leadership {
                noop,
                peers,
                commit,
                pending,
            } = leadership;
            soft.role = Role::Leader;
            soft.ready_at = noop;
            soft.peers = peers;
            soft.commit = commit;
            soft.pending = pending;
        }
        None => {
            soft.role = Role::Candidate;
        }
    }
}

/// Sets the volatile part as the election has come to, and gives the plan.
pub(crate) fn settle(soft: &mut Soft, election: Election) -> Plan
    ensures plan { result ≡ election.plan }
    ensures soft { soft.new ≡ own.settled soft.old election }
{
    let Election { plan, grants, won } = election;
    soft.grants = grants;
    take_role(soft, won);
    plan
}
