//! Standing for election: who may, and what a candidate does first.
ghost use Rattle.std.specs.Prelude.{◌≡◌, ◌-◌, ◌<◌, ◌∷◌, [], true, IfOk, IfSome, OnErr};
ghost use Rattle.edge_traits.specs.Views.{Keeps};
ghost use Rattle.ring_model.specs.Actions as acts;
ghost use Rattle.ring_model.specs.Elections as spec;
ghost use Rattle.ring_model.specs.Needs as needs;
ghost use Rattle.ring_model.specs.Steps as steps;
ghost use Rattle.ring_model.specs.declared.effects.Action.TheVariants as action;
ghost use Rattle.ring_model.specs.declared.messages.Body.TheVariants as body;
ghost use Rattle.commit_pipeline.specs.Faults.{CoreFails};
ghost use Rattle.commit_pipeline.specs.Heres.{StandsForNode, durable_of};
ghost use Rattle.election_core.specs.Bids as own;

use crate::leading::{Bid, Candidate, lead_or_ask, settle};
use crate::voting::{new_vote, votes_left};
use commit_pipeline::{Begun, Here, demote, idle, is_leader, last, message, term_at, unknowns};
use edge_traits::LogView;
use ring_model::{Action, Body, CoreFault, Message, Plan, RequestVote, Soft};
use ring_types::{Grant, List, Member, Memory, NodeId, Opid, Ring, TERM_END};
use std::alloc::Global;
use vote_history::History;

/// Whether the node may stand for election: it votes, does not lead, is below the greatest term and
/// length, and has room for its vote.
fn may_elect(ring: &Ring, me: NodeId, term: u64, end: u64, soft: &Soft, room: bool) -> bool
    ensures value { result ≡ own.may_elect ring.now me term end soft.now room }
    ensures term { result ≡ true → term < TERM_END - 1 }
    ensures length { result ≡ true → end < TERM_END - 1 }
{
    ring.voter(me) && !is_leader(soft.role) && term < TERM_END - 1 && end < TERM_END - 1 && room
}

fn request(me: NodeId, to: NodeId, term: u64, asked: Opid) -> Message
    ensures { result ≡ steps.message me to (body.RequestVote (record { term = term; last = asked })) }
{
    message(me, to, Body::RequestVote(RequestVote { term, last: asked }))
}

/// The request to every other voter, in ring order.
fn requests(
    alloc: Global,
    me: NodeId,
    term: u64,
    asked: Opid,
    members: &[Member],
) -> Result<List<Message>, Memory>
    ensures { IfOk result (λ it. it ≡ spec.requests me term asked members.now) }
{
    let mut asks = List::new(alloc);
    for member in members {
        if member.id != me && member.kind.is_voter() {
            asks.push(request(me, member.id, term, asked))?;
        }
    }
    Ok(asks)
}

/// A new term and the node's vote for itself.
fn stand_actions(
    alloc: Global,
    ring: &Ring,
    me: NodeId,
    term: u64,
    floor: u64,
) -> Result<List<Action>, Memory>
    ensures { IfOk result (λ it. it ≡ action.SetTerm term ∷ action.Vote (spec.new_vote ring.now term me) floor ∷ []) }
{
    let mut actions = List::of_one(alloc, Action::SetTerm(term))?;
    actions.push(Action::Vote {
        vote: new_vote(ring, term, me),
        floor,
    })?;
    Ok(actions)
}

/// The grants of a new candidate: its own, with the votes that it reports itself.
fn own_grants(
    alloc: Global,
    me: NodeId,
    history: &History,
    floor: u64,
    base: u64,
    term: u64,
) -> Result<List<Grant>, Memory>
    ensures { IfOk result (λ it. it ≡ record { voter = me; votes = needs.votes_between base term (acts.votes_above floor history.now) } ∷ []) }
{
    let votes = votes_left(alloc, history, floor, base, term)?;
    List::of_one(alloc, Grant { voter: me, votes })
}

/// What a node comes with that stands in the candidate's term. `base` is the opid of the last entry.
fn first_bid(
    alloc: Global,
    candidate: &Candidate<'_>,
    base: Opid,
    floor: u64,
    history: &History,
    soft: &Soft,
) -> Result<Bid, Memory>
    ensures { IfOk result (λ it. it ≡ own.first_bid candidate.now.ring.now candidate.now.me candidate.now.term base floor history.now soft.now) }
{
    let ring = candidate.ring;
    let me = candidate.me;
    let term = candidate.term;
    let actions = stand_actions(alloc, ring, me, term, floor)?;
    let says = unknowns(alloc, soft)?;
    let grants = own_grants(alloc, me, history, floor, base.term, term)?;
    let asks = requests(alloc, me, term, base, ring.members().as_slice())?;
    Ok(Bid {
        grants,
        begun: Begun { actions, says },
        asks,
    })
}

/// The plan of a node that is told to stand for election.
pub fn start<'a, V: LogView>(
    alloc: Global,
    here: Here<'a, V>,
    soft: &mut Soft,
) -> Result<Plan, CoreFault>
    requires node { StandsForNode V.stands V.sees here soft.old }
    ensures told { IfSome (V.sees here.entry.view.now).log (λ log. IfOk result (λ it. spec.elect here.entry.ring.now here.entry.me (durable_of here.entry log) soft.old ≡ record { plan = it; soft = soft.new })) }
    ensures stays { OnErr result (soft.new ≡ soft.old) }
    ensures keeps { Keeps V.sees V.behind V.stands V.faults here.entry.view.now here.exit.0.now }
    ensures failed { CoreFails (V.faults here.entry.view.now) (V.faults here.exit.0.now) result }
{
    let Here {
        view,
        ring,
        me,
        term,
        history,
        applied,
        prepared,
        ..
    } = here;
    let base = last(view)?;
    let floor = term_at(view, soft.commit)?;
    let room = history.room(floor);
    if may_elect(ring, me, term, base.position, soft, room) {
        let pairs = prepared.pairs().as_slice();
        let none = List::new(alloc);
        let pending = none.as_slice();
        let candidate = Candidate {
            ring,
            me,
            term: term + 1,
            applied,
            pairs,
            commit: soft.commit,
            pending,
        };
        let Ok(bid) = first_bid(alloc, &candidate, base, floor, history, soft) else {
            return Err(CoreFault::Memory);
        };
        let election = lead_or_ask(alloc, view, base, &candidate, bid)?;
        demote(alloc, soft);
        return Ok(settle(soft, election));
    }
    Ok(idle(alloc))
}
