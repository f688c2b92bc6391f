ghost use Rattle.std.specs.Prelude.{◌≡◌, ◌≤◌, ◌++◌, ◌∷◌, [], not, IfOk, IfSome, OnErr};
ghost use Rattle.ring_types.specs.Rings.{votes};
ghost use Rattle.edge_traits.specs.Views.{Keeps};
ghost use Rattle.ring_model.specs.Elections as spec;
ghost use Rattle.ring_model.specs.declared.effects.Action.TheVariants as action;
ghost use Rattle.commit_pipeline.specs.Faults.{CoreFails};
ghost use Rattle.commit_pipeline.specs.Heres.{StandsForNode, durable_of};
ghost use Rattle.election_core.specs.Verdicts as own;

use crate::voting::{new_vote, votes_left};
use commit_pipeline::{Begun, Here, demote, idle, last, message, term_at, unknowns};
use edge_traits::LogView;
use ring_model::{Action, Body, CoreFault, Message, Plan, RequestVote, Soft, VoteReply};
use ring_types::{List, Memory, NodeId, Ring, Vote, at_least};
use std::alloc::Global;
use vote_history::History;

/// How a voter answers a request of its own term.
#[derive(Clone, Copy)]
enum Verdict {
    Refuse,
    /// The candidate has the vote of this term already.
    Again,
    /// A new vote, for which those up to the floor are dropped.
    Cast { floor: u64 },
}

/// A voter: its ring and number, and the votes that it keeps.
#[derive(Drop)]
struct Voter<'a> {
    pub ring: &'a Ring,
    pub me: NodeId,
    pub history: &'a History,
}

/// Whether the node makes nothing of a request: a learner has no vote.
fn is_silent(ring: &Ring, me: NodeId) -> bool
    ensures { result ≡ not (votes ring.now me) }
{
    !ring.voter(me)
}

/// The verdict of a voter that keeps a vote for the term: the same candidate has it again.
fn judge_again(candidate: NodeId, from: NodeId) -> Verdict
    ensures { result ≡ own.judged_again candidate from }
{
    if candidate == from {
        Verdict::Again
    } else {
        Verdict::Refuse
    }
}

/// The verdict of a voter that keeps no vote for the term.
fn judge_anew<V: LogView>(
    view: &mut V,
    history: &History,
    commit: u64,
    asked: &RequestVote,
) -> Result<Verdict, CoreFault>
    requires stands { V.stands view.old }
    requires inside { commit ≤ (V.sees view.old).length }
    ensures told { IfSome (V.sees view.old).log (λ log. IfOk result (λ it. it ≡ own.judged_anew history.now log commit asked.now)) }
    ensures keeps { Keeps V.sees V.behind V.stands V.faults view.old view.new }
    ensures failed { CoreFails (V.faults view.old) (V.faults view.new) result }
{
    let end = last(view)?;
    if at_least(asked.last, end) {
        let floor = term_at(view, commit)?;
        if history.room(floor) {
            return Ok(Verdict::Cast { floor });
        }
    }
    Ok(Verdict::Refuse)
}

fn judge<V: LogView>(
    view: &mut V,
    history: &History,
    commit: u64,
    from: NodeId,
    asked: &RequestVote,
) -> Result<Verdict, CoreFault>
    requires stands { V.stands view.old }
    requires inside { commit ≤ (V.sees view.old).length }
    ensures told { IfSome (V.sees view.old).log (λ log. IfOk result (λ it. it ≡ own.judged history.now log commit from asked.now)) }
    ensures keeps { Keeps V.sees V.behind V.stands V.faults view.old view.new }
    ensures failed { CoreFails (V.faults view.old) (V.faults view.new) result }
{
    match history.vote_in(asked.term) {
        Some(candidate) => Ok(judge_again(candidate, from)),
        None => judge_anew(view, history, commit, asked),
    }
}

fn refused_now(
    alloc: Global,
    me: NodeId,
    to: NodeId,
    term: u64,
    begun: Begun,
) -> Result<Plan, Memory>
    ensures { IfOk result (λ it. it ≡ own.replied begun (spec.refuse_vote me to term)) }
{
    let Begun { actions, says } = begun;
    let reply = VoteReply {
        term,
        granted: false,
        votes: List::new(alloc),
    };
    let messages = List::of_one(alloc, message(me, to, Body::VoteReply(reply)))?;
    Ok(Plan {
        actions,
        messages,
        says,
    })
}

fn granted_now(
    alloc: Global,
    me: NodeId,
    to: NodeId,
    term: u64,
    votes: List<Vote>,
    begun: Begun,
) -> Result<Plan, Memory>
    ensures { IfOk result (λ it. it ≡ own.replied begun (own.grant_of me to term votes)) }
{
    let Begun { actions, says } = begun;
    let reply = VoteReply {
        term,
        granted: true,
        votes,
    };
    let messages = List::of_one(alloc, message(me, to, Body::VoteReply(reply)))?;
    Ok(Plan {
        actions,
        messages,
        says,
    })
}

/// What stands first in the plan, and after it the vote.
fn with_vote(begun: Begun, vote: Vote, floor: u64) -> Result<Begun, Memory>
    ensures { IfOk result (λ it. it ≡ record { actions = begun.actions ++ action.Vote vote floor ∷ []; says = begun.says }) }
{
    let Begun { actions, says } = begun;
    let mut actions = actions;
    actions.push(Action::Vote { vote, floor })?;
    Ok(Begun { actions, says })
}

/// The plan of a voter by its verdict. With its vote it reports those of terms strictly between the
/// candidate's last and the present one.
fn answer(
    alloc: Global,
    voter: &Voter<'_>,
    from: NodeId,
    asked: &RequestVote,
    begun: Begun,
    verdict: Verdict,
) -> Result<Plan, Memory>
    ensures { IfOk result (λ it. it ≡ own.answered voter.now.ring.now voter.now.me voter.now.history.now from asked.now begun verdict) }
{
    let me = voter.me;
    let term = asked.term;
    let low = asked.last.term;
    match verdict {
        Verdict::Refuse => refused_now(alloc, me, from, term, begun),
        Verdict::Again => {
            let votes = voter.history.between(alloc, low, term)?;
            granted_now(alloc, me, from, term, votes, begun)
        }
        Verdict::Cast { floor } => {
            let votes = votes_left(alloc, voter.history, floor, low, term)?;
            let begun = with_vote(begun, new_vote(voter.ring, term, from), floor)?;
            granted_now(alloc, me, from, term, votes, begun)
        }
    }
}

/// What stands first in the plan of a voter: where the request's term is later, it is adopted.
fn begin(alloc: Global, later: bool, term: u64, soft: &Soft) -> Result<Begun, Memory>
    ensures { IfOk result (λ it. it ≡ own.begun_at later term soft.now) }
{
    if later {
        let actions = List::of_one(alloc, Action::SetTerm(term))?;
        let says = unknowns(alloc, soft)?;
        Ok(Begun { actions, says })
    } else {
        Ok(Begun::nothing(alloc))
    }
}

fn step_down(alloc: Global, later: bool, soft: &mut Soft)
    ensures { soft.new ≡ own.stepped_down later soft.old }
{
    if later {
        demote(alloc, soft);
    }
}

/// The plan of a node that is asked for its vote by the candidate `from`.
pub fn on_request<'a, V: LogView>(
    alloc: Global,
    here: Here<'a, V>,
    soft: &mut Soft,
    from: NodeId,
    asked: &RequestVote,
) -> Result<Plan, CoreFault>
    requires node { StandsForNode V.stands V.sees here soft.old }
    ensures told { IfSome (V.sees here.entry.view.now).log (λ log. IfOk result (λ it. spec.on_request here.entry.ring.now here.entry.me (durable_of here.entry log) soft.old from asked.now ≡ record { plan = it; soft = soft.new })) }
    ensures stays { OnErr result (soft.new ≡ soft.old) }
    ensures keeps { Keeps V.sees V.behind V.stands V.faults here.entry.view.now here.exit.0.now }
    ensures failed { CoreFails (V.faults here.entry.view.now) (V.faults here.exit.0.now) result }
{
    let Here {
        view,
        ring,
        me,
        term,
        history,
        ..
    } = here;
    if is_silent(ring, me) {
        return Ok(idle(alloc));
    }
    if asked.term < term {
        let Ok(plan) = refused_now(alloc, me, from, term, Begun::nothing(alloc)) else {
            return Err(CoreFault::Memory);
        };
        return Ok(plan);
    }
    let later = term < asked.term;
    let verdict = judge(view, history, soft.commit, from, asked)?;
    let Ok(begun) = begin(alloc, later, asked.term, soft) else {
        return Err(CoreFault::Memory);
    };
    let voter = Voter { ring, me, history };
    let Ok(plan) = answer(alloc, &voter, from, asked, begun, verdict) else {
        return Err(CoreFault::Memory);
    };
    step_down(alloc, later, soft);
    Ok(plan)
}
