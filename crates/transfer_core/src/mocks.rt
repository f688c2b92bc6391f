//! The mock election, message by message: at its target, which a leader asks to hold it; at the other
//! voters; and at the target again, which counts their replies.
ghost use Rattle.std.specs.Prelude.{◌≡◌, ◌<◌, IfOk, IfSome, OnErr};
ghost use Rattle.ring_types.specs.declared.limits.TheConstants.{TERM_END};
ghost use Rattle.edge_traits.specs.Views.{Keeps};
ghost use Rattle.ring_model.specs.Nodes as nodes;
ghost use Rattle.ring_model.specs.Steps as steps;
ghost use Rattle.ring_model.specs.Transfers as spec;
ghost use Rattle.ring_model.specs.declared.messages.Body.TheVariants as body;
ghost use Rattle.commit_pipeline.specs.Faults.{CoreFails};
ghost use Rattle.commit_pipeline.specs.Heres.{StandsForNode, durable_of};
ghost use Rattle.transfer_core.specs.Polls as own;

use crate::plans::{sending, sending_one};
use crate::polls::{Poll, deciding, heard_poll, passes};
use commit_pipeline::{Here, idle, last, message};
use edge_traits::LogView;
use ring_model::{
    Body, CoreFault, Message, Mock, MockReply, MockRequest, MockStart, Plan, Role, Soft,
};
use ring_types::{List, Member, Memory, NodeId, Ring};
use std::alloc::Global;

fn mock_request(me: NodeId, to: NodeId, asked: MockRequest) -> Message
    ensures { result ≡ steps.message me to (body.MockRequest (record { term = asked.term; round = asked.round; last = asked.last })) }
{
    message(me, to, Body::MockRequest(asked))
}

/// The request to every other voter, in ring order.
fn mock_requests(
    alloc: Global,
    me: NodeId,
    asked: MockRequest,
    members: &[Member],
) -> Result<List<Message>, Memory>
    ensures { IfOk result (λ it. it ≡ spec.mock_requests me asked.term asked.round asked.last members.now) }
{
    let mut requests = List::new(alloc);
    for member in members {
        if member.id != me && member.kind.is_voter() {
            requests.push(mock_request(me, member.id, asked))?;
        }
    }
    Ok(requests)
}

fn is_old_round(mock: &Mock, from: NodeId, round: u64) -> bool
    ensures { result ≡ spec.is_old_round mock.now from round }
{
    match mock {
        Mock::Off => false,
        Mock::On {
            leader,
            round: kept,
            ..
        } => *leader == from && round <= *kept,
    }
}

fn is_follower(role: Role) -> bool
    ensures { result ≡ nodes.is_follower role }
{
    match role {
        Role::Follower => true,
        Role::Candidate => false,
        Role::Leader => false,
    }
}

/// Whether a node of this term holds the mock election: it votes and follows in the leader's term, and
/// has not heard of this round or a later one.
fn begins(ring: &Ring, me: NodeId, term: u64, soft: &Soft, from: NodeId, sent: &MockStart) -> bool
    ensures { result ≡ own.begins ring.now me term soft.now from sent.now }
{
    sent.term == term
        && ring.voter(me)
        && is_follower(soft.role)
        && !is_old_round(&soft.mock, from, sent.round)
}

/// What the target sends first: the result alone where its own test decides it; else the requests.
fn opening(
    alloc: Global,
    ring: &Ring,
    me: NodeId,
    term: u64,
    poll: &Poll,
) -> Result<List<Message>, Memory>
    ensures { IfOk result (λ it. it ≡ own.opening ring.now me term poll.now) }
{
    match poll.verdict(alloc, ring, me)? {
        Some(ok) => List::of_one(alloc, poll.result(me, term, ok)),
        None => {
            let asked = MockRequest {
                term,
                round: poll.round,
                last: poll.last,
            };
            mock_requests(alloc, me, asked, ring.members().as_slice())
        }
    }
}

/// The plan of a node that the leader `from` asks to hold a mock election.
#[tactic(auto, unfolding(ring_model::specs::Transfers::on_mock_start))]
pub fn on_mock_start<'a, V: LogView>(
    alloc: Global,
    here: Here<'a, V>,
    soft: &mut Soft,
    from: NodeId,
    sent: &MockStart,
) -> Result<Plan, CoreFault>
    requires node { StandsForNode V.stands V.sees here soft.old }
    ensures told { IfSome (V.sees here.entry.view.now).log (λ log. IfOk result (λ it. spec.on_mock_start here.entry.ring.now here.entry.me (durable_of here.entry log) soft.old from sent.now ≡ record { plan = it; soft = soft.new })) }
    ensures stays { OnErr result (soft.new ≡ soft.old) }
    ensures keeps { Keeps V.sees V.behind V.stands V.faults here.entry.view.now here.exit.0.now }
    ensures failed { CoreFails (V.faults here.entry.view.now) (V.faults here.exit.0.now) result }
{
    let Here {
        view,
        ring,
        me,
        term,
        ..
    } = here;
    if !begins(ring, me, term, soft, from, sent) {
        return Ok(idle(alloc));
    }
    let end = last(view)?.position;
    let Ok(poll) = Poll::begun(alloc, me, end, from, sent) else {
        return Err(CoreFault::Memory);
    };
    let Ok(messages) = opening(alloc, ring, me, sent.term, &poll) else {
        return Err(CoreFault::Memory);
    };
    soft.mock = poll.into_mock();
    Ok(sending(alloc, messages))
}

/// The reply of a node of this term whose log has `end` entries.
fn mock_reply(me: NodeId, term: u64, end: u64, from: NodeId, sent: &MockRequest) -> Message
    requires { end < TERM_END }
    ensures { result ≡ steps.message me from (body.MockReply (record { term = term; round = sent.now.round; ok = own.passes end sent.now.last })) }
{
    let reply = MockReply {
        term,
        round: sent.round,
        ok: passes(end, sent.last),
    };
    message(me, from, Body::MockReply(reply))
}

/// The plan of a voter that the target `from` asks whether it is near enough to the leader's last
/// entry.
#[tactic(auto, unfolding(ring_model::specs::Transfers::on_mock_request))]
pub fn on_mock_request<'a, V: LogView>(
    alloc: Global,
    here: Here<'a, V>,
    soft: &mut Soft,
    from: NodeId,
    sent: &MockRequest,
) -> Result<Plan, CoreFault>
    requires node { StandsForNode V.stands V.sees here soft.old }
    ensures told { IfSome (V.sees here.entry.view.now).log (λ log. IfOk result (λ it. spec.on_mock_request here.entry.ring.now here.entry.me (durable_of here.entry log) soft.old from sent.now ≡ record { plan = it; soft = soft.new })) }
    ensures stays { OnErr result (soft.new ≡ soft.old) }
    ensures keeps { Keeps V.sees V.behind V.stands V.faults here.entry.view.now here.exit.0.now }
    ensures failed { CoreFails (V.faults here.entry.view.now) (V.faults here.exit.0.now) result }
{
    let Here {
        view,
        ring,
        me,
        term,
        ..
    } = here;
    if sent.term != term || !ring.voter(me) {
        return Ok(idle(alloc));
    }
    let end = last(view)?.position;
    let Ok(plan) = sending_one(alloc, mock_reply(me, term, end, from, sent)) else {
        return Err(CoreFault::Memory);
    };
    Ok(plan)
}

/// The plan of a target that hears the reply of the voter `from`.
#[tactic(auto, unfolding(ring_model::specs::Transfers::on_mock_reply))]
pub fn on_mock_reply<'a, V: LogView>(
    alloc: Global,
    here: Here<'a, V>,
    soft: &mut Soft,
    from: NodeId,
    sent: &MockReply,
) -> Result<Plan, CoreFault>
    requires node { StandsForNode V.stands V.sees here soft.old }
    ensures told { IfSome (V.sees here.entry.view.now).log (λ log. IfOk result (λ it. spec.on_mock_reply here.entry.ring.now here.entry.me (durable_of here.entry log) soft.old from sent.now ≡ record { plan = it; soft = soft.new })) }
    ensures stays { OnErr result (soft.new ≡ soft.old) }
    ensures keeps { Keeps V.sees V.behind V.stands V.faults here.entry.view.now here.exit.0.now }
    ensures failed { CoreFails (V.faults here.entry.view.now) (V.faults here.exit.0.now) result }
{
    let Here { ring, me, term, .. } = here;
    let Ok(heard) = heard_poll(alloc, &soft.mock, term, from, sent) else {
        return Err(CoreFault::Memory);
    };
    let Some(poll) = heard else {
        return Ok(idle(alloc));
    };
    let Ok(before) = poll.verdict(alloc, ring, me) else {
        return Err(CoreFault::Memory);
    };
    let Ok(poll) = poll.with_reply(from, sent.ok) else {
        return Err(CoreFault::Memory);
    };
    let Ok(messages) = deciding(alloc, ring, me, term, before, &poll) else {
        return Err(CoreFault::Memory);
    };
    soft.mock = poll.into_mock();
    Ok(sending(alloc, messages))
}
