//! Handing over: once the mock election passed, the target is told to elect itself as soon as it has
//! the whole log.
ghost use Rattle.std.specs.Prelude.{◌≡◌, ◌<◌, [], IfOk, IfSome, OnErr, length};
ghost use Rattle.ring_types.specs.declared.limits.TheConstants.{TERM_END};
ghost use Rattle.edge_traits.specs.Views.{Keeps};
ghost use Rattle.ring_model.specs.Transfers as spec;
ghost use Rattle.commit_pipeline.specs.Faults.{CoreFails};
ghost use Rattle.commit_pipeline.specs.Heres.{StandsForNode, durable_of};
ghost use Rattle.transfer_core.specs.Halves as halves;
ghost use Rattle.transfer_core.specs.Handing as own;

use crate::plans::{sending, telling};
use commit_pipeline::{Here, idle, is_leader, last, message};
use edge_traits::LogView;
use ring_model::{Body, CoreFault, Message, MockResult, Peer, Plan, Say, Soft, Transfer, What};
use ring_types::{List, Memory, NodeId, Ring};
use std::alloc::Global;

/// A transfer whose mock election ended: its target, and the client that asked for it.
#[derive(Clone, Copy)]
struct Polled {
    target: NodeId,
    client: u32,
}

/// The transfer whose mock election this result ends: the result is of the leader's term and of the
/// round that it waits for.
fn ended(transfer: Transfer, term: u64, sent: &MockResult) -> Option<Polled>
    ensures { result ≡ own.ended transfer term sent.now }
{
    match transfer {
        Transfer::Off => None,
        Transfer::Mock {
            target,
            round,
            client,
        } => {
            if sent.term == term && sent.round == round {
                Some(Polled { target, client })
            } else {
                None
            }
        }
        Transfer::Handing { .. } => None,
    }
}

/// Whether the leader hands over to the member.
fn hands_to(transfer: Transfer, id: NodeId) -> bool
    ensures { result ≡ own.hands_to transfer id }
{
    match transfer {
        Transfer::Off => false,
        Transfer::Mock { .. } => false,
        Transfer::Handing { target, .. } => target == id,
    }
}

/// Whether the peer has matched exactly `position` entries.
fn has_matched(peers: &[Peer], id: NodeId, position: u64) -> bool
    ensures { result ≡ spec.has_matched peers.now id position }
{
    for peer in peers {
        if peer.node == id {
            return peer.matched == position;
        }
    }
    false
}

/// The word to the target to elect itself, once it has the whole log, of `end` entries.
fn hand_over(
    alloc: Global,
    me: NodeId,
    term: u64,
    end: u64,
    peers: &[Peer],
    target: NodeId,
) -> Result<List<Message>, Memory>
    ensures { IfOk result (λ it. it ≡ own.hand_over me term end peers.now target) }
{
    if has_matched(peers, target, end) {
        let word = Body::TimeoutNow { term };
        List::of_one(alloc, message(me, target, word))
    } else {
        Ok(List::new(alloc))
    }
}

/// The plan of a leader that begins to hand over: it sends these messages, and tells the client that
/// asked for it.
fn handing(
    alloc: Global,
    client: u32,
    target: NodeId,
    messages: List<Message>,
) -> Result<Plan, Memory>
    ensures { IfOk result (λ it. it ≡ own.handing client target messages) }
{
    let what = What::Moving(target);
    let says = List::of_one(alloc, Say { client, what })?;
    Ok(Plan {
        actions: List::new(alloc),
        messages,
        says,
    })
}

/// The plan of a leader that hears how a mock election ended: if it passed, the leader hands over.
#[tactic(auto, unfolding(ring_model::specs::Transfers::on_mock_result))]
pub fn on_mock_result<'a, V: LogView>(
    alloc: Global,
    here: Here<'a, V>,
    soft: &mut Soft,
    sent: &MockResult,
) -> Result<Plan, CoreFault>
    requires node { StandsForNode V.stands V.sees here soft.old }
    ensures told { IfSome (V.sees here.entry.view.now).log (λ log. IfOk result (λ it. spec.on_mock_result here.entry.me (durable_of here.entry log) soft.old sent.now ≡ record { plan = it; soft = soft.new })) }
    ensures stays { OnErr result (soft.new ≡ soft.old) }
    ensures keeps { Keeps V.sees V.behind V.stands V.faults here.entry.view.now here.exit.0.now }
    ensures failed { CoreFails (V.faults here.entry.view.now) (V.faults here.exit.0.now) result }
{
    let Here { view, me, term, .. } = here;
    let Some(polled) = ended(soft.transfer, term, sent) else {
        return Ok(idle(alloc));
    };
    let Polled { target, client } = polled;
    if !sent.ok {
        let Ok(plan) = telling(alloc, client, What::MoveFailed(target)) else {
            return Err(CoreFault::Memory);
        };
        soft.transfer = Transfer::Off;
        return Ok(plan);
    }
    let end = last(view)?.position;
    let Ok(messages) = hand_over(alloc, me, term, end, soft.peers.as_slice(), target) else {
        return Err(CoreFault::Memory);
    };
    let Ok(plan) = handing(alloc, client, target, messages) else {
        return Err(CoreFault::Memory);
    };
    soft.transfer = Transfer::Handing { target, client };
    Ok(plan)
}

/// What the ok reply of the member `from` adds to replication's plan, if that reply counts: the word
/// to elect itself, if the member is the target of a hand-over. The soft part is the one that
/// replication left.
pub fn after_ack<'a, V: LogView>(
    alloc: Global,
    here: Here<'a, V>,
    soft: &mut Soft,
    from: NodeId,
) -> Result<Plan, CoreFault>
    requires view { V.stands here.view.now }
    requires short { (V.sees here.view.now).length < TERM_END }
    requires whole { IfSome (V.sees here.view.now).log (λ log. length log ≡ (V.sees here.view.now).length) }
    ensures told { IfSome (V.sees here.entry.view.now).log (λ log. IfOk result (λ it. it ≡ record { actions = []; messages = spec.after_ok here.entry.me (durable_of here.entry log) soft.old.peers from soft.old.transfer; says = [] })) }
    ensures stays { soft.new ≡ soft.old }
    ensures keeps { Keeps V.sees V.behind V.stands V.faults here.entry.view.now here.exit.0.now }
    ensures failed { CoreFails (V.faults here.entry.view.now) (V.faults here.exit.0.now) result }
{
    let Here { view, me, term, .. } = here;
    if !hands_to(soft.transfer, from) {
        return Ok(idle(alloc));
    }
    let end = last(view)?.position;
    let Ok(messages) = hand_over(alloc, me, term, end, soft.peers.as_slice(), from) else {
        return Err(CoreFault::Memory);
    };
    Ok(sending(alloc, messages))
}

/// Whether a node of this term that is told to elect itself stands for election: the word is of its
/// own term, it votes and does not lead.
pub fn on_timeout_now(ring: &Ring, me: NodeId, term: u64, soft: &Soft, told_term: u64) -> bool
    ensures { result ≡ halves.stands_when_told ring.now me term soft.now told_term }
{
    told_term == term && ring.voter(me) && !is_leader(soft.role)
}
