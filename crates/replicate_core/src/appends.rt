ghost use Rattle.std.specs.Prelude.{◌≡◌, ◌+◌, ◌<◌, ◌≤◌, ◌==◌, ◌&&◌, nat_lt, [], false, None, IfOk, IfSome, OnErr, length};
ghost use Rattle.ring_types.specs.declared.limits.TheConstants.{LAST_FILE, TERM_END};
ghost use Rattle.ring_types.specs.Logs as logs;
ghost use Rattle.edge_traits.specs.Views.{Keeps};
ghost use Rattle.ring_model.specs.Nodes as nodes;
ghost use Rattle.ring_model.specs.Replication as spec;
ghost use Rattle.ring_model.specs.WellFormed.{EntriesFit};
ghost use Rattle.commit_pipeline.specs.Faults.{CoreFails};
ghost use Rattle.commit_pipeline.specs.Heres.{StandsForNode, durable_of};
ghost use Rattle.commit_pipeline.specs.Placed.{IsPlaced};
ghost use Rattle.replicate_core.specs.Appends as own;

use crate::accepts::{Receiver, accept, last_matched, new_commit};
use crate::tears::tear_in;
use commit_pipeline::{Begun, Here, demote, idle, is_leader, last, message, term_at, unknowns};
use edge_traits::LogView;
use ring_model::{
    Action, Append, AppendReply, Body, CoreFault, Message, Plan, Role, Say, Soft, Tear,
};
use ring_types::{LAST_FILE, List, Memory, NodeId, rotates};
use std::alloc::Global;

/// The plan of a member that is sent entries, and its commit count after it.
#[derive(Drop)]
struct Matched {
    plan: Plan,
    commit: u64,
}

fn reply(me: NodeId, to: NodeId, term: u64, ok: bool, position: u64) -> Message
    ensures { result ≡ spec.reply me to term ok position }
{
    message(
        me,
        to,
        Body::AppendReply(AppendReply { term, ok, position }),
    )
}

/// The plan with one reply to the leader that the message names.
fn reply_plan(alloc: Global, begun: Begun, reply: Message) -> Result<Plan, Memory>
    ensures { IfOk result (λ it. it ≡ own.reply_plan begun.actions reply begun.says) }
{
    let Begun { actions, says } = begun;
    let messages = List::of_one(alloc, reply)?;
    Ok(Plan {
        actions,
        messages,
        says,
    })
}

fn replied(alloc: Global, begun: Begun, reply: Message, commit: u64) -> Result<Matched, CoreFault>
    ensures told { IfOk result (λ it. it ≡ record { plan = own.reply_plan begun.actions reply begun.says; commit = commit }) }
    ensures failed { CoreFails 0 0 result }
{
    match reply_plan(alloc, begun, reply) {
        Ok(plan) => Ok(Matched { plan, commit }),
        Err(_) => Err(CoreFault::Memory),
    }
}

/// The previous opid has to be in the log; else the leader is told from where to send.
fn match_append<V: LogView>(
    alloc: Global,
    view: &mut V,
    receiver: &Receiver<'_>,
    sent: &Append,
    begun: Begun,
) -> Result<Matched, CoreFault>
    requires stands { V.stands view.old }
    requires sent { EntriesFit (V.sees view.old).schema sent.now }
    requires whole { IfSome (V.sees view.old).log (λ log. length log ≡ (V.sees view.old).length) }
    requires placed { IfSome (V.sees view.old).log IsPlaced }
    requires end { receiver.now.end ≡ (V.sees view.old).length }
    requires commit { receiver.now.commit ≤ receiver.now.end }
    requires applied { receiver.now.applied ≤ receiver.now.commit }
    requires fits { receiver.now.end < TERM_END }
    requires sound { IfSome (V.sees view.old).log (λ log. sent.now.prev.position < receiver.now.commit → spec.first_tear log receiver.now.commit (sent.now.prev.position + 1) (spec.terms_of sent.now.entries) ≡ None) }
    ensures told { IfSome (V.sees view.old).log (λ log. IfOk result (λ it. it ≡ own.matched_by receiver.now log begun sent.now)) }
    ensures keeps { Keeps V.sees V.behind V.stands V.faults view.old view.new }
    ensures failed { CoreFails (V.faults view.old) (V.faults view.new) result }
{
    let prev = sent.prev;
    if receiver.end < prev.position {
        let reply = reply(receiver.me, sent.leader, sent.term, false, receiver.end);
        return replied(alloc, begun, reply, receiver.commit);
    }
    if term_at(view, prev.position)? != prev.term {
        let position = prev.position.saturating_sub(1);
        let reply = reply(receiver.me, sent.leader, sent.term, false, position);
        return replied(alloc, begun, reply, receiver.commit);
    }
    let Begun { actions, says } = begun;
    let actions = accept(alloc, view, receiver, sent, actions)?;
    let position = last_matched(sent);
    let reply = reply(receiver.me, sent.leader, sent.term, true, position);
    let commit = new_commit(receiver.commit, sent);
    replied(alloc, Begun { actions, says }, reply, commit)
}

/// The action that adopts the message's term, if it is greater.
fn first_of(alloc: Global, term: u64, sent: &Append) -> Result<List<Action>, Memory>
    ensures { IfOk result (λ it. it ≡ own.first_of term sent.now) }
{
    let mut actions = List::new(alloc);
    if term < sent.term {
        actions.push(Action::SetTerm(sent.term))?;
    }
    Ok(actions)
}

fn is_candidate(role: Role) -> bool
    ensures { result ≡ own.is_candidate role }
{
    match role {
        Role::Follower => false,
        Role::Candidate => true,
        Role::Leader => false,
    }
}

/// Whether the node steps down: the message's term is greater, or a candidate hears of the leader of
/// its own term.
fn steps_down(term: u64, soft: &Soft, sent: &Append) -> bool
    ensures { result ≡ own.steps_down term soft.now sent.now }
{
    term < sent.term || is_candidate(soft.role)
}

fn says_of(alloc: Global, term: u64, soft: &Soft, sent: &Append) -> Result<List<Say>, Memory>
    ensures { IfOk result (λ it. it ≡ own.says_of term soft.now sent.now) }
{
    if steps_down(term, soft, sent) {
        unknowns(alloc, soft)
    } else {
        Ok(List::new(alloc))
    }
}

/// What comes first: the greater term is adopted, and a node that steps down says of its pending
/// writes that it does not know.
fn begin(alloc: Global, term: u64, soft: &Soft, sent: &Append) -> Result<Begun, Memory>
    ensures { IfOk result (λ it. it ≡ record { actions = own.first_of term sent.now; says = own.says_of term soft.now sent.now }) }
{
    Ok(Begun {
        actions: first_of(alloc, term, sent)?,
        says: says_of(alloc, term, soft, sent)?,
    })
}

/// Whether the log would end more binary log files than there may be.
fn outgrows(file: u32, sent: &Append) -> bool
    ensures { result ≡ nat_lt LAST_FILE (file + logs.rotates sent.now.entries) }
{
    LAST_FILE < (file as u64).saturating_add(rotates(sent.entries.as_slice()))
}

/// Whether the message is of the term that the node leads.
fn leads_it(term: u64, soft: &Soft, sent: &Append) -> bool
    ensures { result ≡ (nodes.is_leader soft.now.role && sent.now.term == term) }
{
    is_leader(soft.role) && sent.term == term
}

/// The reply to a message of an earlier term.
fn refuse_earlier(alloc: Global, me: NodeId, term: u64, sent: &Append) -> Result<Plan, CoreFault>
    ensures told { IfOk result (λ it. it ≡ own.reply_plan [] (spec.reply me sent.now.leader term false 0) []) }
    ensures failed { CoreFails 0 0 result }
{
    let reply = reply(me, sent.leader, term, false, 0);
    match reply_plan(alloc, Begun::nothing(alloc), reply) {
        Ok(plan) => Ok(plan),
        Err(_) => Err(CoreFault::Memory),
    }
}

fn torn_at(tear: Tear) -> CoreFault
    ensures { result ≡ own.torn_at tear }
{
    CoreFault::Torn {
        position: tear.position,
        kept_term: tear.kept_term,
        sent_term: tear.sent_term,
    }
}

/// Steps down where the message asks for it, and takes the commit count.
fn settle(alloc: Global, soft: &mut Soft, term: u64, sent: &Append, commit: u64)
    ensures { soft.new ≡ record (own.soft_of term soft.old sent.now) { commit = commit } }
{
    if steps_down(term, soft, sent) {
        demote(alloc, soft);
    }
    soft.commit = commit;
}

/// The plan of a node that is sent entries.
pub fn on_append<'a, V: LogView>(
    alloc: Global,
    here: Here<'a, V>,
    soft: &mut Soft,
    sent: &Append,
) -> Result<Plan, CoreFault>
    requires node { StandsForNode V.stands V.sees here soft.old }
    requires sent { EntriesFit here.ring.now.schema sent.now }
    ensures told { IfSome (V.sees here.entry.view.now).log (λ log. own.AppendAnswers here.entry.ring.now here.entry.me (durable_of here.entry log) soft.old sent.now soft.new result) }
    ensures stays { OnErr result (soft.new ≡ soft.old) }
    ensures keeps { Keeps V.sees V.behind V.stands V.faults here.entry.view.now here.exit.0.now }
    ensures failed { own.AppendFails (V.faults here.entry.view.now) (V.faults here.exit.0.now) result }
{
    let Here {
        view,
        ring,
        me,
        term,
        applied,
        prepared,
        file,
        ..
    } = here;
    if outgrows(file, sent) {
        return Ok(idle(alloc));
    }
    if sent.term < term {
        return refuse_earlier(alloc, me, term, sent);
    }
    if leads_it(term, soft, sent) {
        return Ok(idle(alloc));
    }
    let torn = tear_in(view, soft.commit, sent.prev, sent.entries.as_slice())?;
    match torn {
        Some(tear) => return Err(torn_at(tear)),
        None => {}
    }
    let end = last(view)?.position;
    let Ok(begun) = begin(alloc, term, soft, sent) else {
        return Err(CoreFault::Memory);
    };
    let receiver = Receiver {
        ring,
        me,
        end,
        applied,
        pairs: prepared.pairs().as_slice(),
        commit: soft.commit,
    };
    let matched = match_append(alloc, view, &receiver, sent, begun)?;
    settle(alloc, soft, term, sent, matched.commit);
    Ok(matched.plan)
}
