ghost use Rattle.std.specs.Prelude.{◌≡◌, ◌&&◌, [], false, IfOk, OnErr};
ghost use Rattle.commit_pipeline.specs.Faults.{CoreFails};
ghost use Rattle.edge_traits.specs.Views.{Keeps};
ghost use Rattle.node_store.specs.Stores.{engine_for};
ghost use Rattle.node_unit.specs.Plans.{IsRead, StepFails, TornRests, TornStays, is_answer_input};
ghost use Rattle.ring_lawful.specs.EachStep.{IsFitNode, IsFitPart, IsGood};
ghost use Rattle.ring_model.specs.Dispatch as dispatch;
ghost use Rattle.ring_model.specs.Replication as replication;
ghost use Rattle.ring_model.specs.Transfers as transfers;
ghost use Rattle.ring_model.specs.declared.messages.Body.TheVariants as body;

use crate::dispatch::plan;
use crate::foreign::is_foreign;
use commit_pipeline::{Here, idle, is_leader};
use edge_traits::LogView;
use node_store::NodeStore;
use replicate_core::on_ack;
use ring_model::{AppendReply, Body, CoreFault, Input, Message, Plan, Soft};
use ring_types::{NodeId, Ring};
use std::alloc::Global;
use transfer_core::after_ack;

/// What rules read of a node beside its log and what it has in memory.
#[derive(Drop)]
pub(crate) struct Kept<'a> {
    pub ring: &'a Ring,
    pub me: NodeId,
    pub store: &'a NodeStore,
}

// What a rule is handed of a node, with its log through a view.
macro_rules! here_of {
    ($kept:ident, $view:ident) => {
        Here {
            view: $view,
            ring: $kept.ring,
            me: $kept.me,
            term: $kept.store.term(),
            history: $kept.store.history(),
            gtids: $kept.store.gtids(),
            tables: $kept.store.tables(),
            applied: $kept.store.applied(),
            prepared: $kept.store.prepared(),
            file: $kept.store.file(),
        }
    };
}

/// The plan of an input other than an answer to entries.
fn plan_over<V: LogView>(
    alloc: Global,
    kept: &Kept<'_>,
    view: &mut V,
    soft: &mut Soft,
    input: &Input,
) -> Result<Plan, CoreFault>
    requires of { kept.now.store.now.engine ≡ engine_for kept.now.ring.now kept.now.me }
    requires fit { IsFitNode kept.now.ring.now kept.now.me kept.now.store.now.durable soft.old }
    requires read { IsRead V.stands V.sees kept.now.ring.now kept.now.store.now.durable view.old }
    requires good { IsGood kept.now.ring.now input.now }
    requires other { is_answer_input input.now ≡ false }
    ensures told { IfOk result (λ it. dispatch.step kept.now.ring.now kept.now.me kept.now.store.now.durable soft.old input.now ≡ record { plan = it; soft = soft.new }) }
    ensures torn { TornRests (dispatch.step kept.now.ring.now kept.now.me kept.now.store.now.durable soft.old input.now) soft.old result }
    ensures stays { OnErr result (soft.new ≡ soft.old) }
    ensures keeps { Keeps V.sees V.behind V.stands V.faults view.old view.new }
    ensures failed { StepFails (V.faults view.old) (V.faults view.new) result }
{
    let here = here_of!(kept, view);
    plan(alloc, here, soft, input)
}

/// Replication's rule of an answer to entries.
fn acked<V: LogView>(
    alloc: Global,
    kept: &Kept<'_>,
    view: &mut V,
    soft: &mut Soft,
    from: NodeId,
    reply: &AppendReply,
) -> Result<Plan, CoreFault>
    requires of { kept.now.store.now.engine ≡ engine_for kept.now.ring.now kept.now.me }
    requires fit { IsFitNode kept.now.ring.now kept.now.me kept.now.store.now.durable soft.old }
    requires read { IsRead V.stands V.sees kept.now.ring.now kept.now.store.now.durable view.old }
    ensures told { IfOk result (λ it. replication.on_ack kept.now.ring.now kept.now.me kept.now.store.now.durable soft.old from reply.now ≡ record { plan = it; soft = soft.new }) }
    ensures keeps { Keeps V.sees V.behind V.stands V.faults view.old view.new }
    ensures failed { CoreFails (V.faults view.old) (V.faults view.new) result }
{
    let here = here_of!(kept, view);
    on_ack(alloc, here, soft, from, reply)
}

/// The transfer's rule after an answer that counts.
fn handed_on<V: LogView>(
    alloc: Global,
    kept: &Kept<'_>,
    view: &mut V,
    soft: &mut Soft,
    from: NodeId,
) -> Result<Plan, CoreFault>
    requires fit { IsFitPart kept.now.ring.now kept.now.me kept.now.store.now.durable }
    requires read { IsRead V.stands V.sees kept.now.ring.now kept.now.store.now.durable view.old }
    ensures told { IfOk result (λ it. it ≡ record { actions = []; messages = transfers.after_ok kept.now.me kept.now.store.now.durable soft.old.peers from soft.old.transfer; says = [] }) }
    ensures stays { soft.new ≡ soft.old }
    ensures keeps { Keeps V.sees V.behind V.stands V.faults view.old view.new }
    ensures failed { CoreFails (V.faults view.old) (V.faults view.new) result }
{
    let here = here_of!(kept, view);
    after_ack(alloc, here, soft, from)
}

/// Whether the answer is an ok one of the leader's own term, with a position within its log.
fn counts(store: &NodeStore, soft: &Soft, reply: &AppendReply) -> bool
    ensures { result ≡ (replication.counts store.now.durable soft.now reply.now && reply.now.ok) }
{
    is_leader(soft.role)
        && reply.term == store.term()
        && reply.position <= store.log().len() as u64
        && reply.ok
}

/// An answer to entries is replication's rule, then the transfer's.
fn answer_plan<V: LogView>(
    alloc: Global,
    kept: &Kept<'_>,
    view: &mut V,
    soft: &mut Soft,
    from: NodeId,
    reply: &AppendReply,
) -> Result<Plan, CoreFault>
    requires of { kept.now.store.now.engine ≡ engine_for kept.now.ring.now kept.now.me }
    requires fit { IsFitNode kept.now.ring.now kept.now.me kept.now.store.now.durable soft.old }
    requires read { IsRead V.stands V.sees kept.now.ring.now kept.now.store.now.durable view.old }
    ensures told { IfOk result (λ it. transfers.on_answer kept.now.ring.now kept.now.me kept.now.store.now.durable soft.old from reply.now ≡ record { plan = it; soft = soft.new }) }
    ensures keeps { Keeps V.sees V.behind V.stands V.faults view.old view.new }
    ensures failed { CoreFails (V.faults view.old) (V.faults view.new) result }
{
    let hands_on = counts(kept.store, soft, reply);
    let plan = acked(alloc, kept, view, soft, from, reply)?;
    if !hands_on {
        return Ok(plan);
    }
    let Plan {
        actions,
        messages,
        says,
    } = plan;
    let more = handed_on(alloc, kept, view, soft, from)?;
    let mut messages = messages;
    let Ok(()) = messages.append(more.messages) else {
        return Err(CoreFault::Memory);
    };
    Ok(Plan {
        actions,
        messages,
        says,
    })
}

/// The plan of a message that answers entries: a foreign one does nothing.
fn heard<V: LogView>(
    alloc: Global,
    kept: &Kept<'_>,
    view: &mut V,
    soft: &mut Soft,
    message: &Message,
    reply: &AppendReply,
) -> Result<Plan, CoreFault>
    requires of { kept.now.store.now.engine ≡ engine_for kept.now.ring.now kept.now.me }
    requires fit { IsFitNode kept.now.ring.now kept.now.me kept.now.store.now.durable soft.old }
    requires read { IsRead V.stands V.sees kept.now.ring.now kept.now.store.now.durable view.old }
    requires is { message.now.body ≡ body.AppendReply reply.now }
    ensures told { IfOk result (λ it. dispatch.deliver kept.now.ring.now kept.now.me kept.now.store.now.durable soft.old message.now ≡ record { plan = it; soft = soft.new }) }
    ensures keeps { Keeps V.sees V.behind V.stands V.faults view.old view.new }
    ensures failed { CoreFails (V.faults view.old) (V.faults view.new) result }
{
    if is_foreign(kept.ring, kept.me, message) {
        return Ok(idle(alloc));
    }
    answer_plan(alloc, kept, view, soft, NodeId(message.from), reply)
}

/// The plan of a running node on an input, with its log read through a view. After a fault other than
/// of an answer to entries, what the node has in memory is as it was.
#[tactic(auto, using(crate::proofs::Torn::fails, crate::proofs::Torn::rests_always, crate::proofs::Torn::stays_always, crate::proofs::Torn::torn_stays))]
pub(crate) fn planned<V: LogView>(
    alloc: Global,
    kept: &Kept<'_>,
    view: &mut V,
    soft: &mut Soft,
    input: &Input,
) -> Result<Plan, CoreFault>
    requires of { kept.now.store.now.engine ≡ engine_for kept.now.ring.now kept.now.me }
    requires fit { IsFitNode kept.now.ring.now kept.now.me kept.now.store.now.durable soft.old }
    requires read { IsRead V.stands V.sees kept.now.ring.now kept.now.store.now.durable view.old }
    requires good { IsGood kept.now.ring.now input.now }
    ensures told { IfOk result (λ it. dispatch.step kept.now.ring.now kept.now.me kept.now.store.now.durable soft.old input.now ≡ record { plan = it; soft = soft.new }) }
    ensures torn { TornRests (dispatch.step kept.now.ring.now kept.now.me kept.now.store.now.durable soft.old input.now) soft.old result }
    ensures rests { TornStays soft.old soft.new result }
    ensures stays { is_answer_input input.now ≡ false → OnErr result (soft.new ≡ soft.old) }
    ensures keeps { Keeps V.sees V.behind V.stands V.faults view.old view.new }
    ensures failed { StepFails (V.faults view.old) (V.faults view.new) result }
{
    if let Input::Deliver(message) = input
        && let Body::AppendReply(reply) = &message.body
    {
        return heard(alloc, kept, view, soft, message, reply);
    }
    plan_over(alloc, kept, view, soft, input)
}
