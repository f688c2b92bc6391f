ghost use Rattle.std.specs.Prelude.{◌≡◌, false, IfOk, IfSome, OnErr};
ghost use Rattle.commit_pipeline.specs.Faults.{CoreFails};
ghost use Rattle.commit_pipeline.specs.Heres.{StandsForNode, durable_of};
ghost use Rattle.edge_traits.specs.Views.{Keeps};
ghost use Rattle.node_unit.specs.Plans.{StepFails, TornRests, is_answer, is_answer_input};
ghost use Rattle.ring_lawful.specs.EachStep.{IsGood};
ghost use Rattle.ring_model.specs.Dispatch as spec;
ghost use Rattle.ring_model.specs.Replication as replication;
ghost use Rattle.ring_model.specs.Steps as steps;
ghost use Rattle.ring_model.specs.Transfers as transfers;
ghost use Rattle.ring_model.specs.WellFormed.{BodyIsNear, EntriesFit};

use crate::foreign::is_foreign;
use commit_pipeline::{Here, idle, rotate, write};
use edge_traits::LogView;
use election_core::{on_reply, on_request, start};
use proxy_core::relay;
use replicate_core::{beat, on_append};
use ring_model::{Append, Body, CoreFault, Input, Message, Plan, ProxyAppend, Soft};
use ring_types::{List, NodeId};
use std::alloc::Global;
use transfer_core::{
    ask, cancel, on_mock_reply, on_mock_request, on_mock_result, on_mock_start, on_timeout_now,
};

// Names anew the node that a function is handed, to be handed on: the proof follows the view from
// part to part, and not with the whole.
macro_rules! hand_on {
    ($here:ident as $node:ident) => {
        let Here {
            view,
            ring,
            me,
            term,
            history,
            gtids,
            tables,
            applied,
            prepared,
            file,
        } = $here;
        let $node = Here {
            view,
            ring,
            me,
            term,
            history,
            gtids,
            tables,
            applied,
            prepared,
            file,
        };
    };
}

/// What a proxy is asked: one message, and nothing else.
#[tactic(auto, unfolding(ring_model::specs::Replication::relay))]
fn relay_plan<'a, V: LogView>(
    alloc: Global,
    here: Here<'a, V>,
    soft: &mut Soft,
    from: NodeId,
    sent: &ProxyAppend,
) -> Result<Plan, CoreFault>
    requires node { StandsForNode V.stands V.sees here soft.old }
    ensures told { IfSome (V.sees here.entry.view.now).log (λ log. IfOk result (λ it. replication.relay here.entry.me (durable_of here.entry log) soft.old from sent.now ≡ record { plan = it; soft = soft.new })) }
    ensures stays { OnErr result (soft.new ≡ soft.old) }
    ensures keeps { Keeps V.sees V.behind V.stands V.faults here.entry.view.now here.exit.0.now }
    ensures failed { CoreFails (V.faults here.entry.view.now) (V.faults here.exit.0.now) result }
{
    let Here { view, me, .. } = here;
    let message = relay(alloc, me, from, sent, view)?;
    let Ok(messages) = List::of_one(alloc, message) else {
        return Err(CoreFault::Memory);
    };
    Ok(Plan {
        actions: List::new(alloc),
        messages,
        says: List::new(alloc),
    })
}

/// `TimeoutNow` is a test, then an election.
#[tactic(auto, unfolding(ring_model::specs::Transfers::on_timeout))]
fn start_if_told<'a, V: LogView>(
    alloc: Global,
    here: Here<'a, V>,
    soft: &mut Soft,
    term: u64,
) -> Result<Plan, CoreFault>
    requires node { StandsForNode V.stands V.sees here soft.old }
    ensures told { IfSome (V.sees here.entry.view.now).log (λ log. IfOk result (λ it. transfers.on_timeout here.entry.ring.now here.entry.me (durable_of here.entry log) soft.old term ≡ record { plan = it; soft = soft.new })) }
    ensures stays { OnErr result (soft.new ≡ soft.old) }
    ensures keeps { Keeps V.sees V.behind V.stands V.faults here.entry.view.now here.exit.0.now }
    ensures failed { CoreFails (V.faults here.entry.view.now) (V.faults here.exit.0.now) result }
{
    if on_timeout_now(here.ring, here.me, here.term, soft, term) {
        hand_on!(here as node);
        start(alloc, node, soft)
    } else {
        Ok(idle(alloc))
    }
}

/// Entries, which may be torn.
fn append_plan<'a, V: LogView>(
    alloc: Global,
    here: Here<'a, V>,
    soft: &mut Soft,
    sent: &Append,
) -> Result<Plan, CoreFault>
    requires node { StandsForNode V.stands V.sees here soft.old }
    requires sent { EntriesFit here.ring.now.schema sent.now }
    ensures told { IfSome (V.sees here.entry.view.now).log (λ log. IfOk result (λ it. replication.on_append here.entry.ring.now here.entry.me (durable_of here.entry log) soft.old sent.now ≡ record { plan = it; soft = soft.new })) }
    ensures torn { IfSome (V.sees here.entry.view.now).log (λ log. TornRests (replication.on_append here.entry.ring.now here.entry.me (durable_of here.entry log) soft.old sent.now) soft.old result) }
    ensures stays { OnErr result (soft.new ≡ soft.old) }
    ensures keeps { Keeps V.sees V.behind V.stands V.faults here.entry.view.now here.exit.0.now }
    ensures failed { StepFails (V.faults here.entry.view.now) (V.faults here.exit.0.now) result }
{
    hand_on!(here as node);
    on_append(alloc, node, soft, sent)
}

/// What asks for nothing.
fn rest<'a, V: LogView>(
    alloc: Global,
    here: Here<'a, V>,
    soft: &mut Soft,
) -> Result<Plan, CoreFault>
    requires node { StandsForNode V.stands V.sees here soft.old }
    ensures told { IfSome (V.sees here.entry.view.now).log (λ log. IfOk result (λ it. steps.idle soft.old ≡ record { plan = it; soft = soft.new })) }
    ensures stays { OnErr result (soft.new ≡ soft.old) }
    ensures keeps { Keeps V.sees V.behind V.stands V.faults here.entry.view.now here.exit.0.now }
    ensures failed { CoreFails (V.faults here.entry.view.now) (V.faults here.exit.0.now) result }
{
    Ok(idle(alloc))
}

/// The rule of what a member or a client says, but for an answer to entries.
#[tactic(auto, using(crate::proofs::Torn::fails))]
fn body_plan<'a, V: LogView>(
    alloc: Global,
    here: Here<'a, V>,
    soft: &mut Soft,
    from: u32,
    body: &Body,
) -> Result<Plan, CoreFault>
    requires node { StandsForNode V.stands V.sees here soft.old }
    requires near { BodyIsNear here.ring.now.schema body.now }
    requires other { is_answer body.now ≡ false }
    ensures told { IfSome (V.sees here.entry.view.now).log (λ log. IfOk result (λ it. spec.body_step here.entry.ring.now here.entry.me (durable_of here.entry log) soft.old from body.now ≡ record { plan = it; soft = soft.new })) }
    ensures torn { IfSome (V.sees here.entry.view.now).log (λ log. TornRests (spec.body_step here.entry.ring.now here.entry.me (durable_of here.entry log) soft.old from body.now) soft.old result) }
    ensures stays { OnErr result (soft.new ≡ soft.old) }
    ensures keeps { Keeps V.sees V.behind V.stands V.faults here.entry.view.now here.exit.0.now }
    ensures failed { StepFails (V.faults here.entry.view.now) (V.faults here.exit.0.now) result }
{
    let sender = NodeId(from);
    hand_on!(here as node);
    match body {
        Body::RequestVote(asked) => on_request(alloc, node, soft, sender, asked),
        Body::VoteReply(reply) => on_reply(alloc, node, soft, sender, reply),
        Body::Append(sent) => append_plan(alloc, node, soft, sent),
        Body::AppendReply(_) => rest(alloc, node, soft),
        Body::ProxyAppend(sent) => relay_plan(alloc, node, soft, sender, sent),
        Body::MockStart(sent) => on_mock_start(alloc, node, soft, sender, sent),
        Body::MockRequest(sent) => on_mock_request(alloc, node, soft, sender, sent),
        Body::MockReply(sent) => on_mock_reply(alloc, node, soft, sender, sent),
        Body::MockResult(sent) => on_mock_result(alloc, node, soft, sent),
        Body::TimeoutNow { term } => start_if_told(alloc, node, soft, *term),
        Body::ClientWrite { changes } => write(alloc, node, soft, from, changes),
        Body::ClientRotate => rotate(alloc, node, soft, from),
        Body::ClientTransfer { target } => ask(alloc, node, soft, from, NodeId(*target)),
        Body::ClientCancel => cancel(alloc, node, soft, from),
        Body::ClientReply { .. } => rest(alloc, node, soft),
    }
}

/// The plan of a message: a foreign one does nothing.
fn deliver<'a, V: LogView>(
    alloc: Global,
    here: Here<'a, V>,
    soft: &mut Soft,
    message: &Message,
) -> Result<Plan, CoreFault>
    requires node { StandsForNode V.stands V.sees here soft.old }
    requires near { BodyIsNear here.ring.now.schema message.now.body }
    requires other { is_answer message.now.body ≡ false }
    ensures told { IfSome (V.sees here.entry.view.now).log (λ log. IfOk result (λ it. spec.deliver here.entry.ring.now here.entry.me (durable_of here.entry log) soft.old message.now ≡ record { plan = it; soft = soft.new })) }
    ensures torn { IfSome (V.sees here.entry.view.now).log (λ log. TornRests (spec.deliver here.entry.ring.now here.entry.me (durable_of here.entry log) soft.old message.now) soft.old result) }
    ensures stays { OnErr result (soft.new ≡ soft.old) }
    ensures keeps { Keeps V.sees V.behind V.stands V.faults here.entry.view.now here.exit.0.now }
    ensures failed { StepFails (V.faults here.entry.view.now) (V.faults here.exit.0.now) result }
{
    if is_foreign(here.ring, here.me, message) {
        return Ok(idle(alloc));
    }
    hand_on!(here as node);
    body_plan(alloc, node, soft, message.from, &message.body)
}

/// The plan of a running node on an input, but for an answer to entries.
#[tactic(auto, using(crate::proofs::Torn::fails, crate::proofs::Torn::not_torn))]
pub(crate) fn plan<'a, V: LogView>(
    alloc: Global,
    here: Here<'a, V>,
    soft: &mut Soft,
    input: &Input,
) -> Result<Plan, CoreFault>
    requires node { StandsForNode V.stands V.sees here soft.old }
    requires good { IsGood here.ring.now input.now }
    requires other { is_answer_input input.now ≡ false }
    ensures told { IfSome (V.sees here.entry.view.now).log (λ log. IfOk result (λ it. spec.step here.entry.ring.now here.entry.me (durable_of here.entry log) soft.old input.now ≡ record { plan = it; soft = soft.new })) }
    ensures torn { IfSome (V.sees here.entry.view.now).log (λ log. TornRests (spec.step here.entry.ring.now here.entry.me (durable_of here.entry log) soft.old input.now) soft.old result) }
    ensures stays { OnErr result (soft.new ≡ soft.old) }
    ensures keeps { Keeps V.sees V.behind V.stands V.faults here.entry.view.now here.exit.0.now }
    ensures failed { StepFails (V.faults here.entry.view.now) (V.faults here.exit.0.now) result }
{
    hand_on!(here as node);
    match input {
        Input::Elect => start(alloc, node, soft),
        Input::Beat => beat(alloc, node, soft),
        Input::Deliver(message) => deliver(alloc, node, soft, message),
        Input::Write { client, changes } => write(alloc, node, soft, *client, changes),
        Input::Rotate { client } => rotate(alloc, node, soft, *client),
        Input::Transfer { client, target } => ask(alloc, node, soft, *client, NodeId(*target)),
        Input::Cancel { client } => cancel(alloc, node, soft, *client),
    }
}
