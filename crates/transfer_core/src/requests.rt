//! A client's commands: to hand the leadership over, and to end that.
ghost use Rattle.std.specs.Prelude.{◌≡◌, ◌<◌, None, IfOk, IfSome, OnErr};
ghost use Rattle.edge_traits.specs.Views.{Keeps};
ghost use Rattle.ring_model.specs.Transfers as spec;
ghost use Rattle.commit_pipeline.specs.Faults.{CoreFails};
ghost use Rattle.commit_pipeline.specs.Heres.{StandsForNode, durable_of};

use crate::plans::{sending_one, telling};
use commit_pipeline::{Here, idle, is_leader, is_ready, last, message, refused};
use edge_traits::LogView;
use ring_model::{Body, Cause, CoreFault, MockStart, Plan, Soft, Transfer, What};
use ring_types::{LAST_ROUND, NodeId, Ring};
use std::alloc::Global;

fn is_off(transfer: Transfer) -> bool
    ensures { result ≡ spec.is_off transfer }
{
    match transfer {
        Transfer::Off => true,
        Transfer::Mock { .. } => false,
        Transfer::Handing { .. } => false,
    }
}

/// Why a transfer is refused: the first cause that holds.
#[tactic(auto, unfolding(ring_model::specs::Transfers::transfer_refusal))]
fn transfer_refusal(ring: &Ring, me: NodeId, soft: &Soft, target: NodeId) -> Option<Cause>
    ensures value { result ≡ spec.transfer_refusal ring.now me soft.now target }
    ensures rounds { result ≡ None → soft.now.rounds < LAST_ROUND }
{
    if !is_leader(soft.role) {
        return Some(Cause::NotLeader);
    }
    if !is_ready(soft) {
        return Some(Cause::NotReady);
    }
    if !is_off(soft.transfer) {
        return Some(Cause::Transferring);
    }
    if LAST_ROUND <= soft.rounds {
        return Some(Cause::Exhausted);
    }
    if target == me || !ring.voter(target) {
        return Some(Cause::BadTarget);
    }
    None
}

/// The plan of a node whose client asks it to hand its leadership over to `target`: the first
/// refusal, or a new round of mock election at the target.
#[tactic(auto, unfolding(ring_model::specs::Transfers::ask_transfer))]
pub fn ask<'a, V: LogView>(
    alloc: Global,
    here: Here<'a, V>,
    soft: &mut Soft,
    client: u32,
    target: NodeId,
) -> Result<Plan, CoreFault>
    requires node { StandsForNode V.stands V.sees here soft.old }
    ensures told { IfSome (V.sees here.entry.view.now).log (λ log. IfOk result (λ it. spec.ask_transfer here.entry.ring.now here.entry.me (durable_of here.entry log) soft.old client target ≡ record { plan = it; soft = soft.new })) }
    ensures stays { OnErr result (soft.new ≡ soft.old) }
    ensures keeps { Keeps V.sees V.behind V.stands V.faults here.entry.view.now here.exit.0.now }
    ensures failed { CoreFails (V.faults here.entry.view.now) (V.faults here.exit.0.now) result }
{
    let Here {
        view,
        ring,
        me,
        term,
        ..
    } = here;
    match transfer_refusal(ring, me, soft, target) {
        Some(cause) => return refused(alloc, client, cause),
        None => {}
    }
    let round = soft.rounds + 1;
    let start = MockStart {
        term,
        round,
        last: last(view)?,
    };
    let word = message(me, target, Body::MockStart(start));
    let Ok(plan) = sending_one(alloc, word) else {
        return Err(CoreFault::Memory);
    };
    soft.rounds = round;
    soft.transfer = Transfer::Mock {
        target,
        round,
        client,
    };
    Ok(plan)
}

/// The plan of a node whose client ends a transfer.
#[tactic(auto, unfolding(ring_model::specs::Transfers::cancel))]
pub fn cancel<'a, V: LogView>(
    alloc: Global,
    here: Here<'a, V>,
    soft: &mut Soft,
    client: u32,
) -> Result<Plan, CoreFault>
    requires node { StandsForNode V.stands V.sees here soft.old }
    ensures told { IfSome (V.sees here.entry.view.now).log (λ log. IfOk result (λ it. spec.cancel soft.old client ≡ record { plan = it; soft = soft.new })) }
    ensures stays { OnErr result (soft.new ≡ soft.old) }
    ensures keeps { Keeps V.sees V.behind V.stands V.faults here.entry.view.now here.exit.0.now }
    ensures failed { CoreFails (V.faults here.entry.view.now) (V.faults here.exit.0.now) result }
{
    if is_off(soft.transfer) {
        return Ok(idle(alloc));
    }
    let Ok(plan) = telling(alloc, client, What::Cancelled) else {
        return Err(CoreFault::Memory);
    };
    soft.transfer = Transfer::Off;
    Ok(plan)
}
