ghost use Rattle.std.specs.Prelude.{◌≡◌, ◌+◌, ◌^◌, ◌<◌, ◌≤◌, ◌++◌, [], Some, IfOk, IfSome};
ghost use Rattle.ring_types.specs.Logs as logs;
ghost use Rattle.edge_traits.specs.Views.{Keeps};
ghost use Rattle.ring_model.specs.Steps as spec;
ghost use Rattle.ring_model.specs.Actions as acts;
ghost use Rattle.commit_pipeline.specs.Advances.{kept_pairs, pairs_left, part_after, is_made};
ghost use Rattle.commit_pipeline.specs.Faults.{CoreFails};
ghost use Rattle.commit_pipeline.specs.Placed.{IsPlaced};

use crate::heres::Engine;
use crate::parts::is_prepared;
use crate::reads::{entry_at, term_at};
use edge_traits::LogView;
use ring_model::{Action, CoreFault};
use ring_types::{Entry, List, Memory, Opid, Pair, Payload, same_opid};

/// Whether a transaction of this opid is prepared and stays so once those of positions above `upto`
/// are rolled back.
#[tactic(auto, using(crate::proofs::Preparing::kept_prepared))]
fn is_kept(pairs: &[Pair], upto: Option<u64>, opid: Opid) -> bool
    ensures { result ≡ acts.is_prepared (kept_pairs upto pairs.now) opid }
{
    match upto {
        None => is_prepared(pairs, opid),
        Some(upto) => opid.position <= upto && is_prepared(pairs, opid),
    }
}

fn is_made(made: Option<Opid>, opid: Opid) -> bool
    ensures { result ≡ is_made made opid }
{
    match made {
        None => false,
        Some(made) => same_opid(made, opid),
    }
}

/// Whether a transaction of this opid is prepared once the plan's actions are done.
#[tactic(auto, using(crate::proofs::Preparing::made_prepared))]
fn stays_prepared(engine: &Engine<'_>, opid: Opid) -> bool
    ensures { result ≡ acts.is_prepared (pairs_left engine.now) opid }
{
    is_kept(engine.pairs, engine.upto, opid) || is_made(engine.made, opid)
}

/// Adds the preparing of an entry that is a transaction.
fn with_pair_of(actions: List<Action>, entry: Entry) -> Result<List<Action>, Memory>
    ensures { IfOk result (λ it. it ≡ actions ++ spec.prepare_entry [] (Some entry)) }
{
    let Entry { opid, payload, .. } = entry;
    let mut actions = actions;
    match payload {
        Payload::NoOp => {}
        Payload::Rotate => {}
        Payload::Txn(txn) => actions.push(Action::Prepare(Pair { opid, txn }))?,
    }
    Ok(actions)
}

/// Adds the preparing of the transaction at the position, where it is one and not yet prepared. Only
/// then the entry is read.
fn with_prepare<V: LogView>(
    view: &mut V,
    engine: &Engine<'_>,
    position: u64,
    actions: List<Action>,
) -> Result<List<Action>, CoreFault>
    requires stands { V.stands view.old }
    requires above { 0 < position }
    requires inside { position ≤ (V.sees view.old).length }
    requires placed { IfSome (V.sees view.old).log IsPlaced }
    ensures told { IfSome (V.sees view.old).log (λ log. IfOk result (λ it. it ≡ actions ++ spec.prepare_entry (pairs_left engine.now) (logs.entry_at log position))) }
    ensures keeps { Keeps V.sees V.behind V.stands V.faults view.old view.new }
    ensures failed { CoreFails (V.faults view.old) (V.faults view.new) result }
{
    let term = term_at(view, position)?;
    if stays_prepared(engine, Opid { term, position }) {
        return Ok(actions);
    }
    let entry = entry_at(view, position)?;
    match with_pair_of(actions, entry) {
        Ok(actions) => Ok(actions),
        Err(_) => Err(CoreFault::Memory),
    }
}

/// The actions, and after them those by which the engine follows from the applied count on for
/// `count` positions.
fn engine_actions<V: LogView>(
    view: &mut V,
    engine: &Engine<'_>,
    count: u64,
    actions: List<Action>,
) -> Result<List<Action>, CoreFault>
    requires stands { V.stands view.old }
    requires fits { engine.now.applied + count < 2 ^ 64 }
    requires inside { engine.now.applied + count ≤ (V.sees view.old).length }
    requires placed { IfSome (V.sees view.old).log IsPlaced }
    ensures told { IfSome (V.sees view.old).log (λ log. IfOk result (λ it. it ≡ actions ++ spec.engine_actions log (pairs_left engine.now) engine.now.applied count)) }
    ensures keeps { Keeps V.sees V.behind V.stands V.faults view.old view.new }
    ensures failed { CoreFails (V.faults view.old) (V.faults view.new) result }
{
    let mut all = actions;
    let mut position = engine.applied;
    let mut left = count;
    while left > 0 {
        position += 1;
        left -= 1;
        all = with_prepare(view, engine, position, all)?;
        let Ok(()) = all.push(Action::Commit(position)) else {
            return Err(CoreFault::Memory);
        };
    }
    Ok(all)
}

/// The actions, and after them those by which the engine follows up to a commit count; none on a
/// node without an engine.
pub fn follow<V: LogView>(
    view: &mut V,
    engine: &Engine<'_>,
    commit: u64,
    actions: List<Action>,
) -> Result<List<Action>, CoreFault>
    requires stands { V.stands view.old }
    requires applied_inside { engine.now.applied ≤ (V.sees view.old).length }
    requires commit_inside { commit ≤ (V.sees view.old).length }
    requires placed { IfSome (V.sees view.old).log IsPlaced }
    ensures told { IfSome (V.sees view.old).log (λ log. IfOk result (λ it. it ≡ actions ++ spec.follow_actions engine.now.ring.now engine.now.me (part_after 0 log engine.now.applied (pairs_left engine.now)) commit)) }
    ensures keeps { Keeps V.sees V.behind V.stands V.faults view.old view.new }
    ensures failed { CoreFails (V.faults view.old) (V.faults view.new) result }
{
    if engine.ring.runs_engine(engine.me) {
        let count = commit.saturating_sub(engine.applied);
        engine_actions(view, engine, count, actions)
    } else {
        Ok(actions)
    }
}
