//! Writing the items of a redo.
ghost use Rattle.std.specs.Prelude.{◌≡◌, ◌∷◌, ◌++◌, ◌<◌, ◌^◌, ◌≤◌, true, length, IfOk, OnOk};
ghost use Rattle.std.specs.Int.{to_le_bytes, w64};
ghost use Rattle.engine_redo.specs.Items.{IsItem};
ghost use Rattle.engine_redo.specs.Writing.{FitOpids, FitsItem, FitsOpid, MayBeItem, item_text, opid_text, opids_text};
ghost use Rattle.event_txn.specs.Laws.{IsTxn};
ghost use Rattle.ring_model.specs.declared.effects.Action.TheVariants as action;
ghost use Rattle.ring_types.specs.Rings.{is_schema};
ghost use Rattle.ring_types.specs.Sizes.{group_bytes, group_limit};
ghost use Rattle.ring_types.specs.declared.entries.Payload.TheVariants as payload;
ghost use Rattle.ring_types.specs.declared.schemas.Schema.{Schema};

use crate::reading::FRONT;
use event_txn::write_txn;
use ring_model::Action;
use ring_types::{List, Memory, Opid, Pair, Schema};
use std::alloc::Global;

fn put_opid(out: &mut Vec<u8>, opid: Opid) -> Result<(), Memory>
    ensures text { OnOk result (out.new.items ≡ out.old.items ++ opid_text opid) }
    ensures fits { OnOk result (FitsOpid opid) }
{
    out.extend_from_slice(&opid.term.to_le_bytes())?;
    out.extend_from_slice(&opid.position.to_le_bytes())?;
    Ok(())
}

fn put_opids(out: &mut Vec<u8>, opids: &[Opid]) -> Result<(), Memory>
    ensures text { OnOk result (out.new.items ≡ out.old.items ++ opids_text opids.now) }
    ensures fits { OnOk result (FitOpids opids.now) }
{
    for opid in opids {
        put_opid(out, *opid)?;
    }
    Ok(())
}

/// The item of a transaction that is prepared.
fn prepare_item(alloc: Global, schema: &Schema, pair: &Pair) -> Result<Vec<u8>, Memory>
    requires schema { is_schema schema.now ≡ true }
    requires txn { IsTxn schema.now pair.now.txn }
    requires small { group_bytes schema.now (payload.Txn pair.now.txn) ≤ group_limit }
    ensures text { IfOk result (λ it. it.items ≡ item_text schema.now (action.Prepare pair.now)) }
    ensures fits { IfOk result (λ it. FitsItem schema.now (action.Prepare pair.now)) }
{
    let mut events = Vec::new(alloc);
    write_txn(&mut events, schema, &pair.txn, pair.opid.position, FRONT)?;
    let mut out = vec![in alloc; 1u8]?;
    put_opid(&mut out, pair.opid)?;
    out.extend_from_slice(&(events.len() as u32).to_le_bytes())?;
    out.append(&mut events)?;
    Ok(out)
}

/// The item of this kind that has a position.
fn position_item(alloc: Global, kind: u8, position: u64) -> Result<Vec<u8>, Memory>
    ensures text { IfOk result (λ it. it.items ≡ kind ∷ to_le_bytes w64 position) }
    ensures fits { position < 2 ^ 64 }
{
    let mut out = vec![in alloc; kind]?;
    out.extend_from_slice(&position.to_le_bytes())?;
    Ok(out)
}

/// The item that drops the pairs of these opids.
fn drop_item(alloc: Global, opids: &List<Opid>) -> Result<Vec<u8>, Memory>
    ensures text { (schema : Schema) → IfOk result (λ it. it.items ≡ item_text schema (action.DropPairs opids.now)) }
    ensures fits { (schema : Schema) → IfOk result (λ it. FitsItem schema (action.DropPairs opids.now)) }
{
    let mut out = position_item(alloc, 4, opids.len() as u64)?;
    put_opids(&mut out, opids.as_slice())?;
    Ok(out)
}

/// The bytes of an item.
pub(crate) fn item_of(alloc: Global, schema: &Schema, item: &Action) -> Result<Vec<u8>, Memory>
    requires schema { is_schema schema.now ≡ true }
    requires item { MayBeItem schema.now item.now }
    ensures { IfOk result (λ it. IsItem schema.now it.items item.now) }
{
    match item {
        Action::Prepare(pair) => prepare_item(alloc, schema, pair),
        Action::Commit(position) => position_item(alloc, 2, *position),
        Action::RollBackAfter(position) => position_item(alloc, 3, *position),
        Action::DropPairs(opids) => drop_item(alloc, opids),
        _ => unreachable!(),
    }
}
