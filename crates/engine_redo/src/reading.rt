//! Reading the items of a redo.
ghost use Rattle.std.specs.Prelude.{◌≡◌, true};
ghost use Rattle.std.specs.Int.{w32};
ghost use Rattle.event_frame.specs.Fields.{number};
ghost use Rattle.event_frame.specs.Forms.{found, front_of};
ghost use Rattle.event_frame.specs.Reading.{Gives};
ghost use Rattle.event_frame.specs.declared.field_readers.FieldFault.TheVariants as fault;
ghost use Rattle.engine_redo.specs.Items.{drop_form, events_form, is_small, item_form, opid_form, opids_form, position_form, prepare_form};
ghost use Rattle.engine_redo.specs.Reading.{Reads};
ghost use Rattle.ring_model.specs.declared.effects.Action.TheVariants as action;
ghost use Rattle.ring_types.specs.Rings.{is_schema};

use crate::faults::ItemFault;
use event_frame::{FieldFault, u8_at, u32_at, u64_at};
use event_txn::{TxnError, TxnRead, read_txn};
use ring_model::Action;
use ring_types::{GROUP_BYTES, List, Opid, Pair, Place, Schema};
use std::alloc::Global;

/// Where the events of a prepared transaction would stand.
pub(crate) const FRONT: Place = Place {
    file: 1,
    at: 0,
    sequence: 1,
};

/// The opid at the front of the bytes, and the bytes behind it.
fn opid_at(bytes: &[u8]) -> Result<(Opid, &[u8]), FieldFault>
    ensures { Gives (λ x. (x.0, x.1.now)) result (front_of fault.Cut opid_form bytes.now) }
{
    let (term, rest) = u64_at(bytes)?;
    let (position, rest) = u64_at(rest)?;
    Ok((Opid { term, position }, rest))
}

/// So many opids, and the bytes behind them.
fn opids_at(alloc: Global, bytes: &[u8], count: u64) -> Result<(List<Opid>, &[u8]), ItemFault>
    ensures { Reads (λ x. (x.0, x.1.now)) result (front_of fault.Cut (opids_form count) bytes.now) }
{
    let mut opids = List::new(alloc);
    let mut rest = bytes;
    for _ in 0..count {
        let (opid, after) = opid_at(rest)?;
        opids.push(opid)?;
        rest = after;
    }
    Ok((opids, rest))
}

/// The transaction whose events the bytes begin with, and the bytes behind them.
fn events_at<'a>(
    alloc: Global,
    schema: &Schema,
    bytes: &'a [u8],
    position: u64,
) -> Result<(TxnRead, &'a [u8]), ItemFault>
    requires { is_schema schema.now ≡ true }
    ensures { Reads (λ x. (x.0, x.1.now)) result (front_of fault.Cut (events_form schema.now position) bytes.now) }
{
    match read_txn(alloc, schema, bytes, position, FRONT) {
        Ok(read) => {
            let rest = &bytes[read.size as usize..];
            Ok((read, rest))
        }
        Err(TxnError::Memory) => Err(ItemFault::Memory),
        Err(_) => Err(ItemFault::Field(FieldFault::Wrong)),
    }
}

/// How many bytes the events of a transaction have.
fn size_at(bytes: &[u8]) -> Result<(u32, &[u8]), FieldFault>
    ensures { Gives (λ x. (x.0, x.1.now)) result (found fault.Cut fault.Wrong ((number w32 is_small).at bytes.now)) }
{
    let (size, rest) = u32_at(bytes)?;
    if u64::from(size) + 42 <= GROUP_BYTES {
        Ok((size, rest))
    } else {
        Err(FieldFault::Wrong)
    }
}

fn prepare_at<'a>(
    alloc: Global,
    schema: &Schema,
    bytes: &'a [u8],
) -> Result<(Action, &'a [u8]), ItemFault>
    requires { is_schema schema.now ≡ true }
    ensures { Reads (λ x. (x.0, x.1.now)) result (front_of fault.Cut (prepare_form schema.now) bytes.now) }
{
    let (opid, rest) = opid_at(bytes)?;
    let (size, rest) = size_at(rest)?;
    let (read, rest) = events_at(alloc, schema, rest, opid.position)?;
    if read.size != u64::from(size) {
        return Err(ItemFault::Field(FieldFault::Wrong));
    }
    let pair = Pair {
        opid,
        txn: read.txn,
    };
    Ok((Action::Prepare(pair), rest))
}

fn commit_at(bytes: &[u8]) -> Result<(Action, &[u8]), ItemFault>
    ensures { Reads (λ x. (x.0, x.1.now)) result (front_of fault.Cut (position_form action.Commit) bytes.now) }
{
    let (position, rest) = u64_at(bytes)?;
    Ok((Action::Commit(position), rest))
}

fn roll_back_at(bytes: &[u8]) -> Result<(Action, &[u8]), ItemFault>
    ensures { Reads (λ x. (x.0, x.1.now)) result (front_of fault.Cut (position_form action.RollBackAfter) bytes.now) }
{
    let (position, rest) = u64_at(bytes)?;
    Ok((Action::RollBackAfter(position), rest))
}

fn drop_at(alloc: Global, bytes: &[u8]) -> Result<(Action, &[u8]), ItemFault>
    ensures { Reads (λ x. (x.0, x.1.now)) result (front_of fault.Cut drop_form bytes.now) }
{
    let (count, rest) = u64_at(bytes)?;
    let (opids, rest) = opids_at(alloc, rest, count)?;
    Ok((Action::DropPairs(opids), rest))
}

/// The item at the front of the bytes, and the bytes behind it.
pub(crate) fn item_at<'a>(
    alloc: Global,
    schema: &Schema,
    bytes: &'a [u8],
) -> Result<(Action, &'a [u8]), ItemFault>
    requires { is_schema schema.now ≡ true }
    ensures { Reads (λ x. (x.0, x.1.now)) result (front_of fault.Cut (item_form schema.now) bytes.now) }
{
    let (kind, rest) = u8_at(bytes)?;
    match kind {
        1 => prepare_at(alloc, schema, rest),
        2 => commit_at(rest),
        3 => roll_back_at(rest),
        4 => drop_at(alloc, rest),
        _ => Err(ItemFault::Field(FieldFault::Wrong)),
    }
}
