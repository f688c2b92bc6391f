//! The pair that was prepared first, taken at its position and applied to the tables.
ghost use Rattle.std.specs.Prelude.{◌≡◌, OnErr, OnOk, None, option_map};
ghost use Rattle.node_store.specs.Kept.{applied_to, committed_to, front_at, rest_at};

use prepared_txns::Prepared;
use ring_types::{Memory, Pair, Txn};
use row_engine::Tables;

/// Takes the pair that was prepared first, if it has that position.
fn take_at(prepared: &mut Prepared, position: u64) -> Option<Pair>
    ensures front { result ≡ front_at position prepared.old }
    ensures rest { prepared.new ≡ rest_at position prepared.old }
{
    let is_there = match prepared.front() {
        Some(pair) => pair.opid.position == position,
        None => false,
    };
    if is_there {
        prepared.take_front()
    } else {
        None
    }
}

/// Applies a transaction to the tables, where there are tables. They are out of their place while it
/// is done, so that none are left if memory was wanting.
fn apply(tables: &mut Option<Tables>, txn: &Txn) -> Result<(), Memory>
    ensures ok { OnOk result (tables.new ≡ option_map (applied_to txn.now.changes) tables.old) }
    ensures err { OnErr result (tables.new ≡ None) }
{
    let Some(mut held) = tables.take() else {
        return Ok(());
    };
    let _was_accepted = held.apply(&txn.changes)?;
    *tables = Some(held);
    Ok(())
}

/// Commits the pair that was prepared first, if it has that position.
pub(crate) fn commit_at(
    prepared: &mut Prepared,
    tables: &mut Option<Tables>,
    position: u64,
) -> Result<(), Memory>
    ensures rest { prepared.new ≡ rest_at position prepared.old }
    ensures ok { OnOk result (tables.new ≡ option_map (committed_to (front_at position prepared.old)) tables.old) }
    ensures err { OnErr result (tables.new ≡ None) }
{
    match take_at(prepared, position) {
        Some(pair) => apply(tables, &pair.txn),
        None => Ok(()),
    }
}
