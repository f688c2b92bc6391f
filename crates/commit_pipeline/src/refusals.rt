ghost use Rattle.std.specs.Prelude.{◌≡◌, IfOk};
ghost use Rattle.std.specs.Option.{option_copied};
ghost use Rattle.gtid_set.specs.Next.{next_in};
ghost use Rattle.ring_types.specs.Rows as rows;
ghost use Rattle.ring_model.specs.Writes as spec;
ghost use Rattle.commit_pipeline.specs.Faults.{CoreFails};
ghost use Rattle.commit_pipeline.specs.Refusals as own;
ghost use Rattle.commit_pipeline.specs.Written.{refused_plan};

use crate::roles::{is_leader, is_ready};
use gtid_set::GtidSet;
use prepared_txns::Prepared;
use ring_model::{Cause, CoreFault, Plan, Say, Soft, Transfer, What};
use ring_plain::{group_size, table_name};
use ring_types::{
    Change, Duplicate, GROUP_BYTES, LAST_FILE, List, Memory, Payload, Schema, TERM_END, Value,
};
use row_engine::Tables;
use std::alloc::Global;

/// What a client asks of a leader's stores and log: the changes, and the payload that holds them.
#[derive(Clone, Copy)]
pub(crate) struct Asked<'a> {
    pub schema: &'a Schema,
    /// The number of the server's next transaction, if it has one.
    pub next: Option<u64>,
    /// How many entries the log has.
    pub length: u64,
    pub payload: &'a Payload,
    pub prepared: &'a Prepared,
    pub changes: &'a List<Change>,
}

/// The plan in which one refusal is said to a client, and nothing else happens.
pub fn refused(alloc: Global, client: u32, cause: Cause) -> Result<Plan, CoreFault>
    ensures told { IfOk result (λ it. it ≡ refused_plan client cause) }
    ensures failed { CoreFails 0 0 result }
{
    let what = What::Refused(cause);
    let Ok(says) = List::of_one(alloc, Say { client, what }) else {
        return Err(CoreFault::Memory);
    };
    Ok(Plan {
        actions: List::new(alloc),
        messages: List::new(alloc),
        says,
    })
}

/// Whether the leader is handing its role over.
pub fn is_handing(transfer: Transfer) -> bool
    ensures { result ≡ spec.is_handing transfer }
{
    match transfer {
        Transfer::Off => false,
        Transfer::Mock { .. } => false,
        Transfer::Handing { .. } => true,
    }
}

/// The number of the server's next transaction, if it has one.
pub(crate) fn next_of(gtids: &GtidSet, server: u128) -> Option<u64>
    ensures { result ≡ next_in server gtids.now }
{
    match gtids.next_number(server) {
        Ok(next) => Some(next),
        Err(_) => None,
    }
}

fn first_value(alloc: Global, row: &[Value]) -> Result<Value, Memory>
    ensures { IfOk result (λ it. it ≡ rows.key_of row.now) }
{
    match row {
        [] => Ok(Value::Null),
        [key, ..] => key.copy(alloc),
    }
}

fn change_key(alloc: Global, change: &Change) -> Result<Value, Memory>
    ensures { IfOk result (λ it. it ≡ rows.change_key change.now) }
{
    match change {
        Change::Insert { row, .. } => first_value(alloc, row.as_slice()),
        Change::Update { row, .. } => first_value(alloc, row.as_slice()),
        Change::Delete { key, .. } => key.copy(alloc),
    }
}

/// The first change whose key a prepared transaction writes.
fn lock_of(
    alloc: Global,
    prepared: &Prepared,
    changes: &List<Change>,
) -> Result<Option<Cause>, Memory>
    ensures { IfOk result (λ it. it ≡ spec.lock_of prepared.now changes.now) }
{
    match prepared.conflict(changes) {
        None => Ok(None),
        Some(conflict) => match changes.get(conflict.change as usize) {
            None => Ok(None),
            Some(change) => Ok(Some(Cause::Locked {
                table: table_name(change).copy(alloc)?,
                key: change_key(alloc, change)?,
                holder: conflict.holder,
            })),
        },
    }
}

fn is_full(next: Option<u64>, length: u64) -> bool
    ensures { result ≡ own.is_full next length }
{
    next.is_none() || TERM_END - 1 <= length
}

fn size_refusal(asked: &Asked<'_>) -> Option<Cause>
    ensures { result ≡ own.size_cause asked.now.schema.now asked.now.next asked.now.length asked.now.payload.now }
{
    let bytes = group_size(asked.schema, asked.payload);
    if GROUP_BYTES < bytes {
        return Some(Cause::TooLarge { bytes });
    }
    if is_full(asked.next, asked.length) {
        return Some(Cause::Exhausted);
    }
    None
}

fn lock_refusal(alloc: Global, asked: &Asked<'_>) -> Result<Option<Cause>, Memory>
    ensures { IfOk result (λ it. it ≡ own.lock_cause asked.now.schema.now asked.now.next asked.now.length asked.now.payload.now asked.now.prepared.now asked.now.changes.now) }
{
    match lock_of(alloc, asked.prepared, asked.changes)? {
        Some(cause) => Ok(Some(cause)),
        None => Ok(size_refusal(asked)),
    }
}

fn change_refusal(
    alloc: Global,
    tables: &Tables,
    asked: &Asked<'_>,
) -> Result<Option<Cause>, Memory>
    ensures { IfOk result (λ it. it ≡ own.change_cause tables.now asked.now.schema.now asked.now.next asked.now.length asked.now.payload.now asked.now.prepared.now asked.now.changes.now) }
{
    match tables.check(asked.changes) {
        Err(refusal) => Ok(Some(Cause::Invalid(refusal))),
        Ok(()) => lock_refusal(alloc, asked),
    }
}

/// Why a write is refused, if it is: the first cause that holds.
pub(crate) fn write_refusal(
    alloc: Global,
    soft: &Soft,
    tables: Option<&Tables>,
    asked: &Asked<'_>,
) -> Result<Option<Cause>, Memory>
    ensures { IfOk result (λ it. it ≡ own.write_cause soft.now (option_copied tables.entry) asked.now.schema.now asked.now.next asked.now.length asked.now.payload.now asked.now.prepared.now asked.now.changes.now) }
{
    if !is_leader(soft.role) {
        return Ok(Some(Cause::NotLeader));
    }
    if !is_ready(soft) {
        return Ok(Some(Cause::NotReady));
    }
    let Some(tables) = tables else {
        return Ok(Some(Cause::NoEngine));
    };
    if is_handing(soft.transfer) {
        return Ok(Some(Cause::Transferring));
    }
    change_refusal(alloc, tables, asked)
}

/// Why a rotate is refused, if it is: the first cause that holds.
pub(crate) fn rotate_refusal(
    soft: &Soft,
    next: Option<u64>,
    length: u64,
    file: u32,
) -> Option<Cause>
    ensures { result ≡ own.rotate_cause soft.now next length file }
{
    if !is_leader(soft.role) {
        return Some(Cause::NotLeader);
    }
    if !is_ready(soft) {
        return Some(Cause::NotReady);
    }
    if is_handing(soft.transfer) {
        return Some(Cause::Transferring);
    }
    if is_full(next, length) {
        return Some(Cause::Exhausted);
    }
    if LAST_FILE <= u64::from(file) {
        return Some(Cause::LastFile);
    }
    None
}
