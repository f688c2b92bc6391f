ghost use Rattle.std.specs.Prelude.{◌≡◌, ◌+◌, ◌-◌, ◌^◌, ◌<◌, ◌≤◌, ◌++◌, ◌∷◌, [], true, None, Some, IfOk, IfSome, OnErr, length};
ghost use Rattle.ring_types.specs.declared.limits.TheConstants.{LAST_FILE, TERM_END};
ghost use Rattle.ring_types.specs.Logs as logs;
ghost use Rattle.ring_types.specs.Rows.{payload_fits};
ghost use Rattle.ring_types.specs.Sizes.{group_bytes, group_limit};
ghost use Rattle.ring_types.specs.declared.entries.Payload.TheVariants as kind;
ghost use Rattle.edge_traits.specs.Views.{Keeps};
ghost use Rattle.ring_model.specs.declared.effects.Action.TheVariants as action;
ghost use Rattle.ring_model.specs.Writes as spec;
ghost use Rattle.commit_pipeline.specs.Faults.{CoreFails};
ghost use Rattle.commit_pipeline.specs.Heres.{IsLedLog, StandsForNode, durable_of};
ghost use Rattle.commit_pipeline.specs.Refusals.{txn_of};
ghost use Rattle.commit_pipeline.specs.Written as own;

use crate::adds::add_entry;
use crate::advances::Advanced;
use crate::heres::{Engine, Here, Leader};
use crate::reads::last;
use crate::refusals::{Asked, next_of, refused, rotate_refusal, write_refusal};
use crate::steps::Begun;
use edge_traits::LogView;
use ring_model::{Action, CoreFault, Pending, Plan, Say, Soft, What};
use ring_types::{Change, Duplicate, Entry, Gtid, List, Memory, Opid, Pair, Payload, Txn};
use std::alloc::Global;

fn next_gtid(server: u128, next: Option<u64>) -> Gtid
    ensures { result ≡ (txn_of server next []).gtid }
{
    Gtid {
        server,
        number: next.unwrap_or(0),
    }
}

/// A client's write: its transaction, and the payload of the entry that holds the same.
#[derive(Drop)]
struct ClientWrite {
    client: u32,
    txn: Txn,
    payload: Payload,
}

fn write_of(
    alloc: Global,
    server: u128,
    next: Option<u64>,
    client: u32,
    changes: &List<Change>,
) -> Result<ClientWrite, Memory>
    ensures { IfOk result (λ it. it ≡ own.client_write server next client changes.now) }
{
    let txn = Txn {
        gtid: next_gtid(server, next),
        changes: changes.copy(alloc)?,
    };
    let payload = Payload::Txn(txn.copy(alloc)?);
    Ok(ClientWrite {
        client,
        txn,
        payload,
    })
}

fn prepare(alloc: Global, opid: Opid, txn: Txn) -> Result<Begun, Memory>
    ensures { IfOk result (λ it. it ≡ record { actions = action.Prepare (record { opid = opid; txn = txn }) ∷ []; says = [] }) }
{
    let actions = List::of_one(alloc, Action::Prepare(Pair { opid, txn }))?;
    Ok(Begun {
        actions,
        says: List::new(alloc),
    })
}

/// The pending writes with one more.
fn awaits(
    alloc: Global,
    pending: &[Pending],
    client: u32,
    gtid: Gtid,
    opid: Opid,
) -> Result<List<Pending>, Memory>
    ensures { IfOk result (λ it. it ≡ pending.now ++ record { client = client; gtid = gtid; opid = opid } ∷ []) }
{
    let mut all = List::new(alloc);
    all.extend_from_slice(pending)?;
    all.push(Pending { client, gtid, opid })?;
    Ok(all)
}

/// The step of a write that is not refused: its transaction prepared, and its entry added.
fn add_write<V: LogView>(
    alloc: Global,
    view: &mut V,
    end: u64,
    leader: &Leader<'_>,
    write: ClientWrite,
) -> Result<Advanced, CoreFault>
    requires stands { V.stands view.old }
    requires end { end ≡ (V.sees view.old).length }
    requires whole { IfSome (V.sees view.old).log (λ log. length log ≡ (V.sees view.old).length) }
    requires short { end + 1 < TERM_END }
    requires applied { leader.now.engine.applied ≤ leader.now.commit }
    requires commit { leader.now.commit ≤ end }
    requires is { write.payload ≡ kind.Txn write.txn }
    requires fits { payload_fits (V.sees view.old).schema (kind.Txn write.txn) ≡ true }
    requires small { group_bytes (V.sees view.old).schema (kind.Txn write.txn) ≤ group_limit }
    requires led { IfSome (V.sees view.old).log (IsLedLog leader.now.term) }
    ensures told { IfSome (V.sees view.old).log (λ log. IfOk result (λ it. it ≡ own.write_by leader.now.engine.ring.now leader.now.engine.me leader.now.term log leader.now.engine.applied leader.now.engine.pairs.now leader.now.commit leader.now.peers.now leader.now.pending.now write.client write.txn end)) }
    ensures keeps { Keeps V.sees V.behind V.stands V.faults view.old view.new }
    ensures failed { CoreFails (V.faults view.old) (V.faults view.new) result }
{
    let ClientWrite {
        client,
        txn,
        payload,
    } = write;
    let engine = &leader.engine;
    let opid = Opid {
        term: leader.term,
        position: end + 1,
    };
    let Ok(pending) = awaits(alloc, leader.pending, client, txn.gtid, opid) else {
        return Err(CoreFault::Memory);
    };
    let Ok(first) = prepare(alloc, opid, txn) else {
        return Err(CoreFault::Memory);
    };
    let entry = Entry {
        opid,
        region: engine.ring.region_of(engine.me),
        payload,
    };
    let made = Engine {
        upto: None,
        made: Some(opid),
        ..*engine
    };
    let leader = Leader {
        engine: made,
        pending: pending.as_slice(),
        ..*leader
    };
    add_entry(alloc, view, end, &leader, entry, first)
}

/// The plan of a client's write: the first refusal, or the transaction prepared and its entry added,
/// and the client waits for its commit.
pub fn write<'a, V: LogView>(
    alloc: Global,
    here: Here<'a, V>,
    soft: &mut Soft,
    client: u32,
    changes: &List<Change>,
) -> Result<Plan, CoreFault>
    requires node { StandsForNode V.stands V.sees here soft.old }
    requires some { 0 < length changes.now }
    ensures told { IfSome (V.sees here.entry.view.now).log (λ log. IfOk result (λ it. spec.write here.entry.ring.now here.entry.me (durable_of here.entry log) soft.old client changes.now ≡ record { plan = it; soft = soft.new })) }
    ensures stays { OnErr result (soft.new ≡ soft.old) }
    ensures keeps { Keeps V.sees V.behind V.stands V.faults here.entry.view.now here.exit.0.now }
    ensures failed { CoreFails (V.faults here.entry.view.now) (V.faults here.exit.0.now) result }
{
    let Here {
        view,
        ring,
        me,
        term,
        gtids,
        tables,
        applied,
        prepared,
        ..
    } = here;
    let end = last(view)?.position;
    let server = ring.server_of(me);
    let next = next_of(gtids, server);
    let Ok(write) = write_of(alloc, server, next, client, changes) else {
        return Err(CoreFault::Memory);
    };
    let asked = Asked {
        schema: ring.schema(),
        next,
        length: end,
        payload: &write.payload,
        prepared,
        changes,
    };
    let Ok(refusal) = write_refusal(alloc, soft, tables, &asked) else {
        return Err(CoreFault::Memory);
    };
    match refusal {
        Some(cause) => return refused(alloc, client, cause),
        None => {}
    }
    let leader = Leader::new(ring, me, term, applied, prepared, soft);
    let advanced = add_write(alloc, view, end, &leader, write)?;
    Ok(advanced.settle(soft))
}

/// The step of a rotate that is not refused: its entry added.
fn add_rotate<V: LogView>(
    alloc: Global,
    view: &mut V,
    end: u64,
    leader: &Leader<'_>,
    client: u32,
) -> Result<Advanced, CoreFault>
    requires stands { V.stands view.old }
    requires end { end ≡ (V.sees view.old).length }
    requires whole { IfSome (V.sees view.old).log (λ log. length log ≡ (V.sees view.old).length) }
    requires short { end + 1 < TERM_END }
    requires applied { leader.now.engine.applied ≤ leader.now.commit }
    requires commit { leader.now.commit ≤ end }
    requires led { IfSome (V.sees view.old).log (IsLedLog leader.now.term) }
    requires plain { (leader.now.engine.upto ≡ None) × (leader.now.engine.made ≡ None) }
    requires room { IfSome (V.sees view.old).log (λ log. logs.rotates log + 1 ≤ LAST_FILE - 1) }
    ensures told { IfSome (V.sees view.old).log (λ log. IfOk result (λ it. it ≡ own.rotate_by leader.now.engine.ring.now leader.now.engine.me leader.now.term log leader.now.engine.applied leader.now.engine.pairs.now leader.now.commit leader.now.peers.now leader.now.pending.now client end)) }
    ensures keeps { Keeps V.sees V.behind V.stands V.faults view.old view.new }
    ensures failed { CoreFails (V.faults view.old) (V.faults view.new) result }
{
    let engine = &leader.engine;
    let opid = Opid {
        term: leader.term,
        position: end + 1,
    };
    let what = What::Rotated(opid);
    let Ok(says) = List::of_one(alloc, Say { client, what }) else {
        return Err(CoreFault::Memory);
    };
    let entry = Entry {
        opid,
        region: engine.ring.region_of(engine.me),
        payload: Payload::Rotate,
    };
    let first = Begun {
        actions: List::new(alloc),
        says,
    };
    add_entry(alloc, view, end, leader, entry, first)
}

/// The plan of a client's command to end the binary log file.
pub fn rotate<'a, V: LogView>(
    alloc: Global,
    here: Here<'a, V>,
    soft: &mut Soft,
    client: u32,
) -> Result<Plan, CoreFault>
    requires node { StandsForNode V.stands V.sees here soft.old }
    ensures told { IfSome (V.sees here.entry.view.now).log (λ log. IfOk result (λ it. spec.rotate here.entry.ring.now here.entry.me (durable_of here.entry log) soft.old client ≡ record { plan = it; soft = soft.new })) }
    ensures stays { OnErr result (soft.new ≡ soft.old) }
    ensures keeps { Keeps V.sees V.behind V.stands V.faults here.entry.view.now here.exit.0.now }
    ensures failed { CoreFails (V.faults here.entry.view.now) (V.faults here.exit.0.now) result }
{
    let Here {
        view,
        ring,
        me,
        term,
        gtids,
        applied,
        prepared,
        file,
        ..
    } = here;
    let end = last(view)?.position;
    let server = ring.server_of(me);
    let next = next_of(gtids, server);
    match rotate_refusal(soft, next, end, file) {
        Some(cause) => return refused(alloc, client, cause),
        None => {}
    }
    let leader = Leader::new(ring, me, term, applied, prepared, soft);
    let advanced = add_rotate(alloc, view, end, &leader, client)?;
    Ok(advanced.settle(soft))
}
