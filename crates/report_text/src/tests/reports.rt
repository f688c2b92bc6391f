//! Whole reports of a ring of one voter.
use super::fixtures::{SERVER, entry, gtid, none, one, pair, ring, shows, soft, txn, vote};
use crate::{write_report, write_summary};
use ring_model::{Durable, Kept, Role, Said, Say, Shown, What, World};
use ring_types::{Entry, List, NodeId, Opid, Payload, Ring};
use std::process::Abort;

fn written(rt: &(impl AllocGlobal + Abort), ring: &Ring, world: World) -> List<u8> {
    write_report(rt.alloc(), ring, &world).expect(rt, "memory")
}

/// The report of a world of the lone voter.
fn report(rt: &(impl AllocGlobal + Abort), world: World) -> List<u8> {
    written(rt, &ring(rt), world)
}

fn world(rt: &(impl AllocGlobal + Abort), events: u64, node: Shown) -> World {
    World {
        events,
        nodes: one(rt, node),
        messages: none(rt),
        cursors: one(rt, 0),
        said: none(rt),
        kept: none(rt),
        chosen: none(rt),
    }
}

// ---- one insert

/// A NoOp and an insert of the row 7, 'a'.
fn short_log(rt: &(impl AllocGlobal + Abort)) -> List<Entry> {
    let inserted = Payload::Txn(txn(rt, gtid(SERVER, 1), 7, "a"));
    pair(rt, entry(1, Payload::NoOp), entry(2, inserted))
}

fn applied_durable(rt: &(impl AllocGlobal + Abort)) -> Durable {
    Durable {
        term: 1,
        votes: one(rt, vote(1, 1)),
        log: short_log(rt),
        applied: 2,
        prepared: none(rt),
    }
}

/// Node 1 as it leads, all of the short log applied.
fn leading(rt: &(impl AllocGlobal + Abort)) -> Shown {
    Shown {
        node: NodeId(1),
        durable: applied_durable(rt),
        soft: Some(soft(rt, Role::Leader, 2)),
    }
}

/// What the client of the insert was told.
fn told() -> Said {
    let what = What::Committed {
        gtid: gtid(SERVER, 1),
        opid: Opid {
            term: 1,
            position: 2,
        },
        term: 1,
    };
    Said {
        event: 2,
        node: NodeId(1),
        say: Say { client: 0, what },
    }
}

fn inserted_world(rt: &(impl AllocGlobal + Abort)) -> World {
    World {
        said: one(rt, told()),
        chosen: short_log(rt),
        ..world(rt, 2, leading(rt))
    }
}

const ONE_INSERT: &str = "\
events 2 messages 0 chosen 2
chosen 1 1 1 noop
chosen 2 1 1 txn 3e11fa47-71ca-11e1-9e33-c80aa9429562:1
node 1 leader term 1 length 2 commit 2 applied 2 prepared 0
vote 1 1 1
log 1 1 1 noop
log 2 1 1 txn 3e11fa47-71ca-11e1-9e33-c80aa9429562:1
gtids 3e11fa47-71ca-11e1-9e33-c80aa9429562:1
file binlog.000001 471
table t 1
row 7 'a'
said 2 1 committed 3e11fa47-71ca-11e1-9e33-c80aa9429562:1 1:2
";

#[test]
fn one_insert_on_one_voter(rt: HostRuntime) {
    shows(&rt, report(&rt, inserted_world(&rt)), ONE_INSERT);
}

const IN_SHORT: &str = "\
events 2 messages 0 chosen 2
node 1 leader term 1 length 2 commit 2 applied 2 prepared 0
gtids 3e11fa47-71ca-11e1-9e33-c80aa9429562:1
file binlog.000001 471
table t 1
sayings committed 1 unknown 0 refused 0 other 0
stops 0
";

fn summary(rt: &(impl AllocGlobal + Abort), ring: &Ring, world: World) -> List<u8> {
    write_summary(rt.alloc(), ring, &world).expect(rt, "memory")
}

#[test]
fn one_insert_in_short(rt: HostRuntime) {
    shows(&rt, summary(&rt, &ring(&rt), inserted_world(&rt)), IN_SHORT);
}

// ---- no event

fn fresh_durable(rt: &(impl AllocGlobal + Abort)) -> Durable {
    Durable {
        term: 0,
        votes: none(rt),
        log: none(rt),
        applied: 0,
        prepared: none(rt),
    }
}

/// Node 1 at its start.
fn fresh(rt: &(impl AllocGlobal + Abort)) -> Shown {
    Shown {
        node: NodeId(1),
        durable: fresh_durable(rt),
        soft: Some(soft(rt, Role::Follower, 0)),
    }
}

const NO_EVENT: &str = "\
events 0 messages 0 chosen 0
node 1 follower term 0 length 0 commit 0 applied 0 prepared 0
gtids -
file binlog.000001 157
table t 0
";

#[test]
fn no_event(rt: HostRuntime) {
    shows(&rt, report(&rt, world(&rt, 0, fresh(&rt))), NO_EVENT);
}

// ---- a cut step

fn cut_world(rt: &(impl AllocGlobal + Abort)) -> World {
    let kept = Kept {
        event: 1,
        node: NodeId(1),
        actions: 3,
    };
    World {
        kept: one(rt, kept),
        ..world(rt, 1, fresh(rt))
    }
}

const CUT: &str = "\
events 1 messages 0 chosen 0
node 1 follower term 0 length 0 commit 0 applied 0 prepared 0
gtids -
file binlog.000001 157
table t 0
kept 1 1 3
";

#[test]
fn a_cut_step(rt: HostRuntime) {
    shows(&rt, report(&rt, cut_world(&rt)), CUT);
}
