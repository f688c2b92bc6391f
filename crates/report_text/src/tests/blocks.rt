//! The blocks of a node that is down and of a logtailer, both with transactions of two servers.
use super::fixtures::{SERVER, entry, gtid, one, pair, shows, soft, tailed_ring, txn, vote, with};
use crate::write_node;
use ring_model::{Durable, Role, Shown, Soft};
use ring_types::{Entry, List, NodeId, Opid, Pair, Payload, Ring, Txn};
use std::process::Abort;

fn written(rt: &(impl AllocGlobal + Abort), ring: &Ring, node: Shown) -> List<u8> {
    write_node(rt.alloc(), ring, &node).expect(rt, "memory")
}

/// The block of a node of the ring with a logtailer.
fn block(rt: &(impl AllocGlobal + Abort), node: Shown) -> List<u8> {
    written(rt, &tailed_ring(rt), node)
}

/// The transaction of this number, which inserts a row with the number as its key.
fn numbered(rt: &(impl AllocGlobal + Abort), server: u128, number: u32) -> Txn {
    let gtid = gtid(server, u64::from(number));
    txn(rt, gtid, i64::from(number), "it's\n")
}

fn added(
    rt: &(impl AllocGlobal + Abort),
    log: List<Entry>,
    server: u128,
    number: u32,
) -> List<Entry> {
    let position = (log.len() as u64).saturating_add(1);
    let payload = Payload::Txn(numbered(rt, server, number));
    with(rt, log, entry(position, payload))
}

/// Transactions of two servers, numbered 1, 3, 2, 5 of server 10 and 4 of the other, then a Rotate.
fn long_log(rt: &(impl AllocGlobal + Abort)) -> List<Entry> {
    let first = added(rt, List::new(rt.alloc()), 10, 1);
    let second = added(rt, first, 10, 3);
    let third = added(rt, second, 10, 2);
    let fourth = added(rt, third, SERVER, 4);
    let fifth = added(rt, fourth, 10, 5);
    with(rt, fifth, entry(6, Payload::Rotate))
}

fn prepared(rt: &(impl AllocGlobal + Abort)) -> Pair {
    Pair {
        opid: Opid {
            term: 1,
            position: 5,
        },
        txn: numbered(rt, 10, 5),
    }
}

fn durable(rt: &(impl AllocGlobal + Abort), applied: u64) -> Durable {
    Durable {
        term: 3,
        votes: pair(rt, vote(1, 2), vote(3, 1)),
        log: long_log(rt),
        applied,
        prepared: one(rt, prepared(rt)),
    }
}

/// A node with two votes and the long log, of which so many entries are applied and one more is
/// prepared.
fn behind(rt: &(impl AllocGlobal + Abort), node: u32, applied: u64, soft: Option<Soft>) -> Shown {
    Shown {
        node: NodeId(node),
        durable: durable(rt, applied),
        soft,
    }
}

const DOWN: &str = "\
node 1 down term 3 length 6 applied 2 prepared 1
vote 1 2 1
vote 3 1 1
log 1 1 1 txn 00000000-0000-0000-0000-00000000000a:1
log 2 1 1 txn 00000000-0000-0000-0000-00000000000a:3
log 3 1 1 txn 00000000-0000-0000-0000-00000000000a:2
log 4 1 1 txn 3e11fa47-71ca-11e1-9e33-c80aa9429562:4
log 5 1 1 txn 00000000-0000-0000-0000-00000000000a:5
log 6 1 1 rotate
gtids 00000000-0000-0000-0000-00000000000a:1-3:5,3e11fa47-71ca-11e1-9e33-c80aa9429562:4
file binlog.000001 1623
file binlog.000002 253
table t 2
row 1 'it\\x27s\\x0a'
row 3 'it\\x27s\\x0a'
";

#[test]
fn a_node_that_is_down(rt: HostRuntime) {
    shows(&rt, block(&rt, behind(&rt, 1, 2, None)), DOWN);
}

const TAILER: &str = "\
node 2 candidate term 3 length 6 commit 4 applied 0 prepared 1
vote 1 2 1
vote 3 1 1
log 1 1 1 txn 00000000-0000-0000-0000-00000000000a:1
log 2 1 1 txn 00000000-0000-0000-0000-00000000000a:3
log 3 1 1 txn 00000000-0000-0000-0000-00000000000a:2
log 4 1 1 txn 3e11fa47-71ca-11e1-9e33-c80aa9429562:4
log 5 1 1 txn 00000000-0000-0000-0000-00000000000a:5
log 6 1 1 rotate
gtids 00000000-0000-0000-0000-00000000000a:1-3:5,3e11fa47-71ca-11e1-9e33-c80aa9429562:4
file binlog.000001 1623
file binlog.000002 253
";

#[test]
fn a_logtailer_has_no_tables(rt: HostRuntime) {
    let candidate = soft(&rt, Role::Candidate, 4);
    shows(&rt, block(&rt, behind(&rt, 2, 0, Some(candidate))), TAILER);
}
