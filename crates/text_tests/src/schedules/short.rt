//! Events of one word and a few numbers.
use super::{at, fail, stop, takes};
use ring_model::{Input, Line};
use ring_types::{CutAt, Keep, NodeId};
use std::process::Abort;

/// Expects the line to be the election of a node.
fn elects(rt: &(impl AllocGlobal + Abort), text: &str, node: u32, cut: Option<CutAt>) {
    takes(rt, text, at(node, Input::Elect), cut);
}

/// Expects the line to be the transfer from node 1 to node 2.
fn transfers(rt: &(impl AllocGlobal + Abort), text: &str, cut: Option<CutAt>) {
    let (client, target) = (0, 2);
    takes(rt, text, at(1, Input::Transfer { client, target }), cut);
}

#[test]
fn elections(rt: HostRuntime) {
    elects(&rt, "elect 1\n", 1, None);
    elects(&rt, "elect 0\n", 0, None);
    elects(&rt, "elect 4294967295\n", 4294967295, None);
    elects(&rt, "elect 1 stop 1 none\n", 1, stop(1, Keep::Nothing));
    let last = "elect 1 fail 18446744073709551615\n";
    elects(&rt, last, 1, fail(18446744073709551615));
}

#[test]
fn other_inputs(rt: HostRuntime) {
    takes(&rt, "beat 2\n", at(2, Input::Beat), None);
    let half = "beat 1 stop 12 half\n";
    takes(&rt, half, at(1, Input::Beat), stop(12, Keep::Half));
    takes(&rt, "rotate 3\n", at(3, Input::Rotate { client: 0 }), None);
    let all = "rotate 1 stop 3 all\n";
    let rotate = at(1, Input::Rotate { client: 0 });
    takes(&rt, all, rotate, stop(3, Keep::All));
    takes(
        &rt,
        "cancel 10\n",
        at(10, Input::Cancel { client: 0 }),
        None,
    );
    let cancel = at(1, Input::Cancel { client: 0 });
    takes(&rt, "cancel 1 fail 7\n", cancel, fail(7));
    transfers(&rt, "transfer 1 2\n", None);
    transfers(&rt, "transfer 1 2 fail 3\n", fail(3));
}

#[test]
fn messages(rt: HostRuntime) {
    takes(&rt, "deliver 0\n", Line::Give(0), None);
    let last = "deliver 18446744073709551615\n";
    takes(&rt, last, Line::Give(18446744073709551615), None);
    let all = "deliver 5 stop 2 all\n";
    takes(&rt, all, Line::Give(5), stop(2, Keep::All));
    takes(&rt, "next 1\n", Line::Next(NodeId(1)), None);
    let half = "next 1 stop 4 half\n";
    takes(&rt, half, Line::Next(NodeId(1)), stop(4, Keep::Half));
    takes(&rt, "skip 2\n", Line::Skip(NodeId(2)), None);
    takes(&rt, "skip 2 fail 1\n", Line::Skip(NodeId(2)), fail(1));
    takes(&rt, "again 3\n", Line::Again(NodeId(3)), None);
    let none = "again 3 stop 1 none\n";
    takes(&rt, none, Line::Again(NodeId(3)), stop(1, Keep::Nothing));
}

#[test]
fn crashes_and_restarts(rt: HostRuntime) {
    takes(&rt, "crash 4\n", Line::Crash(NodeId(4)), None);
    takes(&rt, "restart 5\n", Line::Restart(NodeId(5)), None);
    let fails = "restart 5 fail 2\n";
    takes(&rt, fails, Line::Restart(NodeId(5)), fail(2));
}
