//! A node from its first start on: how it stands for election, leads, writes and refuses.
ghost use Rattle.std.specs.Prelude.{◌≡◌, ◌<◌, ◌≤◌, false, length};
ghost use Rattle.node_unit.specs.Plans.{is_answer_input};
ghost use Rattle.node_unit.specs.Units.{IsOf, IsFitShown};
ghost use Rattle.ring_lawful.specs.EachStep.{IsGood};
ghost use Rattle.ring_types.specs.declared.limits.TheConstants.{TERM_END};

use super::fixtures::{one, text};
use node_unit::Unit;
use ring_model::{
    Append, AppendReply, Body, Input, Message, Outcome, ProxyAppend, RequestVote, Say, VoteReply,
    What,
};
use ring_types::{Change, Entry, List, NodeId, Opid, Payload, RegionId, Ring, Value};
use std::process::Abort;

pub const CLIENT: u32 = 70000;

// ---- steps

/// The step of a unit that runs.
pub fn took(rt: &(impl AllocGlobal + Abort), ring: &Ring, unit: &mut Unit, input: Input) -> Outcome
    requires of { IsOf ring.now unit.old }
    requires fit { IsFitShown ring.now unit.old.shown }
    requires good { IsGood ring.now input }
    ensures of { IsOf ring.now unit.new }
    ensures fit { IsFitShown ring.now unit.new.shown }
{
    let step = unit.step(rt.alloc(), ring, &input).expect(rt, "memory");
    step.expect(rt, "a node that runs")
}

pub fn started(rt: &(impl AllocGlobal + Abort), ring: &Ring, me: u32) -> Unit
    ensures of { IsOf ring.now result }
    ensures fit { IsFitShown ring.now result.shown }
{
    Unit::new(rt.alloc(), ring, NodeId(me)).expect(rt, "memory")
}

// ---- inputs

fn row(rt: &(impl AllocGlobal + Abort), table: &str, id: i64) -> Change {
    Change::Insert {
        table: text(rt, table),
        row: one(rt, Value::Int(id)),
    }
}

/// A client inserts a row with this key.
pub fn insert(rt: &(impl AllocGlobal + Abort), ring: &Ring, table: &str, id: i64) -> Input
    ensures good { IsGood ring.now result }
    ensures other { is_answer_input result ≡ false }
{
    let changes = List::of_one(rt.alloc(), row(rt, table, id)).expect(rt, "memory");
    Input::Write {
        client: CLIENT,
        changes,
    }
}

/// A voter's reply to node 1 that grants its vote and reports none.
pub fn grants(rt: &(impl AllocGlobal + Abort), ring: &Ring, from: u32, term: u64) -> Input
    requires { term < TERM_END }
    ensures good { IsGood ring.now result }
    ensures other { is_answer_input result ≡ false }
{
    let reply = VoteReply {
        term,
        granted: true,
        votes: List::new(rt.alloc()),
    };
    Input::Deliver(Message {
        from,
        to: 1,
        body: Body::VoteReply(reply),
    })
}

/// A member's answer to node 1 that it holds the entries up to a position.
pub fn holds(ring: &Ring, from: u32, term: u64, position: u64) -> Input
    requires term { term < TERM_END }
    requires position { position < TERM_END }
    ensures { IsGood ring.now result }
{
    let reply = AppendReply {
        term,
        ok: true,
        position,
    };
    Input::Deliver(Message {
        from,
        to: 1,
        body: Body::AppendReply(reply),
    })
}

/// A candidate with an empty log asks node 1 for its vote.
pub fn asks(ring: &Ring, from: u32, term: u64) -> Input
    requires { term < TERM_END }
    ensures good { IsGood ring.now result }
    ensures other { is_answer_input result ≡ false }
{
    let last = Opid {
        term: 0,
        position: 0,
    };
    Input::Deliver(Message {
        from,
        to: 1,
        body: Body::RequestVote(RequestVote { term, last }),
    })
}

/// A leader of this term sends node 1 the first entry of its log, which is of that term.
pub fn sends(rt: &(impl AllocGlobal + Abort), ring: &Ring, from: u32, term: u64) -> Input
    requires above { 0 < term }
    requires below { term < TERM_END }
    ensures good { IsGood ring.now result }
    ensures other { is_answer_input result ≡ false }
{
    let opid = Opid { term, position: 1 };
    let entry = Entry {
        opid,
        region: RegionId(0),
        payload: Payload::NoOp,
    };
    let sent = Append {
        term,
        leader: NodeId(from),
        prev: Opid {
            term: 0,
            position: 0,
        },
        commit: 0,
        entries: List::of_one(rt.alloc(), entry).expect(rt, "memory"),
    };
    Input::Deliver(Message {
        from,
        to: 1,
        body: Body::Append(sent),
    })
}

/// A leader asks node 1 to send on, as a proxy, the entry 1:1 in its name.
pub fn relays(rt: &(impl AllocGlobal + Abort), ring: &Ring, from: u32, target: u32) -> Input
    ensures good { IsGood ring.now result }
    ensures other { is_answer_input result ≡ false }
{
    let opid = Opid {
        term: 1,
        position: 1,
    };
    let sent = ProxyAppend {
        term: 1,
        target: NodeId(target),
        prev: Opid {
            term: 0,
            position: 0,
        },
        commit: 0,
        opids: List::of_one(rt.alloc(), opid).expect(rt, "memory"),
    };
    Input::Deliver(Message {
        from,
        to: 1,
        body: Body::ProxyAppend(sent),
    })
}

// ---- leaders

/// Node 1 that leads by its own vote, in term 1.
pub fn leader_alone(rt: &(impl AllocGlobal + Abort), ring: &Ring) -> Unit
    ensures of { IsOf ring.now result }
    ensures fit { IsFitShown ring.now result.shown }
{
    let mut unit = started(rt, ring, 1);
    let _ = took(rt, ring, &mut unit, Input::Elect);
    unit
}

/// Node 1 that leads by its own vote and that of node 3, in term 1. Its NoOp is not committed yet.
pub fn leader_of_three(rt: &(impl AllocGlobal + Abort), ring: &Ring) -> Unit
    ensures of { IsOf ring.now result }
    ensures fit { IsFitShown ring.now result.shown }
{
    let mut unit = leader_alone(rt, ring);
    let _ = took(rt, ring, &mut unit, grants(rt, ring, 3, 1));
    unit
}

// ---- sayings

pub fn told(outcome: Outcome) -> List<Say> {
    outcome.says
}

pub fn said(rt: &(impl AllocGlobal + Abort), what: What) -> List<Say> {
    one(
        rt,
        Say {
            client: CLIENT,
            what,
        },
    )
}
