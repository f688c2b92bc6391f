//! Rings, logs and nodes from few parts. Want of memory ends the test.
use ring_model::{Mock, Role, Soft, Transfer};
use ring_types::{
    Change, Column, Entry, Gtid, Kind, List, MemberPart, NodeId, Opid, Payload, RegionId, Ring,
    RingParts, Schema, Shape, Table, Text, Txn, Value, Vote,
};
use std::process::Abort;

pub const SERVER: u128 = 0x3e11fa4771ca11e19e33c80aa9429562;

/// Expects a text of these bytes.
pub fn shows(rt: &impl Abort, bytes: List<u8>, wanted: &str) {
    let shown = std::str::from_utf8(bytes.as_slice()).unwrap_or("not UTF-8");
    assert_eq!(rt; shown, wanted);
}

// ---- lists and texts

pub fn with<T: Drop>(rt: &(impl AllocGlobal + Abort), front: List<T>, item: T) -> List<T> {
    let mut list = front;
    list.push(item).expect(rt, "memory");
    list
}

pub fn none<T>(rt: &(impl AllocGlobal + Abort)) -> List<T> {
    List::new(rt.alloc())
}

pub fn one<T: Drop>(rt: &(impl AllocGlobal + Abort), item: T) -> List<T> {
    with(rt, none(rt), item)
}

pub fn pair<T: Drop>(rt: &(impl AllocGlobal + Abort), first: T, second: T) -> List<T> {
    with(rt, one(rt, first), second)
}

pub fn text(rt: &(impl AllocGlobal + Abort), of: &str) -> Text {
    Text::copy_of(rt.alloc(), of).expect(rt, "memory")
}

// ---- rings

fn column(rt: &(impl AllocGlobal + Abort), name: &str, shape: Shape) -> Column {
    Column {
        name: text(rt, name),
        shape,
    }
}

/// The table `t` with the columns `id int` and `name text 20`.
fn table(rt: &(impl AllocGlobal + Abort)) -> Table {
    let id = column(rt, "id", Shape::Int);
    let name = column(rt, "name", Shape::Text { limit: 20 });
    Table {
        name: text(rt, "t"),
        columns: pair(rt, id, name),
    }
}

fn schema(rt: &(impl AllocGlobal + Abort)) -> Schema {
    Schema {
        database: text(rt, "app"),
        tables: one(rt, table(rt)),
    }
}

fn member(rt: &(impl AllocGlobal + Abort), id: u32, kind: Kind) -> MemberPart {
    MemberPart {
        id,
        region: text(rt, "east"),
        kind,
        server: SERVER + u128::from(id) - 1,
        address: None,
    }
}

fn ring_of(rt: &(impl AllocGlobal + Abort), members: List<MemberPart>) -> Ring {
    let parts = RingParts {
        home: text(rt, "east"),
        regions: one(rt, text(rt, "east")),
        members,
        clients: none(rt),
        schema: schema(rt),
    };
    assert!(rt; parts.is_in_range());
    Ring::build(rt.alloc(), parts).expect(rt, "a ring")
}

/// The ring of one voter.
pub fn ring(rt: &(impl AllocGlobal + Abort)) -> Ring {
    ring_of(rt, one(rt, member(rt, 1, Kind::Full)))
}

/// The ring of a voter and, as node 2, a logtailer.
pub fn tailed_ring(rt: &(impl AllocGlobal + Abort)) -> Ring {
    let full = member(rt, 1, Kind::Full);
    ring_of(rt, pair(rt, full, member(rt, 2, Kind::Tailer)))
}

// ---- entries

pub fn entry(position: u64, payload: Payload) -> Entry {
    Entry {
        opid: Opid { term: 1, position },
        region: RegionId(1),
        payload,
    }
}

pub fn gtid(server: u128, number: u64) -> Gtid {
    Gtid { server, number }
}

fn insert(rt: &(impl AllocGlobal + Abort), id: i64, name: &str) -> Change {
    Change::Insert {
        table: text(rt, "t"),
        row: pair(rt, Value::Int(id), Value::Text(text(rt, name))),
    }
}

/// The insert of a row.
pub fn txn(rt: &(impl AllocGlobal + Abort), gtid: Gtid, id: i64, name: &str) -> Txn {
    Txn {
        gtid,
        changes: one(rt, insert(rt, id, name)),
    }
}

// ---- nodes

pub fn soft(rt: &(impl AllocGlobal + Abort), role: Role, commit: u64) -> Soft {
    Soft {
        role,
        commit,
        ready_at: 1,
        rounds: 0,
        grants: none(rt),
        peers: none(rt),
        pending: none(rt),
        transfer: Transfer::Off,
        mock: Mock::Off,
    }
}

pub fn vote(term: u64, candidate: u32) -> Vote {
    Vote {
        term,
        candidate: NodeId(candidate),
        region: RegionId(1),
    }
}
