//! Rings and votes from few parts. Want of memory ends the test.
use ring_types::{
    Column, Grant, Kind, List, MemberPart, NodeId, RegionId, Ring, RingParts, Schema, Shape, Table,
    Text, Vote,
};
use std::process::Abort;

/// Expects two values to be the same.
pub fn same<T: PartialEq + Drop>(rt: &impl Abort, got: T, wanted: T) {
    assert!(rt; got == wanted);
}

// ---- lists and texts

pub fn with<T: Drop>(rt: &(impl AllocGlobal + Abort), list: List<T>, item: T) -> List<T> {
    let mut list = list;
    list.push(item).expect(rt, "memory");
    list
}

pub fn none<T>(rt: &(impl AllocGlobal + Abort)) -> List<T> {
    List::new(rt.alloc())
}

pub fn one<T: Drop>(rt: &(impl AllocGlobal + Abort), item: T) -> List<T> {
    with(rt, none(rt), item)
}

pub fn pair<T: Drop>(rt: &(impl AllocGlobal + Abort), first: T, second: T) -> List<T> {
    with(rt, one(rt, first), second)
}

pub fn text(rt: &(impl AllocGlobal + Abort), of: &str) -> Text {
    Text::from_string(String::from_str(rt.alloc(), of).expect(rt, "memory"))
}

// ---- rings

/// The table `t` with a number as its key.
fn table(rt: &(impl AllocGlobal + Abort)) -> Table {
    let id = Column {
        name: text(rt, "id"),
        shape: Shape::Int,
    };
    Table {
        name: text(rt, "t"),
        columns: one(rt, id),
    }
}

fn schema(rt: &(impl AllocGlobal + Abort)) -> Schema {
    Schema {
        database: text(rt, "app"),
        tables: one(rt, table(rt)),
    }
}

fn member(rt: &(impl AllocGlobal + Abort), id: u32, region: &str, kind: Kind) -> MemberPart {
    MemberPart {
        id,
        region: text(rt, region),
        kind,
        server: 1000 + u128::from(id),
        address: None,
    }
}

fn ring(rt: &(impl AllocGlobal + Abort), regions: List<Text>, members: List<MemberPart>) -> Ring {
    let parts = RingParts {
        home: text(rt, "a"),
        regions,
        members,
        clients: none(rt),
        schema: schema(rt),
    };
    assert!(rt; parts.is_in_range());
    Ring::build(rt.alloc(), parts).expect(rt, "a ring")
}

fn ring_of_one(rt: &(impl AllocGlobal + Abort), kind: Kind) -> Ring {
    ring(
        rt,
        one(rt, text(rt, "a")),
        one(rt, member(rt, 1, "a", kind)),
    )
}

/// The voter 1 alone.
pub fn lone(rt: &(impl AllocGlobal + Abort)) -> Ring {
    ring_of_one(rt, Kind::Full)
}

/// The logtailer 1 alone.
pub fn lone_tailer(rt: &(impl AllocGlobal + Abort)) -> Ring {
    ring_of_one(rt, Kind::Tailer)
}

/// The voters 1, 2 and 3 in one region; 2 has no engine.
pub fn three(rt: &(impl AllocGlobal + Abort)) -> Ring {
    let first = one(rt, member(rt, 1, "a", Kind::Full));
    let two = with(rt, first, member(rt, 2, "a", Kind::Tailer));
    let all = with(rt, two, member(rt, 3, "a", Kind::Full));
    ring(rt, one(rt, text(rt, "a")), all)
}

fn spread_members(rt: &(impl AllocGlobal + Abort)) -> List<MemberPart> {
    let first = one(rt, member(rt, 1, "a", Kind::Full));
    let two = with(rt, first, member(rt, 2, "b", Kind::Full));
    let voters = with(rt, two, member(rt, 3, "c", Kind::Full));
    with(rt, voters, member(rt, 4, "a", Kind::Learner))
}

/// The voters 1, 2 and 3, each in a region of its own, and the learner 4 in the first.
pub fn spread(rt: &(impl AllocGlobal + Abort)) -> Ring {
    let regions = pair(rt, text(rt, "a"), text(rt, "b"));
    ring(rt, with(rt, regions, text(rt, "c")), spread_members(rt))
}

// ---- votes

pub fn vote(term: u64, candidate: u32, region: u16) -> Vote {
    Vote {
        term,
        candidate: NodeId(candidate),
        region: RegionId(region),
    }
}

pub fn grant(voter: u32, votes: List<Vote>) -> Grant {
    Grant {
        voter: NodeId(voter),
        votes,
    }
}
