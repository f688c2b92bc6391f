//! What a ring is refused for, in which order, and what an accepted ring answers.
use super::fixtures::{one, text};
use ring_types::{
    Address, BuildError, Change, Column, Duplicate, Entry, Gtid, Kind, List, MemberPart, NodeId,
    Opid, Payload, RegionId, Ring, RingParts, Schema, Shape, Table, Text, Txn, Value, at_least,
    last, region_at, rotates, term_at,
};
use std::process::Abort;

/// A way to spoil a declared ring.
#[derive(Clone, Copy, Debug, PartialEq, Eq)]
enum Fault {
    ManyClients,
    ManyRegions,
    NodeTwice,
    ClientTwice,
    RegionTwice,
    ServerTwice,
    Homeless,
    Stray,
    EmptyRegion,
    LearnersAlone,
    TableTwice,
    NoColumn,
    ColumnTwice,
}

fn texts(rt: &(impl AllocGlobal + Abort), names: &[&str]) -> List<Text> {
    let mut made = List::new(rt.alloc());
    for name in names {
        made.push(text(rt, name)).expect(rt, "memory");
    }
    made
}

fn node(
    rt: &(impl AllocGlobal + Abort),
    id: u32,
    region: &str,
    kind: Kind,
    server: u128,
) -> MemberPart {
    MemberPart {
        id,
        region: text(rt, region),
        kind,
        server,
        address: None,
    }
}

const NODES: [(u32, &str, Kind); 4] = [
    (7, "east", Kind::Full),
    (2, "east", Kind::Tailer),
    (9, "west", Kind::Learner),
    (4, "west", Kind::Full),
];

fn nodes(rt: &(impl AllocGlobal + Abort)) -> List<MemberPart> {
    let mut made = List::new(rt.alloc());
    for (id, region, kind) in &NODES {
        made.push(node(rt, *id, region, *kind, 1000 + u128::from(*id)))
            .expect(rt, "memory");
    }
    made
}

fn client(rt: &(impl AllocGlobal + Abort), id: u32) -> Address {
    Address {
        id,
        at: text(rt, "127.0.0.1:9000"),
    }
}

fn column(rt: &(impl AllocGlobal + Abort), name: &str) -> Column {
    Column {
        name: text(rt, name),
        shape: Shape::Text { limit: 20 },
    }
}

fn columns(rt: &(impl AllocGlobal + Abort), names: &[&str]) -> List<Column> {
    let mut made = List::new(rt.alloc());
    for name in names {
        made.push(column(rt, name)).expect(rt, "memory");
    }
    made
}

fn table(rt: &(impl AllocGlobal + Abort), name: &str, names: &[&str]) -> Table {
    Table {
        name: text(rt, name),
        columns: columns(rt, names),
    }
}

fn schema(rt: &(impl AllocGlobal + Abort)) -> Schema {
    let notes = table(rt, "notes", ["id", "note"].as_slice());
    Schema {
        database: text(rt, "shop"),
        tables: one(rt, notes),
    }
}

/// Two regions; the first member of the second is a learner.
fn good(rt: &(impl AllocGlobal + Abort)) -> RingParts {
    let clients = one(rt, client(rt, 65536));
    RingParts {
        home: text(rt, "west"),
        regions: texts(rt, ["east", "west"].as_slice()),
        members: nodes(rt),
        clients,
        schema: schema(rt),
    }
}

fn add_node(
    rt: &(impl AllocGlobal + Abort),
    parts: &mut RingParts,
    id: u32,
    region: &str,
    server: u128,
) {
    parts
        .members
        .push(node(rt, id, region, Kind::Full, server))
        .expect(rt, "memory");
}

fn add_client(rt: &(impl AllocGlobal + Abort), parts: &mut RingParts, id: u32) {
    parts.clients.push(client(rt, id)).expect(rt, "memory");
}

fn add_clients(rt: &(impl AllocGlobal + Abort), parts: &mut RingParts) {
    for extra in 0..64 {
        add_client(rt, parts, 70000 + extra);
    }
}

fn add_region(rt: &(impl AllocGlobal + Abort), parts: &mut RingParts, name: &str) {
    parts.regions.push(text(rt, name)).expect(rt, "memory");
}

fn add_regions(rt: &(impl AllocGlobal + Abort), parts: &mut RingParts) {
    for _ in 0..16 {
        add_region(rt, parts, "more");
    }
}

fn add_school(rt: &(impl AllocGlobal + Abort), parts: &mut RingParts) {
    add_region(rt, parts, "school");
    parts
        .members
        .push(node(rt, 12, "school", Kind::Learner, 1012))
        .expect(rt, "memory");
}

fn add_table(rt: &(impl AllocGlobal + Abort), parts: &mut RingParts, name: &str, names: &[&str]) {
    parts
        .schema
        .tables
        .push(table(rt, name, names))
        .expect(rt, "memory");
}

fn move_home(rt: &(impl AllocGlobal + Abort), parts: &mut RingParts) {
    parts.home = text(rt, "north");
}

fn spoil(rt: &(impl AllocGlobal + Abort), parts: &mut RingParts, fault: Fault) {
    match fault {
        Fault::ManyClients => add_clients(rt, parts),
        Fault::ManyRegions => add_regions(rt, parts),
        Fault::NodeTwice => add_node(rt, parts, 7, "east", 5),
        Fault::ClientTwice => add_client(rt, parts, 65536),
        Fault::RegionTwice => add_region(rt, parts, "east"),
        Fault::ServerTwice => add_node(rt, parts, 8, "east", 1007),
        Fault::Homeless => move_home(rt, parts),
        Fault::Stray => add_node(rt, parts, 11, "south", 1011),
        Fault::EmptyRegion => add_region(rt, parts, "empty"),
        Fault::LearnersAlone => add_school(rt, parts),
        Fault::TableTwice => add_table(rt, parts, "notes", ["id"].as_slice()),
        Fault::NoColumn => add_table(rt, parts, "bare", [].as_slice()),
        Fault::ColumnTwice => add_table(rt, parts, "twins", ["id", "id"].as_slice()),
    }
}

const FAULTS: [(Fault, BuildError); 13] = [
    (Fault::ManyClients, BuildError::TooMany),
    (Fault::ManyRegions, BuildError::TooMany),
    (Fault::NodeTwice, BuildError::TwiceNamed),
    (Fault::ClientTwice, BuildError::TwiceNamed),
    (Fault::RegionTwice, BuildError::TwiceNamed),
    (Fault::ServerTwice, BuildError::TwiceNamed),
    (Fault::Homeless, BuildError::NoRegion),
    (Fault::Stray, BuildError::NoRegion),
    (Fault::EmptyRegion, BuildError::NoVoter),
    (Fault::LearnersAlone, BuildError::NoVoter),
    (Fault::TableTwice, BuildError::BadSchema),
    (Fault::NoColumn, BuildError::BadSchema),
    (Fault::ColumnTwice, BuildError::BadSchema),
];

/// The answer for good parts spoilt twice, or once where both faults are one.
fn answer(rt: &(impl AllocGlobal + Abort), fault: Fault, other: Fault) -> Option<BuildError> {
    let mut parts = good(rt);
    spoil(rt, &mut parts, other);
    if other != fault {
        spoil(rt, &mut parts, fault);
    }
    assert!(rt; parts.is_in_range());
    Ring::build(rt.alloc(), parts).err()
}

fn is_refused(rt: &(impl AllocGlobal + Abort), fault: Fault, other: Fault, cause: BuildError) {
    let answer = answer(rt, fault, other);
    assert_eq!(rt; answer, Some(cause), "{fault:?} and {other:?}");
}

#[test]
fn refuses_by_the_first_cause(rt: HostRuntime) {
    for (place, (fault, cause)) in FAULTS.iter().enumerate() {
        for (other, _) in FAULTS.iter().skip(place) {
            is_refused(&rt, *fault, *other, *cause);
        }
    }
}

fn good_ring(rt: &(impl AllocGlobal + Abort)) -> Ring {
    let parts = good(rt);
    assert!(rt; parts.is_in_range());
    Ring::build(rt.alloc(), parts).expect(rt, "a ring")
}

#[test]
fn builds_a_ring(rt: HostRuntime) {
    let ring = good_ring(&rt);
    tells_its_places(&rt, &ring);
    tells_its_members(&rt, &ring);
    tells_its_members(&rt, &ring.copy(rt.alloc()).expect(&rt, "memory"));
}

fn tells_its_places(rt: &impl Abort, ring: &Ring) {
    assert_eq!(rt; ring.home(), RegionId(2));
    assert_eq!(rt; ring.regions().len(), 2);
    assert_eq!(rt; ring.proxy(RegionId(1)), NodeId(7));
    assert_eq!(rt; ring.proxy(RegionId(2)), NodeId(9));
    assert!(rt; ring.is_client(65536));
    assert!(rt; !ring.is_client(7));
}

/// Expects a member of this region; whether it votes, and whether it runs an engine.
fn has_member(rt: &impl Abort, ring: &Ring, number: u32, region: u16, does: (bool, bool)) {
    let id = NodeId(number);
    assert!(rt; ring.is_member(id));
    assert_eq!(rt; ring.region_of(id), RegionId(region));
    assert_eq!(rt; (ring.voter(id), ring.runs_engine(id)), does);
    assert_eq!(rt; ring.server_of(id), 1000 + u128::from(number));
}

fn tells_its_members(rt: &impl Abort, ring: &Ring) {
    has_member(rt, ring, 7, 1, (true, true));
    has_member(rt, ring, 2, 1, (true, false));
    has_member(rt, ring, 9, 2, (false, true));
    has_member(rt, ring, 4, 2, (true, true));
    assert!(rt; !ring.is_member(NodeId(1)));
    assert_eq!(rt; ring.region_of(NodeId(1)), RegionId(2));
}

fn entry(rt: &(impl AllocGlobal + Abort)) -> Entry {
    let row = one(rt, Value::Int(5));
    let table = text(rt, "notes");
    let changes = one(rt, Change::Insert { table, row });
    let gtid = Gtid {
        server: 1007,
        number: 1,
    };
    Entry {
        opid: Opid {
            term: 3,
            position: 8,
        },
        region: RegionId(2),
        payload: Payload::Txn(Txn { gtid, changes }),
    }
}

/// Expects a copy to be what was copied.
fn copies<T: Duplicate + PartialEq + Drop>(rt: &(impl AllocGlobal + Abort), item: T) {
    assert!(rt; item.copy(rt.alloc()).expect(rt, "memory") == item);
}

#[test]
fn copies_what_it_is_given(rt: HostRuntime) {
    copies(&rt, good(&rt));
    copies(&rt, entry(&rt));
}

/// The numbers from 1 to 6, put in one way after the other.
fn six(rt: &(impl AllocGlobal + Abort)) -> List<u64> {
    let mut list = one(rt, 1);
    list.push(2).expect(rt, "memory");
    list.extend_from_slice(&[3]).expect(rt, "memory");
    list.append(one(rt, 4)).expect(rt, "memory");
    list.extend_copies(rt.alloc(), &[5, 6]).expect(rt, "memory");
    list
}

#[test]
fn takes_and_gives_items(rt: HostRuntime) {
    let mut list = six(&rt);
    assert_eq!(rt; list.len(), 6);
    assert_eq!(rt; list.replace(0, 9), 1);
    assert_eq!(rt; list.replace(1, 8), 2);
    list.truncate(5);
    assert_eq!(rt; list.as_slice(), [9, 8, 3, 4, 5].as_slice());
    assert_eq!(rt; list.get(1).copied(), Some(8));
}

#[test]
fn lends_prefixes_and_suffixes(rt: HostRuntime) {
    let list = six(&rt);
    assert_eq!(rt; list.prefix(2), [1, 2].as_slice());
    assert_eq!(rt; list.prefix(7), list.as_slice());
    assert_eq!(rt; list.suffix(4), [5, 6].as_slice());
    assert!(rt; list.suffix(7).is_empty());
}

fn plain_entry(term: u64, position: u64, payload: Payload) -> Entry {
    Entry {
        opid: Opid { term, position },
        region: RegionId(2),
        payload,
    }
}

fn add(rt: &impl Abort, log: &mut List<Entry>, entry: Entry) {
    log.push(entry).expect(rt, "memory");
}

/// A no-op of term 1, a rotate of term 1 and a no-op of term 3, all of region 2.
fn three_entries(rt: &(impl AllocGlobal + Abort)) -> List<Entry> {
    let mut log = one(rt, plain_entry(1, 1, Payload::NoOp));
    add(rt, &mut log, plain_entry(1, 2, Payload::Rotate));
    add(rt, &mut log, plain_entry(3, 3, Payload::NoOp));
    log
}

/// Expects this term and this region at a position.
fn has_at(rt: &impl Abort, log: &[Entry], position: u64, term: u64, region: u16) {
    assert_eq!(rt; term_at(log, position), term);
    assert_eq!(rt; region_at(RegionId(1), log, position), RegionId(region));
}

#[test]
fn tells_what_a_log_has(rt: HostRuntime) {
    let log = three_entries(&rt);
    let log = log.as_slice();
    has_at(&rt, log, 0, 0, 1);
    has_at(&rt, log, 1, 1, 2);
    has_at(&rt, log, 2, 1, 2);
    has_at(&rt, log, 3, 3, 2);
    has_at(&rt, log, 4, 0, 1);
    assert_eq!(rt; rotates(log), 1);
}

/// Whether an opid is at least the last one of the log.
fn is_as_new(log: &[Entry], term: u64, position: u64) -> bool {
    at_least(Opid { term, position }, last(log))
}

#[test]
fn tells_which_log_is_as_new(rt: HostRuntime) {
    let log = three_entries(&rt);
    let log = log.as_slice();
    assert!(rt; is_as_new(log, 3, 3));
    assert!(rt; is_as_new(log, 3, 4));
    assert!(rt; is_as_new(log, 4, 1));
    assert!(rt; !is_as_new(log, 3, 2));
    assert!(rt; !is_as_new(log, 2, 9));
}
