//! A file with a NoOp and one insert, the sizes of two files, and what is refused where a group is due.
ghost use Rattle.std.specs.Prelude.{◌≡◌, true};
ghost use Rattle.ring_types.specs.Rings.{is_schema};

use super::fixtures::{SERVER, one, pair, ring_of_one, row, schema_of, text};
use entry_group::{EntryError, EntryRead, file_sizes, group_size, read_entry, write_entry};
use event_control::{read_head, write_head, write_opid, write_rotate};
use event_frame::{crc32, write_event};
use ring_plain::payload_fits;
use ring_types::{Change, Entry, Gtid, List, Opid, Payload, Place, RegionId, Schema, Txn, Value};
use std::process::Abort;

/// Behind the head of the first file.
const FIRST: Place = Place {
    file: 1,
    at: 157,
    sequence: 1,
};

/// Behind the first NoOp.
const SECOND: Place = Place {
    file: 1,
    at: 199,
    sequence: 1,
};

fn insert(rt: &(impl AllocGlobal + Abort), key: i64, name: &str) -> Change {
    Change::Insert {
        table: text(rt, "t"),
        row: row(rt, key, Value::Text(text(rt, name))),
    }
}

fn txn(number: u64, changes: List<Change>) -> Payload {
    let gtid = Gtid {
        server: SERVER,
        number,
    };
    Payload::Txn(Txn { gtid, changes })
}

/// The entry of term 1 and region 1 at this position.
fn entry(position: u64, payload: Payload) -> Entry {
    Entry {
        opid: Opid { term: 1, position },
        region: RegionId(1),
        payload,
    }
}

fn inserted(rt: &(impl AllocGlobal + Abort)) -> Entry {
    entry(2, txn(1, one(rt, insert(rt, 7, "a"))))
}

/// Puts the group of an entry that fits, at a place where it can stand.
fn put(rt: &impl Abort, out: &mut Vec<u8>, schema: &Schema, entry: &Entry, place: Place)
    requires { is_schema schema.now ≡ true }
{
    assert!(rt; payload_fits(schema, &entry.payload));
    assert!(rt; place.file < 999_999 && 1 <= place.sequence && 1 <= schema.tables.len());
    write_entry(out, schema, entry, place).expect(rt, "memory");
}

/// The first file's head, its NoOp and an insert.
fn one_insert(rt: &(impl AllocGlobal + Abort), schema: &Schema) -> Vec<u8>
    requires { is_schema schema.now ≡ true }
{
    let mut file = Vec::new(rt.alloc());
    write_head(&mut file, &[0; 8]).expect(rt, "memory");
    put(rt, &mut file, schema, &entry(1, Payload::NoOp), FIRST);
    put(rt, &mut file, schema, &inserted(rt), SECOND);
    file
}

/// Expects the file to have the group of this entry at a place, of this size.
fn reads(
    rt: &(impl AllocGlobal + Abort),
    schema: &Schema,
    bytes: &[u8],
    place: Place,
    read: EntryRead,
)
    requires { is_schema schema.now ≡ true }
{
    assert_eq!(rt; read_entry(rt.alloc(), schema, bytes, place), Ok(read));
}

fn part(file: &[u8], from: usize) -> &[u8] {
    file.get(from..).unwrap_or(&[])
}

#[test]
fn a_file_with_one_insert(rt: HostRuntime) {
    let ring = ring_of_one(&rt);
    let schema = schema_of(&ring);
    let file = one_insert(&rt, schema);
    assert_eq!(rt; file.len(), 471);
    assert_eq!(rt; crc32(file.as_slice()), 0xed2e_e0f6);
    let (entry, size) = (entry(1, Payload::NoOp), 42);
    let first = part(file.as_slice(), 157);
    reads(&rt, schema, first, FIRST, EntryRead { entry, size });
    let (entry, size) = (inserted(&rt), 272);
    let second = part(file.as_slice(), 199);
    reads(&rt, schema, second, SECOND, EntryRead { entry, size });
}

#[test]
fn the_size_of_an_insert(rt: HostRuntime) {
    let ring = ring_of_one(&rt);
    assert_eq!(rt; group_size(schema_of(&ring), &inserted(&rt).payload), 272);
}

fn delete(rt: &(impl AllocGlobal + Abort)) -> Change {
    Change::Delete {
        table: text(rt, "t"),
        key: Value::Int(1),
    }
}

/// A delete of row 1 behind an insert of row 2.
fn two_changes(rt: &(impl AllocGlobal + Abort)) -> List<Change> {
    pair(rt, insert(rt, 2, "it's"), delete(rt))
}

fn update(rt: &(impl AllocGlobal + Abort)) -> Change {
    Change::Update {
        table: text(rt, "t"),
        row: row(rt, 1, Value::Null),
    }
}

fn add(rt: &impl Abort, log: &mut List<Entry>, position: u64, payload: Payload) {
    log.push(entry(position, payload)).expect(rt, "memory");
}

/// A NoOp, an insert, an update, two changes at once, and a Rotate.
fn rotated(rt: &(impl AllocGlobal + Abort)) -> List<Entry> {
    let mut log = one(rt, entry(1, Payload::NoOp));
    add(rt, &mut log, 2, txn(1, one(rt, insert(rt, 1, "x"))));
    add(rt, &mut log, 3, txn(2, one(rt, update(rt))));
    add(rt, &mut log, 4, txn(3, two_changes(rt)));
    add(rt, &mut log, 5, Payload::Rotate);
    log
}

#[test]
fn sizes_of_two_files(rt: HostRuntime) {
    let ring = ring_of_one(&rt);
    let log = rotated(&rt);
    let sizes = file_sizes(rt.alloc(), schema_of(&ring), log.as_slice());
    assert_eq!(rt;
        sizes.expect(&rt, "memory").as_slice(),
        [1202, 197].as_slice()
    );
}

fn refusal(rt: &(impl AllocGlobal + Abort), bytes: &[u8], place: Place) -> Option<EntryError> {
    let ring = ring_of_one(rt);
    read_entry(rt.alloc(), schema_of(&ring), bytes, place).err()
}

fn not(at: u64, why: u8) -> Option<EntryError> {
    Some(EntryError::NotAnEntry { at, why })
}

/// The event that tells an opid, of this kind of group.
fn opid_event(rt: &(impl AllocGlobal + Abort), body: &[u8; 19]) -> Vec<u8> {
    let mut bytes = Vec::new(rt.alloc());
    write_event(&mut bytes, 28, 0x80, body, 157).expect(rt, "memory");
    bytes
}

#[test]
fn a_kind_that_no_entry_has(rt: HostRuntime) {
    let bytes = opid_event(
        &rt,
        &[4, 1, 0, 0, 0, 0, 0, 0, 0, 1, 0, 0, 0, 0, 0, 0, 0, 1, 0],
    );
    assert!(rt; refusal(&rt, bytes.as_slice(), FIRST) == not(0, 1));
    assert!(rt; refusal(&rt, &[], FIRST) == not(0, 1));
}

/// The group of a Rotate in the first file that leads to the third.
fn astray(rt: &(impl AllocGlobal + Abort)) -> Vec<u8> {
    let mut bytes = Vec::new(rt.alloc());
    let (term, position) = (1, 1);
    write_opid(&mut bytes, 2, Opid { term, position }, RegionId(1), 157).expect(rt, "memory");
    write_rotate(&mut bytes, 3, 199).expect(rt, "memory");
    bytes
}

#[test]
fn a_rotation_to_another_file(rt: HostRuntime) {
    assert!(rt; refusal(&rt, astray(&rt).as_slice(), FIRST) == not(42, 2));
}

#[test]
fn a_transaction_without_a_number(rt: HostRuntime) {
    let ring = ring_of_one(&rt);
    let file = one_insert(&rt, schema_of(&ring));
    let unnumbered = Place {
        file: 1,
        at: 199,
        sequence: 0,
    };
    let group = part(file.as_slice(), 199);
    assert!(rt; refusal(&rt, group, unnumbered) == not(0, 1));
}

/// Where each event of the file with one insert begins, and which event is due there.
const EVENTS: [(usize, u8); 7] = [
    (157, 1),
    (199, 1),
    (241, 3),
    (306, 3),
    (348, 3),
    (394, 3),
    (440, 3),
];

/// What the group that begins at `begin` is refused for if its event at this offset of the file is at
/// fault.
fn fault_at(begin: usize, offset: usize) -> Option<EntryError> {
    let mut fault = None;
    for (start, why) in &EVENTS {
        if begin <= *start && *start <= offset {
            fault = not((*start - begin) as u64, *why);
        }
    }
    fault
}

/// The group of the file with one insert to which this offset belongs, and its place.
fn group_of(offset: usize) -> (usize, Place) {
    if offset < 199 {
        (157, FIRST)
    } else {
        (199, SECOND)
    }
}

/// Whether what stands at this place is refused as an event at this offset of the file should be.
fn is_refused(rt: &(impl AllocGlobal + Abort), schema: &Schema, file: &[u8], offset: usize) -> bool
    requires { is_schema schema.now ≡ true }
{
    let (begin, place) = group_of(offset);
    match file.get(begin..) {
        Some(bytes) => {
            read_entry(rt.alloc(), schema, bytes, place).err() == fault_at(begin, offset)
        }
        None => false,
    }
}

/// Whether the file is refused as an event at this offset should be.
fn is_told(rt: &(impl AllocGlobal + Abort), schema: &Schema, file: &[u8], offset: usize) -> bool
    requires { is_schema schema.now ≡ true }
{
    if offset < 157 {
        read_head(file).is_err()
    } else {
        is_refused(rt, schema, file, offset)
    }
}

/// Turns one bit of the file over.
fn turn(file: &mut [u8], offset: usize, bit: u8) {
    if let Some(byte) = file.get_mut(offset) {
        *byte ^= bit;
    }
}

/// Whether the file is refused with each bit of the byte at this offset turned over.
fn each_bit_is_told(
    rt: &(impl AllocGlobal + Abort),
    schema: &Schema,
    file: &mut [u8],
    offset: usize,
) -> bool
    requires { is_schema schema.now ≡ true }
{
    let mut all = true;
    for bit in [1u8, 2, 4, 8, 16, 32, 64, 128] {
        turn(file, offset, bit);
        all = all && is_told(rt, schema, file, offset);
        turn(file, offset, bit);
    }
    all
}

#[test]
fn each_bit_turned_over_is_refused_at_its_event(rt: HostRuntime) {
    let ring = ring_of_one(&rt);
    let schema = schema_of(&ring);
    let mut file = one_insert(&rt, schema);
    for offset in 0..471usize {
        assert!(rt; each_bit_is_told(&rt, schema, file.as_mut_slice(), offset));
    }
}

#[test]
fn each_cut_is_refused_at_its_event(rt: HostRuntime) {
    let ring = ring_of_one(&rt);
    let schema = schema_of(&ring);
    let file = one_insert(&rt, schema);
    for end in 0..471usize {
        let cut = file.get(..end).unwrap_or(&[]);
        assert!(rt; is_told(&rt, schema, cut, end));
    }
}
