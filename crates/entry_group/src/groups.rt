ghost use Rattle.std.specs.Prelude.{◌≡◌, ◌≤◌, ◌<◌, ◌+◌, ◌^◌, ◌++◌, length, take, true, IfErr, IfOk, OnOk, OnErr};
ghost use Rattle.event_control.specs.ControlEvents.{rotation_at};
ghost use Rattle.event_txn.specs.Reading.{offset_of};
ghost use Rattle.event_txn.specs.Txns.{txn_at};
ghost use Rattle.ring_types.specs.Rings.{is_schema};
ghost use Rattle.ring_types.specs.Rows.{payload_fits};
ghost use Rattle.entry_group.specs.Groups as spec;
ghost use Rattle.entry_group.specs.Reading.{Gives, fault_at};
ghost use Rattle.entry_group.specs.declared.groups.EntryError.TheVariants as error;

use event_control::{OpidEvent, read_opid, read_rotate, write_opid, write_rotate};
use event_txn::{TxnError, read_txn, write_txn};
use ring_types::{Entry, LAST_FILE, Memory, Payload, Place, Schema};
use std::alloc::Global;

/// An entry that was read, and how many bytes its group takes.
#[derive(Debug, PartialEq, Eq, Drop)]
pub struct EntryRead {
    pub entry: Entry,
    pub size: u64,
}

/// Why no group stands there.
#[derive(Clone, Copy, Debug, PartialEq, Eq, thiserror::Error)]
pub enum EntryError {
    /// `at` is the offset, from the beginning of the bytes, of the first event that no group has there.
    /// `why` says which event was due: 1 for the one that tells the opid, 2 for a ROTATE, 3 for one of a
    /// transaction.
    #[error("the event at {at} is not one of an entry ({why})")]
    NotAnEntry { at: u64, why: u8 },
    #[error("out of memory")]
    Memory,
}

/// What the opid event says that the entry holds.
fn kind_of(payload: &Payload) -> u8
    ensures value { result ≡ spec.kind_of payload.now }
    ensures least { 1 ≤ result }
    ensures most { result ≤ 3 }
{
    match payload {
        Payload::NoOp => 1,
        Payload::Rotate => 2,
        Payload::Txn(_) => 3,
    }
}

/// The place so many bytes further in the same file. Of an offset the low 32 bits count, so it may wrap.
fn further(place: Place, size: u64) -> Place
    ensures { result ≡ spec.further size place }
{
    Place {
        file: place.file,
        at: place.at.wrapping_add(size),
        sequence: place.sequence,
    }
}

/// Whether an entry of this kind can stand there.
fn can_stand(schema: &Schema, place: Place, kind: u8) -> bool
    ensures { result ≡ spec.can_stand schema.now place kind }
{
    match kind {
        1 => true,
        2 => u64::from(place.file) < LAST_FILE,
        3 => 1 <= place.sequence && 1 <= schema.tables.len(),
        _ => false,
    }
}

/// The ROTATE behind an opid event of this size, which names the next file.
fn rotation_behind(bytes: &[u8], size: u64, place: Place) -> Result<(Payload, u64), EntryError>
    requires { place.file < LAST_FILE }
    ensures given { result ≡ spec.rotation_of size place (rotation_at bytes.now place.at) }
    ensures end { IfOk result (λ x. x.1 ≤ length bytes.now) }
    ensures fault { IfErr result (λ e. fault_at e ≤ size) }
{
    match read_rotate(bytes, place.at) {
        Ok(rotation) if rotation.next_file == place.file + 1 => {
            Ok((Payload::Rotate, rotation.size))
        }
        _ => Err(EntryError::NotAnEntry { at: size, why: 2 }),
    }
}

/// The event at this offset of a transaction's events is at fault.
fn not_of_a_transaction(size: u64, at: u64) -> EntryError
    requires { size + at < 2 ^ 64 }
    ensures { result ≡ error.NotAnEntry (size + at) 3 }
{
    EntryError::NotAnEntry {
        at: size + at,
        why: 3,
    }
}

/// Where the event at fault begins, if the transaction's events begin at this offset.
fn fault_in(size: u64, fault: TxnError) -> EntryError
    requires { size + offset_of fault < 2 ^ 64 }
    ensures is { result ≡ spec.fault_in size fault }
    ensures place { fault_at result ≤ size + offset_of fault }
{
    match fault {
        TxnError::Order { at } => not_of_a_transaction(size, at),
        TxnError::Field { at } => not_of_a_transaction(size, at),
        TxnError::Table { at } => not_of_a_transaction(size, at),
        TxnError::Value { at } => not_of_a_transaction(size, at),
        TxnError::Frame { at, .. } => not_of_a_transaction(size, at),
        TxnError::Memory => EntryError::Memory,
    }
}

/// The transaction behind an opid event of this size.
fn txn_behind(
    alloc: Global,
    schema: &Schema,
    bytes: &[u8],
    opid: &OpidEvent,
    place: Place,
) -> Result<(Payload, u64), EntryError>
    requires schema { is_schema schema.now ≡ true }
    requires size { opid.now.size + length bytes.now < 2 ^ 64 }
    ensures end { IfOk result (λ x. x.1 ≤ length bytes.now) }
    ensures fault { IfErr result (λ e. fault_at e ≤ opid.now.size + length bytes.now) }
    ensures given { Gives (λ x. x) result (spec.txn_of opid.now.size (txn_at schema.now bytes.now opid.now.opid.position place)) }
{
    match read_txn(alloc, schema, bytes, opid.opid.position, place) {
        Ok(read) => Ok((Payload::Txn(read.txn), read.size)),
        Err(fault) => Err(fault_in(opid.size, fault)),
    }
}

/// What stands behind the opid event, and how many bytes it takes.
fn payload_at(
    alloc: Global,
    schema: &Schema,
    bytes: &[u8],
    opid: &OpidEvent,
    place: Place,
) -> Result<(Payload, u64), EntryError>
    requires schema { is_schema schema.now ≡ true }
    requires size { opid.now.size + length bytes.now < 2 ^ 64 }
    requires file { opid.now.kind ≡ 2 → place.file < LAST_FILE }
    ensures end { IfOk result (λ x. x.1 ≤ length bytes.now) }
    ensures fault { IfErr result (λ e. fault_at e ≤ opid.now.size + length bytes.now) }
    ensures given { Gives (λ x. x) result (spec.payload_at schema.now bytes.now opid.now.size opid.now place) }
{
    match opid.kind {
        1 => Ok((Payload::NoOp, 0)),
        2 => rotation_behind(bytes, opid.size, place),
        _ => txn_behind(alloc, schema, bytes, opid, place),
    }
}

/// The entry whose group the bytes begin with. They stand at this place of the binary log files; an
/// error names the first event with which no group goes on.
#[tactic(auto, unfolding(crate::specs::Groups::entry_at))]
pub fn read_entry(
    alloc: Global,
    schema: &Schema,
    bytes: &[u8],
    place: Place,
) -> Result<EntryRead, EntryError>
    requires { is_schema schema.now ≡ true }
    ensures given { Gives (λ it. it) result (spec.entry_at schema.now bytes.now place) }
    ensures fault { IfErr result (λ e. fault_at e ≤ length bytes.now) }
{
    let opid = match read_opid(bytes, place.at) {
        Ok(opid) => opid,
        Err(_) => return Err(EntryError::NotAnEntry { at: 0, why: 1 }),
    };
    if !can_stand(schema, place, opid.kind) {
        return Err(EntryError::NotAnEntry { at: 0, why: 1 });
    }
    let rest = &bytes[opid.size as usize..];
    let (payload, size) = payload_at(alloc, schema, rest, &opid, further(place, opid.size))?;
    let entry = Entry {
        opid: opid.opid,
        region: opid.region,
        payload,
    };
    Ok(EntryRead {
        entry,
        size: opid.size + size,
    })
}

/// Puts the events behind the opid event. Without memory a part of them may be put.
fn put_payload(
    out: &mut Vec<u8>,
    schema: &Schema,
    entry: &Entry,
    place: Place,
) -> Result<(), Memory>
    requires schema { is_schema schema.now ≡ true }
    requires fits { payload_fits schema.now entry.now.payload ≡ true }
    requires place { spec.can_stand schema.now place (spec.kind_of entry.now.payload) ≡ true }
    ensures ok { OnOk result (out.new.items ≡ out.old.items ++ spec.behind_opid schema.now entry.now.opid.position entry.now.payload place) }
    ensures err { OnErr result (take (length out.old.items) out.new.items ≡ out.old.items) }
{
    match &entry.payload {
        Payload::NoOp => Ok(()),
        Payload::Rotate => write_rotate(out, place.file + 1, place.at),
        Payload::Txn(txn) => write_txn(out, schema, txn, entry.opid.position, place),
    }
}

/// Without memory a part of it may be put.
#[tactic(auto, unfolding(crate::specs::Groups::group))]
fn put_group(out: &mut Vec<u8>, schema: &Schema, entry: &Entry, place: Place) -> Result<(), Memory>
    requires schema { is_schema schema.now ≡ true }
    requires fits { payload_fits schema.now entry.now.payload ≡ true }
    requires place { spec.can_stand schema.now place (spec.kind_of entry.now.payload) ≡ true }
    ensures ok { OnOk result (out.new.items ≡ out.old.items ++ spec.group schema.now entry.now place) }
    ensures err { OnErr result (take (length out.old.items) out.new.items ≡ out.old.items) }
{
    write_opid(
        out,
        kind_of(&entry.payload),
        entry.opid,
        entry.region,
        place.at,
    )?;
    put_payload(out, schema, entry, further(place, 42))
}

/// Puts the group of an entry at the end; it stands at this place of the binary log files. Without
/// memory nothing is put.
pub fn write_entry(
    out: &mut Vec<u8>,
    schema: &Schema,
    entry: &Entry,
    place: Place,
) -> Result<(), Memory>
    requires schema { is_schema schema.now ≡ true }
    requires fits { payload_fits schema.now entry.now.payload ≡ true }
    requires place { spec.can_stand schema.now place (spec.kind_of entry.now.payload) ≡ true }
    ensures ok { OnOk result (out.new.items ≡ out.old.items ++ spec.group schema.now entry.now place) }
    ensures err { OnErr result (out.new.items ≡ out.old.items) }
{
    let begin = out.len();
    match put_group(out, schema, entry, place) {
        Ok(()) => Ok(()),
        Err(error) => {
            out.truncate(begin);
            Err(error)
        }
    }
}
