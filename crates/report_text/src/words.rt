ghost use Rattle.std.specs.Prelude.{◌≡◌, ◌++◌, ◌<◌, OnOk};
ghost use Rattle.std.specs.List.{flat_map};
ghost use Rattle.uuid.specs.Text.{hex_digit, lower};
ghost use Rattle.report_text.specs.Words as spec;

use crate::appending::{put, put_number, put_signed};
use ring_types::{Entry, Gtid, Interval, Memory, Opid, Payload, ServerSet, Value};
use uuid::Uuid;

#[tactic(auto, unfolding(crate::specs::Words::uuid_text))]
fn put_uuid(out: &mut Vec<u8>, server: u128) -> Result<(), Memory>
    ensures { OnOk result (out.new.items ≡ out.old.items ++ spec.uuid_text server) }
{
    let mut buffer = Uuid::encode_buffer();
    let text = Uuid::from_u128(server)
        .hyphenated()
        .encode_lower(&mut buffer);
    put(out, text.as_bytes())
}

/// Puts a GTID, as `uuid:number`, at the end.
pub(crate) fn put_gtid(out: &mut Vec<u8>, gtid: Gtid) -> Result<(), Memory>
    ensures { OnOk result (out.new.items ≡ out.old.items ++ spec.gtid_text gtid) }
{
    put_uuid(out, gtid.server)?;
    put(out, b":")?;
    put_number(out, gtid.number)
}

/// Puts an opid, as `term:position`, at the end.
pub(crate) fn put_opid(out: &mut Vec<u8>, opid: Opid) -> Result<(), Memory>
    ensures { OnOk result (out.new.items ≡ out.old.items ++ spec.opid_text opid) }
{
    put_number(out, opid.term)?;
    put(out, b":")?;
    put_number(out, opid.position)
}

fn is_escaped(byte: u8) -> bool
    ensures { result ≡ spec.is_escaped byte }
{
    byte < 0x20 || byte == 0x7f || byte == 0x27 || byte == 0x5c
}

fn digit(half: u8) -> u8
    requires { half < 16 }
    ensures { result ≡ hex_digit lower half }
{
    if half < 10 {
        b'0' + half
    } else {
        b'a' + half - 10
    }
}

fn put_byte(out: &mut Vec<u8>, byte: u8) -> Result<(), Memory>
    ensures { OnOk result (out.new.items ≡ out.old.items ++ spec.byte_text byte) }
{
    if is_escaped(byte) {
        put(out, b"\\x")?;
        put(out, &[digit(byte / 16), digit(byte % 16)])
    } else {
        put(out, &[byte])
    }
}

fn put_escaped(out: &mut Vec<u8>, text: &[u8]) -> Result<(), Memory>
    ensures { OnOk result (out.new.items ≡ out.old.items ++ flat_map spec.byte_text text.now) }
{
    for byte in text {
        put_byte(out, *byte)?;
    }
    Ok(())
}

/// Puts a value, as a schedule writes it, at the end.
pub(crate) fn put_value(out: &mut Vec<u8>, value: &Value) -> Result<(), Memory>
    ensures { OnOk result (out.new.items ≡ out.old.items ++ spec.value_text value.now) }
{
    match value {
        Value::Null => put(out, b"null"),
        Value::Int(number) => put_signed(out, *number),
        Value::Text(text) => {
            put(out, b"'")?;
            put_escaped(out, text.as_bytes())?;
            put(out, b"'")
        }
    }
}

fn put_payload(out: &mut Vec<u8>, payload: &Payload) -> Result<(), Memory>
    ensures { OnOk result (out.new.items ≡ out.old.items ++ spec.payload_text payload.now) }
{
    match payload {
        Payload::NoOp => put(out, b"noop"),
        Payload::Rotate => put(out, b"rotate"),
        Payload::Txn(txn) => {
            put(out, b"txn ")?;
            put_gtid(out, txn.gtid)
        }
    }
}

/// Puts an entry's position, term, region and payload at the end.
pub(crate) fn put_entry(out: &mut Vec<u8>, entry: &Entry) -> Result<(), Memory>
    ensures { OnOk result (out.new.items ≡ out.old.items ++ spec.entry_text entry.now) }
{
    put_number(out, entry.opid.position)?;
    put(out, b" ")?;
    put_number(out, entry.opid.term)?;
    put(out, b" ")?;
    put_number(out, u64::from(entry.region.0))?;
    put(out, b" ")?;
    put_payload(out, &entry.payload)
}

fn put_interval(out: &mut Vec<u8>, interval: &Interval) -> Result<(), Memory>
    ensures { OnOk result (out.new.items ≡ out.old.items ++ spec.interval_text interval.now) }
{
    put(out, b":")?;
    put_number(out, interval.first)?;
    if interval.first != interval.last {
        put(out, b"-")?;
        put_number(out, interval.last)?;
    }
    Ok(())
}

fn put_server_set(out: &mut Vec<u8>, set: &ServerSet) -> Result<(), Memory>
    ensures { OnOk result (out.new.items ≡ out.old.items ++ spec.server_set_text set.now) }
{
    put_uuid(out, set.server)?;
    for interval in set.intervals.as_slice() {
        put_interval(out, interval)?;
    }
    Ok(())
}

fn put_after_commas(out: &mut Vec<u8>, sets: &[ServerSet]) -> Result<(), Memory>
    ensures { OnOk result (out.new.items ≡ out.old.items ++ flat_map spec.after_comma sets.now) }
{
    for set in sets {
        put(out, b",")?;
        put_server_set(out, set)?;
    }
    Ok(())
}

/// Puts a GTID set at the end.
pub(crate) fn put_set(out: &mut Vec<u8>, sets: &[ServerSet]) -> Result<(), Memory>
    ensures { OnOk result (out.new.items ≡ out.old.items ++ spec.set_text sets.now) }
{
    match sets {
        [] => Ok(()),
        [first, others @ ..] => {
            put_server_set(out, first)?;
            put_after_commas(out, others)
        }
    }
}
