ghost use Rattle.std.specs.Prelude.{◌≡◌, ◌<◌, ◌++◌, ◌∷◌, IfOk, IfSome, OnOk, decimal, length, map, string_bytes};
ghost use Rattle.std.specs.List.{flat_map};
ghost use Rattle.std.specs.Option.{option_copied};
ghost use Rattle.gtid_set.specs.Canonical.{IsSpelled};
ghost use Rattle.gtid_set.specs.Texts as spec;
ghost use Rattle.gtid_set.specs.Pieces as reading;

use crate::faults::SetError;
use crate::servers::ServerNumbers;
use crate::sets::GtidSet;
use itoa::Buffer;
use ring_types::{Interval, List, Memory, ServerSet, Text};
use std::alloc::Global;
use uuid::Uuid;

fn put(out: &mut String, text: &str) -> Result<(), Memory>
    ensures { OnOk result (string_bytes out.new ≡ string_bytes out.old ++ text.now) }
{
    out.push_str(text)?;
    Ok(())
}

#[tactic(auto, unfolding(crate::specs::Texts::uuid_text))]
fn put_uuid(out: &mut String, server: u128) -> Result<(), Memory>
    ensures { OnOk result (string_bytes out.new ≡ string_bytes out.old ++ spec.uuid_text server) }
{
    let mut buffer = Uuid::encode_buffer();
    let text = Uuid::from_u128(server)
        .hyphenated()
        .encode_lower(&mut buffer);
    put(out, text)
}

fn put_number(out: &mut String, number: u64) -> Result<(), Memory>
    ensures { OnOk result (string_bytes out.new ≡ string_bytes out.old ++ decimal number) }
{
    let mut buffer = Buffer::new();
    put(out, buffer.format(number))
}

fn put_interval(out: &mut String, interval: Interval) -> Result<(), Memory>
    ensures { OnOk result (string_bytes out.new ≡ string_bytes out.old ++ spec.interval_text interval) }
{
    put(out, ":")?;
    put_number(out, interval.first)?;
    if interval.first != interval.last {
        put(out, "-")?;
        put_number(out, interval.last)?;
    }
    Ok(())
}

fn put_server(out: &mut String, set: &ServerNumbers) -> Result<(), Memory>
    ensures { OnOk result (string_bytes out.new ≡ string_bytes out.old ++ spec.server_text set.now) }
{
    put_uuid(out, set.server())?;
    for (first, last) in set.ends() {
        let interval = Interval {
            first: *first,
            last: *last,
        };
        put_interval(out, interval)?;
    }
    Ok(())
}

fn put_after_commas(out: &mut String, servers: &[ServerNumbers]) -> Result<(), Memory>
    ensures { OnOk result (string_bytes out.new ≡ string_bytes out.old ++ flat_map spec.after_comma servers.now) }
{
    for set in servers {
        put(out, ",")?;
        put_server(out, set)?;
    }
    Ok(())
}

fn put_set(out: &mut String, servers: &[ServerNumbers]) -> Result<(), Memory>
    ensures { OnOk result (string_bytes out.new ≡ string_bytes out.old ++ spec.set_text servers.now) }
{
    match servers {
        [] => Ok(()),
        [first, others @ ..] => {
            put_server(out, first)?;
            put_after_commas(out, others)
        }
    }
}

/// The bytes of a text without one line feed behind each comma.
fn without_feeds(alloc: Global, text: &[u8]) -> Result<Vec<u8>, Memory>
    ensures { IfOk result (λ it. it.items ≡ spec.without_feeds text.now) }
{
    let mut kept = Vec::new(alloc);
    let mut behind_comma = false;
    for byte in text {
        if behind_comma && *byte == b'\n' {
            behind_comma = false;
        } else {
            kept.push(*byte)?;
            behind_comma = *byte == b',';
        }
    }
    Ok(kept)
}

/// The piece before the first mark, and what stands behind that mark; None if there is no mark.
fn next_piece(bytes: &[u8], mark: u8) -> (&[u8], Option<&[u8]>)
    ensures pieces { reading.pieces mark bytes.now ≡ result.0.now ∷ reading.pieces_left mark (option_copied result.1) }
    ensures shorter { IfSome result.1 (λ rest. length rest.now < length bytes.now) }
{
    for (index, byte) in bytes.iter().enumerate() {
        if *byte == mark {
            return (&bytes[..index], Some(&bytes[index + 1..]));
        }
    }
    (bytes, None)
}

/// The number of some digits.
fn number_in(digits: &[u8]) -> u64
    ensures { result ≡ reading.number_after 0 digits.now }
{
    let mut number = 0u64;
    for digit in digits {
        number = number
            .saturating_mul(10)
            .saturating_add(u64::from(digit.saturating_sub(b'0')));
    }
    number
}

fn interval_in(piece: &[u8]) -> Interval
    ensures { result ≡ reading.interval_in piece.now }
{
    let (first, rest) = next_piece(piece, b'-');
    let first = number_in(first);
    match rest {
        None => Interval { first, last: first },
        Some(rest) => {
            let (last, _more) = next_piece(rest, b'-');
            Interval {
                first,
                last: number_in(last),
            }
        }
    }
}

#[tactic(auto, unfolding(crate::specs::Pieces::uuid_in))]
fn uuid_in(piece: &[u8]) -> u128
    ensures { result ≡ reading.uuid_in piece.now }
{
    match Uuid::try_parse_ascii(piece) {
        Ok(uuid) => uuid.as_u128(),
        Err(_) => 0,
    }
}

fn intervals_in(alloc: Global, bytes: Option<&[u8]>) -> Result<Vec<Interval>, Memory>
    ensures { IfOk result (λ it. it.items ≡ map reading.interval_in (reading.pieces_left 58 (option_copied bytes.entry))) }
{
    let mut found = Vec::new(alloc);
    let mut rest = bytes;
    while let Some(bytes) = rest {
        let (piece, behind) = next_piece(bytes, b':');
        found.push(interval_in(piece))?;
        rest = behind;
    }
    Ok(found)
}

fn server_in(alloc: Global, piece: &[u8]) -> Result<ServerSet, Memory>
    ensures { IfOk result (λ it. it ≡ reading.server_in piece.now) }
{
    let (uuid, rest) = next_piece(piece, b':');
    let intervals = List::from_vec(intervals_in(alloc, rest)?);
    Ok(ServerSet {
        server: uuid_in(uuid),
        intervals,
    })
}

/// The servers that the text names, in whatever order and with whatever intervals.
fn set_in(alloc: Global, bytes: &[u8]) -> Result<Vec<ServerSet>, Memory>
    ensures { IfOk result (λ it. it.items ≡ reading.set_in bytes.now) }
{
    let mut found = Vec::new(alloc);
    if bytes.is_empty() {
        return Ok(found);
    }
    let mut rest = Some(bytes);
    while let Some(bytes) = rest {
        let (piece, behind) = next_piece(bytes, b',');
        found.push(server_in(alloc, piece)?)?;
        rest = behind;
    }
    Ok(found)
}

/// The canonical set that a text spells, if there is one.
fn read_set(alloc: Global, text: &[u8]) -> Result<Option<GtidSet>, Memory>
    ensures { IfOk result (λ it. IsSpelled spec.set_text text.now it) }
{
    let servers = set_in(alloc, text)?;
    let Some(set) = GtidSet::of(alloc, servers.as_slice())? else {
        return Ok(None);
    };
    let again = set.to_text(alloc)?;
    if again.as_bytes() == text {
        Ok(Some(set))
    } else {
        Ok(None)
    }
}

fn read_text(alloc: Global, text: &str) -> Result<Option<GtidSet>, Memory>
    ensures { IfOk result (λ it. IsSpelled spec.set_text (spec.without_feeds text.now) it) }
{
    let kept = without_feeds(alloc, text.as_bytes())?;
    read_set(alloc, kept.as_slice())
}

impl GtidSet {
    /// The set's text, as the MySQL manual writes GTID sets.
    pub fn to_text(&self, alloc: Global) -> Result<Text, Memory>
        ensures { IfOk result (λ it. it ≡ spec.set_text self.now) }
    {
        let mut out = String::new(alloc);
        put_set(&mut out, self.servers())?;
        Ok(Text::from_string(out))
    }

    /// The set that a text spells; `NotText` if there is none. One line feed may stand behind each comma.
    pub fn parse(alloc: Global, text: &str) -> Result<GtidSet, SetError>
        ensures { spec.ReadsText text.now result }
    {
        match read_text(alloc, text) {
            Ok(Some(set)) => Ok(set),
            Ok(None) => Err(SetError::NotText),
            Err(_) => Err(SetError::Memory),
        }
    }
}
