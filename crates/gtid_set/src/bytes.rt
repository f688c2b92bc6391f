ghost use Rattle.std.specs.Prelude.{◌≡◌, ◌+◌, ◌++◌, ◌≤◌, [], length, IfOk, OnOk};
ghost use Rattle.std.specs.List.{flat_map};
ghost use Rattle.std.specs.Option.{option_map};
ghost use Rattle.gtid_set.specs.Canonical.{AreMerged, IsCanonical, IsSpelled};
ghost use Rattle.gtid_set.specs.Ranges.{intervals};
ghost use Rattle.gtid_set.specs.Bytes as spec;
ghost use Rattle.gtid_set.specs.Reading as reading;

use crate::faults::SetError;
use crate::intervals::Ends;
use crate::servers::ServerNumbers;
use crate::sets::GtidSet;
use ring_types::{Interval, LAST_GTID, List, Memory, ServerSet};
use std::alloc::Global;

#[tactic(auto, unfolding(crate::specs::Bytes::number_bytes))]
fn put_number(out: &mut Vec<u8>, number: u64) -> Result<(), Memory>
    ensures { OnOk result (out.new.items ≡ out.old.items ++ spec.number_bytes number) }
{
    out.extend_from_slice(&number.to_le_bytes())?;
    Ok(())
}

#[tactic(auto, unfolding(crate::specs::Bytes::uuid_bytes))]
fn put_uuid(out: &mut Vec<u8>, server: u128) -> Result<(), Memory>
    ensures { OnOk result (out.new.items ≡ out.old.items ++ spec.uuid_bytes server) }
{
    out.extend_from_slice(&server.to_be_bytes())?;
    Ok(())
}

fn put_interval(out: &mut Vec<u8>, interval: Interval) -> Result<(), Memory>
    requires { interval.last ≤ LAST_GTID }
    ensures { OnOk result (out.new.items ≡ out.old.items ++ spec.interval_bytes interval) }
{
    put_number(out, interval.first)?;
    put_number(out, interval.last + 1)
}

fn put_intervals(out: &mut Vec<u8>, ends: &Ends) -> Result<(), Memory>
    requires { AreMerged 0 (intervals ends.now.entries) }
    ensures { OnOk result (out.new.items ≡ out.old.items ++ flat_map spec.interval_bytes (intervals ends.now.entries)) }
{
    for (first, last) in ends {
        let interval = Interval {
            first: *first,
            last: *last,
        };
        put_interval(out, interval)?;
    }
    Ok(())
}

fn put_server(out: &mut Vec<u8>, set: &ServerNumbers) -> Result<(), Memory>
    requires { AreMerged 0 set.now.intervals }
    ensures { OnOk result (out.new.items ≡ out.old.items ++ spec.server_bytes set.now) }
{
    put_uuid(out, set.server())?;
    put_number(out, set.ends().len() as u64)?;
    put_intervals(out, set.ends())
}

fn put_set(out: &mut Vec<u8>, servers: &[ServerNumbers]) -> Result<(), Memory>
    requires { IsCanonical servers.now }
    ensures { OnOk result (out.new.items ≡ out.old.items ++ spec.set_bytes servers.now) }
{
    put_number(out, servers.len() as u64)?;
    for set in servers {
        put_server(out, set)?;
    }
    Ok(())
}

#[tactic(auto, unfolding(crate::specs::Reading::number_at))]
fn number_at(bytes: &[u8]) -> Option<(u64, &[u8])>
    ensures { option_map (λ x. (x.0, x.1.now)) result ≡ reading.number_at bytes.now }
{
    if bytes.len() < 8 {
        return None;
    }
    let (front, rest) = bytes.split_at(8);
    let number = u64::from_le_bytes([
        front[0], front[1], front[2], front[3], front[4], front[5], front[6], front[7],
    ]);
    Some((number, rest))
}

#[tactic(auto, unfolding(crate::specs::Reading::uuid_at))]
fn uuid_at(bytes: &[u8]) -> Option<(u128, &[u8])>
    ensures { option_map (λ x. (x.0, x.1.now)) result ≡ reading.uuid_at bytes.now }
{
    if bytes.len() < 16 {
        return None;
    }
    let (front, rest) = bytes.split_at(16);
    let server = u128::from_be_bytes([
        front[0], front[1], front[2], front[3], front[4], front[5], front[6], front[7], front[8],
        front[9], front[10], front[11], front[12], front[13], front[14], front[15],
    ]);
    Some((server, rest))
}

fn interval_at(bytes: &[u8]) -> Option<(Interval, &[u8])>
    ensures { option_map (λ x. (x.0, x.1.now)) result ≡ reading.interval_at bytes.now }
{
    let (first, rest) = number_at(bytes)?;
    let (end, rest) = number_at(rest)?;
    let interval = Interval {
        first,
        last: end.saturating_sub(1),
    };
    Some((interval, rest))
}

fn intervals_at(
    alloc: Global,
    count: u64,
    bytes: &[u8],
) -> Result<Option<(Vec<Interval>, &[u8])>, Memory>
    ensures { IfOk result (λ it. option_map (λ x. (x.0.items, x.1.now)) it ≡ reading.intervals_at [] count bytes.now) }
{
    let mut found = Vec::new(alloc);
    let mut left = count;
    let mut rest = bytes;
    while 0 < left {
        let Some((interval, more)) = interval_at(rest) else {
            return Ok(None);
        };
        found.push(interval)?;
        left -= 1;
        rest = more;
    }
    Ok(Some((found, rest)))
}

fn server_at(alloc: Global, bytes: &[u8]) -> Result<Option<(ServerSet, &[u8])>, Memory>
    ensures { IfOk result (λ it. option_map (λ x. (x.0, x.1.now)) it ≡ reading.server_at bytes.now) }
{
    let Some((server, rest)) = uuid_at(bytes) else {
        return Ok(None);
    };
    let Some((count, rest)) = number_at(rest) else {
        return Ok(None);
    };
    match intervals_at(alloc, count, rest)? {
        Some((intervals, rest)) => {
            let intervals = List::from_vec(intervals);
            Ok(Some((ServerSet { server, intervals }, rest)))
        }
        None => Ok(None),
    }
}

fn servers_at(
    alloc: Global,
    count: u64,
    bytes: &[u8],
) -> Result<Option<(Vec<ServerSet>, &[u8])>, Memory>
    ensures { IfOk result (λ it. option_map (λ x. (x.0.items, x.1.now)) it ≡ reading.servers_at [] count bytes.now) }
{
    let mut found = Vec::new(alloc);
    let mut left = count;
    let mut rest = bytes;
    while 0 < left {
        let Some((set, more)) = server_at(alloc, rest)? else {
            return Ok(None);
        };
        found.push(set)?;
        left -= 1;
        rest = more;
    }
    Ok(Some((found, rest)))
}

/// The servers that the bytes begin with, in whatever order and with whatever intervals.
fn set_at(alloc: Global, bytes: &[u8]) -> Result<Option<(Vec<ServerSet>, &[u8])>, Memory>
    ensures { IfOk result (λ it. option_map (λ x. (x.0.items, x.1.now)) it ≡ reading.set_at bytes.now) }
{
    match number_at(bytes) {
        Some((count, rest)) => servers_at(alloc, count, rest),
        None => Ok(None),
    }
}

/// The canonical set that has these bytes, if there is one.
fn read_set(alloc: Global, bytes: &[u8]) -> Result<Option<GtidSet>, Memory>
    ensures { IfOk result (λ it. IsSpelled spec.set_bytes bytes.now it) }
{
    let Some((servers, _rest)) = set_at(alloc, bytes)? else {
        return Ok(None);
    };
    let Some(set) = GtidSet::of(alloc, servers.as_slice())? else {
        return Ok(None);
    };
    let again = set.to_bytes(alloc)?;
    if again.as_slice() == bytes {
        Ok(Some(set))
    } else {
        Ok(None)
    }
}

impl GtidSet {
    /// The set's bytes, as a PREVIOUS_GTIDS event has them.
    pub fn to_bytes(&self, alloc: Global) -> Result<List<u8>, Memory>
        ensures { IfOk result (λ it. it ≡ spec.set_bytes self.now) }
    {
        let mut out = Vec::new(alloc);
        put_set(&mut out, self.servers())?;
        Ok(List::from_vec(out))
    }

    /// The set that has these bytes; `NotASet` if there is none.
    pub fn from_bytes(alloc: Global, bytes: &[u8]) -> Result<GtidSet, SetError>
        ensures { spec.ReadsBytes bytes.now result }
    {
        match read_set(alloc, bytes) {
            Ok(Some(set)) => Ok(set),
            Ok(None) => Err(SetError::NotASet),
            Err(_) => Err(SetError::Memory),
        }
    }
}
