ghost use Rattle.std.specs.Prelude.{◌≡◌, [], ◌<◌, ◌≤◌, ◌==◌, IfOk, IsTrue, OnErr, OnOk, drop, length, nat_le};
ghost use Rattle.std.specs.Option.{option_copied};
ghost use Rattle.ring_types.specs.declared.gtid_sets.ServerSet.{ServerSet};
ghost use Rattle.gtid_set.specs.Canonical.{AreMerged, IsCanonical};
ghost use Rattle.gtid_set.specs.Ranges.{end_behind, intervals, with_range, without};
ghost use Rattle.gtid_set.specs.Servers as spec;
ghost use Rattle.gtid_set.specs.Reading as reading;

use crate::intervals::{self, Ends};
use ring_types::{Duplicate, Interval, Memory, ServerSet};
use std::alloc::Global;
use std::collections::BTreeMap;
use std::marker::Model;

/// The transactions of one server. Contracts see it as a `ServerSet`; the intervals stand in a map
/// here, so that one is found, put in or taken out without a walk over the others.
#[derive(Drop)]
pub(crate) struct ServerNumbers {
    server: u128,
    ends: Ends,
}

impl Model for ServerNumbers {
    ghost use Rattle.ring_types.specs.declared.gtid_sets.ServerSet.{ServerSet};

    ghost Value = { ServerSet };

    ghost use Rattle.gtid_set.specs.Ranges.{intervals};

    ghost view = { λ s. record { server = s.server; intervals = intervals s.ends.entries } };
}

impl ServerNumbers {
    /// A server without a number.
    fn new(alloc: Global, server: u128) -> ServerNumbers
        ensures { result ≡ record { server = server; intervals = [] } }
    {
        ServerNumbers {
            server,
            ends: BTreeMap::new(alloc),
        }
    }

    /// The same server and intervals.
    fn of(alloc: Global, set: &ServerSet) -> Result<ServerNumbers, Memory>
        requires { AreMerged 0 set.now.intervals }
        ensures { IfOk result (λ it. it ≡ set.now) }
    {
        let ends = intervals::filled(alloc, set.intervals.as_slice())?;
        Ok(ServerNumbers {
            server: set.server,
            ends,
        })
    }

    pub(crate) fn server(&self) -> u128
        ensures { result ≡ self.now.server }
    {
        self.server
    }

    pub(crate) fn ends(&self) -> &Ends
        ensures { intervals result.now.entries ≡ self.now.intervals }
    {
        &self.ends
    }

    fn is_empty(&self) -> bool
        ensures { result ≡ (length self.now.intervals == 0) }
    {
        self.ends.is_empty()
    }

    fn add_range(&mut self, range: Interval) -> Result<(), Memory>
        requires merged { AreMerged 0 self.old.intervals }
        requires from_one { 1 ≤ range.first }
        requires some { range.first ≤ range.last }
        ensures ok { OnOk result (self.new ≡ record { server = self.old.server; intervals = with_range range.first range.last self.old.intervals }) }
        ensures err { OnErr result (self.new ≡ self.old) }
    {
        intervals::add_range(&mut self.ends, range)?;
        Ok(())
    }

    fn remove_number(&mut self, number: u64) -> Result<(), Memory>
        requires { AreMerged 0 self.old.intervals }
        ensures ok { OnOk result (self.new ≡ record { server = self.old.server; intervals = without number self.old.intervals }) }
        ensures err { OnErr result (self.new ≡ self.old) }
    {
        intervals::remove_number(&mut self.ends, number)?;
        Ok(())
    }
}

impl Duplicate for ServerNumbers {
    fn copy(&self, _alloc: Global) -> Result<ServerNumbers, Memory> {
        Ok(ServerNumbers {
            server: self.server,
            ends: self.ends.clone()?,
        })
    }
}

/// Whether a server may follow `before`.
fn follows(before: Option<u128>, server: u128) -> bool
    ensures { result ≡ nat_le (reading.floor before) server }
{
    match before {
        None => true,
        Some(earlier) => earlier < server,
    }
}

/// Whether a server may follow `before`, and has intervals as in a canonical set.
fn is_whole(before: Option<u128>, set: &ServerSet) -> bool
    ensures { result ≡ reading.is_whole (reading.floor before) set.now }
{
    if set.intervals.is_empty() || !follows(before, set.server) {
        return false;
    }
    intervals::are_merged(set.intervals.as_slice())
}

/// Whether these are the servers of a canonical set.
pub(crate) fn are_canonical(servers: &[ServerSet]) -> bool
    ensures { result ≡ reading.are_canonical 0 servers.now }
{
    let mut before = None;
    for set in servers {
        if !is_whole(before, set) {
            return false;
        }
        before = Some(set.server);
    }
    true
}

/// The same servers and intervals.
pub(crate) fn kept(alloc: Global, sets: &[ServerSet]) -> Result<Vec<ServerNumbers>, Memory>
    requires { IsCanonical sets.now }
    ensures { IfOk result (λ it. it.items ≡ sets.now) }
{
    let mut servers = Vec::new(alloc);
    for set in sets {
        servers.push(ServerNumbers::of(alloc, set)?)?;
    }
    Ok(servers)
}

/// How many servers at the front come before this one.
fn place_of(servers: &[ServerNumbers], server: u128) -> usize
    ensures { result ≡ spec.servers_below server servers.now }
{
    for (at, set) in servers.iter().enumerate() {
        if server <= set.server() {
            return at;
        }
    }
    servers.len()
}

/// Whether the server stands at `at`.
fn is_at(servers: &[ServerNumbers], at: usize, server: u128) -> bool
    ensures told { result ≡ spec.begins_with server (drop at servers.now) }
    ensures within { IsTrue result → at < length servers.now }
{
    if at < servers.len() {
        servers[at].server() == server
    } else {
        false
    }
}

/// The numbers of a server; None if it has none.
pub(crate) fn numbers_of(servers: &[ServerNumbers], server: u128) -> Option<&ServerNumbers>
    ensures { spec.intervals_of server servers.now ≡ spec.intervals_in (option_copied result) }
{
    let at = place_of(servers, server);
    if is_at(servers, at, server) {
        Some(&servers[at])
    } else {
        None
    }
}

/// The greatest number of a server; 0 if it has none.
pub(crate) fn greatest_of(servers: &[ServerNumbers], server: u128) -> u64
    ensures { result ≡ end_behind 0 (spec.intervals_of server servers.now) }
{
    match numbers_of(servers, server) {
        Some(set) => intervals::greatest(set.ends()),
        None => 0,
    }
}

/// Puts a range of a server's numbers in.
pub(crate) fn put_range(
    alloc: Global,
    servers: &mut Vec<ServerNumbers>,
    server: u128,
    range: Interval,
) -> Result<(), Memory>
    requires canonical { IsCanonical servers.old.items }
    requires from_one { 1 ≤ range.first }
    requires some { range.first ≤ range.last }
    ensures ok { OnOk result (servers.new.items ≡ spec.range_in server range servers.old.items) }
    ensures err { OnErr result (servers.new.items ≡ servers.old.items) }
{
    let at = place_of(servers.as_slice(), server);
    if is_at(servers.as_slice(), at, server) {
        servers[at].add_range(range)
    } else {
        let mut set = ServerNumbers::new(alloc, server);
        set.add_range(range)?;
        servers.insert(at, set)?;
        Ok(())
    }
}

/// Puts the numbers of a server in, one interval after the other.
fn put_set(
    alloc: Global,
    servers: &mut Vec<ServerNumbers>,
    set: &ServerNumbers,
) -> Result<(), Memory>
    requires canonical { IsCanonical servers.old.items }
    requires merged { AreMerged 0 set.now.intervals }
    ensures ok { OnOk result (servers.new.items ≡ spec.ranges_in set.now.server set.now.intervals servers.old.items) }
    ensures canonical { IsCanonical servers.new.items }
{
    let server = set.server();
    for (first, last) in set.ends() {
        let range = Interval {
            first: *first,
            last: *last,
        };
        put_range(alloc, servers, server, range)?;
    }
    Ok(())
}

/// Puts the numbers of all these servers in.
pub(crate) fn put_sets(
    alloc: Global,
    servers: &mut Vec<ServerNumbers>,
    sets: &[ServerNumbers],
) -> Result<(), Memory>
    requires canonical { IsCanonical servers.old.items }
    requires others { IsCanonical sets.now }
    ensures { OnOk result (servers.new.items ≡ spec.sets_in sets.now servers.old.items) }
{
    for set in sets {
        put_set(alloc, servers, set)?;
    }
    Ok(())
}

/// Takes a number of a server out; a server without numbers goes.
pub(crate) fn take_number(
    servers: &mut Vec<ServerNumbers>,
    server: u128,
    number: u64,
) -> Result<(), Memory>
    requires { IsCanonical servers.old.items }
    ensures ok { OnOk result (servers.new.items ≡ spec.number_out server number servers.old.items) }
    ensures err { OnErr result (servers.new.items ≡ servers.old.items) }
{
    let at = place_of(servers.as_slice(), server);
    if !is_at(servers.as_slice(), at, server) {
        return Ok(());
    }
    servers[at].remove_number(number)?;
    if servers[at].is_empty() {
        servers.remove(at);
        Ok(())
    } else {
        Ok(())
    }
}

/// Copies of these, in order.
pub(crate) fn copies(alloc: Global, servers: &[ServerNumbers]) -> Result<Vec<ServerNumbers>, Memory>
    ensures { IfOk result (λ it. it.items ≡ servers.now) }
{
    let mut copies = Vec::new(alloc);
    for set in servers {
        copies.push(set.copy(alloc)?)?;
    }
    Ok(copies)
}
