ghost use Rattle.std.specs.Prelude.{◌≡◌, ℕ, ◌==◌, ◌&&◌, ◌++◌, ◌∷◌, [], true, nat_le, max, IfOk, OnOk, map};
ghost use Rattle.std.specs.List.{list_all, list_any};
ghost use Rattle.ring_types.specs.Gtids as spec;
ghost use Rattle.ring_types.specs.declared.values.Gtid.{Gtid};

use ring_types::{Entry, Gtid, Interval, LAST_GTID, List, Memory, Payload, ServerSet};
use std::alloc::Global;

fn add_gtid(gtids: &mut List<Gtid>, entry: &Entry) -> Result<(), Memory>
    ensures { OnOk result (gtids.new ≡ gtids.old ++ spec.gtids_in (entry.now ∷ [])) }
{
    match &entry.payload {
        Payload::NoOp => Ok(()),
        Payload::Rotate => Ok(()),
        Payload::Txn(txn) => gtids.push(txn.gtid),
    }
}

#[tactic(auto, using(crate::proofs::Growing::gtids_in_more))]
fn gtids_in(alloc: Global, log: &[Entry]) -> Result<List<Gtid>, Memory>
    ensures { IfOk result (λ it. it ≡ spec.gtids_in log.now) }
{
    let mut found = List::new(alloc);
    for entry in log {
        add_gtid(&mut found, entry)?;
    }
    Ok(found)
}

fn interval_has(number: u64, interval: &Interval) -> bool
    ensures { result ≡ spec.interval_has number interval.now }
{
    interval.first <= number && number <= interval.last
}

fn intervals_have(intervals: &[Interval], number: u64) -> bool
    ensures { result ≡ list_any (spec.interval_has number) intervals.now }
{
    intervals
        .iter()
        .any(|interval| interval_has(number, interval))
}

fn server_has(server: u128, number: u64, set: &ServerSet) -> bool
    ensures { result ≡ (set.now.server == server && list_any (spec.interval_has number) set.now.intervals) }
{
    set.server == server && intervals_have(set.intervals.as_slice(), number)
}

/// Whether the set has the server's transaction of this number.
pub fn has(sets: &[ServerSet], server: u128, number: u64) -> bool
    ensures { result ≡ spec.has sets.now server number }
{
    sets.iter().any(|set| server_has(server, number, set))
}

fn with_number(alloc: Global, number: u64, numbers: &[u64]) -> Result<List<u64>, Memory>
    ensures { IfOk result (λ it. it ≡ spec.with_number number numbers.now) }
{
    let mut passed = List::new(alloc);
    let mut rest = numbers;
    while let [other, others @ ..] = rest {
        if number < *other {
            passed.push(number)?;
            passed.extend_copies(alloc, rest)?;
            return Ok(passed);
        }
        if number == *other {
            passed.extend_copies(alloc, rest)?;
            return Ok(passed);
        }
        passed.push(*other)?;
        rest = others;
    }
    passed.push(number)?;
    Ok(passed)
}

fn with_server(alloc: Global, server: u128, servers: &[u128]) -> Result<List<u128>, Memory>
    ensures { IfOk result (λ it. it ≡ spec.with_number server servers.now) }
{
    let mut passed = List::new(alloc);
    let mut rest = servers;
    while let [other, others @ ..] = rest {
        if server < *other {
            passed.push(server)?;
            passed.extend_copies(alloc, rest)?;
            return Ok(passed);
        }
        if server == *other {
            passed.extend_copies(alloc, rest)?;
            return Ok(passed);
        }
        passed.push(*other)?;
        rest = others;
    }
    passed.push(server)?;
    Ok(passed)
}

fn numbers_of(alloc: Global, server: u128, gtids: &[Gtid]) -> Result<List<u64>, Memory>
    ensures { IfOk result (λ it. it ≡ spec.numbers_of server gtids.now) }
{
    let mut numbers = List::new(alloc);
    for gtid in gtids {
        if gtid.server == server {
            numbers.push(gtid.number)?;
        }
    }
    Ok(numbers)
}

/// A number in its place in an ascending list of numbers that are not above a bound. One above the
/// bound goes to the end at once.
fn put_number(
    alloc: Global,
    number: u64,
    bound: u64,
    numbers: List<u64>,
) -> Result<List<u64>, Memory>
    requires { list_all (λ (x : ℕ). nat_le x bound) numbers ≡ true }
    ensures put { IfOk result (λ it. it ≡ spec.with_number number numbers) }
    ensures below { IfOk result (λ it. list_all (λ (x : ℕ). nat_le x (max bound number)) it ≡ true) }
{
    if number <= bound {
        return with_number(alloc, number, numbers.as_slice());
    }
    let mut numbers = numbers;
    numbers.push(number)?;
    Ok(numbers)
}

/// The numbers in ascending order, each once. Those of a log mostly rise, and then it is a walk.
fn ascending_numbers(alloc: Global, numbers: &[u64]) -> Result<List<u64>, Memory>
    ensures { IfOk result (λ it. it ≡ spec.ascending numbers.now) }
{
    let mut so_far = List::new(alloc);
    let mut greatest = 0u64;
    for number in numbers {
        so_far = put_number(alloc, *number, greatest, so_far)?;
        greatest = greatest.max(*number);
    }
    Ok(so_far)
}

fn ascending_servers(alloc: Global, gtids: &[Gtid]) -> Result<List<u128>, Memory>
    ensures { IfOk result (λ it. it ≡ spec.ascending (map (λ (g : Gtid). g.server) gtids.now)) }
{
    let mut so_far = List::new(alloc);
    for gtid in gtids {
        so_far = with_server(alloc, gtid.server, so_far.as_slice())?;
    }
    Ok(so_far)
}

fn intervals_of(alloc: Global, numbers: &[u64]) -> Result<List<Interval>, Memory>
    ensures { IfOk result (λ it. it ≡ spec.intervals_of numbers.now) }
{
    let [number, others @ ..] = numbers else {
        return Ok(List::new(alloc));
    };
    let mut closed = List::new(alloc);
    let mut first = *number;
    let mut last = *number;
    for other in others {
        if last < *other && *other - last == 1 {
            last = *other;
        } else {
            closed.push(Interval { first, last })?;
            first = *other;
            last = *other;
        }
    }
    closed.push(Interval { first, last })?;
    Ok(closed)
}

fn server_set(alloc: Global, gtids: &[Gtid], server: u128) -> Result<ServerSet, Memory>
    ensures { IfOk result (λ it. it ≡ spec.server_set gtids.now server) }
{
    let numbers = numbers_of(alloc, server, gtids)?;
    let ascending = ascending_numbers(alloc, numbers.as_slice())?;
    Ok(ServerSet {
        server,
        intervals: intervals_of(alloc, ascending.as_slice())?,
    })
}

fn set_of(alloc: Global, gtids: &[Gtid]) -> Result<List<ServerSet>, Memory>
    ensures { IfOk result (λ it. it ≡ spec.set_of gtids.now) }
{
    let servers = ascending_servers(alloc, gtids)?;
    let mut sets = List::new(alloc);
    for server in servers.as_slice() {
        sets.push(server_set(alloc, gtids, *server)?)?;
    }
    Ok(sets)
}

/// The set that has exactly the GTIDs of a list's transactions: servers ascending, the numbers of
/// each as merged intervals.
#[tactic(auto, unfolding(ring_types::specs::Gtids::gtids))]
pub fn gtids(alloc: Global, log: &[Entry]) -> Result<List<ServerSet>, Memory>
    ensures { IfOk result (λ it. it ≡ spec.gtids log.now) }
{
    let found = gtids_in(alloc, log)?;
    set_of(alloc, found.as_slice())
}

fn number_in(server: u128, entry: &Entry) -> u64
    ensures { result ≡ spec.greatest_number server (entry.now ∷ []) }
{
    match &entry.payload {
        Payload::NoOp => 0,
        Payload::Rotate => 0,
        Payload::Txn(txn) => {
            if txn.gtid.server == server {
                txn.gtid.number
            } else {
                0
            }
        }
    }
}

/// The server's greatest number in the log, 0 where it has none.
#[tactic(auto, using(crate::proofs::Growing::greatest_number_more))]
pub(crate) fn greatest_number(server: u128, log: &[Entry]) -> u64
    ensures { result ≡ spec.greatest_number server log.now }
{
    let mut greatest = 0u64;
    for entry in log {
        greatest = greatest.max(number_in(server, entry));
    }
    greatest
}

/// The number of the server's next transaction; there is none after [`LAST_GTID`].
pub fn next_number(server: u128, log: &[Entry]) -> Option<u64>
    ensures { result ≡ spec.next_number server log.now }
{
    let greatest = greatest_number(server, log);
    if greatest < LAST_GTID {
        Some(greatest + 1)
    } else {
        None
    }
}
