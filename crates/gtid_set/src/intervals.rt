ghost use Rattle.std.specs.Prelude.{◌≡◌, ◌<◌, ◌≤◌, ◌+◌, IfOk, IsTrue, OnErr, OnOk, Some, length};
ghost use Rattle.std.specs.List.{list_any};
ghost use Rattle.std.specs.Map.{set_value};
ghost use Rattle.std.specs.BTreeMap.{IsOrdered, is_at};
ghost use Rattle.std.specs.Ordering.{nat_cmp};
ghost use Rattle.ring_types.specs.Gtids.{interval_has};
ghost use Rattle.gtid_set.specs.Canonical.{AreMerged};
ghost use Rattle.gtid_set.specs.Ranges as spec;
ghost use Rattle.gtid_set.specs.Reading as reading;

use ring_types::{Interval, LAST_GTID, Memory};
use std::alloc::Global;
use std::collections::BTreeMap;
use std::ops::Bound;

/// The intervals of one server: the last number of each, by its first.
pub(crate) type Ends = BTreeMap<u64, u64>;

/// Whether the intervals stand as in a canonical set.
pub(crate) fn are_merged(intervals: &[Interval]) -> bool
    ensures { result ≡ reading.are_merged 0 intervals.now }
{
    let mut below = 0;
    for interval in intervals {
        let Interval { first, last } = *interval;
        if last < first || first <= below || LAST_GTID < last {
            return false;
        }
        below = last + 1;
    }
    true
}

/// A map with these intervals.
pub(crate) fn filled(alloc: Global, intervals: &[Interval]) -> Result<Ends, Memory>
    requires { AreMerged 0 intervals.now }
    ensures { IfOk result (λ it. spec.intervals it.entries ≡ intervals.now) }
{
    let mut ends = BTreeMap::new(alloc);
    for interval in intervals {
        ends.insert(interval.first, interval.last)?;
    }
    Ok(ends)
}

/// The last interval that begins at a number or below it.
fn begun_by(ends: &Ends, number: u64) -> Option<Interval>
    ensures { result ≡ spec.begun_by number (spec.intervals ends.now.entries) }
{
    match ends.range(..=number).next_back() {
        Some((first, last)) => Some(Interval {
            first: *first,
            last: *last,
        }),
        None => None,
    }
}

/// The first interval that begins above a number.
fn begun_after(ends: &Ends, number: u64) -> Option<Interval>
    ensures { result ≡ spec.begun_after number (spec.intervals ends.now.entries) }
{
    match ends
        .range((Bound::Excluded(number), Bound::Unbounded))
        .next()
    {
        Some((first, last)) => Some(Interval {
            first: *first,
            last: *last,
        }),
        None => None,
    }
}

/// Whether one of the intervals has a number.
pub(crate) fn have(ends: &Ends, number: u64) -> bool
    requires { AreMerged 0 (spec.intervals ends.now.entries) }
    ensures { result ≡ list_any (interval_has number) (spec.intervals ends.now.entries) }
{
    match begun_by(ends, number) {
        Some(interval) => number <= interval.last,
        None => false,
    }
}

/// The greatest number of the intervals; 0 if there is none.
pub(crate) fn greatest(ends: &Ends) -> u64
    ensures { result ≡ spec.end_behind 0 (spec.intervals ends.now.entries) }
{
    match ends.last_key_value() {
        Some((_, last)) => *last,
        None => 0,
    }
}

/// The range, joined with the interval before it if the two touch.
fn joined(before: Option<Interval>, range: Interval) -> Interval
    requires { 1 ≤ range.first }
    ensures { result ≡ spec.joined before range }
{
    match before {
        Some(interval) if range.first - 1 <= interval.last => Interval {
            first: interval.first,
            last: range.last.max(interval.last),
        },
        _ => range,
    }
}

/// Ends the interval that begins at `first` elsewhere.
fn set_end(ends: &mut Ends, first: u64, last: u64)
    ensures { ends.new.entries ≡ set_value (is_at (nat_cmp first)) ends.old.entries last }
{
    if let Some(end) = ends.get_mut(&first) {
        *end = last;
    }
}

/// The first number of the interval behind the one that begins at `first`, and the last number of
/// both; None if they do not touch.
fn touched(ends: &Ends, first: u64) -> Option<(u64, u64)>
    ensures { result ≡ spec.touched first ends.now.entries }
{
    let last = *ends.get(&first)?;
    let next = begun_after(ends, first)?;
    if next.first.saturating_sub(1) <= last {
        Some((next.first, last.max(next.last)))
    } else {
        None
    }
}

/// Lets the interval that begins at `first` take in those that it touches.
fn swallow(ends: &mut Ends, first: u64)
    requires { IsOrdered nat_cmp ends.old }
    ensures { spec.intervals ends.new.entries ≡ spec.grown first (spec.intervals ends.old.entries) }
{
    while let Some((next, last)) = touched(ends, first) {
        ends.remove(&next);
        set_end(ends, first, last);
    }
}

/// Puts a range among the intervals, and joins it with those that it touches.
pub(crate) fn add_range(ends: &mut Ends, range: Interval) -> Result<(), Memory>
    requires merged { AreMerged 0 (spec.intervals ends.old.entries) }
    requires from_one { 1 ≤ range.first }
    requires some { range.first ≤ range.last }
    ensures ok { OnOk result (spec.intervals ends.new.entries ≡ spec.with_range range.first range.last (spec.intervals ends.old.entries)) }
    ensures err { OnErr result (ends.new.entries ≡ ends.old.entries) }
{
    let range = joined(begun_by(ends, range.first), range);
    ends.insert(range.first, range.last)?;
    swallow(ends, range.first);
    Ok(())
}

/// Ends the interval that begins at `first` before a number, or takes it out if nothing of it is left.
fn end_before(ends: &mut Ends, first: u64, number: u64)
    ensures { ends.new.entries ≡ spec.ended_before first number ends.old.entries }
{
    if first < number {
        set_end(ends, first, number - 1);
    } else {
        ends.remove(&first);
    }
}

/// Takes a number out of the interval that has it.
fn cut(ends: &mut Ends, interval: Interval, number: u64) -> Result<(), Memory>
    requires merged { AreMerged 0 (spec.intervals ends.old.entries) }
    requires begun { spec.begun_by number (spec.intervals ends.old.entries) ≡ Some interval }
    requires ends { number ≤ interval.last }
    ensures ok { OnOk result (spec.intervals ends.new.entries ≡ spec.without number (spec.intervals ends.old.entries)) }
    ensures err { OnErr result (ends.new.entries ≡ ends.old.entries) }
{
    if number < interval.last {
        ends.insert(number + 1, interval.last)?;
        end_before(ends, interval.first, number);
        Ok(())
    } else {
        end_before(ends, interval.first, number);
        Ok(())
    }
}

/// Takes a number out of the intervals, and parts the one that has it.
pub(crate) fn remove_number(ends: &mut Ends, number: u64) -> Result<(), Memory>
    requires { AreMerged 0 (spec.intervals ends.old.entries) }
    ensures ok { OnOk result (spec.intervals ends.new.entries ≡ spec.without number (spec.intervals ends.old.entries)) }
    ensures err { OnErr result (ends.new.entries ≡ ends.old.entries) }
{
    match begun_by(ends, number) {
        Some(interval) if number <= interval.last => cut(ends, interval, number),
        _ => Ok(()),
    }
}
