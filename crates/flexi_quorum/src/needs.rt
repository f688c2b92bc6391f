ghost use Rattle.std.specs.Prelude.{◌≡◌, ◌++◌, IfOk, filter};
ghost use Rattle.std.specs.List.{list_all, list_any};
ghost use Rattle.ring_model.specs.Needs as spec;
ghost use Rattle.ring_model.specs.Quorums as quorums;

use crate::quorums::covers;
use ring_types::{Duplicate, Grant, List, Memory, NodeId, RegionId, Ring, Vote};
use std::alloc::Global;
use std::marker::Model;

/// A voter reports a vote for a candidate of this region.
#[derive(Clone, Copy)]
struct Report {
    pub voter: NodeId,
    pub region: RegionId,
}

impl Model for Report {
    ghost use Rattle.ring_model.specs.Needs.{Report};

    ghost Value = { Report };

    ghost view = { λ it. record { voter = it.voter; region = it.region } };

    ghost inverse = { λ it. record { voter = it.voter; region = it.region } };
}

/// The votes of terms strictly between `low` and `high`.
pub fn votes_between(
    alloc: Global,
    low: u64,
    high: u64,
    votes: &[Vote],
) -> Result<List<Vote>, Memory>
    ensures { IfOk result (λ it. it ≡ spec.votes_between low high votes.now) }
{
    let mut between = List::new(alloc);
    for vote in votes {
        if low < vote.term && vote.term < high {
            between.push(*vote)?;
        }
    }
    Ok(between)
}

fn with_reports_of(
    alloc: Global,
    reports: List<Report>,
    low: u64,
    high: u64,
    grant: &Grant,
) -> Result<List<Report>, Memory>
    ensures { IfOk result (λ it. it ≡ reports ++ spec.reports_of low high grant.now) }
{
    let mut told = reports;
    let between = votes_between(alloc, low, high, grant.votes.as_slice())?;
    for vote in between.as_slice() {
        told.push(Report {
            voter: grant.voter,
            region: vote.region,
        })?;
    }
    Ok(told)
}

/// What the granted voters report of terms strictly between `low` and `high`.
fn reports(alloc: Global, low: u64, high: u64, grants: &[Grant]) -> Result<List<Report>, Memory>
    ensures { IfOk result (λ it. it ≡ spec.reports low high grants.now) }
{
    let mut told = List::new(alloc);
    for grant in grants {
        told = with_reports_of(alloc, told, low, high, grant)?;
    }
    Ok(told)
}

fn is_in_zone(ring: &Ring, region: RegionId, other: RegionId) -> bool
    ensures { result ≡ quorums.is_listed (quorums.zone ring.now region) other }
{
    region == other
}

fn is_in_zones(ring: &Ring, regions: &[RegionId], region: RegionId) -> bool
    ensures { result ≡ list_any (λ r. quorums.is_listed (quorums.zone ring.now r) region) regions.now }
{
    regions.iter().any(|other| is_in_zone(ring, *other, region))
}

fn stands_in(ring: &Ring, regions: &[RegionId], id: NodeId) -> bool
    ensures { result ≡ spec.stands_in ring.now regions.now id }
{
    ring.members().as_slice().iter().any(|member| {
        member.id == id && member.kind.is_voter() && is_in_zones(ring, regions, member.region)
    })
}

fn heard(
    alloc: Global,
    ring: &Ring,
    regions: &[RegionId],
    pool: &[Report],
) -> Result<List<Report>, Memory>
    ensures { IfOk result (λ it. it ≡ filter (spec.is_heard ring.now regions.now) pool.now) }
{
    let mut found = List::new(alloc);
    for report in pool {
        if stands_in(ring, regions, report.voter) {
            found.push(*report)?;
        }
    }
    Ok(found)
}

fn unheard(
    alloc: Global,
    ring: &Ring,
    regions: &[RegionId],
    pool: &[Report],
) -> Result<List<Report>, Memory>
    ensures { IfOk result (λ it. it ≡ filter (spec.is_unheard ring.now regions.now) pool.now) }
{
    let mut found = List::new(alloc);
    for report in pool {
        if !stands_in(ring, regions, report.voter) {
            found.push(*report)?;
        }
    }
    Ok(found)
}

/// The regions of the reports, and after them `regions`.
fn regions_before(
    alloc: Global,
    reports: &[Report],
    regions: List<RegionId>,
) -> Result<List<RegionId>, Memory>
    ensures { IfOk result (λ it. it ≡ spec.regions_of reports.now ++ regions) }
{
    let mut all = List::new(alloc);
    for report in reports {
        all.push(report.region)?;
    }
    all.append(regions)?;
    Ok(all)
}

/// Adds the regions of the reports that are heard and takes these from the pool, until none is
/// heard, in at most `rounds` rounds.
fn closure(
    alloc: Global,
    ring: &Ring,
    rounds: usize,
    regions: List<RegionId>,
    pool: List<Report>,
) -> Result<List<RegionId>, Memory>
    ensures { IfOk result (λ it. it ≡ spec.closure ring.now rounds regions pool) }
{
    if rounds == 0 {
        return Ok(regions);
    }
    let told = heard(alloc, ring, regions.as_slice(), pool.as_slice())?;
    if told.len() == 0 {
        return Ok(regions);
    }
    let rest = unheard(alloc, ring, regions.as_slice(), pool.as_slice())?;
    let more = regions_before(alloc, told.as_slice(), regions)?;
    closure(alloc, ring, rounds - 1, more, rest)
}

/// The regions needed by a candidate of `term` and region `own` whose last entry has the term `base`
/// and the region `base_region`.
#[tactic(auto, unfolding(ring_model::specs::Needs::need))]
pub fn need(
    alloc: Global,
    ring: &Ring,
    base: u64,
    base_region: RegionId,
    own: RegionId,
    term: u64,
    grants: &[Grant],
) -> Result<List<RegionId>, Memory>
    ensures { IfOk result (λ it. it ≡ spec.need ring.now base base_region own term grants.now) }
{
    let pool = reports(alloc, base, term, grants)?;
    let mut regions = List::of_one(alloc, base_region)?;
    regions.push(own)?;
    closure(alloc, ring, pool.len(), regions, pool)
}

fn voters_in(alloc: Global, grants: &[Grant]) -> Result<List<NodeId>, Memory>
    ensures { IfOk result (λ it. it ≡ spec.voters_in grants.now) }
{
    let mut voters = List::new(alloc);
    for grant in grants {
        voters.push(grant.voter)?;
    }
    Ok(voters)
}

fn cover_all(ring: &Ring, regions: &[RegionId], voters: &[NodeId]) -> bool
    ensures { result ≡ list_all (λ region. quorums.covers ring.now region voters.now) regions.now }
{
    regions.iter().all(|region| covers(ring, *region, voters))
}

/// Whether the granted voters cover every needed region.
#[tactic(auto, unfolding(ring_model::specs::Needs::wins))]
pub fn wins(
    alloc: Global,
    ring: &Ring,
    base: u64,
    base_region: RegionId,
    own: RegionId,
    term: u64,
    grants: &[Grant],
) -> Result<bool, Memory>
    ensures { IfOk result (λ it. it ≡ spec.wins ring.now base base_region own term grants.now) }
{
    let regions = need(alloc, ring, base, base_region, own, term, grants)?;
    let voters = voters_in(alloc, grants)?;
    Ok(cover_all(ring, regions.as_slice(), voters.as_slice()))
}
