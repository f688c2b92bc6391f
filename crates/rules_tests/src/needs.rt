//! The regions that a candidate needs, on a ring of three regions with one voter each.
use super::fixtures::{grant, none, one, pair, same, spread, vote, with};
use flexi_quorum::{need, wins};
use ring_types::{Grant, List, RegionId, Ring};
use std::process::Abort;

fn needed_on(rt: &(impl AllocGlobal + Abort), ring: &Ring, grants: &List<Grant>) -> List<RegionId> {
    let home = RegionId(1);
    need(rt.alloc(), ring, 1, home, home, 5, grants.as_slice()).expect(rt, "memory")
}

/// What a candidate of term 5 in region 1 needs whose last entry has term 1, where the voter reports
/// a vote of the term for region 2.
fn needed(rt: &(impl AllocGlobal + Abort), voter: u32, term: u64) -> List<RegionId> {
    let grants = one(rt, grant(voter, one(rt, vote(term, 2, 2))));
    needed_on(rt, &spread(rt), &grants)
}

/// The region of the last entry and the candidate's own, which are both the first.
fn own(rt: &(impl AllocGlobal + Abort)) -> List<RegionId> {
    pair(rt, RegionId(1), RegionId(1))
}

fn second_and_own(rt: &(impl AllocGlobal + Abort)) -> List<RegionId> {
    with(rt, pair(rt, RegionId(2), RegionId(1)), RegionId(1))
}

#[test]
fn a_reported_vote_makes_its_region_needed(rt: HostRuntime) {
    same(&rt, needed(&rt, 1, 2), second_and_own(&rt));
}

#[test]
fn votes_outside_the_terms_need_nothing_more(rt: HostRuntime) {
    same(&rt, needed(&rt, 1, 1), own(&rt));
    same(&rt, needed(&rt, 1, 5), own(&rt));
}

#[test]
fn a_voter_of_no_needed_region_needs_nothing_more(rt: HostRuntime) {
    same(&rt, needed(&rt, 3, 2), own(&rt));
}

#[test]
fn a_learner_needs_nothing_more(rt: HostRuntime) {
    same(&rt, needed(&rt, 4, 2), own(&rt));
}

// ---- a chain: the first region's voter reports the second, whose voter reports the third

fn first_link(rt: &(impl AllocGlobal + Abort)) -> List<Grant> {
    one(rt, grant(1, one(rt, vote(2, 2, 2))))
}

fn second_covered(rt: &(impl AllocGlobal + Abort)) -> List<Grant> {
    with(rt, first_link(rt), grant(2, none(rt)))
}

fn second_link(rt: &(impl AllocGlobal + Abort)) -> List<Grant> {
    with(rt, second_covered(rt), grant(2, one(rt, vote(3, 3, 3))))
}

fn third_covered(rt: &(impl AllocGlobal + Abort)) -> List<Grant> {
    with(rt, second_link(rt), grant(3, none(rt)))
}

fn wins_on(rt: &(impl AllocGlobal + Abort), ring: &Ring, grants: &List<Grant>) -> bool {
    let home = RegionId(1);
    wins(rt.alloc(), ring, 1, home, home, 5, grants.as_slice()).expect(rt, "memory")
}

fn wins_by(rt: &(impl AllocGlobal + Abort), grants: List<Grant>) -> bool {
    wins_on(rt, &spread(rt), &grants)
}

#[test]
fn a_chain_of_reports_is_followed(rt: HostRuntime) {
    assert!(rt; !wins_by(&rt, first_link(&rt)));
    assert!(rt; wins_by(&rt, second_covered(&rt)));
    assert!(rt; !wins_by(&rt, second_link(&rt)));
    assert!(rt; wins_by(&rt, third_covered(&rt)));
}
