//! Writes and rotates of a leader, and how far its commit count goes.
ghost use Rattle.std.specs.Prelude.{◌<◌};
ghost use Rattle.node_unit.specs.Units.{IsOf, IsFitShown};

use super::fixtures::{lone, none, same, spread, three};
use super::units::{
    grants, holds, insert, leader_alone, leader_of_three, said, started, told, took,
};
use node_unit::Unit;
use ring_model::{Input, Outcome, Say, What};
use ring_types::{Gtid, List, Opid, Ring};
use std::process::Abort;

const GTID: Gtid = Gtid {
    server: 1001,
    number: 1,
};

const SECOND: Opid = Opid {
    term: 1,
    position: 2,
};

const COMMITTED: What = What::Committed {
    gtid: GTID,
    opid: SECOND,
    term: 1,
};

/// What is said when the leader alone writes a row.
fn told_alone(rt: &(impl AllocGlobal + Abort), ring: &Ring) -> List<Say> {
    let mut leader = leader_alone(rt, ring);
    told(took(rt, ring, &mut leader, insert(rt, ring, "t", 5)))
}

#[test]
fn a_lone_leader_tells_a_write_at_once(rt: HostRuntime) {
    same(&rt, told_alone(&rt, &lone(&rt)), said(&rt, COMMITTED));
}

#[test]
fn a_leader_alone_in_its_region_tells_a_write_at_once(rt: HostRuntime) {
    same(&rt, told_alone(&rt, &spread(&rt)), said(&rt, COMMITTED));
}

/// A leader of three that is ready, and has taken a write.
fn writing(rt: &(impl AllocGlobal + Abort), ring: &Ring) -> Unit
    ensures of { IsOf ring.now result }
    ensures fit { IsFitShown ring.now result.shown }
{
    let mut leader = leader_of_three(rt, ring);
    let _ = took(rt, ring, &mut leader, holds(ring, 3, 1, 1));
    let _ = took(rt, ring, &mut leader, insert(rt, ring, "t", 5));
    leader
}

/// How far a leader of three commits once node 3 holds so many entries of its two.
fn commits(rt: &(impl AllocGlobal + Abort), ring: &Ring, position: u64) -> u64
    requires { position < 3 }
{
    let mut leader = writing(rt, ring);
    let _ = took(rt, ring, &mut leader, holds(ring, 3, 1, position));
    leader.reach()
}

#[test]
fn a_leader_of_three_waits_for_another_voter(rt: HostRuntime) {
    let ring = three(&rt);
    same(&rt, writing(&rt, &ring).reach(), 1);
    same(&rt, commits(&rt, &ring, 1), 1);
    same(&rt, commits(&rt, &ring, 2), 2);
}

/// What is said when node 3 answers that it holds both entries.
fn told_later(rt: &(impl AllocGlobal + Abort), ring: &Ring) -> List<Say> {
    let mut leader = writing(rt, ring);
    told(took(rt, ring, &mut leader, holds(ring, 3, 1, 2)))
}

#[test]
fn a_write_is_told_once_it_is_committed(rt: HostRuntime) {
    same(&rt, told_later(&rt, &three(&rt)), said(&rt, COMMITTED));
}

/// What is said when the leader alone ends its binary log file.
fn told_rotate(rt: &(impl AllocGlobal + Abort), ring: &Ring) -> List<Say> {
    let mut leader = leader_alone(rt, ring);
    let client = super::units::CLIENT;
    told(took(rt, ring, &mut leader, Input::Rotate { client }))
}

#[test]
fn a_rotate_adds_its_entry(rt: HostRuntime) {
    let told = told_rotate(&rt, &lone(&rt));
    same(&rt, told, said(&rt, What::Rotated(SECOND)));
}
