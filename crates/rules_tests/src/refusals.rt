//! A write is refused for the first cause that holds.
ghost use Rattle.node_unit.specs.Units.{IsOf, IsFitShown};

use super::fixtures::{lone, lone_tailer, same, text, three};
use super::units::{holds, insert, leader_alone, leader_of_three, said, started, told, took};
use node_unit::Unit;
use ring_model::{Cause, Input, Say, What};
use ring_types::{List, NodeId, Opid, Ring, RowRefusal, Value};
use std::process::Abort;

/// What is said when a node that never ran writes a row.
fn told_first(rt: &(impl AllocGlobal + Abort), ring: &Ring) -> List<Say> {
    let mut unit = started(rt, ring, 1);
    told(took(rt, ring, &mut unit, insert(rt, ring, "none", 5)))
}

#[test]
fn not_leader_before_no_engine(rt: HostRuntime) {
    let told = told_first(&rt, &lone_tailer(&rt));
    same(&rt, told, said(&rt, What::Refused(Cause::NotLeader)));
}

/// What is said when the leader alone writes key 5 into a table.
fn told_alone(rt: &(impl AllocGlobal + Abort), ring: &Ring, table: &str) -> List<Say> {
    let mut leader = leader_alone(rt, ring);
    told(took(rt, ring, &mut leader, insert(rt, ring, table, 5)))
}

#[test]
fn no_engine_before_invalid(rt: HostRuntime) {
    let told = told_alone(&rt, &lone_tailer(&rt), "none");
    same(&rt, told, said(&rt, What::Refused(Cause::NoEngine)));
}

#[test]
fn no_such_table(rt: HostRuntime) {
    let told = told_alone(&rt, &lone(&rt), "none");
    let cause = Cause::Invalid(RowRefusal::NoTable);
    same(&rt, told, said(&rt, What::Refused(cause)));
}

/// What is said when a leader of three writes before its NoOp is committed.
fn told_unready(rt: &(impl AllocGlobal + Abort), ring: &Ring) -> List<Say> {
    let mut leader = leader_of_three(rt, ring);
    told(took(rt, ring, &mut leader, insert(rt, ring, "none", 5)))
}

#[test]
fn not_ready_before_invalid(rt: HostRuntime) {
    let told = told_unready(&rt, &three(&rt));
    same(&rt, told, said(&rt, What::Refused(Cause::NotReady)));
}

/// A leader of three that is ready and has a write of key 5 under way.
fn writing(rt: &(impl AllocGlobal + Abort), ring: &Ring) -> Unit
    ensures of { IsOf ring.now result }
    ensures fit { IsFitShown ring.now result.shown }
{
    let mut leader = leader_of_three(rt, ring);
    let _ = took(rt, ring, &mut leader, holds(ring, 3, 1, 1));
    let _ = took(rt, ring, &mut leader, insert(rt, ring, "t", 5));
    leader
}

/// What is said when the same key is written again.
fn told_again(rt: &(impl AllocGlobal + Abort), ring: &Ring, table: &str) -> List<Say> {
    let mut leader = writing(rt, ring);
    told(took(rt, ring, &mut leader, insert(rt, ring, table, 5)))
}

/// Key 5 of `t` is locked by the prepared transaction.
fn locked(rt: &(impl AllocGlobal + Abort)) -> Cause {
    Cause::Locked {
        table: text(rt, "t"),
        key: Value::Int(5),
        holder: Opid {
            term: 1,
            position: 2,
        },
    }
}

#[test]
fn locked_by_a_prepared_transaction(rt: HostRuntime) {
    let told = told_again(&rt, &three(&rt), "t");
    same(&rt, told, said(&rt, What::Refused(locked(&rt))));
}

#[test]
fn invalid_before_locked(rt: HostRuntime) {
    let told = told_again(&rt, &three(&rt), "none");
    let cause = Cause::Invalid(RowRefusal::NoTable);
    same(&rt, told, said(&rt, What::Refused(cause)));
}

/// A follower refuses to end the binary log file.
fn told_rotate(rt: &(impl AllocGlobal + Abort), ring: &Ring) -> List<Say> {
    let mut unit = started(rt, ring, 1);
    let client = super::units::CLIENT;
    told(took(rt, ring, &mut unit, Input::Rotate { client }))
}

#[test]
fn a_follower_refuses_a_rotate(rt: HostRuntime) {
    let told = told_rotate(&rt, &lone(&rt));
    same(&rt, told, said(&rt, What::Refused(Cause::NotLeader)));
}
