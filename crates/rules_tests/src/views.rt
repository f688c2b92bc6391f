//! Plans over a view of the log that fails at one of its calls: the answer is `Disk`, and the node is
//! as it was. Once no call fails the plan is that of a node whose log lies in memory.
ghost use Rattle.std.specs.Prelude.{◌≡◌, false, OnErr};
ghost use Rattle.node_unit.specs.Plans.{is_answer_input};
ghost use Rattle.node_unit.specs.Units.{IsOf, IsFitShown};
ghost use Rattle.ring_lawful.specs.EachStep.{IsGood};

use super::fixtures::{lone, one, same, three};
use super::units::{
    CLIENT, asks, grants, holds, insert, leader_alone, leader_of_three, relays, sends, started,
    took,
};
use edge_traits::FailingView;
use node_unit::Unit;
use ring_model::{CoreFault, Input, Plan};
use ring_types::{Entry, List, Ring};
use std::process::Abort;

/// The plan of an input, made over a view of the unit's log whose call of this number fails.
fn planned(
    rt: &(impl AllocGlobal + Abort),
    ring: &Ring,
    unit: &mut Unit,
    log: &List<Entry>,
    input: &Input,
    failing: u64,
) -> Result<Option<Plan>, CoreFault>
    requires of { IsOf ring.now unit.old }
    requires fit { IsFitShown ring.now unit.old.shown }
    requires good { IsGood ring.now input.now }
    requires log { log.now ≡ unit.old.shown.durable.log }
    ensures stays { is_answer_input input.now ≡ false → OnErr result (unit.new ≡ unit.old) }
{
    let failing = one(rt, failing);
    let mut view = FailingView::new(
        rt.alloc(),
        log.as_slice(),
        ring.home(),
        ring.schema(),
        failing,
    );
    unit.plan(rt.alloc(), ring, &mut view, input)
}

/// A copy of the unit's log.
fn log_of(rt: &(impl AllocGlobal + Abort), unit: &Unit) -> List<Entry>
    ensures { result ≡ unit.now.shown.durable.log }
{
    let mut log = List::new(rt.alloc());
    log.extend_copies(rt.alloc(), unit.log())
        .expect(rt, "memory");
    log
}

/// The plan once no call fails. Before it each call of the view fails in turn, at least one.
fn plan_at_last(
    rt: &(impl AllocGlobal + Abort),
    ring: &Ring,
    unit: Unit,
    input: &Input,
) -> Option<Plan>
    requires of { IsOf ring.now unit }
    requires fit { IsFitShown ring.now unit.shown }
    requires good { IsGood ring.now input.now }
    requires other { is_answer_input input.now ≡ false }
{
    let mut unit = unit;
    for failed in 0..50 {
        let log = log_of(rt, &unit);
        match planned(rt, ring, &mut unit, &log, input, failed + 1) {
            Ok(plan) => {
                assert!(rt; failed > 0);
                return plan;
            }
            Err(fault) => same(rt, fault, CoreFault::Disk),
        }
    }
    None
}

/// Expects of a node that its plan, after each call of its view failed in turn, is what its twin does,
/// whose log lies in memory.
fn withstands(rt: &(impl AllocGlobal + Abort), ring: &Ring, unit: Unit, twin: Unit, input: Input)
    requires of { IsOf ring.now unit }
    requires fit { IsFitShown ring.now unit.shown }
    requires twin_of { IsOf ring.now twin }
    requires twin_fit { IsFitShown ring.now twin.shown }
    requires good { IsGood ring.now input }
    requires other { is_answer_input input ≡ false }
{
    let plan = plan_at_last(rt, ring, unit, &input).expect(rt, "a plan");
    let mut twin = twin;
    let outcome = took(rt, ring, &mut twin, input);
    same(rt, plan.messages, outcome.messages);
    same(rt, plan.says, outcome.says);
}

#[test]
fn an_election_withstands_a_view_that_fails(rt: HostRuntime) {
    let ring = three(&rt);
    let (unit, twin) = (started(&rt, &ring, 1), started(&rt, &ring, 1));
    withstands(&rt, &ring, unit, twin, Input::Elect);
}

#[test]
fn a_vote_withstands_a_view_that_fails(rt: HostRuntime) {
    let ring = three(&rt);
    let (unit, twin) = (started(&rt, &ring, 1), started(&rt, &ring, 1));
    withstands(&rt, &ring, unit, twin, asks(&ring, 2, 1));
}

#[test]
fn a_victory_withstands_a_view_that_fails(rt: HostRuntime) {
    let ring = three(&rt);
    let (unit, twin) = (leader_alone(&rt, &ring), leader_alone(&rt, &ring));
    withstands(&rt, &ring, unit, twin, grants(&rt, &ring, 3, 1));
}

#[test]
fn a_write_withstands_a_view_that_fails(rt: HostRuntime) {
    let ring = lone(&rt);
    let (unit, twin) = (leader_alone(&rt, &ring), leader_alone(&rt, &ring));
    withstands(&rt, &ring, unit, twin, insert(&rt, &ring, "t", 5));
}

#[test]
fn a_refusal_withstands_a_view_that_fails(rt: HostRuntime) {
    let ring = lone(&rt);
    let (unit, twin) = (leader_alone(&rt, &ring), leader_alone(&rt, &ring));
    withstands(&rt, &ring, unit, twin, insert(&rt, &ring, "none", 5));
}

#[test]
fn a_beat_withstands_a_view_that_fails(rt: HostRuntime) {
    let ring = three(&rt);
    let (unit, twin) = (leader_of_three(&rt, &ring), leader_of_three(&rt, &ring));
    withstands(&rt, &ring, unit, twin, Input::Beat);
}

/// Node 1 of three, which node 2 led in term 1 and gave its NoOp.
fn follower(rt: &(impl AllocGlobal + Abort), ring: &Ring) -> Unit
    ensures of { IsOf ring.now result }
    ensures fit { IsFitShown ring.now result.shown }
{
    let mut unit = started(rt, ring, 1);
    let _ = took(rt, ring, &mut unit, sends(rt, ring, 2, 1));
    unit
}

#[test]
fn a_truncation_withstands_a_view_that_fails(rt: HostRuntime) {
    let ring = three(&rt);
    let (unit, twin) = (follower(&rt, &ring), follower(&rt, &ring));
    withstands(&rt, &ring, unit, twin, sends(&rt, &ring, 3, 2));
}

#[test]
fn a_proxy_withstands_a_view_that_fails(rt: HostRuntime) {
    let ring = three(&rt);
    let (unit, twin) = (follower(&rt, &ring), follower(&rt, &ring));
    withstands(&rt, &ring, unit, twin, relays(&rt, &ring, 2, 3));
}

/// Node 1 of three that leads, with its NoOp committed.
fn ready(rt: &(impl AllocGlobal + Abort), ring: &Ring) -> Unit
    ensures of { IsOf ring.now result }
    ensures fit { IsFitShown ring.now result.shown }
{
    let mut leader = leader_of_three(rt, ring);
    let _ = took(rt, ring, &mut leader, holds(ring, 3, 1, 1));
    leader
}

fn transfer(ring: &Ring) -> Input
    ensures good { IsGood ring.now result }
    ensures other { is_answer_input result ≡ false }
{
    Input::Transfer {
        client: CLIENT,
        target: 3,
    }
}

#[test]
fn a_transfer_withstands_a_view_that_fails(rt: HostRuntime) {
    let ring = three(&rt);
    let (unit, twin) = (ready(&rt, &ring), ready(&rt, &ring));
    withstands(&rt, &ring, unit, twin, transfer(&ring));
}

/// Why there is no plan of node 3's answer that it holds the NoOp, if the first call of the view fails.
fn fault_of_answer(rt: &(impl AllocGlobal + Abort), ring: &Ring) -> Option<CoreFault> {
    let mut unit = leader_of_three(rt, ring);
    let log = log_of(rt, &unit);
    let input = holds(ring, 3, 1, 1);
    match planned(rt, ring, &mut unit, &log, &input, 1) {
        Ok(_) => None,
        Err(fault) => Some(fault),
    }
}

#[test]
fn an_answer_over_a_view_that_fails(rt: HostRuntime) {
    same(
        &rt,
        fault_of_answer(&rt, &three(&rt)),
        Some(CoreFault::Disk),
    );
}
