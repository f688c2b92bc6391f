//! Standing for election: alone, as one of three voters of a region, and on a ring of three regions.
ghost use Rattle.node_unit.specs.Units.{IsOf, IsFitShown};
ghost use Rattle.std.specs.Prelude.{◌<◌};

use super::fixtures::{lone, none, pair, same, spread, three};
use super::units::{asks, grants, leader_alone, started, took};
use node_unit::Unit;
use ring_model::{Body, Input, Message, Outcome, RequestVote};
use ring_types::{List, Opid, Ring};
use std::process::Abort;

fn request(from: u32, to: u32, term: u64) -> Message {
    let last = Opid {
        term: 0,
        position: 0,
    };
    Message {
        from,
        to,
        body: Body::RequestVote(RequestVote { term, last }),
    }
}

fn sent(outcome: Outcome) -> List<Message> {
    outcome.messages
}

/// What a node that never ran sends when it is told to stand.
fn sent_first(rt: &(impl AllocGlobal + Abort), ring: &Ring, me: u32) -> List<Message> {
    let mut unit = started(rt, ring, me);
    sent(took(rt, ring, &mut unit, Input::Elect))
}

/// How many entries the log of such a node has then.
fn length_first(rt: &(impl AllocGlobal + Abort), ring: &Ring, me: u32) -> usize {
    let mut unit = started(rt, ring, me);
    let _ = took(rt, ring, &mut unit, Input::Elect);
    unit.log().len()
}

#[test]
fn a_lone_voter_leads_at_once(rt: HostRuntime) {
    same(&rt, length_first(&rt, &lone(&rt), 1), 1);
    same(&rt, sent_first(&rt, &lone(&rt), 1), none(&rt));
}

#[test]
fn a_candidate_of_three_asks_the_others(rt: HostRuntime) {
    let wanted = pair(&rt, request(2, 1, 1), request(2, 3, 1));
    same(&rt, sent_first(&rt, &three(&rt), 2), wanted);
    same(&rt, length_first(&rt, &three(&rt), 2), 0);
}

#[test]
fn a_region_of_one_voter_elects_it(rt: HostRuntime) {
    same(&rt, length_first(&rt, &spread(&rt), 1), 1);
}

#[test]
fn a_learner_does_not_stand(rt: HostRuntime) {
    same(&rt, sent_first(&rt, &spread(&rt), 4), none(&rt));
    same(&rt, length_first(&rt, &spread(&rt), 4), 0);
}

/// How many entries the log of node 1 of three has once this voter granted it its vote.
fn length_granted(rt: &(impl AllocGlobal + Abort), ring: &Ring, from: u32) -> usize {
    let mut unit = leader_alone(rt, ring);
    let reply = grants(rt, ring, from, 1);
    let _ = took(rt, ring, &mut unit, reply);
    unit.log().len()
}

#[test]
fn two_voters_of_three_win(rt: HostRuntime) {
    same(&rt, length_granted(&rt, &three(&rt), 3), 1);
    same(&rt, length_granted(&rt, &three(&rt), 2), 1);
    same(&rt, length_granted(&rt, &three(&rt), 1), 0);
}

/// What node 1 sends that voted for another region's node, and is told to stand.
fn sent_after_a_vote(rt: &(impl AllocGlobal + Abort), ring: &Ring) -> List<Message> {
    let mut unit = started(rt, ring, 1);
    let _ = took(rt, ring, &mut unit, asks(ring, 2, 2));
    sent(took(rt, ring, &mut unit, Input::Elect))
}

#[test]
fn its_vote_for_another_region_makes_it_ask(rt: HostRuntime) {
    let wanted = pair(&rt, request(1, 2, 3), request(1, 3, 3));
    same(&rt, sent_after_a_vote(&rt, &spread(&rt)), wanted);
}

// ---- a full history

/// Has the unit vote in each of the terms from 1 on.
fn vote_often(rt: &(impl AllocGlobal + Abort), ring: &Ring, unit: &mut Unit, terms: u64)
    requires of { IsOf ring.now unit.old }
    requires fit { IsFitShown ring.now unit.old.shown }
    requires few { terms < 2000 }
    ensures of { IsOf ring.now unit.new }
    ensures fit { IsFitShown ring.now unit.new.shown }
{
    for term in 0..terms {
        let _ = took(rt, ring, unit, asks(ring, 2, term + 1));
    }
}

/// What node 1 of three sends that voted in so many terms and is told to stand.
fn sent_after(rt: &(impl AllocGlobal + Abort), ring: &Ring, terms: u64) -> List<Message>
    requires { terms < 2000 }
{
    let mut unit = started(rt, ring, 1);
    vote_often(rt, ring, &mut unit, terms);
    sent(took(rt, ring, &mut unit, Input::Elect))
}

#[test]
fn a_full_history_stops_an_election(rt: HostRuntime) {
    let ring = three(&rt);
    let wanted = pair(&rt, request(1, 2, 1024), request(1, 3, 1024));
    same(&rt, sent_after(&rt, &ring, 1023), wanted);
    same(&rt, sent_after(&rt, &ring, 1024), none(&rt));
}
