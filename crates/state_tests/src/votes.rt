ghost use Rattle.std.specs.Prelude.{◌≡◌, ◌<◌, ◌≤◌, ◌+◌, ◌^◌, [], OnOk};
ghost use Rattle.std.specs.List.{All};
ghost use Rattle.ring_types.specs.declared.entries.Vote.{Vote};

use ring_types::{NodeId, RegionId, Vote};
use std::test::Fail;
use vote_history::{Full, History};

/// The vote of a term, for the candidate of the term's number.
fn vote(term: u32) -> Vote
    ensures { result.term ≡ term }
{
    Vote {
        term: term as u64,
        candidate: NodeId(term),
        region: RegionId(1),
    }
}

/// Votes in a term above those of all votes.
fn vote_in(history: &mut History, term: u32) -> Result<(), Full>
    requires { All (λ (v : Vote). v.term < term) history.old }
    ensures { All (λ (v : Vote). v.term ≤ term) history.new }
{
    history.grant(vote(term))
}

/// Votes in each term from 1 up to this one.
fn vote_up_to(history: &mut History, last: u32) -> Result<(), Full>
    requires none { history.old ≡ [] }
    requires fits { last + 1 < 2 ^ 32 }
    ensures { OnOk result (All (λ (v : Vote). v.term ≤ last) history.new) }
{
    for term in 1..last + 1 {
        vote_in(history, term)?;
    }
    Ok(())
}

fn drop_first(history: &mut History, last: u32)
    requires { All (λ (v : Vote). v.term ≤ last) history.old }
    ensures { All (λ (v : Vote). v.term ≤ last) history.new }
{
    history.drop_to(1);
}

#[test]
fn a_full_history_takes_a_vote_once_one_is_dropped(rt: HostRuntime) -> Result<(), Fail> {
    let mut history = History::new(rt.alloc())?;
    vote_up_to(&mut history, 1024)?;
    assert_eq!(rt; vote_in(&mut history, 1025), Err(Full));
    assert!(rt; !history.room(0));
    assert!(rt; history.room(1));
    drop_first(&mut history, 1025);
    assert_eq!(rt; vote_in(&mut history, 1026), Ok(()));
    assert_eq!(rt; history.vote_in(1), None);
    assert_eq!(rt; history.vote_in(2), Some(NodeId(2)));
    assert_eq!(rt; history.vote_in(1024), Some(NodeId(1024)));
    assert_eq!(rt; history.vote_in(1025), None);
    assert_eq!(rt; history.vote_in(1026), Some(NodeId(1026)));
    assert_eq!(rt; vote_in(&mut history, 1027), Err(Full));
    Ok(())
}

#[test]
fn votes_between_two_terms_are_of_neither(rt: HostRuntime) -> Result<(), Fail> {
    let mut history = History::new(rt.alloc())?;
    vote_up_to(&mut history, 5)?;
    let between = history.between(rt.alloc(), 2, 5)?;
    assert_eq!(rt; between.as_slice(), [vote(3), vote(4)].as_slice());
    let none = history.between(rt.alloc(), 3, 4)?;
    assert!(rt; none.is_empty());
    Ok(())
}

#[test]
fn a_term_without_a_vote_has_no_candidate(rt: HostRuntime) -> Result<(), Fail> {
    let mut history = History::new(rt.alloc())?;
    assert_eq!(rt; history.vote_in(3), None);
    assert_eq!(rt; history.grant(vote(3)), Ok(()));
    assert_eq!(rt; history.vote_in(2), None);
    assert_eq!(rt; history.vote_in(3), Some(NodeId(3)));
    Ok(())
}
