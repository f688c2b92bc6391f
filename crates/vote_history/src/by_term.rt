//! Votes looked up by their terms.
ghost use Rattle.std.specs.Prelude.{◌≡◌, IfOk, length};
ghost use Rattle.std.specs.Option.{option_copied};
ghost use Rattle.ring_model.specs.Actions as acts;
ghost use Rattle.ring_model.specs.Needs as needs;

use ring_types::{List, Memory, Vote};
use std::alloc::Global;

/// The vote of a term.
pub(crate) fn vote_in(votes: &[Vote], term: u64) -> Option<&Vote>
    ensures { option_copied result ≡ acts.vote_in votes.now term }
{
    votes.iter().find(|vote| vote.term == term)
}

/// How many votes are of terms above the floor.
pub(crate) fn count_above(floor: u64, votes: &[Vote]) -> usize
    ensures { result ≡ length (acts.votes_above floor votes.now) }
{
    votes.iter().filter(|vote| floor < vote.term).count()
}

/// The votes of terms strictly between the two.
pub(crate) fn votes_between(
    alloc: Global,
    low: u64,
    high: u64,
    votes: &[Vote],
) -> Result<List<Vote>, Memory>
    ensures { IfOk result (λ it. it ≡ needs.votes_between low high votes.now) }
{
    let mut between = List::new(alloc);
    for vote in votes {
        if low < vote.term && vote.term < high {
            between.push(*vote)?;
        }
    }
    Ok(between)
}
