//! A vote, and what a voter reports with it.
ghost use Rattle.std.specs.Prelude.{◌≡◌, IfOk};
ghost use Rattle.ring_model.specs.Actions as acts;
ghost use Rattle.ring_model.specs.Elections as spec;
ghost use Rattle.ring_model.specs.Needs as needs;

use ring_types::{List, Memory, NodeId, Ring, Vote};
use std::alloc::Global;
use vote_history::History;

/// A vote for the candidate in the term.
pub(crate) fn new_vote(ring: &Ring, term: u64, candidate: NodeId) -> Vote
    ensures { result ≡ spec.new_vote ring.now term candidate }
{
    Vote {
        term,
        candidate,
        region: ring.region_of(candidate),
    }
}

/// The votes of terms strictly between the two that are left once those up to the floor are dropped.
#[tactic(auto, using(crate::proofs::Between::between_above))]
pub(crate) fn votes_left(
    alloc: Global,
    history: &History,
    floor: u64,
    low: u64,
    high: u64,
) -> Result<List<Vote>, Memory>
    ensures { IfOk result (λ it. it ≡ needs.votes_between low high (acts.votes_above floor history.now)) }
{
    history.between(alloc, low.max(floor), high)
}
