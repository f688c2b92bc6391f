//! The history of a node's votes.
ghost use Rattle.std.specs.Prelude.{◌≡◌, ◌<◌, ◌↔◌, ◌++◌, ◌∷◌, [], IfOk, OnOk, OnErr, IsErr, length};
ghost use Rattle.std.specs.Option.{option_map};
ghost use Rattle.std.specs.List.{All};
ghost use Rattle.ring_types.specs.declared.entries.Vote.{Vote};
ghost use Rattle.ring_types.specs.declared.limits.TheConstants.{MOST_VOTES};
ghost use Rattle.ring_model.specs.Actions as acts;
ghost use Rattle.ring_model.specs.Needs as needs;

use crate::by_term::{count_above, vote_in, votes_between};
use ring_types::{List, MOST_VOTES, Memory, NodeId, Vote};
use std::alloc::Global;
use std::marker::Model;
use thiserror::Error;

/// The history has [`MOST_VOTES`] votes already.
#[derive(Clone, Copy, Debug, PartialEq, Eq, Error)]
#[error("the history of votes is full")]
pub struct Full;

/// The votes that a node cast, in rising terms. Contracts see the list of them.
#[derive(Drop)]
pub struct History {
    votes: Vec<Vote>,
}

impl Model for History {
    ghost use Rattle.std.specs.Prelude.{◌≤◌, List, vec_len, vec_capacity};
    ghost use Rattle.ring_types.specs.declared.entries.Vote.{Vote};
    ghost use Rattle.ring_types.specs.declared.limits.TheConstants.{MOST_VOTES};

    ghost Value = { List Vote };

    ghost use Rattle.vote_history.specs.Rising.{AreRising};

    ghost view = { λ h. h.votes.items };

    ghost invariant = { λ h. (MOST_VOTES ≤ vec_capacity h.votes) × (vec_len h.votes ≤ MOST_VOTES) × AreRising h.votes.items };
}

impl History {
    /// The history of a node that never voted. This is the one call that takes memory for votes.
    pub fn new(alloc: Global) -> Result<History, Memory>
        ensures { IfOk result (λ it. it ≡ []) }
    {
        Ok(History {
            votes: Vec::with_capacity(alloc, MOST_VOTES)?,
        })
    }

    /// The kept votes, in rising terms, lent.
    pub fn votes(&self) -> &[Vote]
        ensures { result.now ≡ self.now }
    {
        self.votes.as_slice()
    }

    /// The candidate for whom the vote of that term was cast.
    pub fn vote_in(&self, term: u64) -> Option<NodeId>
        ensures { result ≡ option_map (λ (v : Vote). v.candidate) (acts.vote_in self.now term) }
    {
        match vote_in(self.votes.as_slice(), term) {
            Some(vote) => Some(vote.candidate),
            None => None,
        }
    }

    /// Whether one more vote has room once those of terms up to the floor are dropped.
    pub fn room(&self, floor: u64) -> bool
        ensures { result ≡ acts.has_room floor self.now }
    {
        count_above(floor, self.votes.as_slice()) < MOST_VOTES
    }

    /// Drops the votes of terms up to the floor. The rest moves to the front, and the room stays.
    pub fn drop_to(&mut self, floor: u64)
        ensures { self.new ≡ acts.votes_above floor self.old }
    {
        let kept = count_above(floor, self.votes.as_slice());
        let gone = self.votes.len().saturating_sub(kept);
        self.votes.rotate_left(gone);
        self.votes.truncate(kept);
    }

    /// Adds a vote of a term above those of all kept ones. It wants no memory.
    pub fn grant(&mut self, vote: Vote) -> Result<(), Full>
        requires { All (λ (v : Vote). v.term < vote.term) self.old }
        ensures ok { OnOk result (self.new ≡ self.old ++ vote ∷ []) }
        ensures err { OnErr result (self.new ≡ self.old) }
        ensures full { IsErr result ↔ (length self.old ≡ MOST_VOTES) }
    {
        if self.votes.len() == MOST_VOTES {
            return Err(Full);
        }
        match self.votes.push(vote) {
            Ok(()) => Ok(()),
            Err(_) => Err(Full),
        }
    }

    /// The kept votes of terms strictly between the two.
    pub fn between(&self, alloc: Global, low: u64, high: u64) -> Result<List<Vote>, Memory>
        ensures { IfOk result (λ it. it ≡ needs.votes_between low high self.now) }
    {
        votes_between(alloc, low, high, self.votes.as_slice())
    }
}
