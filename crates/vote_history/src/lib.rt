//! The votes that a node cast, in rising terms: Raft's `votedFor`, kept for several terms, as
//! FlexiRaft's voting history.
//!
//! A [`History`] keeps at most [`MOST_VOTES`](ring_types::MOST_VOTES) votes, 1,024 of them. Contracts
//! see it as the list of its votes. [`History::new`] reserves the room for all of them at once, so
//! that no vote wants memory later: a node that is short of memory still votes.
//!
//! A node casts one vote a term, and terms only rise. So [`History::grant`] puts a vote at the end,
//! and the votes of terms up to a floor stand first, where [`History::drop_to`] takes them away.
//! Before a grant the caller asks [`History::room`] whether the vote finds room once those votes are
//! dropped; without that, a full history answers [`Full`] and stays as it was.
//!
//! [`History::vote_in`] tells for whom the node voted in a term. [`History::between`] gives the votes
//! of terms strictly between two, which a voter reports to a candidate.
#![tactic(auto)]

mod by_term;
mod histories;

pub use histories::{Full, History};
