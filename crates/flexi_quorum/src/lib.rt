//! FlexiRaft's quorums: which acknowledgements commit, which votes cover a region, and which regions
//! a candidate has to cover.
//!
//! A leader commits with a majority of the voters of its own region ([`commits`]); a candidate wins
//! if its votes have a majority in each region that it needs ([`covers`]). These two rules, and the
//! regions in which they are sure to meet ([`zone`]), stand alone in `quorums.rt`, since everything
//! depends on them. The needed regions are the candidate's own, that of its last entry, and those of
//! the votes that its voters report of the terms between, followed until nothing new is heard
//! ([`need`]); [`wins`] asks for a cover of each.
//!
//! A caller gives the ring and plain lists: numbers of members that acknowledged or voted, and a
//! [`Grant`](ring_types::Grant) for each voter with the votes that it reports. Each public function
//! is the definition of its name in the model's `Quorums` or `Needs`.
#![tactic(auto)]

mod needs;
mod quorums;

pub use needs::{need, votes_between, wins};
pub use quorums::{commits, covers, is_listed, zone};
