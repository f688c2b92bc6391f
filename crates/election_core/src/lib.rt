//! Elections (Raft, with FlexiRaft's voting history): standing for one, a voter's reply, and what a
//! candidate makes of it.
//!
//! A node that stands takes the next term, votes for itself and asks every other voter ([`start`]).
//! A voter grants its vote once a term, to a candidate whose log is no shorter than its own, and
//! reports with it the votes that it gave in the terms between the candidate's last entry and the
//! request ([`on_request`]). The candidate leads as soon as the grants cover every region that they
//! and its log make needed, and adds its NoOp ([`on_reply`]).
//!
//! A caller hands in the node as [`Here`](commit_pipeline::Here), with its log as a view, and lends
//! the volatile part. Each public function is the definition of its name in the model's `Elections`
//! (`start` is its `elect`): it gives the plan and sets the volatile part, which a fault leaves as it
//! was. Of the log it reads the last opid, the term at the commit position, and the region of the
//! last entry; a winner's NoOp goes through the pipeline.
#![tactic(auto)]

mod leading;
mod replies;
mod requests;
mod standing;
mod voting;

pub use replies::on_reply;
pub use requests::on_request;
pub use standing::start;
