//! Handing leadership over (Raft's leadership transfer, with MyRaft's mock elections): the client's
//! commands, the mock election at the target, and the word to elect itself.
//!
//! A client asks the leader to hand over to a voter ([`ask`]) and may end that again ([`cancel`]).
//! The leader first has the target hold a mock election ([`on_mock_start`]): the target asks every
//! voter whether its log is near enough to the leader's ([`on_mock_request`]), counts the replies,
//! and tells the leader how it ended ([`on_mock_reply`]). If it passed, the leader takes no more
//! writes ([`on_mock_result`]), and tells the target to elect itself once it has the whole log.
//!
//! Two rules are shared with other crates, and the dispatcher composes them: a reply to entries is
//! replication's `on_ack`, then [`after_ack`]; `TimeoutNow` is the test [`on_timeout_now`], then the
//! election's `elect`. What they are together is proved in this crate's `Halves`; each other public
//! function is the definition of its name in the model's `Transfers`, and [`ask`] is `ask_transfer`.
//!
//! Of the log no rule reads more than the last opid, and only a rule that does something reads that.
#![tactic(auto)]

mod handing;
mod mocks;
mod plans;
mod polls;
mod requests;

pub use handing::{after_ack, on_mock_result, on_timeout_now};
pub use mocks::{on_mock_reply, on_mock_request, on_mock_start};
pub use requests::{ask, cancel};
