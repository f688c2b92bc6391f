//! The model of a ring's run: its types, its definitions (in `specs/`), and the laws over them.
//!
//! A node has a durable part and, while it runs, a soft part. An input makes a step: a plan of durable
//! actions, messages and sayings, and a new soft part. A world is all nodes with all messages ever
//! sent; a run is a list of events, each with how far it went. `docs/MODEL.md` tells the definitions
//! in the order in which they stand.
#![tactic(auto)]

mod effects;
mod faults;
mod laws;
mod messages;
mod nodes;
mod worlds;

pub use effects::{Action, Cause, Outcome, Plan, Say, Step, Tear, What};
pub use faults::CoreFault;
pub use laws::{
    law_batch, law_commit_meets_cover, law_cover, law_covers_meet, law_greatest, law_need, law_tear,
};
pub use messages::{
    Append, AppendReply, Body, Input, Message, MockReply, MockRequest, MockResult, MockStart,
    ProxyAppend, RequestVote, VoteReply,
};
pub use nodes::{Durable, Mock, Peer, Pending, Role, Soft, Transfer};
pub use worlds::{Event, Kept, Line, Said, Shown, World};
