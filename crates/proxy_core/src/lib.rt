//! A region's proxy (MyRaft's proxied replication): a leader sends the opids of its entries once to
//! another region, and the proxy there sends each member the entries from its own log.
//!
//! The proxy sends in the leader's name, so the member replies to the leader itself. It sends the
//! longest prefix of the opids that its log holds, which may be none, and changes nothing of its own.
//! It reads an entry for each that it sends, and at most one more.
//!
//! [`relay`] answers the message of the definition of its name in the model's `Replication`, and
//! [`law_relay`] says that what is sent is what the leader would have sent, or a front of it.
#![tactic(auto)]

mod laws;
mod relays;

pub use laws::law_relay;
pub use relays::relay;
