//! What a ring says of a number: whose it is, and what that member does.
ghost use Rattle.std.specs.Prelude.{◌≡◌};
ghost use Rattle.std.specs.Option.{option_copied};
ghost use Rattle.ring_types.specs.Rings as spec;

use crate::entries::{NodeId, RegionId};
use crate::members::Member;
use crate::rings::Ring;

impl Ring {
    /// The member of this number.
    pub fn member(&self, id: NodeId) -> Option<&Member>
        ensures { option_copied result ≡ spec.member_of self.now id }
    {
        self.members()
            .as_slice()
            .iter()
            .find(|member| member.id == id)
    }

    /// Whether the number is a member's.
    pub fn is_member(&self, id: NodeId) -> bool
        ensures { result ≡ spec.is_member self.now id }
    {
        self.members()
            .as_slice()
            .iter()
            .any(|member| member.id == id)
    }

    /// Whether the number is that of a member that votes.
    pub fn voter(&self, id: NodeId) -> bool
        ensures { result ≡ spec.votes self.now id }
    {
        self.members()
            .as_slice()
            .iter()
            .any(|member| member.id == id && member.kind.is_voter())
    }

    /// Whether the number is that of a member with an engine.
    pub fn runs_engine(&self, id: NodeId) -> bool
        ensures { result ≡ spec.runs_engine self.now id }
    {
        self.members()
            .as_slice()
            .iter()
            .any(|member| member.id == id && member.kind.has_engine())
    }

    /// The region of a member; the home region for a number that is no member's.
    pub fn region_of(&self, id: NodeId) -> RegionId
        ensures { result ≡ spec.region_of self.now id }
    {
        match self.member(id) {
            Some(member) => member.region,
            None => self.home(),
        }
    }

    /// The uuid of a member as a number; 0 for a number that is no member's.
    pub fn server_of(&self, id: NodeId) -> u128
        ensures { result ≡ spec.server_of self.now id }
    {
        match self.member(id) {
            Some(member) => member.server,
            None => 0,
        }
    }

    /// Whether a client is declared with this number.
    pub fn is_client(&self, id: u32) -> bool
        ensures { result ≡ spec.is_client self.now id }
    {
        self.clients()
            .as_slice()
            .iter()
            .any(|client| client.id == id)
    }
}
