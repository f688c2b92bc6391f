ghost use Rattle.std.specs.Prelude.{◌≡◌, IfOk};
ghost use Rattle.ring_types.specs.Rings.{has_engine, is_voter};

use crate::duplication::{Duplicate, Memory};
use crate::entries::{NodeId, RegionId};
use crate::lists::List;
use crate::schemas::Schema;
use crate::texts::Text;
use std::alloc::Global;

/// What a member does (MyRaft): a full node votes and has an engine, a logtailer votes and has none,
/// a learner has an engine and does not vote.
#[derive(Clone, Copy, Debug, PartialEq, Eq)]
pub enum Kind {
    Full,
    Tailer,
    Learner,
}

impl Kind {
    /// Whether a member of this kind votes.
    pub fn is_voter(self) -> bool
        ensures { result ≡ is_voter self }
    {
        match self {
            Kind::Full => true,
            Kind::Tailer => true,
            Kind::Learner => false,
        }
    }

    /// Whether a member of this kind has an engine.
    pub fn has_engine(self) -> bool
        ensures { result ≡ has_engine self }
    {
        match self {
            Kind::Full => true,
            Kind::Tailer => false,
            Kind::Learner => true,
        }
    }
}

/// A member of a built ring. `server` is its uuid as a number, big end first.
#[derive(Debug, PartialEq, Eq, Drop)]
pub struct Member {
    pub id: NodeId,
    pub region: RegionId,
    pub kind: Kind,
    pub server: u128,
    pub address: Option<Text>,
}

/// Where a client or a member is reached.
#[derive(Debug, PartialEq, Eq, Drop)]
pub struct Address {
    pub id: u32,
    pub at: Text,
}

/// A member as it is declared, with its region by name.
#[derive(Debug, PartialEq, Eq, Drop)]
pub struct MemberPart {
    pub id: u32,
    pub region: Text,
    pub kind: Kind,
    pub server: u128,
    pub address: Option<Text>,
}

/// A ring as it is declared.
#[derive(Debug, PartialEq, Eq, Drop)]
pub struct RingParts {
    pub home: Text,
    pub regions: List<Text>,
    pub members: List<MemberPart>,
    pub clients: List<Address>,
    pub schema: Schema,
}

pub(crate) fn copy_address(alloc: Global, address: &Option<Text>) -> Result<Option<Text>, Memory>
    ensures { IfOk result (λ it. it ≡ address.now) }
{
    match address {
        None => Ok(None),
        Some(at) => Ok(Some(at.copy(alloc)?)),
    }
}

impl Duplicate for Member {
    fn copy(&self, alloc: Global) -> Result<Member, Memory> {
        Ok(Member {
            id: self.id,
            region: self.region,
            kind: self.kind,
            server: self.server,
            address: copy_address(alloc, &self.address)?,
        })
    }
}

impl Duplicate for Address {
    fn copy(&self, alloc: Global) -> Result<Address, Memory> {
        Ok(Address {
            id: self.id,
            at: self.at.copy(alloc)?,
        })
    }
}

impl Duplicate for MemberPart {
    fn copy(&self, alloc: Global) -> Result<MemberPart, Memory> {
        Ok(MemberPart {
            id: self.id,
            region: self.region.copy(alloc)?,
            kind: self.kind,
            server: self.server,
            address: copy_address(alloc, &self.address)?,
        })
    }
}

impl Duplicate for RingParts {
    fn copy(&self, alloc: Global) -> Result<RingParts, Memory> {
        Ok(RingParts {
            home: self.home.copy(alloc)?,
            regions: self.regions.copy(alloc)?,
            members: self.members.copy(alloc)?,
            clients: self.clients.copy(alloc)?,
            schema: self.schema.copy(alloc)?,
        })
    }
}
