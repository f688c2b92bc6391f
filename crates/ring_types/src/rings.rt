ghost use Rattle.std.specs.Prelude.{◌≡◌, ◌≤◌, IfOk, length, true};
ghost use Rattle.std.specs.Option.{option_copied, option_map};
ghost use Rattle.ring_types.specs.Rings.{IsRing, Answers, built, is_in_range, layout_of, proxy_of};

use crate::duplication::{Duplicate, Memory};
use crate::entries::{NodeId, RegionId};
use crate::lists::List;
use crate::members::{Address, Member, RingParts};
use crate::places::{members_from, place_of};
use crate::refusals::{bad_schema, no_region, no_voter, too_many, twice_named};
use crate::schemas::Schema;
use crate::texts::Text;
use std::alloc::Global;
use std::marker::Model;

/// Why a declared ring is refused. The causes are tested in this order.
#[derive(Clone, Copy, Debug, PartialEq, Eq, thiserror::Error)]
pub enum BuildError {
    #[error("too many nodes, regions, clients or tables")]
    TooMany,
    #[error("two nodes or two clients have one number, two regions one name, or two servers one uuid")]
    TwiceNamed,
    #[error("the home region, or the region of a node, is not declared")]
    NoRegion,
    #[error("a region has no node that votes")]
    NoVoter,
    #[error("two tables have one name, or a table has no column, too many, or two of one name")]
    BadSchema,
    #[error("out of memory")]
    Memory,
}

/// A built ring. Contracts see its layout: the home region, the regions' names, the members, the
/// clients and the schema.
#[derive(Debug, Drop)]
pub struct Ring {
    home: RegionId,
    regions: List<Text>,
    members: List<Member>,
    clients: List<Address>,
    schema: Schema,
}

impl Model for Ring {
    ghost use Rattle.ring_types.specs.Rings.{Layout, IsRing};

    ghost Value = { Layout };

    ghost view = { λ r. record { home = r.home; regions = r.regions; members = r.members; clients = r.clients; schema = r.schema } };

    ghost invariant = { λ r. IsRing (record { home = r.home; regions = r.regions; members = r.members; clients = r.clients; schema = r.schema }) };
}

impl Ring {
    /// The ring that the parts declare. A refusal is the first cause that holds.
    #[tactic(auto, using(crate::proofs::RingLaws::passed), unfolding(crate::specs::Rings::built))]
    pub fn build(alloc: Global, parts: RingParts) -> Result<Ring, BuildError>
        requires { is_in_range parts ≡ true }
        ensures { Answers (built parts) result }
    {
        if too_many(&parts) {
            return Err(BuildError::TooMany);
        }
        if twice_named(&parts) {
            return Err(BuildError::TwiceNamed);
        }
        if no_region(&parts) {
            return Err(BuildError::NoRegion);
        }
        if no_voter(&parts) {
            return Err(BuildError::NoVoter);
        }
        if bad_schema(&parts.schema) {
            return Err(BuildError::BadSchema);
        }
        match lay_out(alloc, parts) {
            Ok(ring) => Ok(ring),
            Err(_) => Err(BuildError::Memory),
        }
    }

    /// The members, in declared order.
    pub fn members(&self) -> &List<Member>
        ensures { result.now ≡ self.now.members }
    {
        &self.members
    }

    /// The names of the regions; a region's number is its place here, counted from 1.
    pub fn regions(&self) -> &List<Text>
        ensures { result.now ≡ self.now.regions }
    {
        &self.regions
    }

    pub fn home(&self) -> RegionId
        ensures { result ≡ self.now.home }
    {
        self.home
    }

    pub fn schema(&self) -> &Schema
        ensures { result.now ≡ self.now.schema }
    {
        &self.schema
    }

    pub fn clients(&self) -> &List<Address>
        ensures { result.now ≡ self.now.clients }
    {
        &self.clients
    }

    fn first_in(&self, region: RegionId) -> Option<&Member>
        ensures { option_copied result ≡ proxy_of self.now region }
    {
        self.members
            .as_slice()
            .iter()
            .find(|member| member.region == region)
    }

    /// The first member declared in a region, which passes on what is sent to the region.
    #[tactic(auto, using(crate::proofs::RingLaws::has_proxy))]
    pub fn proxy(&self, region: RegionId) -> NodeId
        requires from_one { 1 ≤ region }
        requires declared { region ≤ length self.now.regions }
        ensures { option_map (λ (m : Member). m.id) (proxy_of self.now region) ≡ Some result }
    {
        self.law_built();
        match self.first_in(region) {
            Some(member) => member.id,
            None => unreachable!(),
        }
    }

    /// Does nothing: its clause gives what every built ring is to a caller whose proof needs it.
    pub fn law_built(&self)
        ensures { IsRing self.now }
    {
        let _ = &self.home;
    }
}

/// The ring of parts that nothing refuses: regions by name become regions by place.
#[tactic(auto, unfolding(crate::specs::Rings::layout_of))]
fn lay_out(alloc: Global, parts: RingParts) -> Result<Ring, Memory>
    requires { IsRing (layout_of parts) }
    ensures { IfOk result (λ ring. ring ≡ layout_of parts) }
{
    let home = place_of(&parts.regions, &parts.home);
    let members = members_from(alloc, &parts.regions, &parts.members)?;
    let RingParts {
        regions,
        clients,
        schema,
        ..
    } = parts;
    Ok(Ring {
        home,
        regions,
        members,
        clients,
        schema,
    })
}

impl Duplicate for Ring {
    fn copy(&self, alloc: Global) -> Result<Ring, Memory> {
        Ok(Ring {
            home: self.home,
            regions: self.regions.copy(alloc)?,
            members: self.members.copy(alloc)?,
            clients: self.clients.copy(alloc)?,
            schema: self.schema.copy(alloc)?,
        })
    }
}
