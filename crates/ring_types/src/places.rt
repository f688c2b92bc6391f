//! The members of a ring from their declared parts: a region by name becomes its place.
ghost use Rattle.std.specs.Prelude.{◌≡◌, ◌+◌, ◌<◌, ◌≤◌, IfOk, IfSome, bytes_eq, map, length, position};
ghost use Rattle.std.specs.Option.{option_map_or};
ghost use Rattle.ring_types.specs.Rings.{member_from, place_of};

use crate::duplication::Memory;
use crate::entries::{NodeId, RegionId};
use crate::limits::MOST_REGIONS;
use crate::lists::List;
use crate::members::{Member, MemberPart, copy_address};
use crate::texts::Text;
use std::alloc::Global;

fn place_at(index: Option<usize>) -> RegionId
    requires { IfSome index (λ k. k < MOST_REGIONS) }
    ensures { result ≡ option_map_or (λ k. k + 1) index 0 }
{
    match index {
        None => RegionId(0),
        Some(at) => RegionId(at as u16 + 1),
    }
}

fn index_of(regions: &List<Text>, name: &Text) -> Option<usize>
    ensures value { result ≡ position (λ r. bytes_eq r name.now) regions.now }
    ensures within { IfSome result (λ k. k < length regions.now) }
{
    regions.as_slice().iter().position(|region| region == name)
}

/// The place of a region among the declared ones, counted from 1; 0 if it is not declared.
pub(crate) fn place_of(regions: &List<Text>, name: &Text) -> RegionId
    requires { length regions.now ≤ MOST_REGIONS }
    ensures { result ≡ place_of regions.now name.now }
{
    place_at(index_of(regions, name))
}

fn member_from(alloc: Global, regions: &List<Text>, part: &MemberPart) -> Result<Member, Memory>
    requires { length regions.now ≤ MOST_REGIONS }
    ensures { IfOk result (λ it. it ≡ member_from regions.now part.now) }
{
    Ok(Member {
        id: NodeId(part.id),
        region: place_of(regions, &part.region),
        kind: part.kind,
        server: part.server,
        address: copy_address(alloc, &part.address)?,
    })
}

/// The members that the parts declare, in their order.
pub(crate) fn members_from(
    alloc: Global,
    regions: &List<Text>,
    parts: &List<MemberPart>,
) -> Result<List<Member>, Memory>
    requires { length regions.now ≤ MOST_REGIONS }
    ensures { IfOk result (λ it. it ≡ map (member_from regions.now) parts.now) }
{
    let mut members = List::new(alloc);
    for part in parts.as_slice() {
        members.push(member_from(alloc, regions, part)?)?;
    }
    Ok(members)
}
