ghost use Rattle.std.specs.Prelude.{◌≡◌, IfOk, length, count_by};
ghost use Rattle.ring_types.specs.Rings.{voters_of};
ghost use Rattle.ring_types.specs.declared.members.Member.{Member};
ghost use Rattle.ring_model.specs.Quorums as spec;

use ring_types::{List, Memory, NodeId, RegionId, Ring};
use std::alloc::Global;

/// Whether the number is in the list.
pub fn is_listed(ids: &[NodeId], id: NodeId) -> bool
    ensures { result ≡ spec.is_listed ids.now id }
{
    ids.iter().any(|other| *other == id)
}

fn count_voters(ring: &Ring, region: RegionId) -> usize
    ensures { result ≡ length (voters_of ring.now region) }
{
    ring.members()
        .as_slice()
        .iter()
        .filter(|member| member.region == region && member.kind.is_voter())
        .count()
}

fn count_listed(ring: &Ring, region: RegionId, ids: &[NodeId]) -> usize
    ensures { result ≡ count_by (λ (m : Member). spec.is_listed ids.now m.id) (voters_of ring.now region) }
{
    ring.members()
        .as_slice()
        .iter()
        .filter(|member| member.region == region && member.kind.is_voter())
        .filter(|member| is_listed(ids, member.id))
        .count()
}

/// Whether a leader of the region commits with these acknowledgements: they have a majority of the
/// region's voters.
pub fn commits(ring: &Ring, region: RegionId, acks: &[NodeId]) -> bool
    ensures { result ≡ spec.commits ring.now region acks.now }
{
    count_voters(ring, region) / 2 < count_listed(ring, region, acks)
}

/// Whether these votes cover the region: they have a majority of its voters.
pub fn covers(ring: &Ring, region: RegionId, votes: &[NodeId]) -> bool
    ensures { result ≡ spec.covers ring.now region votes.now }
{
    count_voters(ring, region) / 2 < count_listed(ring, region, votes)
}

/// The regions in which a commit of the region and a cover of it are sure to meet.
pub fn zone(alloc: Global, _ring: &Ring, region: RegionId) -> Result<List<RegionId>, Memory>
    ensures { IfOk result (λ it. it ≡ spec.zone _ring.now region) }
{
    List::of_one(alloc, region)
}
