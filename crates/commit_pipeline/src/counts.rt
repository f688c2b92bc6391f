ghost use Rattle.std.specs.Prelude.{◌≡◌, ℕ, ◌^◌, ◌<◌, ◌≤◌, ◌++◌, ◌∷◌, [], IfOk, IfSome, length};
ghost use Rattle.ring_types.specs.Logs as logs;
ghost use Rattle.ring_types.specs.Rings as rings;
ghost use Rattle.edge_traits.specs.Views.{Keeps};
ghost use Rattle.ring_model.specs.Quorums as quorums;
ghost use Rattle.ring_model.specs.Steps as spec;
ghost use Rattle.commit_pipeline.specs.Counts.{matched_below, count_of};
ghost use Rattle.commit_pipeline.specs.Faults.{CoreFails};

use crate::heres::Leader;
use crate::parts::holders;
use crate::reads::{last, term_at};
use edge_traits::LogView;
use flexi_quorum::commits;
use ring_model::{CoreFault, Peer};
use ring_types::{List, Memory, NodeId, Ring};
use std::alloc::Global;

/// Whether a commit quorum of the leader's region has matched the position, the leader included.
fn is_held(
    alloc: Global,
    ring: &Ring,
    me: NodeId,
    position: u64,
    peers: &[Peer],
) -> Result<bool, Memory>
    ensures { IfOk result (λ it. it ≡ quorums.commits ring.now (rings.region_of ring.now me) (me ∷ spec.holders position peers.now)) }
{
    let mut acks = List::new(alloc);
    acks.push(me)?;
    let acks = holders(acks, position, peers)?;
    Ok(commits(ring, ring.region_of(me), acks.as_slice()))
}

/// The greatest position below this one that some peer has matched, where it is above `best`.
fn matched_below(best: u64, position: u64, peers: &[Peer]) -> u64
    ensures { result ≡ matched_below best position peers.now }
{
    let mut found = best;
    for peer in peers {
        if found < peer.matched && peer.matched < position {
            found = peer.matched;
        }
    }
    found
}

/// The commit count of a leader. Between two positions that peers have matched, no position is held
/// by more of them than the upper one; and below an entry of an earlier term there is none of the
/// leader's. So it reads one term at most.
pub(crate) fn commit_count<V: LogView>(
    alloc: Global,
    view: &mut V,
    leader: &Leader<'_>,
) -> Result<u64, CoreFault>
    requires stands { V.stands view.old }
    requires inside { leader.now.commit ≤ (V.sees view.old).length }
    requires rises { IfSome (V.sees view.old).log (λ log. logs.IsLog log) }
    requires below { IfSome (V.sees view.old).log (λ log. (logs.last log).term ≤ leader.now.term) }
    ensures told { IfSome (V.sees view.old).log (λ log. IfOk result (λ it. it ≡ count_of leader.now.engine.ring.now leader.now.engine.me leader.now.term log leader.now.commit leader.now.peers.now)) }
    ensures within { IfOk result (λ it. (leader.now.commit ≤ it) × (it ≤ (V.sees view.old).length)) }
    ensures keeps { Keeps V.sees V.behind V.stands V.faults view.old view.new }
    ensures failed { CoreFails (V.faults view.old) (V.faults view.new) result }
{
    let end = last(view)?;
    let term = leader.term;
    let commit = leader.commit;
    let peers = leader.peers;
    let engine = &leader.engine;
    let mut position = end.position;
    while commit < position {
        let Ok(held) = is_held(alloc, engine.ring, engine.me, position, peers) else {
            return Err(CoreFault::Memory);
        };
        if held {
            let found = term_at(view, position)?;
            return Ok(if found == term { position } else { commit });
        }
        position = matched_below(commit, position, peers);
    }
    Ok(commit)
}
