ghost use Rattle.std.specs.Prelude.{◌≡◌, ◌++◌, IfOk};
ghost use Rattle.ring_model.specs.Actions as acts;
ghost use Rattle.ring_model.specs.Steps as spec;

use ring_model::{Peer, Pending, Say, What};
use ring_types::{List, Memory, NodeId, Opid, Pair, same_opid};
use std::alloc::Global;

/// Whether a transaction of this opid is prepared.
pub(crate) fn is_prepared(pairs: &[Pair], opid: Opid) -> bool
    ensures { result ≡ acts.is_prepared pairs.now opid }
{
    pairs.iter().any(|pair| same_opid(pair.opid, opid))
}

/// The members that have matched a position, in order, after those in `front`.
pub(crate) fn holders(
    front: List<NodeId>,
    position: u64,
    peers: &[Peer],
) -> Result<List<NodeId>, Memory>
    ensures { IfOk result (λ it. it ≡ front ++ spec.holders position peers.now) }
{
    let mut found = front;
    for peer in peers {
        if position <= peer.matched {
            found.push(peer.node)?;
        }
    }
    Ok(found)
}

/// What is said of each pending write up to the commit count, in order, after what is said already.
pub(crate) fn committeds(
    front: List<Say>,
    term: u64,
    commit: u64,
    pending: &[Pending],
) -> Result<List<Say>, Memory>
    ensures { IfOk result (λ it. it ≡ front ++ spec.committeds term commit pending.now) }
{
    let mut says = front;
    for write in pending {
        if write.opid.position <= commit {
            says.push(Say {
                client: write.client,
                what: What::Committed {
                    gtid: write.gtid,
                    opid: write.opid,
                    term,
                },
            })?;
        }
    }
    Ok(says)
}

/// The pending writes above the commit count, in order.
pub(crate) fn waiting(
    alloc: Global,
    commit: u64,
    pending: &[Pending],
) -> Result<List<Pending>, Memory>
    ensures { IfOk result (λ it. it ≡ spec.waiting commit pending.now) }
{
    let mut kept = List::new(alloc);
    for write in pending {
        if write.opid.position > commit {
            kept.push(*write)?;
        }
    }
    Ok(kept)
}
