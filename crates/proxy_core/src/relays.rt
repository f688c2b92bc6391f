ghost use Rattle.std.specs.Prelude.{◌≡◌, IfOk, IfSome};
ghost use Rattle.edge_traits.specs.DiskCalls.{DiskFails};
ghost use Rattle.edge_traits.specs.Views.{Keeps};
ghost use Rattle.ring_model.specs.Replication as spec;
ghost use Rattle.proxy_core.specs.Relays.{is_outside, relayed, RelayFails, core_fault};

use edge_traits::{DiskFault, LogView};
use ring_model::{Append, Body, CoreFault, Message, ProxyAppend};
use ring_types::{Entry, List, NodeId, Opid, same_opid};
use std::alloc::Global;

/// Whether no log of this length has an entry at the opid's position.
fn is_outside(opid: Opid, length: u64) -> bool
    ensures { result ≡ is_outside opid length }
{
    opid.position == 0 || length < opid.position
}

/// The entries of the longest prefix of these opids that the log holds.
fn found<V: LogView>(alloc: Global, view: &mut V, opids: &[Opid]) -> Result<List<Entry>, DiskFault>
    requires { V.stands view.old }
    ensures told { IfSome (V.sees view.old).log (λ log. IfOk result (λ it. it ≡ spec.found log opids.now)) }
    ensures keeps { Keeps V.sees V.behind V.stands V.faults view.old view.new }
    ensures failed { DiskFails (V.faults view.old) (V.faults view.new) result }
{
    let length = view.last()?.position;
    let mut entries = List::new(alloc);
    for opid in opids {
        if is_outside(*opid, length) {
            return Ok(entries);
        }
        let entry = view.entry(opid.position)?;
        if !same_opid(entry.opid, *opid) {
            return Ok(entries);
        }
        entries.push(entry).map_err(|_| DiskFault::Memory)?;
    }
    Ok(entries)
}

fn fault_of(fault: DiskFault) -> CoreFault
    ensures { result ≡ core_fault fault }
{
    match fault {
        DiskFault::Failed => CoreFault::Disk,
        DiskFault::Memory => CoreFault::Memory,
    }
}

/// The leader's `Append` for the member that the message names, with the entries that this log has of
/// its opids. `from` is the sender, and so the leader that the message names. After `Disk` or `Memory`
/// nothing is to be sent.
pub fn relay<V: LogView>(
    alloc: Global,
    me: NodeId,
    from: NodeId,
    sent: &ProxyAppend,
    view: &mut V,
) -> Result<Message, CoreFault>
    requires { V.stands view.old }
    ensures told { IfSome (V.sees view.old).log (λ log. IfOk result (λ it. it ≡ relayed me log from sent.now)) }
    ensures keeps { Keeps V.sees V.behind V.stands V.faults view.old view.new }
    ensures failed { RelayFails (V.faults view.old) (V.faults view.new) result }
{
    let entries = found(alloc, view, sent.opids.as_slice()).map_err(|fault| fault_of(fault))?;
    Ok(Message {
        from: me.0,
        to: sent.target.0,
        body: Body::Append(Append {
            term: sent.term,
            leader: from,
            prev: sent.prev,
            commit: sent.commit,
            entries,
        }),
    })
}
