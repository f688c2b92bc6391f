//! Prepared pairs whose entry is not in the log.
ghost use Rattle.std.specs.Prelude.{◌≡◌, IfOk};
ghost use Rattle.ring_types.specs.Logs as logs;
ghost use Rattle.node_store.specs.Kept.{strays_in};

use ring_types::{Entry, List, Memory, Opid, Pair, entry_at, same_opid};
use std::alloc::Global;

/// Whether the log has an entry of this opid. It would stand at the opid's position.
fn is_in_log(log: &[Entry], opid: Opid) -> bool
    requires { logs.IsLog log.now }
    ensures { result ≡ logs.has_opid log.now opid }
{
    match entry_at(log, opid.position) {
        Some(entry) => same_opid(entry.opid, opid),
        None => false,
    }
}

/// The opids of the pairs whose entry is not in the log.
pub(crate) fn stray_opids(
    alloc: Global,
    log: &[Entry],
    pairs: &[Pair],
) -> Result<List<Opid>, Memory>
    requires { logs.IsLog log.now }
    ensures { IfOk result (λ it. it ≡ strays_in log.now pairs.now) }
{
    let mut strays = List::new(alloc);
    for pair in pairs {
        if !is_in_log(log, pair.opid) {
            strays.push(pair.opid)?;
        }
    }
    Ok(strays)
}
