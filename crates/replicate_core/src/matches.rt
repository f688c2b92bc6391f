ghost use Rattle.std.specs.Prelude.{◌≡◌, ◌+◌, ◌<◌, ◌≤◌, IfOk, IfSome, length, drop};
ghost use Rattle.ring_types.specs.declared.limits.TheConstants.{TERM_END};
ghost use Rattle.edge_traits.specs.Views.{Keeps};
ghost use Rattle.ring_model.specs.Replication as spec;
ghost use Rattle.commit_pipeline.specs.Faults.{CoreFails};

use commit_pipeline::term_at;
use edge_traits::LogView;
use ring_model::CoreFault;
use ring_types::Entry;

/// How many of the entries, from the first on, the log of `end` entries holds after a position.
pub(crate) fn matched<V: LogView>(
    view: &mut V,
    end: u64,
    position: u64,
    entries: &[Entry],
) -> Result<usize, CoreFault>
    requires stands { V.stands view.old }
    requires end { end ≡ (V.sees view.old).length }
    requires whole { IfSome (V.sees view.old).log (λ log. length log ≡ (V.sees view.old).length) }
    requires inside { position ≤ end }
    requires fits { end < TERM_END }
    ensures told { IfSome (V.sees view.old).log (λ log. IfOk result (λ it. drop it entries.now ≡ spec.unmatched log position entries.now)) }
    ensures within { IfOk result (λ it. (it ≤ length entries.now) × (position + it ≤ end)) }
    ensures keeps { Keeps V.sees V.behind V.stands V.faults view.old view.new }
    ensures failed { CoreFails (V.faults view.old) (V.faults view.new) result }
{
    let mut count = 0;
    while let Some(entry) = entries.get(count) {
        let at = position + count as u64;
        if end <= at {
            return Ok(count);
        }
        if term_at(view, at + 1)? != entry.opid.term {
            return Ok(count);
        }
        count += 1;
    }
    Ok(count)
}
