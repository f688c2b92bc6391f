//! Tears: a committed position where a message has another term than the log. No ring sends one; a node
//! that meets one gives no plan.
ghost use Rattle.std.specs.Prelude.{◌≡◌, ◌<◌, ◌≤◌, ◌∷◌, IfOk, IfSome};
ghost use Rattle.ring_types.specs.declared.limits.TheConstants.{TERM_END};
ghost use Rattle.edge_traits.specs.Views.{Keeps};
ghost use Rattle.ring_model.specs.Replication as spec;
ghost use Rattle.commit_pipeline.specs.Faults.{CoreFails};

use commit_pipeline::term_at;
use edge_traits::LogView;
use ring_model::{CoreFault, Tear};
use ring_types::{Entry, Opid};

/// The lowest committed position, from this one on, where log and entries have unlike terms.
fn first_tear<V: LogView>(
    view: &mut V,
    commit: u64,
    position: u64,
    entries: &[Entry],
) -> Result<Option<Tear>, CoreFault>
    requires stands { V.stands view.old }
    requires inside { commit ≤ (V.sees view.old).length }
    requires fits { position ≤ TERM_END }
    ensures told { IfSome (V.sees view.old).log (λ log. IfOk result (λ it. it ≡ spec.first_tear log commit position (spec.terms_of entries.now))) }
    ensures keeps { Keeps V.sees V.behind V.stands V.faults view.old view.new }
    ensures failed { CoreFails (V.faults view.old) (V.faults view.new) result }
{
    let mut at = position;
    for entry in entries {
        if commit < at {
            return Ok(None);
        }
        let kept = term_at(view, at)?;
        if kept != entry.opid.term {
            return Ok(Some(Tear {
                position: at,
                kept_term: kept,
                sent_term: entry.opid.term,
            }));
        }
        at += 1;
    }
    Ok(None)
}

/// The lowest committed position where the log's term is not the one that the message has there, be
/// it in its previous opid or in an entry.
pub(crate) fn tear_in<V: LogView>(
    view: &mut V,
    commit: u64,
    prev: Opid,
    entries: &[Entry],
) -> Result<Option<Tear>, CoreFault>
    requires stands { V.stands view.old }
    requires inside { commit ≤ (V.sees view.old).length }
    requires fits { commit < TERM_END }
    ensures told { IfSome (V.sees view.old).log (λ log. IfOk result (λ it. it ≡ spec.first_tear log commit prev.position (prev.term ∷ spec.terms_of entries.now))) }
    ensures keeps { Keeps V.sees V.behind V.stands V.faults view.old view.new }
    ensures failed { CoreFails (V.faults view.old) (V.faults view.new) result }
{
    if commit < prev.position {
        return Ok(None);
    }
    let kept = term_at(view, prev.position)?;
    if kept != prev.term {
        return Ok(Some(Tear {
            position: prev.position,
            kept_term: kept,
            sent_term: prev.term,
        }));
    }
    first_tear(view, commit, prev.position + 1, entries)
}
