ghost use Rattle.std.specs.Prelude.{◌≡◌, ◌+◌, ◌-◌, ◌^◌, ◌<◌, ◌≤◌, ◌++◌, ◌∷◌, [], None, IfOk, IfSome, length};
ghost use Rattle.ring_types.specs.declared.limits.TheConstants.{LAST_FILE, TERM_END};
ghost use Rattle.ring_types.specs.Logs as logs;
ghost use Rattle.edge_traits.specs.Views.{IsEntryOf, Keeps};
ghost use Rattle.ring_model.specs.declared.effects.Action.TheVariants as action;
ghost use Rattle.commit_pipeline.specs.Advances.{advanced_by};
ghost use Rattle.commit_pipeline.specs.Faults.{CoreFails};
ghost use Rattle.commit_pipeline.specs.Heres.{IsLedLog};
ghost use Rattle.commit_pipeline.specs.Planned.{after, MayPlan};

use crate::advances::{Advanced, advance_by};
use crate::heres::Leader;
use crate::planned::Planned;
use crate::steps::Begun;
use edge_traits::LogView;
use ring_model::{Action, CoreFault, Plan};
use ring_types::{Entry, List, Memory};
use std::alloc::Global;

/// Ends a leader's step on the log of which `kept` entries are kept and some are added.
fn advance_after<'x, V: LogView>(
    alloc: Global,
    view: &'x mut V,
    kept: u64,
    added: &'x [Entry],
    leader: &Leader<'_>,
    plan: Plan,
) -> Result<Advanced, CoreFault>
    requires stands { V.stands view.old }
    requires may_plan { MayPlan (V.sees view.old) kept added.now }
    requires short { kept + length added.now < TERM_END }
    requires applied { leader.now.engine.applied ≤ leader.now.commit }
    requires commit { leader.now.commit ≤ kept + length added.now }
    requires led { IfSome (V.sees view.old).log (λ log. IsLedLog leader.now.term (after kept added.now log)) }
    ensures told { IfSome (V.sees view.old).log (λ log. IfOk result (λ it. it ≡ advanced_by leader.now (after kept added.now log) plan)) }
    ensures keeps { Keeps V.sees V.behind V.stands V.faults view.old view.new }
    ensures failed { CoreFails (V.faults view.old) (V.faults view.new) result }
{
    let mut planned = Planned {
        view,
        alloc,
        kept,
        added,
    };
    advance_by(alloc, &mut planned, leader, plan)
}

/// The actions that come first, the appending of some entries, and more actions.
fn with_appended(
    first: List<Action>,
    added: List<Entry>,
    more: List<Action>,
) -> Result<List<Action>, Memory>
    ensures { IfOk result (λ it. it ≡ (first ++ action.Append added ∷ []) ++ more) }
{
    let mut actions = first;
    actions.push(Action::Append(added))?;
    actions.append(more)?;
    Ok(actions)
}

/// Ends a leader's step that appends one entry to the log of `end` entries, after the actions and
/// the sayings that come first.
pub fn add_entry<V: LogView>(
    alloc: Global,
    view: &mut V,
    end: u64,
    leader: &Leader<'_>,
    entry: Entry,
    first: Begun,
) -> Result<Advanced, CoreFault>
    requires stands { V.stands view.old }
    requires end { end ≡ (V.sees view.old).length }
    requires whole { IfSome (V.sees view.old).log (λ log. length log ≡ (V.sees view.old).length) }
    requires short { end + 1 < TERM_END }
    requires applied { leader.now.engine.applied ≤ leader.now.commit }
    requires commit { leader.now.commit ≤ end }
    requires entry { IsEntryOf (V.sees view.old).schema (end + 1) entry }
    requires own { entry.opid.term ≡ leader.now.term }
    requires led { IfSome (V.sees view.old).log (IsLedLog leader.now.term) }
    requires files { IfSome (V.sees view.old).log (λ log. logs.rotates (log ++ entry ∷ []) ≤ LAST_FILE - 1) }
    ensures told { IfSome (V.sees view.old).log (λ log. IfOk result (λ it. it ≡ advanced_by leader.now (log ++ entry ∷ []) (record { actions = first.actions ++ action.Append (entry ∷ []) ∷ []; messages = []; says = first.says }))) }
    ensures keeps { Keeps V.sees V.behind V.stands V.faults view.old view.new }
    ensures failed { CoreFails (V.faults view.old) (V.faults view.new) result }
{
    let Begun {
        actions: first,
        says,
    } = first;
    let mut added = List::new(alloc);
    let Ok(()) = added.push(entry) else {
        return Err(CoreFault::Memory);
    };
    let plan = Plan {
        actions: List::new(alloc),
        messages: List::new(alloc),
        says,
    };
    let advanced = advance_after(alloc, view, end, added.as_slice(), leader, plan)?;
    let Advanced {
        plan,
        commit,
        pending,
    } = advanced;
    let Plan {
        actions,
        messages,
        says,
    } = plan;
    let Ok(actions) = with_appended(first, added, actions) else {
        return Err(CoreFault::Memory);
    };
    Ok(Advanced {
        plan: Plan {
            actions,
            messages,
            says,
        },
        commit,
        pending,
    })
}
