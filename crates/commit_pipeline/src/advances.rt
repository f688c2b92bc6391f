ghost use Rattle.std.specs.Prelude.{◌≡◌, IfOk, OnOk, OnErr, IfSome};
ghost use Rattle.edge_traits.specs.Views.{Keeps};
ghost use Rattle.commit_pipeline.specs.Advances.{Advances, advanced_by};
ghost use Rattle.commit_pipeline.specs.Faults.{CoreFails};
ghost use Rattle.commit_pipeline.specs.Heres.{MayAdvance, durable_of};

use crate::counts::commit_count;
use crate::follows::follow;
use crate::heres::{Here, Leader};
use crate::parts::{committeds, waiting};
use crate::steps::idle;
use edge_traits::LogView;
use ring_model::{CoreFault, Pending, Plan, Soft};
use ring_types::List;
use std::alloc::Global;
use std::mem::replace;

/// The plan of a leader's step, and its commit count and pending writes after it.
#[derive(Drop)]
pub struct Advanced {
    pub plan: Plan,
    pub commit: u64,
    pub pending: List<Pending>,
}

impl Advanced {
    /// Gives the soft part its commit count and its pending writes, and the caller the plan.
    pub fn settle(self, soft: &mut Soft) -> Plan
        ensures plan { result ≡ self.plan }
        ensures soft { soft.new ≡ record soft.old { commit = self.commit; pending = self.pending } }
    {
        let Advanced {
            plan,
            commit,
            pending,
        } = self;
        soft.commit = commit;
        soft.pending = pending;
        plan
    }
}

/// Ends a leader's step, without its soft part: the commit count rises, the engine follows, and the
/// pending writes up to it are told. The view is the log after the plan's actions.
pub fn advance_by<V: LogView>(
    alloc: Global,
    view: &mut V,
    leader: &Leader<'_>,
    plan: Plan,
) -> Result<Advanced, CoreFault>
    requires { MayAdvance V.stands V.sees view.old leader.now.term leader.now.engine.applied leader.now.commit }
    ensures told { IfSome (V.sees view.old).log (λ log. IfOk result (λ it. it ≡ advanced_by leader.now log plan)) }
    ensures keeps { Keeps V.sees V.behind V.stands V.faults view.old view.new }
    ensures failed { CoreFails (V.faults view.old) (V.faults view.new) result }
{
    let commit = commit_count(alloc, view, leader)?;
    let Plan {
        actions,
        messages,
        says,
    } = plan;
    let actions = follow(view, &leader.engine, commit, actions)?;
    let Ok(says) = committeds(says, leader.term, commit, leader.pending) else {
        return Err(CoreFault::Memory);
    };
    let Ok(pending) = waiting(alloc, commit, leader.pending) else {
        return Err(CoreFault::Memory);
    };
    Ok(Advanced {
        plan: Plan {
            actions,
            messages,
            says,
        },
        commit,
        pending,
    })
}

/// Ends a leader's step: the commit count rises, the engine follows, and the pending writes up to it
/// are told. `here` is the node after the plan's actions; its GTIDs, history and file may be those
/// from before.
pub fn advance<'a, V: LogView>(
    alloc: Global,
    here: Here<'a, V>,
    soft: &mut Soft,
    plan: &mut Plan,
) -> Result<(), CoreFault>
    requires { MayAdvance V.stands V.sees here.view.now here.term here.applied soft.old.commit }
    ensures told { IfSome (V.sees here.entry.view.now).log (λ log. OnOk result (Advances here.entry.ring.now here.entry.me (durable_of here.entry log) soft.old soft.new plan.old plan.new)) }
    ensures stays { OnErr result (soft.new ≡ soft.old) }
    ensures keeps { Keeps V.sees V.behind V.stands V.faults here.entry.view.now here.exit.0.now }
    ensures failed { CoreFails (V.faults here.entry.view.now) (V.faults here.exit.0.now) result }
{
    let Here {
        view,
        ring,
        me,
        term,
        applied,
        prepared,
        ..
    } = here;
    let first = replace(plan, idle(alloc));
    let leader = Leader::new(ring, me, term, applied, prepared, soft);
    let advanced = advance_by(alloc, view, &leader, first)?;
    *plan = advanced.settle(soft);
    Ok(())
}
