ghost use Rattle.std.specs.Prelude.{◌≡◌, ℕ, [], false, IfOk, OnErr, OnOk, Some, None, take};
ghost use Rattle.edge_traits.specs.Views.{Keeps};
ghost use Rattle.std.specs.Option.{option_map};
ghost use Rattle.node_store.specs.Stores.{engine_for};
ghost use Rattle.node_unit.specs.Plans.{IsRead, PlanFails, RestsWhereTorn, is_answer_input, plan_of};
ghost use Rattle.node_unit.specs.Units.{IsOf, IsFitShown, answered, after_answer, after_plan, node_of, outcome_of};
ghost use Rattle.ring_lawful.specs.EachStep.{IsFitNode, IsFitPart, IsGood};
ghost use Rattle.ring_types.specs.Logs.{IsLog};
ghost use Rattle.ring_model.specs.Actions as acts;
ghost use Rattle.ring_model.specs.Dispatch as dispatch;
ghost use Rattle.ring_model.specs.Nodes as nodes;
ghost use Rattle.ring_model.specs.Worlds as worlds;

use crate::plans::{Kept, planned};
use commit_pipeline::idle;
use edge_traits::LogView;
use node_store::NodeStore;
use ring_model::{Action, CoreFault, Input, Mock, Outcome, Plan, Role, Shown, Soft, Transfer};
use ring_types::{Entry, List, Memory, NodeId, Ring};
use std::alloc::{AllocError, Global};
use std::marker::Model;

/// A node: what it keeps and, while it runs, what it has in memory.
#[derive(Drop)]
pub struct Unit {
    me: NodeId,
    store: NodeStore,
    soft: Option<Soft>,
}

impl Model for Unit {
    ghost use Rattle.node_unit.specs.Units.{UnitState};

    ghost Value = { UnitState };

    ghost view = { λ u. record { shown = record { node = u.me; durable = u.store.durable; soft = u.soft }; engine = u.store.engine } };
}

/// The soft part of a node that starts.
fn fresh_soft(alloc: Global, applied: u64) -> Soft
    ensures { result ≡ nodes.fresh_soft (record { term = 0; votes = []; log = []; applied = applied; prepared = [] }) }
{
    Soft {
        role: Role::Follower,
        commit: applied,
        ready_at: 0,
        rounds: 0,
        grants: List::new(alloc),
        peers: List::new(alloc),
        pending: List::new(alloc),
        transfer: Transfer::Off,
        mock: Mock::Off,
    }
}

/// The plan of an input with the log read in memory. Where it is torn nothing happens.
fn plan_in_memory(
    alloc: Global,
    ring: &Ring,
    me: NodeId,
    store: &NodeStore,
    soft: &mut Soft,
    input: &Input,
) -> Result<Plan, Memory>
    requires of { store.now.engine ≡ engine_for ring.now me }
    requires fit { IsFitNode ring.now me store.now.durable soft.old }
    requires good { IsGood ring.now input.now }
    ensures told { IfOk result (λ it. dispatch.step ring.now me store.now.durable soft.old input.now ≡ record { plan = it; soft = soft.new }) }
{
    let mut view = store.view(ring);
    let kept = Kept { ring, me, store };
    match planned(alloc, &kept, &mut view, soft, input) {
        Ok(plan) => Ok(plan),
        Err(CoreFault::Torn { .. }) => Ok(idle(alloc)),
        Err(_) => Err(AllocError),
    }
}

/// Does the actions of a plan, in order. After `Memory` the store is given up.
fn act_all(
    store: &mut NodeStore,
    ring: &Ring,
    me: NodeId,
    actions: List<Action>,
) -> Result<(), Memory>
    requires of { store.old.engine ≡ engine_for ring.now me }
    requires possible { acts.ArePossible ring.now.schema store.old.durable actions }
    requires fit { (n : ℕ) → IsFitPart ring.now me (acts.all_done store.old.durable (take n actions)) }
    ensures done { OnOk result (store.new.durable ≡ acts.all_done store.old.durable actions) }
    ensures engine { OnOk result (store.new.engine ≡ store.old.engine) }
{
    let mut actions = actions;
    for at in 0..actions.len() {
        let action = actions.replace(at, Action::SetTerm(0));
        store.act(ring, action)?;
    }
    Ok(())
}

impl Unit {
    /// A node that starts for the first time.
    #[tactic(auto, using(crate::proofs::Acting::first_fits))]
    pub fn new(alloc: Global, ring: &Ring, me: NodeId) -> Result<Unit, Memory>
        ensures is { IfOk result (λ it. it ≡ record { shown = record { node = me; durable = nodes.empty_durable; soft = Some (nodes.fresh_soft nodes.empty_durable) }; engine = engine_for ring.now me }) }
        ensures of { IfOk result (IsOf ring.now) }
        ensures fit { IfOk result (λ it. IsFitShown ring.now it.shown) }
    {
        let store = NodeStore::new(alloc, ring, me)?;
        Ok(Unit {
            me,
            store,
            soft: Some(fresh_soft(alloc, 0)),
        })
    }

    fn take(&mut self, alloc: Global, ring: &Ring, input: &Input) -> Result<Option<Outcome>, Memory>
        requires of { IsOf ring.now self.old }
        requires fit { IsFitShown ring.now self.old.shown }
        requires good { IsGood ring.now input.now }
        ensures node { OnOk result (self.new.shown ≡ after_answer self.old.shown (answered ring.now input.now self.old.shown)) }
        ensures engine { OnOk result (self.new.engine ≡ self.old.engine) }
        ensures gives { IfOk result (λ it. it ≡ option_map outcome_of (answered ring.now input.now self.old.shown)) }
    {
        let Some(mut soft) = self.soft.take() else {
            return Ok(None);
        };
        let plan = plan_in_memory(alloc, ring, self.me, &self.store, &mut soft, input)?;
        let Plan {
            actions,
            messages,
            says,
        } = plan;
        act_all(&mut self.store, ring, self.me, actions)?;
        self.soft = Some(soft);
        Ok(Some(Outcome { messages, says }))
    }

    /// The plan of an input, made with the log read through a view that is not the unit's own, and what
    /// the node has in memory then; nothing of it is done. None where the node is down. A unit that
    /// planned is no longer fit until its plan is done.
    pub fn plan<V: LogView>(
        &mut self,
        alloc: Global,
        ring: &Ring,
        view: &mut V,
        input: &Input,
    ) -> Result<Option<Plan>, CoreFault>
        requires of { IsOf ring.now self.old }
        requires fit { IsFitShown ring.now self.old.shown }
        requires good { IsGood ring.now input.now }
        requires read { IsRead V.stands V.sees ring.now self.old.shown.durable view.old }
        ensures gives { IfOk result (λ it. it ≡ option_map plan_of (answered ring.now input.now self.old.shown)) }
        ensures node { OnOk result (self.new ≡ record self.old { shown = after_plan self.old.shown (answered ring.now input.now self.old.shown) }) }
        ensures torn { RestsWhereTorn self.old.shown.soft (answered ring.now input.now self.old.shown) result }
        ensures stays { is_answer_input input.now ≡ false → OnErr result (self.new ≡ self.old) }
        ensures keeps { Keeps V.sees V.behind V.stands V.faults view.old view.new }
        ensures failed { PlanFails (V.faults view.old) (V.faults view.new) result }
    {
        let Some(mut soft) = self.soft.take() else {
            return Ok(None);
        };
        let kept = Kept {
            ring,
            me: self.me,
            store: &self.store,
        };
        let planned = planned(alloc, &kept, view, &mut soft, input);
        self.soft = Some(soft);
        match planned {
            Ok(plan) => Ok(Some(plan)),
            Err(fault) => Err(fault),
        }
    }

    /// Takes an input, to its end, and gives what is sent and said; None where the node is down. What was
    /// fit stays fit. After `Memory` the unit is given up.
    pub fn step(
        &mut self,
        alloc: Global,
        ring: &Ring,
        input: &Input,
    ) -> Result<Option<Outcome>, Memory>
        requires of { IsOf ring.now self.old }
        requires fit { IsFitShown ring.now self.old.shown }
        requires good { IsGood ring.now input.now }
        ensures node { OnOk result (self.new.shown ≡ after_answer self.old.shown (answered ring.now input.now self.old.shown)) }
        ensures engine { OnOk result (self.new.engine ≡ self.old.engine) }
        ensures gives { IfOk result (λ it. it ≡ option_map outcome_of (answered ring.now input.now self.old.shown)) }
        ensures still_of { OnOk result (IsOf ring.now self.new) }
        ensures still_fit { OnOk result (IsFitShown ring.now self.new.shown) }
    {
        self.take(alloc, ring, input)
    }

    /// The node goes down: what it has in memory is lost.
    pub fn stop(&mut self)
        ensures { self.new ≡ record self.old { shown = record (self.old.shown) { soft = None } } }
    {
        self.soft = None;
    }

    /// The node comes up on what it keeps. After `Memory` the unit is given up.
    pub fn restart(&mut self, alloc: Global) -> Result<(), Memory>
        requires { IsLog self.old.shown.durable.log }
        ensures node { OnOk result (self.new.shown ≡ record (self.old.shown) { durable = nodes.recover self.old.shown.durable; soft = Some (nodes.fresh_soft self.old.shown.durable) }) }
        ensures engine { OnOk result (self.new.engine ≡ self.old.engine) }
    {
        self.store.recover()?;
        self.soft = Some(fresh_soft(alloc, self.store.applied()));
        Ok(())
    }

    /// The number of the member.
    pub fn me(&self) -> NodeId
        ensures { result ≡ self.now.shown.node }
    {
        self.me
    }

    /// The log, lent.
    pub fn log(&self) -> &[Entry]
        ensures { result.now ≡ self.now.shown.durable.log }
    {
        self.store.log()
    }

    /// The commit count while the node runs, else how many entries its engine has applied.
    pub fn reach(&self) -> u64
        ensures { result ≡ worlds.reach (node_of self.now.shown) }
    {
        match &self.soft {
            None => self.store.applied(),
            Some(soft) => soft.commit,
        }
    }

    /// The node as a report shows it.
    pub fn into_shown(self) -> Result<Shown, Memory>
        ensures { IfOk result (λ it. it ≡ self.shown) }
    {
        let Unit { me, store, soft } = self;
        Ok(Shown {
            node: me,
            durable: store.into_durable()?,
            soft,
        })
    }
}
