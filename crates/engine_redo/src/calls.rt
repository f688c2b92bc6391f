//! The calls that change an engine: one switch of its control file each.
ghost use Rattle.std.specs.Prelude.{◌≡◌, ◌≤◌, ◌+◌, true, OnOk};
ghost use Rattle.edge_traits.specs.Works.{HoldsOn, Switches};
ghost use Rattle.engine_redo.specs.Faults.{EngineFails};
ghost use Rattle.engine_redo.specs.Groups.{engine_files};
ghost use Rattle.engine_redo.specs.Mounted.{HasAdded, IsEngine, IsMounted, schema_of, state_of};
ghost use Rattle.engine_redo.specs.Stands.{EngineStands, MayRedo};
ghost use Rattle.event_txn.specs.Laws.{IsTxn};
ghost use Rattle.prepared_txns.specs.Engines.{engine_done};
ghost use Rattle.ring_model.specs.declared.effects.Action.TheVariants as action;

use crate::engines::Engine;
use crate::faults::EngineFault;
use edge_traits::Disk;
use ring_model::Action;
use ring_types::{Duplicate, List, Opid, Pair, Txn};

impl Engine {
    /// Prepares a transaction of which no key is held (MySQL's XA PREPARE). `conflict` of
    /// [`Engine::prepared`] tells whether one is.
    pub fn prepare<D: Disk>(
        &mut self,
        disk: &mut D,
        opid: Opid,
        txn: Txn,
    ) -> Result<(), EngineFault>
        requires may { MayRedo (schema_of self.old) (state_of self.old) (action.Prepare (record { opid = opid; txn = txn })) }
        requires txn { IsTxn (schema_of self.old) txn }
        requires engine { IsEngine self.old }
        requires mounted { D.tells disk.old ≡ true → IsMounted self.old (D.files disk.old) }
        ensures state { OnOk result (state_of self.new ≡ engine_done (schema_of self.old) (state_of self.old) (action.Prepare (record { opid = opid; txn = txn }))) }
        ensures schema { schema_of self.new ≡ schema_of self.old }
        ensures engine { OnOk result (IsEngine self.new) }
        ensures mounted { D.tells disk.old ≡ true → OnOk result (IsMounted self.new (D.files disk.new)) }
        ensures item { D.tells disk.old ≡ true → OnOk result (HasAdded self.old self.new (action.Prepare (record { opid = opid; txn = txn })) (D.files disk.old) (D.files disk.new)) }
        ensures holds { D.tells disk.old ≡ true → OnOk result (HoldsOn engine_files D.files D.moment D.left_since disk.new (EngineStands (schema_of self.old) (engine_done (schema_of self.old) (state_of self.old) (action.Prepare (record { opid = opid; txn = txn }))))) }
        ensures crash { D.tells disk.old ≡ true → Switches engine_files D.files D.moment D.left_since disk.old disk.new (EngineStands (schema_of self.old) (state_of self.old)) (EngineStands (schema_of self.old) (engine_done (schema_of self.old) (state_of self.old) (action.Prepare (record { opid = opid; txn = txn })))) }
        ensures story { D.story disk.new ≡ D.story disk.old }
        ensures tells { D.tells disk.new ≡ D.tells disk.old }
        ensures later { D.faults disk.old ≤ D.faults disk.new }
        ensures failed { EngineFails (D.faults disk.old) (D.faults disk.new) result }
    {
        self.act(disk, Action::Prepare(Pair { opid, txn }))
    }

    /// Applies the next entry of the log. If the pair that was prepared first has its position, that pair's
    /// transaction is committed; else the entry is no transaction.
    pub fn commit<D: Disk>(&mut self, disk: &mut D, position: u64) -> Result<(), EngineFault>
        requires next { position ≡ (state_of self.old).applied + 1 }
        requires engine { IsEngine self.old }
        requires mounted { D.tells disk.old ≡ true → IsMounted self.old (D.files disk.old) }
        ensures state { OnOk result (state_of self.new ≡ engine_done (schema_of self.old) (state_of self.old) (action.Commit position)) }
        ensures schema { schema_of self.new ≡ schema_of self.old }
        ensures engine { OnOk result (IsEngine self.new) }
        ensures mounted { D.tells disk.old ≡ true → OnOk result (IsMounted self.new (D.files disk.new)) }
        ensures item { D.tells disk.old ≡ true → OnOk result (HasAdded self.old self.new (action.Commit position) (D.files disk.old) (D.files disk.new)) }
        ensures holds { D.tells disk.old ≡ true → OnOk result (HoldsOn engine_files D.files D.moment D.left_since disk.new (EngineStands (schema_of self.old) (engine_done (schema_of self.old) (state_of self.old) (action.Commit position)))) }
        ensures crash { D.tells disk.old ≡ true → Switches engine_files D.files D.moment D.left_since disk.old disk.new (EngineStands (schema_of self.old) (state_of self.old)) (EngineStands (schema_of self.old) (engine_done (schema_of self.old) (state_of self.old) (action.Commit position))) }
        ensures story { D.story disk.new ≡ D.story disk.old }
        ensures tells { D.tells disk.new ≡ D.tells disk.old }
        ensures later { D.faults disk.old ≤ D.faults disk.new }
        ensures failed { EngineFails (D.faults disk.old) (D.faults disk.new) result }
    {
        self.act(disk, Action::Commit(position))
    }

    /// Drops the pairs at positions behind this one.
    pub fn roll_back_after<D: Disk>(
        &mut self,
        disk: &mut D,
        position: u64,
    ) -> Result<(), EngineFault>
        requires engine { IsEngine self.old }
        requires mounted { D.tells disk.old ≡ true → IsMounted self.old (D.files disk.old) }
        ensures state { OnOk result (state_of self.new ≡ engine_done (schema_of self.old) (state_of self.old) (action.RollBackAfter position)) }
        ensures schema { schema_of self.new ≡ schema_of self.old }
        ensures engine { OnOk result (IsEngine self.new) }
        ensures mounted { D.tells disk.old ≡ true → OnOk result (IsMounted self.new (D.files disk.new)) }
        ensures item { D.tells disk.old ≡ true → OnOk result (HasAdded self.old self.new (action.RollBackAfter position) (D.files disk.old) (D.files disk.new)) }
        ensures holds { D.tells disk.old ≡ true → OnOk result (HoldsOn engine_files D.files D.moment D.left_since disk.new (EngineStands (schema_of self.old) (engine_done (schema_of self.old) (state_of self.old) (action.RollBackAfter position)))) }
        ensures crash { D.tells disk.old ≡ true → Switches engine_files D.files D.moment D.left_since disk.old disk.new (EngineStands (schema_of self.old) (state_of self.old)) (EngineStands (schema_of self.old) (engine_done (schema_of self.old) (state_of self.old) (action.RollBackAfter position))) }
        ensures story { D.story disk.new ≡ D.story disk.old }
        ensures tells { D.tells disk.new ≡ D.tells disk.old }
        ensures later { D.faults disk.old ≤ D.faults disk.new }
        ensures failed { EngineFails (D.faults disk.old) (D.faults disk.new) result }
    {
        self.act(disk, Action::RollBackAfter(position))
    }

    /// Drops the pairs of these opids.
    pub fn drop_pairs<D: Disk>(
        &mut self,
        disk: &mut D,
        opids: &List<Opid>,
    ) -> Result<(), EngineFault>
        requires engine { IsEngine self.old }
        requires mounted { D.tells disk.old ≡ true → IsMounted self.old (D.files disk.old) }
        ensures state { OnOk result (state_of self.new ≡ engine_done (schema_of self.old) (state_of self.old) (action.DropPairs opids.now)) }
        ensures schema { schema_of self.new ≡ schema_of self.old }
        ensures engine { OnOk result (IsEngine self.new) }
        ensures mounted { D.tells disk.old ≡ true → OnOk result (IsMounted self.new (D.files disk.new)) }
        ensures item { D.tells disk.old ≡ true → OnOk result (HasAdded self.old self.new (action.DropPairs opids.now) (D.files disk.old) (D.files disk.new)) }
        ensures holds { D.tells disk.old ≡ true → OnOk result (HoldsOn engine_files D.files D.moment D.left_since disk.new (EngineStands (schema_of self.old) (engine_done (schema_of self.old) (state_of self.old) (action.DropPairs opids.now)))) }
        ensures crash { D.tells disk.old ≡ true → Switches engine_files D.files D.moment D.left_since disk.old disk.new (EngineStands (schema_of self.old) (state_of self.old)) (EngineStands (schema_of self.old) (engine_done (schema_of self.old) (state_of self.old) (action.DropPairs opids.now))) }
        ensures story { D.story disk.new ≡ D.story disk.old }
        ensures tells { D.tells disk.new ≡ D.tells disk.old }
        ensures later { D.faults disk.old ≤ D.faults disk.new }
        ensures failed { EngineFails (D.faults disk.old) (D.faults disk.new) result }
    {
        let opids = opids.copy(self.alloc)?;
        self.act(disk, Action::DropPairs(opids))
    }
}
