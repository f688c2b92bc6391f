//! The store: its parts, what it lends, and its actions.
ghost use Rattle.std.specs.Prelude.{◌≡◌, ◌+◌, ◌++◌, ◌≤◌, ◌<◌, suc, true, false, IfOk, OnErr, OnOk, None, Some, length, nat_le, option_map};
ghost use Rattle.std.specs.List.{All, list_all, list_any};
ghost use Rattle.std.specs.Option.{option_copied};
ghost use Rattle.edge_traits.specs.Views.{AreEntries};
ghost use Rattle.ring_types.specs.declared.entries.Vote.{Vote};
ghost use Rattle.ring_types.specs.declared.limits.TheConstants.{LAST_FILE};
ghost use Rattle.ring_types.specs.declared.schemas.Schema.{Schema};
ghost use Rattle.ring_types.specs.Gtids as sets;
ghost use Rattle.ring_types.specs.Logs as logs;
ghost use Rattle.ring_types.specs.Rows as tables;
ghost use Rattle.ring_model.specs.Actions as acts;
ghost use Rattle.ring_model.specs.Nodes as nodes;
ghost use Rattle.ring_model.specs.declared.effects.Action.TheVariants as action;
ghost use Rattle.node_store.specs.Stores.{engine_for, tables_of};
ghost use Rattle.node_store.specs.Kept.{IsNumbered, acted};

use crate::fronts::commit_at;
use crate::log_sets::{gtids_of, put_gtids};
use crate::strays::stray_opids;
use edge_traits::{ListView, LogView};
use gtid_set::GtidSet;
use prepared_txns::Prepared;
use ring_model::{Action, Durable};
use ring_types::{Duplicate, Entry, List, Memory, NodeId, Opid, Pair, Ring, Vote, rotates};
use row_engine::Tables;
use std::alloc::{AllocError, Global};
use std::marker::Model;
use vote_history::{Full, History};

/// A node's durable part, with what rules read of it beside the log. Contracts see the durable part
/// and the schema of the tables.
#[derive(Drop)]
pub struct NodeStore {
    alloc: Global,
    term: u64,
    history: History,
    log: List<Entry>,
    /// The GTIDs of the log's transactions.
    gtids: GtidSet,
    /// The number of the binary log file that is open: one more than the log's Rotates.
    file: u32,
    applied: u64,
    prepared: Prepared,
    /// What the applied entries make of empty tables; none on a node without an engine.
    tables: Option<Tables>,
}

impl Model for NodeStore {
    ghost use Rattle.std.specs.Prelude.{option_map};
    ghost use Rattle.row_engine.specs.Filled.{Filled};
    ghost use Rattle.node_store.specs.Stores.{StoreState};
    ghost use Rattle.node_store.specs.Kept.{IsKept};

    ghost Value = { StoreState };

    ghost view = { λ s. record {
      durable = record { term = s.term; votes = s.history; log = s.log; applied = s.applied; prepared = s.prepared };
      engine = option_map (λ (t : Filled). t.schema) s.tables;
    } };

    ghost invariant = { λ s. IsKept s.log s.gtids s.file s.applied s.tables };
}

/// Empty tables of the ring's schema for a member with an engine.
fn tables_for(alloc: Global, ring: &Ring, me: NodeId) -> Result<Option<Tables>, Memory>
    ensures { IfOk result (λ it. it ≡ option_map (λ (s : Schema). record { schema = s; rows = tables.empty_tables s }) (engine_for ring.now me)) }
{
    if ring.runs_engine(me) {
        Ok(Some(Tables::new(alloc, ring.schema())?))
    } else {
        Ok(None)
    }
}

/// The number of the file that is open after the entries of a log.
fn file_after(log: &[Entry]) -> u32
    requires { logs.rotates log.now < LAST_FILE }
    ensures { result ≡ suc (logs.rotates log.now) }
{
    rotates(log) as u32 + 1
}

impl NodeStore {
    /// The store of a node that never ran.
    pub fn new(alloc: Global, ring: &Ring, me: NodeId) -> Result<NodeStore, Memory>
        ensures { IfOk result (λ it. it ≡ record { durable = nodes.empty_durable; engine = engine_for ring.now me }) }
    {
        Ok(NodeStore {
            alloc,
            term: 0,
            history: History::new(alloc)?,
            log: List::new(alloc),
            gtids: GtidSet::new(alloc),
            file: 1,
            applied: 0,
            prepared: Prepared::new(alloc),
            tables: tables_for(alloc, ring, me)?,
        })
    }

    /// The node's term.
    pub fn term(&self) -> u64
        ensures { result ≡ self.now.durable.term }
    {
        self.term
    }

    /// The votes that the node cast, lent.
    pub fn history(&self) -> &History
        ensures { result.now ≡ self.now.durable.votes }
    {
        &self.history
    }

    /// The log, lent.
    pub fn log(&self) -> &[Entry]
        ensures { result.now ≡ self.now.durable.log }
    {
        self.log.as_slice()
    }

    /// The GTIDs of the log's transactions, lent.
    pub fn gtids(&self) -> &GtidSet
        ensures { result.now ≡ sets.gtids self.now.durable.log }
    {
        &self.gtids
    }

    /// The number of the binary log file that is open.
    pub fn file(&self) -> u32
        ensures { result ≡ suc (logs.rotates self.now.durable.log) }
    {
        self.file
    }

    /// How many entries of the log the engine has applied.
    pub fn applied(&self) -> u64
        ensures { result ≡ self.now.durable.applied }
    {
        self.applied
    }

    /// The prepared transactions, lent.
    pub fn prepared(&self) -> &Prepared
        ensures { result.now ≡ self.now.durable.prepared }
    {
        &self.prepared
    }

    /// The engine's tables, lent, on a node that has an engine.
    pub fn tables(&self) -> Option<&Tables>
        ensures { option_copied result ≡ tables_of self.now }
    {
        self.tables.as_ref()
    }

    /// The log, as a rule reads it by position.
    pub fn view<'a>(&'a self, ring: &'a Ring) -> ListView<'a>
        ensures sees { ⟦<ListView<'a> as LogView>⟧.sees result
            ≡ record { log = Some self.now.durable.log; length = length self.now.durable.log; home = ring.now.home; schema = ring.now.schema } }
        ensures stands { AreEntries ring.now.schema self.now.durable.log → ⟦<ListView<'a> as LogView>⟧.stands result }
    {
        ListView::new(self.alloc, self.log.as_slice(), ring.home(), ring.schema())
    }

    /// Does one durable action, and moves in what it holds. After `Memory` the store is given up.
    pub fn act(&mut self, ring: &Ring, action: Action) -> Result<(), Memory>
        requires log { logs.IsLog self.old.durable.log }
        requires applied { self.old.durable.applied ≤ length self.old.durable.log }
        requires votes { list_all (λ (v : Vote). nat_le v.term self.old.durable.term) self.old.durable.votes ≡ true }
        requires possible { acts.IsPossible ring.now.schema self.old.durable action }
        ensures done { OnOk result (self.new.durable ≡ acts.done self.old.durable action) }
        ensures engine { OnOk result (self.new.engine ≡ self.old.engine) }
    {
        match action {
            Action::SetTerm(term) => {
                self.set_term(term);
                Ok(())
            }
            Action::Vote { vote, floor } => {
                self.vote(vote, floor);
                Ok(())
            }
            Action::Append(entries) => self.append(entries),
            Action::Truncate(position) => self.truncate(position),
            Action::Prepare(pair) => self.prepare(pair),
            Action::Commit(position) => self.commit(position),
            Action::RollBackAfter(position) => {
                self.roll_back_after(position);
                Ok(())
            }
            Action::DropPairs(opids) => {
                self.drop_pairs(&opids);
                Ok(())
            }
        }
    }

    /// Drops the prepared pairs whose entry is not in the log, as a restart does first.
    pub fn recover(&mut self) -> Result<(), Memory>
        requires { logs.IsLog self.old.durable.log }
        ensures part { OnOk result (self.new.durable ≡ nodes.recover self.old.durable) }
        ensures engine { OnOk result (self.new.engine ≡ self.old.engine) }
        ensures err { OnErr result (self.new ≡ self.old) }
    {
        let strays = stray_opids(
            self.alloc,
            self.log.as_slice(),
            self.prepared.pairs().as_slice(),
        )?;
        self.prepared.drop_pairs(&strays);
        Ok(())
    }

    /// The durable part alone. The log is moved out; the votes and the pairs are copied.
    pub fn into_durable(self) -> Result<Durable, Memory>
        ensures { IfOk result (λ it. it ≡ self.durable) }
    {
        let mut votes = List::new(self.alloc);
        votes.extend_from_slice(self.history.votes())?;
        let prepared = self.prepared.pairs().copy(self.alloc)?;
        Ok(Durable {
            term: self.term,
            votes,
            log: self.log,
            applied: self.applied,
            prepared,
        })
    }

    fn set_term(&mut self, term: u64)
        ensures { self.new ≡ acted self.old (action.SetTerm term) }
    {
        self.term = term;
    }

    /// Drops the votes of terms up to the floor, and adds one.
    fn vote(&mut self, vote: Vote, floor: u64)
        requires room { acts.has_room floor self.old.durable.votes ≡ true }
        requires above { All (λ (v : Vote). v.term < vote.term) self.old.durable.votes }
        ensures { self.new ≡ acted self.old (action.Vote vote floor) }
    {
        self.history.drop_to(floor);
        match self.history.grant(vote) {
            Ok(()) => {}
            Err(Full) => unreachable!(),
        }
    }

    /// Moves the entries to the end of the log, which then keeps those of them whose GTIDs the set
    /// has: all, but for want of memory.
    fn append(&mut self, entries: List<Entry>) -> Result<(), Memory>
        requires applied { self.old.durable.applied ≤ length self.old.durable.log }
        requires log { logs.IsLog (self.old.durable.log ++ entries) }
        requires numbered { All IsNumbered entries }
        ensures { OnOk result (self.new ≡ acted self.old (action.Append entries)) }
    {
        let kept = self.log.len();
        let count = entries.len();
        self.log.append(entries)?;
        let put = put_gtids(&mut self.gtids, self.log.suffix(kept as u64));
        self.log.truncate((kept + put) as u64);
        self.file += rotates(self.log.suffix(kept as u64)) as u32;
        if put < count { Err(AllocError) } else { Ok(()) }
    }

    /// Keeps the first entries of the log, and makes the set and the file number anew from them.
    fn truncate(&mut self, position: u64) -> Result<(), Memory>
        requires log { logs.IsLog self.old.durable.log }
        requires unapplied { self.old.durable.applied ≤ position }
        ensures { OnOk result (self.new ≡ acted self.old (action.Truncate position)) }
    {
        let left = self.log.prefix(position);
        let file = file_after(left);
        self.gtids = gtids_of(self.alloc, left)?;
        self.file = file;
        self.log.truncate(position);
        Ok(())
    }

    fn prepare(&mut self, pair: Pair) -> Result<(), Memory>
        requires { list_any (acts.is_held self.old.durable.prepared) pair.txn.changes ≡ false }
        ensures { OnOk result (self.new ≡ acted self.old (action.Prepare pair)) }
    {
        self.prepared.keep(pair)
    }

    /// Counts the entry of that position as applied, and applies the transaction of the pair that was
    /// prepared for it.
    fn commit(&mut self, position: u64) -> Result<(), Memory>
        requires log { logs.IsLog self.old.durable.log }
        requires applied { self.old.durable.applied ≤ length self.old.durable.log }
        requires next { position ≡ self.old.durable.applied + 1 }
        requires within { position ≤ length self.old.durable.log }
        requires front { acts.MayCommitEntry self.old.durable.prepared position (logs.entry_at self.old.durable.log position) }
        ensures { OnOk result (self.new ≡ acted self.old (action.Commit position)) }
    {
        commit_at(&mut self.prepared, &mut self.tables, position)?;
        self.applied = position;
        Ok(())
    }

    fn roll_back_after(&mut self, position: u64)
        ensures { self.new ≡ acted self.old (action.RollBackAfter position) }
    {
        self.prepared.roll_back_after(position);
    }

    fn drop_pairs(&mut self, opids: &List<Opid>)
        ensures { self.new ≡ acted self.old (action.DropPairs opids.now) }
    {
        self.prepared.drop_pairs(opids);
    }
}
