ghost use Rattle.std.specs.Prelude.{◌≡◌, ◌++◌, ◌∷◌, [], OnErr, OnOk, None, drop, filter, nat_le, not, slice_get};
ghost use Rattle.std.specs.List.{list_any};
ghost use Rattle.std.specs.Option.{option_copied};
ghost use Rattle.ring_types.specs.declared.entries.Pair.{Pair};
ghost use Rattle.ring_types.specs.Logs.{same_opid};
ghost use Rattle.prepared_txns.specs.Conflicts.{Tells, conflict_from};

use crate::PrepareError;
use crate::holders::{Holders, conflict, lock, release};
use crate::keeping::{UpTo, Without, keep_those};
use crate::moves::take_first;
use ring_types::{Change, Conflict, List, Memory, Opid, Pair, Txn};
use std::alloc::Global;
use std::collections::BTreeMap;
use std::marker::Model;

/// The prepared transactions with their opids, in order. Contracts see the list of them.
#[derive(Drop)]
pub struct Prepared {
    alloc: Global,
    pairs: List<Pair>,
    holders: Holders,
}

impl Model for Prepared {
    ghost use Rattle.std.specs.Prelude.{List};
    ghost use Rattle.ring_types.specs.declared.entries.Pair.{Pair};

    ghost Value = { List Pair };

    ghost use Rattle.prepared_txns.specs.Holders.{AreHeld};

    ghost view = { λ p. p.pairs };

    ghost invariant = { λ p. AreHeld p.pairs p.holders };
}

impl Prepared {
    /// No transaction is prepared. It takes no memory until one is.
    pub fn new(alloc: Global) -> Prepared
        ensures { result ≡ [] }
    {
        Prepared {
            alloc,
            pairs: List::new(alloc),
            holders: BTreeMap::new(alloc),
        }
    }

    /// Prepares a transaction and locks its keys, if nobody holds one of them.
    pub fn prepare(&mut self, opid: Opid, txn: Txn) -> Result<(), PrepareError>
        ensures ok { OnOk result (self.new ≡ self.old ++ record { opid = opid; txn = txn } ∷ []) }
        ensures err { OnErr result (self.new ≡ self.old) }
        ensures told { Tells (conflict_from 0 self.old txn.changes) result }
    {
        if let Some(Conflict { change, holder }) = self.conflict(&txn.changes) {
            return Err(PrepareError::Locked { change, holder });
        }
        match self.keep(Pair { opid, txn }) {
            Ok(()) => Ok(()),
            Err(_) => Err(PrepareError::Memory),
        }
    }

    /// Keeps a pair of which nobody holds a key, and locks its keys. Without memory everything stays
    /// as it was.
    pub fn keep(&mut self, pair: Pair) -> Result<(), Memory>
        requires { conflict_from 0 self.old pair.txn.changes ≡ None }
        ensures ok { OnOk result (self.new ≡ self.old ++ pair ∷ []) }
        ensures err { OnErr result (self.new ≡ self.old) }
    {
        let at = self.pairs.len();
        self.pairs.push(pair)?;
        match lock(self.alloc, &mut self.holders, &self.pairs.as_slice()[at]) {
            Ok(()) => Ok(()),
            Err(wanting) => {
                self.pairs.truncate(at as u64);
                Err(wanting)
            }
        }
    }

    /// The first of the changes whose key a prepared transaction writes, counted from 0.
    pub fn conflict(&self, changes: &List<Change>) -> Option<Conflict>
        ensures { result ≡ conflict_from 0 self.now changes.now }
    {
        conflict(&self.holders, changes.as_slice())
    }

    /// The prepared transactions with their opids, in order, lent.
    pub fn pairs(&self) -> &List<Pair>
        ensures { result.now ≡ self.now }
    {
        &self.pairs
    }

    /// The pair that was prepared first, lent.
    pub fn front(&self) -> Option<&Pair>
        ensures { option_copied result ≡ slice_get self.now 0 }
    {
        self.pairs.get(0)
    }

    /// Takes the pair that was prepared first, and frees its keys. It takes no memory, and time for
    /// each kept pair, since those move down.
    pub fn take_front(&mut self) -> Option<Pair>
        ensures front { result ≡ slice_get self.old 0 }
        ensures rest { self.new ≡ drop 1 self.old }
    {
        let front = take_first(self.alloc, &mut self.pairs)?;
        release(&mut self.holders, &front);
        Some(front)
    }

    /// Keeps the pairs at positions up to this one, and frees the keys of the others. It takes no
    /// memory.
    pub fn roll_back_after(&mut self, position: u64)
        ensures { self.new ≡ filter (λ (p : Pair). nat_le p.opid.position position) self.old }
    {
        keep_those(
            self.alloc,
            &mut self.pairs,
            &mut self.holders,
            &UpTo { position },
        );
    }

    /// Drops the pairs of these opids, and frees their keys. It takes no memory.
    pub fn drop_pairs(&mut self, opids: &List<Opid>)
        ensures { self.new ≡ filter (λ (p : Pair). not (list_any (same_opid p.opid) opids.now)) self.old }
    {
        let opids = opids.as_slice();
        keep_those(
            self.alloc,
            &mut self.pairs,
            &mut self.holders,
            &Without { opids },
        );
    }
}
