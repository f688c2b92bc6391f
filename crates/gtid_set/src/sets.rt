ghost use Rattle.std.specs.Prelude.{◌≡◌, [], ◌≤◌, IfOk, IfSome, MatchOption, OnErr, OnOk, Some, None};
ghost use Rattle.ring_types.specs.Gtids.{has};
ghost use Rattle.gtid_set.specs.Canonical.{IsCanonical};
ghost use Rattle.gtid_set.specs.Members.{HasAlso, HasAllBut, HasBoth};
ghost use Rattle.gtid_set.specs.Next.{next_in};

use crate::intervals::have;
use crate::servers::{
    ServerNumbers, are_canonical, copies, greatest_of, kept, numbers_of, put_range, put_sets,
    take_number,
};
use ring_types::{Duplicate, Gtid, Interval, LAST_GTID, Memory, ServerSet};
use std::alloc::Global;
use std::marker::Model;
use thiserror::Error;

/// The server has used the greatest number that a transaction may have.
#[derive(Clone, Copy, Debug, PartialEq, Eq, Error)]
#[error("the server has no next number")]
pub struct Exhausted;

/// A set of GTIDs. Contracts see the one canonical list of servers and intervals that says it.
#[derive(Drop)]
pub struct GtidSet {
    alloc: Global,
    servers: Vec<ServerNumbers>,
}

impl Model for GtidSet {
    ghost use Rattle.std.specs.Prelude.{List};
    ghost use Rattle.ring_types.specs.declared.gtid_sets.ServerSet.{ServerSet};

    ghost Value = { List ServerSet };

    ghost use Rattle.gtid_set.specs.Canonical.{IsCanonical};

    ghost view = { λ s. s.servers.items };

    ghost invariant = { λ s. IsCanonical s.servers.items };
}

impl GtidSet {
    /// The empty set. It takes no memory until a GTID comes.
    pub fn new(alloc: Global) -> GtidSet
        ensures { result ≡ [] }
    {
        GtidSet {
            alloc,
            servers: Vec::new(alloc),
        }
    }

    /// The set of these servers; None if they are not those of a canonical set.
    pub(crate) fn of(alloc: Global, servers: &[ServerSet]) -> Result<Option<GtidSet>, Memory>
        ensures value { IfOk result (λ it. MatchOption it (IsCanonical servers.now → ⊥) (λ set. set ≡ servers.now)) }
        ensures canonical { IfOk result (λ it. IfSome it (λ set. IsCanonical set)) }
    {
        if are_canonical(servers) {
            let servers = kept(alloc, servers)?;
            Ok(Some(GtidSet { alloc, servers }))
        } else {
            Ok(None)
        }
    }

    /// The servers, lent.
    pub(crate) fn servers(&self) -> &[ServerNumbers]
        ensures value { result.now ≡ self.now }
        ensures canonical { IsCanonical self.now }
    {
        self.servers.as_slice()
    }

    /// Whether the set has a GTID. Takes no memory.
    pub fn contains(&self, gtid: Gtid) -> bool
        ensures { result ≡ has self.now gtid.server gtid.number }
    {
        match numbers_of(self.servers.as_slice(), gtid.server) {
            Some(set) => have(set.ends(), gtid.number),
            None => false,
        }
    }

    /// The number after the server's greatest, 1 if it has none. Takes no memory.
    pub fn next_number(&self, server: u128) -> Result<u64, Exhausted>
        ensures ok { IfOk result (λ it. next_in server self.now ≡ Some it) }
        ensures err { OnErr result (next_in server self.now ≡ None) }
    {
        let greatest = greatest_of(self.servers.as_slice(), server);
        if greatest < LAST_GTID {
            Ok(greatest + 1)
        } else {
            Err(Exhausted)
        }
    }

    /// Puts a GTID in. Without memory the set stays as it was.
    pub fn add(&mut self, gtid: Gtid) -> Result<(), Memory>
        requires from_one { 1 ≤ gtid.number }
        requires to_last { gtid.number ≤ LAST_GTID }
        ensures ok { OnOk result (HasAlso self.old gtid.server gtid.number self.new) }
        ensures err { OnErr result (self.new ≡ self.old) }
        ensures canonical { IsCanonical self.new }
    {
        let range = Interval {
            first: gtid.number,
            last: gtid.number,
        };
        put_range(self.alloc, &mut self.servers, gtid.server, range)?;
        Ok(())
    }

    /// Takes a GTID out. Without memory the set stays as it was.
    pub fn remove(&mut self, gtid: Gtid) -> Result<(), Memory>
        ensures ok { OnOk result (HasAllBut self.old gtid.server gtid.number self.new) }
        ensures err { OnErr result (self.new ≡ self.old) }
        ensures canonical { IsCanonical self.new }
    {
        take_number(&mut self.servers, gtid.server, gtid.number)?;
        Ok(())
    }

    /// Puts all GTIDs of another set in. Without memory the set stays as it was.
    pub fn union(&mut self, other: &GtidSet) -> Result<(), Memory>
        ensures ok { OnOk result (HasBoth self.old other.now self.new) }
        ensures err { OnErr result (self.new ≡ self.old) }
        ensures canonical { IsCanonical self.new }
    {
        let mut servers = copies(self.alloc, self.servers.as_slice())?;
        put_sets(self.alloc, &mut servers, other.servers.as_slice())?;
        self.servers = servers;
        Ok(())
    }
}

impl Duplicate for GtidSet {
    fn copy(&self, alloc: Global) -> Result<GtidSet, Memory> {
        let servers = copies(alloc, self.servers.as_slice())?;
        Ok(GtidSet { alloc, servers })
    }
}
