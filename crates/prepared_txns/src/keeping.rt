//! The pairs that pass a test are kept, and the keys of the others are freed.
ghost use Rattle.std.specs.Prelude.{◌≡◌, filter};
ghost use Rattle.std.specs.List.{list_any};
ghost use Rattle.ring_types.specs.Logs as logs;
ghost use Rattle.prepared_txns.specs.Holders.{AreHeld};

use crate::holders::{Holders, release};
use crate::moves::move_down;
use ring_types::{List, Opid, Pair, same_opid};
use std::alloc::Global;

/// A test that tells which pairs are kept.
pub(crate) trait Keeping {
    ghost use Rattle.std.specs.Prelude.{Bool};
    ghost use Rattle.ring_types.specs.declared.entries.Pair.{Pair};

    ghost keeps: { Self → Pair → Bool };

    fn keeps(&self, pair: &Pair) -> bool
        ensures { result ≡ keeps self.now pair.now };
}

/// Keeps the pairs at positions up to this one.
#[derive(Drop)]
pub(crate) struct UpTo {
    pub(crate) position: u64,
}

impl Keeping for UpTo {
    ghost use Rattle.std.specs.Prelude.{nat_le};

    ghost keeps = { λ u p. nat_le p.opid.position u.position };

    fn keeps(&self, pair: &Pair) -> bool {
        pair.opid.position <= self.position
    }
}

fn is_among(opid: Opid, opids: &[Opid]) -> bool
    ensures { result ≡ list_any (logs.same_opid opid) opids.now }
{
    opids.iter().any(|other| same_opid(opid, *other))
}

/// Keeps the pairs of all opids but these.
#[derive(Drop)]
pub(crate) struct Without<'a> {
    pub(crate) opids: &'a [Opid],
}

impl<'a> Keeping for Without<'a> {
    ghost use Rattle.std.specs.Prelude.{not};
    ghost use Rattle.std.specs.List.{list_any};
    ghost use Rattle.ring_types.specs.Logs.{same_opid};

    ghost keeps = { λ w p. not (list_any (same_opid p.opid) w.opids.now) };

    fn keeps(&self, pair: &Pair) -> bool {
        !is_among(pair.opid, self.opids)
    }
}

/// Keeps the pairs that pass, in order, and frees the keys of the others. It takes no memory.
pub(crate) fn keep_those<K: Keeping>(
    alloc: Global,
    pairs: &mut List<Pair>,
    holders: &mut Holders,
    test: &K,
)
    requires { AreHeld pairs.old holders.old }
    ensures kept { pairs.new ≡ filter (K.keeps test.now) pairs.old }
    ensures held { AreHeld pairs.new holders.new }
{
    let mut kept = 0;
    let mut at = 0;
    while at < pairs.len() {
        let pair = &pairs.as_slice()[at];
        if test.keeps(pair) {
            move_down(alloc, pairs, at, kept);
            kept += 1;
        } else {
            release(holders, pair);
        }
        at += 1;
    }
    pairs.truncate(kept as u64);
}
