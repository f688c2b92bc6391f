//! Pairs that move down in their list. A list lends no item to be moved out, so a blank pair stands
//! in for one that is on its way.
ghost use Rattle.std.specs.Prelude.{◌≡◌, ◌<◌, ◌≤◌, drop, length, slice_get};
ghost use Rattle.prepared_txns.specs.Moves.{MovesDown};

use ring_types::{Gtid, List, Opid, Pair, Txn};
use std::alloc::Global;

/// A pair without changes. It takes no memory.
fn blank(alloc: Global) -> Pair
    ensures { length result.txn.changes ≡ 0 }
{
    Pair {
        opid: Opid {
            term: 0,
            position: 0,
        },
        txn: Txn {
            gtid: Gtid {
                server: 0,
                number: 0,
            },
            changes: List::new(alloc),
        },
    }
}

/// Moves a pair down to a place whose pair is no longer wanted.
pub(crate) fn move_down(alloc: Global, pairs: &mut List<Pair>, from: usize, to: usize)
    requires within { from < length pairs.old }
    requires down { to ≤ from }
    ensures { MovesDown from to pairs.old pairs.new }
{
    let pair = pairs.replace(from, blank(alloc));
    pairs.replace(to, pair);
}

fn close_up(alloc: Global, pairs: &mut List<Pair>)
    requires { 1 ≤ length pairs.old }
    ensures { pairs.new ≡ drop 1 pairs.old }
{
    let last = pairs.len() - 1;
    let mut at = 0;
    while at < last {
        move_down(alloc, pairs, at + 1, at);
        at += 1;
    }
    pairs.truncate(last as u64);
}

/// Takes the first pair out, and moves the others down.
pub(crate) fn take_first(alloc: Global, pairs: &mut List<Pair>) -> Option<Pair>
    ensures taken { result ≡ slice_get pairs.old 0 }
    ensures rest { pairs.new ≡ drop 1 pairs.old }
{
    if pairs.is_empty() {
        return None;
    }
    let front = pairs.replace(0, blank(alloc));
    close_up(alloc, pairs);
    Some(front)
}
