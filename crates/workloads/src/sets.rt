use gtid_set::GtidSet;
use ring_types::{Gtid, LAST_GTID, Memory};
use std::alloc::Global;

/// A set of the numbers 1 to `count`, each multiplied by `step` modulo a prime, put in one by one.
/// Answers the number after the greatest.
fn filled(alloc: Global, count: u64, step: u64) -> Result<u64, Memory> {
    let mut set = GtidSet::new(alloc);
    let mut number = 0u64;
    for _ in 0..count {
        number = (number.saturating_add(step)) % 1_000_003;
        let gtid = Gtid {
            server: 7,
            number: number + 1,
        };
        set.add(gtid)?;
    }
    Ok(set.next_number(7).unwrap_or(LAST_GTID))
}

pub fn ascending(alloc: Global, count: u64) -> Result<u64, Memory> {
    filled(alloc, count, 1)
}

/// Each number lies far from the one before.
pub fn scattered(alloc: Global, count: u64) -> Result<u64, Memory> {
    filled(alloc, count, 618_033)
}
