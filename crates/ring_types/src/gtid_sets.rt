use crate::duplication::{Duplicate, Memory};
use crate::lists::List;
use std::alloc::Global;

/// Some successive numbers of one server's transactions; both ends are among them.
#[derive(Clone, Copy, Debug, PartialEq, Eq)]
pub struct Interval {
    pub first: u64,
    pub last: u64,
}

/// The transactions of one server in a GTID set, as ascending intervals of which none touches the
/// next (the MySQL manual).
#[derive(Debug, PartialEq, Eq, Drop)]
pub struct ServerSet {
    pub server: u128,
    pub intervals: List<Interval>,
}

impl Duplicate for Interval {
    fn copy(&self, _alloc: Global) -> Result<Interval, Memory> {
        Ok(*self)
    }
}

impl Duplicate for ServerSet {
    fn copy(&self, alloc: Global) -> Result<ServerSet, Memory> {
        Ok(ServerSet {
            server: self.server,
            intervals: self.intervals.copy(alloc)?,
        })
    }
}
