ghost use Rattle.gtid_set.specs.Laws.{HasExactlyThem, IsCanonicalOfAny, OneSetHasThem, GrowsWithLog};
ghost use Rattle.gtid_set.specs.Next.{NextIsNext};

/// The set of some GTIDs has exactly them.
pub fn law_has()
    ensures { HasExactlyThem }
{}

/// The set of some GTIDs is canonical if their numbers and servers are in range.
pub fn law_canonical()
    ensures { IsCanonicalOfAny }
{}

/// Two canonical sets with the same members are one.
pub fn law_one_set()
    ensures { OneSetHasThem }
{}

/// The next number of a server is that after the greatest of its numbers in the log.
pub fn law_next()
    ensures { NextIsNext }
{}

/// A log's set, grown by the next transaction's GTID, is the set of the longer log.
pub fn law_grows()
    ensures { GrowsWithLog }
{}
