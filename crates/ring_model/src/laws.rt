ghost use Rattle.ring_model.specs.Quorums.{CommitMeetsCover, CoversMeet};
ghost use Rattle.ring_model.specs.Needs.{NeedIsLeast};
ghost use Rattle.ring_model.specs.Extremes.{BatchIsLongest, GreatestPasses, TearIsFirst};
ghost use Rattle.ring_model.specs.Safety.{EveryRunCoversLeaders};

/// Where acknowledgements commit a region and votes cover it, a voter is in both.
pub fn law_commit_meets_cover()
    ensures { CommitMeetsCover }
{}

/// Where two lists of votes cover a region, a voter is in both.
pub fn law_covers_meet()
    ensures { CoversMeet }
{}

/// The computed list of needed regions is the least closed set that has the last entry's region and
/// the candidate's own.
pub fn law_need()
    ensures { NeedIsLeast }
{}

/// For each term led from the base of an election on, the region of its leader is needed and covered
/// there.
pub fn law_cover()
    ensures { EveryRunCoversLeaders }
{}

/// The entries that a message takes are the longest prefix of those that are due which has at most so
/// many entries and bytes of groups.
pub fn law_batch()
    ensures { BatchIsLongest }
{}

/// A torn Append names the least position, up to the commit count, at which a term that it sends
/// differs from the log's; without such a position it is not torn.
pub fn law_tear()
    ensures { TearIsFirst }
{}

/// A leader's new commit count is the greatest position above the old one that passes the test, or
/// the old one where none does.
pub fn law_greatest()
    ensures { GreatestPasses }
{}
