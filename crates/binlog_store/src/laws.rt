ghost use Rattle.binlog_store.specs.Added.{FilesGoOn};
ghost use Rattle.binlog_store.specs.Laws.{AreOfLog, NextBeginsAtTheEnd, OneFaultAtMost, OneLogAtMost, StandsUndamaged};

/// A content of a disk stands for one log at most.
pub fn law_one_log()
    ensures { OneLogAtMost }
{}

/// The files of a longer log are those of the log, and the last of them goes on with what the further
/// entries add.
pub fn law_files_go_on()
    ensures { FilesGoOn }
{}

/// The entry behind a log begins in the last of its files, behind the bytes of it; offsets have 64 bits, and
/// go on from 0 behind the last one.
pub fn law_end()
    ensures { NextBeginsAtTheEnd }
{}

/// A content that stands for a log is not damaged.
pub fn law_undamaged()
    ensures { StandsUndamaged }
{}

/// A content is damaged in one file at most, at one offset.
pub fn law_one_fault()
    ensures { OneFaultAtMost }
{}

/// Contents that read alike stand for the same log, and are damaged in the same file at the same offset. So
/// what a mount leaves at each moment, by its clause `crash`, is the log or the damage that the disk held.
pub fn law_of_log()
    ensures { AreOfLog }
{}
