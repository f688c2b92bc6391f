//! A node's log on its disk: binary log files, and a control file that says where the log ends.
//!
//! The files are those that `entry_group` makes of a log: each a head and the groups of its entries. The
//! control file `log.ctl` has the length of the log, the number of its last file, where the log ends in
//! that file, and the greatest number that a last file had. What stands behind that end, or in files above,
//! is no part of the log. So an append writes its bytes there, syncs them, and then switches the control
//! file ([`BinlogStore::append`]); a truncation switches first and cuts afterwards
//! ([`BinlogStore::truncate`]). Wherever a crash stops them, the files stand for the old log or the new.
//!
//! A mount ([`BinlogStore::mount`]) reads the log up to that end and cuts off what stands behind it, so it
//! does again what a stopped truncation left. If it comes to no log it names a file and an offset
//! ([`StoreFault::Damaged`]): behind the longest log whose files they begin with, the first event with which
//! no log goes on, or the group that the log's end leaves unfinished. Of `log.ctl` the offset is 0: its own
//! bytes are at fault, or they name another length, or an end within a head or behind a Rotate. Of files that
//! are damaged a mount leaves the binary log files' bytes as they were, whatever it answers. At each moment of
//! it a crash leaves files that read, as far as the control file says, like some that it might have left
//! before: the same log, the same damage, or, after an append that failed, still the old log or the new. So a
//! mount may be tried again.
//!
//! Beside the entries the store keeps the end of the log in memory: its GTID set, and where the next entry
//! begins. A truncation makes the end anew from the entries that stay, in time that grows with their number,
//! and with the bytes of the set at each Rotate among them.
//!
//! [`law_one_log`]: one content of a disk stands for at most one log. [`law_undamaged`]: if it stands for one,
//! it has no fault; [`law_one_fault`]: it has at most one. [`law_files_go_on`]: the files of a longer log are
//! those of the log, continued. [`law_end`]: the next entry begins where they end. [`law_of_log`]: contents that
//! read alike stand for one log, or have one fault.
#![tactic(auto)]

mod endings;
mod ends;
mod faults;
mod files;
mod heads;
mod held;
mod laws;
mod log_sets;
mod mounting;
mod one_file;
mod points;
mod reading;
mod stores;

pub use faults::StoreFault;
pub use laws::{law_end, law_files_go_on, law_of_log, law_one_fault, law_one_log, law_undamaged};
pub use points::LogPoint;
pub use stores::BinlogStore;
