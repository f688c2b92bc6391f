//! A node's engine on its disk: a redo of its actions, and a control file that says where the redo ends.
//!
//! The engine keeps the rows of its tables, the transactions that are prepared, and how many entries of the
//! log it has applied (MySQL's InnoDB, of which a transaction with a binary log is an XA transaction). Four
//! calls change it: [`Engine::prepare`], [`Engine::commit`], [`Engine::roll_back_after`] and
//! [`Engine::drop_pairs`]. Each writes an item behind the end of the redo, syncs it, and then switches the
//! control file `engine.ctl`, which has the number of the redo file and where the redo ends in it. What stands
//! behind that end is no part of the redo. So wherever a crash stops a call, the files stand for the engine
//! from before it or for the one that it makes.
//!
//! A mount ([`Engine::mount`]) does the items of the redo again, each of which has to be possible in its turn.
//! If it meets one that is not, or the file ends first, it names the redo file and the offset of that item
//! ([`EngineFault::Damaged`]); if `engine.ctl` is damaged or its bytes name no end, `engine.ctl` and 0. It
//! changes no byte of the redo.
//!
//! [`law_one_engine`]: one content of a disk stands for at most one engine. [`law_undamaged`]: if it stands
//! for one, it has no fault; [`law_one_fault`]: it has at most one.
#![tactic(auto)]

mod calls;
mod engines;
mod faults;
mod laws;
mod mounting;
mod points;
mod reading;
mod writing;

pub use engines::Engine;
pub use faults::EngineFault;
pub use laws::{law_one_engine, law_one_fault, law_undamaged};
pub use points::RedoPoint;
