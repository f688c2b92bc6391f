//! A control block: at most 32,768 bytes in a file, which are replaced as a whole. Whenever a crash stops
//! a replacement, the file holds the old bytes or the new.
//!
//! The file has two slots of 32,776 bytes each, at 0 and at 32,776, and then one byte 0, which says that
//! they are there. A slot is:
//!
//! | at | bytes | field |
//! |---|---|---|
//! | 0 | 1 | the gate: 1 is open, all else is closed |
//! | 1 | 1 | the tag: 0, 1 or 2 |
//! | 2 | 2 | 0 |
//! | 4 | 4 | the size, least byte first |
//! | 8 | size | the bytes |
//!
//! If one gate is open, that slot wins. If both are, the slot wins whose tag follows the other's; 0
//! follows 2. If neither tag does, or if the size of the winner is above 32,768, the file is damaged. If
//! no gate is open, there are no bytes, nor are there in a file of at most 65,552 bytes, which is not laid
//! out yet.
//!
//! [`ControlBlock::mount`] reads a file. It syncs it first, so that what it reads is what a crash leaves
//! from then on, and lays it out if it is not: 65,552 zeros and a sync, then the last byte and a sync.
//!
//! [`ControlBlock::switch`] writes the slot that does not win, in up to three stages, each a write and a
//! sync:
//!
//! 1. it closes the gate, if it is open;
//! 2. it writes what stands behind the gate, with the tag that follows the winner's;
//! 3. it opens the gate.
//!
//! Through the first two stages the other slot wins whatever a crash leaves of the write: in the first
//! its tag follows, in the second this gate is closed. After the third this tag follows. A gate that is
//! closed already is not written: a crash could leave it open before the slot behind it is whole.
//!
//! A switch that answers `Disk` or `Memory` may be half done, and the block no longer says what the file
//! holds. Let it go and mount the file again.
#![tactic(auto)]

mod blocks;
mod faults;
mod heads;
mod layouts;
mod mounts;
mod slots;
mod stages;
mod switches;

pub use blocks::ControlBlock;
pub use faults::ControlFault;
