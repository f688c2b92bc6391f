ghost use Rattle.std.specs.Prelude.{◌≡◌, ◌≤◌};
ghost use Rattle.std.specs.Option.{option_copied};
ghost use Rattle.control_block.specs.Blocks.{place_of, turned};

use crate::slots::tag_after;
use edge_traits::FileId;
use ring_types::List;
use std::alloc::Global;

/// What a control file holds, and how its next switch writes it. It stands for one file of one disk, from
/// its mount to the first switch that fails otherwise than by [`TooLong`](crate::ControlFault::TooLong).
#[derive(Drop)]
pub struct ControlBlock {
    pub(crate) alloc: Global,
    pub(crate) file: FileId,
    pub(crate) bytes: Option<List<u8>>,
    /// Whether the next switch writes the second slot.
    pub(crate) second: bool,
    /// Whether the gate of that slot is open.
    pub(crate) open_gate: bool,
    /// The tag that the slot gets.
    pub(crate) tag: u8,
}

impl ControlBlock {
    /// The bytes that the file holds, if a switch ever gave it some.
    pub fn get(&self) -> Option<&List<u8>>
        ensures { option_copied result ≡ self.now.bytes }
    {
        self.bytes.as_ref()
    }

    /// Where the slot begins that the next switch writes.
    pub(crate) fn place(&self) -> u64
        ensures place { result ≡ place_of self.now.second }
        ensures within { result ≤ 32776 }
    {
        if self.second { 32776 } else { 0 }
    }

    /// The slot that was written has won: the next switch writes the other one.
    pub(crate) fn turn(&mut self, held: List<u8>)
        ensures { self.new ≡ turned self.old held }
    {
        self.open_gate = self.bytes.is_some();
        self.bytes = Some(held);
        self.second = !self.second;
        self.tag = tag_after(self.tag);
    }
}
