//! A file of the log with bytes cut off, added or changed.
use crate::disks::{find, name_end, point_bytes, with_end, write_file};
use crate::files::file;
use crate::ranges::Ranges;
use binlog_store::{LogPoint, StoreFault};
use disk_memory::MemoryDisk;
use ring_types::{Ring, first_of};
use std::alloc::Global;

/// The bits of a byte, the lowest first.
const BITS: [u8; 8] = [1, 2, 4, 8, 16, 32, 64, 128];

/// Where the log of row 1 ends: a NoOp and an insert.
const ROW_ONE: LogPoint = LogPoint {
    count: 2,
    file: 1,
    end: 471,
    highest: 1,
};

/// A file of a disk that is damaged again and again.
#[derive(Drop)]
pub struct Target<'a> {
    alloc: Global,
    ring: &'a Ring,
    disk: MemoryDisk,
    number: u32,
    bytes: Vec<u8>,
}

impl<'a> Target<'a> {
    /// A file of the log that ends at this point.
    pub fn new(
        alloc: Global,
        ring: &'a Ring,
        point: LogPoint,
        number: u32,
    ) -> Result<Target<'a>, StoreFault> {
        Ok(Target {
            alloc,
            ring,
            disk: with_end(alloc, ring, point)?,
            number,
            bytes: file(alloc, ring, number)?,
        })
    }

    /// The one file of the log of row 1.
    pub fn row_one(alloc: Global, ring: &'a Ring) -> Result<Target<'a>, StoreFault> {
        let mut disk = MemoryDisk::new(alloc);
        let point = point_bytes(alloc, ROW_ONE)?;
        name_end(alloc, &mut disk, point.as_slice())?;
        let mut bytes = file(alloc, ring, 1)?;
        bytes.truncate(471);
        Ok(Target {
            alloc,
            ring,
            disk,
            number: 1,
            bytes,
        })
    }

    /// What is found where the file has the first `length` of its bytes.
    fn found(&mut self, length: u64) -> Result<String, StoreFault> {
        let bytes = first_of(self.bytes.as_slice(), length);
        write_file(&mut self.disk, self.number, bytes)?;
        find(self.alloc, self.ring, &mut self.disk)
    }

    /// Changes a bit of a byte.
    fn flip(&mut self, at: usize, bit: u8) {
        if let Some(byte) = self.bytes.get_mut(at) {
            *byte ^= bit;
        }
    }

    /// Adds the cases in which one bit of a byte is changed.
    fn add_byte(&mut self, lines: &mut Ranges, at: usize) -> Result<(), StoreFault> {
        for (place, bit) in BITS.iter().enumerate() {
            self.flip(at, *bit);
            let found = self.found(u64::MAX)?;
            lines.add(format!(in self.alloc; "{at}.{place}")?, found)?;
            self.flip(at, *bit);
        }
        Ok(())
    }

    /// The lines of the cases in which one bit is changed, from one offset up to another.
    pub fn flips(&mut self, head: &str, from: usize, end: usize) -> Result<String, StoreFault> {
        let number = self.number;
        let head = format!(in self.alloc; "{head}flip binlog.{number:06} ")?;
        let mut lines = Ranges::new(self.alloc, head.as_str(), "");
        for at in from..end {
            self.add_byte(&mut lines, at)?;
        }
        Ok(lines.into_text()?)
    }

    /// The lines of the cases in which the file is cut off, from this length to its length but 1.
    pub fn cuts(&mut self, head: &str, from: u64) -> Result<String, StoreFault> {
        let number = self.number;
        let head = format!(in self.alloc; "{head}cut binlog.{number:06} to ")?;
        let mut lines = Ranges::new(self.alloc, head.as_str(), "");
        for length in from..self.bytes.len() as u64 {
            let found = self.found(length)?;
            lines.add(format!(in self.alloc; "{length}")?, found)?;
        }
        Ok(lines.into_text()?)
    }

    /// The lines of the cases in which bytes are added, at first one, and fewer than `end` at last.
    pub fn additions(&mut self, head: &str, end: u64) -> Result<String, StoreFault> {
        let number = self.number;
        let head = format!(in self.alloc; "{head}add to binlog.{number:06} ")?;
        let mut lines = Ranges::new(self.alloc, head.as_str(), " bytes");
        for count in 1..end {
            self.bytes.push(255)?;
            let found = self.found(u64::MAX)?;
            lines.add(format!(in self.alloc; "{count}")?, found)?;
        }
        Ok(lines.into_text()?)
    }
}
