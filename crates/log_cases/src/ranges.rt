//! Lines of cases: those that follow one another and find the same share a line.
use ring_types::Memory;
use std::alloc::Global;

/// The lines of cases that differ in one word.
#[derive(Drop)]
pub struct Ranges<'a> {
    alloc: Global,
    text: String,
    /// What stands in front of that word on each line, and behind it.
    head: &'a str,
    tail: &'a str,
    /// The word of the first case and of the last one of those that share the next line.
    first: String,
    last: String,
    /// What they all found; there are none of them where it is empty.
    found: String,
}

impl<'a> Ranges<'a> {
    pub fn new(alloc: Global, head: &'a str, tail: &'a str) -> Ranges<'a> {
        Ranges {
            alloc,
            text: String::new(alloc),
            head,
            tail,
            first: String::new(alloc),
            last: String::new(alloc),
            found: String::new(alloc),
        }
    }

    /// Puts the line of the cases so far that share one.
    fn close(&mut self) -> Result<(), Memory> {
        if self.found.is_empty() {
            return Ok(());
        }
        self.text.push_str(self.head)?;
        self.text.push_str(self.first.as_str())?;
        if self.first.as_str() != self.last.as_str() {
            self.text.push_str("..")?;
            self.text.push_str(self.last.as_str())?;
        }
        self.text.push_str(self.tail)?;
        self.text.push_str(": ")?;
        self.text.push_str(self.found.as_str())?;
        self.text.push_str("\n")?;
        Ok(())
    }

    /// Adds a case.
    pub fn add(&mut self, word: String, found: String) -> Result<(), Memory> {
        if self.found.as_str() != found.as_str() {
            self.close()?;
            self.first.clear();
            self.first.push_str(word.as_str())?;
            self.found = found;
        }
        self.last = word;
        Ok(())
    }

    /// The lines.
    pub fn into_text(self) -> Result<String, Memory> {
        let mut ranges = self;
        ranges.close()?;
        let Ranges { text, .. } = ranges;
        Ok(text)
    }
}
