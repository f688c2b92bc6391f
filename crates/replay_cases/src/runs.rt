use crate::cases::{Case, fetch, has_both_files, outcome, path};
use crate::differences::{Difference, first_difference};
use crate::lists::{Line, read_line};
use crate::outcomes::Outcome;
use ring_types::List;
use std::{fs, io};

/// What is to be done where a case does not come out as it is written.
#[derive(Clone, Copy, PartialEq, Eq)]
pub enum Order {
    /// The difference is told.
    Compare,
    /// What came is written in its place.
    Rewrite,
}

/// A run through a list.
#[derive(Drop)]
pub struct Run<'a> {
    rt: &'a HostRuntime,
    order: Order,
    /// The cases so far.
    names: Vec<String>,
    /// Whether each case so far came out as it is written.
    is_as_written: bool,
}

impl<'a> Run<'a> {
    pub fn new(rt: &'a HostRuntime, order: Order) -> Run<'a> {
        Run {
            rt,
            order,
            names: Vec::new(rt.alloc()),
            is_as_written: true,
        }
    }

    /// Goes through the list of this name. Answers whether all came out as it is written.
    pub fn all(mut self, list: &str) -> io::Result<bool> {
        let rt = self.rt;
        let Some(bytes) = fetch(rt, String::from_str(rt.alloc(), list)?)? else {
            self.tell(list, "there is no such list")?;
            return Ok(false);
        };
        let lines = String::from_utf8_lossy(rt.alloc(), bytes.as_slice())?;
        for line in lines.lines() {
            match read_line(line) {
                Line::Nothing => {}
                Line::Heading(heading) => println!(rt; "{heading}")?,
                Line::Case(case) => self.take(case)?,
                Line::Unreadable => self.tell(line, "neither a case nor a heading")?,
            }
        }
        Ok(self.is_as_written)
    }

    /// Says what is not as it is written.
    fn tell(&mut self, name: &str, words: &str) -> io::Result<()> {
        self.is_as_written = false;
        println!(self.rt; "{name}: {words}")
    }

    /// Notes the name. Answers whether it is a new one.
    fn is_new(&mut self, name: &str) -> io::Result<bool> {
        if self.names.iter().any(|known| known.as_str() == name) {
            return Ok(false);
        }
        self.names.push(String::from_str(self.rt.alloc(), name)?)?;
        Ok(true)
    }

    fn take(&mut self, case: Case<'_>) -> io::Result<()> {
        if !self.is_new(case.name)? {
            return self.tell(case.name, "listed twice");
        }
        if has_both_files(self.rt, case)? {
            return self.tell(case.name, "has both a report and a refusal");
        }
        let came = outcome(self.rt, case)?;
        let path = path(self.rt.alloc(), case, came.file)?;
        match fetch(self.rt, path)? {
            Some(wanted) if wanted == came.text => self.agree(case),
            Some(_) if self.order == Order::Rewrite => self.rewrite(case, came),
            Some(wanted) => self.differ(case, wanted, came),
            None => self.surprise(case, came),
        }
    }

    fn agree(&self, case: Case<'_>) -> io::Result<()> {
        let name = case.name;
        println!(self.rt; "{name}: as written")
    }

    fn rewrite(&mut self, case: Case<'_>, came: Outcome) -> io::Result<()> {
        let path = path(self.rt.alloc(), case, came.file)?;
        fs::write(self.rt, path.as_str(), came.text.as_slice())?;
        self.tell(case.name, "written anew")
    }

    /// Prints the first line in which the case differs.
    fn differ(&mut self, case: Case<'_>, wanted: List<u8>, came: Outcome) -> io::Result<()> {
        let rt = self.rt;
        let file = came.file;
        let wanted = String::from_utf8_lossy(rt.alloc(), wanted.as_slice())?;
        let came = String::from_utf8_lossy(rt.alloc(), came.text.as_slice())?;
        self.tell(case.name, "DIFFERS")?;
        match first_difference(wanted.as_str(), came.as_str()) {
            Some(Difference { line, wanted, came }) => {
                println!(rt; "  line {line} of {file}")?;
                println!(rt; "  wanted: {wanted}")?;
                println!(rt; "  came:   {came}")
            }
            None => println!(rt; "  {file} differs in bytes that are no UTF-8"),
        }
    }

    /// Prints how the outcome begins of a case that has no file for it: it was to end otherwise.
    fn surprise(&mut self, case: Case<'_>, came: Outcome) -> io::Result<()> {
        let rt = self.rt;
        let file = came.file;
        let came = String::from_utf8_lossy(rt.alloc(), came.text.as_slice())?;
        self.tell(case.name, "DIFFERS")?;
        println!(rt; "  there is no {file}")?;
        for line in came.lines().take(2) {
            println!(rt; "  came:   {line}")?;
        }
        Ok(())
    }
}
