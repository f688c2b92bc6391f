//! The program `myraft`: `myraft replay RING SCHEDULE` runs a ring through a schedule and prints the
//! report of its world.
#![tactic(auto)]

use edge_std::{FileShelf, StdSink};
use edge_traits::Sink;
use myraft_run::{Status, run};
use std::io;
use std::process::ExitCode;

/// The words after the program's name.
fn words(rt: &HostRuntime) -> io::Result<Vec<String>> {
    let mut words = std::env::args(rt)?;
    let _name = words.next();
    Ok(words.collect(rt.alloc())?)
}

/// Runs the program on these words. Words that cannot be read, as those that are not UTF-8, are no form
/// of a command, as no words are.
fn status(rt: &HostRuntime, words: io::Result<Vec<String>>) -> Status {
    let mut shelf = FileShelf::new(rt.alloc(), rt);
    let mut out = StdSink::new(rt.stdout());
    let mut err = StdSink::new(rt.stderr());
    match words {
        Ok(words) => run(rt.alloc(), &words, &mut shelf, &mut out, &mut err),
        Err(error) => {
            if matches!(error.kind(), io::ErrorKind::OutOfMemory) {
                let _ = err.put(b"myraft: out of memory\n");
                return Status(13);
            }
            let none = Vec::new(rt.alloc());
            run(rt.alloc(), &none, &mut shelf, &mut out, &mut err)
        }
    }
}

fn main(rt: HostRuntime) -> ExitCode {
    let words = words(&rt);
    ExitCode::from(status(&rt, words).0)
}
