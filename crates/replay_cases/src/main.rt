//! The worked cases: each is a ring and a schedule with what `myraft replay` is to print of them, worked
//! out by hand from the rules. The program runs the cases of a list over real files and says of each
//! whether it came out as it is written; at the first line that differs it says what was wanted.
//!
//! A list has a heading in brackets for each group, and a line `NAME RING` for each case. The case is
//! the folder NAME, with `schedule.txt` and one of two files: `report.txt`, what is printed at status 0,
//! or `refused.txt`, any other status in its first line, and under it the line on standard error. Its
//! ring is `rings/RING.toml`. The head of a schedule says what the case shows, and what a wrong body
//! would print.
//!
//! `replay_cases LIST` compares. `replay_cases rewrite LIST` writes what came in the place of what was
//! written, but not where a report was written and a refusal came, or the other way round. It is for a
//! change of the report's format alone: after `rt run`, which leaves the program in `out/`, call it in
//! `data/` as `../out/replay_cases`. Commit only what you can explain.
#![tactic(auto)]

mod cases;
mod differences;
mod lists;
mod outcomes;
mod runs;

use runs::{Order, Run};
use std::io;
use std::process::ExitCode;

/// What the words order, and the list that they name.
fn order_of(words: &[String]) -> Option<(Order, &str)> {
    match words {
        [list] => Some((Order::Compare, list.as_str())),
        [word, list] if word.as_str() == "rewrite" => Some((Order::Rewrite, list.as_str())),
        _ => None,
    }
}

fn main(rt: HostRuntime) -> io::Result<ExitCode> {
    let mut words = std::env::args(&rt)?;
    let _name = words.next();
    let words: Vec<String> = words.collect(rt.alloc())?;
    let Some((order, list)) = order_of(words.as_slice()) else {
        println!(rt; "replay_cases LIST, or replay_cases rewrite LIST")?;
        return Ok(ExitCode::from(2));
    };
    if Run::new(&rt, order).all(list)? {
        return Ok(ExitCode::SUCCESS);
    }
    Ok(ExitCode::FAILURE)
}
