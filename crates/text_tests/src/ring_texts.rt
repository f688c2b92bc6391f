mod builds;
mod refusals;
mod rings;

use ring_file::read_ring;
use std::alloc::{AllocError, Global};
use std::process::Abort;

/// A ring file with two nodes, a client and two tables.
const LINES: [&str; 24] = [
    "version = 1",
    "home = \"east\"",
    "database = \"app\"",
    "regions = [\"east\"]",
    "[[node]]",
    "id = 1",
    "region = \"east\"",
    "kind = \"full\"",
    "uuid = \"3e11fa47-71ca-11e1-9e33-c80aa9429562\"",
    "[[node]]",
    "id = 2",
    "region = \"east\"",
    "kind = \"tailer\"",
    "uuid = \"3e11fa47-71ca-11e1-9e33-c80aa9429563\"",
    "address = \"10.0.0.2:3306\"",
    "[[client]]",
    "id = 65536",
    "address = \"10.0.1.1:9000\"",
    "[[table]]",
    "name = \"t\"",
    "columns = [\"id int\", \"name text 20\"]",
    "[[table]]",
    "name = \"u\"",
    "columns = [\"id int\"]",
];

/// Adds a text in which each `%` stands for the end of a line.
fn add_lines(text: &mut String, lines: &str) -> Result<(), AllocError> {
    for letter in lines.chars() {
        text.push(if letter == '%' { '\n' } else { letter })?;
    }
    Ok(())
}

/// The line of that place, or what stands for it.
fn line_at<'a>(
    index: usize,
    line: &'a str,
    one: (usize, &'a str),
    two: (usize, &'a str),
) -> &'a str {
    if index == one.0 {
        one.1
    } else if index == two.0 {
        two.1
    } else {
        line
    }
}

/// The ring file with two of its lines replaced; a line past the last changes nothing.
fn edited(alloc: Global, one: (usize, &str), two: (usize, &str)) -> Result<String, AllocError> {
    let mut text = String::new(alloc);
    for (index, line) in LINES.iter().enumerate() {
        add_lines(&mut text, line_at(index, line, one, two))?;
        text.push('\n')?;
    }
    Ok(text)
}

/// What a ring file is refused for, in words, or `ring`.
fn answer(alloc: Global, bytes: &[u8]) -> Result<String, AllocError> {
    match read_ring(alloc, bytes) {
        Ok(_) => String::from_str(alloc, "ring"),
        Err(fault) => format!(in alloc; "{fault}"),
    }
}

/// Expects this answer to a file.
fn says(rt: &(impl AllocGlobal + Abort), bytes: &[u8], wanted: &str) {
    let given = answer(rt.alloc(), bytes).expect(rt, "memory");
    assert_eq!(rt; given.as_str(), wanted);
}

/// Expects this answer to a file in which each `%` stands for the end of a line.
fn says_lines(rt: &(impl AllocGlobal + Abort), lines: &str, wanted: &str) {
    let mut text = String::new(rt.alloc());
    add_lines(&mut text, lines).expect(rt, "memory");
    says(rt, text.as_bytes(), wanted);
}

/// Expects this answer to the ring file with two lines replaced.
fn answers(rt: &(impl AllocGlobal + Abort), one: (usize, &str), two: (usize, &str), wanted: &str) {
    let text = edited(rt.alloc(), one, two).expect(rt, "memory");
    says(rt, text.as_bytes(), wanted);
}
