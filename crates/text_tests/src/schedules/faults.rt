//! Bad lines: which is the first, and why it is none.
use super::{at, count, fault};
use ring_model::{Event, Input, Line};
use ring_types::{List, NodeId};
use schedule_text::{ScheduleError, read_schedule};
use std::process::Abort;

/// Lines without form.
const BAD: &str = "elect 01
elect 00
elect
elect 
elect x
elect +1
elect -1
elect 1 
 elect 1
elect  1
elect\t1
Elect 1
elected 1
elect 1 2
elect 4294967296
elect 18446744073709551617
elect 1; elect 2
elect 1;
elect '1'
 
 # comment
deliver
deliver 01
deliver 18446744073709551616
transfer 1
transfer 1 02
transfer 1 4294967296
transfer 1 2 3
crash 1 stop 1 none
crash 1 fail 1
crash 1 2
elect 1 stop 0 none
elect 1 fail 0
elect 1 stop 1
elect 1 stop 1 some
elect 1 stop 1 none 1
elect 1 stop 01 none
elect 1 fail 1 none
elect 1 fail 1 fail 1
elect 1 fail
elect 1 halt 1
next 1 fail 18446744073709551616
write 1
write 1 insert
write 1 insert t
write 1 insert t fail 1
write 1 insert t- 1
write 1 insert 't' 1
write 1 put t 1
write 1 insert t 1;
write 1 insert t 1;insert t 2
write 1 insert t 1 ; insert t 2
write 1 insert t 1;  insert t 2
write 1 insert t 1 fail 1; insert t 2
write 1 delete t 1 2
write 1 delete t
write 1 insert t -0
write 1 insert t 01
write 1 insert t 9223372036854775808
write 1 insert t -9223372036854775809
write 1 insert t NULL
write 1 insert t 'a
write 1 insert t 'a'b
write 1 insert t 'a\\x41'
write 1 insert t '\\x5C'
write 1 insert t '\\x5'
write 1 insert t '\u{1}'
";

/// Expects this line of the text to be the first bad one, for this reason: 1 at its end, 2 elsewhere.
fn is_bad(rt: &(impl AllocGlobal + Abort), text: &[u8], line: u64, why: u8) {
    let found = fault(rt.alloc(), text);
    assert!(rt;
        found == Some(ScheduleError::BadLine { line, why }),
        "{line} {why}"
    );
}

/// Expects the line to have no form.
fn has_no_form(rt: &(impl AllocGlobal + Abort), line: &str) {
    let text = format!(in rt.alloc(); "{line}\n").expect(rt, "memory");
    is_bad(rt, text.as_bytes(), 1, 2);
}

#[test]
fn bad_lines(rt: HostRuntime) {
    for line in BAD.lines() {
        has_no_form(&rt, line);
    }
    has_no_form(&rt, "elect 1\r");
}

/// The first bad line is named, with its cause.
#[test]
fn first_fault(rt: HostRuntime) {
    is_bad(&rt, b"elect 1", 1, 1);
    is_bad(&rt, b"#", 1, 1);
    is_bad(&rt, b"elect 01", 1, 1);
    is_bad(&rt, b"elect 1\nbeat 1", 2, 1);
    is_bad(&rt, b"elect 1\nbeat", 2, 1);
    is_bad(&rt, b"\n#\nbeat\nelect 1\n", 3, 2);
    is_bad(&rt, b"elect 01\nbeat 01\n", 1, 2);
    is_bad(&rt, b"elect 1\nbeat 01\nrotate 01\nelect 1", 2, 2);
}

#[test]
fn bytes_that_are_no_text(rt: HostRuntime) {
    is_bad(&rt, b"# \xff\n", 1, 2);
    is_bad(&rt, b"elect 1\nwrite 1 insert t '\xff'\n", 2, 2);
    is_bad(&rt, b"\xff", 1, 1);
}

fn event(line: u64, what: Line) -> Event {
    Event {
        line,
        what,
        cut: None,
    }
}

fn events(rt: &(impl AllocGlobal + Abort), text: &str) -> List<Event> {
    read_schedule(rt.alloc(), text.as_bytes()).expect(rt, "a schedule")
}

/// Empty lines and comments stand for no event, and count as lines.
#[test]
fn silent_lines(rt: HostRuntime) {
    assert!(rt; count(rt.alloc(), "") == Some(0));
    assert!(rt; count(rt.alloc(), "\n\n#\n# elect 1\n#elect 1 \n") == Some(0));
    let found = events(&rt, "# two\nelect 1\n\nnext 2\n");
    let wanted = [
        event(2, at(1, Input::Elect)),
        event(4, Line::Next(NodeId(2))),
    ];
    assert!(rt; found.as_slice() == wanted.as_slice());
}
