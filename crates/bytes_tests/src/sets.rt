//! GTID sets: bytes, text, and what calls make of them.
ghost use Rattle.std.specs.Prelude.{◌≡◌};

use gtid_set::{Exhausted, GtidSet, SetError};
use ring_types::{Duplicate, Gtid, LAST_GTID};
use std::process::Abort;

const SERVER: u128 = 0x3e11fa47_71ca_11e1_9e33_c80aa9429562;

/// A set of one server, for which `%` stands.
const TEXT: &str = "%:1-3:5";

/// The bytes of that set, by hand from MySQL's layout.
const BYTES: [u8; 64] = [
    0x01, 0, 0, 0, 0, 0, 0, 0, 0x3e, 0x11, 0xfa, 0x47, 0x71, 0xca, 0x11, 0xe1, 0x9e, 0x33, 0xc8,
    0x0a, 0xa9, 0x42, 0x95, 0x62, 0x02, 0, 0, 0, 0, 0, 0, 0, 0x01, 0, 0, 0, 0, 0, 0, 0, 0x04, 0, 0,
    0, 0, 0, 0, 0, 0x05, 0, 0, 0, 0, 0, 0, 0, 0x06, 0, 0, 0, 0, 0, 0, 0,
];

fn gtid(number: u64) -> Gtid
    ensures { result.number ≡ number }
{
    Gtid {
        server: SERVER,
        number,
    }
}

/// Expects the text of a set, in which `%` stands for the server.
fn prints(rt: &(impl AllocGlobal + Abort), set: &GtidSet, want: &str) {
    let text = set.to_text(rt.alloc()).expect(rt, "memory");
    assert_eq!(rt; text.as_str(), spelled(rt, want).as_str());
}

const UUID: &str = "3e11fa47-71ca-11e1-9e33-c80aa9429562";

/// A text in which `%` stands for the server.
fn spelled(rt: &(impl AllocGlobal + Abort), short: &str) -> String {
    let mut text = String::new(rt.alloc());
    for letter in short.chars() {
        if letter == '%' {
            text.push_str(UUID).expect(rt, "memory");
        } else {
            text.push(letter).expect(rt, "memory");
        }
    }
    text
}

/// The set of a text in which `%` stands for the server.
fn set_of(rt: &(impl AllocGlobal + Abort), short: &str) -> GtidSet {
    GtidSet::parse(rt.alloc(), spelled(rt, short).as_str()).expect(rt, "a set")
}

/// Expects a text in which `%` stands for the server to be no set.
fn is_no_text(rt: &(impl AllocGlobal + Abort), short: &str) {
    let refused = GtidSet::parse(rt.alloc(), spelled(rt, short).as_str()).err();
    assert_eq!(rt; refused, Some(SetError::NotText), "{short}");
}

fn is_no_set(rt: &(impl AllocGlobal + Abort), bytes: &[u8]) {
    let refused = GtidSet::from_bytes(rt.alloc(), bytes).err();
    assert_eq!(rt; refused, Some(SetError::NotASet));
}

/// Expects the bytes of a set.
fn has_bytes(rt: &(impl AllocGlobal + Abort), set: &GtidSet, want: &[u8]) {
    let bytes = set.to_bytes(rt.alloc()).expect(rt, "memory");
    assert_eq!(rt; bytes.as_slice(), want);
}

#[test]
fn a_set_has_one_text_and_one_list_of_bytes(rt: HostRuntime) {
    has_bytes(&rt, &set_of(&rt, TEXT), BYTES.as_slice());
    let again = GtidSet::from_bytes(rt.alloc(), BYTES.as_slice()).expect(&rt, "a set");
    prints(&rt, &again, TEXT);
}

#[test]
fn an_empty_set_has_no_text_and_a_count_of_zero(rt: HostRuntime) {
    let set = set_of(&rt, "");
    prints(&rt, &set, "");
    has_bytes(&rt, &set, [0u8; 8].as_slice());
    assert_eq!(rt; GtidSet::new(rt.alloc()).next_number(SERVER), Ok(1));
}

#[test]
fn numbers_join_and_part_intervals(rt: HostRuntime) {
    let mut set = set_of(&rt, TEXT);
    set.add(gtid(4)).expect(&rt, "memory");
    prints(&rt, &set, "%:1-5");
    set.remove(gtid(3)).expect(&rt, "memory");
    prints(&rt, &set, "%:1-2:4-5");
    assert!(rt; set.contains(gtid(2)));
    assert!(rt; !set.contains(gtid(3)));
}

#[test]
fn a_union_joins_intervals(rt: HostRuntime) {
    let mut set = set_of(&rt, "%:1-2:4-5");
    set.union(&set_of(&rt, "%:3")).expect(&rt, "memory");
    prints(&rt, &set.copy(rt.alloc()).expect(&rt, "memory"), "%:1-5");
    assert_eq!(rt; set.next_number(SERVER), Ok(6));
    assert_eq!(rt; set.next_number(SERVER + 1), Ok(1));
}

#[test]
fn a_server_goes_with_its_last_number(rt: HostRuntime) {
    let mut set = GtidSet::new(rt.alloc());
    set.add(gtid(LAST_GTID)).expect(&rt, "memory");
    prints(&rt, &set, "%:9223372036854775806");
    assert_eq!(rt; set.next_number(SERVER), Err(Exhausted));
    set.remove(gtid(LAST_GTID)).expect(&rt, "memory");
    prints(&rt, &set, "");
}

/// Spellings of no set; `%` stands for the server.
const NO_TEXT: &str = "%
%:1-1
%:3-1
%:1-3:2-5
%:1-2:3
%:0-3
%:01
%:+1
%:1-9223372036854775807
%:1,
3E11FA47-71CA-11E1-9E33-C80AA9429562:1-3:5
3e11fa4771ca11e19e33c80aa9429562:1-3:5
";

#[test]
fn other_spellings_are_refused(rt: HostRuntime) {
    for text in NO_TEXT.lines() {
        is_no_text(&rt, text);
    }
    is_no_text(&rt, "\n");
}

#[test]
fn one_line_feed_may_stand_behind_a_comma(rt: HostRuntime) {
    let first = "00000000-0000-0000-0000-00000000000a:7";
    let spaced = format!(in rt.alloc(); "{first},\n%:1-3:5").expect(&rt, "memory");
    let plain = format!(in rt.alloc(); "{first},%:1-3:5").expect(&rt, "memory");
    prints(&rt, &set_of(&rt, spaced.as_str()), plain.as_str());
    let twice = format!(in rt.alloc(); "{first},\n\n%:1-3:5").expect(&rt, "memory");
    is_no_text(&rt, twice.as_str());
    let disordered = format!(in rt.alloc(); "%:1-3:5,{first}").expect(&rt, "memory");
    is_no_text(&rt, disordered.as_str());
}

#[test]
fn bytes_cut_short_or_left_over_are_no_set(rt: HostRuntime) {
    for count in 0..BYTES.len() {
        is_no_set(&rt, &BYTES[..count]);
    }
    let mut longer = Vec::from_slice(rt.alloc(), BYTES.as_slice()).expect(&rt, "memory");
    longer.push(0).expect(&rt, "memory");
    is_no_set(&rt, longer.as_slice());
}

#[test]
fn a_million_numbers_in_order_are_one_interval(rt: HostRuntime) {
    let mut set = GtidSet::new(rt.alloc());
    for number in 1..1_000_001 {
        set.add(gtid(number)).expect(&rt, "memory");
    }
    prints(&rt, &set, "%:1-1000000");
}
