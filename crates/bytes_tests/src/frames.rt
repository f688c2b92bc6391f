ghost use Rattle.std.specs.Prelude.{◌<◌};

use event_frame::{
    Event, FieldFault, FrameError, constant_at, crc32, ended, long_text_at, packed_at, read_event,
    server_at, short_text_at, u8_at, u16_at, u32_at, u64_at, write_event,
};
use std::process::Abort;

/// The first entry of the first file, which writes nothing: it begins at offset 157.
const FIRST: [u8; 42] = [
    0, 0, 0, 0, 28, 1, 0, 0, 0, 42, 0, 0, 0, 199, 0, 0, 0, 0x80, 0, //
    1, 1, 0, 0, 0, 0, 0, 0, 0, 1, 0, 0, 0, 0, 0, 0, 0, 1, 0, //
    0xec, 0x15, 0x69, 0x7c,
];

#[test]
fn checksum_of_the_check_text(rt: HostRuntime) {
    assert_eq!(rt; crc32(b"123456789"), 0xcbf43926);
    assert_eq!(rt; crc32(b""), 0);
}

#[test]
fn first_event_both_ways(rt: HostRuntime) {
    let mut out = Vec::new(rt.alloc());
    write_event(&mut out, 28, 0x80, &FIRST[19..38], 157).expect(&rt, "memory");
    assert_eq!(rt; out.as_slice(), FIRST.as_slice());
    let event = Event {
        kind: 28,
        flags: 0x80,
        body_at: 19,
        body_len: 19,
        size: 42,
    };
    assert_eq!(rt; read_event(&FIRST, 157), Ok(event));
}

/// Expects this refusal of the first event with one byte changed.
fn refuses(rt: &impl Abort, place: usize, byte: u8, fault: FrameError)
    requires { place < 42 }
{
    let mut bytes = FIRST;
    bytes[place] = byte;
    assert_eq!(rt; read_event(&bytes, 157), Err(fault), "at {place}");
}

#[test]
fn one_byte_makes_each_refusal(rt: HostRuntime) {
    refuses(&rt, 9, 43, FrameError::Short);
    refuses(&rt, 9, 22, FrameError::BadSize);
    refuses(&rt, 0, 1, FrameError::BadHeader);
    refuses(&rt, 5, 2, FrameError::BadHeader);
    refuses(&rt, 13, 200, FrameError::BadPos);
    refuses(&rt, 37, 1, FrameError::BadSum);
    refuses(&rt, 41, 0x7d, FrameError::BadSum);
    assert_eq!(rt; read_event(&FIRST[..18], 157), Err(FrameError::Short));
}

/// Expects that the bytes begin with a packed integer, and what stands behind it.
fn unpacks(rt: &impl Abort, bytes: &[u8], number: u64, rest: &[u8]) {
    assert_eq!(rt; packed_at(bytes), Ok((number, rest)));
}

#[test]
fn packed_integers_in_their_shortest_form(rt: HostRuntime) {
    unpacks(&rt, &[250, 7], 250, &[7]);
    unpacks(&rt, &[252, 251, 0], 251, &[]);
    unpacks(&rt, &[253, 0, 0, 1], 65_536, &[]);
    unpacks(&rt, &[254, 0, 0, 0, 1, 0, 0, 0, 0, 9], 16_777_216, &[9]);
}

#[test]
fn no_packed_integers(rt: HostRuntime) {
    assert_eq!(rt; packed_at(&[252, 250, 0]), Err(FieldFault::Wrong));
    assert_eq!(rt; packed_at(&[253, 255, 255, 0]), Err(FieldFault::Wrong));
    assert_eq!(rt; packed_at(&[251, 0, 0]), Err(FieldFault::Wrong));
    assert_eq!(rt; packed_at(&[252, 251]), Err(FieldFault::Cut));
}

#[test]
fn numbers_of_each_width(rt: HostRuntime) {
    let bytes = [1, 2, 0, 3, 0, 0, 0, 4, 0, 0, 0, 0, 0, 0, 0];
    let (one, rest) = u8_at(&bytes).expect(&rt, "one byte");
    let (two, rest) = u16_at(rest).expect(&rt, "two bytes");
    let (four, rest) = u32_at(rest).expect(&rt, "four bytes");
    let (eight, rest) = u64_at(rest).expect(&rt, "eight bytes");
    assert_eq!(rt; (one, two, four, eight), (1, 2, 3, 4));
    assert_eq!(rt; ended(rest), Ok(()));
    assert_eq!(rt; ended(&bytes), Err(FieldFault::Cut));
    assert_eq!(rt; u64_at(rest), Err(FieldFault::Cut));
}

#[test]
fn texts_and_servers(rt: HostRuntime) {
    let rest = constant_at(b"ab\x02cd", b"ab").expect(&rt, "a constant");
    assert_eq!(rt; short_text_at(rest, 2), Ok(("cd", [].as_slice())));
    assert_eq!(rt; short_text_at(rest, 1), Err(FieldFault::Wrong));
    assert_eq!(rt; short_text_at(b"\x03cd", 1), Err(FieldFault::Cut));
    assert_eq!(rt; long_text_at(b"\x02\x00cd", 300), Ok(("cd", [].as_slice())));
    assert_eq!(rt; long_text_at(b"\x01\x00\xff", 300), Err(FieldFault::Wrong));
    assert_eq!(rt; constant_at(b"ab", b"ac"), Err(FieldFault::Wrong));
    let server = [0, 0, 0, 0, 0, 0, 0, 0, 0, 0, 0, 0, 0, 0, 1, 2];
    assert_eq!(rt; server_at(&server), Ok((258, [].as_slice())));
}
