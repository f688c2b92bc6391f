ghost use Rattle.std.specs.Prelude.{◌≤◌, ◌<◌};

use event_control::{
    ControlError, Head, OpidEvent, Rotation, read_head, read_opid, read_rotate, write_head,
    write_opid, write_rotate,
};
use event_frame::FrameError;
use ring_types::{Opid, RegionId};
use std::process::Abort;

/// The head of the first file: the set of earlier transactions is empty, which is eight zeros.
const HEAD: [u8; 157] = [
    0xfe, 0x62, 0x69, 0x6e, 0x00, 0x00, 0x00, 0x00, 0x0f, 0x01, 0x00, 0x00, 0x00, 0x7a, 0x00, 0x00,
    0x00, 0x7e, 0x00, 0x00, 0x00, 0x00, 0x00, 0x04, 0x00, 0x38, 0x2e, 0x30, 0x2e, 0x30, 0x2d, 0x6d,
    0x79, 0x72, 0x61, 0x66, 0x74, 0x00, 0x00, 0x00, 0x00, 0x00, 0x00, 0x00, 0x00, 0x00, 0x00, 0x00,
    0x00, 0x00, 0x00, 0x00, 0x00, 0x00, 0x00, 0x00, 0x00, 0x00, 0x00, 0x00, 0x00, 0x00, 0x00, 0x00,
    0x00, 0x00, 0x00, 0x00, 0x00, 0x00, 0x00, 0x00, 0x00, 0x00, 0x00, 0x00, 0x00, 0x00, 0x00, 0x13,
    0x00, 0x0d, 0x00, 0x08, 0x00, 0x00, 0x00, 0x00, 0x00, 0x00, 0x00, 0x00, 0x00, 0x00, 0x00, 0x00,
    0x00, 0x00, 0x08, 0x00, 0x00, 0x00, 0x00, 0x00, 0x00, 0x00, 0x00, 0x00, 0x00, 0x0a, 0x0a, 0x0a,
    0x2a, 0x00, 0x00, 0x00, 0x00, 0x00, 0x00, 0x00, 0x00, 0x01, 0x7d, 0x92, 0xa8, 0x44, 0x00, 0x00,
    0x00, 0x00, 0x23, 0x01, 0x00, 0x00, 0x00, 0x1f, 0x00, 0x00, 0x00, 0x9d, 0x00, 0x00, 0x00, 0x80,
    0x00, 0x00, 0x00, 0x00, 0x00, 0x00, 0x00, 0x00, 0x00, 0x72, 0x51, 0xb0, 0x15,
];

/// The first entry of the log, which holds nothing: term 1, position 1, region 1. It follows the head.
const NOOP: [u8; 42] = [
    0x00, 0x00, 0x00, 0x00, 0x1c, 0x01, 0x00, 0x00, 0x00, 0x2a, 0x00, 0x00, 0x00, 0xc7, 0x00, 0x00,
    0x00, 0x80, 0x00, 0x01, 0x01, 0x00, 0x00, 0x00, 0x00, 0x00, 0x00, 0x00, 0x01, 0x00, 0x00, 0x00,
    0x00, 0x00, 0x00, 0x00, 0x01, 0x00, 0xec, 0x15, 0x69, 0x7c,
];

/// The file's end at offset 241, with the second file next.
const ROTATE: [u8; 44] = [
    0x00, 0x00, 0x00, 0x00, 0x04, 0x01, 0x00, 0x00, 0x00, 0x2c, 0x00, 0x00, 0x00, 0x1d, 0x01, 0x00,
    0x00, 0x00, 0x00, 0x04, 0x00, 0x00, 0x00, 0x00, 0x00, 0x00, 0x00, 0x62, 0x69, 0x6e, 0x6c, 0x6f,
    0x67, 0x2e, 0x30, 0x30, 0x30, 0x30, 0x30, 0x32, 0x87, 0x24, 0x00, 0x81,
];

#[test]
fn head_of_a_fresh_file(rt: HostRuntime) {
    let mut out = Vec::new(rt.alloc());
    write_head(&mut out, &[0, 0, 0, 0, 0, 0, 0, 0]).expect(&rt, "memory");
    assert_eq!(rt; out.as_slice(), HEAD.as_slice());
    let head = Head {
        previous_at: 145,
        previous_len: 8,
        size: 157,
    };
    assert_eq!(rt; read_head(&HEAD), Ok(head));
}

#[test]
fn first_opid_event(rt: HostRuntime) {
    let mut out = Vec::new(rt.alloc());
    let opid = Opid {
        term: 1,
        position: 1,
    };
    write_opid(&mut out, 1, opid, RegionId(1), 157).expect(&rt, "memory");
    assert_eq!(rt; out.as_slice(), NOOP.as_slice());
    let event = OpidEvent {
        kind: 1,
        opid,
        region: RegionId(1),
        size: 42,
    };
    assert_eq!(rt; read_opid(&NOOP, 157), Ok(event));
}

#[test]
fn rotation_to_the_second_file(rt: HostRuntime) {
    let mut out = Vec::new(rt.alloc());
    write_rotate(&mut out, 2, 241).expect(&rt, "memory");
    assert_eq!(rt; out.as_slice(), ROTATE.as_slice());
    let rotation = Rotation {
        next_file: 2,
        size: 44,
    };
    assert_eq!(rt; read_rotate(&ROTATE, 241), Ok(rotation));
}

/// Expects this refusal of the head with one byte changed, and the checksum that ends at `end`.
fn head_refuses(rt: &impl Abort, place: usize, byte: u8, end: usize, sum: u32, fault: ControlError)
    requires place { place < 157 }
    requires least { 4 ≤ end }
    requires most { end ≤ 157 }
{
    let mut bytes = HEAD;
    bytes[place] = byte;
    [
        bytes[end - 4],
        bytes[end - 3],
        bytes[end - 2],
        bytes[end - 1],
    ] = sum.to_be_bytes();
    assert_eq!(rt; read_head(&bytes), Err(fault), "at {place}");
}

#[test]
fn heads_at_fault(rt: HostRuntime) {
    let sum = FrameError::BadSum;
    head_refuses(&rt, 3, 0x6f, 126, 0x7d92_a844, ControlError::Body);
    head_refuses(&rt, 80, 12, 126, 0x7d92_a844, ControlError::Frame(sum));
    head_refuses(&rt, 80, 12, 126, 0xb1bf_46a4, ControlError::Body);
    head_refuses(&rt, 143, 0, 157, 0x7358_b5f3, ControlError::Kind);
    head_refuses(&rt, 130, 34, 157, 0xa6bb_c38e, ControlError::Kind);
}

/// Expects this refusal of the first opid event with one byte changed, and the checksum.
fn opid_refuses(rt: &impl Abort, place: usize, byte: u8, sum: u32, fault: ControlError)
    requires { place < 42 }
{
    let mut bytes = NOOP;
    bytes[place] = byte;
    [bytes[38], bytes[39], bytes[40], bytes[41]] = sum.to_be_bytes();
    assert_eq!(rt; read_opid(&bytes, 157), Err(fault), "at {place}");
}

#[test]
fn opid_events_at_fault(rt: HostRuntime) {
    let sum = FrameError::BadSum;
    opid_refuses(&rt, 19, 0, 0xb495_8bab, ControlError::Body);
    opid_refuses(&rt, 19, 4, 0x5698_e342, ControlError::Body);
    opid_refuses(&rt, 19, 4, 0xec15_697c, ControlError::Frame(sum));
    opid_refuses(&rt, 17, 0, 0x4f88_da4e, ControlError::Kind);
    opid_refuses(&rt, 4, 29, 0xda44_eb58, ControlError::Kind);
}

/// Expects this refusal of the rotation with one byte changed, and the checksum.
fn rotation_refuses(rt: &impl Abort, place: usize, byte: u8, sum: u32, fault: ControlError)
    requires { place < 44 }
{
    let mut bytes = ROTATE;
    bytes[place] = byte;
    [bytes[40], bytes[41], bytes[42], bytes[43]] = sum.to_be_bytes();
    assert_eq!(rt; read_rotate(&bytes, 241), Err(fault), "at {place}");
}

#[test]
fn rotations_at_fault(rt: HostRuntime) {
    let position = FrameError::BadPos;
    rotation_refuses(&rt, 39, b'a', 0xc924_6273, ControlError::Body);
    rotation_refuses(&rt, 19, 5, 0x19a7_da1e, ControlError::Body);
    rotation_refuses(&rt, 17, 1, 0x53ce_731a, ControlError::Kind);
    rotation_refuses(&rt, 13, 0x1e, 0x8724_0081, ControlError::Frame(position));
}

#[test]
fn name_of_the_last_file(rt: HostRuntime) {
    let mut out = Vec::new(rt.alloc());
    write_rotate(&mut out, 999_999, 0).expect(&rt, "memory");
    let bytes = out.as_slice();
    assert_eq!(rt; bytes.len(), 44);
    assert_eq!(rt; &bytes[27..40], b"binlog.999999".as_slice());
}
