//! The words of values, refusals and sayings.
use super::fixtures::{SERVER, gtid, shows, text};
use crate::sayings::put_saying;
use crate::words::put_value;
use ring_model::{Cause, What};
use ring_types::{List, NodeId, Opid, RowRefusal, Value};
use std::process::Abort;

// ---- values

fn value_words(rt: &(impl AllocGlobal + Abort), value: Value) -> List<u8> {
    let mut out = Vec::new(rt.alloc());
    put_value(&mut out, &value).expect(rt, "memory");
    List::from_vec(out)
}

fn text_shows(rt: &(impl AllocGlobal + Abort), of: &str, wanted: &str) {
    shows(rt, value_words(rt, Value::Text(text(rt, of))), wanted);
}

#[test]
fn plain_texts(rt: HostRuntime) {
    text_shows(&rt, "", "''");
    text_shows(&rt, "a b", "'a b'");
}

#[test]
fn escaped_texts(rt: HostRuntime) {
    text_shows(&rt, "it's", "'it\\x27s'");
    text_shows(&rt, "a\\b", "'a\\x5cb'");
    text_shows(&rt, "\u{0}\u{1f}\u{20}", "'\\x00\\x1f '");
    text_shows(&rt, "~\u{7f}\u{e9}", "'~\\x7f\u{e9}'");
}

fn value_shows(rt: &(impl AllocGlobal + Abort), value: Value, wanted: &str) {
    shows(rt, value_words(rt, value), wanted);
}

#[test]
fn null_and_numbers(rt: HostRuntime) {
    value_shows(&rt, Value::Null, "null");
    value_shows(&rt, Value::Int(0), "0");
    value_shows(&rt, Value::Int(i64::MIN), "-9223372036854775808");
    value_shows(&rt, Value::Int(i64::MAX), "9223372036854775807");
}

// ---- sayings

fn saying_words(rt: &(impl AllocGlobal + Abort), what: What) -> List<u8> {
    let mut out = Vec::new(rt.alloc());
    put_saying(&mut out, &what).expect(rt, "memory");
    List::from_vec(out)
}

fn says(rt: &(impl AllocGlobal + Abort), what: What, wanted: &str) {
    shows(rt, saying_words(rt, what), wanted);
}

fn opid(term: u64, position: u64) -> Opid {
    Opid { term, position }
}

fn committed() -> What {
    What::Committed {
        gtid: gtid(SERVER, 1),
        opid: opid(1, 2),
        term: 1,
    }
}

fn unknown() -> What {
    What::Unknown {
        gtid: gtid(10, 9223372036854775806),
        opid: opid(3, 4),
    }
}

const COMMITTED: &str = "committed 3e11fa47-71ca-11e1-9e33-c80aa9429562:1 1:2";

const UNKNOWN: &str = "unknown 00000000-0000-0000-0000-00000000000a:9223372036854775806 3:4";

#[test]
fn sayings_of_writes(rt: HostRuntime) {
    says(&rt, committed(), COMMITTED);
    says(&rt, unknown(), UNKNOWN);
    says(&rt, What::Rotated(opid(1, 5)), "rotated 1:5");
}

#[test]
fn sayings_of_transfers(rt: HostRuntime) {
    says(&rt, What::Moving(NodeId(2)), "moving 2");
    says(&rt, What::MoveFailed(NodeId(65535)), "move-failed 65535");
    says(&rt, What::Cancelled, "cancelled");
}

// ---- refusals

fn refuses(rt: &(impl AllocGlobal + Abort), cause: Cause, wanted: &str) {
    says(rt, What::Refused(cause), wanted);
}

#[test]
fn refusals_by_role(rt: HostRuntime) {
    refuses(&rt, Cause::NotLeader, "refused not-leader");
    refuses(&rt, Cause::NotReady, "refused not-ready");
    refuses(&rt, Cause::NoEngine, "refused no-engine");
    refuses(&rt, Cause::Transferring, "refused transferring");
}

#[test]
fn refusals_by_rows(rt: HostRuntime) {
    refuses(
        &rt,
        Cause::Invalid(RowRefusal::NoTable),
        "refused invalid no-table",
    );
    refuses(
        &rt,
        Cause::Invalid(RowRefusal::KeyExists),
        "refused invalid key-exists",
    );
    refuses(
        &rt,
        Cause::Invalid(RowRefusal::NoKey),
        "refused invalid no-key",
    );
    refuses(
        &rt,
        Cause::Invalid(RowRefusal::BadRow),
        "refused invalid bad-row",
    );
}

fn locked(rt: &(impl AllocGlobal + Abort)) -> Cause {
    Cause::Locked {
        table: text(rt, "t"),
        key: Value::Text(text(rt, "it's")),
        holder: opid(2, 9),
    }
}

#[test]
fn refusals_by_limits(rt: HostRuntime) {
    refuses(&rt, locked(&rt), "refused locked t 'it\\x27s' 2:9");
    refuses(
        &rt,
        Cause::TooLarge { bytes: 1000001 },
        "refused too-large 1000001",
    );
    refuses(&rt, Cause::Exhausted, "refused exhausted");
    refuses(&rt, Cause::LastFile, "refused last-file");
    refuses(&rt, Cause::BadTarget, "refused bad-target");
}
