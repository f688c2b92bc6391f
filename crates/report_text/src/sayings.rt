ghost use Rattle.std.specs.Prelude.{◌≡◌, ◌++◌, OnOk};
ghost use Rattle.report_text.specs.Sayings as spec;

use crate::appending::{put, put_field};
use crate::words::{put_gtid, put_opid, put_value};
use ring_model::{Cause, What};
use ring_types::{Gtid, Memory, Opid, RowRefusal, Text, Value};

fn refusal_words(refusal: RowRefusal) -> &'static [u8]
    ensures { result.now ≡ spec.refusal_words refusal }
{
    match refusal {
        RowRefusal::NoTable => b"no-table",
        RowRefusal::KeyExists => b"key-exists",
        RowRefusal::NoKey => b"no-key",
        RowRefusal::BadRow => b"bad-row",
    }
}

fn put_locked(out: &mut Vec<u8>, table: &Text, key: &Value, holder: Opid) -> Result<(), Memory>
    ensures { OnOk result (out.new.items ≡ out.old.items ++ spec.locked_words table.now key.now holder) }
{
    put(out, b"locked ")?;
    put(out, table.as_bytes())?;
    put(out, b" ")?;
    put_value(out, key)?;
    put(out, b" ")?;
    put_opid(out, holder)
}

fn put_cause(out: &mut Vec<u8>, cause: &Cause) -> Result<(), Memory>
    ensures { OnOk result (out.new.items ≡ out.old.items ++ spec.cause_words cause.now) }
{
    match cause {
        Cause::NotLeader => put(out, b"not-leader"),
        Cause::NotReady => put(out, b"not-ready"),
        Cause::NoEngine => put(out, b"no-engine"),
        Cause::Transferring => put(out, b"transferring"),
        Cause::Invalid(refusal) => {
            put(out, b"invalid ")?;
            put(out, refusal_words(*refusal))
        }
        Cause::Locked { table, key, holder } => put_locked(out, table, key, *holder),
        Cause::TooLarge { bytes } => put_field(out, b"too-large ", *bytes),
        Cause::Exhausted => put(out, b"exhausted"),
        Cause::LastFile => put(out, b"last-file"),
        Cause::BadTarget => put(out, b"bad-target"),
    }
}

fn put_fate(out: &mut Vec<u8>, word: &[u8], gtid: Gtid, opid: Opid) -> Result<(), Memory>
    ensures { OnOk result (out.new.items ≡ out.old.items ++ spec.fate_words word.now gtid opid) }
{
    put(out, word)?;
    put_gtid(out, gtid)?;
    put(out, b" ")?;
    put_opid(out, opid)
}

/// Puts the words of a saying at the end.
pub(crate) fn put_saying(out: &mut Vec<u8>, what: &What) -> Result<(), Memory>
    ensures { OnOk result (out.new.items ≡ out.old.items ++ spec.saying_words what.now) }
{
    match what {
        What::Committed { gtid, opid, .. } => put_fate(out, b"committed ", *gtid, *opid),
        What::Unknown { gtid, opid } => put_fate(out, b"unknown ", *gtid, *opid),
        What::Refused(cause) => {
            put(out, b"refused ")?;
            put_cause(out, cause)
        }
        What::Rotated(opid) => {
            put(out, b"rotated ")?;
            put_opid(out, *opid)
        }
        What::Moving(target) => put_field(out, b"moving ", u64::from(target.0)),
        What::MoveFailed(target) => put_field(out, b"move-failed ", u64::from(target.0)),
        What::Cancelled => put(out, b"cancelled"),
    }
}
