ghost use Rattle.std.specs.Prelude.{◌≡◌, ◌≤◌, ◌++◌, IfSome, map, string_bytes, codes, decimal};
ghost use Rattle.edge_traits.specs.Puts.{PutIs, PutFails};
ghost use Rattle.myraft_run.specs.Command.{Tells};
ghost use Rattle.myraft_run.specs.Spans.{sink_span};
ghost use Rattle.myraft_run.specs.Stops as spec;

use crate::stops::Stop;
use crate::words::name_in;
use edge_traits::{Sink, SinkFault};
use itoa::Buffer;
use ring_file::RingError;
use ring_types::BuildError;

fn cause_word(cause: BuildError) -> &'static [u8]
    ensures { result.now ≡ spec.cause_word cause }
{
    match cause {
        BuildError::TooMany => b"1",
        BuildError::TwiceNamed => b"2",
        BuildError::NoRegion => b"3",
        BuildError::NoVoter => b"4",
        BuildError::BadSchema => b"5",
        BuildError::Memory => b"-",
    }
}

fn fault_number(fault: &RingError) -> &'static [u8]
    ensures { result.now ≡ spec.fault_number fault.now }
{
    match fault {
        RingError::NotToml => b"1 ",
        RingError::Missing { .. } => b"2 ",
        RingError::Unknown { .. } => b"3 ",
        RingError::Range { .. } => b"4 ",
        RingError::Build(_) => b"5 ",
        RingError::Memory => b"- ",
    }
}

fn fault_place(fault: &RingError) -> &[u8]
    ensures { result.now ≡ spec.fault_place fault.now }
{
    match fault {
        RingError::NotToml => b"-",
        RingError::Missing { place } => place.as_str().as_bytes(),
        RingError::Unknown { place } => place.as_str().as_bytes(),
        RingError::Range { place } => place.as_str().as_bytes(),
        RingError::Build(cause) => cause_word(*cause),
        RingError::Memory => b"-",
    }
}

#[tactic(auto, unfolding(crate::specs::Stops::head_of))]
fn head_of(stop: &Stop) -> &'static [u8]
    ensures { result.now ≡ spec.head_of stop.now }
{
    match stop {
        Stop::Unbuilt => b"myraft: unbuilt",
        Stop::NoFile(_) => b"myraft: no file ",
        Stop::TooLarge(_) => b"myraft: file too large ",
        Stop::ReadFault(_) => b"myraft: read fault ",
        Stop::BadRing(_) => b"myraft: bad ring ",
        Stop::BadLine(_) => b"myraft: bad schedule line ",
        Stop::WriteFault => b"myraft: write fault",
        Stop::Memory => b"myraft: out of memory",
    }
}

/// Puts two runs of bytes; the second only after the whole of the first.
fn put_both<E: Sink>(err: &mut E, first: &[u8], second: &[u8]) -> Result<(), SinkFault>
    ensures told { IfSome (E.taken err.old) (λ old. PutIs old (first.now ++ second.now) (E.taken err.new) result) }
    ensures later { E.faults err.old ≤ E.faults err.new }
    ensures failed { PutFails (E.faults err.old) (E.faults err.new) result }
{
    err.put(first)?;
    err.put(second)
}

fn put_number<E: Sink>(err: &mut E, number: u64) -> Result<(), SinkFault>
    ensures told { IfSome (E.taken err.old) (λ old. PutIs old (decimal number) (E.taken err.new) result) }
    ensures later { E.faults err.old ≤ E.faults err.new }
    ensures failed { PutFails (E.faults err.old) (E.faults err.new) result }
{
    let mut buffer = Buffer::new();
    err.put(buffer.format(number).as_bytes())
}

#[tactic(auto, unfolding(crate::specs::Stops::object_of))]
fn put_object<E: Sink>(err: &mut E, words: &[String], stop: &Stop) -> Result<(), SinkFault>
    ensures told { IfSome (E.taken err.old) (λ old. PutIs old (spec.object_of (map string_bytes words.now) stop.now) (E.taken err.new) result) }
    ensures later { E.faults err.old ≤ E.faults err.new }
    ensures failed { PutFails (E.faults err.old) (E.faults err.new) result }
{
    match stop {
        Stop::NoFile(file) => err.put(name_in(words, *file).as_bytes()),
        Stop::TooLarge(file) => err.put(name_in(words, *file).as_bytes()),
        Stop::ReadFault(file) => err.put(name_in(words, *file).as_bytes()),
        Stop::BadRing(fault) => put_both(err, fault_number(fault), fault_place(fault)),
        Stop::BadLine(line) => put_number(err, *line),
        Stop::Unbuilt => err.put(b""),
        Stop::WriteFault => err.put(b""),
        Stop::Memory => err.put(b""),
    }
}

fn put_head<E: Sink>(err: &mut E, words: &[String], stop: &Stop) -> Result<(), SinkFault>
    ensures told { IfSome (E.taken err.old) (λ old. PutIs old (spec.head_of stop.now ++ spec.object_of (map string_bytes words.now) stop.now) (E.taken err.new) result) }
    ensures later { E.faults err.old ≤ E.faults err.new }
    ensures failed { PutFails (E.faults err.old) (E.faults err.new) result }
{
    err.put(head_of(stop))?;
    put_object(err, words, stop)
}

fn put_end<E: Sink>(err: &mut E) -> Result<(), SinkFault>
    ensures told { IfSome (E.taken err.old) (λ old. PutIs old (codes "\n") (E.taken err.new) result) }
    ensures later { E.faults err.old ≤ E.faults err.new }
    ensures failed { PutFails (E.faults err.old) (E.faults err.new) result }
{
    err.put(b"\n")
}

#[tactic(auto, unfolding(crate::specs::Stops::line_of))]
fn put_line<E: Sink>(err: &mut E, words: &[String], stop: &Stop) -> Result<(), SinkFault>
    ensures told { IfSome (E.taken err.old) (λ old. PutIs old (spec.line_of (map string_bytes words.now) stop.now) (E.taken err.new) result) }
    ensures later { E.faults err.old ≤ E.faults err.new }
    ensures failed { PutFails (E.faults err.old) (E.faults err.new) result }
{
    put_head(err, words, stop)?;
    put_end(err)
}

/// Writes the line of a stop. A fault of the errors changes nothing else.
pub(crate) fn tell<E: Sink>(err: &mut E, words: &[String], stop: &Stop)
    ensures { Tells (spec.line_of (map string_bytes words.now) stop.now) (sink_span E.taken E.faults err.old err.new) }
{
    let _ = put_line(err, words, stop);
}
