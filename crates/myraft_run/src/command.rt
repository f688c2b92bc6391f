ghost use Rattle.std.specs.Prelude.{◌≡◌, ◌≢◌, ◌⊎◌, IfErr, IfOk, map, string_bytes};
ghost use Rattle.myraft_run.specs.Command.{IsCause, IsExact, IsReplayable, Printed, Stopped};
ghost use Rattle.myraft_run.specs.Parts.{Works, Wrote, print_status};
ghost use Rattle.myraft_run.specs.Spans.{ShelfIsSteady, SinkIsSteady, shelf_span, sink_span};

use crate::lines::tell;
use crate::reading::find_inputs;
use crate::replaying::replayed;
use crate::stops::{Status, Stop, status_of};
use edge_traits::{Shelf, Sink, SinkFault};
use ring_lawful::{law_lawful, law_rows, law_safe, law_sound};
use ring_types::List;
use std::alloc::Global;

/// The text of the report, or why the program stops before it is made.
fn make_report<H: Shelf>(alloc: Global, words: &[String], shelf: &mut H) -> Result<List<u8>, Stop>
    ensures { Works (map string_bytes words.now) (shelf_span H.files H.faults shelf.old shelf.new) result }
{
    let inputs = find_inputs(alloc, words, shelf)?;
    replayed(alloc, &inputs.ring, inputs.events.as_slice())
}

/// Writes the whole text, or says why the program stops.
fn write<O: Sink>(out: &mut O, text: &[u8]) -> Result<(), Stop>
    ensures { Wrote text.now (sink_span O.taken O.faults out.old out.new) result }
{
    match out.put(text) {
        Ok(()) => Ok(()),
        Err(SinkFault::Failed) => Err(Stop::WriteFault),
        Err(SinkFault::Memory) => Err(Stop::Memory),
    }
}

/// Puts the report to the output, or says why the program stops.
fn print<H: Shelf, O: Sink>(
    alloc: Global,
    words: &[String],
    shelf: &mut H,
    out: &mut O,
) -> Result<(), Stop>
    ensures printed { IfOk result (λ done. Printed (map string_bytes words.now) (shelf_span H.files H.faults shelf.old shelf.new) (sink_span O.taken O.faults out.old out.new)) }
    ensures cause { IfErr result (λ stop. IsCause (map string_bytes words.now) (shelf_span H.files H.faults shelf.old shelf.new) (sink_span O.taken O.faults out.old out.new) stop) }
    ensures exact { IsExact (map string_bytes words.now) (shelf_span H.files H.faults shelf.old shelf.new) (sink_span O.taken O.faults out.old out.new) (print_status result) }
{
    law_safe();
    law_rows();
    law_sound();
    law_lawful();
    let text = make_report(alloc, words, shelf)?;
    write(out, text.as_slice())
}

/// The program: `words` are those after its own name, names of files are looked up on the shelf, the
/// report goes to `out`, and the line of a status other than 0 to `err`.
pub fn run<H: Shelf, O: Sink, E: Sink>(
    alloc: Global,
    words: &Vec<String>,
    shelf: &mut H,
    out: &mut O,
    err: &mut E,
) -> Status
    ensures printed { result.0 ≡ 0 → Printed (map string_bytes words.now.items) (shelf_span H.files H.faults shelf.old shelf.new) (sink_span O.taken O.faults out.old out.new) }
    ensures quiet { result.0 ≡ 0 → err.new ≡ err.old }
    ensures stopped { result.0 ≢ 0 → Stopped (map string_bytes words.now.items) (shelf_span H.files H.faults shelf.old shelf.new) (sink_span O.taken O.faults out.old out.new) (sink_span E.taken E.faults err.old err.new) result.0 }
    ensures exact { IsExact (map string_bytes words.now.items) (shelf_span H.files H.faults shelf.old shelf.new) (sink_span O.taken O.faults out.old out.new) result.0 }
    ensures complete { IsReplayable (map string_bytes words.now.items) (H.files shelf.old) → ShelfIsSteady (shelf_span H.files H.faults shelf.old shelf.new) → SinkIsSteady (sink_span O.taken O.faults out.old out.new) → (result.0 ≡ 0) ⊎ (result.0 ≡ 13) }
{
    match print(alloc, words.as_slice(), shelf, out) {
        Ok(()) => Status(0),
        Err(stop) => {
            tell(err, words.as_slice(), &stop);
            status_of(&stop)
        }
    }
}
