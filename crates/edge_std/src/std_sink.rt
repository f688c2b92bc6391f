ghost use Rattle.std.specs.Prelude.{◌≡◌, ◌≢◌, ◌≤◌, OnOk, Err, None};
ghost use Rattle.std.specs.Io.KnownBytes.{Appends};
ghost use Rattle.edge_std.specs.Counting.{after_put};
ghost use Rattle.edge_traits.specs.Counts.{last_count};

use edge_traits::{Sink, SinkFault};
use std::io;
use std::io::Write;

/// One of the two outputs of the process, as `StdSink::new(rt.stdout())` and
/// `StdSink::new(rt.stderr())`.
///
/// An output that no longer takes bytes has failed, and so has one that cannot be flushed.
#[derive(Drop)]
pub struct StdSink<W> {
    output: W,
    faults: u64,
}

impl<W: Write> StdSink<W> {
    pub fn new(output: W) -> StdSink<W>
        ensures told { ⟦<StdSink<W> as Sink>⟧.taken result ≡ None }
        ensures faults { ⟦<StdSink<W> as Sink>⟧.faults result ≡ 0 }
    {
        StdSink { output, faults: 0 }
    }
}

/// Writes all of the bytes, in as many writes as they take, and leaves none of them behind.
fn write_out<W: Write>(output: &mut W, bytes: &[u8]) -> io::Result<()>
    ensures { OnOk result (Appends (W.contents output.old) (W.contents output.new) bytes.now) }
{
    output.write_all(bytes)?;
    output.flush()
}

impl<W: Write> Sink for StdSink<W> {
    ghost taken = { λ _. None };

    ghost faults = { λ s. s.faults };

    fn put(&mut self, bytes: &[u8]) -> Result<(), SinkFault>
        ensures whole { OnOk result (Appends (W.contents self.old.output) (W.contents self.new.output) bytes.now) }
        ensures count { self.new.faults ≡ after_put result self.old.faults }
        ensures later { self.old.faults ≤ self.new.faults }
        ensures limit { self.new.faults ≤ last_count }
        ensures plain { result ≢ Err SinkFault.Memory }
    {
        let faults = self.faults;
        match write_out(&mut self.output, bytes) {
            Ok(()) => Ok(()),
            Err(_) => {
                self.faults = faults.saturating_add(1);
                Err(SinkFault::Failed)
            }
        }
    }
}
