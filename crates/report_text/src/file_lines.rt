ghost use Rattle.std.specs.Prelude.{◌≡◌, ◌+◌, ◌^◌, ◌<◌, ◌++◌, OnOk, length};
ghost use Rattle.report_text.specs.Report as spec;

use crate::appending::{put, put_field};
use entry_group::file_sizes;
use event_control::six_digits;
use ring_types::{Entry, Memory, Schema};
use std::alloc::Global;

#[tactic(auto, unfolding(crate::specs::Report::name_digits))]
fn put_name_digits(out: &mut Vec<u8>, number: u64) -> Result<(), Memory>
    ensures { OnOk result (out.new.items ≡ out.old.items ++ spec.name_digits number) }
{
    put(out, &six_digits(number))
}

#[tactic(auto, unfolding(crate::specs::Report::file_line))]
fn put_file_line(out: &mut Vec<u8>, number: u64, size: u64) -> Result<(), Memory>
    ensures { OnOk result (out.new.items ≡ out.old.items ++ spec.file_line number size) }
{
    put(out, b"file binlog.")?;
    put_name_digits(out, number)?;
    put_field(out, b" ", size)?;
    put(out, b"\n")
}

fn put_file_lines(out: &mut Vec<u8>, before: u64, sizes: &[u64]) -> Result<(), Memory>
    requires { before + length sizes.now < 2 ^ 64 }
    ensures { OnOk result (out.new.items ≡ out.old.items ++ spec.file_lines before sizes.now) }
{
    match sizes {
        [] => Ok(()),
        [size, others @ ..] => {
            put_file_line(out, before + 1, *size)?;
            put_file_lines(out, before + 1, others)
        }
    }
}

/// Puts a line for each binary log file of the log, with its size, at the end.
#[tactic(auto, unfolding(crate::specs::Report::files_text))]
pub(crate) fn put_files(
    alloc: Global,
    out: &mut Vec<u8>,
    schema: &Schema,
    log: &[Entry],
) -> Result<(), Memory>
    ensures { OnOk result (out.new.items ≡ out.old.items ++ spec.files_text schema.now log.now) }
{
    let sizes = file_sizes(alloc, schema, log)?;
    put_file_lines(out, 0, sizes.as_slice())
}
