use myraft_run::Status;
use ring_types::{List, Memory};
use std::alloc::Global;

/// The file of a case that ends with status 0: what is printed.
pub const REPORT: &str = "report.txt";

/// The file of any other case: the status, and under it the line on standard error.
pub const REFUSED: &str = "refused.txt";

/// What a command came to, as the file of its case has it.
#[derive(Drop)]
pub struct Outcome {
    pub file: &'static str,
    pub text: List<u8>,
}

/// Adds what stands on the output that is to stay empty, under a line that says so.
fn add_stray(text: &mut List<u8>, stray: &List<u8>) -> Result<(), Memory> {
    if stray.is_empty() {
        return Ok(());
    }
    text.extend_from_slice(b"on the other output:\n")?;
    text.extend_from_slice(stray.as_slice())
}

impl Outcome {
    pub fn new(
        alloc: Global,
        status: Status,
        out: &List<u8>,
        err: &List<u8>,
    ) -> Result<Outcome, Memory> {
        let mut text = List::new(alloc);
        if status.0 == 0 {
            text.extend_from_slice(out.as_slice())?;
            add_stray(&mut text, err)?;
            return Ok(Outcome { file: REPORT, text });
        }
        let number = status.0;
        let line = format!(in alloc; "{number}\n")?;
        text.extend_from_slice(line.as_bytes())?;
        text.extend_from_slice(err.as_slice())?;
        add_stray(&mut text, out)?;
        Ok(Outcome {
            file: REFUSED,
            text,
        })
    }
}
