//! The cases of a control file on a disk in memory, one printed line each. What is printed was worked out
//! from the stages of a switch, a layout and a mount; `stdout` has it, and the gate compares.
//!
//! - `stop C K: F`: a file that held the old bytes, switched to the new, stopped at the C-th call of the
//!   disk, where the crash keeps K of each write. Then the file is found to hold F. The switch has six
//!   calls: a write and a sync for each of its stages.
//! - `fail C: F`: only the C-th call fails, and the crash keeps nothing. `fail C, no crash: F`: the file is
//!   mounted at once, so that what was written stands.
//! - `layout stop C K: B bytes, then F`: a mount of a new file, stopped at its C-th call. The crash leaves
//!   B bytes, which are laid out again. The calls are a sync, the length, then a write and a sync of the
//!   slots and a write and a sync of the last byte.
//! - `tags A B: F`: both gates are open, over these tags; the first slot has the old bytes.
//! - `size S: F`: the slot that wins says that it has S bytes.
//! - `S bytes: ..`: a switch to so many bytes.
#![tactic(auto)]

mod damages;
mod found;
mod layouts;
mod sizes;
mod switches;

use control_block::ControlFault;
use ring_types::Keep;
use std::alloc::Global;
use std::io;
use std::process::ExitCode;

/// How much a crash keeps of each write, with its word.
const KEEPS: [(Keep, &str); 3] = [
    (Keep::Nothing, "none"),
    (Keep::Half, "half"),
    (Keep::All, "all"),
];

fn add_stops(alloc: Global, text: &mut String) -> Result<(), ControlFault> {
    for call in 1..8 {
        for (keep, word) in KEEPS {
            let found = switches::stopped(alloc, call, keep)?;
            text.push_str(&format!(in alloc; "stop {call} {word}: {found}\n")?)?;
        }
    }
    Ok(())
}

fn add_failures(alloc: Global, text: &mut String) -> Result<(), ControlFault> {
    for call in 1..8 {
        let crashed = switches::failed(alloc, call)?;
        let found = switches::failed_and_mounted(alloc, call)?;
        text.push_str(&format!(in alloc; "fail {call}: {crashed}\n")?)?;
        text.push_str(&format!(in alloc; "fail {call}, no crash: {found}\n")?)?;
    }
    Ok(())
}

fn add_layouts(alloc: Global, text: &mut String) -> Result<(), ControlFault> {
    for call in 1..7 {
        for (keep, word) in KEEPS {
            let (left, found) = layouts::stopped(alloc, call, keep)?;
            let line = format!(in alloc;
                "layout stop {call} {word}: {left} bytes, then {found}\n"
            )?;
            text.push_str(&line)?;
        }
    }
    Ok(())
}

fn add_tags(alloc: Global, text: &mut String) -> Result<(), ControlFault> {
    for first in 0..3 {
        for second in 0..3 {
            let found = damages::with_tags(alloc, first, second)?;
            text.push_str(&format!(in alloc; "tags {first} {second}: {found}\n")?)?;
        }
    }
    Ok(())
}

fn add_sizes(alloc: Global, text: &mut String) -> Result<(), ControlFault> {
    for size in [32_768u32, 32_769] {
        let found = damages::with_size(alloc, size)?;
        text.push_str(&format!(in alloc; "size {size}: {found}\n")?)?;
    }
    for size in [32_768, 32_769] {
        let (taken, calls) = sizes::switched(alloc, size)?;
        text.push_str(&format!(in alloc; "{size} bytes: {taken}, {calls} calls\n")?)?;
    }
    Ok(())
}

fn report(alloc: Global) -> Result<String, ControlFault> {
    let mut text = String::new(alloc);
    add_stops(alloc, &mut text)?;
    add_failures(alloc, &mut text)?;
    add_layouts(alloc, &mut text)?;
    add_tags(alloc, &mut text)?;
    add_sizes(alloc, &mut text)?;
    Ok(text)
}

fn main(rt: HostRuntime) -> io::Result<ExitCode> {
    match report(rt.alloc()) {
        Ok(text) => {
            print!(rt; "{text}")?;
            Ok(ExitCode::SUCCESS)
        }
        Err(fault) => {
            println!(rt; "{fault}")?;
            Ok(ExitCode::FAILURE)
        }
    }
}
