//! The program `holp`: `holp run SCRIPT.. [--log FILE] [--explain]`, `holp check [--theory | --review] LOG`, `holp migrate LOG NEW`. What the
//! commands do stands in `holp_commands`.
#![tactic(auto)]

use hol_model::Fault;
use holp_commands::run_command;
use holp_files::hold_standard_descriptors;
use std::env;
use std::io::ErrorKind;
use std::process::ExitCode;

// The words on the command line.
fn words(rt: &HostRuntime) -> anyhow::Result<Vec<String>> {
    let words = match env::args(rt) {
        Ok(words) => words.collect(rt.alloc()),
        Err(error) => {
            if error.kind() == ErrorKind::OutOfMemory {
                return Err(Fault::Memory.into());
            }
            return Err(error.into());
        }
    };
    match words {
        Ok(words) => Ok(words),
        Err(_) => Err(Fault::Memory.into()),
    }
}

// Runs the command that the words on the command line name.
fn run_words(rt: &HostRuntime) -> anyhow::Result<u8> {
    hold_standard_descriptors(rt)?;
    let words = words(rt)?;
    run_command(rt, words.as_slice())
}

fn main(rt: HostRuntime) -> ExitCode {
    match run_words(&rt) {
        Ok(status) => ExitCode::from(status),
        Err(error) => {
            // Where standard error fails too, only the status tells.
            let _ = eprintln!(rt; "holp: {error}");
            ExitCode::from(2)
        }
    }
}
