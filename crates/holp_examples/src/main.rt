//! Runs the command lines of data/lines.txt, those of the README and of docs/ among them (`lines`), and behind them the scripts of the
//! library (`library`), and prints what they write.
#![tactic(auto)]

mod library;
mod lines;

use crate::library::run_library;
use crate::lines::run_lines;
use std::process::ExitCode;

fn run_all(rt: &HostRuntime) -> anyhow::Result<()> {
    run_lines(rt)?;
    run_library(rt)
}

fn main(rt: HostRuntime) -> ExitCode {
    match run_all(&rt) {
        Ok(()) => ExitCode::SUCCESS,
        Err(error) => {
            let _ = eprintln!(rt; "{error}");
            ExitCode::from(2)
        }
    }
}
