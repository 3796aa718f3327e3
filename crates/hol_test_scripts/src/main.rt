//! Runs the files that data/files.txt lists, and prints each file's name with the number of its rows (`hol_test_sample_devices::Rows`),
//! and before it the title of each row of which something else comes out than is expected, with that. `{60|PIECE}` is a repetition
//! (`hol_test_sample_devices::expanded`). The scripts run over a host with the sample refiners and conversions, and with functions that
//! answer wrongly or not at all. The ending of a file says what is expected of a script:
//!
//! - `rows`: what it writes, at once and as a conversation that reads byte by byte, and as the texts of its records.
//! - `runs`: the same but for the records.
//! - `counts`: what the summary of the run counts.
//! - `calls`: what it writes over a host that counts its calls.
//! - `messages`: the messages and notes.
//! - `files`: the messages and notes, where the script was put together from three files.
//! - `memory`: the message on the first command, where there was no memory for it.
//! - `records`: the records, as JSON.
//! - `logs`: the bytes of its log.
//! - `entries`, `claims`: those of its log.
//! - `sizes`: the claims of its log, with each number below 100 at each mark `#`.
//!
//! And of a log, what the checker says:
//!
//! - `checked`: of the log.
//! - `fronts`: of each front of it.
//! - `parts`: the parts of its claims.
//!
//! What comes of other files is printed:
//!
//! - `read`: the rows as they are read.
//! - `refused`: what commands that are refused leave in the log of a script.
//! - `turns`: how many reads and writes of a session may be refused (`devices`).
//! - `bounds`: whether tautologies take few inferences (`bounds`).
//!
//! At last it prints what devices that do not end are refused for, and which entries are kept.
#![tactic(auto)]

mod answers;
mod bounds;
mod counting;
mod devices;
mod entries;
mod logs;
mod rows;
mod runs;
mod steps;
mod told;

use crate::devices::print_refusals;
use crate::entries::print_kept;
use crate::rows::try_file;
use std::fs;
use std::process::ExitCode;

fn try_all(rt: &HostRuntime) -> anyhow::Result<()> {
    let names = fs::read_to_string(rt, "files.txt")?;
    for name in names.lines() {
        try_file(rt, name)?;
    }
    print_refusals(rt)?;
    print_kept(rt)
}

fn main(rt: HostRuntime) -> ExitCode {
    match try_all(&rt) {
        Ok(()) => ExitCode::SUCCESS,
        Err(error) => {
            let _ = eprintln!(rt; "{error}");
            ExitCode::from(2)
        }
    }
}
