// The command that words name.

use crate::checking::{Listing, check_file, migrate_file};
use crate::conversing::converse_over;
use crate::ending::tell;
use crate::options::Options;
use crate::running::run_scripts;
use crate::words::{command_line, value};
use anyhow::ensure;
use clap::ArgMatches;
use clap::error::ErrorKind;
use hol_model::Fault;
use holp_files::holds_no_log;

// How often standard input is named.
fn count_of_input(names: &[&str]) -> usize {
    let mut count = 0usize;
    for at in 0..names.len() {
        if names[at] == "-" {
            count = count.saturating_add(1);
        }
    }
    count
}

// Whether a log may not be written to a file, whose bytes would be lost. Standard error then tells so, with these words before the name.
fn is_kept(rt: &HostRuntime, words: &str, name: Option<&str>) -> bool {
    let Some(name) = name else {
        return false;
    };
    let is_kept = holds_no_log(rt, name);
    if is_kept {
        let _ = eprintln!(rt;
            "holp: {words}{name}: it exists and is no proof log; name another file"
        );
    }
    is_kept
}

// `run`: the status is 0, 1 where a command of the scripts was refused, or that of a fault.
fn run(rt: &HostRuntime, matches: &ArgMatches<'_>) -> anyhow::Result<u8> {
    let Some(names) = matches.get_strs("SCRIPT") else {
        // clap has asked for a script.
        return Ok(2);
    };
    ensure!(
        count_of_input(names) < 2,
        "- is standard input, and may stand once"
    );
    let log = matches.get_str("log");
    if is_kept(rt, "--log ", log) {
        return Ok(2);
    }
    let options = Options {
        explains: matches.get_flag("explain"),
        shows_goals: matches.get_flag("goals"),
        tells_records: matches.get_flag("json"),
    };
    Ok(tell(rt, run_scripts(rt, names, options, log)))
}

// `repl`: the status is that of `run`.
fn repl(rt: &HostRuntime, matches: &ArgMatches<'_>) -> anyhow::Result<u8> {
    let log = matches.get_str("log");
    if is_kept(rt, "--log ", log) {
        return Ok(2);
    }
    let Some(names) = matches.get_strs("SCRIPT") else {
        return Ok(tell(rt, converse_over(rt, &[], log)));
    };
    ensure!(
        count_of_input(names) == 0,
        "- is standard input, which comes last"
    );
    Ok(tell(rt, converse_over(rt, names, log)))
}

// `check`: the status is 0, 3 where the log is refused, or that of a fault.
fn check(rt: &HostRuntime, matches: &ArgMatches<'_>) -> u8 {
    let listing = if matches.get_flag("review") {
        Listing::Review
    } else if matches.get_flag("theory") {
        Listing::Theory
    } else {
        Listing::Claims
    };
    tell(rt, check_file(rt, value(matches, "LOG"), listing))
}

// `migrate`: the status is 0, 3 where the log is refused, or that of a fault.
fn migrate(rt: &HostRuntime, matches: &ArgMatches<'_>) -> u8 {
    let new = value(matches, "NEW");
    if is_kept(rt, "", Some(new)) {
        return 2;
    }
    tell(rt, migrate_file(rt, value(matches, "LOG"), new))
}

// Runs the command that was asked for.
fn run_matched(rt: &HostRuntime, matches: &ArgMatches<'_>) -> anyhow::Result<u8> {
    match matches.subcommand() {
        Some(("run", asked)) => run(rt, asked),
        Some(("repl", asked)) => repl(rt, asked),
        Some(("check", asked)) => Ok(check(rt, asked)),
        Some(("migrate", asked)) => Ok(migrate(rt, asked)),
        // clap has asked for a command.
        _ => Ok(2),
    }
}

/// Runs the command that words name, of which the first is the program's name, and answers the exit status: 0 where all was
/// accepted, 1 where a command of a script was refused, 2 for wrong words and for faults of files, memory or length, 3 for a
/// refused log. Help and the version go to standard output, faults to standard error. An error is another with status 2,
/// which is not told yet.
pub fn run_command(rt: &HostRuntime, words: &[String]) -> anyhow::Result<u8> {
    let command = command_line(rt.alloc())?;
    let error = match command.try_get_matches_from(words) {
        Ok(matches) => return run_matched(rt, &matches),
        Err(error) => error,
    };
    if error.kind() == ErrorKind::OutOfMemory {
        return Ok(tell(rt, Err(Fault::Memory)));
    }
    error.print(rt)?;
    Ok(error.exit_code() as u8)
}
