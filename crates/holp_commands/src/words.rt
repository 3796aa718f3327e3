// The words of the command line: commands, their arguments and options.

use clap::{Arg, ArgAction, ArgMatches, Command};
use hol_model::Fault;
use std::alloc::{AllocError, Global};

/// The version of the program.
pub const VERSION: &str = "0.1.0";

// An argument that names a file.
fn file_argument<'a>(alloc: Global, name: &'a str, help: &'a str) -> Arg<'a> {
    Arg::new(alloc, name)
        .help(help)
        .required(true)
        .action(ArgAction::Set)
}

// The option that asks for a log.
fn log_option<'a>(alloc: Global) -> Arg<'a> {
    Arg::new(alloc, "log")
        .long("log")
        .value_name("FILE")
        .help("The file to write the proof log to")
        .action(ArgAction::Set)
}

// An option that stands alone.
fn flag<'a>(alloc: Global, name: &'a str, help: &'a str) -> Arg<'a> {
    Arg::new(alloc, name)
        .long(name)
        .help(help)
        .action(ArgAction::SetTrue)
}

// The option that asks for lines of JSON.
fn json_option<'a>(alloc: Global) -> Result<Arg<'a>, AllocError> {
    let help = "Tells each command by a line of JSON, with its message";
    flag(alloc, "json", help)
        .conflicts_with("log")?
        .conflicts_with("explain")?
        .conflicts_with("goals")
}

fn run_words<'a>(alloc: Global) -> Result<Command<'a>, Fault> {
    let help = "The files of the proof scripts; - is standard input";
    let scripts = file_argument(alloc, "SCRIPT", help)
        .num_args(1..)
        .action(ArgAction::Append);
    let words = Command::new(alloc, "run")
        .about("Runs proof scripts, one after another as one")
        .arg(scripts)?
        .arg(log_option(alloc))?
        .arg(flag(alloc, "explain", "Explains each refusal on standard error"))?
        .arg(flag(alloc, "goals", "Lays open goals out in lines"))?;
    Ok(words.arg(json_option(alloc)?)?)
}

fn repl_words<'a>(alloc: Global) -> Result<Command<'a>, Fault> {
    let scripts = Arg::new(alloc, "SCRIPT")
        .help("The files of the proof scripts that come first")
        .num_args(0..)
        .action(ArgAction::Append);
    Ok(
        Command::new(alloc, "repl")
            .about("Runs proof scripts, and then commands as they come on standard input")
            .arg(scripts)?
            .arg(log_option(alloc))?,
    )
}

fn check_words<'a>(alloc: Global) -> Result<Command<'a>, Fault> {
    let theory = "Lists the definitions and declarations of the log too";
    let review =
        "Lists theory and claims as scripts write them, and warns of unusual logical constants";
    let log = "The file of the proof log; - is standard input";
    Ok(
        Command::new(alloc, "check")
            .about("Checks a proof log and lists its claims")
            .arg(flag(alloc, "theory", theory))?
            .arg(flag(alloc, "review", review).conflicts_with("theory")?)?
            .arg(file_argument(alloc, "LOG", log))?,
    )
}

fn migrate_words<'a>(alloc: Global) -> Result<Command<'a>, Fault> {
    let log = "The file of the proof log; - is standard input";
    Ok(
        Command::new(alloc, "migrate")
            .about("Checks a proof log and writes it in the second version")
            .arg(file_argument(alloc, "LOG", log))?
            .arg(file_argument(alloc, "NEW", "The file to write"))?,
    )
}

/// The commands with their arguments.
pub fn command_line<'a>(alloc: Global) -> Result<Command<'a>, Fault> {
    let mut commands = Vec::new(alloc);
    commands.push(run_words(alloc)?)?;
    commands.push(repl_words(alloc)?)?;
    commands.push(check_words(alloc)?)?;
    commands.push(migrate_words(alloc)?)?;
    Ok(
        Command::new(alloc, "holp")
            .version(VERSION)
            .about("A theorem prover for higher-order logic")
            .subcommand_required(true)
            .subcommands(commands)?,
    )
}

/// The value of an argument that clap has asked for; no text where there is none.
pub fn value<'a>(matches: &'a ArgMatches<'_>, name: &str) -> &'a str {
    match matches.get_str(name) {
        Some(value) => value,
        None => "",
    }
}
