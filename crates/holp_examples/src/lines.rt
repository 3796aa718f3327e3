// Command lines, run one after another as the program `holp` runs them. So the scripts of the README and of docs/ are run, each in a
// session of its own, and logs are written, printed, checked and migrated. What commands tell on standard error (faults, messages,
// and in which of several scripts a refused command stands) is not compared.
use holp_commands::run_command;
use std::alloc::{AllocError, Global};
use std::fs;
use std::io::Write;

// The last word of a line whose command writes a file to standard output. Another user's output cannot be opened by this name, so
// the command writes a file, which is printed behind what it writes itself.
const STANDARD_OUTPUT: &str = "/dev/stdout";

// The file in place of standard output.
const WRITTEN: &str = "written.log";

// The words of a command line, of which the first is the program's name; `$` stands before them.
fn words_of(alloc: Global, line: &str) -> Result<Vec<String>, AllocError> {
    let mut words = Vec::new(alloc);
    for word in line.split_whitespace().skip(1) {
        let word = if word == STANDARD_OUTPUT {
            WRITTEN
        } else {
            word
        };
        words.push(String::from_str(alloc, word)?)?;
    }
    Ok(words)
}

// Prints a command line, what the command writes, and its status where that is not 0.
fn run_line(rt: &HostRuntime, line: &str) -> anyhow::Result<()> {
    println!(rt; "{line}")?;
    let words = words_of(rt.alloc(), line)?;
    let status = match run_command(rt, words.as_slice()) {
        Ok(status) => status,
        Err(error) => {
            let _ = eprintln!(rt; "holp: {error}");
            2
        }
    };
    if status != 0 {
        println!(rt; "[{status}]")?;
    } else if line.ends_with(STANDARD_OUTPUT) {
        let written = fs::read_to_string(rt, WRITTEN)?;
        rt.stdout().write_all(written.as_bytes())?;
    }
    Ok(())
}

/// Runs the lines of lines.txt, and prints each line, what the command writes on standard output, and behind it `[N]` where its
/// status N is not 0.
pub(crate) fn run_lines(rt: &HostRuntime) -> anyhow::Result<()> {
    let lines = fs::read_to_string(rt, "lines.txt")?;
    for line in lines.lines() {
        run_line(rt, line)?;
    }
    Ok(())
}
