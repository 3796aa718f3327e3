// The scripts of the library (library/README.md), the problems and the developments over them, each behind the scripts that it needs,
// as one script, over a host with the refiners and conversions of `hol_tactics`; and tests of these, each on goals that it refines and
// on goals that it does not, with Pelletier's problems 18 to 52, 56, 57, 59 and 60, and one of Los.
use hol_check::check;
use hol_device_adapters::FromRead;
use hol_tactics::TACTICS;
use hol_test_sample_devices::{Ran, run_kept};
use std::fs;
use std::io::Write;

// Puts the text of a script of the library behind others.
fn append_script(rt: &HostRuntime, text: &mut String, name: &str) -> anyhow::Result<()> {
    let path = format!(in rt.alloc(); "library/{name}")?;
    let script = fs::read_to_string(rt, path.as_str())?;
    text.push_str(script.as_str())?;
    Ok(())
}

// Runs the last of some scripts behind the others. Prints what it writes of its own, and how many claims the checker finds in the log.
fn run_last(rt: &HostRuntime, names: &str) -> anyhow::Result<()> {
    let alloc = rt.alloc();
    let (needed, name) = match names.rsplit_once(' ') {
        Some(parts) => parts,
        None => ("", names),
    };
    let mut text = String::new(alloc);
    for before in needed.split_whitespace() {
        append_script(rt, &mut text, before)?;
    }
    let Ran { output: before, .. } = run_kept(alloc, text.as_bytes(), false, &TACTICS)?;
    append_script(rt, &mut text, name)?;
    let Ran { ended, output, log } = run_kept(alloc, text.as_bytes(), true, &TACTICS)?;
    ended.whole()?;
    println!(rt; "== {name}")?;
    if let Some(own) = output.get(before.len()..) {
        rt.stdout().write_all(own)?;
    }
    let claims = check(alloc, &mut FromRead::new(log.as_slice()))?;
    println!(rt; "claims of its log: {}", claims.len())?;
    Ok(())
}

/// Runs the scripts of library.txt, of which each line names one behind those that it needs.
pub(crate) fn run_library(rt: &HostRuntime) -> anyhow::Result<()> {
    let lines = fs::read_to_string(rt, "library.txt")?;
    for names in lines.lines() {
        run_last(rt, names)?;
    }
    Ok(())
}
