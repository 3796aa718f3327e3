// The host of the program: the sample refiners and conversions, and those of `hol_tactics`.

use hol_host::Beside;
use hol_host_samples::{SAMPLES, Samples};
use hol_model::Fault;
use hol_tactics::{TACTICS, Tactics};
use std::alloc::Global;

/// The host of the program.
pub(crate) fn host() -> Beside<Samples, Tactics> {
    Beside {
        first: SAMPLES,
        second: TACTICS,
    }
}

// Puts the names of a table at the end.
fn push_names<F: Copy>(
    alloc: Global,
    names: &mut Vec<String>,
    table: &[(&'static str, F)],
) -> Result<(), Fault> {
    for entry in table {
        names.push(String::from_str(alloc, entry.0)?)?;
    }
    Ok(())
}

/// The names of the functions of the host.
pub(crate) fn host_names(alloc: Global) -> Result<Vec<String>, Fault> {
    let mut names = Vec::new(alloc);
    push_names(alloc, &mut names, &hol_host_samples::REFINERS)?;
    push_names(alloc, &mut names, &hol_host_samples::CONVERSIONS)?;
    push_names(alloc, &mut names, &hol_tactics::REFINERS)?;
    push_names(alloc, &mut names, &hol_tactics::CONVERSIONS)?;
    Ok(names)
}
