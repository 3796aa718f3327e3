//! A host: it stores three refiners and a conversion of its own, and runs a script that calls them (docs/HOSTS.md).
#![tactic(auto)]

mod conversions;
mod refiners;

use conversions::double_negation;
use hol_host::Host;
use hol_just::Goal;
use hol_model::Fault;
use hol_script::run_file;
use hol_terms::Term;
use refiners::{admit, back, conjuncts};
use std::alloc::Global;
use std::process::ExitCode;

// Runs the script over a host of these functions.
fn run_script(rt: &HostRuntime) -> Result<(), Fault> {
    let alloc = rt.alloc();
    let mut host = Host::new(alloc);
    let backs = Box::new(alloc, |alloc: Global, goal: &Goal| back(alloc, goal))?;
    host.refiner(alloc, "back", backs)?;
    let splits = Box::new(alloc, |alloc: Global, goal: &Goal| conjuncts(alloc, goal))?;
    host.refiner(alloc, "conjuncts", splits)?;
    let admits = Box::new(alloc, |alloc: Global, goal: &Goal| admit(alloc, goal))?;
    host.refiner(alloc, "admit", admits)?;
    let drops = Box::new(
        alloc,
        |alloc: Global, term: &Term| double_negation(alloc, term),
    )?;
    host.conv(alloc, "double_negation", drops)?;
    run_file(rt, "host.hol", &host)?;
    Ok(())
}

fn main(rt: HostRuntime) -> ExitCode {
    match run_script(&rt) {
        Ok(()) => ExitCode::SUCCESS,
        Err(_) => ExitCode::from(2),
    }
}
