// Tells what a checked log says, for its reviewer.

use hol_check::{CheckedLog, EntryParts};
use hol_check_review::{Remark, remark_on, write_review};
use hol_device_adapters::IntoCall;
use hol_model::Fault;
use itoa::Buffer;
use std::io::Write;

// How many entries and claims there are of each kind, and how often the reader is warned.
#[derive(Clone, Copy)]
struct Counts {
    definitions: u64,
    declarations: u64,
    claims: u64,
    claims_with_hypotheses: u64,
    warnings: u64,
}

fn add(count: &mut u64) {
    *count = count.saturating_add(1);
}

impl Counts {
    // Those of a log, of whose lines so many are not printed.
    fn of(log: &CheckedLog, not_printed: u64) -> Counts {
        let mut counts = Counts {
            definitions: 0,
            declarations: 0,
            claims: 0,
            claims_with_hypotheses: 0,
            warnings: not_printed,
        };
        for entry in &log.entries {
            match entry.parts() {
                EntryParts::Definition(_, _, _) => add(&mut counts.definitions),
                EntryParts::DeclaredType(_) | EntryParts::DeclaredConstant(_, _) => {
                    add(&mut counts.declarations);
                }
            }
            if remark_on(entry) == Remark::Unusual {
                add(&mut counts.warnings);
            }
        }
        for claim in &log.claims {
            if claim.hyp_count() == 0 {
                add(&mut counts.claims);
            } else {
                add(&mut counts.claims_with_hypotheses);
            }
        }
        counts
    }
}

// Prints a number behind its title.
fn print_count(rt: &HostRuntime, title: &str, count: u64) -> Result<(), Fault> {
    let mut digits = Buffer::new();
    match println!(rt; "{title}: {}", digits.format(count)) {
        Ok(()) => Ok(()),
        Err(_) => Err(Fault::WriteFault),
    }
}

fn print_counts(rt: &HostRuntime, counts: Counts) -> Result<(), Fault> {
    match println!(rt; "summary:") {
        Ok(()) => {}
        Err(_) => return Err(Fault::WriteFault),
    }
    print_count(rt, "definitions", counts.definitions)?;
    print_count(rt, "declarations", counts.declarations)?;
    print_count(rt, "claims without hypotheses", counts.claims)?;
    print_count(rt, "claims with hypotheses", counts.claims_with_hypotheses)?;
    print_count(rt, "warnings", counts.warnings)
}

/// Prints the theory of a log, its claims without hypotheses and those with hypotheses, and how many there are of each.
pub(crate) fn print_review(rt: &HostRuntime, log: &CheckedLog) -> Result<(), Fault> {
    let alloc = rt.alloc();
    let mut output = rt.stdout();
    let writes = Box::new(alloc, move |piece: &[u8]| output.write(piece))?;
    let mut writer = IntoCall::new(writes);
    let not_printed = write_review(alloc, &log.entries, &log.claims, &mut writer)?;
    print_counts(rt, Counts::of(log, not_printed))
}
