// Checks and migrates logs.

use crate::reviewing::print_review;
use hol_check::{Claim, LogEntry, check, check_log, migrate, write_claims, write_entries};
use hol_device_adapters::{FromCall, IntoCall};
use hol_model::Fault;
use holp_files::{Input, NewFile};
use itoa::Buffer;
use std::io::Write;

// The file of this name, to be read; `-` names standard input.
fn open(rt: &HostRuntime, name: &str) -> Result<Input, Fault> {
    match Input::open(rt, name) {
        Ok(input) => Ok(input),
        Err(_) => Err(Fault::ReadFault),
    }
}

/// What is printed of a log that is accepted.
#[derive(Clone, Copy)]
pub enum Listing {
    /// Its claims and their number.
    Claims,
    /// The entries of its theory, then its claims and their number.
    Theory,
    /// What it says for its reviewer.
    Review,
}

/// Checks a log, and prints what is to be listed of it.
pub fn check_file(rt: &HostRuntime, log: &str, listing: Listing) -> Result<u64, Fault> {
    let mut file = open(rt, log)?;
    let reads = Box::new(rt.alloc(), move |buf: &mut [u8]| file.read(buf))?;
    let mut source = FromCall::new(reads);
    match listing {
        Listing::Claims => {
            let claims = check(rt.alloc(), &mut source)?;
            print_claims(rt, &claims)
        }
        Listing::Theory => {
            let log = check_log(rt.alloc(), &mut source)?;
            print_entries(rt, &log.entries)?;
            print_claims(rt, &log.claims)
        }
        Listing::Review => {
            let log = check_log(rt.alloc(), &mut source)?;
            print_review(rt, &log)?;
            Ok(0)
        }
    }
}

fn print_entries(rt: &HostRuntime, entries: &[LogEntry]) -> Result<(), Fault> {
    let mut output = rt.stdout();
    let writes = Box::new(rt.alloc(), move |piece: &[u8]| output.write(piece))?;
    write_entries(rt.alloc(), entries, &mut IntoCall::new(writes))
}

// Prints claims and their number.
fn print_claims(rt: &HostRuntime, claims: &[Claim]) -> Result<u64, Fault> {
    let mut output = rt.stdout();
    let writes = Box::new(rt.alloc(), move |piece: &[u8]| output.write(piece))?;
    write_claims(rt.alloc(), claims, &mut IntoCall::new(writes))?;
    let mut digits = Buffer::new();
    match println!(rt; "claims: {}", digits.format(claims.len())) {
        Ok(()) => Ok(0),
        Err(_) => Err(Fault::WriteFault),
    }
}

/// Checks a log, writes it in the second version to a new file, and prints the number of its claims. The log is read to
/// its end before the new file is made, and the file is made for an accepted log alone.
pub fn migrate_file(rt: &HostRuntime, log: &str, new: &str) -> Result<u64, Fault> {
    let mut file = open(rt, log)?;
    let reads = Box::new(rt.alloc(), move |buf: &mut [u8]| file.read(buf))?;
    let claims = migrate(
        rt.alloc(),
        &mut FromCall::new(reads),
        &mut NewFile::new(rt, new),
    )?;
    let mut digits = Buffer::new();
    match println!(rt; "migrated: {} claims", digits.format(claims.len())) {
        Ok(()) => Ok(0),
        Err(_) => Err(Fault::WriteFault),
    }
}
