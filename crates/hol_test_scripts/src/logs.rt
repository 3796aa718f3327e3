// What the checker says of logs.
use hol_check::{Claim, TermParts, TermView, check, check_log, write_claims, write_entries};
use hol_device_adapters::FromRead;
use hol_model::Fault;
use hol_test_sample_devices::Kept;
use std::alloc::Global;

/// The claims of a log.
pub(crate) fn claims_of(alloc: Global, log: &[u8]) -> Result<Vec<u8>, Fault> {
    let claims = check(alloc, &mut FromRead::new(log))?;
    let mut writer = Kept::new(alloc);
    write_claims(alloc, claims.as_slice(), &mut writer)?;
    Ok(writer.bytes)
}

/// The entries of a log.
pub(crate) fn entries_of(alloc: Global, log: &[u8]) -> Result<Vec<u8>, Fault> {
    let checked = check_log(alloc, &mut FromRead::new(log))?;
    let mut writer = Kept::new(alloc);
    write_entries(alloc, checked.entries.as_slice(), &mut writer)?;
    Ok(writer.bytes)
}

// The name of a variable, and `_` of another term.
fn push_variable(text: &mut Vec<u8>, term: &TermView<'_>) -> Result<(), Fault> {
    match term.parts() {
        TermParts::Free(name, _ty) => text.extend_from_slice(name)?,
        _ => text.push(b'_')?,
    }
    Ok(())
}

// The parts of a claim.
fn push_parts(text: &mut Vec<u8>, claim: &Claim) -> Result<(), Fault> {
    text.extend_from_slice(claim.name())?;
    text.extend_from_slice(b": ")?;
    for place in 0..claim.hyp_count() {
        if let Some(hyp) = claim.hyp(place) {
            push_variable(text, &hyp)?;
            text.push(b' ')?;
        }
    }
    text.extend_from_slice(b"|- ")?;
    push_variable(text, &claim.concl())?;
    text.push(b'\n')?;
    Ok(())
}

/// The parts of the claims of a log.
pub(crate) fn parts_of(alloc: Global, log: &[u8]) -> Result<Vec<u8>, Fault> {
    let claims = check(alloc, &mut FromRead::new(log))?;
    let mut text = Vec::new(alloc);
    for claim in &claims {
        push_parts(&mut text, claim)?;
    }
    Ok(text)
}

/// What the checker says of each front of a log.
pub(crate) fn fronts_of(alloc: Global, log: &[u8]) -> Result<Vec<u8>, Fault> {
    let mut text = Vec::new(alloc);
    for length in 0..log.len() {
        let lines = or_refusal(alloc, claims_of(alloc, &log[..length]))?;
        text.extend_from_slice(&lines)?;
    }
    Ok(text)
}

// The line of a refusal.
fn line_of_refusal(alloc: Global, fault: Fault) -> Result<Vec<u8>, Fault> {
    let line = match fault {
        Fault::LogFault { line, cause } => {
            format!(in alloc; "refused at line {line}: {cause}\n")?
        }
        fault => format!(in alloc; "{fault}\n")?,
    };
    Ok(line.into_bytes())
}

/// An answer, or the line of its refusal.
pub(crate) fn or_refusal(alloc: Global, answer: Result<Vec<u8>, Fault>) -> Result<Vec<u8>, Fault> {
    match answer {
        Ok(lines) => Ok(lines),
        Err(fault) => line_of_refusal(alloc, fault),
    }
}
