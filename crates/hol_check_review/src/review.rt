// A review, written to a sink.
ghost use Rattle.std.specs.Prelude.{◌≡◌, false, IfOk, OnOk};
ghost use Rattle.std.specs.String.{string_bytes};
ghost use Rattle.std.specs.Io.KnownBytes.{Appends};
ghost use Rattle.hol_syntax.specs.Scope.{scope_of};
ghost use Rattle.hol_check_review.specs.Reviews.{IsClaimLine};
ghost use Rattle.hol_check_review.specs.Written.{IsNotPrinted, IsPiece, IsEntryPiece, IsClaimPiece, ArePieces, Writes, IsReview};

use crate::lines::{line_of_claim, line_of_entry};
use crate::theory::scope_of_entries;
use crate::types::text_of_name;
use crate::usual::{mark_of, remark_on};
use hol_check::{Claim, EntryParts, LogEntry};
use hol_device_io::write_all;
use hol_model::{Fault, Sink};
use hol_syntax::Scope;
use std::alloc::Global;

// What stands in place of a line, where there is none: not where memory has run out.
fn not_printed(alloc: Global, name: &[u8], fault: Fault, mark: &str) -> Result<String, Fault>
    ensures { IfOk result (λ line. IsNotPrinted (string_bytes line)) }
{
    if fault == Fault::Memory {
        return Err(fault);
    }
    let name = text_of_name(name)?;
    let reason = format!(in alloc; ", {fault}){mark}")?;
    Ok(format!(in alloc; "{name}: (WARNING: not printed{reason}")?)
}

// Counts a line that is not printed.
fn count(refused: &mut u64) {
    *refused = refused.saturating_add(1);
}

// The name of an entry.
fn name_of(entry: &LogEntry) -> &[u8] {
    match entry.parts() {
        EntryParts::Definition(name, _, _) => name,
        EntryParts::DeclaredType(name) => name,
        EntryParts::DeclaredConstant(name, _) => name,
    }
}

// The piece of a review that tells an entry. One that is not printed is counted.
fn entry_piece(
    alloc: Global,
    scope: &Scope,
    entry: &LogEntry,
    refused: &mut u64,
) -> Result<String, Fault>
    ensures { IfOk result (λ piece. IsEntryPiece (scope_of scope.now) entry.now (string_bytes piece)) }
{
    match line_of_entry(alloc, scope, entry) {
        Ok(line) => Ok(format!(in alloc; "{line}\n")?),
        Err(fault) => {
            count(refused);
            let line = not_printed(alloc, name_of(entry), fault, mark_of(remark_on(entry)))?;
            Ok(format!(in alloc; "{line}\n")?)
        }
    }
}

// The piece of a review that tells a claim. One that is not printed is counted.
fn piece_of_claim(
    alloc: Global,
    scope: &Scope,
    claim: &Claim,
    refused: &mut u64,
) -> Result<String, Fault>
    ensures { IfOk result (λ piece. IsPiece (IsClaimLine (scope_of scope.now) claim.now) (string_bytes piece)) }
{
    match line_of_claim(alloc, scope, claim) {
        Ok(line) => Ok(format!(in alloc; "{line}\n")?),
        Err(fault) => {
            count(refused);
            let line = not_printed(alloc, claim.name(), fault, "")?;
            Ok(format!(in alloc; "{line}\n")?)
        }
    }
}

// The same where claims of its kind are wanted: with hypotheses, or without.
fn claim_piece(
    alloc: Global,
    scope: &Scope,
    wanted: bool,
    claim: &Claim,
    refused: &mut u64,
) -> Result<String, Fault>
    ensures { IfOk result (λ piece. IsClaimPiece (scope_of scope.now) wanted claim.now (string_bytes piece)) }
{
    if (0 < claim.hyp_count()) == wanted {
        piece_of_claim(alloc, scope, claim, refused)
    } else {
        Ok(String::new(alloc))
    }
}

// Writes the pieces of entries.
fn write_entries<W: Sink>(
    alloc: Global,
    scope: &Scope,
    entries: &[LogEntry],
    refused: &mut u64,
    writer: &mut W,
) -> Result<(), Fault>
    requires unfailed { W.has_failed writer.old ≡ false }
    ensures ok { OnOk result (Writes (W.contents writer.old) (W.contents writer.new) (ArePieces (IsEntryPiece (scope_of scope.now)) entries.now)) }
    ensures unfailed { OnOk result (W.has_failed writer.new ≡ false) }
{
    for entry in entries {
        let piece = entry_piece(alloc, scope, entry, refused)?;
        write_all(writer, piece.as_bytes())?;
    }
    Ok(())
}

// Writes the pieces of claims of a kind.
fn write_claims<W: Sink>(
    alloc: Global,
    scope: &Scope,
    wanted: bool,
    claims: &[Claim],
    refused: &mut u64,
    writer: &mut W,
) -> Result<(), Fault>
    requires unfailed { W.has_failed writer.old ≡ false }
    ensures ok { OnOk result (Writes (W.contents writer.old) (W.contents writer.new) (ArePieces (IsClaimPiece (scope_of scope.now) wanted) claims.now)) }
    ensures unfailed { OnOk result (W.has_failed writer.new ≡ false) }
{
    for claim in claims {
        let piece = claim_piece(alloc, scope, wanted, claim, refused)?;
        write_all(writer, piece.as_bytes())?;
    }
    Ok(())
}

/// Writes what a checked log says: the heading `theory:` and a line for each entry, in the order given; the heading
/// `claims without hypotheses:` and a line for each of these; `claims with hypotheses:` and a line for each of those. A
/// line that is refused, but for memory, is told as not printed, with the name of the refusal; answers how many are.
/// Refusals: WriteFault, where the sink fails; Memory; those of `scope_of_entries`.
pub fn write_review<W: Sink>(
    alloc: Global,
    entries: &[LogEntry],
    claims: &[Claim],
    writer: &mut W,
) -> Result<u64, Fault>
    requires unfailed { W.has_failed writer.old ≡ false }
    ensures ok { OnOk result (Writes (W.contents writer.old) (W.contents writer.new) (IsReview entries.now claims.now)) }
    ensures unfailed { OnOk result (W.has_failed writer.new ≡ false) }
{
    let scope = scope_of_entries(alloc, entries)?;
    let mut refused = 0;
    write_all(writer, b"theory:\n".as_slice())?;
    write_entries(alloc, &scope, entries, &mut refused, writer)?;
    write_all(writer, b"claims without hypotheses:\n".as_slice())?;
    write_claims(alloc, &scope, false, claims, &mut refused, writer)?;
    write_all(writer, b"claims with hypotheses:\n".as_slice())?;
    write_claims(alloc, &scope, true, claims, &mut refused, writer)?;
    Ok(refused)
}
