// The text of the pruned log of a journal.
ghost use Rattle.std.specs.Prelude.{◌≡◌, ◌≤◌, ◌<◌, [], ◌∷◌, length, IfOk, IfErr, IsErrOf, OnOk, IsTrue, Contains};
ghost use Rattle.hol_model.specs.declared.fault.Fault.TheVariants.{Memory, TooLong};
ghost use Rattle.hol_logtext.specs.LogBytes.{bytes_of_lines};
ghost use Rattle.hol_journal_log.specs.Claims.{claims_of};
ghost use Rattle.hol_journal_log.specs.LogWriting.{nothing_written, write_entries, log_lines};
ghost use Rattle.hol_journal_log.specs.Marking.{AreCitedFrom};
ghost use Rattle.hol_journal_log.specs.Needed.{MarksNeeded, StandOnEarlier};
ghost use Rattle.hol_journal_log.specs.Pruning.{AreMade, AreFitting, HasNames, entries_of_claims};
ghost use Rattle.hol_journal_log.specs.LogOf.{IsNamedText, IsPastLimit};
ghost use Rattle.hol_journal_log.specs.Writer.{written};
ghost use Rattle.hol_journal_log.specs.Writing.{KeepsNames};

use crate::claim::Claim;
use crate::fitting::formulas_fit;
use crate::mentions::mark_mentioned;
use crate::needed::{Names, cited, mark_named, unmarked_names};
use crate::writer::Writer;
use hol_journal::Recorder;
use hol_model::{Fault, TEXT_BYTES_LIMIT};
use std::alloc::Global;

/// The text of the log of the claims: the lines of the entries that they need, and of the claims.
///
/// Refusals: Memory, also where an entry that it needs is not kept, and TooLong, where the text would be longer than the limit.
pub(crate) fn pruned_text<'a>(
    recorder: &'a Recorder,
    claims: &[Claim<'a>],
) -> Result<Vec<u8>, Fault>
    requires { AreMade recorder.now (claims_of claims.now) }
    ensures ok { IfOk result (λ text. IsNamedText recorder.now (claims_of claims.now) text.items) }
    ensures within_limit { IfOk result (λ text. length text.items ≤ TEXT_BYTES_LIMIT) }
    ensures too_long { IsErrOf result TooLong → IsPastLimit recorder.now (claims_of claims.now) }
    ensures refusals { IfErr result (Contains (TooLong ∷ Memory ∷ [])) }
{
    let alloc = recorder.alloc();
    let _entry = recorder.stored(0);
    let claimed = cited_entries(alloc, claims)?;
    let mut marks = cited(recorder, &claimed)?;
    let missing = unmarked_names(recorder, &marks)?;
    let mut writer = Writer::new(alloc, missing, marked(&marks))?;
    needed_text(recorder, claims, &claimed, &mut marks, &mut writer)
}

// Writes the entries that the claimed ones need, and the claims, and takes the text.
fn needed_text<'a>(
    recorder: &'a Recorder,
    claims: &[Claim<'a>],
    claimed: &[usize],
    marks: &mut Vec<bool>,
    writer: &mut Writer<'a>,
) -> Result<Vec<u8>, Fault>
    requires earlier { StandOnEarlier recorder.now.entries }
    requires claimed { claimed.now ≡ entries_of_claims (claims_of claims.now) }
    requires cited { AreCitedFrom recorder.now.entries claimed.now 0 marks.old.items }
    requires begun { written writer.old ≡ nothing_written }
    ensures ok { IfOk result (λ text. IsNamedText recorder.now (claims_of claims.now) text.items) }
    ensures within_limit { IfOk result (λ text. length text.items ≤ TEXT_BYTES_LIMIT) }
    ensures too_long { IsErrOf result TooLong → IsPastLimit recorder.now (claims_of claims.now) }
    ensures refusals { IfErr result (Contains (TooLong ∷ Memory ∷ [])) }
{
    write_needed(recorder, claimed, marks, writer)?;
    text_written(recorder, marks, claims, writer)
}

// How many marks are set.
fn marked(marks: &[bool]) -> usize {
    let mut count: usize = 0;
    for mark in marks {
        if *mark {
            count = count.saturating_add(1);
        }
    }
    count
}

/// The theorems of claims are theorems, of formulas within the limits.
pub(crate) fn claims_fit(claims: &[Claim<'_>])
    ensures { AreFitting (claims_of claims.now) }
{
    for at in 0..claims.len() {
        let claim = &claims[at];
        formulas_fit(claim.theorem.theorem());
    }
}

// The numbers of the entries of claims.
fn cited_entries(alloc: Global, claims: &[Claim<'_>]) -> Result<Vec<usize>, Fault>
    ensures ok { IfOk result (λ numbers. numbers.items ≡ entries_of_claims (claims_of claims.now)) }
    ensures err { IfErr result (λ fault. fault ≡ Memory) }
{
    let mut numbers = Vec::new(alloc);
    for at in 0..claims.len() {
        let claim = &claims[at];
        numbers.push(claim.theorem.entry())?;
    }
    Ok(numbers)
}

// Writes all marked entries anew.
fn write_anew<'a>(
    recorder: &'a Recorder,
    marks: &[bool],
    writer: &mut Writer<'a>,
) -> Result<(), Fault>
    requires { length marks.now ≡ length recorder.now.entries }
    ensures written { OnOk result (written writer.new ≡ write_entries 0 recorder.now.entries marks.now nothing_written) }
    ensures named { OnOk result (KeepsNames nothing_written (written writer.new)) }
    ensures err { IfErr result (λ fault. fault ≡ Memory) }
{
    let alloc = recorder.alloc();
    *writer = Writer::new(alloc, Names::new(alloc), marked(marks))?;
    writer.write_entries(alloc, recorder, marks)
}

// Writes what is cited. Where it mentions a name whose entry is not marked, the entries of such names are marked, and all is written anew.
fn write_mentioned<'a>(
    recorder: &'a Recorder,
    claimed: &[usize],
    marks: &mut Vec<bool>,
    writer: &mut Writer<'a>,
) -> Result<(), Fault>
    requires cited { AreCitedFrom recorder.now.entries claimed.now 0 marks.old.items }
    requires begun { written writer.old ≡ nothing_written }
    ensures cited { OnOk result (AreCitedFrom recorder.now.entries claimed.now 0 marks.new.items) }
    ensures written { OnOk result (written writer.new ≡ write_entries 0 recorder.now.entries marks.new.items nothing_written) }
    ensures named { OnOk result (KeepsNames nothing_written (written writer.new)) }
    ensures err { IfErr result (λ fault. fault ≡ Memory) }
{
    let is_whole = writer.write_until_missing(recorder.alloc(), recorder, marks)?;
    if is_whole {
        return Ok(());
    }
    mark_mentioned(recorder, claimed, marks)?;
    write_anew(recorder, marks, writer)
}

// Writes the entries that the claimed ones need. The entries that introduce names are looked for by what is written, where each term stands
// once. If any was passed over, all is written again.
fn write_needed<'a>(
    recorder: &'a Recorder,
    claimed: &[usize],
    marks: &mut Vec<bool>,
    writer: &mut Writer<'a>,
) -> Result<(), Fault>
    requires earlier { StandOnEarlier recorder.now.entries }
    requires cited { AreCitedFrom recorder.now.entries claimed.now 0 marks.old.items }
    requires begun { written writer.old ≡ nothing_written }
    ensures needed { OnOk result (MarksNeeded recorder.now.entries claimed.now marks.new.items) }
    ensures written { OnOk result (written writer.new ≡ write_entries 0 recorder.now.entries marks.new.items nothing_written) }
    ensures named { OnOk result (KeepsNames nothing_written (written writer.new)) }
    ensures err { IfErr result (λ fault. fault ≡ Memory) }
{
    write_mentioned(recorder, claimed, marks, writer)?;
    let mut names = Names::new(recorder.alloc());
    writer.note_names(&mut names)?;
    let mut is_more = false;
    mark_named(recorder, claimed, marks, &mut names, &mut is_more)?;
    if !is_more {
        return Ok(());
    }
    write_anew(recorder, marks, writer)
}

// Writes the claims behind the marked entries, and takes the text.
fn text_written<'a>(
    recorder: &'a Recorder,
    marks: &[bool],
    claims: &[Claim<'a>],
    writer: &mut Writer<'a>,
) -> Result<Vec<u8>, Fault>
    requires entries { written writer.old ≡ write_entries 0 recorder.now.entries marks.now nothing_written }
    requires names { KeepsNames nothing_written (written writer.old) }
    ensures ok { IfOk result (λ text. text.items ≡ bytes_of_lines (log_lines recorder.now.entries marks.now (claims_of claims.now))) }
    ensures named { IfOk result (λ text. HasNames (log_lines recorder.now.entries marks.now (claims_of claims.now))) }
    ensures within_limit { IfOk result (λ text. length text.items ≤ TEXT_BYTES_LIMIT) }
    ensures too_long { IsErrOf result TooLong → TEXT_BYTES_LIMIT < length (bytes_of_lines (log_lines recorder.now.entries marks.now (claims_of claims.now))) }
    ensures refusals { IfErr result (Contains (TooLong ∷ Memory ∷ [])) }
{
    let alloc = recorder.alloc();
    writer.write_claims(alloc, claims)?;
    writer.finish(alloc, claims.len())
}
