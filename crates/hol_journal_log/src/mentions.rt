// The entries that introduce names that marked entries mention, found by a walk over terms. Terms are told apart by their marks alone, so
// a name may be passed over.
ghost use Rattle.std.specs.Prelude.{◌≡◌, Some, [], if◌then◌else◌, slice_get, IfOk, IfErr, OnOk};
ghost use Rattle.std.specs.List.{flat_map};
ghost use Rattle.hol_model.specs.declared.fault.Fault.TheVariants.{Memory};
ghost use Rattle.hol_journal.specs.Steps.{JournalEntry, terms_of, both_parts};
ghost use Rattle.hol_journal.specs.Views.{step_of, entry_of};
ghost use Rattle.hol_journal_log.specs.Needed.{names_in_term, names_in, StandOnEarlier};
ghost use Rattle.hol_journal_log.specs.Marking.{NotesAmong, AreCitedFrom, AreMentioned};

use crate::hints::Hints;
use crate::needed::{Names, name_stored, note_type};
use hol_journal::Recorder;
use hol_journal::entry::{Entry, Rule};
use hol_model::Fault;
use hol_terms::{Parts, Term};

/// Marks besides the entries that introduce names that marked entries mention, and, from the newest back, names that these mention.
/// Refusal: Memory, also where entries are not kept.
pub(crate) fn mark_mentioned(
    recorder: &Recorder,
    claimed: &[usize],
    marks: &mut Vec<bool>,
) -> Result<(), Fault>
    requires { AreCitedFrom recorder.now.entries claimed.now 0 marks.old.items }
    ensures ok { OnOk result (AreCitedFrom recorder.now.entries claimed.now 0 marks.new.items) }
    ensures err { IfErr result (λ fault. fault ≡ Memory) }
{
    let mut names = mentioned_names(recorder, claimed, marks)?;
    let mut is_more = false;
    let count = recorder.entries();
    for behind in 0..count {
        name_stored(
            recorder,
            count - 1 - behind,
            marks,
            &mut names,
            &mut is_more,
        )?;
    }
    Ok(())
}

// Names that marked entries mention.
fn mentioned_names<'a>(
    recorder: &'a Recorder,
    claimed: &[usize],
    marks: &[bool],
) -> Result<Names<'a>, Fault>
    requires { AreCitedFrom recorder.now.entries claimed.now 0 marks.now }
    ensures ok { IfOk result (λ names. AreMentioned recorder.now.entries claimed.now names) }
    ensures err { IfErr result (λ fault. fault ≡ Memory) }
{
    let mut names = Names::new(recorder.alloc());
    let mut seen = Hints::new(recorder.alloc())?;
    for place in 0..marks.len() {
        note_marked(recorder, place, marks[place], &mut seen, &mut names)?;
    }
    Ok(names)
}

// Notes names that the entry of a number mentions, if it is marked.
fn note_marked<'a>(
    recorder: &'a Recorder,
    place: usize,
    mark: bool,
    seen: &mut Hints,
    names: &mut Names<'a>,
) -> Result<(), Fault>
    ensures ok { (entry : JournalEntry) → slice_get recorder.now.entries place ≡ Some entry
        → OnOk result (NotesAmong names.old names.new (if mark then names_in entry else [])) }
    ensures err { IfErr result (λ fault. fault ≡ Memory) }
{
    if !mark {
        return Ok(());
    }
    match recorder.stored(place)? {
        Some(entry) => note_entry(entry, seen, names),
        None => Ok(()),
    }
}

fn note_entry<'a>(entry: &'a Entry, seen: &mut Hints, names: &mut Names<'a>) -> Result<(), Fault>
    ensures ok { OnOk result (NotesAmong names.old names.new (names_in (entry_of entry.now))) }
    ensures err { IfErr result (λ fault. fault ≡ Memory) }
{
    match entry {
        Entry::Derived(rule, _) => note_rule(rule, seen, names),
        Entry::Defined(_, term) => note_term_once(term, seen, names),
        _ => Ok(()),
    }
}

fn note_rule<'a>(rule: &'a Rule, seen: &mut Hints, names: &mut Names<'a>) -> Result<(), Fault>
    ensures ok { OnOk result (NotesAmong names.old names.new (flat_map names_in_term (terms_of (step_of rule.now)))) }
    ensures err { IfErr result (λ fault. fault ≡ Memory) }
{
    match rule {
        Rule::Refl(term) => note_term_once(term, seen, names),
        Rule::Beta(term) => note_term_once(term, seen, names),
        Rule::Assume(term) => note_term_once(term, seen, names),
        Rule::Abs(binder, _) => note_term_once(binder, seen, names),
        Rule::Inst(_, pairs) => note_pairs(pairs, seen, names),
        _ => Ok(()),
    }
}

fn note_pairs<'a>(
    pairs: &'a [(Term, Term)],
    seen: &mut Hints,
    names: &mut Names<'a>,
) -> Result<(), Fault>
    ensures ok { OnOk result (NotesAmong names.old names.new (flat_map names_in_term (both_parts pairs.now))) }
    ensures err { IfErr result (λ fault. fault ≡ Memory) }
{
    for pair in pairs {
        note_term_once(&pair.0, seen, names)?;
        note_term_once(&pair.1, seen, names)?;
    }
    Ok(())
}

// Notes names in a term, unless a term of its mark was seen.
fn note_term_once<'a>(term: &'a Term, seen: &mut Hints, names: &mut Names<'a>) -> Result<(), Fault>
    ensures ok { OnOk result (NotesAmong names.old names.new (names_in_term term.now)) }
    ensures err { IfErr result (λ fault. fault ≡ Memory) }
{
    if seen.get(term.mark()).is_some() {
        return Ok(());
    }
    seen.insert(term.mark(), 0)?;
    match term.parts() {
        Parts::Combination(function, argument) => {
            note_term_once(function, seen, names)?;
            note_term_once(argument, seen, names)
        }
        Parts::Abstraction(_, ty, body) => {
            note_type(ty, names)?;
            note_term_once(body, seen, names)
        }
        Parts::Variable(_, ty) => note_type(ty, names),
        Parts::Constant(name, ty) => {
            names.note(name)?;
            note_type(ty, names)
        }
    }
}
