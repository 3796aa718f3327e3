// Which entries of a journal the log of some theorems needs.
ghost use Rattle.std.specs.Prelude.{◌≡◌, ◌<◌, ℕ, List, [], ◌∷◌, length, false, slice_get, Some, IfOk, IfErr, OnOk, IsFalse};
ghost use Rattle.hol_model.specs.Logic.Derivable.{IsMember};
ghost use Rattle.hol_model.specs.declared.fault.Fault.TheVariants.{Memory};
ghost use Rattle.hol_journal.specs.Steps as steps;
ghost use Rattle.hol_journal.specs.Steps.{JournalEntry};
ghost use Rattle.hol_journal.specs.Views.{step_of, entry_of};
ghost use Rattle.hol_logtext.specs.Lines.{text_in};
ghost use Rattle.hol_journal_log.specs.Needed.{names_in_type, names_in_term, names_in, introduced_by, StandOnEarlier};
ghost use Rattle.hol_journal_log.specs.Marking as marking;
ghost use Rattle.hol_journal_log.specs.Marking.{Marks, Notes, AreCitedFrom, IsMarkedFrom};

use hol_journal::Recorder;
use hol_journal::entry::{Entry, Rule};
use hol_model::Fault;
use hol_terms::{Parts, Term};
use hol_types::{Ty, TypeParts};
use indexmap::IndexSet;
use std::alloc::Global;
use std::marker::Model;

/// The names that are noted.
#[derive(Drop)]
pub(crate) struct Names<'a> {
    names: IndexSet<&'a str>,
}

impl<'a> Model for Names<'a> {
    ghost use Rattle.std.specs.Prelude.{ℕ, List};
    ghost use Rattle.hol_journal_log.specs.Noted.{noted_names};

    ghost Value = { List (List ℕ) };

    ghost view = { noted_names };
}

impl<'a> Names<'a> {
    /// No names.
    pub(crate) fn new(alloc: Global) -> Names<'a>
        ensures { result ≡ [] }
    {
        Names {
            names: IndexSet::new(alloc),
        }
    }

    /// Whether a name is noted.
    pub(crate) fn contains(&self, name: &str) -> bool
        ensures { result ≡ marking.is_noted self.now (Some name.now) }
    {
        self.names.contains(&name)
    }

    /// Notes a name.
    pub(crate) fn note(&mut self, name: &'a str) -> Result<(), Fault>
        ensures ok { OnOk result (Notes self.old self.new (name.now ∷ [])) }
        ensures err { IfErr result (λ fault. fault ≡ Memory) }
    {
        self.names.insert(name)?;
        Ok(())
    }
}

/// Marks for the claimed entries, and for what marked entries cite. Refusal: Memory, also where a marked entry is not kept.
pub(crate) fn cited(recorder: &Recorder, claimed: &[usize]) -> Result<Vec<bool>, Fault>
    requires earlier { StandOnEarlier recorder.now.entries }
    requires within { (number : ℕ) → IsMember number claimed.now → number < length recorder.now.entries }
    ensures ok { IfOk result (λ marks. AreCitedFrom recorder.now.entries claimed.now 0 marks.items) }
    ensures err { IfErr result (λ fault. fault ≡ Memory) }
{
    let alloc = recorder.alloc();
    let mut marks = marks_of(alloc, recorder.entries(), claimed)?;
    mark_cited(recorder, claimed, &mut marks)?;
    Ok(marks)
}

/// Marks besides the entries that introduce noted names, and notes the names that they mention. It is told whether any is
/// marked. Where the names in what is cited are noted, what is marked then is what is needed.
pub(crate) fn mark_named<'a>(
    recorder: &'a Recorder,
    claimed: &[usize],
    marks: &mut Vec<bool>,
    names: &mut Names<'a>,
    is_more: &mut bool,
) -> Result<(), Fault>
    requires earlier { StandOnEarlier recorder.now.entries }
    requires begun { IsMarkedFrom recorder.now.entries claimed.now (length recorder.now.entries) marks.old.items names.old }
    ensures ok { OnOk result (IsMarkedFrom recorder.now.entries claimed.now 0 marks.new.items names.new) }
    ensures same { OnOk result (IsFalse is_more.new → marks.new.items ≡ marks.old.items) }
    ensures err { IfErr result (λ fault. fault ≡ Memory) }
{
    let count = recorder.entries();
    for behind in 0..count {
        name_stored(recorder, count - 1 - behind, marks, names, is_more)?;
    }
    Ok(())
}

/// The names that entries introduce which are not marked.
pub(crate) fn unmarked_names<'a>(recorder: &'a Recorder, marks: &[bool]) -> Result<Names<'a>, Fault>
    ensures { IfErr result (λ fault. fault ≡ Memory) }
{
    let mut names = Names::new(recorder.alloc());
    for place in 0..marks.len() {
        if !marks[place] {
            note_stored(recorder, place, &mut names)?;
        }
    }
    Ok(names)
}

// Notes the name that the entry of a number introduces, if there is one.
fn note_stored<'a>(recorder: &'a Recorder, place: usize, names: &mut Names<'a>) -> Result<(), Fault>
    ensures { IfErr result (λ fault. fault ≡ Memory) }
{
    let Some(entry) = recorder.stored(place)? else {
        return Ok(());
    };
    match introduced(entry) {
        Some(name) => names.note(name),
        None => Ok(()),
    }
}

// So many marks, of which those of these numbers are set.
fn marks_of(alloc: Global, count: usize, numbers: &[usize]) -> Result<Vec<bool>, Fault>
    requires { (number : ℕ) → IsMember number numbers.now → number < count }
    ensures count { IfOk result (λ marks. length marks.items ≡ count) }
    ensures set { IfOk result (λ marks. marking.AreMarked marks.items numbers.now) }
    ensures err { IfErr result (λ fault. fault ≡ Memory) }
{
    let mut marks = vec![in alloc; false; count]?;
    for number in numbers {
        mark(*number, &mut marks);
    }
    Ok(marks)
}

// Marks what marked entries cite, from the newest back.
fn mark_cited(recorder: &Recorder, claimed: &[usize], marks: &mut Vec<bool>) -> Result<(), Fault>
    requires earlier { StandOnEarlier recorder.now.entries }
    requires begun { AreCitedFrom recorder.now.entries claimed.now (length recorder.now.entries) marks.old.items }
    ensures ok { OnOk result (AreCitedFrom recorder.now.entries claimed.now 0 marks.new.items) }
    ensures err { IfErr result (λ fault. fault ≡ Memory) }
{
    let count = recorder.entries();
    for behind in 0..count {
        cite_stored(recorder, count - 1 - behind, marks)?;
    }
    Ok(())
}

// Marks what the entry of a number cites, where it is marked.
fn cite_stored(recorder: &Recorder, place: usize, marks: &mut Vec<bool>) -> Result<(), Fault>
    requires earlier { StandOnEarlier recorder.now.entries }
    requires place { place < length marks.old.items }
    ensures ok { (entry : JournalEntry) → slice_get recorder.now.entries place ≡ Some entry
        → OnOk result (Marks marks.old.items marks.new.items (marking.cited_at place entry marks.old.items)) }
    ensures err { IfErr result (λ fault. fault ≡ Memory) }
{
    if !marks[place] {
        return Ok(());
    }
    match recorder.stored(place)? {
        Some(entry) => {
            cite(entry, marks);
            Ok(())
        }
        None => Err(Fault::Memory),
    }
}

// Marks what an entry cites.
fn cite(entry: &Entry, marks: &mut Vec<bool>)
    requires { marking.CitesWithin (entry_of entry.now) (length marks.old.items) }
    ensures { Marks marks.old.items marks.new.items (marking.cited_by (entry_of entry.now)) }
{
    match entry {
        Entry::Derived(rule, _) => cite_rule(rule, marks),
        _ => {}
    }
}

/// Marks the entry of a number, where it introduces a noted name and is not marked, and notes the names that it mentions.
pub(crate) fn name_stored<'a>(
    recorder: &'a Recorder,
    place: usize,
    marks: &mut Vec<bool>,
    names: &mut Names<'a>,
    is_more: &mut bool,
) -> Result<(), Fault>
    requires { place < length marks.old.items }
    ensures ok { (entry : JournalEntry) → slice_get recorder.now.entries place ≡ Some entry
        → OnOk result (marking.IsEntryMarked place entry marks.old.items names.old marks.new.items names.new) }
    ensures same { OnOk result (marking.IsSame is_more.old is_more.new marks.old.items marks.new.items) }
    ensures err { IfErr result (λ fault. fault ≡ Memory) }
{
    if marks[place] {
        return Ok(());
    }
    match recorder.stored(place)? {
        None => Ok(()),
        Some(entry) => {
            if !is_noted(names, entry) {
                return Ok(());
            }
            *is_more = true;
            mark(place, marks);
            note_mentioned(entry, names)
        }
    }
}

// Notes the names that an entry mentions, where it introduces one.
fn note_mentioned<'a>(entry: &'a Entry, names: &mut Names<'a>) -> Result<(), Fault>
    ensures ok { marking.Introduces (entry_of entry.now) → OnOk result (Notes names.old names.new (names_in (entry_of entry.now))) }
    ensures err { IfErr result (λ fault. fault ≡ Memory) }
{
    match entry {
        Entry::Defined(_, term) => note_term(term, names),
        Entry::DeclaredConstant(_, ty) => note_type(ty, names),
        _ => Ok(()),
    }
}

// The name that the entry introduces.
fn introduced(entry: &Entry) -> Option<&str>
    ensures { text_in result ≡ introduced_by (entry_of entry.now) }
{
    match entry {
        Entry::Derived(_, _) => None,
        Entry::Defined(name, _) => Some(name.as_str()),
        Entry::DeclaredType(name) => Some(name.as_str()),
        Entry::DeclaredConstant(name, _) => Some(name.as_str()),
    }
}

// Whether the entry introduces a noted name.
fn is_noted(names: &Names<'_>, entry: &Entry) -> bool
    ensures { result ≡ marking.is_noted names.now (introduced_by (entry_of entry.now)) }
{
    match introduced(entry) {
        Some(name) => names.contains(name),
        None => false,
    }
}

// Marks the entries that a rule cites.
fn cite_rule(rule: &Rule, marks: &mut Vec<bool>)
    requires { (number : ℕ) → IsMember number (steps.entries_of (step_of rule.now)) → number < length marks.old.items }
    ensures { Marks marks.old.items marks.new.items (steps.entries_of (step_of rule.now)) }
{
    match rule {
        Rule::Trans(first, second) => mark_both(*first, *second, marks),
        Rule::MkComb(first, second) => mark_both(*first, *second, marks),
        Rule::EqMp(first, second) => mark_both(*first, *second, marks),
        Rule::DeductAntisym(first, second) => mark_both(*first, *second, marks),
        Rule::Abs(_, theorem) => mark(*theorem, marks),
        Rule::Inst(theorem, _) => mark(*theorem, marks),
        Rule::InstType(theorem, _) => mark(*theorem, marks),
        _ => {}
    }
}

fn mark(number: usize, marks: &mut Vec<bool>)
    requires { number < length marks.old.items }
    ensures { Marks marks.old.items marks.new.items (number ∷ []) }
{
    marks[number] = true;
}

fn mark_both(first: usize, second: usize, marks: &mut Vec<bool>)
    requires first { first < length marks.old.items }
    requires second { second < length marks.old.items }
    ensures { Marks marks.old.items marks.new.items (first ∷ second ∷ []) }
{
    mark(first, marks);
    mark(second, marks);
}

/// Notes the names of the declared types in a type.
pub(crate) fn note_type<'a>(ty: &'a Ty, names: &mut Names<'a>) -> Result<(), Fault>
    ensures ok { OnOk result (Notes names.old names.new (names_in_type ty.now)) }
    ensures err { IfErr result (λ fault. fault ≡ Memory) }
{
    match ty.parts() {
        TypeParts::Variable(_) | TypeParts::Bool => Ok(()),
        TypeParts::Function(domain, codomain) => {
            note_type(domain, names)?;
            note_type(codomain, names)
        }
        TypeParts::Declared(name) => names.note(name),
    }
}

fn note_term<'a>(term: &'a Term, names: &mut Names<'a>) -> Result<(), Fault>
    ensures ok { OnOk result (Notes names.old names.new (names_in_term term.now)) }
    ensures err { IfErr result (λ fault. fault ≡ Memory) }
{
    match term.parts() {
        Parts::Variable(_, ty) => note_type(ty, names),
        Parts::Constant(name, ty) => {
            names.note(name)?;
            note_type(ty, names)
        }
        Parts::Combination(function, argument) => {
            note_term(function, names)?;
            note_term(argument, names)
        }
        Parts::Abstraction(_, ty, body) => {
            note_type(ty, names)?;
            note_term(body, names)
        }
    }
}
