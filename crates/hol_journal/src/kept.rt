// The entries of a recorder: all of them for proofs, and those that are kept.
ghost use Rattle.std.specs.Prelude.{◌≡◌, List, [], ◌∷◌, ◌++◌, Some, true, length, slice_get, IfOk, IfErr, IfSome, OnOk, OnErr, IsTrue};
ghost use Rattle.hol_model.specs.declared.fault.Fault.TheVariants.{Memory};
ghost use Rattle.hol_journal.specs.Steps.{JournalEntry, derived, sequent_of_theorem};
ghost use Rattle.hol_journal.specs.Journal.{added_by};
ghost use Rattle.hol_journal.specs.Views.{step_of, entry_of};
ghost use Rattle.hol_journal.specs.Stored.{AreKept, IsStored};

use crate::entry::{Entry, Rule, Statement};
use crate::trail::Trail;
use hol_kernel::Thm;
use hol_model::Fault;
use std::alloc::Global;
use std::marker::Model;

/// An entry, and its number.
#[derive(Drop)]
pub(crate) struct Numbered {
    number: usize,
    entry: Entry,
}

// The entry at the place of its number, where it is there: it is, unless one before it is missing.
fn found_at_once(kept: &[Numbered], number: usize) -> Option<&Entry>
    ensures { IfSome result (λ entry. (entries : List JournalEntry) → AreKept 0 entries kept.now → slice_get entries number ≡ Some (entry_of entry.now)) }
{
    let Some(one) = kept.get(number) else {
        return None;
    };
    if one.number != number {
        return None;
    }
    Some(&one.entry)
}

// The entry of a number, looked for by halves.
fn found_by_halves(kept: &[Numbered], number: usize) -> Option<&Entry>
    ensures { (entries : List JournalEntry) → AreKept 0 entries kept.now → IsStored entries number result }
{
    let place = kept.partition_point(|one| one.number < number);
    let Some(one) = kept.get(place) else {
        return None;
    };
    if one.number != number {
        return None;
    }
    Some(&one.entry)
}

// The entry of a number, where it is among these.
fn found(kept: &[Numbered], number: usize) -> Option<&Entry>
    ensures { (entries : List JournalEntry) → AreKept 0 entries kept.now → IsStored entries number result }
{
    match found_at_once(kept, number) {
        Some(entry) => Some(entry),
        None => found_by_halves(kept, number),
    }
}

// Drops the last ones from this number on, with the room that they took.
fn give_back(kept: &mut Vec<Numbered>, mark: usize)
    ensures { (entries : List JournalEntry) → AreKept 0 entries kept.old.items → AreKept 0 entries kept.new.items }
{
    drop_rules(kept, mark);
    shrink(kept);
}

// Frees room of which less than a quarter is taken.
fn shrink(kept: &mut Vec<Numbered>)
    ensures { kept.new.items ≡ kept.old.items }
{
    if kept.len() < kept.capacity() / 4 {
        kept.shrink_to_fit();
    }
}

// Drops the last ones from this number on, back to one that is no rule's.
fn drop_rules(kept: &mut Vec<Numbered>, mark: usize)
    ensures { (entries : List JournalEntry) → AreKept 0 entries kept.old.items → AreKept 0 entries kept.new.items }
{
    for _ in 0..kept.len() {
        if !ends_with_rule(kept, mark) {
            return;
        }
        kept.pop();
    }
}

// Whether the last one is a rule's, and has this number or a later one.
fn ends_with_rule(kept: &[Numbered], mark: usize) -> bool
    ensures { IsTrue result → (front : List Numbered) (one : Numbered) → kept.now ≡ front ++ one ∷ [] → added_by (entry_of one.entry) ≡ [] }
{
    match kept.last() {
        Some(last) => mark <= last.number && is_of_rule(&last.entry),
        None => false,
    }
}

// Whether the entry is a rule's.
#[tactic(auto, using(crate::proofs::StoredLemmas::rule_adds_nothing))]
fn is_of_rule(entry: &Entry) -> bool
    ensures { IsTrue result → added_by (entry_of entry.now) ≡ [] }
{
    matches!(entry, Entry::Derived(_, _))
}

/// How many entries there are, those that are kept, where any are, and the entries as proofs see them.
#[derive(Drop)]
pub(crate) struct KeptEntries {
    count: usize,
    // In the order of their numbers.
    kept: Option<Vec<Numbered>>,
    trail: Trail,
}

impl Model for KeptEntries {
    ghost use Rattle.hol_journal.specs.Kept.{Held};
    ghost use Rattle.hol_journal.specs.KeptCode.{held_code};
    ghost use Rattle.hol_journal.specs.KeptViews.{viewed_entries, IsKept};

    ghost Value = { Held };

    ghost coded = { held_code };

    ghost view = { viewed_entries };

    ghost invariant = { IsKept };
}

impl KeptEntries {
    /// No entries; those that come are kept.
    pub(crate) fn new(alloc: Global) -> KeptEntries
        ensures { result.entries ≡ [] }
    {
        KeptEntries {
            count: 0,
            kept: Some(Vec::new(alloc)),
            trail: Trail::new(),
        }
    }

    /// The number of entries.
    pub(crate) fn len(&self) -> usize
        ensures { result ≡ length self.now.entries }
    {
        self.count
    }

    /// The entry of this number, if it is kept. Refusal: Memory, where none is to be.
    pub(crate) fn stored(&self, number: usize) -> Result<Option<&Entry>, Fault>
        ensures ok { IfOk result (IsStored self.now.entries number) }
        ensures err { IfErr result (λ fault. fault ≡ Memory) }
    {
        match &self.kept {
            Some(kept) => Ok(found(kept, number)),
            None => Err(Fault::Memory),
        }
    }

    /// From here on no entry is kept.
    pub(crate) fn forget(&mut self)
        ensures { self.new.entries ≡ self.old.entries }
    {
        self.kept = None;
    }

    /// Lets go of the last entries from this number on, back to one that is no rule's.
    pub(crate) fn give_back(&mut self, mark: usize)
        ensures { self.new.entries ≡ self.old.entries }
    {
        if let Some(kept) = &mut self.kept {
            give_back(kept, mark);
        }
    }

    /// Room for one entry more.
    pub(crate) fn reserve(&mut self) -> Result<(), Fault>
        ensures same { self.new.entries ≡ self.old.entries }
        ensures room { OnOk result (self.new.has_room ≡ true) }
        ensures err { IfErr result (λ fault. fault ≡ Memory) }
    {
        if self.count == usize::MAX {
            return Err(Fault::Memory);
        }
        if let Some(kept) = &mut self.kept {
            if kept.reserve(1).is_err() {
                return Err(Fault::Memory);
            }
        }
        Ok(())
    }

    /// One entry more.
    pub(crate) fn push(&mut self, entry: Entry)
        requires { self.old.has_room ≡ true }
        ensures { self.new.entries ≡ self.old.entries ++ entry_of entry ∷ [] }
    {
        self.trail = self.trail.with(&entry);
        let number = self.count;
        self.count += 1;
        match &mut self.kept {
            Some(kept) => kept.push_reserved(Numbered { number, entry }),
            None => drop(entry),
        }
    }

    /// One theorem more, with its rule.
    pub(crate) fn push_step(&mut self, rule: Rule, theorem: &Thm) -> Result<(), Fault>
        ensures ok { OnOk result (self.new.entries ≡ self.old.entries ++ derived (step_of rule) (sequent_of_theorem theorem.now) ∷ []) }
        ensures kept { OnErr result (self.new.entries ≡ self.old.entries) }
        ensures err { IfErr result (λ fault. fault ≡ Memory) }
    {
        if self.count == usize::MAX {
            return Err(Fault::Memory);
        }
        let number = self.count;
        let trail = self.trail.with_step(&rule, theorem);
        if let Some(kept) = &mut self.kept {
            if kept.reserve(1).is_err() {
                return Err(Fault::Memory);
            }
            let entry = Entry::Derived(rule, Statement::of(theorem));
            kept.push_reserved(Numbered { number, entry });
        }
        self.trail = trail;
        self.count += 1;
        Ok(())
    }
}
