// The recorder.
ghost use Rattle.std.specs.Prelude.{◌≡◌, [], ◌∷◌, ◌++◌, length, IfOk, IfErr, OnErr, OnOk};
ghost use Rattle.hol_model.specs.Kernel.Outcome.{Answers};
ghost use Rattle.hol_model.specs.Logic.Theory.{IsLegal};
ghost use Rattle.hol_model.specs.Kernel.Rules as outcome;
ghost use Rattle.hol_kernel.specs.Leaving.{leaving};
ghost use Rattle.hol_model.specs.declared.fault.Fault.TheVariants.{Memory};
ghost use Rattle.hol_journal.specs.Steps as steps;
ghost use Rattle.hol_journal.specs.Steps.{sequent_of_theorem};
ghost use Rattle.hol_journal.specs.Journal.{IsJournal, IsRecorded, Follows, theorem_in};
ghost use Rattle.hol_journal.specs.Growth.{IsGrown};
ghost use Rattle.hol_journal.specs.Views.{step_of};
ghost use Rattle.hol_journal.specs.Stored.{IsStored};

use crate::entry::{Entry, Rule};
use crate::kept::KeptEntries;
use crate::limits::{type_fit, within_limits};
use hol_kernel::{Theory, Thm};
use hol_model::Fault;
use hol_terms::Term;
use hol_types::Ty;
use std::alloc::Global;
use std::marker::Model;

/// A theory, and a journal of how each theorem was made and what was declared. A call is refused as the kernel's call
/// of its name; where its entry finds no memory, no theorem is handed out and nothing is defined or declared. A theorem
/// that is handed in was made by this recorder.
#[derive(Drop)]
pub struct Recorder {
    alloc: Global,
    theory: Theory,
    entries: KeptEntries,
}

impl Model for Recorder {
    ghost use Rattle.hol_journal.specs.Journal.{Journal, IsJournal};
    ghost use Rattle.hol_journal.specs.JournalCode.{journal_code};
    ghost use Rattle.hol_journal.specs.Recorder.{viewed_recorder};

    ghost Value = { Journal };

    ghost coded = { journal_code };

    ghost view = { viewed_recorder };

    ghost invariant = { λ recorder. IsJournal (viewed_recorder recorder) };
}

/// A theorem with the number of its entry.
#[derive(Drop)]
pub struct Rec {
    theorem: Thm,
    entry: usize,
}

impl Model for Rec {
    ghost use Rattle.hol_journal.specs.Journal.{Recorded};
    ghost use Rattle.hol_journal.specs.JournalCode.{recorded_code};
    ghost use Rattle.hol_journal.specs.Recorder.{viewed_rec};

    ghost Value = { Recorded };

    ghost coded = { recorded_code };

    ghost view = { viewed_rec };
}

impl Rec {
    /// The theorem.
    pub fn theorem(&self) -> &Thm
        ensures { result.now ≡ self.now.theorem }
    {
        &self.theorem
    }

    /// The number of the entry.
    pub fn entry(&self) -> usize
        ensures { result ≡ self.now.entry }
    {
        self.entry
    }

    /// The same theorem, with the number of the same entry.
    pub fn copy(&self, alloc: Global) -> Result<Rec, Fault>
        ensures ok { IfOk result (λ made. made ≡ self.now) }
        ensures err { IfErr result (λ fault. fault ≡ Memory) }
    {
        Ok(Rec {
            theorem: self.theorem.copy(alloc)?,
            entry: self.entry,
        })
    }
}

impl Recorder {
    /// The recorder without entries, over the theory without definitions.
    pub fn new(alloc: Global) -> Result<Recorder, Fault>
        ensures ok { IfOk result (λ recorder. recorder ≡ record { theory = []; entries = [] }) }
        ensures err { IfErr result (λ fault. fault ≡ Memory) }
    {
        Ok(Recorder {
            alloc,
            theory: Theory::new(alloc)?,
            entries: KeptEntries::new(alloc),
        })
    }

    /// The allocator, for what is made beside theorems.
    pub fn alloc(&self) -> Global {
        self.alloc
    }

    /// The number of entries.
    pub fn entries(&self) -> usize
        ensures { result ≡ length self.now.entries }
    {
        self.entries.len()
    }

    /// The entry of this number, if it is kept; one that is not adds nothing to the theory. Refusal: Memory, after `forget`.
    pub fn stored(&self, number: usize) -> Result<Option<&Entry>, Fault>
        ensures ok { IfOk result (IsStored self.now.entries number) }
        ensures err { IfErr result (λ fault. fault ≡ Memory) }
        ensures journal { IsJournal self.now }
    {
        self.entries.stored(number)
    }

    /// Lets go of the entries from this number on, from the last one back to one that is no rule's. A log that needs one of
    /// them is refused for want of memory.
    pub fn give_back(&mut self, mark: usize)
        ensures { self.new ≡ self.old }
    {
        self.entries.give_back(mark);
    }

    /// From here on no entry is kept, and none that was.
    pub fn forget(&mut self)
        ensures { self.new ≡ self.old }
    {
        self.entries.forget();
    }

    /// The theorem.
    pub fn thm<'a>(&self, rec: &'a Rec) -> &'a Thm
        ensures { result.now ≡ rec.now.theorem }
    {
        &rec.theorem
    }

    /// The theory.
    pub fn theory(&self) -> &Theory
        ensures { result.now ≡ self.now.theory }
    {
        &self.theory
    }

    /// The theory is legal. Nothing is computed: the clause is the law, for callers' proofs.
    pub fn theory_is_legal(&self)
        ensures { IsLegal self.now.theory }
    {
        let _entries = self.entries.len();
    }

    // The theorem with an entry of its own.
    pub(crate) fn record(&mut self, rule: Rule, theorem: Thm) -> Result<Rec, Fault>
        requires follows { IsJournal self.old → Follows self.old.entries (step_of rule) (sequent_of_theorem theorem) }
        requires stands_on { theorem.theory ≡ self.old.theory }
        ensures ok { IfOk result (λ made. made.theorem ≡ theorem) }
        ensures recorded { IfOk result (IsRecorded self.old self.new (step_of rule)) }
        ensures err { IfErr result (λ fault. fault ≡ Memory) }
        ensures kept { OnErr result (self.new ≡ self.old) }
    {
        let entry = self.entries.len();
        self.entries.push_step(rule, &theorem)?;
        Ok(Rec { theorem, entry })
    }

    /// Defines a constant; the theorem is `|- c = t`, and stands on the theory with the definition.
    pub fn define(&mut self, name: &str, term: &Term) -> Result<Rec, Fault>
        ensures outcome { Answers (theorem_in result) (outcome.define_outcome self.old.theory name.now term.now) }
        ensures recorded { IfOk result (IsRecorded self.old self.new (steps.by_definition name.now term.now)) }
        ensures kept { OnErr result (self.new ≡ self.old) }
    {
        let alloc = self.alloc();
        let definition = Entry::Defined(String::from_str(alloc, name)?, term.copy(alloc)?);
        if self.entries.reserve().is_err() {
            return Err(Fault::Memory);
        }
        let number = self.entries.len();
        term.well_formed();
        let _type = term.ty();
        let theorem = self.theory.define(alloc, name, term)?;
        within_limits(&theorem);
        self.entries.push(definition);
        Ok(Rec {
            theorem,
            entry: number,
        })
    }

    /// Declares a type.
    pub fn new_type(&mut self, name: &str) -> Result<(), Fault>
        ensures outcome { Answers (leaving result self.new.theory) (outcome.new_type_outcome self.old.theory name.now) }
        ensures entry { OnOk result (self.new.entries ≡ self.old.entries ++ steps.declared_type name.now ∷ []) }
        ensures grown { OnOk result (IsGrown self.old self.new) }
        ensures kept { OnErr result (self.new ≡ self.old) }
    {
        let alloc = self.alloc();
        let declared_type = Entry::DeclaredType(String::from_str(alloc, name)?);
        if self.entries.reserve().is_err() {
            return Err(Fault::Memory);
        }
        self.theory.new_type(alloc, name)?;
        self.entries.push(declared_type);
        Ok(())
    }

    /// Declares a constant of a type without type variables.
    pub fn new_const(&mut self, name: &str, ty: &Ty) -> Result<(), Fault>
        ensures outcome { Answers (leaving result self.new.theory) (outcome.new_const_outcome self.old.theory name.now ty.now) }
        ensures entry { OnOk result (self.new.entries ≡ self.old.entries ++ steps.declared_constant name.now ty.now ∷ []) }
        ensures grown { OnOk result (IsGrown self.old self.new) }
        ensures kept { OnErr result (self.new ≡ self.old) }
    {
        let alloc = self.alloc();
        let declared_constant = Entry::DeclaredConstant(
            String::from_str(alloc, name)?,
            ty.copy(alloc)?,
        );
        if self.entries.reserve().is_err() {
            return Err(Fault::Memory);
        }
        type_fit(ty);
        self.theory.new_const(alloc, name, ty)?;
        self.entries.push(declared_constant);
        Ok(())
    }
}
