// The journal as proofs see it. It takes no bytes, and its calls do nothing at run time.
ghost use Rattle.std.specs.Prelude.{◌≡◌, List, [], ◌∷◌, ◌++◌};
ghost use base.Fml.{ftrue};
ghost use Rattle.hol_journal.specs.Steps.{JournalEntry, derived, sequent_of_theorem};
ghost use Rattle.hol_journal.specs.JournalCode.{entries_code};
ghost use Rattle.hol_journal.specs.Views.{step_of, entry_of};

use crate::entry::{Entry, Rule};
use hol_kernel::Thm;
use std::marker::Model;

/// All entries, whether they are kept or not.
#[derive(Drop)]
pub(crate) struct Trail {
    pub(crate) ghost entries: { List JournalEntry } by { entries_code },
}

impl Model for Trail {
    ghost also_owns = { λ _. ftrue };
}

impl Trail {
    pub(crate) fn new() -> Trail
        ensures { result.entries ≡ [] }
    {
        Trail {}
    }

    /// One entry more.
    pub(crate) fn with(&self, _entry: &Entry) -> Trail
        ensures { result.entries ≡ self.now.entries ++ entry_of _entry.now ∷ [] }
    {
        Trail {}
    }

    /// One theorem more, with its step.
    pub(crate) fn with_step(&self, _rule: &Rule, _theorem: &Thm) -> Trail
        ensures { result.entries ≡ self.now.entries ++ derived (step_of _rule.now) (sequent_of_theorem _theorem.now) ∷ [] }
    {
        Trail {}
    }
}
