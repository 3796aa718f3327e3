// The entries of a journal.
ghost use Rattle.std.specs.Prelude.{◌≡◌};
ghost use base.Fml.{ftrue};
ghost use Rattle.hol_model.specs.Goals.Goals.{Sequent};
ghost use Rattle.hol_journal.specs.Steps.{sequent_of_theorem};
ghost use Rattle.hol_journal.specs.SequentCode.{sequent_code};

use hol_kernel::Thm;
use hol_terms::Term;
use hol_types::Ty;
use std::marker::Model;

/// How a theorem follows: by a rule, or as an axiom, from the theorems of earlier entries, which are named by their
/// numbers.
#[derive(Drop)]
pub enum Rule {
    Refl(Term),
    Trans(usize, usize),
    MkComb(usize, usize),
    /// The variable, and the theorem.
    Abs(Term, usize),
    Beta(Term),
    Assume(Term),
    EqMp(usize, usize),
    DeductAntisym(usize, usize),
    /// The theorem, and pairs (new, old).
    Inst(usize, Vec<(Term, Term)>),
    /// The theorem, and pairs (new, old).
    InstType(usize, Vec<(Ty, Ty)>),
    Eta,
    Select,
}

/// What a theorem says, as proofs see it. It takes no bytes.
#[derive(Drop)]
pub struct Statement {
    pub(crate) ghost sequent: { Sequent } by { sequent_code },
}

impl Model for Statement {
    ghost also_owns = { λ _. ftrue };
}

impl Statement {
    /// What this theorem says.
    pub(crate) fn of(_theorem: &Thm) -> Statement
        ensures { result.sequent ≡ sequent_of_theorem _theorem.now }
    {
        Statement {}
    }
}

/// How a theorem follows, with what it says; a definition, or a declaration.
#[derive(Drop)]
pub enum Entry {
    Derived(Rule, Statement),
    Defined(String, Term),
    DeclaredType(String),
    DeclaredConstant(String, Ty),
}
