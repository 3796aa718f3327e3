// Rules of inference.

/// A primitive rule (HOL Light's fusion.ml), an axiom (class.ml) or a derived rule (equal.ml, bool.ml), with the terms and types
/// that it takes beside its premises.
#[derive(Drop)]
pub enum Rule<Term, Type> {
    /// The term that equals itself.
    Refl(Term),
    Trans,
    MkComb,
    /// The variable to be bound.
    Abs(Term),
    /// An abstraction of a variable, applied to that variable.
    Beta(Term),
    /// The formula that is assumed.
    Assume(Term),
    EqMp,
    DeductAntisym,
    /// Pairs (new, old) of terms.
    Inst(Vec<(Term, Term)>),
    /// Pairs (new, old) of types.
    InstType(Vec<(Type, Type)>),
    EtaAxiom,
    SelectAxiom,
    Sym,
    /// The formula to be added to the hypotheses.
    AddAssum(Term),
    ProveHyp,
    EqtIntro,
    EqtElim,
    /// Any abstraction, applied to any term.
    BetaConv(Term),
    Conj,
    Conjunct1,
    Conjunct2,
    /// The hypothesis that is discharged.
    Disch(Term),
    Undisch,
    Mp,
    /// The term in place of the bound variable.
    Spec(Term),
    /// The variable to be bound.
    Gen(Term),
    /// The second disjunct.
    Disj1(Term),
    /// The first disjunct.
    Disj2(Term),
    DisjCases,
    /// The formula to be concluded.
    Contr(Term),
    NotIntro,
    NotElim,
    /// The existential formula, and its witness.
    Exists(Term, Term),
    /// The variable that stands for a witness.
    Choose(Term),
}
