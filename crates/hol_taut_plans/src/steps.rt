// The steps of a plan.
use hol_taut_formulas::Law;

/// A formula of a plan: a part of the whole by its number, or its equation with `F`.
#[derive(Clone, Copy, PartialEq, Eq, Hash)]
pub enum Formula {
    Part(usize),
    Denied(usize),
}

/// A rule of two theorems.
#[derive(Clone, Copy, PartialEq, Eq, Hash)]
pub enum Rule {
    /// DEDUCT_ANTISYM_RULE.
    DeductAntisym,
    /// EQ_MP.
    EqMp,
    /// TRANS.
    Trans,
}

/// A step, with the numbers of earlier ones.
#[derive(Clone, Copy, PartialEq, Eq, Hash)]
pub enum Step {
    /// `T`.
    Truth,
    /// REFL.
    Refl(Formula),
    /// ASSUME.
    Assume(Formula),
    /// INST of a law, at two formulas.
    Inst(Law, Formula, Formula),
    /// A rule of two earlier steps.
    Rule(Rule, usize, usize),
}
