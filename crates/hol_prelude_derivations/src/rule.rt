// The kernel's rules that a derivation names.

/// A rule for a term.
#[derive(Clone, Copy)]
pub enum TermRule {
    Refl,
    Beta,
    Assume,
}

/// A rule for two theorems.
#[derive(Clone, Copy)]
pub enum PairRule {
    Trans,
    MkComb,
    EqMp,
    DeductAntisym,
}

/// An axiom.
#[derive(Clone, Copy)]
pub enum Axiom {
    Eta,
    Select,
}
