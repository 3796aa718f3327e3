// Refiners without parts.

use crate::conv::Conv;

/// A refiner without parts (HOL Light's tactics.ml; TAUT_TAC is tauto.ml's TAUT as a refiner). Names are of stored theorems.
#[derive(Drop)]
pub enum Leaf<Quote> {
    /// ALL_TAC.
    All,
    /// NO_TAC.
    No,
    /// ACCEPT_TAC.
    Accept(String),
    /// The goal is one of its assumptions.
    Assumption,
    /// ASSUME_TAC.
    Assume(String),
    /// REFL_TAC.
    Refl,
    /// CONJ_TAC.
    Conj,
    /// EQ_TAC.
    Eq,
    /// DISJ1_TAC.
    Disj1,
    /// DISJ2_TAC.
    Disj2,
    /// DISCH_TAC.
    Disch,
    /// GEN_TAC.
    Gen,
    /// EXISTS_TAC, with the witness.
    Exists(Quote),
    /// MP_TAC.
    Mp(String),
    /// DISJ_CASES_TAC.
    DisjCases(String),
    /// CHOOSE_TAC.
    Choose(String),
    /// UNDISCH_TAC, with the assumption.
    Undisch(Quote),
    /// CONV_TAC.
    Conv(Conv),
    /// REWRITE_TAC.
    Rewrite(Vec<String>),
    /// The goal is a tautology.
    Taut,
}
