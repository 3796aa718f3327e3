//! Derivations as data, what makes their theorems by a recorder, and those of the first connectives.
#![tactic(auto)]

pub mod conjunction;
pub mod derivation;
pub mod formulas;
pub mod logic;
pub mod making;
pub mod numbers;
pub mod rule;
pub mod sketch;
pub mod truth;
pub mod unfolding;
