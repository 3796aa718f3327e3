//! Derivations of laws, and of the theorems of disjunction and choice, as data, and the rules that they are written by.
#![tactic(auto)]

pub mod choice;
pub mod disjunction;
pub mod laws;
pub mod rules;
