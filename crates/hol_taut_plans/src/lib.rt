//! Proofs of tautologies as lists of steps, which are found without a recorder: a search for short proofs, in which a part of a formula
//! is shown once for each choice of values of its atoms that it takes. Nothing is promised of what the steps prove, so who takes them
//! judges the theorem.
#![tactic(auto)]

mod cubes;
mod denials;
mod parts;
mod planner;
mod plans;
mod refutations;
mod shapes;
mod steps;
mod tables;
mod values;
mod ways;

pub use hol_taut_formulas::Law;
pub use plans::{Plan, planned};
pub use steps::{Formula, Rule, Step};
