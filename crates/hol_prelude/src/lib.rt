//! The theorems that stand before a script begins, made by a recorder.
#![tactic(auto)]

mod conjunction;
mod existence;
mod falsity;
mod middle;
pub mod numbers;
mod stages;
mod stored;
mod tables;

pub use stored::{Bool, logic_stays, prelude, theorem_of};
