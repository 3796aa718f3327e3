//! Names, types and terms by numbers: equal ones have one number, and a table says how each is built.
#![tactic(auto)]

pub mod compare;
pub mod matching;
pub mod memo;
mod names;
mod numbers;
pub mod occurs;
pub mod reflection;
pub mod terms;
pub mod types;
pub mod typing;
