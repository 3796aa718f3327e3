//! What rules read off terms by numbers, and what they make of them: instances, closed and filled terms, equations.
#![tactic(auto)]

pub mod change;
pub mod equation;
pub mod forming;
mod instance;
pub mod leaves;
mod pairs;
