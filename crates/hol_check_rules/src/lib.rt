//! What the lines of a proof log have given, and what a rule makes of earlier theorems.
#![tactic(auto)]

pub mod hypotheses;
pub mod known;
pub mod state;
pub mod steps;
