//! The proof manager (HOL Light's goalstack, tactics.ml): a session, the proof of a goal under way, and what the commands of
//! goals do with them.
#![tactic(auto)]

mod converting;
mod goal_texts;
mod laws;
mod manager;
mod prover;
mod proving;

pub use hol_script_inference::{Printed, Refused, plainly};
pub use laws::managers_refuse;
pub use manager::Manager;
