//! The proof of a goal under way: a stack of stages, each of which can be taken back.
#![tactic(auto)]

mod attempt;
mod closing;
mod copying;
mod expanding;
mod laws;
mod proving;
mod refining;
mod stack;
mod stage;
mod turning;

pub use closing::closed;
pub use expanding::{Expansion, Told};
pub use hol_just_replay::{accept, replay};
pub use laws::kept_theorems_stay_made;
pub use proving::Prover;
pub use stack::Stack;
