//! Messages that explain the refusals of a script, notes on what is accepted and suspicious, and records of its commands, by a walk
//! of their own over it: what is said is worked out in `hol_explain_hints`. They take no part in any promise: what a run prints, and
//! how it ends, is told by `hol_script` alone, whose calls are passed on to the program's commands.
#![tactic(auto)]

mod follow;
mod message;
mod notes;
mod rerun;
mod search;
mod walk;

pub use follow::Follower;
pub use hol_explain_hints::{Origin, origin_of};
pub use hol_script::{Devices, Ended, Refused, converse, run};
pub use walk::{Script, Walk, explain, explain_refusal};
