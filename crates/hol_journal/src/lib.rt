//! The recorder: a theory, and a journal of how each theorem was made.
#![tactic(auto)]

pub mod entry;
mod inference;
mod kept;
mod laws;
mod limits;
mod recorder;
mod trail;

pub use inference::{Inference, theorems_hold};
pub use laws::journals_grow;
pub use limits::within_limits;
pub use recorder::{Rec, Recorder};
