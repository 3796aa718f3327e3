//! Justifications replayed over theorems.
#![tactic(auto)]

mod accepting;
mod achieving;
mod apply;
mod replays;
mod supposing;

pub use accepting::accept;
pub use achieving::achieves;
pub use apply::apply_rule;
pub use replays::replay;
