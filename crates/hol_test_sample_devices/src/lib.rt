//! Devices for tests and examples: they keep, do not end, or break off; runs over those that keep. Rows
//! of tests, and texts that are put together.
#![tactic(auto)]

mod repetitions;
mod rows;
mod runs;
mod sinks;
mod sources;
mod texts;

pub use repetitions::expanded;
pub use rows::{Row, Rows};
pub use runs::{Ran, run_kept};
pub use sinks::Kept;
pub use sources::{Drips, Endless};
pub use texts::push_filled;
