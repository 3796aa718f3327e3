//! Proof scripts: runs, conversations, and their logs; scripts in files.
#![tactic(auto, using(hol_model::proofs::Kernel::Refusals::refusals))]

mod conversation;
mod course;
mod devices;
mod ended;
pub mod execute;
mod files;
mod progress;
mod runner;
mod writing;

pub use conversation::converse;
pub use devices::Devices;
pub use ended::Ended;
pub use files::run_file;
pub use hol_script_manager::{Manager, Printed, Refused};
pub use progress::{Progress, Summary};
pub use runner::run;
