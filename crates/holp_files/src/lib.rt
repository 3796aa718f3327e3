//! The files that a program names on its command line, and the status that it ends with. What the system answers is not claimed.
#![tactic(auto)]

mod exit_status;
mod input;
mod new_file;
mod old_file;
mod script_file;
mod standard;

pub use exit_status::status;
pub use input::Input;
pub use new_file::NewFile;
pub use old_file::holds_no_log;
pub use script_file::ScriptFile;
pub use standard::hold_standard_descriptors;
