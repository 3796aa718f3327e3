// The lines of a proof log as text.
#![tactic(auto)]

mod arguments;
mod field;
mod laws;
mod line;
mod log;
mod output;
mod reader;
mod rules;
mod writer;
mod written;

pub use field::{read_name, read_number};
pub use laws::{logs_read_back, reading_is_exact, small_logs};
pub use line::{Line, Rule, Version};
pub use log::LogWriter;
pub use reader::read_line;
pub use writer::write_line;
