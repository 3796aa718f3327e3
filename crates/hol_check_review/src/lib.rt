//! What a checked log says, in the language of scripts: for its reviewer. It stands above the checker, which judges
//! without it.
#![tactic(auto)]

mod known;
mod lines;
mod logic;
mod names;
mod review;
mod terms;
mod texts;
mod theory;
mod types;
mod usual;

pub use lines::{line_of_claim, line_of_entry};
pub use review::write_review;
pub use theory::scope_of_entries;
pub use usual::{Remark, remark_on};
