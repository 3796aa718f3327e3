//! The checker of proof logs: it reads a log line by line, with types and terms of its own.
#![tactic(auto)]

mod checker;
mod claim;
mod entry;
mod laws;
mod log_reader;
mod migrating;
mod print;
mod reading;
mod report;
mod text_source;
mod view;

pub use checker::{CheckedLog, check, check_log};
pub use claim::{Claim, text_of_claim};
pub use entry::{EntryParts, LogEntry, text_of_entry};
pub use laws::migration_keeps_claims;
pub use migrating::migrate;
pub use report::{write_claims, write_entries};
pub use view::{TermParts, TermView, TypeParts, TypeView};
