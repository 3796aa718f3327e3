//! Terms as the lines of a log write them, and the terms of the tables that they write.
#![tactic(auto)]

pub mod making;
mod memo;
pub mod variables;
pub mod written;
