//! From tokens to the commands of a script, and where a script is cut into commands.
#![tactic(auto)]

pub mod command;
pub mod cut;
mod goals;
pub mod pairs;
mod quotes;
mod rules;
mod tokens;
