//! The rules that take terms and theorems: what each is called, what it takes, and what it answers.
#![tactic(auto)]

mod rule_name;

pub use rule_name::{RULES, RuleName};
