//! The words of a script's commands: what they are, where they stand, which names are known there, which parts an expression has, and
//! what could stand where a text stops being a command; and the lines that tell commands. Messages, notes and records alone are made
//! of it (`hol_explain_hints`, `hol_explain`); no promise stands on it.
#![tactic(auto)]

mod expressions;
mod grammar;
mod habits;
mod known;
mod messages;
mod no_memory;
mod piece;
mod place;
mod proof;
mod records;
mod report;
mod scanner;
mod seen;
mod sentences;
mod span;
mod stops;
mod tables;

pub use expressions::{command_of, has_misfit, next_joint, next_member, unwrapped};
pub use grammar::{end_of_conversion, is_before_theorem, is_refiner};
pub use habits::absent;
pub use known::{Known, is_among};
pub use messages::{Message, Unknown};
pub use no_memory::NoMemory;
pub use piece::{Piece, between, text_of};
pub use place::{Origin, Place, Told, origin_of};
pub use proof::{Proof, count_of_goals, goes_on};
pub use records::{Answer, push_accepted, push_refused};
pub use report::{push_refusal, unended};
pub use scanner::{Kind, Word};
pub use seen::{type_depth, type_in};
pub use sentences::sentence;
pub use span::{Span, next_outside};
pub use stops::no_command;
pub use tables::{line_of, line_of_pair};
