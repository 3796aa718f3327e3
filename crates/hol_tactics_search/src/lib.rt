//! First-order reasoning with equality: formulas made to clauses, and a search for a refutation of these by model elimination.
//!
//! Nothing is claimed of what is found, since what is made of it is tested before it is used. Each function is safe and ends.
#![tactic(auto)]

mod clauses;
mod equality;
mod first_order;
mod index;
mod problem;
mod search;
mod unification;

pub use equality::add_equality;
pub use first_order::{DEPTH, Node, Symbol, Terms, place_of};
pub use problem::{Clause, Given, Literal, Part, Problem, Route};
pub use search::{COMPARISONS, Extension, Move, Refutation, find_refutation};
pub use unification::{Bindings, Instance};
