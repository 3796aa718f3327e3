//! The steps of a log over earlier theorems: each checks its conditions and makes its theorem.

use crate::state::Theorem;
use hol_model::{Cause, Fault};

pub mod axioms;
mod conclude;
pub mod definition;
pub mod equality;
pub mod instances;
pub mod logic;

/// What a step makes, or the first cause for which it is refused. A fault tells of memory that is used up.
pub type Taken = Result<Result<Theorem, Cause>, Fault>;
