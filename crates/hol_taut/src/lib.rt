//! TAUT: formulas that are true in every row of values of their atoms, proved by a recorder. A tautology is proved by
//! refuting its denial: a formula is proved as soon as the known atoms tell its value, and else the atom is split whose
//! values tell the most. Parts that stand at several places are first taken for atoms, long chains of `<=>` are shortened, and the
//! splits are planned before they are made, by a search whose theorem is judged when it is made.
#![tactic(auto)]

mod chain_proofs;
mod denial;
mod denied;
mod facts;
mod general;
mod known;
mod leaves;
mod next;
mod planned;
mod refuted;
mod search;
mod shown;
mod splits;
mod steps;
mod taken;
mod tautology;
mod way;

pub use tautology::taut;
