// Refiner expressions.

use crate::leaf::Leaf;

/// A refiner expression (HOL Light's tactics.ml). Refiners that are chained stand in a list, so that only parentheses, lists and
/// prefixes nest.
#[cycle(tac)]
#[derive(Drop)]
pub enum Tac<Quote> {
    /// A refiner without parts.
    Leaf(Leaf<Quote>),
    /// The host's refiner of this name.
    Host(String),
    /// A refiner, and what is done with its subgoals, one link after another.
    Chain(Box<Tac<Quote>>, Vec<Link<Quote>>),
    /// ORELSE, between the first and each of the others.
    OrElse(Box<Tac<Quote>>, Vec<Tac<Quote>>),
    /// REPEAT.
    Repeat(Box<Tac<Quote>>),
    /// TRY.
    Try(Box<Tac<Quote>>),
}

/// What is done with the subgoals of a refiner.
#[cycle(tac)]
#[derive(Drop)]
pub enum Link<Quote> {
    /// THEN: one refiner for all of them.
    Then(Tac<Quote>),
    /// THENL: a refiner for each of them.
    Thenl(Vec<Tac<Quote>>),
}
