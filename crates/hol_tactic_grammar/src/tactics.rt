// The makers of compound refiner expressions.
ghost use Rattle.std.specs.Prelude.{map};
ghost use Rattle.hol_tactic_grammar.specs.Expressions.{or_else, then_on, all_expressions, all_links, expression_here, joint_here};
ghost use Rattle.hol_tactic_grammar.specs.Tactics.{Means, with_prefix};

use crate::tokens::Read;
use hol_syntax_grammar::TermStep;
use hol_tactic_exprs::{Link, Tac};
use std::alloc::Global;

/// A refiner expression, its quoted terms by their steps.
pub type Refiner<'a> = Tac<Vec<TermStep<'a>>>;

/// What is done with the subgoals of a refiner.
pub type Joint<'a> = Link<Vec<TermStep<'a>>>;

/// What may stand before a refiner.
#[derive(Clone, Copy, Drop)]
pub enum Prefix {
    Repeat,
    Try,
}

/// The first, or all of them by ORELSE.
pub fn or_else<'a>(alloc: Global, first: Refiner<'a>, others: Vec<Refiner<'a>>) -> Read<Refiner<'a>>
    ensures { Means result (or_else (expression_here first.entry) (all_expressions (map expression_here others.entry.items))) }
{
    if others.is_empty() {
        return Ok(first);
    }
    Ok(Tac::OrElse(Box::new(alloc, first)?, others))
}

/// The first, or all links on it.
pub fn then_on<'a>(alloc: Global, first: Refiner<'a>, links: Vec<Joint<'a>>) -> Read<Refiner<'a>>
    ensures { Means result (then_on (expression_here first.entry) (all_links (map joint_here links.entry.items))) }
{
    if links.is_empty() {
        return Ok(first);
    }
    Ok(Tac::Chain(Box::new(alloc, first)?, links))
}

/// The refiner behind a prefix.
pub fn prefixed<'a>(alloc: Global, prefix: Prefix, tactic: Refiner<'a>) -> Read<Refiner<'a>>
    ensures { Means result (with_prefix prefix (expression_here tactic.entry)) }
{
    let inner = Box::new(alloc, tactic)?;
    match prefix {
        Prefix::Repeat => Ok(Tac::Repeat(inner)),
        Prefix::Try => Ok(Tac::Try(inner)),
    }
}
