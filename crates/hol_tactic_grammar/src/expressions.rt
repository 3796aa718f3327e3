// Refiner expressions, their quoted terms read: a recursion where parentheses, lists and prefixes nest, and loops over chains.
ghost use Rattle.hol_syntax.specs.Scope.{scope_of};
ghost use Rattle.hol_tactic_grammar.specs.Reading.{IsOfTree, ReadsTactic, ReadsExpression, ReadsEach, ReadsLink, ReadsLinks};

use crate::read_leaves::read_leaf;
use hol_model::Fault;
use hol_syntax::Scope;
use hol_syntax_grammar::TermStep;
use hol_tactic_exprs::{Link, Tac};
use hol_terms::Term;
use std::alloc::Global;

// The expression with its quoted terms read.
#[cycle(reading)]
fn read_expression(
    alloc: Global,
    scope: &Scope,
    tac: &Tac<Vec<TermStep<'_>>>,
) -> Result<Tac<Term>, Fault>
    ensures { ReadsExpression (scope_of scope.now) tac.now result }
{
    match tac {
        Tac::Leaf(leaf) => Ok(Tac::Leaf(read_leaf(alloc, scope, leaf)?)),
        Tac::Host(name) => Ok(Tac::Host(name.clone()?)),
        Tac::Chain(first, links) => {
            let first = read_expression(alloc, scope, first)?;
            let links = read_links(alloc, scope, links)?;
            Tac::chain(alloc, first, links)
        }
        Tac::OrElse(first, others) => {
            let first = read_expression(alloc, scope, first)?;
            let others = read_each(alloc, scope, others)?;
            Tac::orelse(alloc, first, others)
        }
        Tac::Repeat(inner) => Tac::repeat(alloc, read_expression(alloc, scope, inner)?),
        Tac::Try(inner) => Tac::try_tac(alloc, read_expression(alloc, scope, inner)?),
    }
}

// The expressions, one after another.
#[cycle(reading)]
fn read_each(
    alloc: Global,
    scope: &Scope,
    tacs: &[Tac<Vec<TermStep<'_>>>],
) -> Result<Vec<Tac<Term>>, Fault>
    ensures { ReadsEach (scope_of scope.now) tacs.now result }
{
    let mut each = Vec::new(alloc);
    for tac in tacs {
        let tac = read_expression(alloc, scope, tac)?;
        each.push(tac)?;
    }
    Ok(each)
}

// THEN or THENL, with what follows it read.
#[cycle(reading)]
fn read_link(
    alloc: Global,
    scope: &Scope,
    link: &Link<Vec<TermStep<'_>>>,
) -> Result<Link<Term>, Fault>
    ensures { ReadsLink (scope_of scope.now) link.now result }
{
    match link {
        Link::Then(tac) => Ok(Link::Then(read_expression(alloc, scope, tac)?)),
        Link::Thenl(tacs) => Ok(Link::Thenl(read_each(alloc, scope, tacs)?)),
    }
}

// The links, one after another.
#[cycle(reading)]
fn read_links(
    alloc: Global,
    scope: &Scope,
    links: &[Link<Vec<TermStep<'_>>>],
) -> Result<Vec<Link<Term>>, Fault>
    ensures { ReadsLinks (scope_of scope.now) links.now result }
{
    let mut each = Vec::new(alloc);
    for link in links {
        let link = read_link(alloc, scope, link)?;
        each.push(link)?;
    }
    Ok(each)
}

/// The refiner expression (HOL Light's tactics.ml) with its quoted terms read over the scope, from left to right. Refused: as the
/// first term that is refused; Memory.
pub fn read_tactic(
    alloc: Global,
    scope: &Scope,
    tac: &Tac<Vec<TermStep<'_>>>,
) -> Result<Tac<Term>, Fault>
    requires { IsOfTree tac.now }
    ensures { ReadsTactic (scope_of scope.now) tac.now result }
{
    read_expression(alloc, scope, tac)
}
