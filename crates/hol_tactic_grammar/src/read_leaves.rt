// Refiners without parts, their quoted terms read.
ghost use Rattle.hol_syntax.specs.Scope.{scope_of};
ghost use Rattle.hol_tactic_grammar.specs.Reading.{ReadsLeaf};

use hol_model::Fault;
use hol_syntax::{Scope, term_of_steps};
use hol_syntax_grammar::TermStep;
use hol_tactic_exprs::{Leaf, leaf_like};
use hol_terms::Term;
use std::alloc::Global;

/// The refiner with its quoted term read, over the names that are known; refused as that term is.
pub fn read_leaf(
    alloc: Global,
    scope: &Scope,
    leaf: &Leaf<Vec<TermStep<'_>>>,
) -> Result<Leaf<Term>, Fault>
    ensures { ReadsLeaf (scope_of scope.now) leaf.now result }
{
    leaf_like!(alloc, leaf, steps => term_of_steps(alloc, scope, steps)?)
}
