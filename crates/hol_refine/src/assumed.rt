// What is among a goal's assumptions, up to the names of bound variables.
ghost use Rattle.std.specs.Prelude.{◌≡◌};
ghost use Rattle.std.specs.List.{list_any};
ghost use Rattle.hol_model.specs.Kernel.Theorem.{are_alpha_equivalent};
ghost use Rattle.hol_model.specs.Goals.Achieving as achieving;
ghost use Rattle.hol_just.specs.Steps.{goal_of};

use hol_alpha::aconv;
use hol_just::Goal;
use hol_terms::Term;

// Whether the term is one of these, up to the names of bound variables.
fn is_among(term: &Term, terms: &[Term]) -> bool
    ensures { result ≡ list_any (λ other. are_alpha_equivalent term.now other) terms.now }
{
    terms.iter().any(|other| aconv(term, other))
}

/// Whether the term is among the assumptions.
pub(crate) fn is_assumed(term: &Term, goal: &Goal) -> bool
    ensures { result ≡ achieving.is_assumed term.now (goal_of goal.now) }
{
    is_among(term, &goal.asms)
}

/// Whether each of the terms is among the assumptions.
pub fn are_assumed(terms: &[Term], goal: &Goal) -> bool
    ensures { result ≡ achieving.are_assumed terms.now (goal_of goal.now) }
{
    terms.iter().all(|term| is_assumed(term, goal))
}
