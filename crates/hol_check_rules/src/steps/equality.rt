// Rules about equality.
ghost use Rattle.std.specs.Prelude.{◌≡◌, ◌<◌, ◌++◌, [], List, length};
ghost use Rattle.hol_check_terms.specs.Terms.{term_at, IsGrown};
ghost use Rattle.hol_check_rules.specs.State.{sequent_in, IsFittingTheorem};
ghost use Rattle.hol_check_rules.specs.Steps as spec;
ghost use Rattle.hol_check_rules.specs.Steps.{Takes};
ghost use Rattle.hol_check_changes.specs.Forming.{IsFitting};

use super::Taken;
use super::conclude::conclude;
use crate::hypotheses::{is_free_in_any, set_of, union};
use crate::state::Theorem;
use hol_check_changes::equation::{
    is_equation, is_free_variable, is_trivial_redex, left_side, right_side,
};
use hol_check_changes::forming::{
    equation_of, equation_of_abstractions, equation_of_applications, equation_of_redex, sides_fit,
};
use hol_check_terms::terms::Terms;
use hol_model::Cause;

/// A term equals itself.
pub fn refl(terms: &mut Terms, term: usize) -> Taken
    requires { IsFitting terms.old.terms term }
    ensures taken { Takes (spec.refl_step (term_at terms.old.terms term)) result terms.new.terms }
    ensures grows { IsGrown terms.old terms.new }
{
    let hypotheses = set_of(terms, &[])?;
    conclude(hypotheses, equation_of(terms, term, term))
}

/// From `a = b` and `b = c` follows `a = c`.
pub fn trans(terms: &mut Terms, first: &Theorem, second: &Theorem) -> Taken
    requires first { IsFittingTheorem terms.old.terms first.now }
    requires second { IsFittingTheorem terms.old.terms second.now }
    ensures taken { Takes (spec.trans_step (sequent_in terms.old.terms first.now) (sequent_in terms.old.terms second.now)) result terms.new.terms }
    ensures grows { IsGrown terms.old terms.new }
{
    if !are_equations(terms, first, second) {
        return Ok(Err(Cause::Rule));
    }
    let left = left_side(terms, first.conclusion);
    let right = right_side(terms, second.conclusion);
    if !terms.is_same(
        right_side(terms, first.conclusion),
        left_side(terms, second.conclusion),
    ) {
        return Ok(Err(Cause::Rule));
    }
    let hypotheses = union(terms, &first.hypotheses, &second.hypotheses)?;
    conclude(hypotheses, equation_of(terms, left, right))
}

/// Whether both conclusions are equations.
pub(crate) fn are_equations(terms: &Terms, first: &Theorem, second: &Theorem) -> bool
    requires first { IsFittingTheorem terms.now.terms first.now }
    requires second { IsFittingTheorem terms.now.terms second.now }
    ensures { result ≡ spec.are_equations (sequent_in terms.now.terms first.now) (sequent_in terms.now.terms second.now) }
{
    is_equation(terms, first.conclusion) && is_equation(terms, second.conclusion)
}

/// From `f = g` and `x = y` follows `f x = g y`.
pub fn mk_comb(terms: &mut Terms, first: &Theorem, second: &Theorem) -> Taken
    requires first { IsFittingTheorem terms.old.terms first.now }
    requires second { IsFittingTheorem terms.old.terms second.now }
    ensures taken { Takes (spec.mk_comb_step (sequent_in terms.old.terms first.now) (sequent_in terms.old.terms second.now)) result terms.new.terms }
    ensures grows { IsGrown terms.old terms.new }
{
    if !are_equations(terms, first, second) {
        return Ok(Err(Cause::Rule));
    }
    let function = left_side(terms, first.conclusion);
    let argument = left_side(terms, second.conclusion);
    let other_function = right_side(terms, first.conclusion);
    let other_argument = right_side(terms, second.conclusion);
    let hypotheses = union(terms, &first.hypotheses, &second.hypotheses)?;
    let fit = sides_fit(terms, first.conclusion, second.conclusion)?;
    if !fit {
        return Ok(Err(Cause::Kind));
    }
    let left = (function, argument);
    let right = (other_function, other_argument);
    conclude(hypotheses, equation_of_applications(terms, left, right))
}

/// From `a = b` follows that the abstractions of both over a variable are equal, where it is free in no hypothesis.
pub fn abs(terms: &mut Terms, variable: usize, premise: &Theorem) -> Taken
    requires variable { IsFitting terms.old.terms variable }
    requires premise { IsFittingTheorem terms.old.terms premise.now }
    ensures taken { Takes (spec.abs_step (term_at terms.old.terms variable) (sequent_in terms.old.terms premise.now)) result terms.new.terms }
    ensures grows { IsGrown terms.old terms.new }
{
    if !is_free_variable(terms, variable) {
        return Ok(Err(Cause::Kind));
    }
    if !is_equation(terms, premise.conclusion) {
        return Ok(Err(Cause::Rule));
    }
    let found = is_free_in_any(terms, variable, &premise.hypotheses)?;
    if found {
        return Ok(Err(Cause::Rule));
    }
    let left = left_side(terms, premise.conclusion);
    let right = right_side(terms, premise.conclusion);
    let hypotheses = set_of(terms, &premise.hypotheses)?;
    conclude(
        hypotheses,
        equation_of_abstractions(terms, variable, left, right),
    )
}

/// An abstraction that is applied to a variable that is not free in it equals its body with that variable.
pub fn beta(terms: &mut Terms, term: usize) -> Taken
    requires { IsFitting terms.old.terms term }
    ensures taken { Takes (spec.beta_step (term_at terms.old.terms term)) result terms.new.terms }
    ensures grows { IsGrown terms.old terms.new }
{
    let trivial = is_trivial_redex(terms, term)?;
    if !trivial {
        return Ok(Err(Cause::Rule));
    }
    let hypotheses = set_of(terms, &[])?;
    conclude(hypotheses, equation_of_redex(terms, term))
}
