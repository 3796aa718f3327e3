// Rules about hypotheses and formulas.
ghost use Rattle.std.specs.Prelude.{◌≡◌, ◌<◌, ◌++◌, [], List, length};
ghost use Rattle.hol_check_terms.specs.Terms.{term_at, IsGrown};
ghost use Rattle.hol_check_rules.specs.State.{sequent_in, IsFittingTheorem};
ghost use Rattle.hol_check_rules.specs.Steps as spec;
ghost use Rattle.hol_check_rules.specs.Steps.{Takes};
ghost use Rattle.hol_check_changes.specs.Forming.{IsFitting};

use super::Taken;
use super::conclude::conclude;
use crate::hypotheses::{set_of, union, without};
use crate::state::Theorem;
use hol_check_changes::equation::{is_equation, left_side, right_side};
use hol_check_changes::forming::{equation_of, is_formula, within_limits};
use hol_check_terms::terms::Terms;
use hol_model::Cause;

/// A formula follows from itself.
pub fn assume(terms: &mut Terms, term: usize) -> Taken
    requires { IsFitting terms.old.terms term }
    ensures taken { Takes (spec.assume_step (term_at terms.old.terms term)) result terms.new.terms }
    ensures grows { IsGrown terms.old terms.new }
{
    let hypotheses = set_of(terms, &[term])?;
    let formula = is_formula(terms, term)?;
    if !formula {
        return Ok(Err(Cause::Kind));
    }
    conclude(hypotheses, Ok(term))
}

/// From `p = q` and `p` follows `q`.
pub fn eq_mp(terms: &mut Terms, first: &Theorem, second: &Theorem) -> Taken
    requires first { IsFittingTheorem terms.old.terms first.now }
    requires second { IsFittingTheorem terms.old.terms second.now }
    ensures taken { Takes (spec.eq_mp_step (sequent_in terms.old.terms first.now) (sequent_in terms.old.terms second.now)) result terms.new.terms }
    ensures grows { IsGrown terms.old terms.new }
{
    if !is_equation(terms, first.conclusion) {
        return Ok(Err(Cause::Rule));
    }
    if !terms.is_same(left_side(terms, first.conclusion), second.conclusion) {
        return Ok(Err(Cause::Rule));
    }
    let right = right_side(terms, first.conclusion);
    let hypotheses = union(terms, &first.hypotheses, &second.hypotheses)?;
    conclude(hypotheses, within_limits(terms, right))
}

/// From `p` and `q` follows `p = q`, each without the other among its hypotheses.
pub fn deduct(terms: &mut Terms, first: &Theorem, second: &Theorem) -> Taken
    requires first { IsFittingTheorem terms.old.terms first.now }
    requires second { IsFittingTheorem terms.old.terms second.now }
    ensures taken { Takes (spec.deduct_step (sequent_in terms.old.terms first.now) (sequent_in terms.old.terms second.now)) result terms.new.terms }
    ensures grows { IsGrown terms.old terms.new }
{
    let first_left = without(terms, second.conclusion, &first.hypotheses)?;
    let second_left = without(terms, first.conclusion, &second.hypotheses)?;
    let hypotheses = union(terms, &first_left, &second_left)?;
    conclude(
        hypotheses,
        equation_of(terms, first.conclusion, second.conclusion),
    )
}
