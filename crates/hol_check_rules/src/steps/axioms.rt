// The axioms.
ghost use Rattle.std.specs.Prelude.{◌≡◌, ◌∷◌, [], codes, Some, slice_get, IfOk, IfErr};
ghost use Rattle.hol_model.specs.declared.fault.Fault.TheVariants.{Memory};
ghost use Rattle.hol_model.specs.Terms.HolType as types;
ghost use Rattle.hol_model.specs.Terms.Nameless.{const, bound, app, lam};
ghost use Rattle.hol_model.specs.Logic.Theory as theory;
ghost use Rattle.hol_model.specs.Logic.Derivable as derivable;
ghost use Rattle.hol_check_terms.specs.Terms.{IsGrown};
ghost use Rattle.hol_check_rules.specs.Steps as spec;
ghost use Rattle.hol_check_rules.specs.Steps.{IsNamed, IsNamedType, Takes};
ghost use Rattle.hol_check_changes.specs.Forming.{IsFormed, IsFitting};

use super::conclude::conclude;
use crate::hypotheses::set_of;
use crate::state::Theorem;
use hol_check_changes::forming::{application, constant, equation_of, variable, within_limits};
use hol_check_terms::terms::Terms;
use hol_model::{Cause, Fault};

/// A function equals the abstraction of its application.
pub fn eta(terms: &mut Terms) -> Result<Result<Theorem, Cause>, Fault>
    ensures taken { Takes spec.eta_step result terms.new.terms }
    ensures grows { IsGrown terms.old terms.new }
{
    let hypotheses = set_of(terms, &[])?;
    conclude(hypotheses, eta_conclusion(terms))
}

// (\x:A. t x) = t
fn eta_conclusion(terms: &mut Terms) -> Result<usize, Fault>
    ensures formed { IsFormed derivable.eta_axiom result terms.new.terms }
    ensures grows { IsGrown terms.old terms.new }
{
    let left = eta_abstraction(terms)?;
    let right = eta_variable(terms)?;
    equation_of(terms, left, right)
}

// \x:A. t x
fn eta_abstraction(terms: &mut Terms) -> Result<usize, Fault>
    ensures named { IsNamed (lam theory.type_a (app derivable.eta_variable (bound 0))) result terms.new.terms }
    ensures grows { IsGrown terms.old terms.new }
{
    let body = eta_application(terms)?;
    let ty = terms.type_variable(b"A")?;
    terms.abstraction(ty, body)
}

// t x, under the binder of x
fn eta_application(terms: &mut Terms) -> Result<usize, Fault>
    ensures named { IsNamed (app derivable.eta_variable (bound 0)) result terms.new.terms }
    ensures grows { IsGrown terms.old terms.new }
{
    let function = eta_variable(terms)?;
    let argument = terms.bound(0)?;
    terms.application(function, argument)
}

// t:A->B
fn eta_variable(terms: &mut Terms) -> Result<usize, Fault>
    ensures named { IsNamed derivable.eta_variable result terms.new.terms }
    ensures grows { IsGrown terms.old terms.new }
{
    let ty = eta_type(terms)?;
    variable(terms, b"t", ty)
}

// A->B
fn eta_type(terms: &mut Terms) -> Result<usize, Fault>
    ensures named { IsNamedType (types.function_type theory.type_a theory.type_b) result terms.new.types }
    ensures grows { IsGrown terms.old terms.new }
{
    let domain = terms.type_variable(b"A")?;
    let codomain = terms.type_variable(b"B")?;
    terms.function_type(domain, codomain)
}

/// A predicate that holds of something holds of its choice.
pub fn select(terms: &mut Terms) -> Result<Result<Theorem, Cause>, Fault>
    ensures taken { Takes spec.select_step result terms.new.terms }
    ensures grows { IsGrown terms.old terms.new }
{
    let hypothesis = select_hypothesis(terms)?;
    let hypotheses = set_of(terms, &[hypothesis])?;
    conclude(hypotheses, select_conclusion(terms))
}

// P x
fn select_hypothesis(terms: &mut Terms) -> Result<usize, Fault>
    ensures named { IsNamed derivable.select_hypothesis result terms.new.terms }
    ensures fitting { IfOk result (IsFitting terms.new.terms) }
    ensures grows { IsGrown terms.old terms.new }
{
    let predicate = select_predicate(terms)?;
    let argument = select_variable(terms)?;
    terms.application(predicate, argument)
}

// P (@ P)
fn select_conclusion(terms: &mut Terms) -> Result<usize, Fault>
    ensures formed { IsFormed derivable.select_conclusion result terms.new.terms }
    ensures grows { IsGrown terms.old terms.new }
{
    let chosen = choice_application(terms)?;
    let predicate = select_predicate(terms)?;
    let number = application(terms, predicate, chosen)?;
    within_limits(terms, number)
}

// @ P
fn choice_application(terms: &mut Terms) -> Result<usize, Fault>
    ensures named { IsNamed (app (const theory.choice_name (theory.choice_type theory.type_a)) derivable.select_predicate) result terms.new.terms }
    ensures grows { IsGrown terms.old terms.new }
{
    let choice = choice(terms)?;
    let predicate = select_predicate(terms)?;
    terms.application(choice, predicate)
}

// @:(A->bool)->A
fn choice(terms: &mut Terms) -> Result<usize, Fault>
    ensures named { IsNamed (const theory.choice_name (theory.choice_type theory.type_a)) result terms.new.terms }
    ensures grows { IsGrown terms.old terms.new }
{
    let predicates = predicate_type(terms)?;
    let argument = terms.type_variable(b"A")?;
    let ty = terms.function_type(predicates, argument)?;
    constant(terms, b"@", ty)
}

// P:A->bool
fn select_predicate(terms: &mut Terms) -> Result<usize, Fault>
    ensures named { IsNamed derivable.select_predicate result terms.new.terms }
    ensures grows { IsGrown terms.old terms.new }
{
    let ty = predicate_type(terms)?;
    variable(terms, b"P", ty)
}

// x:A
fn select_variable(terms: &mut Terms) -> Result<usize, Fault>
    ensures named { IsNamed derivable.select_variable result terms.new.terms }
    ensures grows { IsGrown terms.old terms.new }
{
    let ty = terms.type_variable(b"A")?;
    variable(terms, b"x", ty)
}

// A->bool
fn predicate_type(terms: &mut Terms) -> Result<usize, Fault>
    ensures named { IsNamedType (types.function_type theory.type_a types.bool_type) result terms.new.types }
    ensures grows { IsGrown terms.old terms.new }
{
    let domain = terms.type_variable(b"A")?;
    let codomain = terms.boolean()?;
    terms.function_type(domain, codomain)
}
