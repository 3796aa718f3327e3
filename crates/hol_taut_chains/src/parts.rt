// Formulas whose chains of `<=>` are in normal form.
ghost use Rattle.std.specs.Prelude.{◌<◌, IfOk, IfSome};
ghost use Rattle.hol_model.specs.Terms.NamedTerm.{height};
ghost use Rattle.hol_journal.specs.Journal.{IsMade};
ghost use Rattle.hol_journal.specs.Growth.{Continues, IsHeld};
ghost use Rattle.hol_taut_chains.specs.Chains.{HasChainLaws};

use crate::chain_steps::{Made, applied, followed, reflexive, under};
use crate::chains::{has_chain, is_chain, sides_of};
use crate::pairs::same_side;
use crate::pulled::ChainLaws;
use crate::sorted::normal_chain;
use hol_equal::conclusion_of;
use hol_equal::steps::deduct_antisym;
use hol_journal::{Rec, Recorder};
use hol_model::Fault;
use hol_taut_formulas::{Form, form_of};
use hol_terms::Term;

// The sides of a connective, where a chain stands in the left one.
fn sides_with_chain(term: &Term) -> Option<(&Term, &Term)>
    ensures { IfSome result (λ sides. (height sides.0.now < height term.now) × (height sides.1.now < height term.now)) }
{
    match form_of(term) {
        Form::Connected(_, left, right) => {
            if has_chain(left) {
                Some((left, right))
            } else {
                None
            }
        }
        _ => None,
    }
}

// The last part of a formula of a connective.
fn last_part(term: &Term) -> Option<&Term>
    ensures { IfSome result (λ part. height part.now < height term.now) }
{
    match form_of(term) {
        Form::Negated(part) => Some(part),
        Form::Connected(_, _, right) => Some(right),
        _ => None,
    }
}

// What is applied to it.
fn function_of(term: &Term) -> Option<&Term> {
    let (function, _) = term.dest_comb()?;
    Some(function)
}

// The connective of a formula with two sides.
fn connective_of(term: &Term) -> Option<&Term> {
    function_of(function_of(term)?)
}

// The equation of a connective's formula, from those of its sides.
#[tactic(auto, using(hol_equal::proofs::StepLemmas::still_made, hol_equal::proofs::StepLemmas::now_made, crate::proofs::ChainLemmas::continued_twice))]
fn joined_sides(recorder: &mut Recorder, term: &Term, left: &Rec, right: &Rec) -> Made
    requires left { IsMade recorder.old left.now }
    requires right { IsMade recorder.old right.now }
    ensures continues { Continues recorder.old recorder.new result }
{
    let Some(connective) = connective_of(term) else {
        return Err(Fault::BadShape);
    };
    let first = under(recorder, connective, left)?;
    applied(recorder, &first, right)
}

/// The same, where that of the right side was made.
pub(crate) fn joined(recorder: &mut Recorder, term: &Term, left: &Rec, right: Made) -> Made
    requires left { IsMade recorder.old left.now }
    requires right { IfOk right (IsHeld recorder.old) }
    ensures continues { Continues recorder.old recorder.new result }
{
    let right = right?;
    joined_sides(recorder, term, left, &right)
}

/// The equation of a connective's formula, from that of its last part.
pub(crate) fn beneath(recorder: &mut Recorder, term: &Term, part: Made) -> Made
    requires part { IfOk part (IsHeld recorder.old) }
    ensures continues { Continues recorder.old recorder.new result }
{
    let part = part?;
    match function_of(term) {
        Some(function) => under(recorder, function, &part),
        None => Err(Fault::BadShape),
    }
}

// Of `chain <=> p <=> p`, `p`.
fn same_side_behind(equation: &Term) -> Option<&Term> {
    let (_, rest) = sides_of(equation)?;
    same_side(rest)
}

// `(p <=> p) <=> T`.
#[tactic(auto, using(hol_equal::proofs::StepLemmas::still_made, hol_equal::proofs::StepLemmas::now_made, crate::proofs::ChainLemmas::continued_twice))]
fn truth_of(recorder: &mut Recorder, truth: &Rec, side: &Term) -> Made
    requires { IsMade recorder.old truth.now }
    ensures continues { Continues recorder.old recorder.new result }
{
    let same = reflexive(recorder, side)?;
    deduct_antisym(recorder, &same, truth)
}

// From `chain <=> p <=> p`, `chain <=> T`; what else a chain is equal to stays.
#[tactic(auto, using(hol_equal::proofs::StepLemmas::still_made, hol_equal::proofs::StepLemmas::now_made, crate::proofs::ChainLemmas::continued_twice))]
fn with_truth(recorder: &mut Recorder, truth: &Rec, normal: Rec) -> Made
    requires truth { IsMade recorder.old truth.now }
    requires normal { IsHeld recorder.old normal }
    ensures continues { Continues recorder.old recorder.new result }
{
    let Some(side) = same_side_behind(conclusion_of(recorder, &normal)) else {
        return Ok(normal);
    };
    let same = truth_of(recorder, truth, side);
    followed(recorder, normal, same)
}

// `chain <=> normal`, or `chain <=> T`.
#[tactic(auto, using(hol_equal::proofs::StepLemmas::still_made, crate::proofs::ChainLemmas::continued_twice))]
fn chain_equation(recorder: &mut Recorder, laws: &ChainLaws, whole: &Term, chain: &Term) -> Made
    requires { HasChainLaws recorder.old laws.now }
    ensures continues { Continues recorder.old recorder.new result }
{
    let normal = normal_chain(recorder, laws, whole, chain)?;
    with_truth(recorder, &laws.truth, normal)
}

/// `formula <=> normal`, by the equations of the chains that stand in the formula.
#[tactic(auto, using(hol_equal::proofs::StepLemmas::still_made, crate::proofs::ChainLemmas::continued_twice, crate::proofs::ChainLemmas::still_chain_laws))]
pub fn normal_form(
    recorder: &mut Recorder,
    laws: &ChainLaws,
    whole: &Term,
    term: &Term,
) -> Result<Rec, Fault>
    requires laws { HasChainLaws recorder.old laws.now }
    ensures continues { Continues recorder.old recorder.new result }
{
    if is_chain(term) {
        return chain_equation(recorder, laws, whole, term);
    }
    if !has_chain(term) {
        return reflexive(recorder, term);
    }
    if let Some((left, right)) = sides_with_chain(term) {
        let left = normal_form(recorder, laws, whole, left)?;
        let right = normal_form(recorder, laws, whole, right);
        return joined(recorder, term, &left, right);
    }
    let Some(last) = last_part(term) else {
        return Err(Fault::BadShape);
    };
    let last = normal_form(recorder, laws, whole, last);
    beneath(recorder, term, last)
}
