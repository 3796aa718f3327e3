// Formulas whose chains of `<=>` have no negated parts.
ghost use Rattle.std.specs.Prelude.{IfOk, IfSome};
ghost use Rattle.hol_journal.specs.Journal.{IsMade};
ghost use Rattle.hol_journal.specs.Growth.{Continues, IsHeld};
ghost use Rattle.hol_taut_chains.specs.Negations.{HasNegationLaws};

use crate::chain_steps::{Made, followed, reflexive};
use crate::chains::sides_of;
use crate::parts::{beneath, joined};
use crate::pulled::law_at;
use hol_equal::conclusion_of;
use hol_journal::{Rec, Recorder};
use hol_model::Fault;
use hol_taut_formulas::{Form, form_of};
use hol_terms::Term;

/// The laws by which negations are taken out of chains.
#[derive(Drop)]
pub struct NegationLaws {
    /// `|- (~p <=> q) <=> ~(p <=> q)`.
    pub left: Rec,
    /// `|- (p <=> ~q) <=> ~(p <=> q)`.
    pub right: Rec,
    /// `|- ~~p <=> p`.
    pub twice: Rec,
}

// What is negated.
fn negated(term: &Term) -> Option<&Term> {
    match form_of(term) {
        Form::Negated(part) => Some(part),
        _ => None,
    }
}

// Whether a side of a chain is negated.
fn has_negated_side(chain: &Term) -> bool {
    match sides_of(chain) {
        Some((left, right)) => negated(left).is_some() || negated(right).is_some(),
        None => false,
    }
}

/// Whether a part of a chain is negated.
pub fn has_negated_part(term: &Term) -> bool {
    if has_negated_side(term) {
        return true;
    }
    match form_of(term) {
        Form::Negated(part) => has_negated_part(part),
        Form::Connected(_, left, right) => has_negated_part(left) || has_negated_part(right),
        _ => false,
    }
}

// The law that takes a negation out of a formula, with the formulas for its `p` and `q`.
fn law_for<'a>(
    _recorder: &Recorder,
    laws: &'a NegationLaws,
    term: &'a Term,
) -> Option<(&'a Rec, &'a Term, &'a Term)>
    requires laws { HasNegationLaws _recorder.now laws.now }
    ensures { IfSome result (λ found. IsMade _recorder.now found.0.now) }
{
    if let Some(part) = negated(term) {
        let core = negated(part)?;
        return Some((&laws.twice, core, core));
    }
    let (left, right) = sides_of(term)?;
    if let Some(core) = negated(left) {
        return Some((&laws.left, core, right));
    }
    let core = negated(right)?;
    Some((&laws.right, left, core))
}

// The right side of an equation of formulas.
fn right_of(equation: &Term) -> Option<&Term> {
    let (_, right) = sides_of(equation)?;
    Some(right)
}

// From `formula <=> other`, an equation with what a law makes of the other; one to which no law applies stays.
#[tactic(auto, using(hol_equal::proofs::StepLemmas::still_made, crate::proofs::ChainLemmas::continued_twice))]
fn rewritten(recorder: &mut Recorder, laws: &NegationLaws, equation: Rec) -> Made
    requires laws { HasNegationLaws recorder.old laws.now }
    requires equation { IsHeld recorder.old equation }
    ensures continues { Continues recorder.old recorder.new result }
{
    let Some(right) = right_of(conclusion_of(recorder, &equation)) else {
        return Ok(equation);
    };
    let Some((law, p, q)) = law_for(recorder, laws, right) else {
        return Ok(equation);
    };
    let next = law_at(recorder, law, p, q, q);
    followed(recorder, equation, next)
}

// What is negated in the right side of an equation, with that side.
fn negated_behind(equation: &Term) -> Option<(&Term, &Term)> {
    let right = right_of(equation)?;
    Some((right, negated(right)?))
}

// The same of `formula <=> ~other`, beneath the negation.
#[tactic(auto, using(hol_equal::proofs::StepLemmas::still_made, crate::proofs::ChainLemmas::continued_twice))]
fn rewritten_beneath(recorder: &mut Recorder, laws: &NegationLaws, equation: Rec) -> Made
    requires laws { HasNegationLaws recorder.old laws.now }
    requires equation { IsHeld recorder.old equation }
    ensures continues { Continues recorder.old recorder.new result }
{
    let Some((right, part)) = negated_behind(conclusion_of(recorder, &equation)) else {
        return Ok(equation);
    };
    let Some((law, p, q)) = law_for(recorder, laws, part) else {
        return Ok(equation);
    };
    let law = law_at(recorder, law, p, q, q);
    let next = beneath(recorder, right, law);
    followed(recorder, equation, next)
}

// From `formula <=> other`, where at most the sides of the other are negated, and once, an equation where none is.
#[tactic(auto, using(crate::proofs::ChainLemmas::continued_twice))]
fn pulled_out(recorder: &mut Recorder, laws: &NegationLaws, equation: Rec) -> Made
    requires laws { HasNegationLaws recorder.old laws.now }
    requires equation { IsHeld recorder.old equation }
    ensures continues { Continues recorder.old recorder.new result }
{
    let first = rewritten(recorder, laws, equation)?;
    let second = rewritten_beneath(recorder, laws, first)?;
    rewritten(recorder, laws, second)
}

// The equation of a connective's formula, from those of its sides.
#[tactic(auto, using(crate::proofs::ChainLemmas::continued_twice))]
fn connected(
    recorder: &mut Recorder,
    laws: &NegationLaws,
    term: &Term,
    left: &Rec,
    right: Made,
) -> Made
    requires laws { HasNegationLaws recorder.old laws.now }
    requires left { IsMade recorder.old left.now }
    requires right { IfOk right (IsHeld recorder.old) }
    ensures continues { Continues recorder.old recorder.new result }
{
    match joined(recorder, term, left, right) {
        Ok(whole) => pulled_out(recorder, laws, whole),
        Err(fault) => Err(fault),
    }
}

// The equation of a negation, from that of what is negated.
#[tactic(auto, using(crate::proofs::ChainLemmas::continued_twice))]
fn denied(recorder: &mut Recorder, laws: &NegationLaws, term: &Term, part: Made) -> Made
    requires laws { HasNegationLaws recorder.old laws.now }
    requires part { IfOk part (IsHeld recorder.old) }
    ensures continues { Continues recorder.old recorder.new result }
{
    match beneath(recorder, term, part) {
        Ok(whole) => rewritten(recorder, laws, whole),
        Err(fault) => Err(fault),
    }
}

/// `formula <=> other`, where no part of a chain is negated in the other.
#[tactic(auto, using(hol_equal::proofs::StepLemmas::still_made, crate::proofs::ChainLemmas::continued_twice))]
pub fn without_negations(
    recorder: &mut Recorder,
    laws: &NegationLaws,
    term: &Term,
) -> Result<Rec, Fault>
    requires laws { HasNegationLaws recorder.old laws.now }
    ensures continues { Continues recorder.old recorder.new result }
{
    match form_of(term) {
        Form::Negated(part) => {
            let part = without_negations(recorder, laws, part);
            denied(recorder, laws, term, part)
        }
        Form::Connected(_, left, right) => {
            let left = without_negations(recorder, laws, left)?;
            let right = without_negations(recorder, laws, right);
            connected(recorder, laws, term, &left, right)
        }
        _ => reflexive(recorder, term),
    }
}
