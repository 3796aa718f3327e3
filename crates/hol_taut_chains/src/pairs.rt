// Chains of `<=>` without what occurs in them twice.
ghost use Rattle.hol_journal.specs.Journal.{IsMade};
ghost use Rattle.hol_journal.specs.Growth.{Continues};
ghost use Rattle.hol_taut_chains.specs.Chains.{HasChainLaws};

use crate::chain_steps::{Made, followed};
use crate::chains::{sides_of, twofold};
use crate::pulled::{ChainLaws, carried, front_and_rest, pulled};
use hol_alpha::aconv;
use hol_equal::{conclusion_of, trans};
use hol_journal::{Rec, Recorder};
use hol_model::Fault;
use hol_terms::Term;

// From `chain <=> part <=> rest`, `rest <=> part <=> shorter`.
fn pulled_again(recorder: &mut Recorder, laws: &ChainLaws, first: &Rec) -> Made
    requires laws { HasChainLaws recorder.old laws.now }
    requires first { IsMade recorder.old first.now }
    ensures continues { Continues recorder.old recorder.new result }
{
    let Some((part, rest)) = front_and_rest(conclusion_of(recorder, first)) else {
        return Err(Fault::BadShape);
    };
    pulled(recorder, laws, part, rest)
}

// `chain <=> shorter`, where the part stands at two places of the chain.
#[tactic(auto, using(crate::proofs::ChainLemmas::in_a_row))]
fn without_pair(recorder: &mut Recorder, laws: &ChainLaws, part: &Term, chain: &Term) -> Made
    requires laws { HasChainLaws recorder.old laws.now }
    ensures continues { Continues recorder.old recorder.new result }
{
    let first = pulled(recorder, laws, part, chain)?;
    let second = pulled_again(recorder, laws, &first)?;
    let shorter = carried(recorder, &laws.paired, part, &second)?;
    trans(recorder, &first, &shorter)
}

/// The side of an equivalence between formulas that are equal up to the names of bound variables.
pub(crate) fn same_side(term: &Term) -> Option<&Term> {
    match sides_of(term) {
        Some((left, right)) => { if aconv(left, right) { Some(left) } else { None } }
        None => None,
    }
}

// What is left of a chain, and a part of it at two places.
fn next_pair<'a>(recorder: &Recorder, shorter: &'a Rec) -> Option<(&'a Term, &'a Term)>
    requires { IsMade recorder.now shorter.now }
{
    let Some((_, rest)) = sides_of(conclusion_of(recorder, shorter)) else {
        return None;
    };
    if same_side(rest).is_some() {
        return None;
    }
    match twofold(rest, rest) {
        Some(part) => Some((part, rest)),
        None => None,
    }
}

/// `chain <=> shortest`, for a part at two places of the chain, and after it for so many more.
#[tactic(auto, using(crate::proofs::ChainLemmas::in_a_row))]
pub(crate) fn without_pairs(
    recorder: &mut Recorder,
    laws: &ChainLaws,
    part: &Term,
    chain: &Term,
    more: usize,
) -> Made
    requires laws { HasChainLaws recorder.old laws.now }
    ensures continues { Continues recorder.old recorder.new result }
{
    let shorter = without_pair(recorder, laws, part, chain)?;
    if more == 0 {
        return Ok(shorter);
    }
    let Some((next, rest)) = next_pair(recorder, &shorter) else {
        return Ok(shorter);
    };
    let shortest = without_pairs(recorder, laws, next, rest, more - 1);
    followed(recorder, shorter, shortest)
}
