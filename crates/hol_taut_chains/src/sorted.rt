// Chains of `<=>` with their parts in the order of a whole.
ghost use Rattle.hol_journal.specs.Journal.{IsMade};
ghost use Rattle.hol_journal.specs.Growth.{Continues};
ghost use Rattle.hol_taut_chains.specs.Chains.{HasChainLaws};

use crate::chain_steps::{Made, beside, reflexive};
use crate::chains::{first_part, is_sorted, sides_of, twofold};
use crate::pairs::{same_side, without_pairs};
use crate::pulled::{ChainLaws, front_and_rest, pulled};
use hol_equal::{conclusion_of, trans};
use hol_journal::{Rec, Recorder};
use hol_model::Fault;
use hol_terms::Term;

// How many parts are put in their order, or taken out by pairs.
const MOST_PARTS: usize = 128;

// From `chain <=> part <=> rest` and `rest <=> sorted`, `chain <=> part <=> sorted`.
#[tactic(auto, using(hol_equal::proofs::StepLemmas::still_made, hol_equal::proofs::StepLemmas::now_made, crate::proofs::ChainLemmas::continued_twice))]
fn with_sorted(recorder: &mut Recorder, part: &Term, first: &Rec, inner: &Rec) -> Made
    requires first { IsMade recorder.old first.now }
    requires inner { IsMade recorder.old inner.now }
    ensures continues { Continues recorder.old recorder.new result }
{
    let beside = beside(recorder, part, inner)?;
    trans(recorder, first, &beside)
}

// Whether its parts are in their order, or it has equal sides.
fn is_normal(whole: &Term, chain: &Term) -> bool {
    same_side(chain).is_some() || is_sorted(whole, chain)
}

// `chain <=> sorted`, where it has at most so many parts.
#[tactic(auto, using(crate::proofs::ChainLemmas::in_a_row))]
fn sorted(
    recorder: &mut Recorder,
    laws: &ChainLaws,
    whole: &Term,
    chain: &Term,
    most: usize,
) -> Made
    requires laws { HasChainLaws recorder.old laws.now }
    ensures continues { Continues recorder.old recorder.new result }
{
    if is_normal(whole, chain) {
        return reflexive(recorder, chain);
    }
    if most == 0 {
        return Err(Fault::BadShape);
    }
    let Some(part) = first_part(whole, chain) else {
        return Err(Fault::BadShape);
    };
    let first = pulled(recorder, laws, part, chain)?;
    let Some((part, rest)) = front_and_rest(conclusion_of(recorder, &first)) else {
        return Err(Fault::BadShape);
    };
    let inner = sorted(recorder, laws, whole, rest, most - 1)?;
    with_sorted(recorder, part, &first, &inner)
}

// From `chain <=> shortest`, `chain <=> sorted`.
#[tactic(auto, using(crate::proofs::ChainLemmas::in_a_row))]
fn sorted_behind(recorder: &mut Recorder, laws: &ChainLaws, whole: &Term, shortest: &Rec) -> Made
    requires laws { HasChainLaws recorder.old laws.now }
    requires shortest { IsMade recorder.old shortest.now }
    ensures continues { Continues recorder.old recorder.new result }
{
    let Some((_, chain)) = sides_of(conclusion_of(recorder, shortest)) else {
        return Err(Fault::BadShape);
    };
    let sorted = sorted(recorder, laws, whole, chain, MOST_PARTS)?;
    trans(recorder, shortest, &sorted)
}

/// `chain <=> normal`: without the pairs of its parts, and those that are left in the order of the whole.
#[tactic(auto, using(crate::proofs::ChainLemmas::in_a_row))]
pub(crate) fn normal_chain(
    recorder: &mut Recorder,
    laws: &ChainLaws,
    whole: &Term,
    chain: &Term,
) -> Made
    requires laws { HasChainLaws recorder.old laws.now }
    ensures continues { Continues recorder.old recorder.new result }
{
    let Some(part) = twofold(chain, chain) else {
        return sorted(recorder, laws, whole, chain, MOST_PARTS);
    };
    let shortest = without_pairs(recorder, laws, part, chain, MOST_PARTS)?;
    sorted_behind(recorder, laws, whole, &shortest)
}
