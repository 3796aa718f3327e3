// A part of a chain of `<=>` at its front.
ghost use Rattle.hol_journal.specs.Journal.{IsMade};
ghost use Rattle.hol_journal.specs.Growth.{Continues};
ghost use Rattle.hol_taut_chains.specs.Chains.{HasChainLaws};

use crate::chain_steps::{Made, beside, followed, instance, reflexive};
use crate::chains::{is_part, sides_of};
use crate::formula_terms::for_p_q_r;
use hol_alpha::aconv;
use hol_equal::conclusion_of;
use hol_journal::{Rec, Recorder};
use hol_model::Fault;
use hol_terms::Term;

/// The laws by which chains are shortened.
#[derive(Drop)]
pub struct ChainLaws {
    /// `|- T`.
    pub truth: Rec,
    /// `|- (p <=> q) <=> (q <=> p)`.
    pub commuted: Rec,
    /// `|- (p <=> q <=> r) <=> (q <=> p <=> r)`.
    pub exchanged: Rec,
    /// `|- (p <=> p <=> r) <=> r`.
    pub paired: Rec,
}

/// A law at three formulas.
pub(crate) fn law_at(recorder: &mut Recorder, law: &Rec, p: &Term, q: &Term, r: &Term) -> Made
    requires { IsMade recorder.old law.now }
    ensures continues { Continues recorder.old recorder.new result }
{
    let alloc = recorder.alloc();
    let terms = for_p_q_r(alloc, p, q, r)?;
    instance(recorder, &terms, law)
}

/// Of `chain <=> part <=> rest`, the part and the rest.
pub(crate) fn front_and_rest(equivalence: &Term) -> Option<(&Term, &Term)> {
    match sides_of(equivalence) {
        Some((_, right)) => sides_of(right),
        None => None,
    }
}

// From `right <=> part <=> rest`, a law at `left`, `part` and `rest`.
fn law_behind(recorder: &mut Recorder, law: &Rec, left: &Term, inner: &Rec) -> Made
    requires law { IsMade recorder.old law.now }
    requires inner { IsMade recorder.old inner.now }
    ensures continues { Continues recorder.old recorder.new result }
{
    let Some((part, rest)) = front_and_rest(conclusion_of(recorder, inner)) else {
        return Err(Fault::BadShape);
    };
    law_at(recorder, law, left, part, rest)
}

/// From `right <=> part <=> rest`, `(left <=> right) <=> other` by a law of `left <=> part <=> rest`.
#[tactic(auto, using(crate::proofs::ChainLemmas::in_a_row))]
pub(crate) fn carried(recorder: &mut Recorder, law: &Rec, left: &Term, inner: &Rec) -> Made
    requires law { IsMade recorder.old law.now }
    requires inner { IsMade recorder.old inner.now }
    ensures continues { Continues recorder.old recorder.new result }
{
    let beside = beside(recorder, left, inner)?;
    let next = law_behind(recorder, law, left, inner);
    followed(recorder, beside, next)
}

// From `left <=> part <=> rest`, `(left <=> right) <=> (part <=> right <=> rest)`.
#[tactic(auto, using(crate::proofs::ChainLemmas::in_a_row))]
fn turned(recorder: &mut Recorder, laws: &ChainLaws, left: &Term, right: &Term, inner: &Rec) -> Made
    requires laws { HasChainLaws recorder.old laws.now }
    requires inner { IsMade recorder.old inner.now }
    ensures continues { Continues recorder.old recorder.new result }
{
    let turned = law_at(recorder, &laws.commuted, left, right, right)?;
    let carried = carried(recorder, &laws.exchanged, right, inner);
    followed(recorder, turned, carried)
}

/// `chain <=> part <=> rest`, for a part of the chain.
#[tactic(auto, using(crate::proofs::ChainLemmas::in_a_row))]
pub(crate) fn pulled(recorder: &mut Recorder, laws: &ChainLaws, part: &Term, chain: &Term) -> Made
    requires laws { HasChainLaws recorder.old laws.now }
    ensures continues { Continues recorder.old recorder.new result }
{
    let Some((left, right)) = sides_of(chain) else {
        return Err(Fault::BadShape);
    };
    if aconv(part, left) {
        return reflexive(recorder, chain);
    }
    if aconv(part, right) {
        return law_at(recorder, &laws.commuted, left, right, right);
    }
    if is_part(part, right) {
        let inner = pulled(recorder, laws, part, right)?;
        return carried(recorder, &laws.exchanged, left, &inner);
    }
    let inner = pulled(recorder, laws, part, left)?;
    turned(recorder, laws, left, right, &inner)
}
