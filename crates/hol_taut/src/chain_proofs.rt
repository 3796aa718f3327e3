// Tautologies in which long chains of `<=>` stand.
ghost use Rattle.std.specs.Prelude.{IfOk, IfSome, []};
ghost use Rattle.hol_model.specs.Terms.Nameless.{image};
ghost use Rattle.hol_journal.specs.Journal.{Journal, IsMade};
ghost use Rattle.hol_equal.specs.Room.{Room};
ghost use Rattle.hol_journal.specs.Growth.{Continues, IsHeld};
ghost use Rattle.hol_taut_laws.specs.HasLaws.{HasLaws};
ghost use Rattle.hol_taut_chains.specs.Chains.{HasChainLaws};
ghost use Rattle.hol_taut.specs.Proved.{ProvesIf};

use crate::general::{by_chains, generally};
use crate::leaves::constantly;
use crate::splits::by_splits;
use hol_alpha::aconv;
use hol_equal::{conclusion_of, eq_mp, sym};
use hol_journal::{Rec, Recorder};
use hol_model::Fault;
use hol_taut_chains::{
    ChainLaws, NegationLaws, commuted, exchanged, has_negated_part, negated_left, negated_right,
    negated_twice, normal_form, paired, sides_of, without_negations,
};
use hol_taut_formulas::{Form, form_of};
use hol_taut_laws::{Law, Laws, law_theorem};
use hol_terms::Term;

/// What the search for a theorem answers, where that is one of this formula without hypotheses, or a refusal for memory.
pub(crate) fn judged(
    recorder: &Recorder,
    tried: Result<Rec, Fault>,
    term: &Term,
) -> Option<Result<Rec, Fault>>
    ensures held { (journal : Journal) → IfOk tried (IsHeld journal) → IfSome result (λ answer. IfOk answer (IsHeld journal)) }
    ensures proves { (room : Room) → IfSome result (λ answer. ProvesIf room answer [] (image term.now)) }
{
    match tried {
        Ok(made) => {
            let theorem = recorder.thm(&made);
            if !theorem.hyps().is_empty() {
                return None;
            }
            if !aconv(theorem.concl(), term) {
                return None;
            }
            Some(Ok(made))
        }
        Err(Fault::Memory) => Some(Err(Fault::Memory)),
        Err(_) => None,
    }
}

// What is left of a formula whose chains are in normal form, which is true with it.
fn rest(recorder: &mut Recorder, laws: &Laws, shortest: &Rec) -> Result<Rec, Fault>
    requires laws { HasLaws recorder.old laws.now }
    requires shortest { IsMade recorder.old shortest.now }
    ensures continues { Continues recorder.old recorder.new result }
{
    let Some((_, rest)) = sides_of(conclusion_of(recorder, shortest)) else {
        return Err(Fault::BadShape);
    };
    match form_of(rest) {
        Form::Constantly(true) => constantly(recorder, laws, true),
        _ => by_chains(recorder, laws, rest),
    }
}

// From `p <=> q` and `q`, which was made, `p`.
#[tactic(auto, using(crate::proofs::LawLemmas::in_a_row))]
fn from_equal(
    recorder: &mut Recorder,
    equation: &Rec,
    made: Result<Rec, Fault>,
) -> Result<Rec, Fault>
    requires equation { IsMade recorder.old equation.now }
    requires made { IfOk made (IsHeld recorder.old) }
    ensures continues { Continues recorder.old recorder.new result }
{
    let made = made?;
    let back = sym(recorder, equation)?;
    eq_mp(recorder, &back, &made)
}

// The formula, from its equivalence with what is left of it.
#[tactic(auto, using(crate::proofs::LawLemmas::in_a_row))]
fn from_rest(recorder: &mut Recorder, laws: &Laws, shortest: &Rec) -> Result<Rec, Fault>
    requires laws { HasLaws recorder.old laws.now }
    requires shortest { IsMade recorder.old shortest.now }
    ensures continues { Continues recorder.old recorder.new result }
{
    let rest = rest(recorder, laws, shortest);
    from_equal(recorder, shortest, rest)
}

// A formula, by these laws.
#[tactic(auto, using(crate::proofs::LawLemmas::in_a_row))]
fn by_chain_laws(
    recorder: &mut Recorder,
    laws: &Laws,
    chain_laws: &ChainLaws,
    term: &Term,
) -> Result<Rec, Fault>
    requires laws { HasLaws recorder.old laws.now }
    requires chain_laws { HasChainLaws recorder.old chain_laws.now }
    ensures continues { Continues recorder.old recorder.new result }
{
    let shortest = normal_form(recorder, chain_laws, term, term)?;
    from_rest(recorder, laws, &shortest)
}

// A law of chains.
fn chain_law(recorder: &mut Recorder, laws: &Laws, law: Result<Term, Fault>) -> Result<Rec, Fault>
    requires { HasLaws recorder.old laws.now }
    ensures continues { Continues recorder.old recorder.new result }
{
    match law {
        Ok(law) => by_splits(recorder, laws, &law),
        Err(fault) => Err(fault),
    }
}

// A formula, from what is left of it where the chains that stand in it are in normal form. Each part of a chain takes
// inferences by the depth of its place, so that n parts take about the square of n, and the laws of chains some four hundred
// once.
fn by_normal_form(recorder: &mut Recorder, laws: &Laws, term: &Term) -> Result<Rec, Fault>
    requires laws { HasLaws recorder.old laws.now }
    ensures continues { Continues recorder.old recorder.new result }
{
    let alloc = recorder.alloc();
    let commuted = chain_law(recorder, laws, commuted(alloc))?;
    let exchanged = chain_law(recorder, laws, exchanged(alloc))?;
    let paired = chain_law(recorder, laws, paired(alloc))?;
    let truth = law_theorem(recorder, laws, Law::Truth).copy(alloc)?;
    let chain_laws = ChainLaws {
        truth,
        commuted,
        exchanged,
        paired,
    };
    by_chain_laws(recorder, laws, &chain_laws, term)
}

// The laws by which negations are taken out of chains.
#[tactic(auto, using(crate::proofs::LawLemmas::in_a_row))]
fn without_negated(recorder: &mut Recorder, laws: &Laws, term: &Term) -> Result<Rec, Fault>
    requires laws { HasLaws recorder.old laws.now }
    ensures continues { Continues recorder.old recorder.new result }
{
    let alloc = recorder.alloc();
    let left = chain_law(recorder, laws, negated_left(alloc))?;
    let right = chain_law(recorder, laws, negated_right(alloc))?;
    let twice = chain_law(recorder, laws, negated_twice(alloc))?;
    without_negations(recorder, &NegationLaws { left, right, twice }, term)
}

// From `formula <=> rest`, the formula, by the rest's normal form.
#[tactic(auto, using(crate::proofs::LawLemmas::in_a_row))]
fn from_positive(recorder: &mut Recorder, laws: &Laws, positive: &Rec) -> Result<Rec, Fault>
    requires laws { HasLaws recorder.old laws.now }
    requires positive { IsMade recorder.old positive.now }
    ensures continues { Continues recorder.old recorder.new result }
{
    let Some((_, rest)) = sides_of(conclusion_of(recorder, positive)) else {
        return Err(Fault::BadShape);
    };
    let made = by_normal_form(recorder, laws, rest);
    from_equal(recorder, positive, made)
}

// A formula, from what it is equal to without negated parts of chains.
#[tactic(auto, using(hol_equal::proofs::StepLemmas::now_made, hol_taut_chains::proofs::ChainLemmas::continued_twice, crate::proofs::LawLemmas::still_lawful))]
fn by_positive(recorder: &mut Recorder, laws: &Laws, term: &Term) -> Result<Rec, Fault>
    requires laws { HasLaws recorder.old laws.now }
    ensures continues { Continues recorder.old recorder.new result }
{
    let positive = without_negated(recorder, laws, term)?;
    from_positive(recorder, laws, &positive)
}

/// A formula with long chains: by splits over its chains and its atoms, or else by normal forms. A search whose answer is to be
/// judged.
#[tactic(auto, using(hol_taut_chains::proofs::ChainLemmas::continued_twice, crate::proofs::LawLemmas::still_lawful))]
pub(crate) fn shortened(recorder: &mut Recorder, laws: &Laws, term: &Term) -> Result<Rec, Fault>
    requires laws { HasLaws recorder.old laws.now }
    ensures continues { Continues recorder.old recorder.new result }
{
    match generally(recorder, laws, term) {
        Ok(made) => Ok(made),
        Err(Fault::Memory) => Err(Fault::Memory),
        Err(_) => {
            if has_negated_part(term) {
                by_positive(recorder, laws, term)
            } else {
                by_normal_form(recorder, laws, term)
            }
        }
    }
}
