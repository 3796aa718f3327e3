// A search for the theorem of a tautology, which is judged when it is made.
ghost use Rattle.hol_journal.specs.Growth.{Continues};
ghost use Rattle.hol_taut_laws.specs.HasLaws.{HasLaws};

use crate::chain_proofs::shortened;
use crate::planned::by_planned_steps;
use crate::splits::by_splits;
use hol_journal::{Rec, Recorder};
use hol_model::Fault;
use hol_taut_chains::{has_long_chain, instance, without_shared};
use hol_taut_formulas::atoms_of_tautology;
use hol_taut_laws::Laws;
use hol_terms::Term;

// A formula by chains that are shortened, where long ones stand in it, and else by splits.
fn by_chains_or_splits(recorder: &mut Recorder, laws: &Laws, term: &Term) -> Result<Rec, Fault>
    requires laws { HasLaws recorder.old laws.now }
    ensures continues { Continues recorder.old recorder.new result }
{
    if has_long_chain(term) {
        shortened(recorder, laws, term)
    } else {
        by_splits(recorder, laws, term)
    }
}

// The instance, at some parts, of a formula with variables for them, where that is a tautology.
#[tactic(auto, using(hol_equal::proofs::StepLemmas::now_made, hol_taut_chains::proofs::ChainLemmas::continued_twice))]
fn by_general(
    recorder: &mut Recorder,
    laws: &Laws,
    general: &Term,
    parts: &[(Term, Term)],
) -> Result<Rec, Fault>
    requires laws { HasLaws recorder.old laws.now }
    ensures continues { Continues recorder.old recorder.new result }
{
    let alloc = recorder.alloc();
    if let Err(fault) = atoms_of_tautology(alloc, general) {
        return Err(fault);
    }
    let made = by_chains_or_splits(recorder, laws, general)?;
    instance(recorder, parts, &made)
}

// A formula, where it holds for whatever stands in the places of its parts that stand there several times.
fn by_shared(recorder: &mut Recorder, laws: &Laws, term: &Term) -> Result<Rec, Fault>
    requires laws { HasLaws recorder.old laws.now }
    ensures continues { Continues recorder.old recorder.new result }
{
    let alloc = recorder.alloc();
    let mut parts = Vec::new(alloc);
    let general = without_shared(alloc, term, &mut parts)?;
    if parts.is_empty() {
        return Err(Fault::BadShape);
    }
    by_general(recorder, laws, &general, &parts)
}

/// A tautology by its parts that stand in it several times, or else by its long chains of `<=>`, or where it has none, by a plan. A
/// search whose answer is to be judged.
#[tactic(auto, using(hol_taut_chains::proofs::ChainLemmas::continued_twice, crate::proofs::LawLemmas::still_lawful))]
pub(crate) fn searched(recorder: &mut Recorder, laws: &Laws, term: &Term) -> Result<Rec, Fault>
    requires laws { HasLaws recorder.old laws.now }
    ensures continues { Continues recorder.old recorder.new result }
{
    match by_shared(recorder, laws, term) {
        Ok(made) => Ok(made),
        Err(Fault::Memory) => Err(Fault::Memory),
        Err(_) => {
            if has_long_chain(term) {
                shortened(recorder, laws, term)
            } else {
                by_planned_steps(recorder, laws, term)
            }
        }
    }
}
