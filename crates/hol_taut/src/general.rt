// Formulas by splits over the chains of `<=>` that stand in them.
ghost use Rattle.hol_journal.specs.Growth.{Continues};
ghost use Rattle.hol_taut_laws.specs.HasLaws.{HasLaws};

use crate::splits::by_splits;
use hol_journal::{Rec, Recorder};
use hol_model::Fault;
use hol_taut_chains::{instance, without_chains};
use hol_taut_laws::Laws;
use hol_terms::Term;

// A formula by splits, and its instance at the chains.
#[tactic(auto, using(hol_equal::proofs::StepLemmas::now_made, hol_taut_chains::proofs::ChainLemmas::continued_twice))]
fn by_instance(
    recorder: &mut Recorder,
    laws: &Laws,
    general: &Term,
    chains: &[(Term, Term)],
) -> Result<Rec, Fault>
    requires laws { HasLaws recorder.old laws.now }
    ensures continues { Continues recorder.old recorder.new result }
{
    let made = by_splits(recorder, laws, general)?;
    if chains.is_empty() {
        return Ok(made);
    }
    instance(recorder, chains, &made)
}

/// A formula by splits over its atoms and its chains, where it holds for whatever stands in their places.
pub(crate) fn generally(recorder: &mut Recorder, laws: &Laws, term: &Term) -> Result<Rec, Fault>
    requires laws { HasLaws recorder.old laws.now }
    ensures continues { Continues recorder.old recorder.new result }
{
    let alloc = recorder.alloc();
    let mut chains = Vec::new(alloc);
    match without_chains(alloc, term, &mut chains) {
        Ok(general) => by_instance(recorder, laws, &general, &chains),
        Err(fault) => Err(fault),
    }
}

/// A formula by splits over its atoms and its chains, or where it does not hold for whatever stands in their places, over its atoms
/// alone.
#[tactic(auto, using(hol_taut_chains::proofs::ChainLemmas::continued_twice, crate::proofs::LawLemmas::still_lawful))]
pub(crate) fn by_chains(recorder: &mut Recorder, laws: &Laws, term: &Term) -> Result<Rec, Fault>
    requires laws { HasLaws recorder.old laws.now }
    ensures continues { Continues recorder.old recorder.new result }
{
    match generally(recorder, laws, term) {
        Ok(made) => Ok(made),
        Err(Fault::Memory) => Err(Fault::Memory),
        Err(_) => by_splits(recorder, laws, term),
    }
}
