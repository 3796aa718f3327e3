// Tautologies by splits over their atoms.
ghost use Rattle.std.specs.Prelude.{[]};
ghost use Rattle.hol_model.specs.Terms.Nameless.{image};
ghost use Rattle.hol_equal.specs.Room.{Room};
ghost use Rattle.hol_journal.specs.Growth.{Continues};
ghost use Rattle.hol_taut_laws.specs.HasLaws.{HasLaws};
ghost use Rattle.hol_taut.specs.Denials.{IsDenied};
ghost use Rattle.hol_taut.specs.Proved.{ProvesIf};
ghost use Rattle.hol_taut.specs.Ways.{IsSmallIf};

use crate::denial::denied_by;
use crate::denied::{Denied, deny};
use crate::facts::Facts;
use crate::planned::by_planned_steps;
use crate::refuted::refuted;
use crate::steps::by_one;
use hol_equal::assume_known;
use hol_journal::{Rec, Recorder};
use hol_model::Fault;
use hol_taut_laws::{Law, Laws};
use hol_terms::Term;

/// A tautology by splits, from its denial, which is handed in.
#[tactic(none)]
pub(crate) fn split(
    recorder: &mut Recorder,
    laws: &Laws,
    term: &Term,
    denied: &Denied,
) -> Result<Rec, Fault>
    requires laws { HasLaws recorder.old laws.now }
    requires denied { IsDenied recorder.old.theory term.now denied.now }
    ensures continues { Continues recorder.old recorder.new result }
    ensures proves { (room : Room) → IsSmallIf room (image term.now) → ProvesIf room result [] (image term.now) }
{
    let assumed = assume_known(recorder, &denied.denial)?;
    let absurd = refuted(
        recorder,
        laws,
        term,
        &assumed,
        &denied.atoms,
        &Facts::Nothing,
    )?;
    let denied_denial = denied_by(recorder, laws, &denied.denial, &absurd)?;
    by_one(
        recorder,
        laws,
        Law::NotFalseElim,
        term,
        term,
        &denied_denial,
    )
}

// A formula by splits, where it is a tautology.
#[tactic(none)]
fn by_own_splits(recorder: &mut Recorder, laws: &Laws, term: &Term) -> Result<Rec, Fault>
    requires laws { HasLaws recorder.old laws.now }
    ensures continues { Continues recorder.old recorder.new result }
{
    let denied = deny(recorder, laws, term)?;
    split(recorder, laws, term, &denied)
}

/// A formula by a plan, or else by splits, where it is a tautology: what a longer proof takes on its way.
#[tactic(auto, using(hol_taut_chains::proofs::ChainLemmas::continued_twice, crate::proofs::LawLemmas::still_lawful))]
pub(crate) fn by_splits(recorder: &mut Recorder, laws: &Laws, term: &Term) -> Result<Rec, Fault>
    requires laws { HasLaws recorder.old laws.now }
    ensures continues { Continues recorder.old recorder.new result }
{
    match by_planned_steps(recorder, laws, term) {
        Ok(made) => Ok(made),
        Err(Fault::Memory) => Err(Fault::Memory),
        Err(_) => by_own_splits(recorder, laws, term),
    }
}
