// Theorems of atoms and of constants.
ghost use Rattle.std.specs.Prelude.{◌≡◌, List, true, IfOk, IfErr};
ghost use Rattle.std.specs.Option.{is_some};
ghost use Rattle.hol_model.specs.declared.fault.Fault.TheVariants.{Memory};
ghost use Rattle.hol_model.specs.Terms.Nameless.{Nameless};
ghost use Rattle.hol_equal.specs.Room.{Room};
ghost use Rattle.hol_journal.specs.Growth.{Continues};
ghost use Rattle.hol_taut_laws.specs.HasLaws.{HasLaws};
ghost use Rattle.hol_taut.specs.FactLists.{value_of, AreHeld, AreProved, IsOfFact};
ghost use Rattle.hol_model.specs.Propositional.Connectives.{constant_fact};
ghost use Rattle.hol_taut.specs.Proved.{ProvesIf};

use crate::facts::{Facts, fact_of};
use crate::steps::by_both;
use hol_bool::falsity;
use hol_equal::{assume_known, conclusion_of, named};
use hol_journal::{Rec, Recorder};
use hol_model::Fault;
use hol_taut_laws::{Law, Laws, law_theorem};
use hol_terms::Term;

/// The theorem of an atom's fact.
pub(crate) fn from_fact(
    recorder: &mut Recorder,
    term: &Term,
    facts: &Facts<'_>,
) -> Result<Rec, Fault>
    requires known { is_some (value_of facts.now term.now) ≡ true }
    requires held { AreHeld recorder.old facts.now }
    ensures continues { Continues recorder.old recorder.new result }
    ensures err { IfErr result (λ fault. fault ≡ Memory) }
    ensures proves { (allowed : List Nameless) → AreProved allowed facts.now → IfOk result (λ made. IsOfFact allowed facts.now term.now made.theorem) }
{
    let alloc = recorder.alloc();
    match fact_of(&*facts, term) {
        Some(known) => known.theorem.copy(alloc),
        None => unreachable!(),
    }
}

/// `T`, or `F <=> F`.
pub(crate) fn constantly(recorder: &mut Recorder, laws: &Laws, value: bool) -> Result<Rec, Fault>
    requires { HasLaws recorder.old laws.now }
    ensures continues { Continues recorder.old recorder.new result }
    ensures proves { (allowed : List Nameless) (room : Room) → ProvesIf room result allowed (constant_fact value) }
{
    let alloc = recorder.alloc();
    if value {
        let truth = law_theorem(recorder, laws, Law::Truth);
        let conclusion = conclusion_of(recorder, truth);
        return named(recorder, conclusion, truth);
    }
    recorder.theory_is_legal();
    let falsity = falsity(alloc)?;
    let assumed = assume_known(recorder, &falsity)?;
    by_both(recorder, &assumed, &assumed)
}
