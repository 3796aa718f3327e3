// What follows where a formula gives `F`.
ghost use Rattle.std.specs.Prelude.{List, ◌∷◌, false};
ghost use Rattle.hol_model.specs.Terms.Nameless.{Nameless, image};
ghost use Rattle.hol_model.specs.Logic.Logic as nameless;
ghost use Rattle.hol_equal.specs.Formulas.{IsFormula};
ghost use Rattle.hol_equal.specs.Room.{Room, FitsIf};
ghost use Rattle.hol_journal.specs.Growth.{Continues, IsHeld};
ghost use Rattle.hol_taut_laws.specs.HasLaws.{HasLaws};
ghost use Rattle.hol_model.specs.Propositional.Connectives.{fact};
ghost use Rattle.hol_taut.specs.Proved.{Proves, ProvesIf};
ghost use Rattle.hol_taut.specs.Steps.{FalsityDenies};

use crate::steps::{by_both, by_one};
use hol_bool::falsity;
use hol_equal::assume_known;
use hol_journal::{Rec, Recorder};
use hol_model::Fault;
use hol_taut_laws::{Law, Laws};
use hol_terms::Term;

// A formula, from `F` as a hypothesis.
fn from_falsity(recorder: &mut Recorder, laws: &Laws, p: &Term) -> Result<Rec, Fault>
    requires laws { HasLaws recorder.old laws.now }
    requires formula { IsFormula recorder.old.theory p.now }
    ensures continues { Continues recorder.old recorder.new result }
    ensures proves { (allowed : List Nameless) (room : Room) → FitsIf room (image p.now) → ProvesIf room result (nameless.false_term ∷ allowed) (image p.now) }
{
    let alloc = recorder.alloc();
    recorder.theory_is_legal();
    let falsity = falsity(alloc)?;
    let assumed = assume_known(recorder, &falsity)?;
    by_one(recorder, laws, Law::Contr, p, p, &assumed)
}

/// From what gives `F`, `p <=> F` without the hypothesis `p`.
#[tactic(none)]
pub(crate) fn denied_by(
    recorder: &mut Recorder,
    laws: &Laws,
    p: &Term,
    absurd: &Rec,
) -> Result<Rec, Fault>
    requires laws { HasLaws recorder.old laws.now }
    requires formula { IsFormula recorder.old.theory p.now }
    requires absurd { IsHeld recorder.old absurd.now }
    ensures continues { Continues recorder.old recorder.new result }
    ensures proves { FalsityDenies (image p.now) absurd.now.theorem result }
{
    let given = from_falsity(recorder, laws, p)?;
    by_both(recorder, &given, absurd)
}
