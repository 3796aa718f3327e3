// A formula or its falsity, from the facts of its atoms.
ghost use Rattle.std.specs.Prelude.{◌≡◌, Some};
ghost use Rattle.hol_equal.specs.Formulas.{IsFormula};
ghost use Rattle.hol_journal.specs.Growth.{Continues};
ghost use Rattle.hol_taut_laws.specs.HasLaws.{HasLaws};
ghost use Rattle.hol_model.specs.Propositional.Propositions.{proposition};
ghost use Rattle.hol_taut.specs.FactLists.{value_of, known_by, AreHeld, AreConcluded};
ghost use Rattle.hol_taut.specs.Shown.{ShowsFact};

use crate::facts::Facts;
use crate::known::known_value;
use crate::leaves::{constantly, from_fact};
use crate::taken::{
    by_first, denial, first_side, first_value, law_of, second_side, second_value, takes_second,
    with_second,
};
use crate::way::way_to;
use hol_journal::{Rec, Recorder};
use hol_model::Fault;
use hol_taut_formulas::{Form, form_of};
use hol_taut_laws::Laws;
use hol_terms::Term;

/// A formula that the facts make true, or its equation with `F`, where they make it false.
#[tactic(none)]
pub(crate) fn shown(
    recorder: &mut Recorder,
    laws: &Laws,
    term: &Term,
    value: bool,
    facts: &Facts<'_>,
) -> Result<Rec, Fault>
    requires laws { HasLaws recorder.old laws.now }
    requires formula { IsFormula recorder.old.theory term.now }
    requires known { known_by (value_of facts.now) (proposition term.now) ≡ Some value }
    requires held { AreHeld recorder.old facts.now }
    requires concluded { AreConcluded facts.now }
    ensures continues { Continues recorder.old recorder.new result }
    ensures shows { ShowsFact facts.now term.now value result }
{
    match form_of(term) {
        Form::Atom => from_fact(recorder, term, &*facts),
        Form::Constantly(_) => constantly(recorder, laws, value),
        Form::Negated(part) => {
            let opposite = shown(recorder, laws, part, !value, &*facts)?;
            denial(recorder, laws, part, value, &opposite)
        }
        Form::Connected(connective, left, right) => {
            let left_value = known_value(left, &*facts);
            let right_value = known_value(right, &*facts);
            let way = way_to(connective, value, left_value, right_value);
            let side = first_side(way, left, right);
            let premise = shown(recorder, laws, side, first_value(way), &*facts)?;
            let first = by_first(recorder, laws, law_of(way), left, right, premise)?;
            if !takes_second(way) {
                return Ok(first);
            }
            let other = second_side(way, left, right);
            let second = shown(recorder, laws, other, second_value(way), &*facts)?;
            with_second(recorder, way, &first, &second)
        }
    }
}
