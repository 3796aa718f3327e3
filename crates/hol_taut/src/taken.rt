// The steps of a way, and of a negation.
ghost use Rattle.std.specs.Prelude.{◌≡◌, List, true, not, IfOk};
ghost use Rattle.hol_model.specs.Terms.Nameless.{Nameless, image};
ghost use Rattle.hol_model.specs.Logic.NamedLogic.{negation};
ghost use Rattle.hol_equal.specs.Formulas.{IsFormula};
ghost use Rattle.hol_equal.specs.Room.{Room};
ghost use Rattle.hol_journal.specs.Growth.{Continues, IsHeld};
ghost use Rattle.hol_taut_laws.specs.HasLaws.{HasLaws};
ghost use Rattle.hol_model.specs.Propositional.Connectives.{fact};
ghost use Rattle.hol_taut.specs.Ways.{IsSmallIf};
ghost use Rattle.hol_taut.specs.Proved.{Proves, ProvesIf};
ghost use Rattle.hol_taut.specs.Shown as spec;
ghost use Rattle.hol_taut.specs.Shown.{LeadsOn, IsJoined};
ghost use Rattle.hol_taut.specs.Steps.{FirstProves, SecondProves, NegationProves};

use crate::steps::{by_both, by_chain, by_equation, by_one};
use crate::way::Way;
use hol_journal::{Rec, Recorder};
use hol_model::Fault;
use hol_taut_laws::{Law, Laws};
use hol_terms::Term;

/// The side that a way goes from.
pub(crate) fn first_side<'a>(way: Way, left: &'a Term, right: &'a Term) -> &'a Term
    ensures { result.now ≡ spec.first_side way left.now right.now }
{
    match way {
        Way::Right(_, _) => right,
        Way::ChainFromRight(_) => right,
        _ => left,
    }
}

/// Its value.
pub(crate) fn first_value(way: Way) -> bool
    ensures { result ≡ spec.first_value way }
{
    match way {
        Way::Left(_, of) => of,
        Way::Right(_, of) => of,
        Way::Equation(_, of, _) => of,
        Way::Chain(_, of) => of,
        Way::ChainFromRight(_) => true,
        Way::Same => true,
    }
}

/// Its law, where it takes one.
pub(crate) fn law_of(way: Way) -> Option<Law>
    ensures { result ≡ spec.law_of way }
{
    match way {
        Way::Left(law, _) => Some(law),
        Way::Right(law, _) => Some(law),
        Way::Equation(law, _, _) => Some(law),
        Way::Chain(law, _) => Some(law),
        Way::ChainFromRight(law) => Some(law),
        Way::Same => None,
    }
}

/// Whether it takes the other side as well.
pub(crate) fn takes_second(way: Way) -> bool
    ensures { result ≡ spec.takes_second way }
{
    match way {
        Way::Left(_, _) => false,
        Way::Right(_, _) => false,
        _ => true,
    }
}

/// The other side.
pub(crate) fn second_side<'a>(way: Way, left: &'a Term, right: &'a Term) -> &'a Term
    ensures { result.now ≡ spec.second_side way left.now right.now }
{
    match way {
        Way::Right(_, _) => left,
        Way::ChainFromRight(_) => left,
        _ => right,
    }
}

/// Its value.
pub(crate) fn second_value(way: Way) -> bool
    ensures { result ≡ spec.second_value way }
{
    match way {
        Way::Equation(_, _, other) => other,
        Way::Chain(_, _) => false,
        Way::ChainFromRight(_) => false,
        _ => true,
    }
}

/// What the law of a way gives from the fact of its first side, which the premise says.
pub(crate) fn by_first(
    recorder: &mut Recorder,
    laws: &Laws,
    law: Option<Law>,
    left: &Term,
    right: &Term,
    premise: Rec,
) -> Result<Rec, Fault>
    requires laws { HasLaws recorder.old laws.now }
    requires premise { IsHeld recorder.old premise }
    requires leads { LeadsOn recorder.old.theory law left.now right.now (image premise.theorem.conclusion) }
    ensures continues { Continues recorder.old recorder.new result }
    ensures proves { FirstProves recorder.old.theory law left.now right.now premise.theorem result }
{
    match law {
        Some(law) => by_one(recorder, laws, law, left, right, &premise),
        None => Ok(premise),
    }
}

/// What the fact of a way's second side makes of what its law gave. The two fit, and are not compared.
pub(crate) fn with_second(
    recorder: &mut Recorder,
    way: Way,
    first: &Rec,
    second: &Rec,
) -> Result<Rec, Fault>
    requires takes { spec.takes_second way ≡ true }
    requires first { IsHeld recorder.old first.now }
    requires second { IsHeld recorder.old second.now }
    requires joins { IsJoined way (image first.now.theorem.conclusion) (image second.now.theorem.conclusion) }
    ensures continues { Continues recorder.old recorder.new result }
    ensures proves { SecondProves way first.now.theorem second.now.theorem result }
{
    match way {
        Way::Equation(_, _, _) => by_equation(recorder, first, second),
        Way::Chain(_, _) => by_chain(recorder, first, second),
        Way::ChainFromRight(_) => by_chain(recorder, first, second),
        Way::Same => by_both(recorder, first, second),
        _ => unreachable!(),
    }
}

/// The fact of a negation from that of its part, which the premise says.
pub(crate) fn denial(
    recorder: &mut Recorder,
    laws: &Laws,
    part: &Term,
    value: bool,
    premise: &Rec,
) -> Result<Rec, Fault>
    requires laws { HasLaws recorder.old laws.now }
    requires formula { IsFormula recorder.old.theory part.now }
    requires premise { IsHeld recorder.old premise.now }
    requires said { image premise.now.theorem.conclusion ≡ fact (not value) (image part.now) }
    ensures continues { Continues recorder.old recorder.new result }
    ensures proves { NegationProves part.now value premise.now.theorem result }
{
    let law = if value { Law::NotFalse } else { Law::NotTrue };
    by_one(recorder, laws, law, part, part, premise)
}
