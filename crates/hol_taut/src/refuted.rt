// `F` from the denial of a tautology.
ghost use Rattle.std.specs.Prelude.{◌≡◌, List, false, unwrap_or};
ghost use Rattle.hol_model.specs.Terms.Nameless.{Nameless, image};
ghost use Rattle.hol_model.specs.Logic.Logic as nameless;
ghost use Rattle.hol_equal.specs.Formulas.{IsFormula};
ghost use Rattle.hol_equal.specs.Room.{Room};
ghost use Rattle.hol_journal.specs.Growth.{Continues, IsHeld};
ghost use Rattle.hol_taut_laws.specs.HasLaws.{HasLaws};
ghost use Rattle.hol_model.specs.Propositional.Connectives.{fact};
ghost use Rattle.hol_taut.specs.FactLists.{value_of, known_by, AreHeld, AreProved};
ghost use Rattle.hol_model.specs.Propositional.Propositions.{proposition};
ghost use Rattle.hol_taut.specs.Proved.{Proves, ProvesIf};
ghost use Rattle.hol_taut.specs.Refuted.{IsAlwaysTrue, AreTold, AreAllFormulas, AreGiven};
ghost use Rattle.hol_taut.specs.Ways.{IsSmallIf};
ghost use Rattle.hol_taut.specs.Steps.{DenialRefutes};

use crate::denial::denied_by;
use crate::facts::Facts;
use crate::known::known_value;
use crate::next::next_atom;
use crate::shown::shown;
use crate::steps::by_equation;
use hol_equal::assume_known;
use hol_journal::{Rec, Recorder};
use hol_model::Fault;
use hol_taut_laws::Laws;
use hol_terms::Term;

// Whether the facts tell that the formula is true.
fn is_told_true(term: &Term, facts: &Facts<'_>) -> bool
    ensures { result ≡ unwrap_or (known_by (value_of facts.now) (proposition term.now)) false }
{
    match known_value(term, &*facts) {
        Some(value) => value,
        None => false,
    }
}

/// `F`, from the denial of a tautology and the facts of some of its atoms: of the others the one is split next whose
/// values tell the most.
#[tactic(none)]
pub(crate) fn refuted(
    recorder: &mut Recorder,
    laws: &Laws,
    term: &Term,
    denied: &Rec,
    atoms: &[Term],
    facts: &Facts<'_>,
) -> Result<Rec, Fault>
    requires laws { HasLaws recorder.old laws.now }
    requires formula { IsFormula recorder.old.theory term.now }
    requires always { IsAlwaysTrue (proposition term.now) }
    requires denied { IsHeld recorder.old denied.now }
    requires atoms { AreAllFormulas recorder.old.theory atoms.now }
    requires told { AreTold facts.now atoms.now (proposition term.now) }
    requires held { AreHeld recorder.old facts.now }
    requires given { AreGiven term.now denied.now.theorem facts.now }
    ensures continues { Continues recorder.old recorder.new result }
    ensures proves { DenialRefutes term.now denied.now.theorem atoms.now facts.now result }
{
    if is_told_true(term, &*facts) {
        let holds = shown(recorder, laws, term, true, &*facts)?;
        return by_equation(recorder, denied, &holds);
    }
    let Some(atom) = next_atom(term, atoms, denied, &*facts) else {
        unreachable!();
    };
    let assumed = assume_known(recorder, atom)?;
    let with_true = Facts::Fact(atom, true, &assumed, &*facts);
    let absurd = refuted(recorder, laws, term, denied, atoms, &with_true)?;
    let fact = denied_by(recorder, laws, atom, &absurd)?;
    let with_false = Facts::Fact(atom, false, &fact, &*facts);
    refuted(recorder, laws, term, denied, atoms, &with_false)
}
