// Proofs of tautologies.
ghost use Rattle.std.specs.Prelude.{[]};
ghost use Rattle.hol_model.specs.Terms.Nameless.{image};
ghost use Rattle.hol_model.specs.Propositional.Tautologies.{tautology_outcome};
ghost use Rattle.hol_journal.specs.Journal.{theorem_in};
ghost use Rattle.hol_equal.specs.Room.{Room};
ghost use Rattle.hol_journal.specs.Growth.{Continues};
ghost use Rattle.hol_taut_laws.specs.HasLaws.{HasLaws};
ghost use Rattle.hol_taut.specs.Answers.{AnswersSmall};
ghost use Rattle.hol_taut.specs.Denials.{IsDenied};
ghost use Rattle.hol_taut.specs.Proved.{ProvesIf};
ghost use Rattle.hol_taut.specs.Ways.{IsSmallIf};

use crate::chain_proofs::judged;
use crate::denied::{Denied, deny};
use crate::search::searched;
use crate::splits::split;
use hol_equal::named_same;
use hol_journal::{Rec, Recorder};
use hol_model::Fault;
use hol_taut_laws::Laws;
use hol_terms::Term;

// A tautology, from its denial, which is handed in: by the search for its theorem, if that gives it, and else by splits.
fn proved(recorder: &mut Recorder, laws: &Laws, term: &Term, denied: &Denied) -> Result<Rec, Fault>
    requires laws { HasLaws recorder.old laws.now }
    requires denied { IsDenied recorder.old.theory term.now denied.now }
    ensures continues { Continues recorder.old recorder.new result }
    ensures proves { (room : Room) → IsSmallIf room (image term.now) → ProvesIf room result [] (image term.now) }
{
    let tried = searched(recorder, laws, term);
    if let Some(answer) = judged(recorder, tried, term) {
        return answer;
    }
    split(recorder, laws, term, denied)
}

/// TAUT: a formula that is true in each row of values of its atoms. Refused where the term is not of type `bool`, where
/// the theory does not know a type or a constant of it, where it has too many atoms, and where it is false in a row. A part
/// is shown by about three inferences, once for each choice of values of its atoms that tells it, and one that is the same
/// whatever its atoms are by itself; the atom is split next whose values tell the most. It takes at most 39 inferences for
/// Peirce's law, 82 for a conjunction of fourteen atoms that implies its last, 619 for fourteen atoms each of which implies the
/// next, and fewer than there are rows for an adder of four digits. Chains of `<=>` take about the square of their
/// length instead, where one of at least eight parts stands in the formula, or of five that differ: at most 500 for ten atoms
/// against their mirror, 700 against the same backwards, 518 and 718 where `r` implies these, and 610 for ten atoms with another
/// one before the same backwards. A part that stands at several places is taken for an atom, where the formula holds whatever it
/// is.
#[tactic(none)]
pub fn taut(recorder: &mut Recorder, laws: &Laws, term: &Term) -> Result<Rec, Fault>
    requires laws { HasLaws recorder.old laws.now }
    ensures continues { Continues recorder.old recorder.new result }
    ensures outcome { AnswersSmall (theorem_in result) (image term.now) (tautology_outcome recorder.old.theory term.now) }
{
    let denied = deny(recorder, laws, term)?;
    let made = proved(recorder, laws, term, &denied)?;
    named_same(recorder, term, &made)
}
