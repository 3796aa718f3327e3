// From a denied formula, that it is false.
ghost use Rattle.std.specs.Prelude.{◌≡◌, Some, IfOk, IfErr};
ghost use Rattle.hol_model.specs.Terms.NamedTerm.{equation};
ghost use Rattle.hol_model.specs.Logic.NamedLogic.{false_term, dest_negation};
ghost use Rattle.hol_journal.specs.Journal.{IsMade};
ghost use Rattle.hol_prelude.specs.HasLogic.{HasLogic};
ghost use Rattle.hol_journal.specs.Growth.{Continues};
ghost use Rattle.hol_equal.specs.Sequents.{IsPast};
ghost use Rattle.hol_rewrite.specs.Rules.{Concludes, are_small};

use hol_bool::{contr_known, not_elim, undisch};
use hol_equal::steps::deduct_antisym;
use hol_equal::{assume_known, conclusion_of, cut_known};
use hol_journal::{Rec, Recorder};
use hol_model::Fault;
use hol_prelude::Bool;
use hol_terms::Term;

// From `~p`, `p <=> F`, by `p, ~p |- F` and `F |- p`. The theory knows each formula, which is not walked for it, and
// `~p |- p <=> F` has no hypothesis but the premise, which is not compared for it.
pub(crate) fn denied(
    recorder: &mut Recorder,
    logic: &Bool,
    part: &Term,
    premise: &Rec,
) -> Result<Rec, Fault>
    requires logic { HasLogic recorder.old logic.now }
    requires premise { IsMade recorder.old premise.now }
    requires part { dest_negation premise.now.theorem.conclusion ≡ Some part.now }
    ensures continues { Continues recorder.old recorder.new result }
    ensures ok { IfOk result (λ made. Concludes premise.now.theorem (equation part.now false_term) made.theorem) }
    ensures err { IfErr result (λ fault. IsPast fault (are_small premise.now.theorem)) }
{
    let denial = conclusion_of(recorder, premise);
    let assumed = assume_known(recorder, denial)?;
    let implication = not_elim(recorder, logic, &assumed)?;
    let falsity = undisch(recorder, logic, &implication)?;
    let false_term = conclusion_of(recorder, &falsity);
    let assumed_falsity = assume_known(recorder, false_term)?;
    let part_of_falsity = contr_known(recorder, logic, part, &assumed_falsity)?;
    let equation = deduct_antisym(recorder, &part_of_falsity, &falsity)?;
    cut_known(recorder, premise, &equation)
}
