// The test of a step by two replays over its subgoals.
ghost use Rattle.std.specs.Bool.{Decides};
ghost use Rattle.std.specs.Prelude.{◌≡◌, true, Some, Ok, OnOk, IsTrue};
ghost use Rattle.hol_model.specs.Terms.Nameless.{Nameless, image};
ghost use Rattle.hol_model.specs.Logic.Logic.{false_term};
ghost use Rattle.hol_model.specs.Goals.Achieving.{is_assumed, are_assumed, achieves};
ghost use Rattle.hol_model.specs.Goals.ValidSteps.{AchievesUnder, IsValid};
ghost use Rattle.hol_model.specs.Refining.HostFunctions.{AnswersAccept};
ghost use Rattle.hol_journal.specs.Journal.{IsMade};
ghost use Rattle.hol_journal.specs.Growth.{IsGrown};
ghost use Rattle.hol_prelude.specs.HasLogic.{HasLogic};
ghost use Rattle.hol_equal.specs.Inferred.{IsDrawn};
ghost use Rattle.hol_just.specs.Steps.{goal_of, step_of};
ghost use Rattle.hol_theorem_store.specs.Stored.{IsStoreOf, theorems_in};
ghost use Rattle.hol_theorem_store.specs.Store.{stored_of};
ghost use Rattle.hol_just_replay.specs.Named.{named_sequents, sequent_of_recorded};
ghost use Rattle.hol_just_replay.specs.Accepting.{are_known_goals, falsity_from, goal_under, UnderFormula, AnswersUnder};

use crate::achieving::is_among;
use crate::replays::replay;
use crate::supposing::{falsity_once, falsity_twice, suppose_all};
use hol_alpha::aconv;
use hol_journal::{Rec, Recorder};
use hol_just::{Goal, Step};
use hol_laws_steps::replays_show_valid;
use hol_model::Fault;
use hol_prelude::{Bool, logic_stays};
use hol_terms::Term;
use hol_theorem_store::Store;

// Whether the term is one of these or the goal assumes it, up to the names of bound variables.
#[tactic(auto, using(crate::proofs::AcceptingLemmas::testing))]
fn is_supposed(term: &Term, extra: &[Term], goal: &Goal) -> bool
    ensures { result ≡ is_assumed term.now (goal_under extra.now (goal_of goal.now)) }
{
    if is_among(term, extra) {
        return true;
    }
    is_among(term, &goal.asms)
}

// Whether each term is one of these or the goal assumes it, up to the names of bound variables.
fn are_supposed(terms: &[Term], extra: &[Term], goal: &Goal) -> bool
    ensures { result ≡ are_assumed terms.now (goal_under extra.now (goal_of goal.now)) }
{
    terms.iter().all(|term| is_supposed(term, extra, goal))
}

// Whether the test passes, with the hypotheses of another theorem among the assumptions.
fn passes_under(recorder: &Recorder, theorem: &Rec, falsity: &Rec, goal: &Goal) -> bool
    ensures { result ≡ achieves (goal_under falsity.now.theorem.hypotheses (goal_of goal.now)) theorem.now.theorem }
{
    let falsity = recorder.thm(falsity);
    let theorem = recorder.thm(theorem);
    aconv(theorem.concl(), &goal.concl) && are_supposed(theorem.hyps(), falsity.hyps(), goal)
}

// Whether the theorem achieves the goal under the hypothesis of another theorem.
#[tactic(auto, using(crate::proofs::AcceptingLemmas::testing))]
fn achieves_under(recorder: &Recorder, theorem: &Rec, falsity: &Rec, goal: &Goal) -> bool
    ensures { (extra : Nameless) → IsDrawn (Some (falsity_from extra)) (Ok falsity.now.theorem) → Decides result (AchievesUnder extra (goal_of goal.now) (sequent_of_recorded theorem.now)) }
{
    passes_under(recorder, theorem, falsity, goal)
}

// Whether the step makes the goal, where its subgoals are supposed under the hypothesis of a theorem that says `F`.
#[tactic(auto, using(crate::proofs::AcceptingLemmas::accepting))]
fn replay_passes(
    recorder: &mut Recorder,
    logic: &Bool,
    store: &Store,
    goal: &Goal,
    step: &Step,
    falsity: &Rec,
    are_known: bool,
) -> Result<(), Fault>
    requires logic { HasLogic recorder.old logic.now }
    requires store { IsStoreOf recorder.old (stored_of store.now) }
    requires premise { IsMade recorder.old falsity.now }
    requires concludes { image falsity.now.theorem.conclusion ≡ false_term }
    requires known { IsTrue are_known → are_known_goals recorder.old.theory (step_of step.now).goals ≡ true }
    ensures grown { IsGrown recorder.old recorder.new }
    ensures theory { recorder.new.theory ≡ recorder.old.theory }
    ensures answer { UnderFormula falsity.now.theorem (AnswersUnder recorder.old.theory (named_sequents (stored_of store.now)) (goal_of goal.now) (step_of step.now) result) }
{
    logic_stays();
    let subgoals = suppose_all(recorder, logic, falsity, are_known, &step.goals)?;
    let theorem = replay(recorder, logic, store, &step.just, &subgoals)?;
    if !achieves_under(recorder, &theorem, falsity, goal) {
        return Err(Fault::InvalidStep);
    }
    Ok(())
}

/// The test of a step (HOL Light's `VALID`, tactics.ml, which makes one theorem up for each subgoal): its subgoals are of
/// known formulas, and it makes the goal of them where they are supposed under `F`, and again under `F /\ F`. Such a step is
/// valid. Refused: InvalidStep exactly where it is not so; TooLarge only where a term of a subgoal or of one of the two
/// replays leaves no room; Memory.
#[tactic(auto, using(crate::proofs::AcceptingLemmas::accepting))]
pub fn accept(
    recorder: &mut Recorder,
    logic: &Bool,
    store: &Store,
    goal: &Goal,
    step: &Step,
) -> Result<(), Fault>
    requires logic { HasLogic recorder.old logic.now }
    requires store { IsStoreOf recorder.old (stored_of store.now) }
    ensures grown { IsGrown recorder.old recorder.new }
    ensures theory { recorder.new.theory ≡ recorder.old.theory }
    ensures answer { AnswersAccept recorder.old.theory (theorems_in (stored_of store.now)) (goal_of goal.now) (step_of step.now) result }
    ensures valid { OnOk result (IsValid recorder.old.theory (named_sequents (stored_of store.now)) (goal_of goal.now) (step_of step.now)) }
{
    logic_stays();
    replays_show_valid();
    let once = falsity_once(recorder, logic)?;
    replay_passes(recorder, logic, store, goal, step, &once, false)?;
    let twice = falsity_twice(recorder, logic)?;
    replay_passes(recorder, logic, store, goal, step, &twice, true)?;
    Ok(())
}
