// Subgoals supposed under one more hypothesis.
ghost use Rattle.std.specs.Prelude.{◌≡◌, [], ◌∷◌, ◌++◌, map, Bool as Truth, true, Some, Ok, Err, IfOk, IfErr, IsTrue, OnOk};
ghost use Rattle.hol_model.specs.declared.fault.Fault.TheVariants.{Memory, TooLarge};
ghost use Rattle.hol_model.specs.Terms.Nameless.{image};
ghost use Rattle.hol_model.specs.Logic.NamedLogic.{false_term as named_false};
ghost use Rattle.hol_model.specs.Logic.Logic.{false_term};
ghost use Rattle.hol_model.specs.Goals.Goals.{Sequent};
ghost use Rattle.hol_model.specs.Derived.Inference.{require};
ghost use Rattle.hol_model.specs.Goals.ValidSteps.{false_twice};
ghost use Rattle.hol_model.specs.Goals.Replays.{terms_of_goals};
ghost use Rattle.hol_model.specs.Derived.DerivedRules.{terms_of_theorem, AnswersStated, add_assum_outcome, contr_outcome};
ghost use Rattle.hol_model.specs.declared.rule.Rule.TheVariants as rules;
ghost use Rattle.hol_just_replay.specs.Room.{IsNotLarge, are_roomy};
ghost use Rattle.hol_journal.specs.Journal.{IsMade, theorem_in};
ghost use Rattle.hol_journal.specs.Growth.{IsGrown, Continues, IsHeld};
ghost use Rattle.hol_prelude_derivations.specs.Derivations.{AreMade};
ghost use Rattle.hol_prelude.specs.HasLogic.{HasLogic};
ghost use Rattle.hol_equal.specs.Formulas.{IsFormula};
ghost use Rattle.hol_equal.specs.Inferred.{IsDrawn, Infers};
ghost use Rattle.hol_just.specs.Steps.{goal_of, goals_of};
ghost use Rattle.hol_just_replay.specs.Accepting.{falsity_from, with_assumptions, supposed_from, are_known_formulas, is_known_goal, are_known_goals, AreSupposed, IsUnsupposed, HasGoalRoom};

use hol_bool::{conj, conjunct1, contr, contr_known};
use hol_equal::{Made, add_assum, add_assum_known, assume, conclusion_of};
use hol_journal::{Rec, Recorder};
use hol_just::Goal;
use hol_model::Fault;
use hol_prelude::{Bool, logic_stays};
use hol_terms::Term;
use hol_types::Ty;
use std::alloc::Global;

// `F`.
fn falsity(alloc: Global) -> Result<Term, Fault>
    ensures ok { IfOk result (λ term. term ≡ named_false) }
    ensures err { IfErr result (λ fault. fault ≡ Memory) }
{
    let boolean = Ty::boolean(alloc)?;
    Term::mk_const(alloc, "F", &boolean)
}

// From `F`, `F`.
#[tactic(auto, using(crate::proofs::SupposingLemmas::supposing))]
pub(crate) fn falsity_once(recorder: &mut Recorder, logic: &Bool) -> Made
    requires logic { HasLogic recorder.old logic.now }
    ensures continues { Continues recorder.old recorder.new result }
    ensures drawn { IsDrawn (Some (falsity_from false_term)) (theorem_in result) }
    ensures fits { IsNotLarge (theorem_in result) }
{
    let alloc = recorder.alloc();
    let _logic = logic;
    recorder.theory_is_legal();
    let term = falsity(alloc)?;
    assume(recorder, &term)
}

// From `F`, `F /\ F`.
#[tactic(auto, using(crate::proofs::SupposingLemmas::supposing))]
fn conjoined(recorder: &mut Recorder, logic: &Bool) -> Made
    requires logic { HasLogic recorder.old logic.now }
    ensures continues { Continues recorder.old recorder.new result }
    ensures drawn { IsDrawn (Some (record { hypotheses = false_term ∷ []; conclusion = false_twice })) (theorem_in result) }
    ensures fits { IsNotLarge (theorem_in result) }
{
    logic_stays();
    let once = falsity_once(recorder, logic)?;
    conj(recorder, logic, &once, &once)
}

// From `F /\ F`, `F /\ F`.
#[tactic(auto, using(crate::proofs::SupposingLemmas::supposing))]
fn conjunction_assumed(recorder: &mut Recorder, logic: &Bool) -> Made
    requires logic { HasLogic recorder.old logic.now }
    ensures continues { Continues recorder.old recorder.new result }
    ensures drawn { IsDrawn (Some (record { hypotheses = false_twice ∷ []; conclusion = false_twice })) (theorem_in result) }
    ensures fits { IsNotLarge (theorem_in result) }
{
    let conjoined = conjoined(recorder, logic)?;
    let term = conclusion_of(recorder, &conjoined);
    assume(recorder, term)
}

// From `F /\ F`, `F`.
#[tactic(auto, using(crate::proofs::SupposingLemmas::supposing))]
pub(crate) fn falsity_twice(recorder: &mut Recorder, logic: &Bool) -> Made
    requires logic { HasLogic recorder.old logic.now }
    ensures continues { Continues recorder.old recorder.new result }
    ensures drawn { IsDrawn (Some (falsity_from false_twice)) (theorem_in result) }
    ensures fits { IsNotLarge (theorem_in result) }
{
    logic_stays();
    let assumed = conjunction_assumed(recorder, logic)?;
    let _conclusion = conclusion_of(recorder, &assumed);
    conjunct1(recorder, logic, &assumed)
}

// CONTR, which walks the formula unless it is known.
fn contr_unless_known(
    recorder: &mut Recorder,
    logic: &Bool,
    is_known: bool,
    p: &Term,
    premise: &Rec,
) -> Made
    requires logic { HasLogic recorder.old logic.now }
    requires premise { IsMade recorder.old premise.now }
    requires known { IsTrue is_known → IsFormula recorder.old.theory p.now }
    ensures continues { Continues recorder.old recorder.new result }
    ensures outcome { AnswersStated (theorem_in result) (image p.now ∷ terms_of_theorem premise.now.theorem) (contr_outcome recorder.old.theory p.now premise.now.theorem) }
    ensures inferred { Infers recorder.old.theory (rules.Contr p.now) (premise.now.theorem ∷ []) (theorem_in result) }
{
    if is_known {
        return contr_known(recorder, logic, p, premise);
    }
    contr(recorder, logic, p, premise)
}

// ADD_ASSUM, which walks the formula unless it is known.
fn add_assum_unless_known(recorder: &mut Recorder, is_known: bool, p: &Term, premise: &Rec) -> Made
    requires premise { IsMade recorder.old premise.now }
    requires known { IsTrue is_known → IsFormula recorder.old.theory p.now }
    ensures continues { Continues recorder.old recorder.new result }
    ensures outcome { AnswersStated (theorem_in result) (image p.now ∷ terms_of_theorem premise.now.theorem) (add_assum_outcome recorder.old.theory p.now premise.now.theorem) }
    ensures inferred { Infers recorder.old.theory (rules.AddAssum p.now) (premise.now.theorem ∷ []) (theorem_in result) }
{
    if is_known {
        return add_assum_known(recorder, p, premise);
    }
    add_assum(recorder, p, premise)
}

// A theorem under further assumptions.
fn with_assumptions(
    recorder: &mut Recorder,
    are_known: bool,
    assumptions: &[Term],
    mut theorem: Rec,
) -> Made
    requires held { IsHeld recorder.old theorem }
    requires known { IsTrue are_known → are_known_formulas recorder.old.theory assumptions.now ≡ true }
    ensures continues { Continues recorder.old recorder.new result }
    ensures drawn { IsDrawn (with_assumptions recorder.old.theory (map image theorem.theorem.hypotheses) (image theorem.theorem.conclusion) assumptions.now) (theorem_in result) }
    ensures fits { are_roomy (terms_of_theorem theorem.theorem) ≡ true → are_roomy (map image assumptions.now) ≡ true → IsNotLarge (theorem_in result) }
{
    for p in assumptions {
        theorem = add_assum_unless_known(recorder, are_known, p, &theorem)?;
    }
    Ok(theorem)
}

// A goal's sequent, under the hypotheses of a theorem that says `F`.
#[tactic(auto, using(crate::proofs::SupposingLemmas::supposing))]
fn supposed_from(
    recorder: &mut Recorder,
    logic: &Bool,
    falsity: &Rec,
    is_known: bool,
    goal: &Goal,
) -> Made
    requires logic { HasLogic recorder.old logic.now }
    requires premise { IsMade recorder.old falsity.now }
    requires concludes { image falsity.now.theorem.conclusion ≡ false_term }
    requires known { IsTrue is_known → is_known_goal recorder.old.theory (goal_of goal.now) ≡ true }
    ensures continues { Continues recorder.old recorder.new result }
    ensures drawn { IsDrawn (supposed_from recorder.old.theory (map image falsity.now.theorem.hypotheses) (goal_of goal.now)) (theorem_in result) }
    ensures fits { HasGoalRoom falsity.now.theorem (goal_of goal.now) → IsNotLarge (theorem_in result) }
{
    let theorem = contr_unless_known(recorder, logic, is_known, &goal.concl, falsity)?;
    with_assumptions(recorder, is_known, &goal.asms, theorem)
}

// A refusal of a goal's sequent, as one of the step.
#[tactic(auto, using(crate::proofs::SupposingLemmas::unsupposing))]
fn refusal(fault: Fault) -> Fault
    ensures unsupposed { (known : Truth) (sequent : Sequent) → IsDrawn (require known (Some sequent)) (Err fault) → IsUnsupposed known result }
    ensures fits { (fault ≡ TooLarge → ⊥) → result ≡ TooLarge → ⊥ }
{
    match fault {
        Fault::Memory => Fault::Memory,
        Fault::TooLarge => Fault::TooLarge,
        _ => Fault::InvalidStep,
    }
}

// One theorem more.
fn pushed(theorems: &mut Vec<Rec>, theorem: Rec) -> Result<(), Fault>
    ensures ok { OnOk result (theorems.new.items ≡ theorems.old.items ++ theorem ∷ []) }
    ensures err { IfErr result (λ fault. fault ≡ Memory) }
{
    theorems.push(theorem)?;
    Ok(())
}

// Each goal's sequent, under the hypotheses of a theorem that says `F`.
pub(crate) fn suppose_all(
    recorder: &mut Recorder,
    logic: &Bool,
    falsity: &Rec,
    are_known: bool,
    goals: &[Goal],
) -> Result<Vec<Rec>, Fault>
    requires logic { HasLogic recorder.old logic.now }
    requires premise { IsMade recorder.old falsity.now }
    requires concludes { image falsity.now.theorem.conclusion ≡ false_term }
    requires known { IsTrue are_known → are_known_goals recorder.old.theory (goals_of goals.now) ≡ true }
    ensures grown { IsGrown recorder.old recorder.new }
    ensures theory { recorder.new.theory ≡ recorder.old.theory }
    ensures made { IfOk result (λ theorems. AreMade recorder.new theorems.items) }
    ensures ok { IfOk result (λ theorems. AreSupposed recorder.old.theory (map image falsity.now.theorem.hypotheses) (goals_of goals.now) theorems.items) }
    ensures err { IfErr result (IsUnsupposed (are_known_goals recorder.old.theory (goals_of goals.now))) }
    ensures fits { are_roomy (terms_of_theorem falsity.now.theorem) ≡ true → are_roomy (terms_of_goals (goals_of goals.now)) ≡ true → IsNotLarge result }
{
    let alloc = recorder.alloc();
    logic_stays();
    let mut theorems = Vec::new(alloc);
    for goal in goals {
        match supposed_from(recorder, logic, falsity, are_known, goal) {
            Ok(theorem) => pushed(&mut theorems, theorem)?,
            Err(fault) => return Err(refusal(fault)),
        }
    }
    Ok(theorems)
}
