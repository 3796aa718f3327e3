// Rules of conjunction.
ghost use Rattle.std.specs.Prelude.{◌≡◌, ◌++◌, List, IfOk, [], ◌∷◌, false};
ghost use Rattle.std.specs.List.{list_any};
ghost use Rattle.hol_model.specs.Terms.HolType.{bool_type};
ghost use Rattle.hol_model.specs.Terms.NamedTerm.{NamedTerm, equation};
ghost use Rattle.hol_model.specs.Terms.Nameless.{Nameless};
ghost use Rattle.hol_model.specs.Logic.Logic as nameless;
ghost use Rattle.hol_model.specs.Logic.NamedLogic.{true_term, is_true, conjunction};
ghost use Rattle.hol_model.specs.Logic.Derivable.{nameless_equation};
ghost use Rattle.hol_model.specs.Derived.DerivedRules.{AnswersStated, terms_of_theorem, conj_outcome, conjunct1_outcome, conjunct2_outcome};
ghost use Rattle.hol_model.specs.declared.rule.Rule.TheVariants as rules;
ghost use Rattle.hol_journal.specs.Journal.{IsMade, theorem_in};
ghost use Rattle.hol_prelude.specs.HasLogic.{HasLogic};
ghost use Rattle.hol_bool.specs.Conjunctions.{Conjoins};
ghost use Rattle.hol_equal.specs.Room.{Room, FitsIf};
ghost use Rattle.hol_journal.specs.Growth.{Continues};
ghost use Rattle.hol_equal.specs.Sequents.{Shows, DerivesIf};
ghost use Rattle.hol_equal.specs.Inferred.{Infers};

use crate::formula_terms::{connect, equivalence, for_p_q, is_named};
use crate::prelude_rules::{by_leading_theorem, sides_of};
use hol_equal::steps::{self, Made, conclusion_of};
use hol_journal::{Rec, Recorder};
use hol_model::Fault;
use hol_prelude::numbers::{AND_REFL, CONJ, CONJUNCT1, CONJUNCT2, T_AND_T, TRUTH};
use hol_prelude::{Bool, theorem_of};
use hol_terms::Term;

/// CONJUNCT1: from `p /\ q`, `p`, in at most five steps. Refused where the conclusion is no conjunction.
#[tactic(auto, using(crate::proofs::InferredRules::infers_conjunct1))]
pub fn conjunct1(recorder: &mut Recorder, logic: &Bool, premise: &Rec) -> Made
    requires logic { HasLogic recorder.old logic.now }
    requires premise { IsMade recorder.old premise.now }
    ensures continues { Continues recorder.old recorder.new result }
    ensures outcome { AnswersStated (theorem_in result) (terms_of_theorem premise.now.theorem) (conjunct1_outcome premise.now.theorem) }
    ensures inferred { Infers recorder.old.theory rules.Conjunct1 (premise.now.theorem ∷ []) (theorem_in result) }
{
    let alloc = recorder.alloc();
    let Some(sides) = sides_of(recorder, logic, premise, "/\\") else {
        return Err(Fault::BadShape);
    };
    let terms = for_p_q(alloc, sides.left, sides.right)?;
    by_leading_theorem(recorder, logic, CONJUNCT1, &terms, sides.left, premise)
}

/// CONJUNCT2: from `p /\ q`, `q`, in at most five steps. Refused where the conclusion is no conjunction.
#[tactic(auto, using(crate::proofs::InferredRules::infers_conjunct2))]
pub fn conjunct2(recorder: &mut Recorder, logic: &Bool, premise: &Rec) -> Made
    requires logic { HasLogic recorder.old logic.now }
    requires premise { IsMade recorder.old premise.now }
    ensures continues { Continues recorder.old recorder.new result }
    ensures outcome { AnswersStated (theorem_in result) (terms_of_theorem premise.now.theorem) (conjunct2_outcome premise.now.theorem) }
    ensures inferred { Infers recorder.old.theory rules.Conjunct2 (premise.now.theorem ∷ []) (theorem_in result) }
{
    let alloc = recorder.alloc();
    let Some(sides) = sides_of(recorder, logic, premise, "/\\") else {
        return Err(Fault::BadShape);
    };
    let terms = for_p_q(alloc, sides.left, sides.right)?;
    by_leading_theorem(recorder, logic, CONJUNCT2, &terms, sides.right, premise)
}

// Whether a theorem has a hypothesis named `T`.
fn supposes_truth(recorder: &Recorder, premise: &Rec) -> bool
    requires { IsMade recorder.now premise.now }
    ensures { result ≡ list_any is_true premise.now.theorem.hypotheses }
{
    is_truth_among(recorder.thm(premise).hyps())
}

// Whether one of the terms is a constant named `T`.
fn is_truth_among(terms: &[Term]) -> bool
    ensures { result ≡ list_any is_true terms.now }
{
    terms.iter().any(|term| is_named(term, "T"))
}

// From `p` without the hypothesis `T`, `T <=> p`.
fn truth_equation(recorder: &mut Recorder, logic: &Bool, premise: &Rec) -> Made
    requires logic { HasLogic recorder.old logic.now }
    requires premise { IsMade recorder.old premise.now }
    requires absent { list_any is_true premise.now.theorem.hypotheses ≡ false }
    ensures continues { Continues recorder.old recorder.new result }
    ensures names { IfOk result (λ made. made.theorem.conclusion ≡ equation true_term premise.now.theorem.conclusion) }
    ensures derives { (h : List Nameless) (p : Nameless) (room : Room) → Shows premise.now.theorem h p → FitsIf room p
        → DerivesIf room result h (nameless_equation bool_type nameless.true_term p) }
{
    let truth = theorem_of(recorder, logic, TRUTH);
    steps::deduct_antisym(recorder, truth, premise)
}

// From `T <=> p` and `T <=> q`, `T /\ T <=> p /\ q`, and from it `p /\ q`.
#[tactic(auto, using(crate::proofs::PreludeSteps::staying))]
fn by_truths(recorder: &mut Recorder, logic: &Bool, first: &Rec, second: &Rec) -> Made
    requires logic { HasLogic recorder.old logic.now }
    requires first { IsMade recorder.old first.now }
    requires second { IsMade recorder.old second.now }
    ensures continues { Continues recorder.old recorder.new result }
    ensures names { (p q : NamedTerm) → first.now.theorem.conclusion ≡ equation true_term p → second.now.theorem.conclusion ≡ equation true_term q
        → IfOk result (λ made. made.theorem.conclusion ≡ conjunction p q) }
    ensures derives { (h k : List Nameless) (p q : Nameless) (room : Room) → Shows first.now.theorem h (nameless_equation bool_type nameless.true_term p)
        → Shows second.now.theorem k (nameless_equation bool_type nameless.true_term q) → FitsIf room (nameless.conjunction p q)
        → DerivesIf room result (h ++ k) (nameless.conjunction p q) }
{
    let connective = theorem_of(recorder, logic, AND_REFL);
    let function = steps::mk_comb(recorder, connective, first)?;
    let congruence = steps::mk_comb(recorder, &function, second)?;
    let truths = theorem_of(recorder, logic, T_AND_T);
    steps::eq_mp(recorder, &congruence, truths)
}

// CONJ, by the theorem of the prelude at the two formulas.
#[tactic(auto, using(hol_equal::proofs::StepLemmas::still_made, hol_equal::proofs::StepLemmas::now_made))]
fn conjoined(recorder: &mut Recorder, logic: &Bool, first: &Rec, second: &Rec) -> Made
    requires logic { HasLogic recorder.old logic.now }
    requires first { IsMade recorder.old first.now }
    requires second { IsMade recorder.old second.now }
    ensures continues { Continues recorder.old recorder.new result }
    ensures conjoins { Conjoins first.now.theorem second.now.theorem result }
{
    let alloc = recorder.alloc();
    let p = conclusion_of(recorder, first);
    let q = conclusion_of(recorder, second);
    let both = connect(alloc, "/\\", p, q)?;
    let stated = equivalence(alloc, q, &both)?;
    let terms = for_p_q(alloc, p, q)?;
    let equation = by_leading_theorem(recorder, logic, CONJ, &terms, &stated, first)?;
    steps::eq_mp_known(recorder, &equation, second)
}

// CONJ, with the room that it needs. No formula is named where `T` is no hypothesis.
#[tactic(auto, using(crate::proofs::PreludeSteps::staying))]
pub(crate) fn conj_in_room(recorder: &mut Recorder, logic: &Bool, first: &Rec, second: &Rec) -> Made
    requires logic { HasLogic recorder.old logic.now }
    requires first { IsMade recorder.old first.now }
    requires second { IsMade recorder.old second.now }
    ensures continues { Continues recorder.old recorder.new result }
    ensures conjoins { Conjoins first.now.theorem second.now.theorem result }
{
    if supposes_truth(recorder, first) || supposes_truth(recorder, second) {
        return conjoined(recorder, logic, first, second);
    }
    let left = truth_equation(recorder, logic, first)?;
    let right = truth_equation(recorder, logic, second)?;
    by_truths(recorder, logic, &left, &right)
}

/// CONJ: from `p` and `q`, `p /\ q`, in at most six steps, and where `T` is no hypothesis in five that name no formula.
#[tactic(auto, using(crate::proofs::InferredRules::infers_conj))]
pub fn conj(recorder: &mut Recorder, logic: &Bool, first: &Rec, second: &Rec) -> Made
    requires logic { HasLogic recorder.old logic.now }
    requires first { IsMade recorder.old first.now }
    requires second { IsMade recorder.old second.now }
    ensures continues { Continues recorder.old recorder.new result }
    ensures outcome { AnswersStated (theorem_in result) (terms_of_theorem first.now.theorem ++ terms_of_theorem second.now.theorem) (conj_outcome first.now.theorem second.now.theorem) }
    ensures inferred { Infers recorder.old.theory rules.Conj (first.now.theorem ∷ second.now.theorem ∷ []) (theorem_in result) }
{
    conj_in_room(recorder, logic, first, second)
}
