// Rules of implication.
ghost use Rattle.std.specs.Prelude.{◌≡◌, ◌++◌, List, [], ◌∷◌, IfOk};
ghost use Rattle.hol_model.specs.Terms.HolType.{bool_type};
ghost use Rattle.hol_model.specs.Terms.Nameless.{Nameless, image};
ghost use Rattle.hol_model.specs.Logic.Logic as nameless;
ghost use Rattle.hol_model.specs.Logic.NamedLogic.{implication};
ghost use Rattle.hol_model.specs.Logic.Logic.{implies_name};
ghost use Rattle.hol_model.specs.Logic.Derivable.{without, nameless_equation};
ghost use Rattle.hol_model.specs.Derived.DerivedRules.{AnswersStated, terms_of_theorem, mp_outcome, disch_outcome, undisch_outcome};
ghost use Rattle.hol_model.specs.declared.rule.Rule.TheVariants as rules;
ghost use Rattle.hol_journal.specs.Journal.{IsMade, theorem_in};
ghost use Rattle.hol_prelude.specs.HasLogic.{HasLogic};
ghost use Rattle.hol_equal.specs.Formulas.{IsFormula, AreSides};
ghost use Rattle.hol_equal.specs.Room.{Room, FitsIf};
ghost use Rattle.hol_journal.specs.Growth.{Continues};
ghost use Rattle.hol_equal.specs.Sequents.{Shows, DerivesIf};
ghost use Rattle.hol_equal.specs.Inferred.{Infers};

use crate::conjunction_rules::conj_in_room;
use crate::formula_terms::{connect, equivalence, for_p_q};
use crate::prelude_rules::{by_leading_theorem, instance_of_theorem, pass_formula, sides_of};
use hol_alpha::aconv;
use hol_equal::steps::{self, Made, conclusion_of};
use hol_journal::{Rec, Recorder};
use hol_model::Fault;
use hol_prelude::Bool;
use hol_prelude::numbers::{CONJUNCT1, DISCH, MP};
use hol_terms::Term;

/// MP, with the room that it needs: from `p ==> q` and `p`, which are not compared for it, the `q` that is handed in.
#[tactic(auto, using(hol_equal::proofs::StepLemmas::still_made, hol_equal::proofs::StepLemmas::now_made))]
pub fn mp_known(
    recorder: &mut Recorder,
    logic: &Bool,
    consequent: &Term,
    first: &Rec,
    second: &Rec,
) -> Made
    requires logic { HasLogic recorder.old logic.now }
    requires consequent { IsFormula recorder.old.theory consequent.now }
    requires first { IsMade recorder.old first.now }
    requires second { IsMade recorder.old second.now }
    requires fits { image first.now.theorem.conclusion ≡ nameless.implication (image second.now.theorem.conclusion) (image consequent.now) }
    ensures continues { Continues recorder.old recorder.new result }
    ensures names { IfOk result (λ made. made.theorem.conclusion ≡ consequent.now) }
    ensures derives { (h k : List Nameless) (p : Nameless) (room : Room) → Shows first.now.theorem h (nameless.implication p (image consequent.now))
        → Shows second.now.theorem k p → FitsIf room (nameless_equation bool_type (nameless.implication p (image consequent.now))
        (image consequent.now)) → DerivesIf room result (k ++ h) (image consequent.now) }
{
    let alloc = recorder.alloc();
    let whole = conclusion_of(recorder, first);
    let antecedent = conclusion_of(recorder, second);
    let stated = equivalence(alloc, whole, consequent)?;
    let terms = for_p_q(alloc, antecedent, consequent)?;
    let equation = by_leading_theorem(recorder, logic, MP, &terms, &stated, second)?;
    steps::eq_mp_known(recorder, &equation, first)
}

/// MP: from `p ==> q` and `p`, `q`, in at most six steps. Refused where the first conclusion is no implication, and then where
/// the second is not its left side up to the names of bound variables.
#[tactic(auto, using(crate::proofs::InferredRules::infers_mp))]
pub fn mp(recorder: &mut Recorder, logic: &Bool, first: &Rec, second: &Rec) -> Made
    requires logic { HasLogic recorder.old logic.now }
    requires first { IsMade recorder.old first.now }
    requires second { IsMade recorder.old second.now }
    ensures continues { Continues recorder.old recorder.new result }
    ensures outcome { AnswersStated (theorem_in result) (terms_of_theorem first.now.theorem ++ terms_of_theorem second.now.theorem) (mp_outcome first.now.theorem second.now.theorem) }
    ensures inferred { Infers recorder.old.theory rules.Mp (first.now.theorem ∷ second.now.theorem ∷ []) (theorem_in result) }
{
    let Some(sides) = sides_of(recorder, logic, first, "==>") else {
        return Err(Fault::BadShape);
    };
    if !aconv(sides.left, conclusion_of(recorder, second)) {
        return Err(Fault::NotAlpha);
    }
    mp_known(recorder, logic, sides.right, first, second)
}

// From `p /\ q`, as a hypothesis, `p`.
fn first_of_both(recorder: &mut Recorder, logic: &Bool, p: &Term, q: &Term) -> Made
    requires logic { HasLogic recorder.old logic.now }
    requires first { IsFormula recorder.old.theory p.now }
    requires second { IsFormula recorder.old.theory q.now }
    ensures continues { Continues recorder.old recorder.new result }
    ensures derives { (room : Room) → FitsIf room (nameless.conjunction (image p.now) (image q.now))
        → DerivesIf room result (nameless.conjunction (image p.now) (image q.now) ∷ []) (image p.now) }
{
    let alloc = recorder.alloc();
    let terms = for_p_q(alloc, p, q)?;
    instance_of_theorem(recorder, logic, CONJUNCT1, &terms, p)
}

// From `q`, `p /\ q <=> p` without the hypothesis `p`.
#[tactic(auto, using(crate::proofs::PreludeSteps::staying))]
fn absorption(recorder: &mut Recorder, logic: &Bool, p: &Term, premise: &Rec) -> Made
    requires logic { HasLogic recorder.old logic.now }
    requires formula { IsFormula recorder.old.theory p.now }
    requires premise { IsMade recorder.old premise.now }
    ensures continues { Continues recorder.old recorder.new result }
    ensures derives { (h : List Nameless) (q : Nameless) (room : Room) → Shows premise.now.theorem h q
        → FitsIf room (nameless_equation bool_type (nameless.conjunction (image p.now) q) (nameless.conjunction (image p.now) q))
        → DerivesIf room result (without (image p.now) h) (nameless_equation bool_type (nameless.conjunction (image p.now) q) (image p.now)) }
{
    let assumed = steps::assume_known(recorder, p)?;
    let joined = conj_in_room(recorder, logic, &assumed, premise)?;
    let q = conclusion_of(recorder, premise);
    let first = first_of_both(recorder, logic, p, q)?;
    steps::deduct_antisym_known(recorder, &joined, &first)
}

/// DISCH, with the room that it needs: from `q`, `p ==> q` without the hypothesis `p`, for a formula `p` that the theory
/// knows.
#[tactic(auto, using(crate::proofs::PreludeSteps::staying))]
pub fn disch_in_room(recorder: &mut Recorder, logic: &Bool, p: &Term, premise: &Rec) -> Made
    requires logic { HasLogic recorder.old logic.now }
    requires formula { IsFormula recorder.old.theory p.now }
    requires premise { IsMade recorder.old premise.now }
    ensures continues { Continues recorder.old recorder.new result }
    ensures names { IfOk result (λ made. made.theorem.conclusion ≡ implication p.now premise.now.theorem.conclusion) }
    ensures derives { (h : List Nameless) (q : Nameless) (room : Room) → Shows premise.now.theorem h q
        → FitsIf room (nameless_equation bool_type (nameless.conjunction (image p.now) q) (nameless.conjunction (image p.now) q))
        → DerivesIf room result (without (image p.now) h) (nameless.implication (image p.now) q) }
{
    let alloc = recorder.alloc();
    let q = conclusion_of(recorder, premise);
    let stated = connect(alloc, "==>", p, q)?;
    let terms = for_p_q(alloc, p, q)?;
    let equation = absorption(recorder, logic, p, premise)?;
    by_leading_theorem(recorder, logic, DISCH, &terms, &stated, &equation)
}

/// DISCH: from `q`, `p ==> q` without the hypothesis `p`, in at most 16 steps. Refused where `p` is not of type `bool`, and then
/// where the theory does not know a type or a constant of it.
#[tactic(auto, using(crate::proofs::InferredRules::infers_disch))]
pub fn disch(recorder: &mut Recorder, logic: &Bool, p: &Term, premise: &Rec) -> Made
    requires logic { HasLogic recorder.old logic.now }
    requires premise { IsMade recorder.old premise.now }
    ensures continues { Continues recorder.old recorder.new result }
    ensures outcome { AnswersStated (theorem_in result) (image p.now ∷ terms_of_theorem premise.now.theorem) (disch_outcome recorder.old.theory p.now premise.now.theorem) }
    ensures inferred { Infers recorder.old.theory (rules.Disch p.now) (premise.now.theorem ∷ []) (theorem_in result) }
{
    let _type = p.ty();
    pass_formula(recorder, p)?;
    disch_in_room(recorder, logic, p, premise)
}

// From `p ==> q`, `q` with the hypothesis `p`.
fn undisch_in_room(recorder: &mut Recorder, logic: &Bool, p: &Term, q: &Term, premise: &Rec) -> Made
    requires logic { HasLogic recorder.old logic.now }
    requires premise { IsMade recorder.old premise.now }
    requires sides { AreSides recorder.old.theory implies_name premise.now.theorem.conclusion p.now q.now }
    ensures continues { Continues recorder.old recorder.new result }
    ensures names { IfOk result (λ made. made.theorem.conclusion ≡ q.now) }
    ensures derives { (h : List Nameless) (room : Room) → Shows premise.now.theorem h (nameless.implication (image p.now) (image q.now))
        → FitsIf room (nameless_equation bool_type (nameless.implication (image p.now) (image q.now)) (image q.now))
        → DerivesIf room result (image p.now ∷ h) (image q.now) }
{
    let alloc = recorder.alloc();
    let whole = conclusion_of(recorder, premise);
    let stated = equivalence(alloc, whole, q)?;
    let terms = for_p_q(alloc, p, q)?;
    let equation = instance_of_theorem(recorder, logic, MP, &terms, &stated)?;
    steps::eq_mp_known(recorder, &equation, premise)
}

/// UNDISCH: from `p ==> q`, `q` with the hypothesis `p`, in at most four steps. Refused where the conclusion is no implication.
#[tactic(auto, using(crate::proofs::InferredRules::infers_undisch))]
pub fn undisch(recorder: &mut Recorder, logic: &Bool, premise: &Rec) -> Made
    requires logic { HasLogic recorder.old logic.now }
    requires premise { IsMade recorder.old premise.now }
    ensures continues { Continues recorder.old recorder.new result }
    ensures outcome { AnswersStated (theorem_in result) (terms_of_theorem premise.now.theorem) (undisch_outcome premise.now.theorem) }
    ensures inferred { Infers recorder.old.theory rules.Undisch (premise.now.theorem ∷ []) (theorem_in result) }
{
    let Some(sides) = sides_of(recorder, logic, premise, "==>") else {
        return Err(Fault::BadShape);
    };
    undisch_in_room(recorder, logic, sides.left, sides.right, premise)
}
