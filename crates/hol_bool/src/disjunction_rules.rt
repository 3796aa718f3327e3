// Rules of disjunction.
ghost use Rattle.std.specs.Prelude.{◌≡◌, ◌<◌, ◌++◌, ◌∷◌, List, IfOk, Some, [], false, length};
ghost use Rattle.hol_model.specs.Terms.HolType.{bool_type};
ghost use Rattle.hol_model.specs.Terms.NamedTerm.{type_of};
ghost use Rattle.hol_model.specs.Terms.Nameless.{Nameless, image};
ghost use Rattle.hol_model.specs.Logic.Logic as nameless;
ghost use Rattle.hol_model.specs.Logic.NamedLogic.{disjunction};
ghost use Rattle.hol_model.specs.Logic.Derivable.{without, nameless_equation};
ghost use Rattle.hol_model.specs.Derived.DerivedRules.{AnswersStated, terms_of_theorem, disj1_outcome, disj2_outcome, disj_cases_outcome};
ghost use Rattle.hol_model.specs.declared.rule.Rule.TheVariants as rules;
ghost use Rattle.hol_journal.specs.Journal.{IsMade, theorem_in};
ghost use Rattle.hol_prelude.specs.Prelude.{prelude_theorems};
ghost use Rattle.hol_prelude.specs.HasLogic.{HasLogic};
ghost use Rattle.hol_equal.specs.Formulas.{IsFormula};
ghost use Rattle.hol_equal.specs.Room.{Room, FitsIf, MakesIf};
ghost use Rattle.hol_bool.specs.PreludeInstances.{LeadsTo, at_p_q};
ghost use Rattle.hol_bool.specs.Disjunctions.{LeavesRoomIf, MakesDisjunction, other_case, both_cases};
ghost use Rattle.hol_journal.specs.Growth.{Continues};
ghost use Rattle.hol_equal.specs.Sequents.{Shows, DerivesIf};
ghost use Rattle.hol_equal.specs.Inferred.{Infers};

use crate::formula_terms::{Sides, connect, for_p_q, for_p_q_r};
use crate::implication_rules::{disch_in_room, mp_known};
use crate::prelude_rules::{by_leading_theorem, pass_formula, sides_of};
use hol_alpha::aconv;
use hol_equal::{Made, conclusion_of};
use hol_journal::{Rec, Recorder};
use hol_model::Fault;
use hol_prelude::Bool;
use hol_prelude::numbers::{DISJ_CASES, DISJ1, DISJ2};
use hol_terms::Term;
use std::alloc::Global;

// From the side of `p \/ q` that the theorem of this number of the prelude takes, `p \/ q`.
fn with_disjunct(
    recorder: &mut Recorder,
    logic: &Bool,
    number: usize,
    p: &Term,
    q: &Term,
    premise: &Rec,
) -> Made
    requires logic { HasLogic recorder.old logic.now }
    requires number { number < length prelude_theorems }
    requires left { IsFormula recorder.old.theory p.now }
    requires right { IsFormula recorder.old.theory q.now }
    requires premise { IsMade recorder.old premise.now }
    requires leads { LeadsTo recorder.old.theory number (at_p_q p.now q.now) false (image premise.now.theorem.conclusion) (image (disjunction p.now q.now)) }
    ensures continues { Continues recorder.old recorder.new result }
    ensures names { IfOk result (λ made. made.theorem.conclusion ≡ disjunction p.now q.now) }
    ensures derives { MakesDisjunction recorder.old.theory number p.now q.now premise.now.theorem result }
{
    let alloc = recorder.alloc();
    recorder.theory_is_legal();
    let stated = connect(alloc, "\\/", p, q)?;
    let terms = for_p_q(alloc, p, q)?;
    by_leading_theorem(recorder, logic, number, &terms, &stated, premise)
}

/// DISJ1: from `p`, `p \/ q`, in at most five steps. Refused where `q` is not of type `bool`, and then where the theory does not
/// know a type or a constant of it.
#[tactic(auto, using(crate::proofs::InferredRules::infers_disj1))]
pub fn disj1(recorder: &mut Recorder, logic: &Bool, q: &Term, premise: &Rec) -> Made
    requires logic { HasLogic recorder.old logic.now }
    requires premise { IsMade recorder.old premise.now }
    ensures continues { Continues recorder.old recorder.new result }
    ensures outcome { AnswersStated (theorem_in result) (image q.now ∷ terms_of_theorem premise.now.theorem) (disj1_outcome recorder.old.theory q.now premise.now.theorem) }
    ensures inferred { Infers recorder.old.theory (rules.Disj1 q.now) (premise.now.theorem ∷ []) (theorem_in result) }
{
    let _type = q.ty();
    pass_formula(recorder, q)?;
    let p = conclusion_of(recorder, premise);
    with_disjunct(recorder, logic, DISJ1, p, q, premise)
}

/// DISJ2: from `q`, `p \/ q`, in at most five steps. Refused where `p` is not of type `bool`, and then where the theory does not
/// know a type or a constant of it.
#[tactic(auto, using(crate::proofs::InferredRules::infers_disj2))]
pub fn disj2(recorder: &mut Recorder, logic: &Bool, p: &Term, premise: &Rec) -> Made
    requires logic { HasLogic recorder.old logic.now }
    requires premise { IsMade recorder.old premise.now }
    ensures continues { Continues recorder.old recorder.new result }
    ensures outcome { AnswersStated (theorem_in result) (image p.now ∷ terms_of_theorem premise.now.theorem) (disj2_outcome recorder.old.theory p.now premise.now.theorem) }
    ensures inferred { Infers recorder.old.theory (rules.Disj2 p.now) (premise.now.theorem ∷ []) (theorem_in result) }
{
    let _type = p.ty();
    pass_formula(recorder, p)?;
    let q = conclusion_of(recorder, premise);
    with_disjunct(recorder, logic, DISJ2, p, q, premise)
}

// `(q ==> r) ==> r`, of formulas.
fn other_case(alloc: Global, q: &Term, r: &Term) -> Result<Term, Fault>
    ensures { (room : Room) → type_of q.now ≡ Some bool_type → type_of r.now ≡ Some bool_type → FitsIf room (image (other_case q.now r.now))
        → MakesIf room result (other_case q.now r.now) }
{
    let case = connect(alloc, "==>", q, r)?;
    connect(alloc, "==>", &case, r)
}

// From `p \/ q`, `(p ==> r) ==> (q ==> r) ==> r`, what is behind the first `==>` being handed in.
fn disj_cases_in_room(
    recorder: &mut Recorder,
    logic: &Bool,
    sides: Sides,
    r: &Term,
    rest: &Term,
    theorem: &Rec,
) -> Made
    requires logic { HasLogic recorder.old logic.now }
    requires left { IsFormula recorder.old.theory sides.left.now }
    requires right { IsFormula recorder.old.theory sides.right.now }
    requires r { IsFormula recorder.old.theory r.now }
    requires rest { rest.now ≡ other_case sides.right.now r.now }
    requires theorem { IsMade recorder.old theorem.now }
    requires whole { theorem.now.theorem.conclusion ≡ disjunction sides.left.now sides.right.now }
    ensures continues { Continues recorder.old recorder.new result }
    ensures derives { (h : List Nameless) (room : Room) → Shows theorem.now.theorem h
        (image (disjunction sides.entry.left.now sides.entry.right.now))
        → FitsIf room (image (disjunction sides.entry.left.now sides.entry.right.now))
        → FitsIf room (image (both_cases sides.entry.left.now sides.entry.right.now r.now))
        → DerivesIf room result h (image (both_cases sides.entry.left.now sides.entry.right.now r.now)) }
{
    let alloc = recorder.alloc();
    recorder.theory_is_legal();
    let case = connect(alloc, "==>", sides.left, r)?;
    let stated = connect(alloc, "==>", &case, rest)?;
    let terms = for_p_q_r(alloc, sides.left, sides.right, r)?;
    by_leading_theorem(recorder, logic, DISJ_CASES, &terms, &stated, theorem)
}

// From `(p ==> r) ==> s` and `r`, the `s` that is handed in, without the hypothesis `p` of the second.
#[tactic(auto, using(crate::proofs::PreludeSteps::staying))]
fn with_case(
    recorder: &mut Recorder,
    logic: &Bool,
    p: &Term,
    consequent: &Term,
    whole: &Rec,
    case: &Rec,
) -> Made
    requires logic { HasLogic recorder.old logic.now }
    requires p { IsFormula recorder.old.theory p.now }
    requires consequent { IsFormula recorder.old.theory consequent.now }
    requires whole { IsMade recorder.old whole.now }
    requires case { IsMade recorder.old case.now }
    requires fits { image whole.now.theorem.conclusion ≡ nameless.implication (nameless.implication (image p.now) (image case.now.theorem.conclusion)) (image consequent.now) }
    ensures continues { Continues recorder.old recorder.new result }
    ensures names { IfOk result (λ made. made.theorem.conclusion ≡ consequent.now) }
    ensures derives { (h k : List Nameless) (r : Nameless) (room : Room)
        → Shows whole.now.theorem h (nameless.implication (nameless.implication (image p.now) r) (image consequent.now)) → Shows case.now.theorem k r
        → FitsIf room (nameless_equation bool_type (nameless.conjunction (image p.now) r) (nameless.conjunction (image p.now) r))
        → FitsIf room (nameless_equation bool_type (nameless.implication (nameless.implication (image p.now) r) (image consequent.now))
        (image consequent.now)) → DerivesIf room result (without (image p.now) k ++ h) (image consequent.now) }
{
    let implication = disch_in_room(recorder, logic, p, case)?;
    mp_known(recorder, logic, consequent, whole, &implication)
}

// DISJ_CASES, with the room that it needs: from `p \/ q`, `r` and `r`, the `r` of the first case.
#[tactic(auto, using(crate::proofs::PreludeSteps::staying))]
fn by_cases(
    recorder: &mut Recorder,
    logic: &Bool,
    sides: Sides,
    theorem: &Rec,
    first: &Rec,
    second: &Rec,
) -> Made
    requires logic { HasLogic recorder.old logic.now }
    requires left { IsFormula recorder.old.theory sides.left.now }
    requires right { IsFormula recorder.old.theory sides.right.now }
    requires theorem { IsMade recorder.old theorem.now }
    requires whole { theorem.now.theorem.conclusion ≡ disjunction sides.left.now sides.right.now }
    requires first { IsMade recorder.old first.now }
    requires second { IsMade recorder.old second.now }
    requires meet { image first.now.theorem.conclusion ≡ image second.now.theorem.conclusion }
    ensures continues { Continues recorder.old recorder.new result }
    ensures names { IfOk result (λ made. made.theorem.conclusion ≡ first.now.theorem.conclusion) }
    ensures derives { (h i j : List Nameless) (r : Nameless) (room : Room)
        → Shows theorem.now.theorem h (image (disjunction sides.entry.left.now sides.entry.right.now)) → Shows first.now.theorem i r
        → Shows second.now.theorem j r → LeavesRoomIf room (image sides.entry.left.now) → LeavesRoomIf room (image sides.entry.right.now)
        → LeavesRoomIf room r → DerivesIf room result (without (image sides.entry.right.now) j ++ (without (image sides.entry.left.now) i ++ h)) r }
{
    let alloc = recorder.alloc();
    let r = conclusion_of(recorder, first);
    let rest = other_case(alloc, sides.right, r)?;
    let cases = disj_cases_in_room(recorder, logic, sides, r, &rest, theorem)?;
    let other = with_case(recorder, logic, sides.left, &rest, &cases, first)?;
    with_case(recorder, logic, sides.right, r, &other, second)
}

/// DISJ_CASES: from `p \/ q`, `r` and `r`, `r` without the hypothesis `p` of the first case and `q` of the second, in at
/// most 49 steps. Refused where the conclusion is no disjunction, and then where the cases' conclusions differ in more than the names
/// of bound variables.
#[tactic(auto, using(crate::proofs::InferredRules::infers_disj_cases))]
pub fn disj_cases(
    recorder: &mut Recorder,
    logic: &Bool,
    theorem: &Rec,
    first: &Rec,
    second: &Rec,
) -> Made
    requires logic { HasLogic recorder.old logic.now }
    requires theorem { IsMade recorder.old theorem.now }
    requires first { IsMade recorder.old first.now }
    requires second { IsMade recorder.old second.now }
    ensures continues { Continues recorder.old recorder.new result }
    ensures outcome { AnswersStated (theorem_in result) (terms_of_theorem theorem.now.theorem
        ++ (terms_of_theorem first.now.theorem ++ terms_of_theorem second.now.theorem))
        (disj_cases_outcome theorem.now.theorem first.now.theorem second.now.theorem) }
    ensures inferred { Infers recorder.old.theory rules.DisjCases (theorem.now.theorem ∷ first.now.theorem ∷ second.now.theorem ∷ []) (theorem_in result) }
{
    let Some(sides) = sides_of(recorder, logic, theorem, "\\/") else {
        return Err(Fault::BadShape);
    };
    if !aconv(
        conclusion_of(recorder, first),
        conclusion_of(recorder, second),
    ) {
        return Err(Fault::NotAlpha);
    }
    by_cases(recorder, logic, sides, theorem, first, second)
}
