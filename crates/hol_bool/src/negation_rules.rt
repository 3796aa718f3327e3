// Rules of negation and falsity.
ghost use Rattle.std.specs.Prelude.{◌∷◌, []};
ghost use Rattle.hol_model.specs.Terms.Nameless.{image};
ghost use Rattle.hol_model.specs.Derived.DerivedRules.{AnswersStated, terms_of_theorem, not_intro_outcome, not_elim_outcome, contr_outcome};
ghost use Rattle.hol_model.specs.declared.rule.Rule.TheVariants as rules;
ghost use Rattle.hol_journal.specs.Journal.{IsMade, theorem_in};
ghost use Rattle.hol_prelude.specs.HasLogic.{HasLogic};
ghost use Rattle.hol_equal.specs.Formulas.{IsFormula};
ghost use Rattle.hol_journal.specs.Growth.{Continues};
ghost use Rattle.hol_equal.specs.Inferred.{Infers};

use crate::formula_terms::{connect, falsity, for_p, is_named, negate};
use crate::prelude_rules::{by_leading_theorem, negated_of, pass_formula, sides_of};
use hol_equal::{Made, conclusion_of};
use hol_journal::{Rec, Recorder};
use hol_model::Fault;
use hol_prelude::Bool;
use hol_prelude::numbers::{CONTR, NOT_ELIM, NOT_INTRO};
use hol_terms::Term;

/// NOT_INTRO: from `p ==> F`, `~p`, in at most five steps. Refused where the conclusion is no implication of `F`.
#[tactic(auto, using(crate::proofs::InferredRules::infers_not_intro))]
pub fn not_intro(recorder: &mut Recorder, logic: &Bool, premise: &Rec) -> Made
    requires logic { HasLogic recorder.old logic.now }
    requires premise { IsMade recorder.old premise.now }
    ensures continues { Continues recorder.old recorder.new result }
    ensures outcome { AnswersStated (theorem_in result) (terms_of_theorem premise.now.theorem) (not_intro_outcome premise.now.theorem) }
    ensures inferred { Infers recorder.old.theory rules.NotIntro (premise.now.theorem ∷ []) (theorem_in result) }
{
    let alloc = recorder.alloc();
    let Some(sides) = sides_of(recorder, logic, premise, "==>") else {
        return Err(Fault::BadShape);
    };
    if !is_named(sides.right, "F") {
        return Err(Fault::BadShape);
    }
    recorder.theory_is_legal();
    let stated = negate(alloc, sides.left)?;
    let terms = for_p(alloc, sides.left)?;
    by_leading_theorem(recorder, logic, NOT_INTRO, &terms, &stated, premise)
}

/// NOT_ELIM: from `~p`, `p ==> F`, in at most five steps. Refused where the conclusion is no negation.
#[tactic(auto, using(crate::proofs::InferredRules::infers_not_elim))]
pub fn not_elim(recorder: &mut Recorder, logic: &Bool, premise: &Rec) -> Made
    requires logic { HasLogic recorder.old logic.now }
    requires premise { IsMade recorder.old premise.now }
    ensures continues { Continues recorder.old recorder.new result }
    ensures outcome { AnswersStated (theorem_in result) (terms_of_theorem premise.now.theorem) (not_elim_outcome premise.now.theorem) }
    ensures inferred { Infers recorder.old.theory rules.NotElim (premise.now.theorem ∷ []) (theorem_in result) }
{
    let alloc = recorder.alloc();
    let Some(part) = negated_of(recorder, logic, premise) else {
        return Err(Fault::BadShape);
    };
    let falsity = falsity(alloc)?;
    let stated = connect(alloc, "==>", part, &falsity)?;
    let terms = for_p(alloc, part)?;
    by_leading_theorem(recorder, logic, NOT_ELIM, &terms, &stated, premise)
}

/// CONTR: from `F`, `p`, in at most five steps. Refused where the conclusion is not `F`, then where `p` is not of type `bool`, and
/// then where the theory does not know a type or a constant of it. Walks `p`; where a proof shows that it is a formula that
/// the theory knows, `contr_known`.
#[tactic(auto, using(crate::proofs::InferredRules::infers_contr))]
pub fn contr(recorder: &mut Recorder, logic: &Bool, p: &Term, premise: &Rec) -> Made
    requires logic { HasLogic recorder.old logic.now }
    requires premise { IsMade recorder.old premise.now }
    ensures continues { Continues recorder.old recorder.new result }
    ensures outcome { AnswersStated (theorem_in result) (image p.now ∷ terms_of_theorem premise.now.theorem) (contr_outcome recorder.old.theory p.now premise.now.theorem) }
    ensures inferred { Infers recorder.old.theory (rules.Contr p.now) (premise.now.theorem ∷ []) (theorem_in result) }
{
    let _type = p.ty();
    let conclusion = conclusion_of(recorder, premise);
    if !is_named(conclusion, "F") {
        return Err(Fault::BadShape);
    }
    pass_formula(recorder, p)?;
    contr_known(recorder, logic, p, premise)
}

/// CONTR of a formula that the theory knows, which is not walked for it, in at most five steps. Refused where the conclusion is not
/// `F`.
#[tactic(auto, using(crate::proofs::InferredRules::infers_contr))]
pub fn contr_known(recorder: &mut Recorder, logic: &Bool, p: &Term, premise: &Rec) -> Made
    requires logic { HasLogic recorder.old logic.now }
    requires formula { IsFormula recorder.old.theory p.now }
    requires premise { IsMade recorder.old premise.now }
    ensures continues { Continues recorder.old recorder.new result }
    ensures outcome { AnswersStated (theorem_in result) (image p.now ∷ terms_of_theorem premise.now.theorem) (contr_outcome recorder.old.theory p.now premise.now.theorem) }
    ensures inferred { Infers recorder.old.theory (rules.Contr p.now) (premise.now.theorem ∷ []) (theorem_in result) }
{
    let alloc = recorder.alloc();
    let _type = p.ty();
    let conclusion = conclusion_of(recorder, premise);
    if !is_named(conclusion, "F") {
        return Err(Fault::BadShape);
    }
    let terms = for_p(alloc, p)?;
    by_leading_theorem(recorder, logic, CONTR, &terms, p, premise)
}
