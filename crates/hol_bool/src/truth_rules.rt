// Rules of truth.
ghost use Rattle.std.specs.Prelude.{[], ◌∷◌};
ghost use Rattle.hol_model.specs.Derived.DerivedRules.{AnswersStated, terms_of_theorem, eqt_intro_outcome, eqt_elim_outcome};
ghost use Rattle.hol_model.specs.declared.rule.Rule.TheVariants as rules;
ghost use Rattle.hol_journal.specs.Journal.{IsMade, theorem_in};
ghost use Rattle.hol_prelude.specs.HasLogic.{HasLogic};
ghost use Rattle.hol_journal.specs.Growth.{Continues};
ghost use Rattle.hol_equal.specs.Inferred.{Infers};

use crate::formula_terms::{equivalence, for_p, is_named, truth};
use crate::prelude_rules::by_leading_theorem;
use hol_equal::equality::equation_parts;
use hol_equal::{Made, conclusion_of};
use hol_journal::{Rec, Recorder};
use hol_model::Fault;
use hol_prelude::Bool;
use hol_prelude::numbers::{EQT_ELIM, EQT_INTRO};

/// EQT_INTRO: from `p`, `p <=> T`, in at most five steps.
#[tactic(auto, using(crate::proofs::InferredRules::infers_eqt_intro))]
pub fn eqt_intro(recorder: &mut Recorder, logic: &Bool, premise: &Rec) -> Made
    requires logic { HasLogic recorder.old logic.now }
    requires premise { IsMade recorder.old premise.now }
    ensures continues { Continues recorder.old recorder.new result }
    ensures outcome { AnswersStated (theorem_in result) (terms_of_theorem premise.now.theorem) (eqt_intro_outcome premise.now.theorem) }
    ensures inferred { Infers recorder.old.theory rules.EqtIntro (premise.now.theorem ∷ []) (theorem_in result) }
{
    let alloc = recorder.alloc();
    let conclusion = conclusion_of(recorder, premise);
    let truth = truth(alloc)?;
    let stated = equivalence(alloc, conclusion, &truth)?;
    let terms = for_p(alloc, conclusion)?;
    by_leading_theorem(recorder, logic, EQT_INTRO, &terms, &stated, premise)
}

/// EQT_ELIM: from `p <=> T`, `p`, in at most five steps. Refused where the conclusion is no equation with `T` on its right.
#[tactic(auto, using(crate::proofs::InferredRules::infers_eqt_elim))]
pub fn eqt_elim(recorder: &mut Recorder, logic: &Bool, premise: &Rec) -> Made
    requires logic { HasLogic recorder.old logic.now }
    requires premise { IsMade recorder.old premise.now }
    ensures continues { Continues recorder.old recorder.new result }
    ensures outcome { AnswersStated (theorem_in result) (terms_of_theorem premise.now.theorem) (eqt_elim_outcome premise.now.theorem) }
    ensures inferred { Infers recorder.old.theory rules.EqtElim (premise.now.theorem ∷ []) (theorem_in result) }
{
    let alloc = recorder.alloc();
    let conclusion = conclusion_of(recorder, premise);
    let Some(parts) = equation_parts(conclusion) else {
        return Err(Fault::BadShape);
    };
    if !is_named(parts.right, "T") {
        return Err(Fault::BadShape);
    }
    let terms = for_p(alloc, parts.left)?;
    by_leading_theorem(recorder, logic, EQT_ELIM, &terms, parts.left, premise)
}
