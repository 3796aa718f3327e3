// SPEC, over the lemma `(!) P |- P x`.
ghost use Rattle.std.specs.Prelude.{◌≡◌, ◌∷◌, [], Some};
ghost use Rattle.hol_model.specs.Logic.Logic.{forall_name, quantifier};
ghost use Rattle.hol_model.specs.Terms.Nameless.{image};
ghost use Rattle.hol_model.specs.Logic.Theory.{generic_type, type_a};
ghost use Rattle.hol_model.specs.Derived.DerivedRules.{AnswersStated, terms_of_theorem, spec_outcome};
ghost use Rattle.hol_model.specs.declared.rule.Rule.TheVariants as rules;
ghost use Rattle.hol_journal.specs.Journal.{IsMade, theorem_in};
ghost use Rattle.hol_prelude.specs.HasLogic.{HasLogic};
ghost use Rattle.hol_journal.specs.Growth.{Continues};
ghost use Rattle.hol_equal.specs.Sequents.{Shows};
ghost use Rattle.hol_equal.specs.Inferred.{Infers};
ghost use Rattle.hol_quant.specs.PredicateLemmas.{applied, over_predicate};

use crate::instances::by_predicate_lemma;
use crate::parts::quantified_parts;
use hol_bool::pass_known;
use hol_equal::{Made, conclusion_of, converted_known, eq_mp_known};
use hol_journal::{Rec, Recorder};
use hol_model::Fault;
use hol_prelude::{Bool, numbers, theorem_of};
use hol_terms::Term;

// From `!x. p`, `p[t/x]`.
pub(crate) fn spec_by_lemma(
    recorder: &mut Recorder,
    lemma: &Rec,
    term: &Term,
    premise: &Rec,
) -> Made
    requires lemma { IsMade recorder.old lemma.now }
    requires shows { Shows lemma.now.theorem (over_predicate forall_name ∷ []) applied }
    requires generic { generic_type recorder.old.theory forall_name ≡ Some (quantifier type_a) }
    requires premise { IsMade recorder.old premise.now }
    ensures continues { Continues recorder.old recorder.new result }
    ensures outcome { AnswersStated (theorem_in result) (image term.now ∷ terms_of_theorem premise.now.theorem) (spec_outcome recorder.old.theory term.now premise.now.theorem) }
{
    let formula = recorder.thm(premise).concl();
    recorder.theory_is_legal();
    let Some(parts) = quantified_parts(formula, "!") else {
        return Err(Fault::BadShape);
    };
    if !term.ty().eq(parts.binder.ty()) {
        return Err(Fault::TypeMismatch);
    }
    pass_known(recorder, term)?;
    let redex = by_predicate_lemma(recorder, lemma, parts.predicate, term, premise)?;
    let equation = converted_known(recorder, parts.predicate, parts.binder, term)?;
    eq_mp_known(recorder, &equation, &redex)
}

/// SPEC: from `!x. p`, `p[t/x]`, by the lemma `(!) P |- P x`, in seven steps. Refused where the conclusion is no
/// universal formula, then where the term is of another type than the variable, and then where the theory does not know
/// a type or a constant of the term.
#[tactic(auto, using(crate::proofs::InferredQuantifiers::infers_spec))]
pub fn spec(recorder: &mut Recorder, logic: &Bool, term: &Term, premise: &Rec) -> Made
    requires logic { HasLogic recorder.old logic.now }
    requires premise { IsMade recorder.old premise.now }
    ensures continues { Continues recorder.old recorder.new result }
    ensures outcome { AnswersStated (theorem_in result) (image term.now ∷ terms_of_theorem premise.now.theorem) (spec_outcome recorder.old.theory term.now premise.now.theorem) }
    ensures inferred { Infers recorder.old.theory (rules.Spec term.now) (premise.now.theorem ∷ []) (theorem_in result) }
{
    let _type = term.ty();
    let _conclusion = conclusion_of(recorder, premise);
    let lemma = theorem_of(recorder, logic, numbers::SPEC);
    spec_by_lemma(recorder, lemma, term, premise)
}
