// EXISTS, over the lemmas `p |- p <=> T`, `p <=> T |- p` and `P x |- (?) P`.
ghost use Rattle.std.specs.Prelude.{◌≡◌, ◌⊎◌, ◌∷◌, List, ℕ, [], Some, None, IfOk, IfErr, OnOk, codes};
ghost use Rattle.std.specs.List.{list_all};
ghost use Rattle.hol_model.specs.declared.fault.Fault.TheVariants.{Memory};
ghost use Rattle.hol_model.specs.Terms.HolType.{HolType, bool_type};
ghost use Rattle.hol_model.specs.Logic.NamedLogic.{true_term};
ghost use Rattle.hol_model.specs.Terms.NamedTerm.{variable, type_of};
ghost use Rattle.hol_model.specs.Terms.Nameless.{Nameless, free, app, image, same_term};
ghost use Rattle.hol_model.specs.Terms.Substitution.{close, fill};
ghost use Rattle.hol_model.specs.Logic.Derivable.{nameless_equation};
ghost use Rattle.hol_model.specs.Kernel.Rules.{first_unknown};
ghost use Rattle.hol_model.specs.Logic.Theory.{IsKnown};
ghost use Rattle.hol_model.specs.Derived.DerivedRules.{AnswersStated, images, is_roomy, terms_of_theorem, exists_outcome};
ghost use Rattle.hol_model.specs.declared.rule.Rule.TheVariants as rules;
ghost use Rattle.hol_journal.specs.Journal.{IsMade, theorem_in};
ghost use Rattle.hol_prelude.specs.HasLogic.{HasLogic};
ghost use Rattle.hol_equal.specs.Room.{Room, FitsIf};
ghost use Rattle.hol_journal.specs.Growth.{Continues};
ghost use Rattle.hol_equal.specs.Sequents.{Shows, DerivesIf};
ghost use Rattle.hol_equal.specs.Inferred.{Infers};
ghost use Rattle.hol_quant.specs.QuantifiedParts.{IsWitnessed, IsInstance, witnessed_terms};

use crate::generalization::equal_to_truth;
use crate::instances::by_predicate_lemma;
use crate::parts::{Quantified, quantified_parts};
use hol_alpha::aconv;
use hol_bool::{formula_pair, pass_known};
use hol_equal::{Made, by_fitting_lemma, conclusion_of, converted_known, named_same, trans_known};
use hol_journal::{Rec, Recorder};
use hol_model::Fault;
use hol_prelude::{Bool, numbers, theorem_of};
use hol_subst::vsubst;
use hol_terms::Term;
use std::alloc::Global;

// Whether the body of an abstraction, with the argument for its variable, is the other term up to the names of bound
// variables. Past the limits it is not, since the other term is within them.
fn is_body_with(
    alloc: Global,
    body: &Term,
    binder: &Term,
    argument: &Term,
    other: &Term,
) -> Result<bool, Fault>
    ensures ok { IfOk result (λ same. (name : List ℕ) (ty : HolType) → binder.now ≡ variable name ty → type_of argument.now ≡ Some ty
        → same ≡ same_term (fill (image argument.now) (close name ty (image body.now))) (image other.now)) }
    ensures err { IfErr result (λ fault. fault ≡ Memory) }
{
    let new = argument.copy(alloc)?;
    let old = binder.copy(alloc)?;
    let _body_type = body.ty();
    let _other_type = other.ty();
    other.well_formed();
    match vsubst(alloc, &[(new, old)], body) {
        Ok(instance) => Ok(aconv(&instance, other)),
        Err(Fault::TooLarge) => Ok(false),
        Err(_fault) => Err(Fault::Memory),
    }
}

// From `p <=> T`, `p`.
fn from_truth(recorder: &mut Recorder, logic: &Bool, formula: &Term, premise: &Rec) -> Made
    requires logic { HasLogic recorder.old logic.now }
    requires premise { IsMade recorder.old premise.now }
    requires known { IsKnown recorder.old.theory (image formula.now) bool_type }
    requires fits { image premise.now.theorem.conclusion ≡ nameless_equation bool_type (image formula.now) (image true_term) }
    ensures continues { Continues recorder.old recorder.new result }
    ensures derives { (room : Room) (h : List Nameless) → FitsIf room (image formula.now)
        → Shows premise.now.theorem h (nameless_equation bool_type (image formula.now) (image true_term))
        → DerivesIf room result h (image formula.now) }
{
    let alloc = recorder.alloc();
    let lemma = theorem_of(recorder, logic, numbers::EQT_ELIM);
    let of_formula = formula_pair(alloc, formula, "p")?;
    let terms = [of_formula];
    by_fitting_lemma(recorder, &[], &terms, lemma, premise)
}

// From `p[w/x]`, `(\x. p) w`.
#[tactic(auto, using(hol_bool::proofs::PreludeSteps::staying))]
fn expanded(
    recorder: &mut Recorder,
    logic: &Bool,
    function: &Term,
    binder: &Term,
    witness: &Term,
    premise: &Rec,
) -> Made
    requires logic { HasLogic recorder.old logic.now }
    requires premise { IsMade recorder.old premise.now }
    requires instance { IsInstance recorder.old.theory function.now binder.now witness.now (image premise.now.theorem.conclusion) }
    ensures continues { Continues recorder.old recorder.new result }
    ensures derives { (at : IsInstance recorder.old.theory function.now binder.now witness.now (image premise.now.theorem.conclusion))
        → DerivesIf (list_all is_roomy (witnessed_terms at.formula witness.now (image premise.now.theorem.conclusion))) result
        (images premise.now.theorem) (app (image function.now) (image witness.now)) }
{
    let alloc = recorder.alloc();
    let redex = Term::mk_comb(alloc, function, witness)?;
    let conversion = converted_known(recorder, function, binder, witness)?;
    let equal = equal_to_truth(recorder, logic, premise)?;
    let redex_equal = trans_known(recorder, &conversion, &equal)?;
    from_truth(recorder, logic, &redex, &redex_equal)
}

// From `p[w/x]`, `?x. p`.
fn exists_in_room(
    recorder: &mut Recorder,
    logic: &Bool,
    formula: &Term,
    parts: Quantified<'_>,
    witness: &Term,
    premise: &Rec,
) -> Made
    requires logic { HasLogic recorder.old logic.now }
    requires premise { IsMade recorder.old premise.now }
    requires witnessed { IsWitnessed recorder.old.theory formula.now parts.predicate.now parts.binder.now parts.body.now witness.now
        (image premise.now.theorem.conclusion) }
    ensures continues { Continues recorder.old recorder.new result }
    ensures names { IfOk result (λ made. made.theorem.conclusion ≡ formula.now) }
    ensures derives { IsWitnessed recorder.old.theory formula.now parts.entry.predicate.now parts.entry.binder.now parts.entry.body.now witness.now
        (image premise.now.theorem.conclusion) → DerivesIf (list_all is_roomy
        (witnessed_terms formula.now witness.now (image premise.now.theorem.conclusion))) result (images premise.now.theorem) (image formula.now) }
{
    let lemma = theorem_of(recorder, logic, numbers::EXISTS);
    let redex = expanded(
        recorder,
        logic,
        parts.predicate,
        parts.binder,
        witness,
        premise,
    )?;
    let answer = by_predicate_lemma(recorder, lemma, parts.predicate, witness, &redex)?;
    let _answer = conclusion_of(recorder, &answer);
    named_same(recorder, formula, &answer)
}

/// EXISTS: for `?x. p` and a witness `w`, from `p[w/x]`, `?x. p`, by the lemma `P x |- (?) P`, in fifteen steps. Refused
/// where the formula is no existential formula, then where the witness is of another type than the variable, then where
/// the theory does not know a type or a constant of the formula, then of the witness, and then where the conclusion is
/// not `p[w/x]`.
#[tactic(auto, using(crate::proofs::InferredQuantifiers::infers_exists))]
pub fn exists(
    recorder: &mut Recorder,
    logic: &Bool,
    formula: &Term,
    witness: &Term,
    premise: &Rec,
) -> Made
    requires logic { HasLogic recorder.old logic.now }
    requires premise { IsMade recorder.old premise.now }
    ensures continues { Continues recorder.old recorder.new result }
    ensures outcome { AnswersStated (theorem_in result) (image formula.now ∷ image witness.now ∷ terms_of_theorem premise.now.theorem)
        (exists_outcome recorder.old.theory formula.now witness.now premise.now.theorem) }
    ensures inferred { Infers recorder.old.theory (rules.Exists formula.now witness.now) (premise.now.theorem ∷ []) (theorem_in result) }
{
    let alloc = recorder.alloc();
    let _formula_type = formula.ty();
    let _witness_type = witness.ty();
    recorder.theory_is_legal();
    let Some(parts) = quantified_parts(formula, "?") else {
        return Err(Fault::BadShape);
    };
    if !witness.ty().eq(parts.binder.ty()) {
        return Err(Fault::TypeMismatch);
    }
    pass_known(recorder, formula)?;
    pass_known(recorder, witness)?;
    let conclusion = recorder.thm(premise).concl();
    let is_instance = is_body_with(alloc, parts.body, parts.binder, witness, conclusion)?;
    if !is_instance {
        return Err(Fault::NotAlpha);
    }
    exists_in_room(recorder, logic, formula, parts, witness, premise)
}
