// CHOOSE, over the lemma `(?) P |- (!x. P x ==> q) ==> q`.
ghost use Rattle.std.specs.Prelude.{◌≡◌, ◌∷◌, ◌++◌, ℕ, List, [], Some, IfOk, IfErr, not, ◌&&◌};
ghost use Rattle.std.specs.List.{list_any};
ghost use Rattle.hol_model.specs.declared.fault.Fault.TheVariants.{Memory};
ghost use Rattle.hol_model.specs.Terms.HolType.{HolType, bool_type};
ghost use Rattle.hol_model.specs.Logic.Logic.{implication};
ghost use Rattle.hol_model.specs.Terms.NamedTerm.{NamedTerm, variable, combination, type_of};
ghost use Rattle.hol_model.specs.Terms.NamedTerm as named;
ghost use Rattle.hol_model.specs.Terms.Nameless.{image, same_term};
ghost use Rattle.hol_model.specs.Logic.Derivable.{without};
ghost use Rattle.hol_model.specs.Derived.DerivedRules.{AnswersStated, images, is_roomy, terms_of_theorem, choose_outcome};
ghost use Rattle.hol_model.specs.declared.rule.Rule.TheVariants as rules;
ghost use Rattle.hol_journal.specs.Journal.{IsMade, theorem_in};
ghost use Rattle.hol_prelude.specs.HasLogic.{HasLogic};
ghost use Rattle.hol_journal.specs.Growth.{Continues};
ghost use Rattle.hol_equal.specs.Sequents.{DerivesIf};
ghost use Rattle.hol_equal.specs.Inferred.{Infers};
ghost use Rattle.hol_quant.specs.Witnesses.{IsAtVariable, MayChoose, existential, redex, witnessed, leave_room};

use crate::generalization::gen_in_room;
use crate::instances::by_formula_lemma;
use crate::parts::quantified_parts;
use hol_alpha::aconv;
use hol_bool::{disch_in_room, mp_known};
use hol_equal::{Made, assume_known, conclusion_of, converted_known, cut, eq_mp_known};
use hol_journal::{Rec, Recorder};
use hol_model::Fault;
use hol_prelude::{Bool, numbers, theorem_of};
use hol_subst::vsubst;
use hol_terms::{Term, is_free};
use hol_types::Ty;
use std::alloc::Global;

// `p[v/x]`, for a variable of the type of `x`.
fn body_at(alloc: Global, body: &Term, binder: &Term, argument: &Term) -> Result<Term, Fault>
    ensures ok { IfOk result (λ made. (name other : List ℕ) (ty : HolType) → type_of body.now ≡ Some bool_type → binder.now ≡ variable name ty
        → argument.now ≡ variable other ty → image made ≡ witnessed name ty body.now argument.now) }
    ensures err { IfErr result (λ fault. (name other : List ℕ) (ty : HolType) → type_of body.now ≡ Some bool_type → binder.now ≡ variable name ty
        → argument.now ≡ variable other ty → fault ≡ Memory) }
{
    body.well_formed();
    let new = argument.copy(alloc)?;
    let old = binder.copy(alloc)?;
    vsubst(alloc, &[(new, old)], body)
}

// Whether the variable is free in a hypothesis other than the witness.
fn is_free_in_others(hypotheses: &[Term], witness: &Term, name: &str, ty: &Ty) -> bool
    ensures { result ≡ list_any (λ hypothesis. not (same_term (image hypothesis) (image witness.now)) && named.is_free name.now ty.now hypothesis) hypotheses.now }
{
    hypotheses.iter().any(|hypothesis| !aconv(hypothesis, witness) && is_free(hypothesis, name, ty))
}

// From `(\x. p) v`, as a hypothesis, `p[v/x]`.
#[tactic(auto, using(hol_equal::proofs::StepLemmas::still_made, hol_equal::proofs::StepLemmas::now_made))]
fn from_redex(
    recorder: &mut Recorder,
    function: &Term,
    binder: &Term,
    argument: &Term,
    applied: &Term,
) -> Made
    requires at { IsAtVariable recorder.old.theory function.now binder.now argument.now }
    requires applied { applied.now ≡ combination function.now argument.now }
    ensures continues { Continues recorder.old recorder.new result }
    ensures derives { (at : IsAtVariable recorder.old.theory function.now binder.now argument.now)
        → applied.now ≡ combination function.now argument.now → DerivesIf (is_roomy (existential at.name at.ty at.body)) result
        (redex at.name at.ty at.body argument.now ∷ []) (witnessed at.name at.ty at.body argument.now) }
{
    let equation = converted_known(recorder, function, binder, argument)?;
    let assumed = assume_known(recorder, applied)?;
    eq_mp_known(recorder, &equation, &assumed)
}

// From `q`, `(\x. p) v ==> q` without the hypothesis `p[v/x]`.
#[tactic(auto, using(hol_equal::proofs::StepLemmas::still_made, hol_equal::proofs::StepLemmas::now_made, hol_bool::proofs::PreludeSteps::still_logical))]
fn implied_by_redex(
    recorder: &mut Recorder,
    logic: &Bool,
    function: &Term,
    binder: &Term,
    argument: &Term,
    premise: &Rec,
) -> Made
    requires logic { HasLogic recorder.old logic.now }
    requires at { IsAtVariable recorder.old.theory function.now binder.now argument.now }
    requires premise { IsMade recorder.old premise.now }
    ensures continues { Continues recorder.old recorder.new result }
    ensures derives { (at : IsAtVariable recorder.old.theory function.now binder.now argument.now)
        → DerivesIf (leave_room at.name at.ty at.body premise.now.theorem.conclusion) result
        (without (redex at.name at.ty at.body argument.now) (redex at.name at.ty at.body argument.now
        ∷ without (witnessed at.name at.ty at.body argument.now) (images premise.now.theorem)))
        (implication (redex at.name at.ty at.body argument.now) (image premise.now.theorem.conclusion)) }
{
    let alloc = recorder.alloc();
    let applied = Term::mk_comb(alloc, function, argument)?;
    let witness = from_redex(recorder, function, binder, argument, &applied)?;
    let consequent = cut(recorder, &witness, premise)?;
    disch_in_room(recorder, logic, &applied, &consequent)
}

// CHOOSE, of parts that pass its tests.
#[tactic(auto, using(hol_equal::proofs::StepLemmas::still_made, hol_equal::proofs::StepLemmas::now_made, hol_bool::proofs::PreludeSteps::still_logical, hol_bool::proofs::PreludeSteps::still_formula))]
fn choose_in_room(
    recorder: &mut Recorder,
    logic: &Bool,
    function: &Term,
    binder: &Term,
    argument: &Term,
    first: &Rec,
    second: &Rec,
) -> Made
    requires logic { HasLogic recorder.old logic.now }
    requires choice { MayChoose recorder.old.theory function.now binder.now argument.now first.now.theorem second.now.theorem }
    requires first { IsMade recorder.old first.now }
    requires second { IsMade recorder.old second.now }
    ensures continues { Continues recorder.old recorder.new result }
    ensures names { IfOk result (λ made. made.theorem.conclusion ≡ second.now.theorem.conclusion) }
    ensures derives { (choice : MayChoose recorder.old.theory function.now binder.now argument.now first.now.theorem second.now.theorem)
        → DerivesIf (leave_room choice.at.name choice.at.ty choice.at.body second.now.theorem.conclusion) result
        (images first.now.theorem ++ without (witnessed choice.at.name choice.at.ty choice.at.body argument.now) (images second.now.theorem))
        (image second.now.theorem.conclusion) }
{
    let formula = conclusion_of(recorder, second);
    let lemma = theorem_of(recorder, logic, numbers::CHOOSE);
    let sufficient = implied_by_redex(recorder, logic, function, binder, argument, second)?;
    let always = gen_in_room(recorder, logic, argument, &sufficient)?;
    let cases = by_formula_lemma(recorder, lemma, function, argument, formula, first)?;
    mp_known(recorder, logic, formula, &cases, &always)
}

/// CHOOSE: from `?x. p` and `q`, `q` without the hypothesis `p[v/x]`, by the lemma `(?) P |- (!x. P x ==> q) ==> q`,
/// in at most 40 steps. Refused where the term is no variable, then where the first conclusion is no `?x. p`, then where the
/// variable's type is not that of `x`, and then where it is free in `?x. p`, in `q` or in another hypothesis of `q`.
#[tactic(auto, using(crate::proofs::InferredQuantifiers::infers_choose, hol_equal::proofs::StepLemmas::still_made, hol_equal::proofs::StepLemmas::now_made))]
pub fn choose(
    recorder: &mut Recorder,
    logic: &Bool,
    variable: &Term,
    first: &Rec,
    second: &Rec,
) -> Made
    requires logic { HasLogic recorder.old logic.now }
    requires first { IsMade recorder.old first.now }
    requires second { IsMade recorder.old second.now }
    ensures continues { Continues recorder.old recorder.new result }
    ensures outcome { AnswersStated (theorem_in result) (image variable.now ∷ terms_of_theorem first.now.theorem
        ++ terms_of_theorem second.now.theorem) (choose_outcome recorder.old.theory variable.now first.now.theorem second.now.theorem) }
    ensures inferred { Infers recorder.old.theory (rules.Choose variable.now) (first.now.theorem ∷ second.now.theorem ∷ []) (theorem_in result) }
{
    let alloc = recorder.alloc();
    let formula = conclusion_of(recorder, first);
    let Some((name, ty)) = variable.dest_var() else {
        return Err(Fault::NotVariable);
    };
    let Some(parts) = quantified_parts(formula, "?") else {
        return Err(Fault::BadShape);
    };
    if !parts.binder.ty().eq(ty) {
        return Err(Fault::TypeMismatch);
    }
    let witness = body_at(alloc, parts.body, parts.binder, variable)?;
    let theorem = recorder.thm(second);
    if is_free(formula, name, ty) {
        return Err(Fault::FreeInHypothesis);
    }
    if is_free(theorem.concl(), name, ty) {
        return Err(Fault::FreeInHypothesis);
    }
    if is_free_in_others(theorem.hyps(), &witness, name, ty) {
        return Err(Fault::FreeInHypothesis);
    }
    choose_in_room(
        recorder,
        logic,
        parts.predicate,
        parts.binder,
        variable,
        first,
        second,
    )
}
