// GEN, over the lemmas `p |- p <=> T` and `P = (\x. T) |- (!) P`.
ghost use Rattle.std.specs.Prelude.{◌≡◌, ◌∷◌, ℕ, List, [], Some, IfOk, IfErr, codes};
ghost use Rattle.hol_model.specs.declared.fault.Fault.TheVariants.{Memory};
ghost use Rattle.hol_model.specs.Terms.HolType.{HolType, bool_type};
ghost use Rattle.hol_model.specs.Logic.Logic.{forall_name, predicate, quantifier};
ghost use Rattle.hol_model.specs.Terms.Measures.{nameless_within_limits};
ghost use Rattle.hol_model.specs.Logic.NamedLogic.{true_term};
ghost use Rattle.hol_model.specs.Terms.NamedTerm.{variable, constant, combination, abstraction, type_of};
ghost use Rattle.hol_model.specs.Terms.Nameless.{free, const, app, image};
ghost use Rattle.hol_model.specs.Logic.Derivable.{nameless_equation};
ghost use Rattle.hol_model.specs.Kernel.Rules.{is_free_in_hypotheses};
ghost use Rattle.hol_model.specs.Derived.DerivedRules.{AnswersStated, images, terms_of_theorem, gen_outcome};
ghost use Rattle.hol_model.specs.declared.rule.Rule.TheVariants as rules;
ghost use Rattle.hol_journal.specs.Journal.{IsMade, theorem_in};
ghost use Rattle.hol_prelude.specs.HasLogic.{HasLogic};
ghost use Rattle.hol_equal.specs.Room.{Room, FitsIf};
ghost use Rattle.hol_journal.specs.Growth.{Continues};
ghost use Rattle.hol_equal.specs.Sequents.{Shows, DerivesIf, IsPast};
ghost use Rattle.hol_equal.specs.Inferred.{Infers};
ghost use Rattle.hol_quant.specs.PredicateLemmas.{is_always, over_predicate};
ghost use Rattle.hol_quant.specs.Universals.{IsKnownVariable, IsAbstracted, for_all, MayGeneralize, FitsForAll};

use crate::instances::by_predicate_lemma;
use hol_bool::formula_pair;
use hol_equal::{Made, abs, by_fitting_lemma, conclusion_of, named_same};
use hol_journal::{Rec, Recorder};
use hol_model::Fault;
use hol_prelude::{Bool, numbers, theorem_of};
use hol_terms::{Term, is_free};
use hol_types::Ty;
use std::alloc::Global;

// From `p`, `p <=> T`.
pub(crate) fn equal_to_truth(recorder: &mut Recorder, logic: &Bool, premise: &Rec) -> Made
    requires logic { HasLogic recorder.old logic.now }
    requires premise { IsMade recorder.old premise.now }
    ensures continues { Continues recorder.old recorder.new result }
    ensures derives { (room : Room) → FitsIf room (image premise.now.theorem.conclusion)
        → DerivesIf room result (images premise.now.theorem) (nameless_equation bool_type (image premise.now.theorem.conclusion) (image true_term)) }
{
    let alloc = recorder.alloc();
    recorder.theory_is_legal();
    let lemma = theorem_of(recorder, logic, numbers::EQT_INTRO);
    let of_formula = formula_pair(alloc, recorder.thm(premise).concl(), "p")?;
    let terms = [of_formula];
    by_fitting_lemma(recorder, &[], &terms, lemma, premise)
}

// `!x. p`, from `\x. p`.
fn universal(alloc: Global, function: &Term) -> Result<Term, Fault>
    ensures ok { IfOk result (λ formula. (ty : HolType) → type_of function.now ≡ Some (predicate ty) → formula ≡ combination (constant forall_name (quantifier ty)) function.now) }
    ensures err { IfErr result (λ fault. (ty : HolType) → type_of function.now ≡ Some (predicate ty)
        → IsPast fault (nameless_within_limits (app (const forall_name (quantifier ty)) (image function.now)))) }
{
    let boolean = Ty::boolean(alloc)?;
    let ty = Ty::fun(alloc, function.ty(), &boolean)?;
    let quantifier = Term::mk_const(alloc, "!", &ty)?;
    Term::mk_comb(alloc, &quantifier, function)
}

// Whether a variable is free in some hypothesis.
fn is_free_in_some(hypotheses: &[Term], name: &str, ty: &Ty) -> bool
    ensures { result ≡ is_free_in_hypotheses name.now ty.now hypotheses.now }
{
    hypotheses
        .iter()
        .any(|hypothesis| is_free(hypothesis, name, ty))
}

// From `p` and the term `\x. p`, `!x. p` up to the names of bound variables, with the room that it needs.
#[tactic(auto, using(hol_equal::proofs::StepLemmas::still_made, hol_equal::proofs::StepLemmas::now_made))]
fn over_all(
    recorder: &mut Recorder,
    logic: &Bool,
    binder: &Term,
    function: &Term,
    premise: &Rec,
) -> Made
    requires logic { HasLogic recorder.old logic.now }
    requires premise { IsMade recorder.old premise.now }
    requires function { IsAbstracted recorder.old.theory binder.now premise.now.theorem.conclusion function.now }
    ensures continues { Continues recorder.old recorder.new result }
    ensures derives { (name : List ℕ) (ty : HolType) (room : Room) → MayGeneralize recorder.old.theory premise.now.theorem binder.now name ty
        → function.now ≡ abstraction name ty premise.now.theorem.conclusion → FitsForAll room name ty premise.now.theorem.conclusion
        → DerivesIf room result (images premise.now.theorem) (for_all name ty premise.now.theorem.conclusion) }
{
    let _formula = conclusion_of(recorder, premise);
    let lemma = theorem_of(recorder, logic, numbers::GEN);
    let equal = equal_to_truth(recorder, logic, premise)?;
    let always = abs(recorder, binder, &equal)?;
    by_predicate_lemma(recorder, lemma, function, binder, &always)
}

// GEN, with the room that it needs: from `p`, `!x. p` up to the names of bound variables.
pub(crate) fn gen_in_room(
    recorder: &mut Recorder,
    logic: &Bool,
    binder: &Term,
    premise: &Rec,
) -> Made
    requires logic { HasLogic recorder.old logic.now }
    requires premise { IsMade recorder.old premise.now }
    requires variable { IsKnownVariable recorder.old.theory binder.now }
    ensures continues { Continues recorder.old recorder.new result }
    ensures derives { (name : List ℕ) (ty : HolType) (room : Room) → MayGeneralize recorder.old.theory premise.now.theorem binder.now name ty
        → FitsForAll room name ty premise.now.theorem.conclusion → DerivesIf room result (images premise.now.theorem)
        (for_all name ty premise.now.theorem.conclusion) }
{
    let alloc = recorder.alloc();
    let formula = conclusion_of(recorder, premise);
    let function = Term::mk_abs(alloc, binder, formula)?;
    over_all(recorder, logic, binder, &function, premise)
}

/// GEN: from `p`, `!x. p`, by the lemmas `p |- p <=> T` and `P = (\x. T) |- (!) P`, in ten steps. Refused where the
/// term is no variable, then where the theory does not know a type of its type, and then where it is free in a
/// hypothesis.
#[tactic(auto, using(crate::proofs::InferredQuantifiers::infers_gen))]
pub fn generalize(recorder: &mut Recorder, logic: &Bool, binder: &Term, premise: &Rec) -> Made
    requires logic { HasLogic recorder.old logic.now }
    requires premise { IsMade recorder.old premise.now }
    ensures continues { Continues recorder.old recorder.new result }
    ensures outcome { AnswersStated (theorem_in result) (terms_of_theorem premise.now.theorem) (gen_outcome recorder.old.theory binder.now premise.now.theorem) }
    ensures inferred { Infers recorder.old.theory (rules.Gen binder.now) (premise.now.theorem ∷ []) (theorem_in result) }
{
    let alloc = recorder.alloc();
    let Some((name, ty)) = binder.dest_var() else {
        return Err(Fault::NotVariable);
    };
    if !recorder.theory().known(binder) {
        return Err(Fault::UnknownType);
    }
    let theorem = recorder.thm(premise);
    if is_free_in_some(theorem.hyps(), name, ty) {
        return Err(Fault::FreeInHypothesis);
    }
    recorder.theory_is_legal();
    let function = Term::mk_abs(alloc, binder, theorem.concl())?;
    let formula = universal(alloc, &function)?;
    let answer = over_all(recorder, logic, binder, &function, premise)?;
    let _answer = conclusion_of(recorder, &answer);
    named_same(recorder, &formula, &answer)
}
