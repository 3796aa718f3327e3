// Derived rules without connectives.
ghost use Rattle.std.specs.Prelude.{◌≡◌, List, [], ◌∷◌, ◌++◌, IfOk, IfErr, IfSome, Some};
ghost use Rattle.std.specs.List.{list_any};
ghost use Rattle.std.specs.Option.{is_some};
ghost use Rattle.hol_model.specs.Terms.NamedTerm.{combination, dest_abstraction};
ghost use Rattle.hol_model.specs.Logic.NamedLogic.{dest_redex};
ghost use Rattle.hol_model.specs.Terms.Nameless.{Nameless, image, same_term};
ghost use Rattle.hol_model.specs.Terms.HolType.{bool_type};
ghost use Rattle.hol_model.specs.Terms.Measures.{nameless_within_limits};
ghost use Rattle.hol_model.specs.Logic.Derivable.{without, nameless_equation};
ghost use Rattle.hol_model.specs.Derived.DerivedRules.{AnswersStated, terms_of_theorem, sym_outcome, add_assum_outcome, prove_hyp_outcome, beta_conv_outcome};
ghost use Rattle.hol_model.specs.declared.rule.Rule.TheVariants as rules;
ghost use Rattle.hol_model.specs.declared.fault.Fault.TheVariants.{Memory};
ghost use Rattle.hol_kernel.specs.Fits.{DeductFits};
ghost use Rattle.hol_journal.specs.Journal.{IsMade, theorem_in};
ghost use Rattle.hol_equal.specs.Formulas.{IsFormula};
ghost use Rattle.hol_journal.specs.Growth.{Continues, IsHeld};
ghost use Rattle.hol_equal.specs.Sequents.{Shows, DerivesIf, reflexive_fits};
ghost use Rattle.hol_equal.specs.Inferred.{Infers};
ghost use Rattle.hol_equal.specs.Conversions.{beta_converted_outcome};

use crate::conversion::converted_known;
use crate::steps::{self, Made, conclusion_of};
use hol_alpha::aconv;
use hol_journal::{Rec, Recorder, theorems_hold};
pub use hol_kernel::equation_parts;
use hol_model::Fault;
use hol_terms::{Parts, Term};

// The parts of a redex: the abstraction, its variable and body, and the argument.
#[derive(Clone, Copy)]
struct Redex<'a> {
    function: &'a Term,
    binder: &'a Term,
    body: &'a Term,
    argument: &'a Term,
}

// The parts of the term, where it is an abstraction that is applied.
fn redex_parts(term: &Term) -> Option<Redex<'_>>
    ensures whole { IfSome result (λ redex. term.now ≡ combination redex.function.now redex.argument.now) }
    ensures abstraction { IfSome result (λ redex. dest_abstraction redex.function.now ≡ Some (redex.binder.now, redex.body.now)) }
    ensures found { is_some result ≡ is_some (dest_redex term.now) }
{
    match term.parts() {
        Parts::Combination(function, argument) => match function.dest_abs() {
            Some((binder, body)) => Some(Redex {
                function,
                binder,
                body,
                argument,
            }),
            None => None,
        },
        _ => None,
    }
}

/// SYM: from `a = b`, `b = a`, in five steps of the kernel's rules. Refused where the conclusion is no equation.
#[tactic(auto, using(crate::proofs::InferredEquality::infers_sym))]
pub fn sym(recorder: &mut Recorder, premise: &Rec) -> Made
    requires { IsMade recorder.old premise.now }
    ensures continues { Continues recorder.old recorder.new result }
    ensures outcome { AnswersStated (theorem_in result) (terms_of_theorem premise.now.theorem) (sym_outcome premise.now.theorem) }
    ensures inferred { Infers recorder.old.theory rules.Sym (premise.now.theorem ∷ []) (theorem_in result) }
{
    let Some(parts) = equation_parts(conclusion_of(recorder, premise)) else {
        return Err(Fault::NotEquation);
    };
    let same = steps::refl_known(recorder, parts.relation)?;
    let applied = steps::mk_comb(recorder, &same, premise)?;
    let reflexive = steps::refl_known(recorder, parts.left)?;
    let congruence = steps::mk_comb(recorder, &applied, &reflexive)?;
    steps::eq_mp_known(recorder, &congruence, &reflexive)
}

/// The theorem with this conclusion, which differs from its own in the names of bound variables alone, in two
/// steps. Walks the term; where a proof shows that the theory knows it, and that the two fit, `named_same`.
pub fn named(recorder: &mut Recorder, term: &Term, premise: &Rec) -> Made
    requires { IsMade recorder.old premise.now }
    ensures continues { Continues recorder.old recorder.new result }
    ensures names { IfOk result (λ made. made.theorem.conclusion ≡ term.now) }
    ensures derives { (h : List Nameless) → Shows premise.now.theorem h (image term.now) → DerivesIf (reflexive_fits (image term.now)) result h (image term.now) }
{
    let _premise = recorder.thm(premise).concl();
    let _type = term.ty();
    recorder.theory_is_legal();
    let reflexive = steps::refl(recorder, term)?;
    steps::eq_mp(recorder, &reflexive, premise)
}

/// The theorem with this conclusion, which differs from its own in the names of bound variables alone: itself where nothing
/// is bound, else in two steps. Of a theorem on the recorder's theory, and a formula that the theory knows: it is not walked
/// for it, and the two are not compared.
#[tactic(auto, using(crate::proofs::Exact::exactness))]
pub fn named_same(recorder: &mut Recorder, term: &Term, premise: &Rec) -> Made
    requires premise { IsHeld recorder.old premise.now }
    requires formula { IsFormula recorder.old.theory term.now }
    requires same { image premise.now.theorem.conclusion ≡ image term.now }
    ensures continues { Continues recorder.old recorder.new result }
    ensures names { IfOk result (λ made. made.theorem.conclusion ≡ term.now) }
    ensures derives { (h : List Nameless) → Shows premise.now.theorem h (image term.now) → DerivesIf (reflexive_fits (image term.now)) result h (image term.now) }
{
    if !term.has_binders() {
        return kept(recorder, premise);
    }
    renamed(recorder, term, premise)
}

// The same theorem.
fn kept(recorder: &mut Recorder, premise: &Rec) -> Made
    requires { IsHeld recorder.old premise.now }
    ensures continues { Continues recorder.old recorder.new result }
    ensures ok { IfOk result (λ made. made ≡ premise.now) }
    ensures err { IfErr result (λ fault. fault ≡ Memory) }
{
    premise.copy(recorder.alloc())
}

/// The theorem with this conclusion, of the same image as its own, by REFL and EQ_MP, also where nothing is bound. The theory
/// knows the formula, which is not walked for it, and the two are not compared.
pub fn renamed(recorder: &mut Recorder, term: &Term, premise: &Rec) -> Made
    requires premise { IsMade recorder.old premise.now }
    requires formula { IsFormula recorder.old.theory term.now }
    requires same { image premise.now.theorem.conclusion ≡ image term.now }
    ensures continues { Continues recorder.old recorder.new result }
    ensures names { IfOk result (λ made. made.theorem.conclusion ≡ term.now) }
    ensures derives { (h : List Nameless) → Shows premise.now.theorem h (image term.now) → DerivesIf (reflexive_fits (image term.now)) result h (image term.now) }
{
    let reflexive = steps::refl_known(recorder, term)?;
    steps::eq_mp_known(recorder, &reflexive, premise)
}

/// From `p` and `q`, `q`, with the hypotheses of the first, and those of the second but `p`, in two steps.
pub fn cut(recorder: &mut Recorder, first: &Rec, second: &Rec) -> Made
    requires first { IsMade recorder.old first.now }
    requires second { IsMade recorder.old second.now }
    ensures continues { Continues recorder.old recorder.new result }
    ensures names { IfOk result (λ made. made.theorem.conclusion ≡ second.now.theorem.conclusion) }
    ensures derives { (h k : List Nameless) (p q : Nameless) → Shows first.now.theorem h p → Shows second.now.theorem k q
        → DerivesIf (nameless_within_limits (nameless_equation bool_type p q)) result (h ++ without p k) q }
{
    theorems_hold(first, second);
    let equivalence = steps::deduct_antisym(recorder, first, second)?;
    steps::eq_mp_known(recorder, &equivalence, first)
}

/// From `p` and `q`, `q`, as `cut`, where the second theorem has no hypothesis but `p`, which is not compared for it.
pub fn cut_known(recorder: &mut Recorder, first: &Rec, second: &Rec) -> Made
    requires first { IsMade recorder.old first.now }
    requires second { IsMade recorder.old second.now }
    requires fits { DeductFits first.now.theorem second.now.theorem }
    ensures continues { Continues recorder.old recorder.new result }
    ensures names { IfOk result (λ made. made.theorem.conclusion ≡ second.now.theorem.conclusion) }
    ensures derives { (h k : List Nameless) (p q : Nameless) → Shows first.now.theorem h p → Shows second.now.theorem k q
        → DerivesIf (nameless_within_limits (nameless_equation bool_type p q)) result (h ++ without p k) q }
{
    theorems_hold(first, second);
    let equivalence = steps::deduct_antisym_known(recorder, first, second)?;
    steps::eq_mp_known(recorder, &equivalence, first)
}

/// ADD_ASSUM: from `q`, `q` with the hypothesis `p`, in three steps. Refused where `p` is not of type `bool`, and then
/// where the theory does not know a type or a constant of it. Walks `p`; where a proof shows that it is a formula that the
/// theory knows, `add_assum_known`.
#[tactic(auto, using(crate::proofs::InferredEquality::infers_add_assum))]
pub fn add_assum(recorder: &mut Recorder, p: &Term, premise: &Rec) -> Made
    requires { IsMade recorder.old premise.now }
    ensures continues { Continues recorder.old recorder.new result }
    ensures outcome { AnswersStated (theorem_in result) (image p.now ∷ terms_of_theorem premise.now.theorem) (add_assum_outcome recorder.old.theory p.now premise.now.theorem) }
    ensures inferred { Infers recorder.old.theory (rules.AddAssum p.now) (premise.now.theorem ∷ []) (theorem_in result) }
{
    let _type = p.ty();
    let assumed = steps::assume(recorder, p)?;
    cut(recorder, &assumed, premise)
}

/// ADD_ASSUM of a formula that the theory knows, which is not walked for it, in three steps.
#[tactic(auto, using(crate::proofs::InferredEquality::infers_add_assum))]
pub fn add_assum_known(recorder: &mut Recorder, p: &Term, premise: &Rec) -> Made
    requires premise { IsMade recorder.old premise.now }
    requires formula { IsFormula recorder.old.theory p.now }
    ensures continues { Continues recorder.old recorder.new result }
    ensures outcome { AnswersStated (theorem_in result) (image p.now ∷ terms_of_theorem premise.now.theorem) (add_assum_outcome recorder.old.theory p.now premise.now.theorem) }
    ensures inferred { Infers recorder.old.theory (rules.AddAssum p.now) (premise.now.theorem ∷ []) (theorem_in result) }
{
    let _type = p.ty();
    let assumed = steps::assume_known(recorder, p)?;
    cut(recorder, &assumed, premise)
}

/// PROVE_HYP: from `p` and `q`, `q` without the hypothesis `p`, and with the hypotheses of the first where `p` is one of
/// the second's, in two steps.
#[tactic(auto, using(crate::proofs::InferredEquality::infers_prove_hyp))]
pub fn prove_hyp(recorder: &mut Recorder, first: &Rec, second: &Rec) -> Made
    requires first { IsMade recorder.old first.now }
    requires second { IsMade recorder.old second.now }
    ensures continues { Continues recorder.old recorder.new result }
    ensures outcome { AnswersStated (theorem_in result) (terms_of_theorem first.now.theorem ++ terms_of_theorem second.now.theorem) (prove_hyp_outcome first.now.theorem second.now.theorem) }
    ensures inferred { Infers recorder.old.theory rules.ProveHyp (first.now.theorem ∷ second.now.theorem ∷ []) (theorem_in result) }
{
    let p = recorder.thm(first).concl();
    let theorem = recorder.thm(second);
    if is_alpha_among(p, theorem.hyps()) {
        return cut(recorder, first, second);
    }
    cut(recorder, second, second)
}

// Whether the term is one of a list, up to the names of bound variables.
fn is_alpha_among(term: &Term, terms: &[Term]) -> bool
    ensures { result ≡ list_any (λ other. same_term (image term.now) (image other)) terms.now }
{
    terms.iter().any(|other| aconv(term, other))
}

// BETA_CONV up to the names of bound variables: BETA at the abstraction's own variable, and the argument for it.
fn beta_converted(recorder: &mut Recorder, term: &Term) -> Made
    ensures continues { Continues recorder.old recorder.new result }
    ensures outcome { AnswersStated (theorem_in result) (image term.now ∷ []) (beta_converted_outcome recorder.old.theory term.now) }
{
    let _type = term.ty();
    let Some(redex) = redex_parts(term) else {
        return Err(Fault::BadShape);
    };
    match recorder.theory().first_unknown(term) {
        Some(fault) => return Err(fault),
        None => {}
    }
    converted_known(recorder, redex.function, redex.binder, redex.argument)
}

/// BETA_CONV: for `(\x. b) a` the theorem `(\x. b) a = b[a/x]`, the left side as it is. Refused where the term is no
/// abstraction that is applied, and then where the theory does not know a type or a constant of it.
#[tactic(auto, using(crate::proofs::InferredEquality::infers_beta_conv))]
pub fn beta_conv(recorder: &mut Recorder, term: &Term) -> Made
    ensures continues { Continues recorder.old recorder.new result }
    ensures outcome { AnswersStated (theorem_in result) (image term.now ∷ []) (beta_conv_outcome recorder.old.theory term.now) }
    ensures inferred { Infers recorder.old.theory (rules.BetaConv term.now) [] (theorem_in result) }
{
    let _type = term.ty();
    let converted = beta_converted(recorder, term)?;
    let same = steps::refl_known(recorder, term)?;
    steps::trans_known(recorder, &same, &converted)
}
