// The kernel's rules by image: what each derives from theorems that show sequents.
ghost use Rattle.std.specs.Prelude.{◌≡◌, List, ℕ, [], ◌∷◌, ◌++◌, map, true, Some, None, IfOk};
ghost use Rattle.hol_model.specs.Terms.HolType.{HolType, bool_type, function_type};
ghost use Rattle.hol_model.specs.Terms.NamedTerm.{NamedTerm, variable, combination, abstraction, equation, type_of};
ghost use Rattle.hol_model.specs.Terms.Nameless.{Nameless, free, app, lam, image};
ghost use Rattle.hol_model.specs.Terms.Substitution.{close, put_all};
ghost use Rattle.hol_model.specs.Kernel.Instantiation.{instantiate_all, replacements_refusal, type_replacements_refusal};
ghost use Rattle.hol_model.specs.Kernel.Rules.{dest_equation, assume_outcome};
ghost use Rattle.hol_model.specs.Kernel.Outcome.{Answers};
ghost use Rattle.hol_model.specs.Logic.Theory.{IsKnown, IsKnownType, IsLegal};
ghost use Rattle.hol_model.specs.Logic.KnownTerm.{is_known};
ghost use Rattle.hol_model.specs.Kernel.Theorem.{IsTheorem};
ghost use Rattle.hol_model.specs.Derived.DerivedRules.{HasLeftSide};
ghost use Rattle.hol_model.specs.Logic.Derivable.{NotFreeInAny, without, nameless_equation};
ghost use Rattle.hol_kernel.specs.Fits.{TransFits, EqMpFits, DeductFits};
ghost use Rattle.hol_journal.specs.Journal.{IsMade, theorem_in};
ghost use Rattle.hol_equal.specs.Formulas.{IsFormula};
ghost use Rattle.hol_journal.specs.Growth.{Continues};
ghost use Rattle.hol_equal.specs.Sequents.{Shows, Derives, DerivesInstance, Gives};

use hol_journal::{Inference, Rec, Recorder, theorems_hold};
use hol_model::Fault;
use hol_terms::Term;
use hol_types::Ty;

/// What a rule answers: the theorem that the recorder made, or the refusal.
pub type Made = Result<Rec, Fault>;

/// The conclusion of a theorem that this recorder made.
pub fn conclusion_of<'a>(recorder: &Recorder, premise: &'a Rec) -> &'a Term
    requires { IsMade recorder.now premise.now }
    ensures value { result.now ≡ premise.now.theorem.conclusion }
    ensures formula { IsFormula recorder.now.theory premise.now.theorem.conclusion }
    ensures theorem { IsTheorem premise.now.theorem }
    ensures legal { IsLegal recorder.now.theory }
{
    recorder.theory_is_legal();
    recorder.thm(premise).concl()
}

// REFL, which walks the term.
pub(crate) fn refl(recorder: &mut Recorder, term: &Term) -> Made
    ensures continues { Continues recorder.old recorder.new result }
    ensures names { IfOk result (λ made. made.theorem.conclusion ≡ equation term.now term.now) }
    ensures derives { (ty : HolType) → IsKnown recorder.old.theory (image term.now) ty → Derives result [] (nameless_equation ty (image term.now) (image term.now)) }
{
    recorder.infer(Inference::Refl(term))
}

// REFL, of a term that the theory knows, which is not walked for it.
pub(crate) fn refl_known(recorder: &mut Recorder, term: &Term) -> Made
    requires { is_known recorder.old.theory term.now ≡ true }
    ensures continues { Continues recorder.old recorder.new result }
    ensures names { IfOk result (λ made. made.theorem.conclusion ≡ equation term.now term.now) }
    ensures derives { (ty : HolType) → IsKnown recorder.old.theory (image term.now) ty → Derives result [] (nameless_equation ty (image term.now) (image term.now)) }
{
    recorder.infer_known(Inference::Refl(term))
}

/// ASSUME, which walks the term; for a formula that the theory knows, `assume_known`.
pub fn assume(recorder: &mut Recorder, term: &Term) -> Made
    ensures continues { Continues recorder.old recorder.new result }
    ensures outcome { Answers (theorem_in result) (assume_outcome recorder.old.theory term.now) }
    ensures gives { IsKnown recorder.old.theory (image term.now) bool_type → Gives result (image term.now ∷ []) (image term.now) }
{
    recorder.infer(Inference::Assume(term))
}

/// ASSUME, of a formula that the theory knows, which is not walked for it.
pub fn assume_known(recorder: &mut Recorder, term: &Term) -> Made
    requires { IsFormula recorder.old.theory term.now }
    ensures continues { Continues recorder.old recorder.new result }
    ensures outcome { Answers (theorem_in result) (assume_outcome recorder.old.theory term.now) }
    ensures gives { IsKnown recorder.old.theory (image term.now) bool_type → Gives result (image term.now ∷ []) (image term.now) }
{
    recorder.infer_known(Inference::Assume(term))
}

// BETA, of a redex that the theory knows, which is not walked for it.
pub(crate) fn beta_known(recorder: &mut Recorder, term: &Term) -> Made
    requires { is_known recorder.old.theory term.now ≡ true }
    ensures continues { Continues recorder.old recorder.new result }
    ensures derives { (name : List ℕ) (domain codomain : HolType) (body : NamedTerm)
        → term.now ≡ combination (abstraction name domain body) (variable name domain) → type_of body ≡ Some codomain
        → IsKnown recorder.old.theory (image term.now) codomain → Derives result []
        (nameless_equation codomain (app (lam domain (close name domain (image body))) (free name domain)) (image body)) }
{
    recorder.infer_known(Inference::Beta(term))
}

/// TRANS, of theorems that show sequents. Compares the middle terms; for equations that a proof shows to fit, `trans_known`.
pub fn trans(recorder: &mut Recorder, first: &Rec, second: &Rec) -> Made
    requires first { IsMade recorder.old first.now }
    requires second { IsMade recorder.old second.now }
    ensures continues { Continues recorder.old recorder.new result }
    ensures names { IfOk result (λ made. (left : NamedTerm) → HasLeftSide left first.now.theorem.conclusion → HasLeftSide left made.theorem.conclusion) }
    ensures derives { (h k : List Nameless) (ty : HolType) (l m r : Nameless) → Shows first.now.theorem h (nameless_equation ty l m)
        → Shows second.now.theorem k (nameless_equation ty m r) → Derives result (h ++ k) (nameless_equation ty l r) }
{
    theorems_hold(first, second);
    recorder.infer(Inference::Trans(first, second))
}

/// TRANS, of equations that fit, whose middle terms are not compared for it.
pub fn trans_known(recorder: &mut Recorder, first: &Rec, second: &Rec) -> Made
    requires first { IsMade recorder.old first.now }
    requires second { IsMade recorder.old second.now }
    requires fits { TransFits first.now.theorem second.now.theorem }
    ensures continues { Continues recorder.old recorder.new result }
    ensures names { IfOk result (λ made. (left : NamedTerm) → HasLeftSide left first.now.theorem.conclusion → HasLeftSide left made.theorem.conclusion) }
    ensures derives { (h k : List Nameless) (ty : HolType) (l m r : Nameless) → Shows first.now.theorem h (nameless_equation ty l m)
        → Shows second.now.theorem k (nameless_equation ty m r) → Derives result (h ++ k) (nameless_equation ty l r) }
{
    theorems_hold(first, second);
    recorder.infer_known(Inference::Trans(first, second))
}

/// EQ_MP, of theorems that show sequents. Compares the left side with the second conclusion; for premises that a proof
/// shows to fit, `eq_mp_known`.
pub fn eq_mp(recorder: &mut Recorder, first: &Rec, second: &Rec) -> Made
    requires first { IsMade recorder.old first.now }
    requires second { IsMade recorder.old second.now }
    ensures continues { Continues recorder.old recorder.new result }
    ensures names { IfOk result (λ made. (sides : NamedTerm × NamedTerm) → dest_equation first.now.theorem.conclusion ≡ Some sides → made.theorem.conclusion ≡ sides.1) }
    ensures gives { (h k : List Nameless) (p q : Nameless) → Shows first.now.theorem h (nameless_equation bool_type p q) → Shows second.now.theorem k p → Gives result (h ++ k) q }
{
    theorems_hold(first, second);
    recorder.infer(Inference::EqMp(first, second))
}

/// EQ_MP, of an equation and its left side, which are not compared for it.
pub fn eq_mp_known(recorder: &mut Recorder, first: &Rec, second: &Rec) -> Made
    requires first { IsMade recorder.old first.now }
    requires second { IsMade recorder.old second.now }
    requires fits { EqMpFits first.now.theorem second.now.theorem }
    ensures continues { Continues recorder.old recorder.new result }
    ensures names { IfOk result (λ made. (sides : NamedTerm × NamedTerm) → dest_equation first.now.theorem.conclusion ≡ Some sides → made.theorem.conclusion ≡ sides.1) }
    ensures gives { (h k : List Nameless) (p q : Nameless) → Shows first.now.theorem h (nameless_equation bool_type p q) → Shows second.now.theorem k p → Gives result (h ++ k) q }
{
    theorems_hold(first, second);
    recorder.infer_known(Inference::EqMp(first, second))
}

/// MK_COMB, of theorems that show sequents.
pub fn mk_comb(recorder: &mut Recorder, first: &Rec, second: &Rec) -> Made
    requires first { IsMade recorder.old first.now }
    requires second { IsMade recorder.old second.now }
    ensures continues { Continues recorder.old recorder.new result }
    ensures names { IfOk result (λ made. (functions arguments : NamedTerm × NamedTerm) → dest_equation first.now.theorem.conclusion ≡ Some functions
        → dest_equation second.now.theorem.conclusion ≡ Some arguments
        → made.theorem.conclusion ≡ equation (combination functions.0 arguments.0) (combination functions.1 arguments.1)) }
    ensures derives { (h k : List Nameless) (domain codomain : HolType) (f g x y : Nameless)
        → Shows first.now.theorem h (nameless_equation (function_type domain codomain) f g)
        → Shows second.now.theorem k (nameless_equation domain x y) → Derives result (h ++ k) (nameless_equation codomain (app f x) (app g y)) }
{
    theorems_hold(first, second);
    recorder.infer(Inference::MkComb(first, second))
}

/// DEDUCT_ANTISYM_RULE of theorems that show sequents: each hypothesis that is equal to the other conclusion goes.
pub fn deduct_antisym(recorder: &mut Recorder, first: &Rec, second: &Rec) -> Made
    requires first { IsMade recorder.old first.now }
    requires second { IsMade recorder.old second.now }
    ensures continues { Continues recorder.old recorder.new result }
    ensures names { IfOk result (λ made. made.theorem.conclusion ≡ equation first.now.theorem.conclusion second.now.theorem.conclusion) }
    ensures derives { (h k : List Nameless) (p q : Nameless) → Shows first.now.theorem h p → Shows second.now.theorem k q
        → Derives result (without q h ++ without p k) (nameless_equation bool_type p q) }
{
    theorems_hold(first, second);
    recorder.infer(Inference::DeductAntisym(first, second))
}

/// DEDUCT_ANTISYM_RULE, where the second theorem has no hypothesis but the first conclusion, which is not compared for it.
pub fn deduct_antisym_known(recorder: &mut Recorder, first: &Rec, second: &Rec) -> Made
    requires first { IsMade recorder.old first.now }
    requires second { IsMade recorder.old second.now }
    requires fits { DeductFits first.now.theorem second.now.theorem }
    ensures continues { Continues recorder.old recorder.new result }
    ensures names { IfOk result (λ made. made.theorem.conclusion ≡ equation first.now.theorem.conclusion second.now.theorem.conclusion) }
    ensures derives { (h k : List Nameless) (p q : Nameless) → Shows first.now.theorem h p → Shows second.now.theorem k q
        → Derives result (without q h ++ without p k) (nameless_equation bool_type p q) }
{
    theorems_hold(first, second);
    recorder.infer_known(Inference::DeductAntisym(first, second))
}

/// ABS of a theorem that shows a sequent, over a variable of a known type that is free in no hypothesis.
pub fn abs(recorder: &mut Recorder, binder: &Term, premise: &Rec) -> Made
    requires { IsMade recorder.old premise.now }
    ensures continues { Continues recorder.old recorder.new result }
    ensures concludes { IfOk result (λ made. (name : List ℕ) (domain codomain : HolType) (s t : Nameless) → image binder.now ≡ free name domain
        → image premise.now.theorem.conclusion ≡ nameless_equation codomain s t → image made.theorem.conclusion
        ≡ nameless_equation (function_type domain codomain) (lam domain (close name domain s)) (lam domain (close name domain t))) }
    ensures derives { (h : List Nameless) (name : List ℕ) (domain codomain : HolType) (s t : Nameless) → image binder.now ≡ free name domain
        → IsKnownType recorder.old.theory domain → NotFreeInAny name domain h → Shows premise.now.theorem h (nameless_equation codomain s t)
        → Derives result h (nameless_equation (function_type domain codomain) (lam domain (close name domain s)) (lam domain (close name domain t))) }
{
    let _premise = recorder.thm(premise).concl();
    recorder.infer(Inference::Abs(binder, premise))
}

// INST, by terms of the variables' types that the theory knows, which are not walked for it.
pub(crate) fn inst_known(recorder: &mut Recorder, theta: &[(Term, Term)], premise: &Rec) -> Made
    requires premise { IsMade recorder.old premise.now }
    requires known { replacements_refusal recorder.old.theory theta.now ≡ None }
    ensures continues { Continues recorder.old recorder.new result }
    ensures derives { replacements_refusal recorder.old.theory theta.now ≡ None → (h : List Nameless) (c : Nameless) → Shows premise.now.theorem h c
        → DerivesInstance result (map (put_all theta.now) h) (put_all theta.now c) }
{
    recorder.infer_known(Inference::Inst(theta, premise))
}

// INST_TYPE, by known types.
pub(crate) fn inst_type(recorder: &mut Recorder, theta: &[(Ty, Ty)], premise: &Rec) -> Made
    requires { IsMade recorder.old premise.now }
    ensures continues { Continues recorder.old recorder.new result }
    ensures derives { type_replacements_refusal recorder.old.theory theta.now ≡ None → (h : List Nameless) (c : Nameless)
        → Shows premise.now.theorem h c → DerivesInstance result (map (instantiate_all theta.now) h) (instantiate_all theta.now c) }
{
    recorder.infer(Inference::InstType(theta, premise))
}
