// Inferences as data.
ghost use Rattle.std.specs.Prelude.{◌≡◌, true, Ok, IfOk, IfErr, OnOk, OnErr};
ghost use Rattle.std.specs.List.{list_all};
ghost use Rattle.hol_model.specs.declared.fault.Fault.TheVariants.{Memory};
ghost use Rattle.hol_model.specs.Terms.NamedTerm.{type_fits};
ghost use Rattle.hol_model.specs.Kernel.Theorem.{IsTheorem};
ghost use Rattle.hol_journal.specs.Journal.{IsRecorded, theorem_in};
ghost use Rattle.hol_journal.specs.Growth.{Continues};
ghost use Rattle.hol_journal.specs.Views.{step_of};
ghost use Rattle.hol_journal.specs.Inferences.{step_of_inference, AreMade, IsInferred, Fits, IsSoundTerm, HasSoundParts};
ghost use Rattle.hol_journal.specs.Limits.{pair_fits, type_pair_fits};

use crate::entry::Rule;
use crate::limits::{type_fit, within_limits};
use crate::recorder::{Rec, Recorder};
use hol_kernel::Thm;
use hol_model::Fault;
use hol_terms::Term;
use hol_types::Ty;
use std::alloc::Global;

/// A primitive rule of HOL Light's `fusion.ml` or an axiom, with the terms and pairs that it takes, and with the theorems,
/// which the recorder made.
#[derive(Clone, Copy)]
pub enum Inference<'a> {
    /// REFL: `|- t = t`.
    Refl(&'a Term),
    /// TRANS: from `a = b` and `b = c`, `a = c`.
    Trans(&'a Rec, &'a Rec),
    /// MK_COMB: from `f = g` and `x = y`, `f x = g y`.
    MkComb(&'a Rec, &'a Rec),
    /// ABS: from `s = t`, `(\x. s) = (\x. t)`, where `x` is free in no hypothesis.
    Abs(&'a Term, &'a Rec),
    /// BETA: `|- (\x. t) x = t`.
    Beta(&'a Term),
    /// ASSUME: `p |- p`.
    Assume(&'a Term),
    /// EQ_MP: from `p = q` and `p`, `q`.
    EqMp(&'a Rec, &'a Rec),
    /// DEDUCT_ANTISYM_RULE: from `p` and `q`, `p = q`, each without the other's conclusion among its hypotheses.
    DeductAntisym(&'a Rec, &'a Rec),
    /// INST: free variables replaced by terms of their types, all at once, by a list of pairs (new, old).
    Inst(&'a [(Term, Term)], &'a Rec),
    /// INST_TYPE: type variables replaced by types, all at once, by a list of pairs (new, old).
    InstType(&'a [(Ty, Ty)], &'a Rec),
    /// ETA: `|- (\x:A. t x) = t`.
    Eta,
    /// SELECT: `P x |- P (@ P)`.
    Select,
}

impl Recorder {
    /// The theorem of an inference, with an entry of its own. It is refused as the kernel's call of the rule. Terms are walked,
    /// and what has to be the same is compared; where a proof shows that the parts fit, `infer_known`.
    #[tactic(auto, using(crate::proofs::InferenceLemmas::recorded_inferred, crate::proofs::InferenceLemmas::inferred_continues))]
    pub fn infer(&mut self, inference: Inference<'_>) -> Result<Rec, Fault>
        requires { AreMade self.old inference }
        ensures outcome { IsInferred self.old.theory inference.entry (theorem_in result) }
        ensures recorded { IfOk result (IsRecorded self.old self.new (step_of_inference inference.entry)) }
        ensures continues { Continues self.old self.new result }
        ensures kept { OnErr result (self.new ≡ self.old) }
    {
        let theorem = concluded(self, inference)?;
        self.record_inference(inference, theorem)
    }

    /// As `infer`, of an inference whose parts a proof shows to fit, which are neither walked nor compared for it.
    #[tactic(auto, using(crate::proofs::InferenceLemmas::recorded_inferred, crate::proofs::InferenceLemmas::inferred_continues))]
    pub fn infer_known(&mut self, inference: Inference<'_>) -> Result<Rec, Fault>
        requires made { AreMade self.old inference }
        requires fits { Fits self.old.theory inference }
        ensures outcome { IsInferred self.old.theory inference.entry (theorem_in result) }
        ensures recorded { IfOk result (IsRecorded self.old self.new (step_of_inference inference.entry)) }
        ensures continues { Continues self.old self.new result }
        ensures kept { OnErr result (self.new ≡ self.old) }
    {
        let theorem = concluded_known(self, inference)?;
        self.record_inference(inference, theorem)
    }

    // The theorem of the inference, with an entry.
    fn record_inference(&mut self, inference: Inference<'_>, theorem: Thm) -> Result<Rec, Fault>
        requires made { AreMade self.old inference }
        requires inferred { IsInferred self.old.theory inference (Ok theorem) }
        requires stands_on { theorem.theory ≡ self.old.theory }
        ensures ok { IfOk result (λ made. made.theorem ≡ theorem) }
        ensures recorded { IfOk result (IsRecorded self.old self.new (step_of_inference inference.entry)) }
        ensures err { IfErr result (λ fault. fault ≡ Memory) }
        ensures kept { OnErr result (self.new ≡ self.old) }
    {
        let alloc = self.alloc();
        within_limits(&theorem);
        let rule = rule_of(alloc, inference)?;
        self.record(rule, theorem)
    }
}

// What the rule concludes.
#[tactic(auto, using(crate::proofs::InferenceLemmas::answers_axiom))]
fn concluded(recorder: &Recorder, inference: Inference<'_>) -> Result<Thm, Fault>
    requires { AreMade recorder.now inference }
    ensures inferred { IsInferred recorder.now.theory inference.entry result }
    ensures stands_on { IfOk result (λ theorem. theorem.theory ≡ recorder.now.theory) }
{
    let alloc = recorder.alloc();
    let theory = recorder.theory();
    match inference {
        Inference::Refl(term) => theory.refl(alloc, term),
        Inference::Trans(first, second) => theory.trans(alloc, first.theorem(), second.theorem()),
        Inference::MkComb(first, second) => {
            theory.mk_comb(alloc, first.theorem(), second.theorem())
        }
        Inference::Abs(binder, theorem) => theory.abs(alloc, binder, theorem.theorem()),
        Inference::Beta(term) => theory.beta(alloc, term),
        Inference::Assume(term) => theory.assume(alloc, term),
        Inference::EqMp(first, second) => theory.eq_mp(alloc, first.theorem(), second.theorem()),
        Inference::DeductAntisym(first, second) => {
            theory.deduct_antisym(alloc, first.theorem(), second.theorem())
        }
        Inference::Inst(theta, theorem) => theory.inst(alloc, theta, theorem.theorem()),
        Inference::InstType(theta, theorem) => theory.inst_type(alloc, theta, theorem.theorem()),
        Inference::Eta => theory.eta(alloc),
        Inference::Select => theory.select(alloc),
    }
}

// What the rule concludes from parts that fit.
fn concluded_known(recorder: &Recorder, inference: Inference<'_>) -> Result<Thm, Fault>
    requires made { AreMade recorder.now inference }
    requires fits { Fits recorder.now.theory inference }
    ensures inferred { IsInferred recorder.now.theory inference.entry result }
    ensures stands_on { IfOk result (λ theorem. theorem.theory ≡ recorder.now.theory) }
{
    let alloc = recorder.alloc();
    let theory = recorder.theory();
    match inference {
        Inference::Refl(term) => theory.refl_known(alloc, term),
        Inference::Trans(first, second) => {
            theory.trans_known(alloc, first.theorem(), second.theorem())
        }
        Inference::Beta(term) => theory.beta_known(alloc, term),
        Inference::Assume(term) => theory.assume_known(alloc, term),
        Inference::EqMp(first, second) => {
            theory.eq_mp_known(alloc, first.theorem(), second.theorem())
        }
        Inference::DeductAntisym(first, second) => {
            theory.deduct_antisym_known(alloc, first.theorem(), second.theorem())
        }
        Inference::Inst(theta, theorem) => theory.inst_known(alloc, theta, theorem.theorem()),
        _ => concluded(recorder, inference),
    }
}

// The rule that stands in the journal. The parts of the inference are read for what is known of them.
fn rule_of(alloc: Global, inference: Inference<'_>) -> Result<Rule, Fault>
    ensures ok { IfOk result (λ rule. step_of rule ≡ step_of_inference inference.entry) }
    ensures err { IfErr result (λ fault. fault ≡ Memory) }
    ensures sound { OnOk result (HasSoundParts inference.entry) }
{
    match inference {
        Inference::Refl(term) => Ok(Rule::Refl(copied_term(alloc, term)?)),
        Inference::Trans(first, second) => {
            theorems_hold(first, second);
            Ok(Rule::Trans(first.entry(), second.entry()))
        }
        Inference::MkComb(first, second) => {
            theorems_hold(first, second);
            Ok(Rule::MkComb(first.entry(), second.entry()))
        }
        Inference::Abs(binder, theorem) => {
            let _theorem = theorem.theorem().concl();
            Ok(Rule::Abs(copied_term(alloc, binder)?, theorem.entry()))
        }
        Inference::Beta(term) => Ok(Rule::Beta(copied_term(alloc, term)?)),
        Inference::Assume(term) => Ok(Rule::Assume(copied_term(alloc, term)?)),
        Inference::EqMp(first, second) => {
            theorems_hold(first, second);
            Ok(Rule::EqMp(first.entry(), second.entry()))
        }
        Inference::DeductAntisym(first, second) => {
            theorems_hold(first, second);
            Ok(Rule::DeductAntisym(first.entry(), second.entry()))
        }
        Inference::Inst(theta, theorem) => {
            let _theorem = theorem.theorem().concl();
            Ok(Rule::Inst(theorem.entry(), copied_terms(alloc, theta)?))
        }
        Inference::InstType(theta, theorem) => {
            let _theorem = theorem.theorem().concl();
            Ok(Rule::InstType(theorem.entry(), copied_types(alloc, theta)?))
        }
        Inference::Eta => Ok(Rule::Eta),
        Inference::Select => Ok(Rule::Select),
    }
}

/// Both are theorems. Nothing is computed: the clauses are the law, for callers' proofs.
pub fn theorems_hold(first: &Rec, second: &Rec)
    ensures first { IsTheorem first.now.theorem }
    ensures second { IsTheorem second.now.theorem }
{
    let _first = first.theorem().concl();
    let _second = second.theorem().concl();
}

// A copy of the term, which has a type and is within the limits.
fn copied_term(alloc: Global, term: &Term) -> Result<Term, Fault>
    ensures ok { IfOk result (λ copy. copy ≡ term.now) }
    ensures err { IfErr result (λ fault. fault ≡ Memory) }
    ensures sound { IsSoundTerm term.now }
{
    term.well_formed();
    term.copy(alloc)
}

// A copy of the type, which is within the limit.
fn copied_type(alloc: Global, ty: &Ty) -> Result<Ty, Fault>
    ensures ok { IfOk result (λ copy. copy ≡ ty.now) }
    ensures err { IfErr result (λ fault. fault ≡ Memory) }
    ensures fits { type_fits ty.now ≡ true }
{
    type_fit(ty);
    ty.copy(alloc)
}

// The same pairs, whose terms are within the limits.
fn copied_terms(alloc: Global, pairs: &[(Term, Term)]) -> Result<Vec<(Term, Term)>, Fault>
    ensures ok { IfOk result (λ copies. copies.items ≡ pairs.now) }
    ensures err { IfErr result (λ fault. fault ≡ Memory) }
    ensures fit { OnOk result (list_all pair_fits pairs.now ≡ true) }
{
    let mut copies = Vec::new(alloc);
    for pair in pairs {
        copies.push((copied_term(alloc, &pair.0)?, copied_term(alloc, &pair.1)?))?;
    }
    Ok(copies)
}

// The same pairs, whose types are within the limit.
fn copied_types(alloc: Global, pairs: &[(Ty, Ty)]) -> Result<Vec<(Ty, Ty)>, Fault>
    ensures ok { IfOk result (λ copies. copies.items ≡ pairs.now) }
    ensures err { IfErr result (λ fault. fault ≡ Memory) }
    ensures fit { OnOk result (list_all type_pair_fits pairs.now ≡ true) }
{
    let mut copies = Vec::new(alloc);
    for pair in pairs {
        copies.push((copied_type(alloc, &pair.0)?, copied_type(alloc, &pair.1)?))?;
    }
    Ok(copies)
}
