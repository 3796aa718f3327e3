// The body of a universal theorem, for a fresh variable.
ghost use Rattle.std.specs.Prelude.{◌≡◌, ◌∷◌, ◌++◌, Some, IfOk, IfErr, OnOk};
ghost use Rattle.hol_model.specs.declared.fault.Fault.TheVariants.{Memory};
ghost use Rattle.hol_model.specs.Logic.NamedLogic.{Abstracted, dest_forall};
ghost use Rattle.hol_journal.specs.Journal.{IsMade};
ghost use Rattle.hol_prelude.specs.HasLogic.{HasLogic};
ghost use Rattle.hol_journal.specs.Growth.{Continues};
ghost use Rattle.hol_equal.specs.Sequents.{IsPast};
ghost use Rattle.hol_rewrite.specs.Rules.{IsFreshInstance, are_small};

use crate::renaming::with_variable_renamed;
use hol_alpha::aconv;
use hol_equal::{conclusion_of, renamed};
use hol_journal::{Rec, Recorder};
use hol_model::Fault;
use hol_prelude::Bool;
use hol_quant::{quantified_parts, spec};
use hol_subst::variant;
use hol_terms::Term;
use std::alloc::Global;
use std::slice;

// Puts copies of the terms behind others.
fn push_copies(alloc: Global, all: &mut Vec<Term>, terms: &[Term]) -> Result<(), Fault>
    ensures ok { OnOk result (all.new.items ≡ all.old.items ++ terms.now) }
    ensures err { IfErr result (λ fault. fault ≡ Memory) }
{
    for term in terms {
        all.push(term.copy(alloc)?)?;
    }
    Ok(())
}

// A term and others.
fn with_others(alloc: Global, first: &Term, others: &[Term]) -> Result<Vec<Term>, Fault>
    ensures ok { IfOk result (λ all. all.items ≡ first.now ∷ others.now) }
    ensures err { IfErr result (λ fault. fault ≡ Memory) }
{
    let mut all = Vec::new(alloc);
    push_copies(alloc, &mut all, slice::from_ref(first))?;
    push_copies(alloc, &mut all, others)?;
    Ok(all)
}

// From `!x. p`, `p`, with primes at `x` where it is free in the conclusion or in the hypotheses; the other bound names stay,
// but where a binder captures the primed one.
pub(crate) fn at_fresh_variable(
    recorder: &mut Recorder,
    logic: &Bool,
    hypotheses: &[Term],
    premise: &Rec,
) -> Result<Rec, Fault>
    requires logic { HasLogic recorder.old logic.now }
    requires premise { IsMade recorder.old premise.now }
    requires universal { (bound : Abstracted) × (dest_forall premise.now.theorem.conclusion ≡ Some bound) }
    ensures continues { Continues recorder.old recorder.new result }
    ensures ok { IfOk result (λ made. IsFreshInstance hypotheses.now premise.now.theorem made.theorem) }
    ensures err { IfErr result (λ fault. IsPast fault (are_small premise.now.theorem)) }
{
    let alloc = recorder.alloc();
    let conclusion = conclusion_of(recorder, premise);
    recorder.theory_is_legal();
    let Some(parts) = quantified_parts(conclusion, "!") else {
        unreachable!()
    };
    let _type = parts.body.ty();
    let avoid = with_others(alloc, conclusion, hypotheses)?;
    let fresh = variant(alloc, &avoid, parts.binder)?;
    let instance = spec(recorder, logic, &fresh, premise)?;
    let stated = with_variable_renamed(alloc, parts.binder, &fresh, parts.body)?;
    if aconv(&stated, conclusion_of(recorder, &instance)) {
        return renamed(recorder, &stated, &instance);
    }
    Ok(instance)
}
