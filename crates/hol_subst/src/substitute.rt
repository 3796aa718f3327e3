// Substitution and the instantiation of types.
ghost use Rattle.std.specs.Prelude.{◌≡◌, ◌⊎◌, IfOk, IfErr, IsTrue, IsFalse, unwrap_or};
ghost use Rattle.std.specs.Option.{option_map};
ghost use Rattle.hol_model.specs.Terms.HolType.{type_put};
ghost use Rattle.hol_model.specs.Terms.NamedTerm.{type_of};
ghost use Rattle.hol_model.specs.Terms.Nameless.{image};
ghost use Rattle.hol_model.specs.Terms.Substitution.{put_all};
ghost use Rattle.hol_model.specs.Terms.Substitution as spec;
ghost use Rattle.hol_model.specs.Kernel.Instantiation.{instantiate_all};
ghost use Rattle.hol_model.specs.Terms.Measures.{nameless_within_limits};
ghost use Rattle.hol_model.specs.Kernel.Outcome.{AnswersSuch};
ghost use Rattle.hol_model.specs.declared.fault.Fault.TheVariants.{Memory, TooLarge};
ghost use Rattle.hol_subst.specs.Outcomes.{vsubst_refusal, inst_refusal};

use crate::replace::replaced_by;
use crate::touched::keeps_all_types;
use hol_model::Fault;
use hol_terms::Term;
use hol_types::{Ty, replaces_type_variables};
use std::alloc::Global;

/// A term with free variables replaced, all at once, by a list of pairs (new, old), of which the first counts.
///
/// Refused, in this order: an old part that is no variable (`NotVariable`), a new part of another type
/// (`TypeMismatch`), a term past the limits (`TooLarge`).
#[tactic(auto, using(crate::proofs::Answering::answering))]
pub fn vsubst(alloc: Global, theta: &[(Term, Term)], term: &Term) -> Result<Term, Fault>
    ensures outcome { AnswersSuch result (vsubst_refusal theta.now term.now) (λ new. image new ≡ put_all theta.now (image term.now)) }
    ensures typed { IfOk result (λ new. type_of new ≡ type_of term.now) }
{
    if !replaces_variables(theta) {
        return Err(Fault::NotVariable);
    }
    if !keeps_types(theta) {
        return Err(Fault::TypeMismatch);
    }
    substituted(alloc, theta, term)
}

// The same, where the pairs may be used.
#[tactic(auto, using(crate::proofs::KeptTypes::keeping, crate::proofs::Putting::putting))]
fn substituted(alloc: Global, theta: &[(Term, Term)], term: &Term) -> Result<Term, Fault>
    requires { IsTrue (spec.keeps_types theta.now) }
    ensures ok { IfOk result (λ new. image new ≡ put_all theta.now (image term.now)) }
    ensures typed { IfOk result (λ new. type_of new ≡ type_of term.now) }
    ensures within_limits { IfOk result (λ _. IsTrue (nameless_within_limits (put_all theta.now (image term.now)))) }
    ensures err { IfErr result (λ fault. (fault ≡ Memory) ⊎ ((fault ≡ TooLarge) × IsFalse (nameless_within_limits (put_all theta.now (image term.now))))) }
{
    let changed = replaced_by(alloc, term, &[], theta)?;
    changed_or_copy(alloc, changed, term)
}

fn replaces_variables(theta: &[(Term, Term)]) -> bool
    ensures { result ≡ spec.replaces_variables theta.now }
{
    theta.iter().all(|pair| pair.1.is_var())
}

fn keeps_types(theta: &[(Term, Term)]) -> bool
    ensures { result ≡ spec.keeps_types theta.now }
{
    theta.iter().all(|pair| pair.0.ty().eq(pair.1.ty()))
}

/// A term with type variables replaced, all at once, by a list of pairs (new, old), of which the first counts.
///
/// Refused, in this order: an old part that is no type variable (`NotVariable`), a term past the limits (`TooLarge`).
#[tactic(auto, using(crate::proofs::Answering::answering))]
pub fn inst(alloc: Global, theta: &[(Ty, Ty)], term: &Term) -> Result<Term, Fault>
    ensures outcome { AnswersSuch result (inst_refusal theta.now term.now) (λ new. image new ≡ instantiate_all theta.now (image term.now)) }
    ensures typed { IfOk result (λ new. type_of new ≡ option_map (type_put theta.now) (type_of term.now)) }
{
    if !replaces_type_variables(theta) {
        return Err(Fault::NotVariable);
    }
    instantiated(alloc, theta, term)
}

// The same, whatever the old parts are.
#[tactic(auto, using(crate::proofs::KeptTypes::keeping, crate::proofs::Putting::putting, crate::proofs::StayingTypes::staying))]
fn instantiated(alloc: Global, theta: &[(Ty, Ty)], term: &Term) -> Result<Term, Fault>
    ensures ok { IfOk result (λ new. image new ≡ instantiate_all theta.now (image term.now)) }
    ensures typed { IfOk result (λ new. type_of new ≡ option_map (type_put theta.now) (type_of term.now)) }
    ensures within_limits { IfOk result (λ _. IsTrue (nameless_within_limits (instantiate_all theta.now (image term.now)))) }
    ensures err { IfErr result (λ fault. (fault ≡ Memory) ⊎ ((fault ≡ TooLarge) × IsFalse (nameless_within_limits (instantiate_all theta.now (image term.now))))) }
{
    if keeps_all_types(theta, term) {
        return changed_or_copy(alloc, None, term);
    }
    let changed = replaced_by(alloc, term, theta, &[])?;
    changed_or_copy(alloc, changed, term)
}

// The changed term, or a copy where nothing changes.
#[tactic(auto, using(hol_model::proofs::Terms::WithinLimits::limits))]
fn changed_or_copy(alloc: Global, changed: Option<Term>, term: &Term) -> Result<Term, Fault>
    ensures ok { IfOk result (λ new. new ≡ unwrap_or changed term.now) }
    ensures within_limits { IfOk result (λ new. IsTrue (nameless_within_limits (image new))) }
    ensures err { IfErr result (λ fault. fault ≡ Memory) }
{
    let new = match changed {
        Some(new) => new,
        None => term.copy(alloc)?,
    };
    let _typed = new.ty();
    new.well_formed();
    Ok(new)
}
