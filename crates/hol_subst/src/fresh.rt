// Variables that are free in none of some terms.
ghost use Rattle.std.specs.Prelude.{◌≡◌, [], ◌∷◌, ◌++◌, true, IfOk, IfErr, IsTrue};
ghost use Rattle.std.specs.String.{string_bytes};
ghost use Rattle.hol_model.specs.Terms.NamedTerm.{variable, is_variable, type_of};
ghost use Rattle.hol_model.specs.Terms.Name.{is_identifier};
ghost use Rattle.hol_model.specs.Terms.Substitution.{occurs_free, IsFirstFree, IsVariantOf};
ghost use Rattle.hol_model.specs.Terms.Substitution as spec;
ghost use Rattle.hol_subst.specs.Replacements.{binders_of};
ghost use Rattle.hol_subst.specs.Replacing.{term_after};
ghost use Rattle.hol_subst.specs.Fresh.{IsFreshBinder};
ghost use Rattle.hol_subst.specs.Outcomes.{variant_refusal};
ghost use Rattle.hol_subst.specs.VariableTypes.{HasVariables, known_table};
ghost use Rattle.hol_model.specs.Kernel.Outcome.{AnswersSuch};
ghost use Rattle.hol_model.specs.declared.fault.Fault.TheVariants.{Memory};

use crate::capture::is_free_after;
use crate::known_variables::KnownVariables;
use crate::passed::Passed;
use crate::place::Place;
use crate::rebuild::variable_of;
use crate::replacing::Replacing;
use crate::variable::Variable;
use hol_model::Fault;
use hol_terms::{Term, is_free};
use hol_types::Ty;
use std::alloc::Global;

/// The first of `v`, `v'`, `v''` .. that is free in no term of a list. What is no variable is refused (`NotVariable`).
#[tactic(auto, using(crate::proofs::Answering::answering))]
pub fn variant(alloc: Global, avoid: &[Term], variable: &Term) -> Result<Term, Fault>
    ensures outcome { AnswersSuch result (variant_refusal variable.now) (IsVariantOf avoid.now variable.now) }
{
    match variable.dest_var() {
        Some((name, ty)) => {
            let fresh = name_free_in_none(alloc, avoid, name, ty)?;
            variable_of(alloc, fresh.as_str(), ty)
        }
        None => Err(Fault::NotVariable),
    }
}

// The name with so many primes that no term has a free variable of this name and type.
fn name_free_in_none(alloc: Global, avoid: &[Term], name: &str, ty: &Ty) -> Result<String, Fault>
    requires { IsTrue (is_identifier name.now) }
    ensures fresh { IfOk result (λ fresh. IsFirstFree (λ other. spec.is_free_in_some avoid.now other ty.now) name.now (string_bytes fresh)) }
    ensures named { IfOk result (λ fresh. IsTrue (is_identifier (string_bytes fresh))) }
    ensures err { IfErr result (λ fault. fault ≡ Memory) }
{
    let mut fresh = String::from_str(alloc, name)?;
    while is_free_in_some(avoid, fresh.as_str(), ty) {
        fresh.push_str("'")?;
    }
    Ok(fresh)
}

fn is_free_in_some(terms: &[Term], name: &str, ty: &Ty) -> bool
    ensures { result ≡ spec.is_free_in_some terms.now name.now ty.now }
{
    terms.iter().any(|term| is_free(term, name, ty))
}

/// A binder that captures nothing in a term, which stands under the passed binders, after the replacement, in place of
/// one that would capture. The hint tells where what is captured may stand.
pub(crate) fn fresh_binder(
    alloc: Global,
    body: &Term,
    captured: Variable<'_>,
    passed: &Passed<'_>,
    replacing: &Replacing<'_>,
    hint: Place,
    known: &KnownVariables<'_>,
) -> Result<Term, Fault>
    requires named { IsTrue (is_identifier captured.name.now) }
    requires known { HasVariables (known_table known.now) body.now }
    requires taken { occurs_free captured.name.now captured.ty.now (term_after replacing.now (binders_of passed.now) body.now) ≡ true }
    ensures fresh { IfOk result (IsFreshBinder (term_after replacing.now (binders_of passed.now) body.now) captured.entry.name.now captured.entry.ty.now) }
    ensures variable { IfOk result (λ binder. IsTrue (is_variable binder)) }
    ensures typed { IfOk result (λ binder. type_of binder ≡ Some captured.entry.ty.now) }
    ensures err { IfErr result (λ fault. fault ≡ Memory) }
{
    let mut fresh = with_prime(alloc, captured.name)?;
    while is_free_after(
        body,
        Variable {
            name: fresh.as_str(),
            ty: captured.ty,
        },
        &*passed,
        &*replacing,
        hint,
        &*known,
    ) {
        fresh.push_str("'")?;
    }
    variable_of(alloc, fresh.as_str(), captured.ty)
}

// The name with one prime.
fn with_prime(alloc: Global, name: &str) -> Result<String, Fault>
    ensures ok { IfOk result (λ fresh. string_bytes fresh ≡ name.now ++ 39 ∷ []) }
    ensures err { IfErr result (λ fault. fault ≡ Memory) }
{
    let mut fresh = String::from_str(alloc, name)?;
    fresh.push_str("'")?;
    Ok(fresh)
}
