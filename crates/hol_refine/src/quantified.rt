// Quantified formulas, and their bodies with a term for the variable.
ghost use Rattle.std.specs.Prelude.{◌≡◌, Some, true, IfSome, IfOk, IfErr};
ghost use Rattle.std.specs.Option.{option_map};
ghost use Rattle.hol_model.specs.declared.fault.Fault.TheVariants.{Memory};
ghost use Rattle.hol_model.specs.Terms.Name.{is_identifier};
ghost use Rattle.hol_model.specs.Terms.NamedTerm.{variable, type_of};
ghost use Rattle.hol_model.specs.Logic.NamedLogic.{dest_quantified};
ghost use Rattle.hol_model.specs.Derived.DerivedRules.{body_with};
ghost use Rattle.hol_refine.specs.TableAnswers.{abstracted, AnswersInstance, AnswersRenamed};

use hol_model::Fault;
use hol_subst::vsubst;
use hol_terms::{Parts, Term};
use hol_types::Ty;
use std::alloc::Global;

/// The abstraction under a quantifier: the name and the type of its variable, and its body.
#[derive(Clone, Copy)]
pub(crate) struct Quantified<'a> {
    pub(crate) name: &'a str,
    pub(crate) ty: &'a Ty,
    pub(crate) body: &'a Term,
}

/// The parts of a formula under the quantifier of this name.
pub(crate) fn quantified_parts<'a>(term: &'a Term, quantifier_name: &str) -> Option<Quantified<'a>>
    ensures parts { option_map (λ parts. abstracted parts.name.now parts.ty.now parts.body.now) result ≡ dest_quantified quantifier_name.now term.now }
    ensures named { IfSome result (λ parts. is_identifier parts.name.now ≡ true) }
{
    match term.parts() {
        Parts::Combination(quantifier, predicate) => match quantifier.parts() {
            Parts::Constant(found, _) => match predicate.parts() {
                Parts::Abstraction(name, ty, body) => {
                    if found == quantifier_name {
                        Some(Quantified { name, ty, body })
                    } else {
                        None
                    }
                }
                _ => None,
            },
            _ => None,
        },
        _ => None,
    }
}

/// The variable of this name and type.
pub(crate) fn variable_of(alloc: Global, name: &str, ty: &Ty) -> Result<Term, Fault>
    requires { is_identifier name.now ≡ true }
    ensures ok { IfOk result (λ term. term ≡ variable name.now ty.now) }
    ensures err { IfErr result (λ fault. fault ≡ Memory) }
{
    Term::mk_var(alloc, name, ty)
}

/// The body with a term for the variable.
pub(crate) fn instance(alloc: Global, parts: Quantified<'_>, argument: &Term) -> Result<Term, Fault>
    requires named { is_identifier parts.name.now ≡ true }
    requires typed { type_of argument.now ≡ Some parts.ty.now }
    ensures { AnswersInstance result (body_with (abstracted parts.entry.name.now parts.entry.ty.now parts.entry.body.now) argument.now) }
{
    let new = argument.copy(alloc)?;
    let old = variable_of(alloc, parts.name, parts.ty)?;
    let _body_type = parts.body.ty();
    let made = vsubst(alloc, &[(new, old)], parts.body)?;
    made.well_formed();
    Ok(made)
}

/// The body under another name for the variable: itself where the name is the same.
#[tactic(auto, using(crate::proofs::Instances::kept, crate::proofs::Instances::changed, crate::proofs::Instances::renamed_memory))]
pub(crate) fn renamed(alloc: Global, parts: Quantified<'_>, fresh: &str) -> Result<Term, Fault>
    requires named { is_identifier parts.name.now ≡ true }
    requires fresh { is_identifier fresh.now ≡ true }
    ensures { AnswersRenamed result (abstracted parts.entry.name.now parts.entry.ty.now parts.entry.body.now) fresh.now }
{
    let _body_type = parts.body.ty();
    parts.body.well_formed();
    if fresh == parts.name {
        return parts.body.copy(alloc);
    }
    let new = variable_of(alloc, fresh, parts.ty)?;
    instance(alloc, parts, &new)
}
