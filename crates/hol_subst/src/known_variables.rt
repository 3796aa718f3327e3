// What is known of the variables that are free in a part of a term.
ghost use Rattle.std.specs.Prelude.{◌≡◌, ◌&&◌, not, IsFalse};
ghost use Rattle.hol_model.specs.Terms.HolType.{HolType, type_eq, type_put};
ghost use Rattle.hol_model.specs.Terms.NamedTerm.{NamedTerm, abstraction};
ghost use Rattle.hol_model.specs.Terms.NamedTerm as terms;
ghost use Rattle.hol_subst.specs.VariableTypes as spec;
ghost use Rattle.hol_subst.specs.VariableTypes.{Admits, HasVariables, known_table};

use crate::variable_types::VariableTypes;
use hol_terms::{Parts, Term, same_variable};
use hol_types::{Ty, is_replaced_type};

/// The variables that may be free in a part: frames that borrow one another.
#[derive(Clone, Copy)]
pub enum KnownVariables<'a> {
    // Those of a table.
    Listed(&'a VariableTypes),
    // The variable of a binder that was passed, and those outside it.
    AndBound(&'a str, &'a Ty, &'a KnownVariables<'a>),
}

/// What is known under a binder.
#[tactic(auto, using(crate::proofs::Variables::under_binders))]
pub(crate) fn under_binder<'a>(
    outer: &'a KnownVariables<'a>,
    name: &'a str,
    ty: &'a Ty,
) -> KnownVariables<'a>
    ensures { (body whole : NamedTerm) → abstraction name.now ty.now body ≡ whole → HasVariables (known_table outer.now) whole → HasVariables (known_table result) body }
{
    if admits(&*outer, name, ty) {
        *outer
    } else {
        KnownVariables::AndBound(name, ty, outer)
    }
}

/// Whether the variable of this name and type is among those that may be free.
#[tactic(auto, using(crate::proofs::Variables::known_with))]
pub(crate) fn admits(known: &KnownVariables<'_>, name: &str, ty: &Ty) -> bool
    ensures { result ≡ spec.admits (known_table known.now name.now) ty.now }
{
    match known {
        KnownVariables::Listed(table) => table.admits(name, ty),
        KnownVariables::AndBound(other, s, outer) => same_variable(other, s, name, ty)
            || admits(outer, name, ty),
    }
}

/// Whether a term is a variable that may be free.
pub(crate) fn may_have(known: &KnownVariables<'_>, term: &Term) -> bool
    ensures { result ≡ spec.may_have (known_table known.now) term.now }
{
    match term.parts() {
        Parts::Variable(name, ty) => admits(&*known, name, ty),
        _ => false,
    }
}

/// Whether a variable of this name may be free that gets the type `ty` by a list of pairs (new, old).
#[tactic(auto, using(crate::proofs::Variables::known_with))]
pub(crate) fn has_instance(
    known: &KnownVariables<'_>,
    name: &str,
    types: &[(Ty, Ty)],
    ty: &Ty,
) -> bool
    ensures { IsFalse result → (s : HolType) → Admits (known_table known.now name.now) s → ty.now ≡ type_put types.now s → ⊥ }
{
    match known {
        KnownVariables::Listed(table) => table.has_instance(name, types, ty),
        KnownVariables::AndBound(other, s, outer) => becomes(other, s, name, ty, types)
            || has_instance(outer, name, types, ty),
    }
}

/// Whether a variable of this name, but not of the type `ty`, may be free that gets the type `new_type` by a list of
/// pairs (new, old).
#[tactic(auto, using(crate::proofs::Variables::known_with))]
pub(crate) fn has_other_instance(
    known: &KnownVariables<'_>,
    name: &str,
    ty: &Ty,
    types: &[(Ty, Ty)],
    new_type: &Ty,
) -> bool
    ensures { IsFalse result → (s : HolType) → Admits (known_table known.now name.now) s → new_type.now ≡ type_put types.now s → ty.now ≡ s }
{
    match known {
        KnownVariables::Listed(table) => table.has_other_instance(name, ty, types, new_type),
        KnownVariables::AndBound(other, s, outer) => {
            becomes_too(other, s, name, ty, types, new_type)
                || has_other_instance(outer, name, ty, types, new_type)
        }
    }
}

// Whether a variable becomes the other, which has the type `ty` before it gets the new one, though it has another type.
fn becomes_too(
    other: &str,
    other_ty: &Ty,
    name: &str,
    ty: &Ty,
    types: &[(Ty, Ty)],
    new_type: &Ty,
) -> bool
    ensures { result ≡ (not (type_eq other_ty.now ty.now) && terms.same_variable name.now new_type.now other.now (type_put types.now other_ty.now)) }
{
    !other_ty.eq(ty) && becomes(other, other_ty, name, new_type, types)
}

/// Whether a variable that is kept becomes the other with its new type.
pub(crate) fn becomes(other: &str, other_ty: &Ty, name: &str, ty: &Ty, types: &[(Ty, Ty)]) -> bool
    ensures { result ≡ terms.same_variable name.now ty.now other.now (type_put types.now other_ty.now) }
{
    name == other && is_replaced_type(types, other_ty, ty)
}
