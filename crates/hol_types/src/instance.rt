// Whether a type is an instance of a generic one.
ghost use Rattle.std.specs.Prelude.{◌≡◌, ◌↔◌, IsTrue};
ghost use Rattle.std.specs.Option.{option_map};
ghost use Rattle.hol_model.specs.Terms.HolType.{IsInstance};
ghost use Rattle.hol_model.specs.Terms.HolType as spec;

use crate::{Ty, TypeParts};

/// Whether the type is got from the generic one by replacing type variables.
#[tactic(auto, using(hol_model::proofs::Terms::Instances::instances))]
pub fn is_instance(generic: &Ty, ty: &Ty) -> bool
    ensures instance { IsTrue result ↔ IsInstance generic.now ty.now }
    ensures value { result ≡ spec.is_instance generic.now ty.now }
{
    fits_by_domain(generic, ty)
}

// The same. A domain is tested by itself, since no type variable stands before it: for the first one nothing is compared.
#[tactic(auto, using(crate::proofs::Domains::domains))]
fn fits_by_domain(generic: &Ty, ty: &Ty) -> bool
    ensures { result ≡ spec.is_instance generic.now ty.now }
{
    match generic.parts() {
        TypeParts::Variable(_) => true,
        TypeParts::Function(a, b) => match ty.parts() {
            TypeParts::Function(c, d) => fits_by_domain(a, c) && fits_generic(b, d, generic, ty),
            _ => false,
        },
        _ => fits_generic(generic, ty, generic, ty),
    }
}

// Whether the parts of a type stand where those of a generic type do, and for each type variable what first stands for
// it in the whole.
fn fits_generic(generic: &Ty, ty: &Ty, whole_generic: &Ty, whole: &Ty) -> bool
    ensures { result ≡ spec.fits_generic whole_generic.now whole.now generic.now ty.now }
{
    match generic.parts() {
        TypeParts::Variable(name) => match part_at(whole_generic, whole, name) {
            Some(part) => part.eq(ty),
            None => false,
        },
        TypeParts::Bool => matches!(ty.parts(), TypeParts::Bool),
        TypeParts::Function(a, b) => match ty.parts() {
            TypeParts::Function(c, d) => {
                fits_generic(a, c, whole_generic, whole) && fits_generic(b, d, whole_generic, whole)
            }
            _ => false,
        },
        TypeParts::Declared(a) => match ty.parts() {
            TypeParts::Declared(b) => a == b,
            _ => false,
        },
    }
}

/// What stands in the type where the type variable first stands in the generic one.
pub fn part_at<'a>(generic: &Ty, ty: &'a Ty, name: &str) -> Option<&'a Ty>
    ensures { option_map (λ part. part.now) result ≡ spec.part_at generic.now ty.now name.now }
{
    match (generic.parts(), ty.parts()) {
        (TypeParts::Variable(other), _) => { if other == name { Some(ty) } else { None } }
        (TypeParts::Function(a, b), TypeParts::Function(c, d)) => match part_at(a, c, name) {
            Some(part) => Some(part),
            None => part_at(b, d, name),
        },
        _ => None,
    }
}
