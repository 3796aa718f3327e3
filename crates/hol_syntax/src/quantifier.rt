// Whether the type of a quantifier is an instance of a generic type. The type itself may be too large to be made.
ghost use Rattle.std.specs.Prelude.{◌≡◌, ◌&&◌};
ghost use Rattle.hol_model.specs.Terms.HolType as spec;
ghost use Rattle.hol_model.specs.Texts.Reading.{quantifier_type};
ghost use Rattle.hol_syntax.specs.Building as building;

use hol_types::{Ty, TypeParts, is_instance, part_at};

/// Whether the type of a quantifier over this type is an instance of the generic one.
pub fn is_quantifier_instance(generic: &Ty, ty: &Ty) -> bool
    ensures { result ≡ spec.is_instance generic.now (quantifier_type ty.now) }
{
    match generic.parts() {
        TypeParts::Variable(_) => true,
        TypeParts::Bool | TypeParts::Declared(_) => false,
        TypeParts::Function(predicate, truth) => match predicate.parts() {
            TypeParts::Variable(name) => is_truth_apart(name, truth),
            TypeParts::Bool | TypeParts::Declared(_) => false,
            TypeParts::Function(first, second) => {
                fits_predicate(first, second, ty) && fits_truth(first, ty, truth)
            }
        },
    }
}

// Whether the type of predicates on the type is an instance of the function type from the first part to the second.
fn fits_predicate(first: &Ty, second: &Ty, ty: &Ty) -> bool
    ensures { result ≡ (spec.is_instance first.now ty.now && building.fits_truth first.now ty.now second.now) }
{
    is_instance(first, ty) && fits_truth(first, ty, second)
}

// Whether a part can stand for `bool` where the first part of the generic type stands for the type.
fn fits_truth(first: &Ty, ty: &Ty, part: &Ty) -> bool
    ensures { result ≡ building.fits_truth first.now ty.now part.now }
{
    match part.parts() {
        TypeParts::Variable(name) => match part_at(first, ty, name) {
            Some(found) => found.is_bool(),
            None => true,
        },
        TypeParts::Bool => true,
        TypeParts::Function(_, _) | TypeParts::Declared(_) => false,
    }
}

// The same where the type variable of this name stands for a function type.
fn is_truth_apart(name: &str, part: &Ty) -> bool
    ensures { result ≡ building.is_truth_apart name.now part.now }
{
    match part.parts() {
        TypeParts::Variable(other) => name != other,
        TypeParts::Bool => true,
        TypeParts::Function(_, _) | TypeParts::Declared(_) => false,
    }
}
