// Whether a type is an instance of a generic one.
ghost use Rattle.std.specs.Prelude.{◌≡◌, ◌<◌, length};
ghost use Rattle.std.specs.Option.{option_map, IfSome};
ghost use Rattle.hol_model.specs.Terms.HolType as spec;
ghost use Rattle.hol_check_terms.specs.Terms.{name_at, type_at};

use crate::terms::Terms;
use crate::types::TypeShape;

/// Whether the type is got from the generic one by replacing type variables.
pub fn is_instance(terms: &Terms, generic: usize, ty: usize) -> bool
    requires generic { generic < length terms.now.types }
    requires ty { ty < length terms.now.types }
    ensures { result ≡ spec.is_instance (type_at terms.now.types generic) (type_at terms.now.types ty) }
{
    fits_generic(terms, generic, ty, generic, ty)
}

// Whether the parts of a type stand where those of a generic type do, and for each type variable what first stands for
// it in the whole.
fn fits_generic(
    terms: &Terms,
    generic: usize,
    ty: usize,
    whole_generic: usize,
    whole: usize,
) -> bool
    requires generic { generic < length terms.now.types }
    requires ty { ty < length terms.now.types }
    requires whole_generic { whole_generic < length terms.now.types }
    requires whole { whole < length terms.now.types }
    ensures { result ≡ spec.fits_generic (type_at terms.now.types whole_generic) (type_at terms.now.types whole) (type_at terms.now.types generic) (type_at terms.now.types ty) }
{
    match (terms.type_shape(generic), terms.type_shape(ty)) {
        (TypeShape::Variable(name), _) => match part_at(terms, whole_generic, whole, name) {
            Some(part) => terms.is_same_type(part, ty),
            None => false,
        },
        (TypeShape::Boolean, TypeShape::Boolean) => true,
        (TypeShape::Function(a, b), TypeShape::Function(c, d)) => {
            fits_generic(terms, a, c, whole_generic, whole)
                && fits_generic(terms, b, d, whole_generic, whole)
        }
        (TypeShape::Declared(a), TypeShape::Declared(b)) => terms.is_same_name(a, b),
        _ => false,
    }
}

// What stands in the type where the type variable first stands in the generic one.
fn part_at(terms: &Terms, generic: usize, ty: usize, name: usize) -> Option<usize>
    requires generic { generic < length terms.now.types }
    requires ty { ty < length terms.now.types }
    requires name { name < length terms.now.names }
    ensures value { option_map (λ part. type_at terms.now.types part) result ≡ spec.part_at (type_at terms.now.types generic) (type_at terms.now.types ty) (name_at terms.now.names name) }
    ensures within { IfSome result (λ part. part < length terms.now.types) }
{
    match (terms.type_shape(generic), terms.type_shape(ty)) {
        (TypeShape::Variable(other), _) => {
            if terms.is_same_name(other, name) {
                Some(ty)
            } else {
                None
            }
        }
        (TypeShape::Function(a, b), TypeShape::Function(c, d)) => match part_at(terms, a, c, name) {
            Some(part) => Some(part),
            None => part_at(terms, b, d, name),
        },
        _ => None,
    }
}
