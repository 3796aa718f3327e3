// Instances of types.
ghost use Rattle.std.specs.Prelude.{◌≡◌, ◌<◌, List, length};
ghost use Rattle.hol_model.specs.Terms.HolType.{HolType};
ghost use Rattle.hol_check_terms.specs.Terms.{type_at, IsGrown};
ghost use Rattle.hol_check_changes.specs.Pairs.{ArePairs};
ghost use Rattle.hol_check_changes.specs.TypeChange.{IsTypeMemo, AnswersType, type_change, IsInstanceWork};

use crate::pairs::replaced;
use hol_check_terms::memo::{recall_type, remember_type};
use hol_check_terms::terms::Terms;
use hol_check_terms::types::TypeShape;
use hol_model::Fault;
use indexmap::IndexMap;

/// A type with its type variables replaced, all at once, by pairs (new, old), of which the first counts. Each part is
/// worked out once.
pub(crate) fn instantiate_type(
    terms: &mut Terms,
    types: &mut IndexMap<usize, usize>,
    pairs: &[(usize, usize)],
    ty: usize,
) -> Result<usize, Fault>
    requires ty { ty < length terms.old.types }
    requires work { IsInstanceWork terms.old.types pairs.now types.old.entries }
    ensures changed { (theta : List (HolType × HolType)) → ArePairs terms.old.types pairs.now theta → IsTypeMemo terms.old.types (type_change theta) types.old.entries
        → AnswersType (type_change theta (type_at terms.old.types ty)) result terms.new.types (type_change theta) types.new.entries }
    ensures grows { IsGrown terms.old terms.new }
{
    terms.have_one_number();
    match terms.type_shape(ty) {
        TypeShape::Variable(_name) => Ok(replaced(pairs, ty)),
        TypeShape::Boolean => Ok(ty),
        TypeShape::Declared(_name) => Ok(ty),
        TypeShape::Function(domain, codomain) => {
            if let Some(new) = recall_type(types, ty) {
                return Ok(new);
            }
            let new_domain = instantiate_type(terms, types, pairs, domain)?;
            let new_codomain = instantiate_type(terms, types, pairs, codomain)?;
            let new = terms.function_type(new_domain, new_codomain)?;
            remember_type(types, ty, new)
        }
    }
}
