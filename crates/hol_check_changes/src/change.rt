// Changes of terms: each part is worked out once for each number of binders around it that is counted.
ghost use Rattle.std.specs.Prelude.{◌≡◌, ◌+◌, ◌<◌, ◌≤◌, ℕ, List, Some, slice_get, length};
ghost use Rattle.hol_model.specs.Terms.HolType.{HolType};
ghost use Rattle.hol_model.specs.Terms.Measures.{nameless_height};
ghost use Rattle.hol_model.specs.Terms.Nameless.{Nameless, free};
ghost use Rattle.hol_model.specs.Terms.Substitution as substitution;
ghost use Rattle.hol_model.specs.declared.limits.TheConstants.{TERM_HEIGHT_LIMIT};
ghost use Rattle.hol_check_terms.specs.Terms.{term_at, IsGrown};
ghost use Rattle.hol_check_changes.specs.Change.{PartChange, changed, IsHeld, IsWork, Answers, IsMeant, HasMeaning, IsAnswered, IsMade, IsVariable};

use crate::leaves::{
    Change, change_bound, change_constant, change_free, change_type, deeper, spares,
};
use hol_check_terms::memo::{Place, recall, remember};
use hol_check_terms::terms::{TermShape, Terms};
use hol_model::{Fault, TERM_HEIGHT_LIMIT};
use indexmap::IndexMap;

// The change of a part that stands under the passed binders.
fn change_at(
    terms: &mut Terms,
    parts: &mut IndexMap<Place, usize>,
    types: &mut IndexMap<usize, usize>,
    change: &Change<'_>,
    passed: usize,
    number: usize,
) -> Result<usize, Fault>
    requires number { number < length terms.old.terms }
    requires shallow { passed + nameless_height (term_at terms.old.terms number) ≤ TERM_HEIGHT_LIMIT }
    requires work { IsWork terms.old change.now parts.old.entries types.old.entries }
    ensures changed { (meaning : PartChange) → IsHeld terms.old change.now parts.old.entries types.old.entries meaning
        → Answers (changed meaning passed (term_at terms.old.terms number)) result terms.new change.now parts.new.entries types.new.entries meaning }
    ensures grows { IsGrown terms.old terms.new }
{
    if spares(change) && terms.has_no_free(number) {
        return Ok(number);
    }
    let place = Place { passed, number };
    match terms.shape(number) {
        TermShape::Free(name, ty) => change_free(terms, types, change, passed, number, name, ty),
        TermShape::Constant(name, ty) => change_constant(terms, types, change, name, ty),
        TermShape::Bound(index) => Ok(change_bound(terms, change, passed, number, index)),
        TermShape::Application(function, argument) => {
            if let Some(new) = recall(parts, place) {
                return Ok(new);
            }
            let new_function = change_at(terms, parts, types, change, passed, function)?;
            let new_argument = change_at(terms, parts, types, change, passed, argument)?;
            let new = terms.application(new_function, new_argument)?;
            remember(parts, place, new)
        }
        TermShape::Abstraction(ty, body) => {
            if let Some(new) = recall(parts, place) {
                return Ok(new);
            }
            let new_ty = change_type(terms, types, change, ty)?;
            let inside = deeper(change, passed);
            let new_body = change_at(terms, parts, types, change, inside, body)?;
            let new = terms.abstraction(new_ty, new_body)?;
            remember(parts, place, new)
        }
    }
}

/// The body of an abstraction over a variable.
pub(crate) fn close(terms: &mut Terms, variable: usize, number: usize) -> Result<usize, Fault>
    requires variable { IsVariable terms.old.terms variable }
    requires number { number < length terms.old.terms }
    ensures closed { (name : List ℕ) (ty : HolType) → slice_get terms.old.terms variable ≡ Some (free name ty)
        → IsAnswered (substitution.close name ty (term_at terms.old.terms number)) result terms.new.terms }
    ensures grows { IsGrown terms.old terms.new }
{
    change_whole(terms, &Change::Close(variable), number)
}

/// The body of an abstraction with a term in place of its variable.
pub(crate) fn fill(terms: &mut Terms, new: usize, number: usize) -> Result<usize, Fault>
    requires new { new < length terms.old.terms }
    requires number { number < length terms.old.terms }
    ensures filled { IsMade (substitution.fill (term_at terms.old.terms new) (term_at terms.old.terms number)) result terms.new.terms }
    ensures grows { IsGrown terms.old terms.new }
{
    change_whole(terms, &Change::Fill(new), number)
}

/// The change of a term that stands under no binders.
pub fn change_whole(terms: &mut Terms, change: &Change<'_>, number: usize) -> Result<usize, Fault>
    requires number { number < length terms.old.terms }
    requires meaning { HasMeaning terms.old change.now }
    ensures changed { (meaning : PartChange) → IsMeant terms.old change.now meaning → IsAnswered (changed meaning 0 (term_at terms.old.terms number)) result terms.new.terms }
    ensures grows { IsGrown terms.old terms.new }
{
    let (_height, _nodes) = terms.size(number);
    let mut parts = IndexMap::new(terms.alloc());
    let mut types = IndexMap::new(terms.alloc());
    change_at(terms, &mut parts, &mut types, change, 0, number)
}
