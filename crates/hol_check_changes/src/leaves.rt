// What changes at the leaves of a term, and in the types that are written in it.
ghost use Rattle.std.specs.Prelude.{◌≡◌, ◌+◌, ◌<◌, Some, slice_get, length, if◌then◌else◌};
ghost use Rattle.hol_model.specs.Terms.Nameless.{free, const, bound};
ghost use Rattle.hol_model.specs.declared.limits.TheConstants.{TERM_HEIGHT_LIMIT};
ghost use Rattle.hol_check_terms.specs.Terms.{name_at, type_at, term_at, IsGrown};
ghost use Rattle.hol_check_changes.specs.Change.{PartChange, changed, IsMeant, IsTypeHeld, IsTypeWork, AnswersLeaf, AnswersTypeOf};
ghost use Rattle.hol_check_changes.specs.Change as spec;

use crate::instance::instantiate_type;
use crate::pairs::replaced;
use hol_check_terms::terms::Terms;
use hol_model::Fault;
use indexmap::IndexMap;

/// A change of terms, told by numbers.
#[derive(Clone, Copy)]
pub enum Change<'a> {
    /// A variable becomes that of a binder outside the term.
    Close(usize),
    /// The variable of a binder outside the term becomes a term.
    Fill(usize),
    /// Variables become terms, by pairs (new, old), of which the first counts.
    Put(&'a [(usize, usize)]),
    /// Type variables become types, by pairs (new, old), of which the first counts.
    Instantiate(&'a [(usize, usize)]),
}

/// Whether a change leaves terms without free variables as they are.
pub(crate) fn spares(change: &Change<'_>) -> bool
    ensures { result ≡ spec.spares change.now }
{
    match change {
        Change::Close(_variable) => true,
        Change::Fill(_new) => false,
        Change::Put(_pairs) => true,
        Change::Instantiate(_pairs) => false,
    }
}

/// The number of binders that are counted around the body of an abstraction.
pub(crate) fn deeper(change: &Change<'_>, passed: usize) -> usize
    requires { passed < TERM_HEIGHT_LIMIT }
    ensures { result ≡ (if spec.counts change.now then passed + 1 else passed) }
{
    match change {
        Change::Close(_variable) => passed + 1,
        Change::Fill(_new) => passed + 1,
        Change::Put(_pairs) => passed,
        Change::Instantiate(_pairs) => passed,
    }
}

/// What becomes of a type.
pub(crate) fn change_type(
    terms: &mut Terms,
    types: &mut IndexMap<usize, usize>,
    change: &Change<'_>,
    ty: usize,
) -> Result<usize, Fault>
    requires ty { ty < length terms.old.types }
    requires work { IsTypeWork terms.old change.now types.old.entries }
    ensures changed { (meaning : PartChange) → IsTypeHeld terms.old change.now types.old.entries meaning
        → AnswersTypeOf (meaning.on_type (type_at terms.old.types ty)) result terms.new change.now types.new.entries meaning }
    ensures grows { IsGrown terms.old terms.new }
{
    match change {
        Change::Instantiate(pairs) => instantiate_type(terms, types, pairs, ty),
        Change::Close(_variable) => Ok(ty),
        Change::Fill(_new) => Ok(ty),
        Change::Put(_pairs) => Ok(ty),
    }
}

/// What becomes of a free variable.
pub(crate) fn change_free(
    terms: &mut Terms,
    types: &mut IndexMap<usize, usize>,
    change: &Change<'_>,
    passed: usize,
    number: usize,
    name: usize,
    ty: usize,
) -> Result<usize, Fault>
    requires number { number < length terms.old.terms }
    requires name { name < length terms.old.names }
    requires ty { ty < length terms.old.types }
    requires shallow { passed < TERM_HEIGHT_LIMIT }
    requires is_free { term_at terms.old.terms number ≡ free (name_at terms.old.names name) (type_at terms.old.types ty) }
    requires work { IsTypeWork terms.old change.now types.old.entries }
    ensures changed { (meaning : PartChange) → IsTypeHeld terms.old change.now types.old.entries meaning
        → AnswersLeaf (changed meaning passed (term_at terms.old.terms number)) result terms.new change.now types.new.entries meaning }
    ensures grows { IsGrown terms.old terms.new }
{
    terms.have_one_number();
    match change {
        Change::Close(variable) => {
            if number == *variable {
                terms.bound(passed)
            } else {
                Ok(number)
            }
        }
        Change::Fill(_new) => Ok(number),
        Change::Put(pairs) => Ok(replaced(pairs, number)),
        Change::Instantiate(_pairs) => {
            let new = change_type(terms, types, change, ty)?;
            terms.free(name, new)
        }
    }
}

/// What becomes of a constant.
pub(crate) fn change_constant(
    terms: &mut Terms,
    types: &mut IndexMap<usize, usize>,
    change: &Change<'_>,
    name: usize,
    ty: usize,
) -> Result<usize, Fault>
    requires name { name < length terms.old.names }
    requires ty { ty < length terms.old.types }
    requires work { IsTypeWork terms.old change.now types.old.entries }
    ensures changed { (meaning : PartChange) → IsTypeHeld terms.old change.now types.old.entries meaning
        → AnswersLeaf (const (name_at terms.old.names name) (meaning.on_type (type_at terms.old.types ty))) result terms.new change.now types.new.entries meaning }
    ensures grows { IsGrown terms.old terms.new }
{
    let new = change_type(terms, types, change, ty)?;
    terms.constant(name, new)
}

/// What becomes of a bound variable.
pub(crate) fn change_bound(
    terms: &Terms,
    change: &Change<'_>,
    passed: usize,
    number: usize,
    index: usize,
) -> usize
    requires number { number < length terms.now.terms }
    requires is_bound { term_at terms.now.terms number ≡ bound index }
    ensures { (meaning : PartChange) → IsMeant terms.now change.now meaning → slice_get terms.now.terms result ≡ Some (changed meaning passed (term_at terms.now.terms number)) }
{
    let _terms = terms;
    match change {
        Change::Fill(new) => { if index == passed { *new } else { number } }
        Change::Close(_variable) => number,
        Change::Put(_pairs) => number,
        Change::Instantiate(_pairs) => number,
    }
}
