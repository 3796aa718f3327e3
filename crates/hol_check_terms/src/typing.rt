// The types of terms, and whether the type of each part is within the limit.
ghost use Rattle.std.specs.Prelude.{◌≡◌, ◌⊎◌, ◌<◌, true, false, [], ◌∷◌, Some, slice_get, length, IfOk, IfErr};
ghost use Rattle.hol_model.specs.Terms.HolType.{codomain_of};
ghost use Rattle.hol_model.specs.Terms.Nameless.{binder_type, nameless_type};
ghost use Rattle.hol_model.specs.Terms.Measures.{nameless_within_limits};
ghost use Rattle.hol_model.specs.declared.fault.Fault.TheVariants.{Memory, TooLarge};
ghost use Rattle.hol_check_terms.specs.Terms.{type_at, term_at, IsGrown};
ghost use Rattle.hol_check_terms.specs.Entries.{HasOnlyAdded};
ghost use Rattle.hol_check_terms.specs.Typed.{IsTypedUnderSome};
ghost use Rattle.hol_check_terms.specs.Typing.{binder_types, AreTypes, AreKnown, AnswersTyping};

use crate::memo::{recall_type, remember_type};
use crate::terms::{TermShape, Terms};
use crate::types::TypeShape;
use hol_model::Fault;
use indexmap::IndexMap;
use std::alloc::{AllocError, Global};

/// The type of a term, refused where it is past the limits, which count the type of each of its parts. Each part is gone
/// through once for the binders around it.
pub fn type_of(terms: &mut Terms, number: usize) -> Result<usize, Fault>
    requires number { number < length terms.old.terms }
    ensures number { IfOk result (λ ty. slice_get terms.new.types ty ≡ Some (nameless_type [] (term_at terms.old.terms number))) }
    ensures within_limits { IfOk result (λ _. nameless_within_limits (term_at terms.old.terms number) ≡ true) }
    ensures refused { IfErr result (λ fault. (fault ≡ Memory) ⊎ ((fault ≡ TooLarge) × (nameless_within_limits (term_at terms.old.terms number) ≡ false))) }
    ensures grows { IsGrown terms.old terms.new }
{
    let (_height, _nodes) = terms.size(number);
    let mut known = IndexMap::new(terms.alloc());
    type_under(terms, &mut known, &[], number)
}

// The same of a part that stands under binders of these types, the innermost first, with the types that were worked out for
// parts under these binders.
#[cycle(type_under)]
fn type_under(
    terms: &mut Terms,
    known: &mut IndexMap<usize, usize>,
    binders: &[usize],
    number: usize,
) -> Result<usize, Fault>
    requires number { number < length terms.old.terms }
    requires binders { AreTypes terms.old.types binders.now }
    requires known { AreKnown terms.old binders.now known.old.entries }
    ensures typed { AnswersTyping (binder_types terms.old.types binders.now) (term_at terms.old.terms number) result terms.new.types }
    ensures known { AreKnown terms.new binders.now known.new.entries }
    ensures grows { IsGrown terms.old terms.new }
{
    if let Some(ty) = terms.known_type(number) {
        return Ok(ty);
    }
    match terms.shape(number) {
        TermShape::Free(_name, ty) => {
            let _within_limit = terms.type_count(ty);
            Ok(ty)
        }
        TermShape::Constant(_name, ty) => {
            let _within_limit = terms.type_count(ty);
            Ok(ty)
        }
        TermShape::Bound(index) => binder_at(terms, &*binders, index),
        TermShape::Application(function, argument) => {
            if let Some(ty) = recall_type(known, number) {
                return Ok(ty);
            }
            let function_ty = type_under(terms, known, &*binders, function)?;
            type_under(terms, known, &*binders, argument)?;
            let ty = codomain(terms, function_ty)?;
            keep(terms, known, number, ty)
        }
        TermShape::Abstraction(ty, body) => {
            if let Some(ty) = recall_type(known, number) {
                return Ok(ty);
            }
            let body_ty = type_of_body(terms, &*binders, ty, body)?;
            let whole = terms.function_type(ty, body_ty)?;
            keep(terms, known, number, whole)
        }
    }
}

// The type of the body of an abstraction that stands under binders.
#[cycle(type_under)]
fn type_of_body(
    terms: &mut Terms,
    binders: &[usize],
    ty: usize,
    body: usize,
) -> Result<usize, Fault>
    requires ty { ty < length terms.old.types }
    requires body { body < length terms.old.terms }
    requires binders { AreTypes terms.old.types binders.now }
    ensures typed { AnswersTyping (type_at terms.old.types ty ∷ binder_types terms.old.types binders.now) (term_at terms.old.terms body) result terms.new.types }
    ensures grows { IsGrown terms.old terms.new }
{
    let inside = one_more(terms.alloc(), ty, &*binders)?;
    let mut known = IndexMap::new(terms.alloc());
    type_under(terms, &mut known, &inside, body)
}

// The numbers of a type and then of the types of the binders around it.
fn one_more(alloc: Global, ty: usize, binders: &[usize]) -> Result<Vec<usize>, AllocError>
    ensures { IfOk result (λ inside. inside.items ≡ ty ∷ binders.now) }
{
    let mut inside = Vec::new(alloc);
    inside.push(ty)?;
    inside.extend_from_slice(binders)?;
    Ok(inside)
}

// Keeps the type of a part, for good where it needs no binders, and hands it on.
fn keep(
    terms: &mut Terms,
    known: &mut IndexMap<usize, usize>,
    number: usize,
    ty: usize,
) -> Result<usize, Fault>
    requires number { number < length terms.old.terms }
    requires typed { IsTypedUnderSome terms.old.types (term_at terms.old.terms number) ty }
    ensures same { IfOk result (λ same. same ≡ ty) }
    ensures refused { IfErr result (λ fault. fault ≡ Memory) }
    ensures added { HasOnlyAdded known.old.entries known.new.entries number ty }
    ensures grows { IsGrown terms.old terms.new }
{
    if terms.binders_needed(number) == 0 {
        terms.keep_type(number, ty)
    } else {
        remember_type(known, number, ty)
    }
}

// The type of the binder outside so many others, or `bool` where there is none.
fn binder_at(terms: &mut Terms, binders: &[usize], index: usize) -> Result<usize, Fault>
    requires { AreTypes terms.old.types binders.now }
    ensures number { IfOk result (λ ty. slice_get terms.new.types ty ≡ Some (binder_type (binder_types terms.old.types binders.now) index)) }
    ensures refused { IfErr result (λ fault. fault ≡ Memory) }
    ensures grows { IsGrown terms.old terms.new }
{
    match binders.get(index) {
        Some(ty) => Ok(*ty),
        None => terms.boolean(),
    }
}

// The type of answers of a function type, or `bool` for another type.
fn codomain(terms: &mut Terms, ty: usize) -> Result<usize, Fault>
    requires { ty < length terms.old.types }
    ensures number { IfOk result (λ answer. slice_get terms.new.types answer ≡ Some (codomain_of (type_at terms.old.types ty))) }
    ensures refused { IfErr result (λ fault. fault ≡ Memory) }
    ensures grows { IsGrown terms.old terms.new }
{
    match terms.type_shape(ty) {
        TypeShape::Function(_domain, answer) => Ok(answer),
        TypeShape::Variable(_name) => terms.boolean(),
        TypeShape::Boolean => terms.boolean(),
        TypeShape::Declared(_name) => terms.boolean(),
    }
}
