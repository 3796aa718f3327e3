// Type variables in types and in terms.
ghost use Rattle.std.specs.Prelude.{◌≡◌, ◌<◌, length, IfOk, IfErr};
ghost use Rattle.hol_model.specs.declared.fault.Fault.TheVariants.{Memory};
ghost use Rattle.hol_model.specs.Logic.Legality as legality;
ghost use Rattle.hol_model.specs.Logic.Checks.{reflects_nameless};
ghost use Rattle.hol_check_terms.specs.Terms.{name_at, type_at, term_at};
ghost use Rattle.hol_check_terms.specs.Reflection.{AllReflect};

use crate::numbers::{is_noted, note};
use crate::terms::{TermShape, Terms};
use crate::types::TypeShape;
use hol_model::Fault;
use indexmap::IndexSet;

/// Whether each type variable of the types in a term stands in a type. Each part is gone through once.
pub fn reflects(terms: &Terms, whole: usize, number: usize) -> Result<bool, Fault>
    requires whole { whole < length terms.now.types }
    requires number { number < length terms.now.terms }
    ensures reflects { IfOk result (λ answer. answer ≡ reflects_nameless (type_at terms.now.types whole) (term_at terms.now.terms number)) }
    ensures refused { IfErr result (λ fault. fault ≡ Memory) }
{
    let mut seen = IndexSet::new(terms.alloc());
    reflects_in(terms, &mut seen, whole, number)
}

// The same of a part, where the seen parts are known to do so.
fn reflects_in(
    terms: &Terms,
    seen: &mut IndexSet<usize>,
    whole: usize,
    number: usize,
) -> Result<bool, Fault>
    requires whole { whole < length terms.now.types }
    requires number { number < length terms.now.terms }
    requires seen { AllReflect terms.now.terms (type_at terms.now.types whole) seen.old.keys }
    ensures reflects { IfOk result (λ answer. answer ≡ reflects_nameless (type_at terms.now.types whole) (term_at terms.now.terms number)) }
    ensures refused { IfErr result (λ fault. fault ≡ Memory) }
    ensures seen { AllReflect terms.now.terms (type_at terms.now.types whole) seen.new.keys }
{
    if is_noted(seen, number) {
        return Ok(true);
    }
    match terms.shape(number) {
        TermShape::Free(_name, ty) => Ok(reflects_type(terms, whole, ty)),
        TermShape::Constant(_name, ty) => Ok(reflects_type(terms, whole, ty)),
        TermShape::Bound(_index) => Ok(true),
        TermShape::Application(function, argument) => {
            let first = reflects_in(terms, seen, whole, function)?;
            if !first {
                return Ok(false);
            }
            let second = reflects_in(terms, seen, whole, argument)?;
            note(seen, number, second, true)
        }
        TermShape::Abstraction(ty, body) => {
            if !reflects_type(terms, whole, ty) {
                return Ok(false);
            }
            let inner = reflects_in(terms, seen, whole, body)?;
            note(seen, number, inner, true)
        }
    }
}

/// Whether each type variable of a type stands in another.
pub(crate) fn reflects_type(terms: &Terms, whole: usize, ty: usize) -> bool
    requires whole { whole < length terms.now.types }
    requires ty { ty < length terms.now.types }
    ensures { result ≡ legality.reflects_type (type_at terms.now.types whole) (type_at terms.now.types ty) }
{
    match terms.type_shape(ty) {
        TypeShape::Variable(name) => occurs_in_type(terms, name, whole),
        TypeShape::Boolean => true,
        TypeShape::Declared(_name) => true,
        TypeShape::Function(domain, codomain) => reflects_type(terms, whole, domain)
            && reflects_type(terms, whole, codomain),
    }
}

// Whether a type variable stands in a type.
fn occurs_in_type(terms: &Terms, name: usize, ty: usize) -> bool
    requires name { name < length terms.now.names }
    requires ty { ty < length terms.now.types }
    ensures { result ≡ legality.occurs_in_type (name_at terms.now.names name) (type_at terms.now.types ty) }
{
    match terms.type_shape(ty) {
        TypeShape::Variable(other) => terms.is_same_name(name, other),
        TypeShape::Boolean => false,
        TypeShape::Declared(_name) => false,
        TypeShape::Function(domain, codomain) => occurs_in_type(terms, name, domain)
            || occurs_in_type(terms, name, codomain),
    }
}

/// Whether no type variable stands in a type.
pub fn is_fixed(terms: &Terms, ty: usize) -> bool
    requires { ty < length terms.now.types }
    ensures { result ≡ legality.is_fixed (type_at terms.now.types ty) }
{
    match terms.type_shape(ty) {
        TypeShape::Variable(_name) => false,
        TypeShape::Boolean => true,
        TypeShape::Declared(_name) => true,
        TypeShape::Function(domain, codomain) => is_fixed(terms, domain)
            && is_fixed(terms, codomain),
    }
}
