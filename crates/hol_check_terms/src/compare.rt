// The order of types and of terms.
ghost use Rattle.std.specs.Prelude.{◌≡◌, ◌<◌, length};
ghost use Rattle.std.specs.Ordering.{nat_cmp, ordering_then};
ghost use Rattle.std.specs.Cmp.Lexicographic.{slice_cmp};
ghost use Rattle.hol_model.specs.Terms.HolType.{type_cmp};
ghost use Rattle.hol_model.specs.Terms.Nameless.{nameless_cmp};
ghost use Rattle.hol_check_terms.specs.Terms.{name_at, type_at, term_at};

use crate::terms::{TermShape, Terms};
use crate::types::TypeShape;
use std::cmp::Ordering;

// Names by their bytes.
fn compare_names(terms: &Terms, first: usize, second: usize) -> Ordering
    requires first { first < length terms.now.names }
    requires second { second < length terms.now.names }
    ensures { result ≡ slice_cmp nat_cmp (name_at terms.now.names first) (name_at terms.now.names second) }
{
    terms.name_bytes(first).cmp(terms.name_bytes(second))
}

/// Type variables come first, then `bool`, functions and declared types; then the parts count, from left to right.
pub(crate) fn compare_types(terms: &Terms, first: usize, second: usize) -> Ordering
    requires first { first < length terms.now.types }
    requires second { second < length terms.now.types }
    ensures { result ≡ type_cmp (type_at terms.now.types first) (type_at terms.now.types second) }
{
    if first == second {
        return Ordering::Equal;
    }
    match (terms.type_shape(first), terms.type_shape(second)) {
        (TypeShape::Variable(a), TypeShape::Variable(b)) => compare_names(terms, a, b),
        (TypeShape::Variable(_), _) => Ordering::Less,
        (_, TypeShape::Variable(_)) => Ordering::Greater,
        (TypeShape::Boolean, TypeShape::Boolean) => Ordering::Equal,
        (TypeShape::Boolean, _) => Ordering::Less,
        (_, TypeShape::Boolean) => Ordering::Greater,
        (TypeShape::Function(a, b), TypeShape::Function(c, d)) => {
            match compare_types(terms, a, c) {
                Ordering::Equal => compare_types(terms, b, d),
                unequal => unequal,
            }
        }
        (TypeShape::Function(_, _), _) => Ordering::Less,
        (_, TypeShape::Function(_, _)) => Ordering::Greater,
        (TypeShape::Declared(a), TypeShape::Declared(b)) => compare_names(terms, a, b),
    }
}

/// Constants come first, then free variables, bound variables, combinations and abstractions; then the parts count,
/// from left to right.
pub fn compare_terms(terms: &Terms, first: usize, second: usize) -> Ordering
    requires first { first < length terms.now.terms }
    requires second { second < length terms.now.terms }
    ensures { result ≡ nameless_cmp (term_at terms.now.terms first) (term_at terms.now.terms second) }
{
    if first == second {
        return Ordering::Equal;
    }
    match (terms.shape(first), terms.shape(second)) {
        (TermShape::Constant(a, s), TermShape::Constant(b, t)) => compare_atoms(terms, a, s, b, t),
        (TermShape::Constant(_, _), _) => Ordering::Less,
        (_, TermShape::Constant(_, _)) => Ordering::Greater,
        (TermShape::Free(a, s), TermShape::Free(b, t)) => compare_atoms(terms, a, s, b, t),
        (TermShape::Free(_, _), _) => Ordering::Less,
        (_, TermShape::Free(_, _)) => Ordering::Greater,
        (TermShape::Bound(i), TermShape::Bound(j)) => i.cmp(&j),
        (TermShape::Bound(_), _) => Ordering::Less,
        (_, TermShape::Bound(_)) => Ordering::Greater,
        (TermShape::Application(f, a), TermShape::Application(g, b)) => {
            match compare_terms(terms, f, g) {
                Ordering::Equal => compare_terms(terms, a, b),
                unequal => unequal,
            }
        }
        (TermShape::Application(_, _), _) => Ordering::Less,
        (_, TermShape::Application(_, _)) => Ordering::Greater,
        (TermShape::Abstraction(s, p), TermShape::Abstraction(t, q)) => {
            match compare_types(terms, s, t) {
                Ordering::Equal => compare_terms(terms, p, q),
                unequal => unequal,
            }
        }
    }
}

// Names, and then types.
fn compare_atoms(terms: &Terms, a: usize, s: usize, b: usize, t: usize) -> Ordering
    requires a { a < length terms.now.names }
    requires s { s < length terms.now.types }
    requires b { b < length terms.now.names }
    requires t { t < length terms.now.types }
    ensures { result ≡ ordering_then (slice_cmp nat_cmp (name_at terms.now.names a) (name_at terms.now.names b)) (type_cmp (type_at terms.now.types s) (type_at terms.now.types t)) }
{
    match compare_names(terms, a, b) {
        Ordering::Equal => compare_types(terms, s, t),
        unequal => unequal,
    }
}
