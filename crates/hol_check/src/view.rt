// The types and terms of claims, as a caller sees them.
ghost use Rattle.std.specs.Prelude.{◌≡◌, ◌<◌, length};
ghost use Rattle.hol_check_terms.specs.Terms.{type_at, term_at};
ghost use Rattle.hol_check.specs.Views.{type_of_parts, term_of_parts};

use hol_check_terms::terms::{TermShape, Terms};
use hol_check_terms::types::TypeShape;
use std::marker::Model;

/// A type in a claim.
#[derive(Drop)]
pub struct TypeView<'a> {
    table: &'a Terms,
    number: usize,
}

impl<'a> Model for TypeView<'a> {
    ghost use Rattle.hol_model.specs.Terms.HolType.{HolType};
    ghost use Rattle.hol_model.specs.Terms.HolTypeCode.{type_code};

    ghost Value = { HolType };

    ghost coded = { type_code };

    ghost use Rattle.hol_check.specs.Views.{viewed_type, IsTypeView};

    ghost view = { viewed_type };

    ghost invariant = { IsTypeView };
}

/// How a type is built. Names are bytes.
#[derive(Drop)]
pub enum TypeParts<'a> {
    Variable(&'a [u8]),
    Boolean,
    /// The types of the argument and of the answer.
    Function(TypeView<'a>, TypeView<'a>),
    Declared(&'a [u8]),
}

impl<'a> TypeView<'a> {
    /// A type of a table.
    pub(crate) fn of(table: &'a Terms, number: usize) -> TypeView<'a>
        requires { number < length table.now.types }
        ensures { result ≡ type_at table.now.types number }
    {
        TypeView { table, number }
    }

    /// How the type is built.
    pub fn parts(&self) -> TypeParts<'a>
        ensures { type_of_parts result ≡ self.now }
    {
        let table = self.table;
        match table.type_shape(self.number) {
            TypeShape::Variable(name) => TypeParts::Variable(table.name_bytes(name)),
            TypeShape::Boolean => TypeParts::Boolean,
            TypeShape::Function(domain, codomain) => {
                TypeParts::Function(TypeView::of(table, domain), TypeView::of(table, codomain))
            }
            TypeShape::Declared(name) => TypeParts::Declared(table.name_bytes(name)),
        }
    }
}

/// A term in a claim, without bound names.
#[derive(Drop)]
pub struct TermView<'a> {
    table: &'a Terms,
    number: usize,
}

impl<'a> Model for TermView<'a> {
    ghost use Rattle.hol_model.specs.Terms.Nameless.{Nameless};
    ghost use Rattle.hol_model.specs.Terms.NamelessCode.{nameless_code};

    ghost Value = { Nameless };

    ghost coded = { nameless_code };

    ghost use Rattle.hol_check.specs.Views.{viewed_term, IsTermView};

    ghost view = { viewed_term };

    ghost invariant = { IsTermView };
}

/// How a term is built. Names are bytes.
#[derive(Drop)]
pub enum TermParts<'a> {
    Free(&'a [u8], TypeView<'a>),
    Constant(&'a [u8], TypeView<'a>),
    /// The number of binders between the variable and its own.
    Bound(usize),
    /// A function and its argument.
    Application(TermView<'a>, TermView<'a>),
    /// The type of the binder's variable, and the body.
    Abstraction(TypeView<'a>, TermView<'a>),
}

impl<'a> TermView<'a> {
    /// A term of a table.
    pub(crate) fn of(table: &'a Terms, number: usize) -> TermView<'a>
        requires { number < length table.now.terms }
        ensures { result ≡ term_at table.now.terms number }
    {
        TermView { table, number }
    }

    /// How the term is built.
    pub fn parts(&self) -> TermParts<'a>
        ensures { term_of_parts result ≡ self.now }
    {
        let table = self.table;
        match table.shape(self.number) {
            TermShape::Free(name, ty) => {
                TermParts::Free(table.name_bytes(name), TypeView::of(table, ty))
            }
            TermShape::Constant(name, ty) => {
                TermParts::Constant(table.name_bytes(name), TypeView::of(table, ty))
            }
            TermShape::Bound(index) => TermParts::Bound(index),
            TermShape::Application(function, argument) => TermParts::Application(
                TermView::of(table, function),
                TermView::of(table, argument),
            ),
            TermShape::Abstraction(ty, body) => {
                TermParts::Abstraction(TypeView::of(table, ty), TermView::of(table, body))
            }
        }
    }
}
