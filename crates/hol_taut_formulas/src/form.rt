// The outermost form of a formula.
ghost use Rattle.std.specs.Prelude.{◌≡◌};
ghost use Rattle.std.specs.Option.{option_map};
ghost use Rattle.hol_model.specs.Logic.Logic.{unary, binary};
ghost use Rattle.hol_model.specs.Terms.HolType.{HolType, type_eq};
ghost use Rattle.hol_model.specs.Terms.NamedTerm.{NamedTerm, constant};
ghost use Rattle.hol_model.specs.Propositional.Propositions as spec;
ghost use Rattle.hol_model.specs.Propositional.Propositions.{proposition, constant_proposition};
ghost use Rattle.hol_taut_formulas.specs.Forms.{meant, proposition_of_form, HasLowerParts, IsWhole};

use crate::Connective;
use hol_terms::{Parts, Term};
use hol_types::{Ty, TypeParts};

/// The outermost form of a formula.
#[derive(Clone, Copy)]
pub enum Form<'a> {
    Atom,
    /// `T` or `F`.
    Constantly(bool),
    Negated(&'a Term),
    Connected(Connective, &'a Term, &'a Term),
}

/// The form of a formula.
pub fn form_of(term: &Term) -> Form<'_>
    ensures meaning { proposition term.now ≡ proposition_of_form term.now result }
    ensures lower { HasLowerParts term.now result }
    ensures whole { IsWhole term.now result }
{
    match term.parts() {
        Parts::Constant(name, _) => form_of_constant(name),
        Parts::Combination(applied, right) => match applied.parts() {
            Parts::Combination(operator, left) => match connective_of(operator) {
                Some(connective) => Form::Connected(connective, left, right),
                None => Form::Atom,
            },
            _ => {
                if is_not(applied) {
                    Form::Negated(right)
                } else {
                    Form::Atom
                }
            }
        },
        _ => Form::Atom,
    }
}

// Whether the type is `bool -> bool`.
fn is_unary(ty: &Ty) -> bool
    ensures { result ≡ type_eq ty.now unary }
{
    match ty.parts() {
        TypeParts::Function(domain, codomain) => domain.is_bool() && codomain.is_bool(),
        _ => false,
    }
}

// Whether the type is `bool -> bool -> bool`.
fn is_binary(ty: &Ty) -> bool
    ensures { result ≡ type_eq ty.now binary }
{
    match ty.parts() {
        TypeParts::Function(domain, codomain) => domain.is_bool() && is_unary(codomain),
        _ => false,
    }
}

// Whether the term is `~`.
fn is_not(term: &Term) -> bool
    ensures { result ≡ spec.is_not term.now }
{
    match term.parts() {
        Parts::Constant(name, ty) => is_unary(ty) && name == "~",
        _ => false,
    }
}

// The binary connective that the term is.
fn connective_of(term: &Term) -> Option<Connective>
    ensures { option_map meant result ≡ spec.connective_of term.now }
{
    match term.parts() {
        Parts::Constant(name, ty) => {
            if is_binary(ty) {
                connective_named(name)
            } else {
                None
            }
        }
        _ => None,
    }
}

// The binary connective of this name.
fn connective_named(name: &str) -> Option<Connective>
    ensures { option_map meant result ≡ spec.connective_named name.now }
{
    if name == "/\\" {
        return Some(Connective::And);
    }
    if name == "\\/" {
        return Some(Connective::Or);
    }
    if name == "==>" {
        return Some(Connective::Implies);
    }
    if name == "=" {
        return Some(Connective::Iff);
    }
    None
}

// The form of a constant of this name.
fn form_of_constant(name: &str) -> Form<'_>
    ensures meaning { (ty : HolType) → constant_proposition name.now ty ≡ proposition_of_form (constant name.now ty) result }
    ensures lower { (term : NamedTerm) → HasLowerParts term result }
    ensures whole { (ty : HolType) → IsWhole (constant name.now ty) result }
{
    if name == "T" {
        return Form::Constantly(true);
    }
    if name == "F" {
        return Form::Constantly(false);
    }
    Form::Atom
}
