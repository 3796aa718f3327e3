// The types of terms.
ghost use Rattle.std.specs.Prelude.{◌≡◌, IfOk};
ghost use Rattle.hol_model.specs.Terms.HolType as types;
ghost use Rattle.hol_model.specs.Models.Models as models;
ghost use Rattle.hol_model.specs.Terms.Nameless as terms;
ghost use Rattle.hol_model_evaluator.specs.Trees.{hol_type, nameless};
ghost use Rattle.hol_model_evaluator.specs.Interpretations.{model_of};
ghost use Rattle.hol_model_evaluator.specs.Frames.{types_of, taken};

use crate::carriers::carrier;
use crate::element::Element;
use crate::interpretation::Interpretation;
use crate::tree::{TermTree, TypeTree};
use std::alloc::{AllocError, Global};

/// The types of the binders around a term, the innermost first.
#[derive(Drop)]
pub enum BinderTypes<'a> {
    Outermost,
    Under(&'a TypeTree<'a>, &'a BinderTypes<'a>),
}

/// How many arguments a term is applied to.
#[derive(Drop)]
pub enum Arguments<'a> {
    None,
    OneMore(&'a Arguments<'a>),
}

static BOOL: TypeTree<'static> = TypeTree::Bool;

/// Whether two types are the same.
pub fn same_type(a: &TypeTree<'_>, b: &TypeTree<'_>) -> bool
    ensures { result ≡ types.type_eq (hol_type a.now) (hol_type b.now) }
{
    match (a, b) {
        (TypeTree::Variable(x), TypeTree::Variable(y)) => x == y,
        (TypeTree::Bool, TypeTree::Bool) => true,
        (TypeTree::Function(s, t), TypeTree::Function(u, v)) => same_type(s, u) && same_type(t, v),
        (TypeTree::Declared(x), TypeTree::Declared(y)) => x == y,
        _ => false,
    }
}

/// The type of arguments of a function type.
pub fn domain_of<'a>(ty: &'a TypeTree<'a>) -> &'a TypeTree<'a>
    ensures { hol_type result.now ≡ types.domain_of (hol_type ty.now) }
{
    match ty {
        TypeTree::Function(domain, _) => domain,
        _ => &BOOL,
    }
}

/// The type of answers of a function type.
pub fn codomain_of<'a>(ty: &'a TypeTree<'a>) -> &'a TypeTree<'a>
    ensures { hol_type result.now ≡ types.codomain_of (hol_type ty.now) }
{
    match ty {
        TypeTree::Function(_, codomain) => codomain,
        _ => &BOOL,
    }
}

// The type of arguments that a function of this type takes after these.
fn next_domain<'a>(arguments: &Arguments<'_>, ty: &'a TypeTree<'a>) -> &'a TypeTree<'a>
    ensures { hol_type result.now ≡ types.domain_of (taken arguments.now (hol_type ty.now)) }
{
    match arguments {
        Arguments::None => domain_of(ty),
        Arguments::OneMore(rest) => next_domain(rest, codomain_of(ty)),
    }
}

// The type of a binder, or `bool` where there is no such binder.
fn binder_type<'a>(binders: &BinderTypes<'a>, index: usize) -> &'a TypeTree<'a>
    ensures { hol_type result.now ≡ terms.binder_type (types_of binders.now) index }
{
    match binders {
        BinderTypes::Outermost => &BOOL,
        BinderTypes::Under(ty, outer) => {
            if index == 0 {
                ty
            } else {
                binder_type(outer, index - 1)
            }
        }
    }
}

/// The carrier of the type of arguments that a term takes after these.
pub fn argument_carrier(
    term: &TermTree<'_>,
    arguments: &Arguments<'_>,
    binders: &BinderTypes<'_>,
    alloc: Global,
    model: &Interpretation<'_>,
) -> Result<Vec<Element>, AllocError>
    ensures { IfOk result (λ elements. elements.items ≡ models.carrier (model_of model.now)
        (types.domain_of (taken arguments.now (terms.nameless_type (types_of binders.now) (nameless term.now))))) }
{
    match term {
        TermTree::Free(_, ty) => carrier(alloc, model, next_domain(arguments, ty)),
        TermTree::Const(_, ty) => carrier(alloc, model, next_domain(arguments, ty)),
        TermTree::Bound(index) => {
            carrier(
                alloc,
                model,
                next_domain(arguments, binder_type(binders, *index)),
            )
        }
        TermTree::App(function, _) => {
            argument_carrier(
                function,
                &Arguments::OneMore(&*arguments),
                binders,
                alloc,
                model,
            )
        }
        TermTree::Lam(ty, body) => match arguments {
            Arguments::None => carrier(alloc, model, ty),
            Arguments::OneMore(rest) => {
                argument_carrier(body, rest, &BinderTypes::Under(ty, &*binders), alloc, model)
            }
        },
    }
}
