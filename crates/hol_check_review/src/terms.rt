// Terms as the checker shows them, made as terms with names.
ghost use Rattle.std.specs.Prelude.{◌≡◌, None, Some, IfOk, IsTrue};
ghost use Rattle.hol_model.specs.Terms.Nameless.{free, bound, image, image_under, binder_index};
ghost use Rattle.hol_check_review.specs.Binders.{binders_of};

use crate::names::{Kind, Names};
use crate::types::{text_of_name, type_of};
use hol_check::{TermParts, TermView};
use hol_model::Fault;
use hol_terms::{Term, same_variable};
use hol_types::Ty;
use std::alloc::Global;

/// The binders round a place, by name and type.
#[derive(Drop)]
pub(crate) enum Binders<'a> {
    Outermost,
    // The innermost binder, and those outside it.
    Under(&'a str, &'a Ty, &'a Binders<'a>),
}

// Whether the nearest binder of the variable is that of the number, the innermost being 0.
fn is_bound_at(binders: &Binders<'_>, index: usize, name: &str, ty: &Ty) -> bool
    ensures { IsTrue result → binder_index (binders_of binders.now) name.now ty.now ≡ Some index }
{
    match binders {
        Binders::Outermost => false,
        Binders::Under(other, s, outer) => {
            if same_variable(other, s, name, ty) {
                index == 0
            } else {
                index > 0 && is_bound_at(outer, index - 1, name, ty)
            }
        }
    }
}

// Whether no binder binds the variable.
fn is_unbound(binders: &Binders<'_>, name: &str, ty: &Ty) -> bool
    ensures { IsTrue result → binder_index (binders_of binders.now) name.now ty.now ≡ None }
{
    match binders {
        Binders::Outermost => true,
        Binders::Under(other, s, outer) => {
            !same_variable(other, s, name, ty) && is_unbound(outer, name, ty)
        }
    }
}

// The binder of a number, the innermost being 0.
fn binder_at<'a>(binders: &'a Binders<'a>, index: usize) -> Option<(&'a str, &'a Ty)> {
    match binders {
        Binders::Outermost => None,
        Binders::Under(name, ty, outer) => {
            if index == 0 {
                Some((name, ty))
            } else {
                binder_at(outer, index - 1)
            }
        }
    }
}

// How many binders of a kind there are.
fn count_of(binders: &Binders<'_>, kind: Kind) -> usize {
    match binders {
        Binders::Outermost => 0,
        Binders::Under(_, ty, outer) => {
            let further = count_of(outer, kind);
            if Kind::of(ty) == kind {
                further.saturating_add(1)
            } else {
                further
            }
        }
    }
}

// The variable that the binder of a number binds.
fn bound_variable(alloc: Global, binders: &Binders<'_>, index: usize) -> Result<Term, Fault>
    ensures { IfOk result (λ term. image_under (binders_of binders.now) term ≡ bound index) }
{
    let Some((name, ty)) = binder_at(&*binders, index) else {
        return Err(Fault::TypeMismatch);
    };
    if !is_bound_at(binders, index, name, ty) {
        return Err(Fault::NameTaken);
    }
    Term::mk_var(alloc, name, ty)
}

// The variable that no binder binds.
fn free_variable(alloc: Global, binders: &Binders<'_>, name: &str, ty: &Ty) -> Result<Term, Fault>
    ensures { IfOk result (λ term. image_under (binders_of binders.now) term ≡ free name.now ty.now) }
{
    if !is_unbound(binders, name, ty) {
        return Err(Fault::NameTaken);
    }
    Term::mk_var(alloc, name, ty)
}

// The term that is shown under binders.
fn term_under(
    alloc: Global,
    names: &Names,
    binders: &Binders<'_>,
    view: &TermView<'_>,
) -> Result<Term, Fault>
    ensures { IfOk result (λ term. image_under (binders_of binders.now) term ≡ view.now) }
{
    match view.parts() {
        TermParts::Free(name, ty) => {
            let ty = type_of(alloc, &ty)?;
            free_variable(alloc, binders, text_of_name(name)?, &ty)
        }
        TermParts::Constant(name, ty) => {
            let ty = type_of(alloc, &ty)?;
            Term::mk_const(alloc, text_of_name(name)?, &ty)
        }
        TermParts::Bound(index) => bound_variable(alloc, binders, index),
        TermParts::Application(function, argument) => {
            let function = term_under(alloc, names, binders, &function)?;
            let argument = term_under(alloc, names, binders, &argument)?;
            Term::mk_comb(alloc, &function, &argument)
        }
        TermParts::Abstraction(ty, body) => {
            let ty = type_of(alloc, &ty)?;
            let kind = Kind::of(&ty);
            let Some(name) = names.get(kind, count_of(binders, kind)) else {
                return Err(Fault::TooLarge);
            };
            let variable = Term::mk_var(alloc, name, &ty)?;
            let body = term_under(alloc, names, &Binders::Under(name, &ty, &*binders), &body)?;
            Term::mk_abs(alloc, &variable, &body)
        }
    }
}

/// A term whose image is the term that is shown. The names of its bound variables are made up.
pub(crate) fn term_of(alloc: Global, names: &Names, view: &TermView<'_>) -> Result<Term, Fault>
    ensures { IfOk result (λ term. image term ≡ view.now) }
{
    term_under(alloc, names, &Binders::Outermost, view)
}
