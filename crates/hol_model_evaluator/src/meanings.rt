// The meaning of terms.
ghost use Rattle.std.specs.Prelude.{◌≡◌, IfOk};
ghost use Rattle.hol_model.specs.Models.Models as models;
ghost use Rattle.hol_model.specs.Models.Tables as tables;
ghost use Rattle.hol_model_evaluator.specs.Trees.{hol_type, nameless, theory_of};
ghost use Rattle.hol_model_evaluator.specs.Interpretations.{model_of, variable_value, constant_value};
ghost use Rattle.hol_model_evaluator.specs.Frames.{types_of};
ghost use Rattle.hol_model_evaluator.specs.BinderFrames.{values_under};

use crate::carriers::carrier;
use crate::element::Element;
use crate::interpretation::{ConstantElement, Interpretation, VariableElement};
use crate::table::{choice_table, equality_table, first_of, look_up};
use crate::tree::{EntryTree, TermTree, TypeTree};
use crate::types::{Arguments, BinderTypes, argument_carrier, codomain_of, domain_of, same_type};
use std::alloc::{AllocError, Global};

/// The values of the binders around a term, the innermost first.
#[derive(Drop)]
pub enum BinderValues<'a> {
    Outermost,
    Under(&'a Element, &'a BinderValues<'a>),
}

// The value of a binder, or the number 0 where there is no such binder.
fn binder_value(
    alloc: Global,
    binders: &BinderValues<'_>,
    index: usize,
) -> Result<Element, AllocError>
    ensures { IfOk result (λ element. element ≡ models.binder_value (values_under binders.now) index) }
{
    match binders {
        BinderValues::Outermost => Element::number(alloc, 0),
        BinderValues::Under(element, outer) => {
            if index == 0 {
                element.copy()
            } else {
                binder_value(alloc, outer, index - 1)
            }
        }
    }
}

// The value of a free variable, which is the first of its carrier where it is not listed.
fn listed_value(
    alloc: Global,
    variables: &[VariableElement<'_>],
    model: &Interpretation<'_>,
    name: &str,
    ty: &TypeTree<'_>,
) -> Result<Element, AllocError>
    ensures { IfOk result (λ element. element ≡ variable_value variables.now name.now (hol_type ty.now) (tables.first_of (models.carrier (model_of model.now) (hol_type ty.now)))) }
{
    match variables {
        [] => {
            let elements = carrier(alloc, model, ty)?;
            first_of(alloc, &elements)
        }
        [first, rest @ ..] => {
            if first.name == name && same_type(first.ty, ty) {
                first.element.copy()
            } else {
                listed_value(alloc, rest, model, name, ty)
            }
        }
    }
}

// The value of a free variable.
fn free_value(
    alloc: Global,
    model: &Interpretation<'_>,
    name: &str,
    ty: &TypeTree<'_>,
) -> Result<Element, AllocError>
    ensures { IfOk result (λ element. element ≡ (model_of model.now).free_variables name.now (hol_type ty.now)) }
{
    match model {
        Interpretation::Given(choices) => {
            listed_value(alloc, choices.free_variables, model, name, ty)
        }
        Interpretation::Instance(_, _, _) => {
            let elements = carrier(alloc, model, ty)?;
            first_of(alloc, &elements)
        }
    }
}

// The value of a declared constant, which is the number 0 where it is not listed.
fn listed_constant(
    alloc: Global,
    constants: &[ConstantElement<'_>],
    name: &str,
) -> Result<Element, AllocError>
    ensures { IfOk result (λ element. element ≡ constant_value constants.now name.now) }
{
    match constants {
        [] => Element::number(alloc, 0),
        [first, rest @ ..] => {
            if first.name == name {
                first.element.copy()
            } else {
                listed_constant(alloc, rest, name)
            }
        }
    }
}

// The value of a declared constant.
fn declared_value(
    alloc: Global,
    model: &Interpretation<'_>,
    name: &str,
) -> Result<Element, AllocError>
    ensures { IfOk result (λ element. element ≡ (model_of model.now).declared_constants name.now) }
{
    match model {
        Interpretation::Given(choices) => listed_constant(alloc, choices.declared_constants, name),
        Interpretation::Instance(_, _, outer) => declared_value(alloc, outer, name),
    }
}

// The meaning of equality, of choice, and of names that stand for nothing.
fn logical_constant(
    alloc: Global,
    model: &Interpretation<'_>,
    name: &str,
    ty: &TypeTree<'_>,
) -> Result<Element, AllocError>
    ensures { IfOk result (λ element. element ≡ models.logical_constant (model_of model.now) name.now (hol_type ty.now)) }
{
    if "=" == name {
        let elements = carrier(alloc, model, domain_of(ty))?;
        return equality_table(alloc, &elements);
    }
    if "@" == name {
        let elements = carrier(alloc, model, codomain_of(ty))?;
        let predicates = carrier(alloc, model, domain_of(ty))?;
        return choice_table(alloc, &elements, &predicates);
    }
    Element::number(alloc, 0)
}

// The meaning of a constant at a type: a defined one means its body, in the model that its instance gives.
#[cycle(meaning)]
fn constant_meaning(
    alloc: Global,
    theory: &[EntryTree<'_>],
    model: &Interpretation<'_>,
    name: &str,
    ty: &TypeTree<'_>,
) -> Result<Element, AllocError>
    ensures { IfOk result (λ element. element ≡ models.constant_meaning (theory_of theory.now) (model_of model.now) name.now (hol_type ty.now)) }
{
    match theory {
        [] => logical_constant(alloc, model, name, ty),
        [entry, rest @ ..] => match entry {
            EntryTree::Definition(other, generic, body) => {
                if *other == name {
                    meaning(
                        body,
                        alloc,
                        rest,
                        &Interpretation::Instance(generic, &*ty, &*model),
                        &BinderTypes::Outermost,
                        &BinderValues::Outermost,
                    )
                } else {
                    constant_meaning(alloc, rest, model, name, ty)
                }
            }
            EntryTree::DeclaredType(_) => constant_meaning(alloc, rest, model, name, ty),
            EntryTree::DeclaredConstant(other, _) => {
                if *other == name {
                    declared_value(alloc, model, other)
                } else {
                    constant_meaning(alloc, rest, model, name, ty)
                }
            }
        },
    }
}

// The meaning of a term under binders of these types and values.
#[cycle(meaning)]
fn meaning(
    term: &TermTree<'_>,
    alloc: Global,
    theory: &[EntryTree<'_>],
    model: &Interpretation<'_>,
    types: &BinderTypes<'_>,
    values: &BinderValues<'_>,
) -> Result<Element, AllocError>
    ensures { IfOk result (λ element. element ≡ models.meaning (models.constant_meaning (theory_of theory.now) (model_of model.now))
        (model_of model.now) (types_of types.now) (values_under values.now) (nameless term.now)) }
{
    match term {
        TermTree::Free(name, ty) => free_value(alloc, model, name, ty),
        TermTree::Const(name, ty) => constant_meaning(alloc, theory, model, name, ty),
        TermTree::Bound(index) => binder_value(alloc, values, *index),
        TermTree::App(function, argument) => {
            let table = meaning(function, alloc, theory, model, types, values)?;
            let x = meaning(argument, alloc, theory, model, types, values)?;
            let arguments = argument_carrier(function, &Arguments::None, types, alloc, model)?;
            look_up(alloc, &arguments, &table, &x)
        }
        TermTree::Lam(ty, body) => {
            let elements = carrier(alloc, model, ty)?;
            let mut tabulated = Vec::new(alloc);
            for element in &elements {
                let value = meaning(
                    body,
                    alloc,
                    theory,
                    model,
                    &BinderTypes::Under(ty, &*types),
                    &BinderValues::Under(element, &*values),
                )?;
                tabulated.push(value)?;
            }
            Element::table(alloc, tabulated)
        }
    }
}

/// The meaning of a term over a theory, its entries the newest first.
pub fn term_meaning(
    alloc: Global,
    theory: &[EntryTree<'_>],
    model: &Interpretation<'_>,
    term: &TermTree<'_>,
) -> Result<Element, AllocError>
    ensures { IfOk result (λ element. element ≡ models.term_meaning (theory_of theory.now) (model_of model.now) (nameless term.now)) }
{
    meaning(
        term,
        alloc,
        theory,
        model,
        &BinderTypes::Outermost,
        &BinderValues::Outermost,
    )
}
