// The carriers of types.
ghost use Rattle.std.specs.Prelude.{◌≡◌, ◌∷◌, [], map, IfOk};
ghost use Rattle.std.specs.Option.{option_map};
ghost use Rattle.hol_model.specs.Terms.HolType as types;
ghost use Rattle.hol_model.specs.Models.Models as models;
ghost use Rattle.hol_model.specs.Models.Values.{number, falsity, truth};
ghost use Rattle.hol_model_evaluator.specs.Trees.{hol_type};
ghost use Rattle.hol_model_evaluator.specs.Interpretations.{model_of, carrier_named};

use crate::element::{Element, copies};
use crate::interpretation::{Interpretation, NamedCarrier};
use crate::table::all_tables;
use crate::tree::TypeTree;
use std::alloc::{AllocError, Global};

// What stands in the type where the type variable first stands in the generic one.
fn part_at<'a>(generic: &TypeTree<'_>, ty: &'a TypeTree<'a>, name: &str) -> Option<&'a TypeTree<'a>>
    ensures { option_map (λ part. hol_type part.now) result ≡ types.part_at (hol_type generic.now) (hol_type ty.now) name.now }
{
    match generic {
        TypeTree::Variable(other) => { if *other == name { Some(ty) } else { None } }
        TypeTree::Function(a, b) => match ty {
            TypeTree::Function(c, d) => match part_at(a, c, name) {
                Some(part) => Some(part),
                None => part_at(b, d, name),
            },
            _ => None,
        },
        _ => None,
    }
}

// The number 0 alone.
fn zero_alone(alloc: Global) -> Result<Vec<Element>, AllocError>
    ensures { IfOk result (λ elements. elements.items ≡ number 0 ∷ []) }
{
    let zero = Element::number(alloc, 0)?;
    let mut elements = Vec::new(alloc);
    elements.push(zero)?;
    Ok(elements)
}

// The carrier of `bool`.
fn truth_values(alloc: Global) -> Result<Vec<Element>, AllocError>
    ensures { IfOk result (λ elements. elements.items ≡ falsity ∷ truth ∷ []) }
{
    let no = Element::number(alloc, 0)?;
    let yes = Element::number(alloc, 1)?;
    let mut elements = Vec::new(alloc);
    elements.push(no)?;
    elements.push(yes)?;
    Ok(elements)
}

// The carrier of a name.
fn named_carrier(
    alloc: Global,
    carriers: &[NamedCarrier<'_>],
    name: &str,
) -> Result<Vec<Element>, AllocError>
    ensures { IfOk result (λ elements. elements.items ≡ carrier_named carriers.now name.now) }
{
    match carriers {
        [] => zero_alone(alloc),
        [first, rest @ ..] => {
            if first.name == name {
                copies(alloc, &first.elements)
            } else {
                named_carrier(alloc, rest, name)
            }
        }
    }
}

// The carrier of a declared type.
fn declared_carrier(
    alloc: Global,
    model: &Interpretation<'_>,
    name: &str,
) -> Result<Vec<Element>, AllocError>
    ensures { IfOk result (λ elements. elements.items ≡ models.carrier (model_of model.now) (types.declared_type name.now)) }
{
    match model {
        Interpretation::Given(choices) => named_carrier(alloc, choices.declared_types, name),
        Interpretation::Instance(_, _, outer) => declared_carrier(alloc, outer, name),
    }
}

/// The carrier of a type.
pub fn carrier(
    alloc: Global,
    model: &Interpretation<'_>,
    ty: &TypeTree<'_>,
) -> Result<Vec<Element>, AllocError>
    ensures { IfOk result (λ elements. elements.items ≡ models.carrier (model_of model.now) (hol_type ty.now)) }
{
    match ty {
        TypeTree::Variable(name) => match model {
            Interpretation::Given(choices) => named_carrier(alloc, choices.type_variables, name),
            Interpretation::Instance(generic, instance, outer) => match part_at(
                generic, instance, name,
            ) {
                Some(part) => carrier(alloc, outer, part),
                None => zero_alone(alloc),
            },
        },
        TypeTree::Bool => truth_values(alloc),
        TypeTree::Function(a, b) => {
            let arguments = carrier(alloc, model, a)?;
            let values = carrier(alloc, model, b)?;
            all_tables(alloc, &arguments, &values)
        }
        TypeTree::Declared(name) => declared_carrier(alloc, model, name),
    }
}
