// Terms as lines write them.
ghost use Rattle.std.specs.Prelude.{◌≡◌, ◌<◌, true, max, length};
ghost use Rattle.hol_model.specs.Terms.HolType.{codomain_of};
ghost use Rattle.hol_model.specs.Terms.NamedTerm.{NamedTerm};
ghost use Rattle.hol_model.specs.Terms.NamedTerm as named;
ghost use Rattle.hol_model.specs.Logs.LogSequents.{variable_name};
ghost use Rattle.hol_model.specs.Logs.LogState.{term_type};
ghost use Rattle.hol_model.specs.Logs.LogFaults.{takes};
ghost use Rattle.hol_check_terms.specs.Terms.{type_at, term_at};
ghost use Rattle.hol_check_written.specs.Written.{IsFree, IsConstant, IsWritten, Writes, IsWrittenAnswer, AnswersWritten, named_constant, is_function};
ghost use Rattle.hol_check_written.specs.declared.written.WrittenShape.TheVariants as shape;

use crate::variables::{Variables, joined, no_variable, one_variable};
use hol_check_terms::terms::{TermShape, Terms};
use hol_check_terms::types::TypeShape;
use hol_check_terms::typing::type_of;
use hol_model::{Fault, TERM_HEIGHT_LIMIT, TERM_NODES_LIMIT};

/// How a line builds a term: of a variable or a constant of the tables, or of the terms of earlier lines.
#[derive(Clone, Copy)]
pub enum WrittenShape {
    Variable(usize),
    Constant(usize),
    Application(usize, usize),
    /// The number of the variable in the tables, and the line of the body.
    Abstraction(usize, usize),
}

/// A term as its line writes it: its type, its height, its number of nodes as a tree, and the variables that may be free
/// in it.
#[derive(Clone, Copy)]
pub struct Written {
    pub shape: WrittenShape,
    pub ty: usize,
    pub height: u32,
    pub nodes: u32,
    pub variables: Variables,
}

/// A variable by its number in the tables, refused where its type is past the limit.
pub fn write_variable(terms: &mut Terms, number: usize) -> Result<Written, Fault>
    requires { IsFree terms.old.terms number }
    ensures { AnswersWritten (named.variable (variable_name (term_at terms.old.terms number)) (term_type (term_at terms.old.terms number))) (shape.Variable number) result terms.old terms.new }
{
    let ty = type_of(terms, number)?;
    Ok(Written {
        shape: WrittenShape::Variable(number),
        ty,
        height: 1,
        nodes: 1,
        variables: one_variable(number),
    })
}

/// A constant by its number in the tables, refused where its type is past the limit.
pub fn write_constant(terms: &mut Terms, number: usize) -> Result<Written, Fault>
    requires { IsConstant terms.old.terms number }
    ensures { AnswersWritten (named_constant (term_at terms.old.terms number)) (shape.Constant number) result terms.old terms.new }
{
    let ty = type_of(terms, number)?;
    Ok(Written {
        shape: WrittenShape::Constant(number),
        ty,
        height: 1,
        nodes: 1,
        variables: no_variable(),
    })
}

/// The application of the term of a line to that of another, which its function takes; refused where it passes a limit.
pub fn write_combination(
    terms: &Terms,
    function: usize,
    argument: usize,
    f: Written,
    a: Written,
) -> Result<Written, Fault>
    requires function { IsWritten terms.now f }
    requires argument { IsWritten terms.now a }
    requires takes { takes (type_at terms.now.types f.ty) (type_at terms.now.types a.ty) ≡ true }
    ensures { (first second : NamedTerm) → Writes terms.now first f → Writes terms.now second a
        → IsWrittenAnswer terms.now (named.combination first second) (shape.Application function argument) result }
{
    let ty = codomain(terms, f.ty);
    let height = taller(f.height, a.height) + 1;
    let nodes = f.nodes + a.nodes + 1;
    if height > TERM_HEIGHT_LIMIT {
        return Err(Fault::TooLarge);
    }
    if nodes > TERM_NODES_LIMIT {
        return Err(Fault::TooLarge);
    }
    Ok(Written {
        shape: WrittenShape::Application(function, argument),
        ty,
        height,
        nodes,
        variables: joined(f.variables, a.variables),
    })
}

// The greater of two heights.
fn taller(first: u32, second: u32) -> u32
    ensures { result ≡ max first second }
{
    if first < second { second } else { first }
}

// The type of answers of a function type.
fn codomain(terms: &Terms, ty: usize) -> usize
    requires ty { ty < length terms.now.types }
    requires function { is_function (type_at terms.now.types ty) ≡ true }
    ensures answer { type_at terms.now.types result ≡ codomain_of (type_at terms.now.types ty) }
    ensures within { result < length terms.now.types }
{
    match terms.type_shape(ty) {
        TypeShape::Function(_domain, answer) => answer,
        _ => unreachable!(),
    }
}

/// The abstraction of the term of a line over a variable of the tables; refused where it passes a limit.
pub fn write_abstraction(
    terms: &mut Terms,
    binder: usize,
    line: usize,
    body: Written,
) -> Result<Written, Fault>
    requires binder { IsFree terms.old.terms binder }
    requires body { IsWritten terms.old body }
    ensures { (term : NamedTerm) → Writes terms.old term body
        → AnswersWritten (named.abstraction (variable_name (term_at terms.old.terms binder)) (term_type (term_at terms.old.terms binder)) term)
        (shape.Abstraction binder line) result terms.old terms.new }
{
    let domain = variable_type(terms, binder);
    let ty = terms.function_type(domain, body.ty)?;
    if body.height == TERM_HEIGHT_LIMIT {
        return Err(Fault::TooLarge);
    }
    if body.nodes == TERM_NODES_LIMIT {
        return Err(Fault::TooLarge);
    }
    Ok(Written {
        shape: WrittenShape::Abstraction(binder, line),
        ty,
        height: body.height + 1,
        nodes: body.nodes + 1,
        variables: body.variables,
    })
}

/// The type of a variable of the tables.
pub(crate) fn variable_type(terms: &Terms, number: usize) -> usize
    requires { IsFree terms.now.terms number }
    ensures ty { type_at terms.now.types result ≡ term_type (term_at terms.now.terms number) }
    ensures within { result < length terms.now.types }
{
    match terms.shape(number) {
        TermShape::Free(_name, ty) => ty,
        _ => unreachable!(),
    }
}
