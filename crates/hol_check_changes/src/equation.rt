// Forms of terms: variables, equations and abstractions that are applied.
ghost use Rattle.std.specs.Prelude.{◌≡◌, ◌<◌, true, Some, slice_get, length, IfOk, IfErr};
ghost use Rattle.hol_model.specs.declared.fault.Fault.TheVariants.{Memory};
ghost use Rattle.hol_model.specs.Logs.LogSequents as sequents;
ghost use Rattle.hol_model.specs.Logs.LogFaults as faults;
ghost use Rattle.std.specs.Str.{bytes_eq};
ghost use Rattle.hol_model.specs.Logic.Theory.{equality_name};
ghost use Rattle.hol_check_terms.specs.Terms.{name_at, type_at, term_at, IsGrown};
ghost use Rattle.hol_check_changes.specs.Change.{IsVariable};
ghost use Rattle.hol_check_changes.specs.Forming.{is_absent_variable};

use hol_check_terms::occurs::occurs_free;
use hol_check_terms::terms::{TermShape, Terms};
use hol_check_terms::types::TypeShape;
use hol_model::Fault;

/// Whether a term is a variable.
pub fn is_free_variable(terms: &Terms, number: usize) -> bool
    requires { number < length terms.now.terms }
    ensures { result ≡ sequents.is_free_variable (term_at terms.now.terms number) }
{
    match terms.shape(number) {
        TermShape::Free(_name, _ty) => true,
        _ => false,
    }
}

/// Whether a term is an equation.
pub fn is_equation(terms: &Terms, number: usize) -> bool
    requires { number < length terms.now.terms }
    ensures { result ≡ sequents.is_equation (term_at terms.now.terms number) }
{
    match terms.shape(number) {
        TermShape::Application(half, _right) => match terms.shape(half) {
            TermShape::Application(equality, _left) => match terms.shape(equality) {
                TermShape::Constant(name, _ty) => is_equality_name(terms, name),
                _ => false,
            },
            _ => false,
        },
        _ => false,
    }
}

// Whether a name is that of equality.
fn is_equality_name(terms: &Terms, name: usize) -> bool
    requires { name < length terms.now.names }
    ensures { result ≡ bytes_eq (name_at terms.now.names name) equality_name }
{
    terms.name_bytes(name) == b"=".as_slice()
}

/// The left side of an equation.
pub fn left_side(terms: &Terms, number: usize) -> usize
    requires { number < length terms.now.terms }
    ensures side { term_at terms.now.terms result ≡ sequents.left_side (term_at terms.now.terms number) }
    ensures within { result < length terms.now.terms }
{
    match terms.shape(number) {
        TermShape::Application(half, _right) => match terms.shape(half) {
            TermShape::Application(_equality, left) => left,
            _ => number,
        },
        _ => number,
    }
}

/// The right side of an equation.
pub fn right_side(terms: &Terms, number: usize) -> usize
    requires { number < length terms.now.terms }
    ensures side { term_at terms.now.terms result ≡ sequents.right_side (term_at terms.now.terms number) }
    ensures within { result < length terms.now.terms }
{
    match terms.shape(number) {
        TermShape::Application(_half, right) => right,
        _ => number,
    }
}

/// Whether an abstraction is applied to a variable that is not free in its body.
pub fn is_trivial_redex(terms: &Terms, number: usize) -> Result<bool, Fault>
    requires { number < length terms.now.terms }
    ensures trivial { IfOk result (λ answer. answer ≡ faults.is_trivial_redex (term_at terms.now.terms number)) }
    ensures refused { IfErr result (λ fault. fault ≡ Memory) }
{
    match terms.shape(number) {
        TermShape::Application(function, argument) => match terms.shape(function) {
            TermShape::Abstraction(_ty, body) => is_absent_variable(terms, argument, body),
            _ => Ok(false),
        },
        _ => Ok(false),
    }
}

// Whether a term is a variable that is not free in another.
fn is_absent_variable(terms: &Terms, variable: usize, body: usize) -> Result<bool, Fault>
    requires variable { variable < length terms.now.terms }
    requires body { body < length terms.now.terms }
    ensures absent { IfOk result (λ answer. answer ≡ is_absent_variable (term_at terms.now.terms variable) (term_at terms.now.terms body)) }
    ensures refused { IfErr result (λ fault. fault ≡ Memory) }
{
    match terms.shape(variable) {
        TermShape::Free(_name, _ty) => Ok(!occurs_free(terms, variable, body)?),
        _ => Ok(false),
    }
}
