// Terms that the steps of a log make of others.
ghost use Rattle.std.specs.Prelude.{◌≡◌, ◌⊎◌, ◌<◌, ℕ, List, Some, slice_get, length, IfOk, IfErr};
ghost use Rattle.hol_model.specs.declared.fault.Fault.TheVariants.{Memory, TooLarge};
ghost use Rattle.hol_model.specs.Terms.HolType.{HolType, bool_type, domain_of, type_eq};
ghost use Rattle.hol_model.specs.Terms.Nameless.{Nameless, free, const, app, lam};
ghost use Rattle.hol_model.specs.Terms.Substitution as substitution;
ghost use Rattle.hol_model.specs.Logic.Theory as theory;
ghost use Rattle.hol_model.specs.Logic.Derivable.{nameless_equation};
ghost use Rattle.hol_model.specs.Logs.LogState.{term_type};
ghost use Rattle.hol_model.specs.Logs.LogSequents as sequents;
ghost use Rattle.hol_model.specs.Logs.LogFaults as faults;
ghost use Rattle.hol_check_terms.specs.Terms.{name_at, type_at, term_at, IsGrown};
ghost use Rattle.hol_check_changes.specs.Change.{IsVariable, IsMade};
ghost use Rattle.hol_check_changes.specs.Forming.{IsFormed, IsMadeType, argument_type, IsFitting};

use crate::change::{close, fill};
use hol_check_terms::terms::{TermShape, Terms};
use hol_check_terms::types::TypeShape;
use hol_check_terms::typing::type_of;
use hol_model::Fault;

/// A term again, refused where it is past the limits.
pub fn within_limits(terms: &mut Terms, number: usize) -> Result<usize, Fault>
    requires { number < length terms.old.terms }
    ensures formed { IsFormed (term_at terms.old.terms number) result terms.new.terms }
    ensures grows { IsGrown terms.old terms.new }
{
    type_of(terms, number)?;
    Ok(number)
}

// The type of equality between terms of a type.
fn equality_type(terms: &mut Terms, ty: usize) -> Result<usize, Fault>
    requires { ty < length terms.old.types }
    ensures made { IsMadeType (theory.equality_type (type_at terms.old.types ty)) result terms.new.types }
    ensures grows { IsGrown terms.old terms.new }
{
    let boolean = terms.boolean()?;
    let predicates = terms.function_type(ty, boolean)?;
    terms.function_type(ty, predicates)
}

/// The constant of a name at a type.
pub fn constant(terms: &mut Terms, name: &[u8], ty: usize) -> Result<usize, Fault>
    requires { ty < length terms.old.types }
    ensures number { IfOk result (λ number. slice_get terms.new.terms number ≡ Some (const name.now (type_at terms.old.types ty))) }
    ensures refused { IfErr result (λ fault. fault ≡ Memory) }
    ensures grows { IsGrown terms.old terms.new }
{
    let name = terms.name(name)?;
    terms.constant(name, ty)
}

/// The variable of a name and a type.
pub fn variable(terms: &mut Terms, name: &[u8], ty: usize) -> Result<usize, Fault>
    requires { ty < length terms.old.types }
    ensures number { IfOk result (λ number. slice_get terms.new.terms number ≡ Some (free name.now (type_at terms.old.types ty))) }
    ensures refused { IfErr result (λ fault. fault ≡ Memory) }
    ensures grows { IsGrown terms.old terms.new }
{
    let name = terms.name(name)?;
    terms.free(name, ty)
}

/// A function applied to an argument.
pub fn application(terms: &mut Terms, function: usize, argument: usize) -> Result<usize, Fault>
    requires function { function < length terms.old.terms }
    requires argument { argument < length terms.old.terms }
    ensures made { IsMade (app (term_at terms.old.terms function) (term_at terms.old.terms argument)) result terms.new.terms }
    ensures grows { IsGrown terms.old terms.new }
{
    terms.application(function, argument)
}

/// The abstraction of a body over a variable.
pub fn abstraction_over(terms: &mut Terms, variable: usize, number: usize) -> Result<usize, Fault>
    requires variable { IsVariable terms.old.terms variable }
    requires number { number < length terms.old.terms }
    ensures made { IsMade (sequents.abstraction_over (term_at terms.old.terms variable) (term_at terms.old.terms number)) result terms.new.terms }
    ensures grows { IsGrown terms.old terms.new }
{
    let ty = variable_type(terms, variable);
    let body = close(terms, variable, number)?;
    terms.abstraction(ty, body)
}

// The type of a variable.
fn variable_type(terms: &Terms, variable: usize) -> usize
    requires { IsVariable terms.now.terms variable }
    ensures ty { type_at terms.now.types result ≡ term_type (term_at terms.now.terms variable) }
    ensures within { result < length terms.now.types }
{
    match terms.shape(variable) {
        TermShape::Free(_name, ty) => ty,
        _ => unreachable!(),
    }
}

/// The body of an abstraction that is applied, with the argument in it.
pub(crate) fn redex_body(terms: &mut Terms, number: usize) -> Result<usize, Fault>
    requires { number < length terms.old.terms }
    ensures made { IsMade (sequents.redex_body (term_at terms.old.terms number)) result terms.new.terms }
    ensures grows { IsGrown terms.old terms.new }
{
    match terms.shape(number) {
        TermShape::Application(function, argument) => match terms.shape(function) {
            TermShape::Abstraction(_ty, body) => fill(terms, argument, body),
            TermShape::Free(_name, _ty) => Ok(number),
            TermShape::Constant(_name, _ty) => Ok(number),
            TermShape::Bound(_index) => Ok(number),
            TermShape::Application(_function, _argument) => Ok(number),
        },
        TermShape::Free(_name, _ty) => Ok(number),
        TermShape::Constant(_name, _ty) => Ok(number),
        TermShape::Bound(_index) => Ok(number),
        TermShape::Abstraction(_ty, _body) => Ok(number),
    }
}

/// The type of the sides of an equation.
pub(crate) fn side_type(terms: &mut Terms, number: usize) -> Result<usize, Fault>
    requires { number < length terms.old.terms }
    ensures number { IfOk result (λ ty. slice_get terms.new.types ty ≡ Some (sequents.side_type (term_at terms.old.terms number))) }
    ensures refused { IfErr result (λ fault. fault ≡ Memory) }
    ensures grows { IsGrown terms.old terms.new }
{
    match terms.shape(number) {
        TermShape::Application(half, _right) => match terms.shape(half) {
            TermShape::Application(equality, _left) => argument_type(terms, equality),
            _ => terms.boolean(),
        },
        _ => terms.boolean(),
    }
}

// The type of arguments of a constant, or `bool` for another term.
fn argument_type(terms: &mut Terms, number: usize) -> Result<usize, Fault>
    requires { number < length terms.old.terms }
    ensures number { IfOk result (λ ty. slice_get terms.new.types ty ≡ Some (argument_type (term_at terms.old.terms number))) }
    ensures refused { IfErr result (λ fault. fault ≡ Memory) }
    ensures grows { IsGrown terms.old terms.new }
{
    match terms.shape(number) {
        TermShape::Constant(_name, ty) => domain(terms, ty),
        _ => terms.boolean(),
    }
}

// The type of arguments of a function type, or `bool` for another type.
fn domain(terms: &mut Terms, ty: usize) -> Result<usize, Fault>
    requires { ty < length terms.old.types }
    ensures number { IfOk result (λ domain. slice_get terms.new.types domain ≡ Some (domain_of (type_at terms.old.types ty))) }
    ensures refused { IfErr result (λ fault. fault ≡ Memory) }
    ensures grows { IsGrown terms.old terms.new }
{
    match terms.type_shape(ty) {
        TypeShape::Function(domain, _codomain) => Ok(domain),
        _ => terms.boolean(),
    }
}

/// Whether a function of a type takes arguments of another.
pub fn takes(terms: &Terms, function: usize, argument: usize) -> bool
    requires function { function < length terms.now.types }
    requires argument { argument < length terms.now.types }
    ensures { result ≡ faults.takes (type_at terms.now.types function) (type_at terms.now.types argument) }
{
    match terms.type_shape(function) {
        TypeShape::Function(domain, _codomain) => terms.is_same_type(domain, argument),
        _ => false,
    }
}

/// The equation of two terms, of the type of the first.
pub fn equation_of(terms: &mut Terms, left: usize, right: usize) -> Result<usize, Fault>
    requires left { left < length terms.old.terms }
    requires right { right < length terms.old.terms }
    ensures formed { IsFormed (sequents.equation_of (term_at terms.old.terms left) (term_at terms.old.terms right)) result terms.new.terms }
    ensures grows { IsGrown terms.old terms.new }
{
    let ty = type_of(terms, left)?;
    equation_at(terms, ty, left, right)
}

// The equation of two terms at a type.
fn equation_at(terms: &mut Terms, ty: usize, left: usize, right: usize) -> Result<usize, Fault>
    requires ty { ty < length terms.old.types }
    requires left { left < length terms.old.terms }
    requires right { right < length terms.old.terms }
    ensures formed { IsFormed (nameless_equation (type_at terms.old.types ty) (term_at terms.old.terms left) (term_at terms.old.terms right)) result terms.new.terms }
    ensures grows { IsGrown terms.old terms.new }
{
    let equality_ty = equality_type(terms, ty)?;
    let equality = constant(terms, b"=", equality_ty)?;
    applied_to_both(terms, equality, left, right)
}

// A function applied to two arguments, within the limits.
fn applied_to_both(
    terms: &mut Terms,
    function: usize,
    left: usize,
    right: usize,
) -> Result<usize, Fault>
    requires function { function < length terms.old.terms }
    requires left { left < length terms.old.terms }
    requires right { right < length terms.old.terms }
    ensures formed { IsFormed (app (app (term_at terms.old.terms function) (term_at terms.old.terms left)) (term_at terms.old.terms right)) result terms.new.terms }
    ensures grows { IsGrown terms.old terms.new }
{
    let half = application(terms, function, left)?;
    let whole = application(terms, half, right)?;
    within_limits(terms, whole)
}

/// The equation of two functions applied to arguments.
pub fn equation_of_applications(
    terms: &mut Terms,
    left: (usize, usize),
    right: (usize, usize),
) -> Result<usize, Fault>
    requires left_function { left.0 < length terms.old.terms }
    requires left_argument { left.1 < length terms.old.terms }
    requires right_function { right.0 < length terms.old.terms }
    requires right_argument { right.1 < length terms.old.terms }
    ensures formed { IsFormed (sequents.equation_of (app (term_at terms.old.terms left.0) (term_at terms.old.terms left.1))
        (app (term_at terms.old.terms right.0) (term_at terms.old.terms right.1))) result terms.new.terms }
    ensures grows { IsGrown terms.old terms.new }
{
    let left = application(terms, left.0, left.1)?;
    let right = application(terms, right.0, right.1)?;
    equation_of(terms, left, right)
}

/// The equation of the abstractions of two bodies over a variable.
pub fn equation_of_abstractions(
    terms: &mut Terms,
    variable: usize,
    left: usize,
    right: usize,
) -> Result<usize, Fault>
    requires variable { IsVariable terms.old.terms variable }
    requires left { left < length terms.old.terms }
    requires right { right < length terms.old.terms }
    ensures formed { let over = sequents.abstraction_over (term_at terms.old.terms variable) in
        IsFormed (sequents.equation_of (over (term_at terms.old.terms left)) (over (term_at terms.old.terms right))) result terms.new.terms }
    ensures grows { IsGrown terms.old terms.new }
{
    let left = abstraction_over(terms, variable, left)?;
    let right = abstraction_over(terms, variable, right)?;
    equation_of(terms, left, right)
}

/// The equation of an abstraction that is applied and its body with the argument in it.
pub fn equation_of_redex(terms: &mut Terms, redex: usize) -> Result<usize, Fault>
    requires { redex < length terms.old.terms }
    ensures formed { IsFormed (sequents.equation_of (term_at terms.old.terms redex) (sequents.redex_body (term_at terms.old.terms redex))) result terms.new.terms }
    ensures grows { IsGrown terms.old terms.new }
{
    let body = redex_body(terms, redex)?;
    equation_of(terms, redex, body)
}

/// Whether the function on the sides of an equation takes what is on the sides of another.
pub fn sides_fit(terms: &mut Terms, first: usize, second: usize) -> Result<bool, Fault>
    requires first { first < length terms.old.terms }
    requires second { second < length terms.old.terms }
    ensures fit { IfOk result (λ answer. answer ≡ faults.takes (sequents.side_type (term_at terms.old.terms first)) (sequents.side_type (term_at terms.old.terms second))) }
    ensures refused { IfErr result (λ fault. fault ≡ Memory) }
    ensures grows { IsGrown terms.old terms.new }
{
    let function = side_type(terms, first)?;
    let argument = side_type(terms, second)?;
    Ok(takes(terms, function, argument))
}

/// The type of a term within the limits, which only memory refuses.
pub fn fitting_type(terms: &mut Terms, number: usize) -> Result<usize, Fault>
    requires { IsFitting terms.old.terms number }
    ensures number { IfOk result (λ ty. slice_get terms.new.types ty ≡ Some (term_type (term_at terms.old.terms number))) }
    ensures refused { IfErr result (λ fault. fault ≡ Memory) }
    ensures grows { IsGrown terms.old terms.new }
{
    match type_of(terms, number) {
        Ok(ty) => Ok(ty),
        Err(_fault) => Err(Fault::Memory),
    }
}

/// Whether a term within the limits is of type `bool`.
pub fn is_formula(terms: &mut Terms, number: usize) -> Result<bool, Fault>
    requires { IsFitting terms.old.terms number }
    ensures formula { IfOk result (λ answer. answer ≡ type_eq (term_type (term_at terms.old.terms number)) bool_type) }
    ensures refused { IfErr result (λ fault. fault ≡ Memory) }
    ensures grows { IsGrown terms.old terms.new }
{
    let ty = fitting_type(terms, number)?;
    let boolean = terms.boolean()?;
    Ok(terms.is_same_type(ty, boolean))
}

/// Whether two terms within the limits have one type.
pub fn have_one_type(terms: &mut Terms, first: usize, second: usize) -> Result<bool, Fault>
    requires first { IsFitting terms.old.terms first }
    requires second { IsFitting terms.old.terms second }
    ensures one { IfOk result (λ answer. answer ≡ type_eq (term_type (term_at terms.old.terms first)) (term_type (term_at terms.old.terms second))) }
    ensures refused { IfErr result (λ fault. fault ≡ Memory) }
    ensures grows { IsGrown terms.old terms.new }
{
    let first_ty = fitting_type(terms, first)?;
    let second_ty = fitting_type(terms, second)?;
    Ok(terms.is_same_type(first_ty, second_ty))
}
