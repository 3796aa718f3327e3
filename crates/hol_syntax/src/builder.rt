// The makers of a term's nodes: each answers the term or the node's first refusal.
ghost use Rattle.std.specs.Prelude.{MatchOption, IfOk, IfErr, IsFalse, IsTrue, ◌≡◌, List, ℕ, None, Some, Ok, codes};
ghost use Rattle.hol_model.specs.declared.fault.Fault.TheVariants.{UnknownConst};
ghost use Rattle.hol_model.specs.Terms.HolType.{HolType, type_eq};
ghost use Rattle.hol_model.specs.Terms.Name as names;
ghost use Rattle.hol_model.specs.Terms.NamedTerm.{variable, abstraction, constant, combination, equation, type_of};
ghost use Rattle.hol_model.specs.Logic.Theory.{choice_name, choice_type};
ghost use Rattle.hol_model.specs.Texts.Reading.{Bindings, bound_type, bare_name, known_constant, fitting_type, quantifier_type, constant_at, named_variable, well_typed, connective, truth_operation, infix_term, negation, join, bind, bare_constant, is_closed_type};
ghost use Rattle.hol_model.specs.Kernel.Outcome.{Answers};
ghost use Rattle.hol_syntax.specs.Scope.{scope_of};
ghost use Rattle.hol_syntax_grammar.specs.Grammar.{infix_here, binder_here};
ghost use Rattle.hol_syntax.specs.Building.{limited_constant};
ghost use Rattle.hol_syntax.specs.OpenBinders.{IsOpened};

use crate::binders::Binders;
use crate::quantifier::is_quantifier_instance;
use crate::scope::Scope;
use crate::types::identifier;
use hol_model::{Fault, is_constant_name};
use hol_syntax_grammar::grammar::{Binder, Infix};
use hol_terms::{Term, mk_eq};
use hol_types::{Ty, TypeParts, is_instance};
use std::alloc::Global;

/// A function applied to an argument.
pub fn apply(alloc: Global, function: &Term, argument: &Term) -> Result<Term, Fault>
    ensures { Answers result (well_typed (combination function.now argument.now)) }
{
    Term::mk_comb(alloc, function, argument)
}

// An infix between two truth values.
fn join_truths(alloc: Global, operator: &Term, left: &Term, right: &Term) -> Result<Term, Fault>
    requires { type_of operator.now ≡ Some truth_operation }
    ensures { Answers result (well_typed (combination (combination operator.now left.now) right.now)) }
{
    if !left.ty().is_bool() || !right.ty().is_bool() {
        return Err(Fault::TypeMismatch);
    }
    let applied = Term::mk_comb(alloc, operator, left)?;
    Term::mk_comb(alloc, &applied, right)
}

// The type of the connectives between truth values.
fn truth_operation_type(alloc: Global) -> Result<Ty, Fault>
    ensures { Answers result (Ok truth_operation) }
{
    let truth = Ty::boolean(alloc)?;
    let predicate = Ty::fun(alloc, &truth, &truth)?;
    Ty::fun(alloc, &truth, &predicate)
}

// Whether the type is that of the connectives between truth values.
fn is_truth_operation(ty: &Ty) -> bool
    ensures { result ≡ type_eq ty.now truth_operation }
{
    let Some((left, predicate)) = ty.dest_fun() else {
        return false;
    };
    let Some((right, answer)) = predicate.dest_fun() else {
        return false;
    };
    left.is_bool() && right.is_bool() && answer.is_bool()
}

// The type of the connectives between truth values, as a copy of the given type where that is the same.
fn shared_truth_operation(alloc: Global, ty: &Ty) -> Result<Ty, Fault>
    ensures { Answers result (Ok truth_operation) }
{
    if is_truth_operation(ty) {
        return ty.copy(alloc);
    }
    truth_operation_type(alloc)
}

/// The variable of this name and type.
pub fn variable(alloc: Global, name: &[u8], ty: &Ty) -> Result<Term, Fault>
    ensures { Answers result (named_variable name.now ty.now) }
{
    match identifier(name) {
        Some(name) => Term::mk_var(alloc, name, ty),
        None => Err(Fault::BadName),
    }
}

/// Whether no type variable stands in the type.
pub fn is_closed(ty: &Ty) -> bool
    ensures { result ≡ is_closed_type ty.now }
{
    match ty.parts() {
        TypeParts::Variable(_) => false,
        TypeParts::Bool | TypeParts::Declared(_) => true,
        TypeParts::Function(domain, codomain) => is_closed(domain) && is_closed(codomain),
    }
}

// The generic type of a constant, which has to be known.
fn generic_type<'a>(scope: &'a Scope, name: &str) -> Result<&'a Ty, Fault>
    ensures ok { IfOk result (λ generic. Some generic.now ≡ (scope_of scope.now).generic_type name.now) }
    ensures err { IfErr result (λ fault. (fault ≡ UnknownConst) × ((scope_of scope.now).generic_type name.now ≡ None)) }
{
    scope.const_type(name).ok_or(Fault::UnknownConst)
}

// The constant of this generic type at a type, which has to be an instance of it.
fn constant_at(alloc: Global, generic: &Ty, name: &str, ty: &Ty) -> Result<Term, Fault>
    requires { IsTrue (names.is_constant_name name.now) }
    ensures { Answers result (constant_at (Some generic.now) name.now ty.now) }
{
    if !is_instance(generic, ty) {
        return Err(Fault::NotInstance);
    }
    Term::mk_const(alloc, name, ty)
}

/// A negation.
pub fn negate(alloc: Global, scope: &Scope, term: &Term) -> Result<Term, Fault>
    ensures { Answers result (negation (scope_of scope.now) term.now) }
{
    let generic = generic_type(scope, "~")?;
    let truth = Ty::boolean(alloc)?;
    let ty = Ty::fun(alloc, &truth, &truth)?;
    let operator = constant_at(alloc, generic, "~", &ty)?;
    apply(alloc, &operator, term)
}

// Two terms under a connective that has to be known.
fn join_known(
    alloc: Global,
    scope: &Scope,
    name: &str,
    left: &Term,
    right: &Term,
) -> Result<Term, Fault>
    requires { IsTrue (names.is_constant_name name.now) }
    ensures { Answers result (connective (scope_of scope.now) name.now truth_operation (infix_term name.now truth_operation left.now right.now)) }
{
    let generic = generic_type(scope, name)?;
    let ty = shared_truth_operation(alloc, generic)?;
    let operator = constant_at(alloc, generic, name, &ty)?;
    join_truths(alloc, &operator, left, right)
}

// An equation.
fn equate(alloc: Global, left: &Term, right: &Term) -> Result<Term, Fault>
    ensures { Answers result (well_typed (equation left.now right.now)) }
{
    mk_eq(alloc, left, right)
}

/// Two terms under an infix.
pub fn join(
    alloc: Global,
    scope: &Scope,
    operation: Infix,
    left: &Term,
    right: &Term,
) -> Result<Term, Fault>
    ensures { Answers result (join (scope_of scope.now) (infix_here operation) left.now right.now) }
{
    match operation {
        Infix::Iff => {
            let operator = Term::mk_const(alloc, "=", &truth_operation_type(alloc)?)?;
            join_truths(alloc, &operator, left, right)
        }
        Infix::Implies => join_known(alloc, scope, "==>", left, right),
        Infix::Or => join_known(alloc, scope, "\\/", left, right),
        Infix::And => join_known(alloc, scope, "/\\", left, right),
        Infix::Equal => equate(alloc, left, right),
    }
}

// The bytes as text, where they name a constant.
fn constant_name(bytes: &[u8]) -> Option<&str>
    ensures { MatchOption result (IsFalse (names.is_constant_name bytes.now)) (λ name. (name.now ≡ bytes.now) × IsTrue (names.is_constant_name bytes.now)) }
{
    if !is_constant_name(bytes) {
        return None;
    }
    match str::from_utf8(bytes) {
        Ok(name) => Some(name),
        Err(_) => None,
    }
}

/// The known constant of this name and type.
pub fn constant(alloc: Global, scope: &Scope, bytes: &[u8], ty: &Ty) -> Result<Term, Fault>
    ensures { Answers result (known_constant (scope_of scope.now) bytes.now ty.now) }
{
    let Some(name) = constant_name(bytes) else {
        return Err(Fault::UnknownConst);
    };
    let generic = generic_type(scope, name)?;
    constant_at(alloc, generic, name, ty)
}

// A constant or a declared variable of this name.
fn known_name(alloc: Global, scope: &Scope, name: &str) -> Result<Term, Fault>
    requires { IsTrue (names.is_identifier name.now) }
    ensures { Answers result (bare_constant (scope_of scope.now) ((scope_of scope.now).generic_type name.now) name.now) }
{
    if let Some(generic) = scope.const_type(name) {
        if is_closed(generic) {
            return Term::mk_const(alloc, name, generic);
        }
    }
    match scope.var_type(name) {
        Some(ty) => Term::mk_var(alloc, name, ty),
        None => Err(Fault::UnknownName),
    }
}

/// A bare name: the innermost binder's variable, else a constant without type variables, else a declared variable.
pub fn bare(alloc: Global, scope: &Scope, binders: &Binders, bytes: &[u8]) -> Result<Term, Fault>
    ensures { (bindings : Bindings) → IsOpened binders.now bindings
        → Answers result (bare_name (scope_of scope.now) (bound_type bindings bytes.now) bytes.now) }
{
    let Some(name) = identifier(bytes) else {
        return Err(Fault::BadName);
    };
    match binders.find(name) {
        Some(binder) => binder.copy(alloc),
        None => known_name(alloc, scope, name),
    }
}

// The abstraction of a variable over a body.
fn abstraction(alloc: Global, binder: &Term, body: &Term) -> Result<Term, Fault>
    ensures { (name : List ℕ) (ty : HolType) → binder.now ≡ variable name ty → Answers result (well_typed (abstraction name ty body.now)) }
{
    let _body_type = body.ty();
    Term::mk_abs(alloc, binder, body)
}

// A quantifier over a type.
fn quantifier_operator(alloc: Global, name: &str, ty: &Ty) -> Result<Term, Fault>
    requires { IsTrue (names.is_constant_name name.now) }
    ensures { Answers result (limited_constant name.now (quantifier_type ty.now)) }
{
    let truth = Ty::boolean(alloc)?;
    let domain = Ty::fun(alloc, ty, &truth)?;
    let operator_type = Ty::fun(alloc, &domain, &truth)?;
    Term::mk_const(alloc, name, &operator_type)
}

// A quantifier, which has to be known, before an abstraction.
fn quantify(
    alloc: Global,
    scope: &Scope,
    name: &str,
    binder: &Term,
    body: &Term,
) -> Result<Term, Fault>
    requires { IsTrue (names.is_constant_name name.now) }
    ensures { (x : List ℕ) (ty : HolType) → binder.now ≡ variable x ty
        → Answers result (connective (scope_of scope.now) name.now (quantifier_type ty) (combination (constant name.now (quantifier_type ty)) (abstraction x ty body.now))) }
{
    let generic = generic_type(scope, name)?;
    let binder_type = binder.ty();
    if !is_quantifier_instance(generic, binder_type) {
        return Err(Fault::NotInstance);
    }
    let truth = Ty::boolean(alloc)?;
    let body_type = body.ty();
    if !truth.eq(body_type) {
        return Err(Fault::TypeMismatch);
    }
    let operator = quantifier_operator(alloc, name, binder_type)?;
    let predicate = abstraction(alloc, binder, body)?;
    apply(alloc, &operator, &predicate)
}

// The choice operator of a type.
fn choice_operator(alloc: Global, ty: &Ty) -> Result<Term, Fault>
    ensures { Answers result (limited_constant choice_name (choice_type ty.now)) }
{
    let truth = Ty::boolean(alloc)?;
    let domain = Ty::fun(alloc, ty, &truth)?;
    let operator_type = Ty::fun(alloc, &domain, ty)?;
    Term::mk_const(alloc, "@", &operator_type)
}

// The choice operator before an abstraction.
fn choose(alloc: Global, binder: &Term, body: &Term) -> Result<Term, Fault>
    ensures { (x : List ℕ) (ty : HolType) → binder.now ≡ variable x ty
        → Answers result (well_typed (combination (constant choice_name (choice_type ty)) (abstraction x ty body.now))) }
{
    let truth = Ty::boolean(alloc)?;
    let body_type = body.ty();
    if !truth.eq(body_type) {
        return Err(Fault::TypeMismatch);
    }
    let binder_type = binder.ty();
    let operator = choice_operator(alloc, binder_type)?;
    let predicate = abstraction(alloc, binder, body)?;
    apply(alloc, &operator, &predicate)
}

/// A term under a binder.
pub fn bind(
    alloc: Global,
    scope: &Scope,
    quantifier: Binder,
    binder: &Term,
    body: &Term,
) -> Result<Term, Fault>
    ensures { (x : List ℕ) (ty : HolType) → binder.now ≡ variable x ty
        → Answers result (bind (scope_of scope.now) (binder_here quantifier) x ty body.now) }
{
    match quantifier {
        Binder::Lambda => abstraction(alloc, binder, body),
        Binder::ForAll => quantify(alloc, scope, "!", binder, body),
        Binder::Exists => quantify(alloc, scope, "?", binder, body),
        Binder::Choice => choose(alloc, binder, body),
    }
}
