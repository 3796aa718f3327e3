// Formulas taken apart and put together.

use hol_model::Fault;
use hol_terms::Term;
use hol_types::Ty;
use std::alloc::Global;

/// The outermost connective of a formula and what it joins, from left to right; a quantifier with its variable, which is free in
/// the body that stands behind it.
#[derive(Clone, Copy)]
pub enum Formula<'a> {
    Not(&'a Term),
    And(&'a Term, &'a Term),
    Or(&'a Term, &'a Term),
    Implies(&'a Term, &'a Term),
    /// An equation of two formulas.
    Iff(&'a Term, &'a Term),
    ForAll(&'a Term, &'a Term),
    Exists(&'a Term, &'a Term),
    /// Every other term; also a quantifier of what is no abstraction.
    Atom,
}

/// The formula by its outermost connective.
pub fn dest_formula(term: &Term) -> Formula<'_> {
    let Some((function, argument)) = term.dest_comb() else {
        return Formula::Atom;
    };
    if let Some((name, _)) = function.dest_const() {
        return applied(name, argument);
    }
    match dest_applied(function) {
        Some((name, left)) => joined(name, left, argument),
        None => Formula::Atom,
    }
}

// A constant's name and what it is applied to.
fn dest_applied(term: &Term) -> Option<(&str, &Term)> {
    let (head, argument) = term.dest_comb()?;
    let (name, _) = head.dest_const()?;
    Some((name, argument))
}

// A constant applied to one argument.
fn applied<'a>(name: &str, argument: &'a Term) -> Formula<'a> {
    if name == "~" {
        return Formula::Not(argument);
    }
    match argument.dest_abs() {
        Some((variable, body)) => quantified(name, variable, body),
        None => Formula::Atom,
    }
}

// A constant applied to an abstraction.
fn quantified<'a>(name: &str, variable: &'a Term, body: &'a Term) -> Formula<'a> {
    match name {
        "!" => Formula::ForAll(variable, body),
        "?" => Formula::Exists(variable, body),
        _ => Formula::Atom,
    }
}

// A constant applied to two arguments.
fn joined<'a>(name: &str, left: &'a Term, right: &'a Term) -> Formula<'a> {
    match name {
        "/\\" => Formula::And(left, right),
        "\\/" => Formula::Or(left, right),
        "==>" => Formula::Implies(left, right),
        "=" if left.ty().is_bool() => Formula::Iff(left, right),
        _ => Formula::Atom,
    }
}

/// The sides of `p ==> q`.
pub fn dest_imp(term: &Term) -> Option<(&Term, &Term)> {
    dest_infix(term, "==>")
}

/// The sides of `s = t`, also of an equation of formulas.
pub fn dest_eq(term: &Term) -> Option<(&Term, &Term)> {
    dest_infix(term, "=")
}

// What this constant joins.
fn dest_infix<'a>(term: &'a Term, infix: &str) -> Option<(&'a Term, &'a Term)> {
    let (function, right) = term.dest_comb()?;
    match dest_applied(function) {
        Some((name, left)) if name == infix => Some((left, right)),
        _ => None,
    }
}

/// Whether the term is the constant of this name.
pub fn is_constant(term: &Term, wanted: &str) -> bool {
    match term.dest_const() {
        Some((name, _)) => name == wanted,
        None => false,
    }
}

/// `T`. Refused: Memory.
pub fn truth(alloc: Global) -> Result<Term, Fault> {
    constant(alloc, "T", Ty::boolean(alloc))
}

/// `F`. Refused: Memory.
pub fn falsity(alloc: Global) -> Result<Term, Fault> {
    constant(alloc, "F", Ty::boolean(alloc))
}

/// `~p`. Refused: TypeMismatch unless `p` is a formula, TooLarge, Memory.
pub fn mk_neg(alloc: Global, p: &Term) -> Result<Term, Fault> {
    let ty = fun(alloc, Ty::boolean(alloc), Ty::boolean(alloc));
    apply(alloc, constant(alloc, "~", ty), p)
}

/// `p /\ q`. Refused: TypeMismatch unless both are formulas, TooLarge, Memory.
pub fn mk_conj(alloc: Global, p: &Term, q: &Term) -> Result<Term, Fault> {
    mk_infix(alloc, "/\\", p, q)
}

/// `p ==> q`. Refused: TypeMismatch unless both are formulas, TooLarge, Memory.
pub fn mk_imp(alloc: Global, p: &Term, q: &Term) -> Result<Term, Fault> {
    mk_infix(alloc, "==>", p, q)
}

// Two formulas joined by a constant.
fn mk_infix(alloc: Global, infix: &str, p: &Term, q: &Term) -> Result<Term, Fault> {
    let unary = fun(alloc, Ty::boolean(alloc), Ty::boolean(alloc));
    let ty = fun(alloc, Ty::boolean(alloc), unary);
    apply(alloc, apply(alloc, constant(alloc, infix, ty), p), q)
}

/// `!x. p`. Refused: NotVariable, TypeMismatch unless `p` is a formula, TooLarge, Memory.
pub fn mk_forall(alloc: Global, variable: &Term, body: &Term) -> Result<Term, Fault> {
    mk_binder(alloc, "!", variable, body)
}

/// `?x. p`. Refused: NotVariable, TypeMismatch unless `p` is a formula, TooLarge, Memory.
pub fn mk_exists(alloc: Global, variable: &Term, body: &Term) -> Result<Term, Fault> {
    mk_binder(alloc, "?", variable, body)
}

// A quantifier of a variable over a formula.
fn mk_binder(alloc: Global, binder: &str, variable: &Term, body: &Term) -> Result<Term, Fault> {
    let predicate = Term::mk_abs(alloc, variable, body)?;
    let ty = fun(alloc, predicate.type_of(alloc), Ty::boolean(alloc));
    apply(alloc, constant(alloc, binder, ty), &predicate)
}

fn fun(alloc: Global, domain: Result<Ty, Fault>, codomain: Result<Ty, Fault>) -> Result<Ty, Fault> {
    Ty::fun(alloc, &domain?, &codomain?)
}

fn constant(alloc: Global, name: &str, ty: Result<Ty, Fault>) -> Result<Term, Fault> {
    Term::mk_const(alloc, name, &ty?)
}

fn apply(alloc: Global, function: Result<Term, Fault>, argument: &Term) -> Result<Term, Fault> {
    Term::mk_comb(alloc, &function?, argument)
}
