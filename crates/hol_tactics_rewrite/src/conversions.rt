// Conversions.

use crate::changed::Changed;
use crate::redepth::Redepth;
use hol_alpha::aconv;
use hol_host::HostFail;
use hol_just::Just;
use hol_model::Fault;
use hol_tactics_forms::{
    Derivation, Formula, assume, beta_conv, choose, conj, deduct_antisym, dest_eq, dest_formula,
    eq_mp, exists, from_conjunction, mk_comb, mk_conj, open_binder, refl, sym, trans, with_value,
};
use hol_terms::{Parts, Term, free_in, frees};
use std::alloc::Global;

/// REDEPTH_CONV BETA_CONV: the beta normal form. It fails where there is no redex, and where more than 2,000 are reduced.
pub fn beta(alloc: Global, term: &Term) -> Result<(Term, Just), HostFail> {
    match beta_normal(alloc, term)? {
        Some(reduced) => Ok(reduced),
        None => Err(HostFail::Failed),
    }
}

/// The same; nothing where there is no redex.
pub fn beta_normal(alloc: Global, term: &Term) -> Result<Option<(Term, Just)>, HostFail> {
    if !has_redex(term) {
        return Ok(None);
    }
    let mut reducing = Redepth::by_beta(alloc);
    match reducing.convert(alloc, term)? {
        Some(Changed { term, just }) => Ok(Some((term, just))),
        None => Ok(None),
    }
}

// Whether an abstraction is applied in the term.
fn has_redex(term: &Term) -> bool {
    match term.parts() {
        Parts::Variable(_, _) | Parts::Constant(_, _) => false,
        Parts::Combination(function, argument) => function.dest_abs().is_some()
            || has_redex(function)
            || has_redex(argument),
        Parts::Abstraction(_, _, body) => has_redex(body),
    }
}

/// UNWIND_CONV: `?x. x = t /\ p`, also with the conjuncts or the sides turned round, becomes `p[t/x]`, where x is not free in `t`.
/// Else it fails.
pub fn unwind(alloc: Global, term: &Term) -> Result<(Term, Just), HostFail> {
    let Some(unwound) = dest_unwound(term) else {
        return Err(HostFail::Failed);
    };
    let made = unwound.at(alloc, unwound.rest, unwound.value)?;
    let back = unwound.back(alloc, term, &made);
    let just = deduct_antisym(alloc, back, unwound.forth(alloc, term))?;
    Ok((made, just))
}

// The parts of `?x. x = t /\ p`.
#[derive(Clone, Copy)]
struct Unwound<'a> {
    variable: &'a Term,
    value: &'a Term,
    equation: &'a Term,
    rest: &'a Term,
    // Whether the equation is the left conjunct.
    is_first: bool,
}

fn dest_unwound(term: &Term) -> Option<Unwound<'_>> {
    let Formula::Exists(variable, body) = dest_formula(term) else {
        return None;
    };
    let Formula::And(left, right) = dest_formula(body) else {
        return None;
    };
    if let Some(value) = value_of(variable, left) {
        return Some(Unwound {
            variable,
            value,
            equation: left,
            rest: right,
            is_first: true,
        });
    }
    let value = value_of(variable, right)?;
    Some(Unwound {
        variable,
        value,
        equation: right,
        rest: left,
        is_first: false,
    })
}

// What an equation puts for a variable.
fn value_of<'a>(variable: &Term, equation: &'a Term) -> Option<&'a Term> {
    let (left, right) = dest_eq(equation)?;
    if aconv(left, variable) && !free_in(variable, right) {
        return Some(right);
    }
    if aconv(right, variable) && !free_in(variable, left) {
        return Some(left);
    }
    None
}

impl Unwound<'_> {
    // A part with another term for the variable.
    fn at(&self, alloc: Global, part: &Term, value: &Term) -> Result<Term, Fault> {
        with_value(alloc, value, self.variable, part)
    }

    // The formula, of the rest at the value.
    fn back(&self, alloc: Global, term: &Term, made: &Term) -> Derivation {
        let both = self.both(alloc, refl(alloc, self.value), assume(alloc, made));
        exists(alloc, term, self.value, both)
    }

    // CONJ of the equation and the rest, in their order.
    fn both(&self, alloc: Global, equation: Derivation, rest: Derivation) -> Derivation {
        if self.is_first {
            conj(alloc, equation, rest)
        } else {
            conj(alloc, rest, equation)
        }
    }

    // The rest at the value, of the formula.
    fn forth(&self, alloc: Global, term: &Term) -> Derivation {
        let mut avoid = frees(alloc, term)?;
        let (some, equation) = open_binder(alloc, &mut avoid, self.variable, self.equation)?;
        let just = self.from_witness(alloc, &some, &equation);
        choose(alloc, &some, assume(alloc, term), just)
    }

    // The rest at the value, of the equation and the rest at some term.
    fn from_witness(&self, alloc: Global, some: &Term, equation: &Term) -> Derivation {
        let rest = self.at(alloc, self.rest, some)?;
        let both = self.mk_both(alloc, equation, &rest)?;
        let same = self.same_rest(alloc, some, equation);
        from_conjunction(alloc, &both, eq_mp(alloc, same, assume(alloc, &rest)))
    }

    // The conjunction of an equation and the rest, in their order.
    fn mk_both(&self, alloc: Global, equation: &Term, rest: &Term) -> Result<Term, Fault> {
        if self.is_first {
            mk_conj(alloc, equation, rest)
        } else {
            mk_conj(alloc, rest, equation)
        }
    }

    // That the rest at some term is the rest at the value, where an equation says that the two are equal.
    fn same_rest(&self, alloc: Global, some: &Term, equation: &Term) -> Derivation {
        let predicate = Term::mk_abs(alloc, self.variable, self.rest)?;
        let equal = value_equation(alloc, some, equation);
        let middle = mk_comb(alloc, refl(alloc, &predicate), equal);
        let before = sym(alloc, beta_of(alloc, &predicate, some));
        let chain = trans(alloc, before, middle);
        trans(alloc, chain, beta_of(alloc, &predicate, self.value))
    }
}

// `v = t`, of an equation of `v` and `t`.
fn value_equation(alloc: Global, some: &Term, equation: &Term) -> Derivation {
    if is_left(some, equation) {
        return assume(alloc, equation);
    }
    sym(alloc, assume(alloc, equation))
}

// Whether a term is the left side of an equation.
fn is_left(term: &Term, equation: &Term) -> bool {
    match dest_eq(equation) {
        Some((left, _)) => aconv(left, term),
        None => false,
    }
}

// BETA_CONV of a predicate at an argument.
fn beta_of(alloc: Global, predicate: &Term, argument: &Term) -> Derivation {
    let redex = Term::mk_comb(alloc, predicate, argument)?;
    beta_conv(alloc, &redex)
}
