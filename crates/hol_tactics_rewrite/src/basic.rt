// HOL Light's basic rewrites of formulas, and BETA_CONV.

use crate::changed::{Conversion, changed_to};
use hol_alpha::aconv;
use hol_tactics_forms::{
    Derivation, Formula, assume, ccontr, choose, conj, conjunct1, conjunct2, contr, contradiction,
    deduct_antisym, dest_eq, dest_formula, disch, disj_cases, disj1, disj2, eq_mp, eqt_elim,
    eqt_intro, exists, falsity, generalize, is_constant, mk_neg, mp, not_elim, not_intro, refl,
    refute, spec, sym, truth, with_value,
};
use hol_terms::{Term, free_in};
use std::alloc::Global;

/// BETA_CONV, where the term is a redex.
pub(crate) fn beta_conv(alloc: Global, term: &Term) -> Conversion {
    let Some((function, argument)) = term.dest_comb() else {
        return Ok(None);
    };
    let Some((variable, body)) = function.dest_abs() else {
        return Ok(None);
    };
    let made = with_value(alloc, argument, variable, body)?;
    changed_to(made, hol_tactics_forms::beta_conv(alloc, term))
}

/// What a formula becomes by the clauses of its connective with `T`, `F` or two equal sides, by `~~p <=> p`, by `x = x <=> T`, or
/// without a quantifier whose variable is not in the body.
pub(crate) fn basic(alloc: Global, term: &Term) -> Conversion {
    match dest_formula(term) {
        Formula::Not(p) => not_clauses(alloc, term, p),
        Formula::And(p, q) => and_clauses(alloc, term, p, q),
        Formula::Or(p, q) => or_clauses(alloc, term, p, q),
        Formula::Implies(p, q) => imp_clauses(alloc, term, p, q),
        Formula::Iff(p, q) => eq_clauses(alloc, term, p, q),
        Formula::ForAll(variable, body) if !free_in(variable, body) => {
            forall_simp(alloc, term, variable, body)
        }
        Formula::Exists(variable, body) if !free_in(variable, body) => {
            exists_simp(alloc, term, variable, body)
        }
        Formula::ForAll(_, _) | Formula::Exists(_, _) => Ok(None),
        Formula::Atom => refl_clause(alloc, term),
    }
}

/// Whether a formula is `T`.
pub(crate) fn is_truth(formula: &Term) -> bool {
    is_constant(formula, "T")
}

// Whether a formula is `F`.
fn is_falsity(formula: &Term) -> bool {
    is_constant(formula, "F")
}

// TRUTH.
fn truth_holds(alloc: Global) -> Derivation {
    let truth = truth(alloc)?;
    eqt_elim(alloc, refl(alloc, &truth))
}

// The formula from another one, where it is `T`, where the other one is `F`, or where they are the same.
fn follows(alloc: Global, formula: &Term, from: &Term) -> Derivation {
    if is_truth(formula) {
        return truth_holds(alloc);
    }
    if is_falsity(from) {
        return contr(alloc, formula, assume(alloc, from));
    }
    assume(alloc, from)
}

// The formula becomes this one: it follows from it, and this one from the formula.
fn becomes(alloc: Global, made: &Term, back: Derivation, forth: Derivation) -> Conversion {
    changed_to(made.copy(alloc)?, deduct_antisym(alloc, back, forth))
}

// A formula that is proved becomes `T`.
fn becomes_true(alloc: Global, proved: Derivation) -> Conversion {
    changed_to(truth(alloc)?, eqt_intro(alloc, proved))
}

// NOT_CLAUSES.
fn not_clauses(alloc: Global, term: &Term, p: &Term) -> Conversion {
    if let Formula::Not(inner) = dest_formula(p) {
        return not_not(alloc, term, p, inner);
    }
    if is_falsity(p) {
        return becomes_true(alloc, refute(alloc, p, assume(alloc, p)));
    }
    if is_truth(p) {
        let falsity = falsity(alloc)?;
        let forth = contradiction(alloc, assume(alloc, term), truth_holds(alloc));
        return becomes(alloc, &falsity, follows(alloc, term, &falsity), forth);
    }
    Ok(None)
}

// NOT_NOT: `~~p <=> p`, where `denied` is `~p`.
fn not_not(alloc: Global, term: &Term, denied: &Term, p: &Term) -> Conversion {
    let clash = contradiction(alloc, assume(alloc, denied), assume(alloc, p));
    let back = refute(alloc, denied, clash);
    let clash = contradiction(alloc, assume(alloc, term), assume(alloc, denied));
    becomes(alloc, p, back, ccontr(alloc, p, clash))
}

// AND_CLAUSES: one side is kept.
fn and_clauses(alloc: Global, term: &Term, p: &Term, q: &Term) -> Conversion {
    if is_falsity(p) || is_truth(q) || aconv(p, q) {
        let back = conj(alloc, follows(alloc, p, p), follows(alloc, q, p));
        return becomes(alloc, p, back, conjunct1(alloc, assume(alloc, term)));
    }
    if is_truth(p) || is_falsity(q) {
        let back = conj(alloc, follows(alloc, p, q), follows(alloc, q, q));
        return becomes(alloc, q, back, conjunct2(alloc, assume(alloc, term)));
    }
    Ok(None)
}

// OR_CLAUSES: one side is kept.
fn or_clauses(alloc: Global, term: &Term, p: &Term, q: &Term) -> Conversion {
    if is_truth(p) || is_falsity(q) || aconv(p, q) {
        let either = assume(alloc, term);
        let forth = disj_cases(alloc, either, follows(alloc, p, p), follows(alloc, p, q));
        return becomes(alloc, p, disj1(alloc, assume(alloc, p), q), forth);
    }
    if is_falsity(p) || is_truth(q) {
        let either = assume(alloc, term);
        let forth = disj_cases(alloc, either, follows(alloc, q, p), follows(alloc, q, q));
        return becomes(alloc, q, disj2(alloc, p, assume(alloc, q)), forth);
    }
    Ok(None)
}

// IMP_CLAUSES.
fn imp_clauses(alloc: Global, term: &Term, p: &Term, q: &Term) -> Conversion {
    if is_falsity(p) || is_truth(q) || aconv(p, q) {
        return becomes_true(alloc, disch(alloc, p, follows(alloc, q, p)));
    }
    if is_truth(p) {
        let back = disch(alloc, p, assume(alloc, q));
        let forth = mp(alloc, assume(alloc, term), truth_holds(alloc));
        return becomes(alloc, q, back, forth);
    }
    if is_falsity(q) {
        let denied = mk_neg(alloc, p)?;
        let back = not_elim(alloc, assume(alloc, &denied));
        return becomes(alloc, &denied, back, not_intro(alloc, assume(alloc, term)));
    }
    Ok(None)
}

// EQ_CLAUSES. An equation whose constant stands first is turned round.
fn eq_clauses(alloc: Global, term: &Term, p: &Term, q: &Term) -> Conversion {
    if aconv(p, q) {
        return becomes_true(alloc, refl(alloc, p));
    }
    if is_truth(p) {
        let back = sym(alloc, eqt_intro(alloc, assume(alloc, q)));
        return becomes(
            alloc,
            q,
            back,
            eqt_elim(alloc, sym(alloc, assume(alloc, term))),
        );
    }
    if is_falsity(p) {
        let denied = mk_neg(alloc, q)?;
        let back = sym(alloc, eqf_intro(alloc, q, assume(alloc, &denied)));
        let forth = eqf_elim(alloc, q, sym(alloc, assume(alloc, term)));
        return becomes(alloc, &denied, back, forth);
    }
    if is_truth(q) {
        let back = eqt_intro(alloc, assume(alloc, p));
        return becomes(alloc, p, back, eqt_elim(alloc, assume(alloc, term)));
    }
    if is_falsity(q) {
        let denied = mk_neg(alloc, p)?;
        let back = eqf_intro(alloc, p, assume(alloc, &denied));
        return becomes(
            alloc,
            &denied,
            back,
            eqf_elim(alloc, p, assume(alloc, term)),
        );
    }
    Ok(None)
}

/// EQF_INTRO: `p <=> F`, of `~p`.
pub(crate) fn eqf_intro(alloc: Global, p: &Term, denied: Derivation) -> Derivation {
    let falsity = falsity(alloc)?;
    let forth = contradiction(alloc, denied, assume(alloc, p));
    deduct_antisym(alloc, follows(alloc, p, &falsity), forth)
}

// EQF_ELIM: `~p`, of `p <=> F`.
fn eqf_elim(alloc: Global, p: &Term, equation: Derivation) -> Derivation {
    refute(alloc, p, eq_mp(alloc, equation, assume(alloc, p)))
}

// FORALL_SIMP, of a variable that is not in the body.
fn forall_simp(alloc: Global, term: &Term, variable: &Term, body: &Term) -> Conversion {
    let back = generalize(alloc, variable, assume(alloc, body));
    becomes(
        alloc,
        body,
        back,
        spec(alloc, variable, assume(alloc, term)),
    )
}

// EXISTS_SIMP, of a variable that is not in the body.
fn exists_simp(alloc: Global, term: &Term, variable: &Term, body: &Term) -> Conversion {
    let back = exists(alloc, term, variable, assume(alloc, body));
    let forth = choose(alloc, variable, assume(alloc, term), assume(alloc, body));
    becomes(alloc, body, back, forth)
}

// REFL_CLAUSE.
fn refl_clause(alloc: Global, term: &Term) -> Conversion {
    match dest_eq(term) {
        Some((left, right)) if aconv(left, right) => becomes_true(alloc, refl(alloc, left)),
        _ => Ok(None),
    }
}
