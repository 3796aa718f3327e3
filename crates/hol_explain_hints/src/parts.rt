// Parts of terms.
use hol_alpha::aconv;
use hol_explain_words::Message;
use hol_model::TERM_HEIGHT_LIMIT;
use hol_subst::vsubst;
use hol_terms::{Parts, Term};
use std::alloc::Global;

/// The operands of an infix of this name.
pub(crate) fn infix_parts<'a>(term: &'a Term, name: &str) -> Option<(&'a Term, &'a Term)> {
    let Parts::Combination(applied, right) = term.parts() else {
        return None;
    };
    let Parts::Combination(operator, left) = applied.parts() else {
        return None;
    };
    match operator.parts() {
        Parts::Constant(found, _) if found == name => Some((left, right)),
        _ => None,
    }
}

/// The sides of an equation.
pub(crate) fn sides(term: &Term) -> Option<(&Term, &Term)> {
    infix_parts(term, "=")
}

/// The bound variable and the body of a quantified formula.
pub(crate) fn dest_quantified(term: &Term) -> Option<(&Term, &Term)> {
    match term.dest_comb() {
        Some((_, abstraction)) => abstraction.dest_abs(),
        None => None,
    }
}

/// The body of a quantified formula at a term.
pub(crate) fn body_at(
    alloc: Global,
    formula: &Term,
    term: &Term,
    message: &mut Message,
) -> Option<Term> {
    let (variable, body) = dest_quantified(formula)?;
    let new = message.given(term.copy(alloc))?;
    let old = message.given(variable.copy(alloc))?;
    message.given(vsubst(alloc, &[(new, old)], body))
}

// The parts of two terms in which they differ first, one step down; nothing where they differ at the top.
fn differing_below<'a>(first: &'a Term, second: &'a Term) -> Option<(&'a Term, &'a Term)> {
    match (first.parts(), second.parts()) {
        (Parts::Combination(f, a), Parts::Combination(g, b)) => {
            Some(if aconv(f, g) { (a, b) } else { (f, g) })
        }
        (Parts::Abstraction(x, ty, s), Parts::Abstraction(y, other, t)) => {
            if x == y && ty.eq(other) {
                Some((s, t))
            } else {
                None
            }
        }
        _ => None,
    }
}

/// The first parts in which two terms differ; nothing where they differ at the top.
pub(crate) fn differing<'a>(first: &'a Term, second: &'a Term) -> Option<(&'a Term, &'a Term)> {
    let mut found = differing_below(first, second);
    for _ in 0..TERM_HEIGHT_LIMIT {
        let Some((one, other)) = found else {
            return None;
        };
        match differing_below(one, other) {
            Some(below) => found = Some(below),
            None => return found,
        }
    }
    found
}
