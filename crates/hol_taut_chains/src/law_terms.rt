// The laws by which chains are shortened, as formulas.
use crate::formula_terms::{negation, proposition};
use hol_model::Fault;
use hol_terms::{Term, mk_eq};
use std::alloc::Global;

// The variables of the laws.

fn p(alloc: Global) -> Result<Term, Fault> {
    proposition(alloc, "p")
}

fn q(alloc: Global) -> Result<Term, Fault> {
    proposition(alloc, "q")
}

fn r(alloc: Global) -> Result<Term, Fault> {
    proposition(alloc, "r")
}

// `~` of a formula that was made.
fn denied(alloc: Global, formula: Result<Term, Fault>) -> Result<Term, Fault> {
    let formula = formula?;
    negation(alloc, &formula)
}

// `<=>` between formulas that were made.
fn iff(
    alloc: Global,
    left: Result<Term, Fault>,
    right: Result<Term, Fault>,
) -> Result<Term, Fault> {
    let left = left?;
    let right = right?;
    mk_eq(alloc, &left, &right)
}

/// `(p <=> q) <=> (q <=> p)`.
pub fn commuted(alloc: Global) -> Result<Term, Fault> {
    let left = iff(alloc, p(alloc), q(alloc));
    let right = iff(alloc, q(alloc), p(alloc));
    iff(alloc, left, right)
}

/// `(p <=> q <=> r) <=> (q <=> p <=> r)`.
pub fn exchanged(alloc: Global) -> Result<Term, Fault> {
    let left = iff(alloc, p(alloc), iff(alloc, q(alloc), r(alloc)));
    let right = iff(alloc, q(alloc), iff(alloc, p(alloc), r(alloc)));
    iff(alloc, left, right)
}

/// `(p <=> p <=> r) <=> r`.
pub fn paired(alloc: Global) -> Result<Term, Fault> {
    let left = iff(alloc, p(alloc), iff(alloc, p(alloc), r(alloc)));
    iff(alloc, left, r(alloc))
}

/// `(~p <=> q) <=> ~(p <=> q)`.
pub fn negated_left(alloc: Global) -> Result<Term, Fault> {
    let left = iff(alloc, denied(alloc, p(alloc)), q(alloc));
    let right = denied(alloc, iff(alloc, p(alloc), q(alloc)));
    iff(alloc, left, right)
}

/// `(p <=> ~q) <=> ~(p <=> q)`.
pub fn negated_right(alloc: Global) -> Result<Term, Fault> {
    let left = iff(alloc, p(alloc), denied(alloc, q(alloc)));
    let right = denied(alloc, iff(alloc, p(alloc), q(alloc)));
    iff(alloc, left, right)
}

/// `~~p <=> p`.
pub fn negated_twice(alloc: Global) -> Result<Term, Fault> {
    let left = denied(alloc, denied(alloc, p(alloc)));
    iff(alloc, left, p(alloc))
}
