// Formulas with variables for parts of them, as for the chains of `<=>` that stand in them.
use crate::chains::is_chain;
use hol_alpha::aconv;
use hol_model::Fault;
use hol_taut_formulas::{Form, form_of};
use hol_terms::Term;
use std::alloc::Global;

// The variable that stands for a part.
fn variable_at<'a>(parts: &'a [(Term, Term)], part: &Term) -> Option<&'a Term> {
    let Some((first, rest)) = parts.split_first() else {
        return None;
    };
    if aconv(&first.0, part) {
        return Some(&first.1);
    }
    variable_at(rest, part)
}

// A new variable that stands for a part, which is put to the list.
fn new_variable(alloc: Global, part: &Term, parts: &mut Vec<(Term, Term)>) -> Result<Term, Fault> {
    let name = format!(in alloc; "chain{}", parts.len())?;
    let variable = Term::mk_var(alloc, &name, part.ty())?;
    parts.push((part.copy(alloc)?, variable.copy(alloc)?))?;
    Ok(variable)
}

/// The variable of a part, the same for equal parts.
pub(crate) fn variable_of(
    alloc: Global,
    part: &Term,
    parts: &mut Vec<(Term, Term)>,
) -> Result<Term, Fault> {
    match variable_at(parts, part) {
        Some(variable) => variable.copy(alloc),
        None => new_variable(alloc, part, parts),
    }
}

/// A function applied to an argument, with another one in its place.
pub(crate) fn at_other(alloc: Global, term: &Term, argument: &Term) -> Result<Term, Fault> {
    match term.dest_comb() {
        Some((function, _)) => Term::mk_comb(alloc, function, argument),
        None => Err(Fault::BadShape),
    }
}

/// A connective between other sides.
pub(crate) fn between(
    alloc: Global,
    term: &Term,
    left: &Term,
    right: &Term,
) -> Result<Term, Fault> {
    match term.dest_comb() {
        Some((function, _)) => Term::mk_comb(alloc, &at_other(alloc, function, left)?, right),
        None => Err(Fault::BadShape),
    }
}

/// A formula with variables for its chains, which are put to those of the list.
pub fn without_chains(
    alloc: Global,
    term: &Term,
    chains: &mut Vec<(Term, Term)>,
) -> Result<Term, Fault> {
    if is_chain(term) {
        return variable_of(alloc, term, chains);
    }
    match form_of(term) {
        Form::Negated(part) => {
            let part = without_chains(alloc, part, chains)?;
            at_other(alloc, term, &part)
        }
        Form::Connected(_, left, right) => {
            let left = without_chains(alloc, left, chains)?;
            let right = without_chains(alloc, right, chains)?;
            between(alloc, term, &left, &right)
        }
        _ => term.copy(alloc),
    }
}
