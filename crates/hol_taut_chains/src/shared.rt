// Formulas with variables for the parts that stand in them at several places.
use crate::variables::{at_other, between, variable_of};
use hol_model::{ATOMS_LIMIT, Fault};
use hol_taut_formulas::{Part, Subformulas};
use hol_terms::Term;
use std::alloc::Global;

// Whether a part is made of others, and not the negation of an atom.
fn is_compound(parts: &Subformulas, part: Part) -> bool {
    match part {
        Part::Connected(_, _, _) => true,
        Part::Negated(inner) => match parts.get(inner) {
            Some(inner) => matches!(inner.part, Part::Connected(_, _, _)),
            None => false,
        },
        _ => false,
    }
}

// A part with variables for those below it that stand at several places. The whole stays.
fn generalized(
    alloc: Global,
    parts: &Subformulas,
    at: usize,
    variables: &mut Vec<(Term, Term)>,
) -> Result<Term, Fault> {
    let Some(formula) = parts.get(at) else {
        return Err(Fault::BadShape);
    };
    if at != parts.whole() && formula.places > 1 && is_compound(parts, formula.part) {
        if variables.len() > ATOMS_LIMIT {
            return Err(Fault::TooManyAtoms);
        }
        return variable_of(alloc, &formula.term, variables);
    }
    match formula.part {
        Part::Negated(inner) => {
            if inner >= at {
                return Err(Fault::BadShape);
            }
            let inner = generalized(alloc, parts, inner, variables)?;
            at_other(alloc, &formula.term, &inner)
        }
        Part::Connected(_, left, right) => {
            if left >= at || right >= at {
                return Err(Fault::BadShape);
            }
            let left = generalized(alloc, parts, left, variables)?;
            let right = generalized(alloc, parts, right, variables)?;
            between(alloc, &formula.term, &left, &right)
        }
        _ => formula.term.copy(alloc),
    }
}

/// A formula with variables for its outermost parts that stand in it at several places, which are put to those of the list.
/// Refused: TooManyAtoms past fifteen atoms or such parts; Memory.
pub fn without_shared(
    alloc: Global,
    term: &Term,
    variables: &mut Vec<(Term, Term)>,
) -> Result<Term, Fault> {
    let parts = Subformulas::of(alloc, term)?;
    generalized(alloc, &parts, parts.whole(), variables)
}
