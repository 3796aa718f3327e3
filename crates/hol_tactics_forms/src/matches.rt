// Matches at the same types.

use hol_alpha::aconv;
use hol_match::{Match, term_match};
use hol_model::Fault;
use hol_terms::Term;
use hol_types::Ty;
use std::alloc::Global;

/// What is put, as pairs (new, old), for the variables that are not fixed, where this makes the pattern the term and each type
/// variable stays. Refused: Memory.
pub fn instance(
    alloc: Global,
    fixed: &[Term],
    pattern: &Term,
    term: &Term,
) -> Result<Option<Vec<(Term, Term)>>, Fault> {
    match term_match(alloc, fixed, pattern, term) {
        Ok(found) => Ok(at_same_types(found)),
        Err(Fault::Memory) => Err(Fault::Memory),
        Err(_) => Ok(None),
    }
}

fn at_same_types(found: Match) -> Option<Vec<(Term, Term)>> {
    let Match { types, terms } = found;
    if keeps_types(&types) {
        Some(terms)
    } else {
        None
    }
}

// Whether each type stands for itself.
fn keeps_types(types: &[(Ty, Ty)]) -> bool {
    types.iter().all(|pair| pair.0.eq(&pair.1))
}

/// What pairs (new, old) put for a variable.
pub fn value_of<'a>(terms: &'a [(Term, Term)], variable: &Term) -> Option<&'a Term> {
    for (new, old) in terms {
        if aconv(old, variable) {
            return Some(new);
        }
    }
    None
}
