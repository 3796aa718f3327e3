// Conversions.

use crate::forms::dest_binary;
use hol_host::{Equated, HostFail};
use hol_just::{Just, Rule, step};
use hol_model::Fault;
use hol_terms::{Term, mk_eq};
use std::alloc::Global;

/// `a = b` becomes `b = a`. Else it fails.
pub fn swap(alloc: Global, term: &Term) -> Equated {
    let Some(sides) = dest_binary(term, "=") else {
        return Err(HostFail::Failed);
    };
    let turned = mk_eq(alloc, sides.right, sides.left)?;
    let from_turned = turned_of(alloc, &turned)?;
    let from_term = turned_of(alloc, term)?;
    let just = step(alloc, Rule::DeductAntisym, &[from_turned, from_term])?;
    Ok((turned, just))
}

// SYM of the assumption of the equation.
fn turned_of(alloc: Global, equation: &Term) -> Result<Just, Fault> {
    let assumed = step(alloc, Rule::Assume(equation.copy(alloc)?), &[])?;
    step(alloc, Rule::Sym, &[assumed])
}
