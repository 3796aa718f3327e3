// Equations that are made from equations of a term's parts, and one behind the other.

use hol_host::HostFail;
use hol_just::Just;
use hol_tactics_forms::{Derivation, refl};
use hol_terms::Term;
use std::alloc::Global;

/// What a term becomes, and why the two are equal.
#[derive(Drop)]
pub(crate) struct Changed {
    pub(crate) term: Term,
    pub(crate) just: Just,
}

/// What a conversion makes of a term; nothing where it leaves it.
pub(crate) type Conversion = Result<Option<Changed>, HostFail>;

/// What a term becomes.
pub(crate) fn changed_to(term: Term, just: Derivation) -> Conversion {
    let just = just?;
    Ok(Some(Changed { term, just }))
}

/// TRANS, where what the term became was changed again.
pub(crate) fn trans(alloc: Global, before: Changed, behind: Option<Changed>) -> Conversion {
    match behind {
        Some(Changed { term, just }) => {
            changed_to(
                term,
                hol_tactics_forms::trans(alloc, Ok(before.just), Ok(just)),
            )
        }
        None => Ok(Some(before)),
    }
}

/// ABS.
pub(crate) fn abs(alloc: Global, variable: &Term, body: Changed) -> Conversion {
    let term = Term::mk_abs(alloc, variable, &body.term)?;
    changed_to(term, hol_tactics_forms::abs(alloc, variable, Ok(body.just)))
}

/// MK_COMB of what a function and an argument become, unless both stay as they are.
pub(crate) fn combined(
    alloc: Global,
    function: &Term,
    left: Option<Changed>,
    argument: &Term,
    right: Option<Changed>,
) -> Conversion {
    match (left, right) {
        (None, None) => Ok(None),
        (left, right) => {
            let left = or_same(alloc, function, left)?;
            mk_comb(alloc, left, or_same(alloc, argument, right)?)
        }
    }
}

// MK_COMB.
fn mk_comb(alloc: Global, function: Changed, argument: Changed) -> Conversion {
    let term = Term::mk_comb(alloc, &function.term, &argument.term)?;
    let just = hol_tactics_forms::mk_comb(alloc, Ok(function.just), Ok(argument.just));
    changed_to(term, just)
}

// What a term became, or the term itself, by REFL.
fn or_same(alloc: Global, term: &Term, changed: Option<Changed>) -> Result<Changed, HostFail> {
    match changed {
        Some(changed) => Ok(changed),
        None => Ok(Changed {
            term: term.copy(alloc)?,
            just: refl(alloc, term)?,
        }),
    }
}
