// Chains of `<=>`: their parts, and the parts that occur in them twice.
ghost use Rattle.std.specs.Prelude.{◌<◌, IfSome};
ghost use Rattle.hol_model.specs.Terms.NamedTerm.{height};

use hol_alpha::aconv;
use hol_taut_formulas::{Connective, Form, form_of};
use hol_terms::Term;

// The fewest parts of a chain for whose sake a formula is shortened before it is split.
const MANY_PARTS: usize = 8;

// The same, where each part stands in it once.
const MANY_OTHER_PARTS: usize = 5;

// The fewest parts of the chains that are shortened in it.
const FEWEST_PARTS: usize = 3;

// The most places of atoms and constants in a formula that is shortened.
const MOST_PLACES: usize = 128;

/// The sides of a formula whose outermost connective is `<=>`.
pub fn sides_of(term: &Term) -> Option<(&Term, &Term)>
    ensures { IfSome result (λ sides. (height sides.0.now < height term.now) × (height sides.1.now < height term.now)) }
{
    match form_of(term) {
        Form::Connected(Connective::Iff, left, right) => Some((left, right)),
        _ => None,
    }
}

/// Whether a formula is a part of a chain.
pub(crate) fn is_part(part: &Term, chain: &Term) -> bool {
    match sides_of(chain) {
        Some((left, right)) => is_part(part, left) || is_part(part, right),
        None => aconv(part, chain),
    }
}

// Whether a formula is a part of a chain at two places.
fn is_part_twice(part: &Term, chain: &Term) -> bool {
    match sides_of(chain) {
        Some((left, right)) => {
            if is_part(part, left) && is_part(part, right) {
                return true;
            }
            is_part_twice(part, left) || is_part_twice(part, right)
        }
        None => false,
    }
}

/// The first part of a chain that is a part of the whole at two places.
pub(crate) fn twofold<'a>(chain: &'a Term, whole: &Term) -> Option<&'a Term> {
    match sides_of(chain) {
        Some((left, right)) => match twofold(left, whole) {
            Some(part) => Some(part),
            None => twofold(right, whole),
        },
        None => {
            if is_part_twice(chain, whole) {
                Some(chain)
            } else {
                None
            }
        }
    }
}

// How many parts a chain has.
fn parts(chain: &Term) -> usize {
    match sides_of(chain) {
        Some((left, right)) => parts(left).saturating_add(parts(right)),
        None => 1,
    }
}

/// Whether a formula is a chain that is shortened, where it stands in one that is.
pub(crate) fn is_chain(term: &Term) -> bool {
    parts(term) >= FEWEST_PARTS
}

// At how many places a formula has atoms and constants.
fn places(term: &Term) -> usize {
    match form_of(term) {
        Form::Negated(part) => places(part),
        Form::Connected(_, left, right) => places(left).saturating_add(places(right)),
        _ => 1,
    }
}

/// Whether a chain that is shortened stands in a formula.
pub(crate) fn has_chain(term: &Term) -> bool {
    if is_chain(term) {
        return true;
    }
    match form_of(term) {
        Form::Negated(part) => has_chain(part),
        Form::Connected(_, left, right) => has_chain(left) || has_chain(right),
        _ => false,
    }
}

// Whether a formula is a chain for whose sake one is shortened.
fn is_long(chain: &Term) -> bool {
    let parts = parts(chain);
    parts >= MANY_PARTS || (parts >= MANY_OTHER_PARTS && twofold(chain, chain).is_none())
}

// Whether such a chain stands in a formula.
fn has_long(term: &Term) -> bool {
    if is_long(term) {
        return true;
    }
    match form_of(term) {
        Form::Negated(part) => has_long(part),
        Form::Connected(_, left, right) => has_long(left) || has_long(right),
        _ => false,
    }
}

/// Whether a formula is shortened before it is split: a long chain stands in it, and it is not too large.
pub fn has_long_chain(term: &Term) -> bool {
    places(term) <= MOST_PLACES && has_long(term)
}

/// The first formula in the whole, from the left, that is a part of a chain.
pub(crate) fn first_part<'a>(whole: &'a Term, chain: &Term) -> Option<&'a Term> {
    if is_part(whole, chain) {
        return Some(whole);
    }
    match form_of(whole) {
        Form::Negated(part) => first_part(part, chain),
        Form::Connected(_, left, right) => match first_part(left, chain) {
            Some(part) => Some(part),
            None => first_part(right, chain),
        },
        _ => None,
    }
}

/// Whether the parts of a chain stand as they do in the whole, and it is bracketed from the right.
pub(crate) fn is_sorted(whole: &Term, chain: &Term) -> bool {
    let Some((left, right)) = sides_of(chain) else {
        return true;
    };
    match first_part(whole, chain) {
        Some(part) => aconv(part, left) && is_sorted(whole, right),
        None => false,
    }
}
