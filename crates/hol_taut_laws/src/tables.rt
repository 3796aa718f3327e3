// The tables of the laws, in the order in which they are made.
use crate::denial::NOT_FALSE_ELIM;
use crate::discharged::DISJUNCTION_DECIDES;
use crate::disjunction::OR_FALSE_LEFT;
use crate::negations::{IFF_FALSE_LEFT, IFF_TRUE_LEFT, IFF_TRUE_RIGHT, NOT_FALSE, NOT_TRUE};
use crate::sides::{AND_FALSE_LEFT, AND_FALSE_RIGHT, IMP_FALSE_LEFT, IMP_TRUE_RIGHT};
use hol_prelude_derivations::making::Making;
use hol_prelude_laws::laws::{
    FIRST_IS_U, P_IMPLIES_P, T_IMP_Q_IS_Q, TESTS_DISCHARGE, TRUE_EQUATION,
};

/// How many theorems of the prelude stand before the laws of `T` and `==>`, as among those that derivations cite by number.
pub(crate) const CITED_FIRST: usize = 27;

/// The laws of `T` and `==>` that the prelude has made and left out.
pub(crate) const TRUTH_LAWS: [Making<'static>; 4] = [
    Making::Derive(&TRUE_EQUATION),
    Making::Derive(&TESTS_DISCHARGE),
    Making::Derive(&FIRST_IS_U),
    Making::Derive(&T_IMP_Q_IS_Q),
];

/// `p ==> p`, and cases of a disjunction as an implication.
pub(crate) const DISCHARGED: [Making<'static>; 2] = [
    Making::Derive(&P_IMPLIES_P),
    Making::Derive(&DISJUNCTION_DECIDES),
];

/// Laws of `/\` and `==>`.
pub(crate) const SIDES: [Making<'static>; 4] = [
    Making::Derive(&AND_FALSE_LEFT),
    Making::Derive(&AND_FALSE_RIGHT),
    Making::Derive(&IMP_FALSE_LEFT),
    Making::Derive(&IMP_TRUE_RIGHT),
];

/// Laws of `~` and `<=>`.
pub(crate) const NEGATIONS: [Making<'static>; 5] = [
    Making::Derive(&NOT_TRUE),
    Making::Derive(&NOT_FALSE),
    Making::Derive(&IFF_TRUE_LEFT),
    Making::Derive(&IFF_TRUE_RIGHT),
    Making::Derive(&IFF_FALSE_LEFT),
];

/// The law of `\/`.
pub(crate) const DISJUNCTION: [Making<'static>; 1] = [Making::Derive(&OR_FALSE_LEFT)];

/// The law of `(p <=> F) <=> F`.
pub(crate) const DENIAL: [Making<'static>; 1] = [Making::Derive(&NOT_FALSE_ELIM)];
