// The pieces of DISJ1, DISJ2 and DISJ_CASES, as data.
use crate::laws::{P_OR_Q_FROM, P_OR_Q_IS};
use crate::{detach, discharge, generalize, specialize};
use hol_prelude_derivations::derivation::Derivation;
use hol_prelude_derivations::derivation::Derivation::{Earlier, Pair, Sym, Term};
use hol_prelude_derivations::formulas::{
    BINARY, BOOL, OR_BODY, OR_P, P, P_IMP_R, Q, Q_CASE_R, Q_IMP_R, R, R_BOTH_CASES,
};
use hol_prelude_derivations::rule::PairRule::EqMp;
use hol_prelude_derivations::rule::TermRule::Assume;
use hol_prelude_derivations::sketch::TermSketch;
use hol_prelude_derivations::sketch::TermSketch::{Combination, Constant};
use hol_prelude_derivations::truth::ASSUME_P;
use hol_prelude_derivations::{numbers, unfolded};

// |- p \/ q <=> (!r. (p ==> r) ==> (q ==> r) ==> r): OR_DEF at p and q
pub const OR_UNFOLDED: Derivation = unfolded!(
    unfolded!(Earlier(numbers::OR_DEF), OR_BODY, P),
    OR_P,
    Q
);

// |- (!r. (p ==> r) ==> (q ==> r) ==> r) <=> p \/ q
pub const OR: TermSketch = Constant("\\/", &BINARY);

pub const P_OR: TermSketch = Combination(&OR, &P);

pub const P_OR_Q: TermSketch = Combination(&P_OR, &Q);

pub const SYM_P_OR_Q_IS: Derivation = Sym(&P_OR_Q_IS);

// From r, !r. (p ==> r) ==> (q ==> r) ==> r
macro_rules! cases_of {
    ($r:expr) => {
        generalize!(
            BOOL,
            R,
            R_BOTH_CASES,
            discharge!(P_IMP_R, Q_CASE_R, discharge!(Q_IMP_R, R, $r))
        )
    };
}

// p |- p \/ q
pub const DISJ_P: Derivation = Pair(
    EqMp,
    &P_OR_Q_FROM,
    &cases_of!(detach!(R, Term(Assume, &P_IMP_R), ASSUME_P)),
);

// q |- p \/ q
pub const DISJ_Q: Derivation = Pair(
    EqMp,
    &P_OR_Q_FROM,
    &cases_of!(detach!(R, Term(Assume, &Q_IMP_R), Term(Assume, &Q))),
);

// p \/ q |- (p ==> r) ==> (q ==> r) ==> r
pub const DISJ_CASES: Derivation = specialize!(
    R,
    R_BOTH_CASES,
    Pair(EqMp, &P_OR_Q_IS, &Term(Assume, &P_OR_Q))
);
