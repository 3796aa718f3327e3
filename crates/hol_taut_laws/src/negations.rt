// Laws of `~` and of `<=>` at truth values, as data.
use crate::sides::{ASSUME_P_IS_F, ASSUME_Q, ASSUME_Q_IS_F};
use hol_prelude_derivations::conjunction::P_TRUE;
use hol_prelude_derivations::derivation::Derivation;
use hol_prelude_derivations::derivation::Derivation::{ApTerm, Earlier, Pair, Sym, Term};
use hol_prelude_derivations::formulas::{F, P, P_IMP, Q};
use hol_prelude_derivations::logic::SYM_NOT_P_IS;
use hol_prelude_derivations::numbers;
use hol_prelude_derivations::rule::PairRule::{DeductAntisym, EqMp, Trans};
use hol_prelude_derivations::rule::TermRule::Assume;
use hol_prelude_derivations::sketch::TermSketch::Equation;
use hol_prelude_derivations::truth::ASSUME_P;
use hol_prelude_laws::true_imp;

// p |- ~p <=> F
pub(crate) const NOT_TRUE: Derivation = Pair(
    Trans,
    &Earlier(numbers::NOT_UNFOLDED),
    &true_imp!(F, P_TRUE),
);

// p <=> F |- ~p
pub(crate) const P_FOLLOWS_P: Derivation = Earlier(42);

pub(crate) const NOT_FALSE: Derivation = Pair(
    EqMp,
    &SYM_NOT_P_IS,
    &Pair(EqMp, &ApTerm(&P_IMP, &ASSUME_P_IS_F), &P_FOLLOWS_P),
);

// p |- (p <=> q) <=> q
const P_IS_Q_FROM_BOTH: Derivation = Pair(DeductAntisym, &ASSUME_P, &ASSUME_Q);

const ASSUME_P_IS_Q: Derivation = Term(Assume, &Equation(&P, &Q));

pub(crate) const IFF_TRUE_LEFT: Derivation = Pair(
    DeductAntisym,
    &P_IS_Q_FROM_BOTH,
    &Pair(EqMp, &ASSUME_P_IS_Q, &ASSUME_P),
);

// q |- (p <=> q) <=> p
const Q_IS_P: Derivation = Sym(&ASSUME_P_IS_Q);

pub(crate) const IFF_TRUE_RIGHT: Derivation = Pair(
    DeductAntisym,
    &P_IS_Q_FROM_BOTH,
    &Pair(EqMp, &Q_IS_P, &ASSUME_Q),
);

// p <=> F |- (q <=> F) <=> (p <=> q)
pub(crate) const IFF_FALSE_LEFT: Derivation = Pair(
    DeductAntisym,
    &Pair(Trans, &Q_IS_P, &ASSUME_P_IS_F),
    &Pair(Trans, &ASSUME_P_IS_F, &Sym(&ASSUME_Q_IS_F)),
);
