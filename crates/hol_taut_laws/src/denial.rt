// The law of a formula whose falsity is false, as data.
use crate::disjunction::DECIDES;
use crate::negations::P_FOLLOWS_P;
use crate::sides::{P_FROM_F, P_IS_F};
use hol_prelude_derivations::derivation::Derivation;
use hol_prelude_derivations::derivation::Derivation::{Earlier, Inst, Pair, Term};
use hol_prelude_derivations::formulas::{F, IMP, P, P_CASE, P_IMP, Q, R};
use hol_prelude_derivations::logic::NOT_P;
use hol_prelude_derivations::rule::PairRule::{DeductAntisym, EqMp};
use hol_prelude_derivations::rule::TermRule::Assume;
use hol_prelude_derivations::sketch::TermSketch;
use hol_prelude_derivations::sketch::TermSketch::{Combination, Equation};
use hol_prelude_laws::disjunction::P_OR;
use hol_prelude_laws::{detach, discharge};

// (p <=> F) <=> F |- p
const F_FROM_NOT_P: Derivation = Pair(
    EqMp,
    &Term(Assume, &Equation(&P_IS_F, &F)),
    &Pair(
        DeductAntisym,
        &P_FROM_F,
        &Pair(EqMp, &Earlier(48), &Term(Assume, &NOT_P)),
    ),
);

const NOT_P_IMPLIES_P: Derivation = discharge!(
    NOT_P,
    P,
    Pair(
        EqMp,
        &Pair(DeductAntisym, &F_FROM_NOT_P, &P_FROM_F),
        &F_FROM_NOT_P
    )
);

const NOT_P_IMP: TermSketch = Combination(&IMP, &NOT_P);

const NOT_P_IMP_P: TermSketch = Combination(&NOT_P_IMP, &P);

const MIDDLE_P_RIGHT_CASE: TermSketch = Combination(&Combination(&IMP, &NOT_P_IMP_P), &P);

const MIDDLE_P_CASES: TermSketch = Combination(
    &Combination(&IMP, &Combination(&P_IMP, &P)),
    &MIDDLE_P_RIGHT_CASE,
);

const P_OR_NOT_P_IMP: TermSketch = Combination(&IMP, &Combination(&P_OR, &NOT_P));

const MIDDLE_R_CASES: TermSketch = Combination(
    &P_CASE,
    &Combination(&Combination(&IMP, &Combination(&NOT_P_IMP, &R)), &R),
);

const MIDDLE_DECIDES_P: Derivation = Inst(
    &P,
    &R,
    &Inst(
        &NOT_P,
        &Q,
        &DECIDES,
        &Combination(&P_OR_NOT_P_IMP, &MIDDLE_R_CASES),
    ),
    &Combination(&P_OR_NOT_P_IMP, &MIDDLE_P_CASES),
);

const P_FROM_RIGHT_CASE: Derivation = detach!(
    MIDDLE_P_RIGHT_CASE,
    detach!(MIDDLE_P_CASES, MIDDLE_DECIDES_P, Earlier(38)),
    P_FOLLOWS_P
);

pub(crate) const NOT_FALSE_ELIM: Derivation = detach!(P, P_FROM_RIGHT_CASE, NOT_P_IMPLIES_P);
