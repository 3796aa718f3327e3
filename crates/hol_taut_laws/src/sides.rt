// Laws of `/\` and `==>` of which one side is `T` or `F`, as data.
use hol_prelude_derivations::derivation::Derivation;
use hol_prelude_derivations::derivation::Derivation::{
    Abs, ApTerm, ApThm, Earlier, Inst, Pair, Term,
};
use hol_prelude_derivations::formulas::{F, P, Q, T};
use hol_prelude_derivations::numbers;
use hol_prelude_derivations::rule::PairRule::{DeductAntisym, EqMp, MkComb, Trans};
use hol_prelude_derivations::rule::TermRule::{Assume, Beta};
use hol_prelude_derivations::sketch::TermSketch;
use hol_prelude_derivations::sketch::TermSketch::{Abstraction, Combination, Equation};
use hol_prelude_derivations::truth::{ASSUME_P, EQ_BOOL};
use hol_prelude_laws::eqt_intro;
use hol_prelude_laws::laws::EQUALS_TRUE;

// p <=> F |- p /\ q <=> F
pub(crate) const P_IS_F: TermSketch = Equation(&P, &F);

pub(crate) const ASSUME_P_IS_F: Derivation = Term(Assume, &P_IS_F);

const F_FROM_P: Derivation = Pair(EqMp, &ASSUME_P_IS_F, &ASSUME_P);

const IDENTITY: TermSketch = Abstraction(&P, &P);

const P_ALWAYS: TermSketch = Abstraction(&P, &T);

const IDENTITY_SIDES: Derivation = Pair(
    MkComb,
    &ApTerm(&EQ_BOOL, &Term(Beta, &Combination(&IDENTITY, &P))),
    &Term(Beta, &Combination(&P_ALWAYS, &P)),
);

const IDENTITY_AGREES_IS_Q: Derivation = Inst(
    &Q,
    &P,
    &Pair(Trans, &IDENTITY_SIDES, &EQUALS_TRUE),
    &Equation(
        &Equation(&Combination(&IDENTITY, &Q), &Combination(&P_ALWAYS, &Q)),
        &Q,
    ),
);

pub(crate) const P_FROM_F: Derivation = Earlier(numbers::CONTR);

const Q_FROM_F: Derivation = Pair(
    EqMp,
    &IDENTITY_AGREES_IS_Q,
    &ApThm(&Abs(&P, &eqt_intro!(P_FROM_F)), &Q),
);

const Q_FROM_P: Derivation = Pair(EqMp, &Pair(DeductAntisym, &F_FROM_P, &Q_FROM_F), &F_FROM_P);

const BOTH_FROM_PARTS: Derivation = Earlier(numbers::BOTH);

const P_FROM_BOTH: Derivation = Earlier(numbers::CONJUNCT1);

const BOTH_IS_P: Derivation = Pair(
    DeductAntisym,
    &Pair(
        EqMp,
        &Pair(DeductAntisym, &Q_FROM_P, &BOTH_FROM_PARTS),
        &Q_FROM_P,
    ),
    &P_FROM_BOTH,
);

pub(crate) const AND_FALSE_LEFT: Derivation = Pair(Trans, &BOTH_IS_P, &ASSUME_P_IS_F);

// q <=> F |- p /\ q <=> F
pub(crate) const ASSUME_Q_IS_F: Derivation = Term(Assume, &Equation(&Q, &F));

pub(crate) const ASSUME_Q: Derivation = Term(Assume, &Q);

const F_FROM_Q: Derivation = Pair(EqMp, &ASSUME_Q_IS_F, &ASSUME_Q);

const P_FROM_Q: Derivation = Pair(EqMp, &Pair(DeductAntisym, &F_FROM_Q, &P_FROM_F), &F_FROM_Q);

pub(crate) const AND_FALSE_RIGHT: Derivation = Pair(
    Trans,
    &Pair(
        DeductAntisym,
        &Pair(
            EqMp,
            &Pair(DeductAntisym, &P_FROM_Q, &BOTH_FROM_PARTS),
            &P_FROM_Q,
        ),
        &Earlier(numbers::CONJUNCT2),
    ),
    &ASSUME_Q_IS_F,
);

// p <=> F |- p ==> q
const P_IMP_Q_FROM_ABSORBS: Derivation = Earlier(numbers::DISCH);

pub(crate) const IMP_FALSE_LEFT: Derivation = Pair(
    EqMp,
    &Pair(DeductAntisym, &BOTH_IS_P, &P_IMP_Q_FROM_ABSORBS),
    &BOTH_IS_P,
);

// q |- p ==> q
const BOTH_IS_P_FROM_Q: Derivation = Pair(DeductAntisym, &BOTH_FROM_PARTS, &P_FROM_BOTH);

pub(crate) const IMP_TRUE_RIGHT: Derivation = Pair(
    EqMp,
    &Pair(DeductAntisym, &BOTH_IS_P_FROM_Q, &P_IMP_Q_FROM_ABSORBS),
    &BOTH_IS_P_FROM_Q,
);
