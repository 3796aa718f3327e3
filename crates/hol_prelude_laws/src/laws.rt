// Laws of truth, implication and `!` from which derivations discharge, detach, generalize and specialize, as data.
use crate::{discharge, eqt_intro, first_of_tests, tested, tests, tests_discharge};
use hol_prelude_derivations::conjunction::{
    FIRST_TESTED, FIRST_TRUE, P_AND_Q_IS_EQUATES, P_TRUE, Q_TRUE, SECOND, SECOND_TESTED,
    SECOND_TRUE, TRUE_AT_SECOND,
};
use hol_prelude_derivations::derivation::Derivation;
use hol_prelude_derivations::derivation::Derivation::{
    Abs, ApTerm, ApThm, Earlier, Inst, Pair, Sym, Term,
};
use hol_prelude_derivations::formulas::{IMP, P, PRED_X, Q, T, TEST, TEST_T};
use hol_prelude_derivations::logic::{BETA_ALWAYS, P_IMP_Q_IS, REFL_PRED_X};
use hol_prelude_derivations::numbers;
use hol_prelude_derivations::rule::PairRule::{DeductAntisym, EqMp, MkComb, Trans};
use hol_prelude_derivations::rule::TermRule::Assume;
use hol_prelude_derivations::sketch::TermSketch;
use hol_prelude_derivations::sketch::TermSketch::{Combination, Equation, Formula};
use hol_prelude_derivations::truth::{ASSUME_P, EARLIER_TRUTH, EQ_BOOL};

// |- (p <=> T) <=> p
pub const TRUE_EQUATION: Derivation = Pair(DeductAntisym, &P_TRUE, &Earlier(numbers::EQT_ELIM));

// |- ((\f. f u v) = (\f. f T T) <=> u) <=> (u ==> v)
const IMP_AS_TESTS: Derivation = Pair(Trans, &P_IMP_Q_IS, &ApThm(&P_AND_Q_IS_EQUATES, &P));

pub const U: TermSketch = Formula("u");

pub const V: TermSketch = Formula("v");

pub const TESTS_DISCHARGE: Derivation = Inst(
    &V,
    &Q,
    &Inst(&U, &P, &Sym(&IMP_AS_TESTS), &tests_discharge!(U, Q)),
    &tests_discharge!(U, V),
);

// |- ((\f. f u v) (\p q. p) <=> (\f. f T T) (\p q. p)) <=> u
pub const EQUALS_TRUE: Derivation = Earlier(27);

const FIRST_IS_P: Derivation = Pair(
    Trans,
    &Pair(MkComb, &ApTerm(&EQ_BOOL, &FIRST_TESTED), &FIRST_TRUE),
    &EQUALS_TRUE,
);

pub const FIRST_IS_U: Derivation = Inst(
    &V,
    &Q,
    &Inst(&U, &P, &FIRST_IS_P, &first_of_tests!(U, Q)),
    &first_of_tests!(U, V),
);

// |- (T ==> q) <=> q
pub const T_IMP: TermSketch = Combination(&IMP, &T);

const TESTS_AGREE_T_Q: TermSketch = tests!(T, Q);

const TRUE_ABSORBS: TermSketch = Equation(&TESTS_AGREE_T_Q, &T);

const T_IMP_Q_TESTS: Derivation = Pair(
    Trans,
    &Inst(
        &T,
        &P,
        &IMP_AS_TESTS,
        &Equation(&Combination(&T_IMP, &Q), &TRUE_ABSORBS),
    ),
    &Inst(
        &TESTS_AGREE_T_Q,
        &P,
        &EQUALS_TRUE,
        &Equation(&TRUE_ABSORBS, &TESTS_AGREE_T_Q),
    ),
);

const SECOND_IS_Q: Derivation = Pair(
    Trans,
    &Pair(MkComb, &ApTerm(&EQ_BOOL, &SECOND_TESTED), &SECOND_TRUE),
    &Inst(&Q, &P, &EQUALS_TRUE, &Equation(&Equation(&Q, &T), &Q)),
);

const SECOND_IS_Q_AT_T: Derivation = Inst(
    &T,
    &P,
    &SECOND_IS_Q,
    &Equation(
        &Equation(&Combination(&tested!(T, Q), &SECOND), &TRUE_AT_SECOND),
        &Q,
    ),
);

const TESTS_ARE_Q: Derivation = Pair(
    DeductAntisym,
    &Abs(&TEST, &ApTerm(&TEST_T, &Q_TRUE)),
    &Pair(
        EqMp,
        &SECOND_IS_Q_AT_T,
        &ApThm(&Term(Assume, &TESTS_AGREE_T_Q), &SECOND),
    ),
);

pub const T_IMP_Q_IS_Q: Derivation = Pair(Trans, &T_IMP_Q_TESTS, &TESTS_ARE_Q);

// |- (p ==> T) <=> T
pub const IMP_TRUE_EQUATION: Derivation = eqt_intro!(discharge!(P, T, EARLIER_TRUTH));

// |- (P x <=> (\x. T) x) <=> P x
pub const EACH_HOLDS_AT_X: Derivation = Pair(
    Trans,
    &Pair(MkComb, &ApTerm(&EQ_BOOL, &REFL_PRED_X), &BETA_ALWAYS),
    &Inst(
        &PRED_X,
        &P,
        &EQUALS_TRUE,
        &Equation(&Equation(&PRED_X, &T), &PRED_X),
    ),
);

// |- p ==> p
pub const P_IMPLIES_P: Derivation = discharge!(P, P, ASSUME_P);

pub const DISCHARGE: Derivation = Earlier(28);

pub const FIRST_OF_TESTS: Derivation = Earlier(29);

pub const FROM_TRUE: Derivation = Earlier(30);

pub const GENERALIZES: Derivation = Earlier(32);

pub const SPECIALIZES: Derivation = Earlier(33);

pub(crate) const P_OR_Q_IS: Derivation = Earlier(34);

pub const P_OR_Q_FROM: Derivation = Earlier(35);

pub const EXISTS_PRED_IS: Derivation = Earlier(36);

pub const CHOSEN: Derivation = Earlier(37);
