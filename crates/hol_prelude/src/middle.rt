// EXCLUDED_MIDDLE, as data: a formula that is chosen to deny `@x. T` or to make `p \/ ~p` hold.
use crate::falsity::{P_FOLLOWS_P, P_FROM_F, TO_TRUE};
use hol_prelude_derivations::derivation::Derivation;
use hol_prelude_derivations::derivation::Derivation::{
    Abs, ApTerm, ApThm, Earlier, Inst, InstType, Pair, Term,
};
use hol_prelude_derivations::formulas::{A, BOOL, BOOL_QUANTIFIER, F, IMP, NOT, P, P_IMP, Q, T};
use hol_prelude_derivations::logic::{FORMULA, FORMULA_ALWAYS, FORMULA_PRED, NOT_P, SYM_NOT_P_IS};
use hol_prelude_derivations::rule::PairRule::{DeductAntisym, EqMp, MkComb, Trans};
use hol_prelude_derivations::rule::TermRule::{Assume, Beta, Refl};
use hol_prelude_derivations::sketch::TermSketch;
use hol_prelude_derivations::sketch::TermSketch::{
    Abstraction, Combination, Constant, Equation, Formula,
};
use hol_prelude_derivations::truth::{EQ_BOOL, REFL_T};
use hol_prelude_laws::disjunction::{OR, P_OR, P_OR_Q};
use hol_prelude_laws::laws::CHOSEN;
use hol_prelude_laws::{discharge_true, eqt_intro, generalize, true_imp};

// p |- p \/ ~p <=> T
pub(crate) const P_OR_Q_FROM_P: Derivation = Earlier(41);

const P_OR_EACH: TermSketch = Abstraction(&Q, &P_OR_Q);

const Q_ALWAYS: TermSketch = Abstraction(&Q, &T);

const P_OR_EACH_SIDES: Derivation = Pair(
    MkComb,
    &ApTerm(&EQ_BOOL, &Term(Beta, &Combination(&P_OR_EACH, &Q))),
    &Term(Beta, &Combination(&Q_ALWAYS, &Q)),
);

const P_OR_NOT_P: TermSketch = Combination(&P_OR, &NOT_P);

const P_OR_NOT_P_SIDES: Derivation = Inst(
    &NOT_P,
    &Q,
    &P_OR_EACH_SIDES,
    &Equation(
        &Equation(
            &Combination(&P_OR_EACH, &NOT_P),
            &Combination(&Q_ALWAYS, &NOT_P),
        ),
        &Equation(&P_OR_NOT_P, &T),
    ),
);

pub(crate) const MIDDLE_TRUE_FROM_P: Derivation = Pair(
    EqMp,
    &P_OR_NOT_P_SIDES,
    &ApThm(&Abs(&Q, &eqt_intro!(P_OR_Q_FROM_P)), &NOT_P),
);

// |- (((@x. T) <=> F) <=> c ==> p \/ ~p) <=> p \/ ~p, with @x. (((@x. T) <=> F) <=> x ==> p \/ ~p) <=> p \/ ~p for c
const FORMULA_CHOICE: TermSketch = Constant("@", &BOOL_QUANTIFIER);

const ANY: TermSketch = Combination(&FORMULA_CHOICE, &FORMULA_ALWAYS);

const ANY_IS_F: TermSketch = Equation(&ANY, &F);

const DENIAL_OF_X: TermSketch = Equation(&ANY_IS_F, &FORMULA);

const DENIAL_OF_X_IMP: TermSketch = Combination(&IMP, &DENIAL_OF_X);

const DECIDES: TermSketch = Abstraction(
    &FORMULA,
    &Equation(&Combination(&DENIAL_OF_X_IMP, &P_OR_NOT_P), &P_OR_NOT_P),
);

const DECIDES_X: TermSketch = Combination(&DECIDES, &FORMULA);

const BETA_DECIDES: Derivation = Term(Beta, &DECIDES_X);

const DENIAL_DECIDES: Derivation = true_imp!(P_OR_NOT_P, eqt_intro!(Term(Refl, &ANY_IS_F)));

const DENIAL_DECIDES_MEANS: TermSketch = Equation(
    &Combination(
        &Combination(&IMP, &Equation(&ANY_IS_F, &ANY_IS_F)),
        &P_OR_NOT_P,
    ),
    &P_OR_NOT_P,
);

const DECIDES_DENIAL: TermSketch = Combination(&DECIDES, &ANY_IS_F);

const FORMULA_CHOSEN: Derivation = InstType(
    &BOOL,
    &A,
    &CHOSEN,
    &Combination(
        &Combination(&IMP, &Combination(&FORMULA_PRED, &FORMULA)),
        &Combination(&FORMULA_PRED, &Combination(&FORMULA_CHOICE, &FORMULA_PRED)),
    ),
);

const DECIDER: TermSketch = Combination(&FORMULA_CHOICE, &DECIDES);

const DECIDES_DECIDER: TermSketch = Combination(&DECIDES, &DECIDER);

const DECIDER_CHOSEN_AT: Derivation = Inst(
    &ANY_IS_F,
    &FORMULA,
    &Inst(
        &DECIDES,
        &FORMULA_PRED,
        &FORMULA_CHOSEN,
        &Combination(&Combination(&IMP, &DECIDES_X), &DECIDES_DECIDER),
    ),
    &Combination(&Combination(&IMP, &DECIDES_DENIAL), &DECIDES_DECIDER),
);

const DECIDES_DENIAL_TRUE: Derivation = Pair(
    Trans,
    &Inst(
        &ANY_IS_F,
        &FORMULA,
        &BETA_DECIDES,
        &Equation(&DECIDES_DENIAL, &DENIAL_DECIDES_MEANS),
    ),
    &eqt_intro!(DENIAL_DECIDES),
);

const DECIDER_DENIES: TermSketch = Equation(&ANY_IS_F, &DECIDER);

const DECIDER_DENIES_IMP: TermSketch = Combination(&IMP, &DECIDER_DENIES);

const DECIDER_LEADS: TermSketch = Combination(&DECIDER_DENIES_IMP, &P_OR_NOT_P);

pub(crate) const MIDDLE_CHOSEN: Derivation = Pair(
    EqMp,
    &Inst(
        &DECIDER,
        &FORMULA,
        &BETA_DECIDES,
        &Equation(&DECIDES_DECIDER, &Equation(&DECIDER_LEADS, &P_OR_NOT_P)),
    ),
    &Pair(
        EqMp,
        &true_imp!(DECIDES_DECIDER, DECIDES_DENIAL_TRUE),
        &DECIDER_CHOSEN_AT,
    ),
);

// ((@x. T) <=> F) <=> c |- p \/ ~p <=> T
const MIDDLE_TRUE: Derivation = Earlier(42);

const X_LEADS_TRUE: Derivation = Pair(
    Trans,
    &ApTerm(&DENIAL_OF_X_IMP, &MIDDLE_TRUE),
    &Inst(
        &DENIAL_OF_X,
        &P,
        &TO_TRUE,
        &Equation(&Combination(&DENIAL_OF_X_IMP, &T), &T),
    ),
);

const EACH_DECIDES: Derivation = Abs(
    &FORMULA,
    &Pair(
        Trans,
        &Pair(MkComb, &ApTerm(&EQ_BOOL, &X_LEADS_TRUE), &MIDDLE_TRUE),
        &eqt_intro!(REFL_T),
    ),
);

const ASSUME_DECIDER_DENIES: Derivation = Term(Assume, &DECIDER_DENIES);

const F_FROM_DECIDER: Derivation = Pair(
    EqMp,
    &Inst(
        &ANY,
        &P,
        &Earlier(38),
        &Equation(&Equation(&ANY_IS_F, &ANY), &F),
    ),
    &Pair(
        Trans,
        &ASSUME_DECIDER_DENIES,
        &ApTerm(&FORMULA_CHOICE, &EACH_DECIDES),
    ),
);

const NOT_P_FROM_DECIDER: Derivation = Pair(
    EqMp,
    &SYM_NOT_P_IS,
    &Pair(
        EqMp,
        &ApTerm(&P_IMP, &Pair(DeductAntisym, &P_FROM_F, &F_FROM_DECIDER)),
        &P_FOLLOWS_P,
    ),
);

pub(crate) const MIDDLE_TRUE_FROM_DECIDER: Derivation = Pair(
    Trans,
    &ApTerm(&P_OR, &eqt_intro!(NOT_P_FROM_DECIDER)),
    &Earlier(40),
);

// |- p \/ ~p
pub(crate) const EXCLUDED_MIDDLE: Derivation = Pair(
    EqMp,
    &Earlier(43),
    &discharge_true!(DECIDER_DENIES, P_OR_NOT_P, Earlier(44)),
);

// |- !t. t \/ ~t
const TRUTH_VALUE: TermSketch = Formula("t");

const EACH_T_OR_NOT_T: TermSketch = Abstraction(
    &TRUTH_VALUE,
    &Combination(
        &Combination(&OR, &TRUTH_VALUE),
        &Combination(&NOT, &TRUTH_VALUE),
    ),
);

pub(crate) const EXCLUDED_MIDDLE_EACH: Derivation = generalize!(
    BOOL,
    P,
    EACH_T_OR_NOT_T,
    Earlier(52)
);
