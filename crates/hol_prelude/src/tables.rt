// The tables of the theorems that stand when a script begins, and of the laws among them.
use crate::conjunction::{AND_IS_AND, T_AND_T_HOLDS};
use crate::existence::{CHOOSE, EXISTS_RULE, EXISTS_UNFOLDED};
use crate::falsity::{P_OR_TRUE_EQUATION, SELF_DENIAL};
use crate::middle::{
    EXCLUDED_MIDDLE, EXCLUDED_MIDDLE_EACH, MIDDLE_CHOSEN, MIDDLE_TRUE_FROM_DECIDER,
    MIDDLE_TRUE_FROM_P, P_OR_Q_FROM_P,
};
use hol_prelude_derivations::conjunction::{AND_UNFOLDED, CONJ, CONJUNCT1, CONJUNCT2};
use hol_prelude_derivations::formulas::{
    AND_BODY, EXISTS_BODY, F, FALSE_BODY, FORALL_BODY, IMP_BODY, NOT_BODY, OR_BODY, T, TRUE_BODY,
};
use hol_prelude_derivations::logic::{
    CONJ_EQUATION, CONTR, DISCH, FORALL_UNFOLDED, GEN, IMP_UNFOLDED, MP, MP_EQUATION, NOT_ELIM,
    NOT_INTRO, NOT_UNFOLDED, SPEC, SYM_FORALL_PRED_IS,
};
use hol_prelude_derivations::making::Making;
use hol_prelude_derivations::truth::{EQT_ELIM, EQT_INTRO, TRUTH};
use hol_prelude_laws::choice::{CHOOSES, ETA_AX, SELECT_AX};
use hol_prelude_laws::disjunction::{DISJ_CASES, DISJ_P, DISJ_Q, OR_UNFOLDED, SYM_P_OR_Q_IS};
use hol_prelude_laws::laws::{
    EACH_HOLDS_AT_X, FIRST_IS_U, IMP_TRUE_EQUATION, P_IMPLIES_P, T_IMP_Q_IS_Q, TESTS_DISCHARGE,
    TRUE_EQUATION,
};

/// The number of the first law of the table. Laws are cited by later derivations alone.
pub(crate) const FIRST_LAW: usize = 27;

/// The number of the first theorem behind the laws.
pub(crate) const BEHIND_LAWS: usize = 45;

/// The definitions T_DEF, AND_DEF, IMP_DEF, FORALL_DEF, EXISTS_DEF, OR_DEF, F_DEF and NOT_DEF, then TRUTH, and the
/// theorems from which rules are made.
pub(crate) const FIRST_THEOREMS: [Making<'static>; 27] = [
    Making::Define("T", &TRUE_BODY),
    Making::Define("/\\", &AND_BODY),
    Making::Define("==>", &IMP_BODY),
    Making::Define("!", &FORALL_BODY),
    Making::Define("?", &EXISTS_BODY),
    Making::Define("\\/", &OR_BODY),
    Making::Define("F", &FALSE_BODY),
    Making::Define("~", &NOT_BODY),
    Making::Derive(&TRUTH),
    Making::Derive(&EQT_INTRO),
    Making::Derive(&EQT_ELIM),
    Making::Derive(&AND_UNFOLDED),
    Making::Derive(&CONJ),
    Making::Derive(&CONJUNCT1),
    Making::Derive(&CONJUNCT2),
    Making::Derive(&IMP_UNFOLDED),
    Making::Derive(&DISCH),
    Making::Derive(&MP),
    Making::Derive(&FORALL_UNFOLDED),
    Making::Derive(&GEN),
    Making::Derive(&SPEC),
    Making::Derive(&NOT_UNFOLDED),
    Making::Derive(&NOT_INTRO),
    Making::Derive(&NOT_ELIM),
    Making::Derive(&CONTR),
    Making::Derive(&CONJ_EQUATION),
    Making::Derive(&MP_EQUATION),
];

/// Laws of `T`, `==>`, `!`, `\/`, `?` and `@`.
pub(crate) const LAWS: [Making<'static>; 11] = [
    Making::Derive(&TRUE_EQUATION),
    Making::Derive(&TESTS_DISCHARGE),
    Making::Derive(&FIRST_IS_U),
    Making::Derive(&T_IMP_Q_IS_Q),
    Making::Derive(&IMP_TRUE_EQUATION),
    Making::Derive(&SYM_FORALL_PRED_IS),
    Making::Derive(&EACH_HOLDS_AT_X),
    Making::Derive(&OR_UNFOLDED),
    Making::Derive(&SYM_P_OR_Q_IS),
    Making::Derive(&EXISTS_UNFOLDED),
    Making::Derive(&CHOOSES),
];

/// Laws of `F`, `p ==> p` and `p \/ T`, DISJ1, and what it says of `p \/ ~p`.
pub(crate) const FALSITY_LAWS: [Making<'static>; 5] = [
    Making::Derive(&SELF_DENIAL),
    Making::Derive(&P_IMPLIES_P),
    Making::Derive(&P_OR_TRUE_EQUATION),
    Making::Derive(&DISJ_P),
    Making::Derive(&MIDDLE_TRUE_FROM_P),
];

/// Laws of the formula that is chosen for `p \/ ~p`.
pub(crate) const DECIDER_LAWS: [Making<'static>; 2] = [
    Making::Derive(&MIDDLE_CHOSEN),
    Making::Derive(&MIDDLE_TRUE_FROM_DECIDER),
];

/// DISJ1, which stands among the laws.
pub(crate) const DISJUNCTION: [Making<'static>; 1] = [Making::Derive(&P_OR_Q_FROM_P)];

/// DISJ2 and DISJ_CASES.
pub(crate) const CASES: [Making<'static>; 2] = [
    Making::Derive(&DISJ_Q),
    Making::Derive(&DISJ_CASES),
];

/// EXISTS.
pub(crate) const EXISTENCE: [Making<'static>; 1] = [Making::Derive(&EXISTS_RULE)];

/// CHOOSE, ETA_AX and SELECT_AX.
pub(crate) const AXIOMS: [Making<'static>; 3] = [
    Making::Derive(&CHOOSE),
    Making::Derive(&ETA_AX),
    Making::Derive(&SELECT_AX),
];

/// EXCLUDED_MIDDLE, of `p` and of each formula.
pub(crate) const MIDDLE: [Making<'static>; 2] = [
    Making::Derive(&EXCLUDED_MIDDLE),
    Making::Derive(&EXCLUDED_MIDDLE_EACH),
];

/// REFL of `/\`, and `T /\ T`.
pub(crate) const CONJUNCTION: [Making<'static>; 2] = [
    Making::Derive(&AND_IS_AND),
    Making::Derive(&T_AND_T_HOLDS),
];
