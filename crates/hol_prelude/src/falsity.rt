// Laws of falsity and of `p \/ T`, as data.
use hol_prelude_derivations::derivation::Derivation;
use hol_prelude_derivations::derivation::Derivation::{
    Abs, ApTerm, ApThm, Earlier, Inst, Pair, Sym, Term,
};
use hol_prelude_derivations::formulas::{BOOL, F, FORALL_BOOL, IMP, P, P_CASE, P_IMP_R, Q, R, T};
use hol_prelude_derivations::logic::ASSUME_F;
use hol_prelude_derivations::numbers;
use hol_prelude_derivations::rule::PairRule::{DeductAntisym, EqMp, Trans};
use hol_prelude_derivations::rule::TermRule::Assume;
use hol_prelude_derivations::sketch::TermSketch;
use hol_prelude_derivations::sketch::TermSketch::{Abstraction, Combination, Equation};
use hol_prelude_derivations::truth::ASSUME_P;
use hol_prelude_laws::disjunction::P_OR;
use hol_prelude_laws::laws::{FROM_TRUE, P_OR_Q_FROM, T_IMP};
use hol_prelude_laws::{eqt_intro, forall};

// |- ((p <=> F) <=> p) <=> F
const ASSUME_DENIES: Derivation = Term(Assume, &Equation(&Equation(&P, &F), &P));

pub(crate) const P_FROM_F: Derivation = Earlier(numbers::CONTR);

const DENIES_P: Derivation = Pair(
    DeductAntisym,
    &P_FROM_F,
    &Pair(
        EqMp,
        &Pair(EqMp, &Sym(&ASSUME_DENIES), &ASSUME_P),
        &ASSUME_P,
    ),
);

pub(crate) const SELF_DENIAL: Derivation = Pair(
    DeductAntisym,
    &Pair(
        DeductAntisym,
        &Pair(DeductAntisym, &P_FROM_F, &ASSUME_F),
        &P_FROM_F,
    ),
    &Pair(EqMp, &DENIES_P, &Pair(EqMp, &ASSUME_DENIES, &DENIES_P)),
);

// |- p \/ T <=> T
pub(crate) const P_FOLLOWS_P: Derivation = Earlier(39);

const R_FOLLOWS_R_TRUE: Derivation = eqt_intro!(Inst(
    &R,
    &P,
    &P_FOLLOWS_P,
    &Combination(&Combination(&IMP, &R), &R)
));

const T_IMP_R: TermSketch = Combination(&T_IMP, &R);

const FROM_TRUE_R: Derivation = Inst(&R, &Q, &FROM_TRUE, &Equation(&T_IMP_R, &R));

const T_CASES_FOLLOW: Derivation = ApTerm(
    &P_CASE,
    &Pair(
        Trans,
        &ApThm(&ApTerm(&IMP, &FROM_TRUE_R), &R),
        &R_FOLLOWS_R_TRUE,
    ),
);

pub(crate) const TO_TRUE: Derivation = Earlier(31);

const T_CASES_TRUE: Derivation = Pair(
    Trans,
    &T_CASES_FOLLOW,
    &Inst(
        &P_IMP_R,
        &P,
        &TO_TRUE,
        &Equation(&Combination(&P_CASE, &T), &T),
    ),
);

const R_T_CASES: TermSketch = Abstraction(
    &R,
    &Combination(&P_CASE, &Combination(&Combination(&IMP, &T_IMP_R), &R)),
);

const FORALL_R_T_CASES: TermSketch = Combination(&FORALL_BOOL, &R_T_CASES);

const T_CASES_HOLD: Derivation = forall!(BOOL, R_T_CASES, Abs(&R, &T_CASES_TRUE));

const P_OR_T_HOLDS: Derivation = Pair(
    EqMp,
    &Inst(
        &T,
        &Q,
        &P_OR_Q_FROM,
        &Equation(&FORALL_R_T_CASES, &Combination(&P_OR, &T)),
    ),
    &T_CASES_HOLD,
);

pub(crate) const P_OR_TRUE_EQUATION: Derivation = eqt_intro!(P_OR_T_HOLDS);
