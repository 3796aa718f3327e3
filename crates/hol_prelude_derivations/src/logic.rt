// The definitions of the logical constants (HOL Light's `bool.ml`), and derivations from them, as data.
use crate::derivation::Derivation;
use crate::derivation::Derivation::{ApThm, Earlier, Inst, InstType, Pair, Sym, Term};
use crate::formulas::{
    A, ALWAYS, BOOL, F, FALSE_BODY, FORALL, FORALL_BODY, FORALL_BOOL, IDENTITY, IMP_BODY, IMP_P,
    IS_ALWAYS, NOT, NOT_BODY, P, P_ABSORBS_Q, P_IMP, P_IMP_F, PRED, PRED_X, Q, T, UNARY, X,
};
use crate::rule::PairRule::{DeductAntisym, EqMp, Trans};
use crate::rule::TermRule::{Assume, Beta, Refl};
use crate::sketch::TermSketch;
use crate::sketch::TermSketch::{Abstraction, Combination, Equation, Formula, Variable};
use crate::truth::{ASSUME_P, EARLIER_TRUTH};
use crate::{numbers, unfolded};

// |- p ==> q <=> (p /\ q <=> p): IMP_DEF at p and q
pub const IMP_UNFOLDED: Derivation = unfolded!(
    unfolded!(Earlier(numbers::IMP_DEF), IMP_BODY, P),
    IMP_P,
    Q
);

// p /\ q <=> p |- p ==> q
pub const P_IMP_Q_IS: Derivation = Earlier(numbers::IMP_UNFOLDED);

const SYM_P_IMP_Q_IS: Derivation = Sym(&P_IMP_Q_IS);

pub const DISCH: Derivation = Pair(EqMp, &SYM_P_IMP_Q_IS, &Term(Assume, &P_ABSORBS_Q));

// p, p ==> q |- q
const SYM_ABSORBS: Derivation = Sym(&Pair(
    EqMp,
    &P_IMP_Q_IS,
    &Term(Assume, &Combination(&P_IMP, &Q)),
));

const BOTH: Derivation = Pair(EqMp, &SYM_ABSORBS, &ASSUME_P);

const P_AND_Q_SECOND: Derivation = Earlier(numbers::CONJUNCT2);

pub const MP: Derivation = Pair(EqMp, &Pair(DeductAntisym, &BOTH, &P_AND_Q_SECOND), &BOTH);

// p |- q <=> p /\ q
const BOTH_FROM_PARTS: Derivation = Earlier(numbers::BOTH);

pub const CONJ_EQUATION: Derivation = Pair(DeductAntisym, &P_AND_Q_SECOND, &BOTH_FROM_PARTS);

// p |- p ==> q <=> q
pub const MP_EQUATION: Derivation = Pair(
    DeductAntisym,
    &Pair(
        EqMp,
        &SYM_P_IMP_Q_IS,
        &Pair(DeductAntisym, &BOTH_FROM_PARTS, &ASSUME_P),
    ),
    &Earlier(numbers::Q_FROM_P),
);

// |- (!) P <=> P = (\x. T): FORALL_DEF at P
pub const FORALL_UNFOLDED: Derivation = unfolded!(Earlier(numbers::FORALL_DEF), FORALL_BODY, PRED);

// P = (\x. T) |- (!) P
pub const FORALL_PRED_IS: Derivation = Earlier(numbers::FORALL_UNFOLDED);

pub const SYM_FORALL_PRED_IS: Derivation = Sym(&FORALL_PRED_IS);

pub const GEN: Derivation = Pair(EqMp, &SYM_FORALL_PRED_IS, &Term(Assume, &IS_ALWAYS));

// (!) P |- P x
const PRED_AT_X: Derivation = ApThm(
    &Pair(
        EqMp,
        &FORALL_PRED_IS,
        &Term(Assume, &Combination(&FORALL, &PRED)),
    ),
    &X,
);

pub const ALWAYS_X: TermSketch = Combination(&ALWAYS, &X);

pub const BETA_ALWAYS: Derivation = Term(Beta, &ALWAYS_X);

pub const REFL_PRED_X: Derivation = Term(Refl, &PRED_X);

pub const SPEC: Derivation = Pair(
    EqMp,
    &Sym(&Pair(Trans, &PRED_AT_X, &BETA_ALWAYS)),
    &EARLIER_TRUTH,
);

// |- ~p <=> p ==> F: NOT_DEF at p
pub const NOT_UNFOLDED: Derivation = unfolded!(Earlier(numbers::NOT_DEF), NOT_BODY, P);

// p ==> F |- ~p
const NOT_P_IS: Derivation = Earlier(numbers::NOT_UNFOLDED);

pub const NOT_P: TermSketch = Combination(&NOT, &P);

pub const SYM_NOT_P_IS: Derivation = Sym(&NOT_P_IS);

pub const NOT_INTRO: Derivation = Pair(EqMp, &SYM_NOT_P_IS, &Term(Assume, &P_IMP_F));

// ~p |- p ==> F
pub const NOT_ELIM: Derivation = Pair(EqMp, &NOT_P_IS, &Term(Assume, &NOT_P));

// F |- p: F_DEF, and FORALL_DEF for formulas
pub const FORMULA_PRED: TermSketch = Variable("P", &UNARY);

pub const FORMULA: TermSketch = Formula("x");

pub const FORMULA_ALWAYS: TermSketch = Abstraction(&FORMULA, &T);

const FORMULA_IS_ALWAYS: TermSketch = Equation(&FORMULA_PRED, &FORMULA_ALWAYS);

const FORALL_FORMULA: TermSketch = Combination(&FORALL_BOOL, &FORMULA_PRED);

pub const FORALL_FORMULA_IS: Derivation = InstType(
    &BOOL,
    &A,
    &FORALL_PRED_IS,
    &Equation(&FORALL_FORMULA, &FORMULA_IS_ALWAYS),
);

const P_ALWAYS: TermSketch = Abstraction(&P, &T);

pub const ASSUME_F: Derivation = Term(Assume, &F);

const IDENTITY_ALWAYS: Derivation = Pair(
    EqMp,
    &Inst(
        &IDENTITY,
        &FORMULA_PRED,
        &FORALL_FORMULA_IS,
        &Equation(&FALSE_BODY, &Equation(&IDENTITY, &P_ALWAYS)),
    ),
    &Pair(EqMp, &Earlier(numbers::F_DEF), &ASSUME_F),
);

const ALWAYS_HOLDS: Derivation = Pair(
    EqMp,
    &Sym(&Term(Beta, &Combination(&P_ALWAYS, &P))),
    &EARLIER_TRUTH,
);

pub const CONTR: Derivation = Pair(
    EqMp,
    &Term(Beta, &Combination(&IDENTITY, &P)),
    &Pair(EqMp, &Sym(&ApThm(&IDENTITY_ALWAYS, &P)), &ALWAYS_HOLDS),
);
