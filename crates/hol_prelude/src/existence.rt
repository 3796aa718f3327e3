// The pieces of EXISTS and CHOOSE, as data.
use hol_prelude_derivations::derivation::Derivation;
use hol_prelude_derivations::derivation::Derivation::{
    ApTerm, ApThm, Earlier, Inst, Pair, Sym, Term,
};
use hol_prelude_derivations::formulas::{
    ALWAYS, BOOL, EACH_IMP_Q, EXISTS_BODY, IMP, PRED, Q, Q_EACH, QUANTIFIER, X, X_PRED_X_IMP_Q,
};
use hol_prelude_derivations::logic::{ALWAYS_X, FORALL_PRED_IS};
use hol_prelude_derivations::rule::PairRule::{EqMp, Trans};
use hol_prelude_derivations::rule::TermRule::{Assume, Beta};
use hol_prelude_derivations::sketch::TermSketch;
use hol_prelude_derivations::sketch::TermSketch::{Combination, Constant, Equation};
use hol_prelude_derivations::{numbers, unfolded};
use hol_prelude_laws::choice::PRED_X_HOLDS;
use hol_prelude_laws::laws::{EXISTS_PRED_IS, FROM_TRUE, SPECIALIZES};
use hol_prelude_laws::{discharge, generalize, specialize};

// |- (?) P <=> (!q. (!x. P x ==> q) ==> q): EXISTS_DEF at P
pub(crate) const EXISTS_UNFOLDED: Derivation = unfolded!(
    Earlier(numbers::EXISTS_DEF),
    EXISTS_BODY,
    PRED
);

// P x |- (?) P
const ASSUME_EACH_IMP_Q: Derivation = Term(Assume, &EACH_IMP_Q);

const X_CASE_AT_X: TermSketch = Combination(&X_PRED_X_IMP_Q, &X);

const X_CASE_ALWAYS: Derivation = Pair(
    EqMp,
    &Inst(
        &X_PRED_X_IMP_Q,
        &PRED,
        &FORALL_PRED_IS,
        &Equation(&EACH_IMP_Q, &Equation(&X_PRED_X_IMP_Q, &ALWAYS)),
    ),
    &ASSUME_EACH_IMP_Q,
);

const X_CASE_APPLIED: Derivation = Pair(
    EqMp,
    &Inst(
        &X_PRED_X_IMP_Q,
        &PRED,
        &SPECIALIZES,
        &Equation(&Equation(&X_CASE_AT_X, &ALWAYS_X), &X_CASE_AT_X),
    ),
    &ApThm(&X_CASE_ALWAYS, &X),
);

const Q_FROM_X: Derivation = Pair(
    EqMp,
    &Pair(Trans, &ApThm(&ApTerm(&IMP, &PRED_X_HOLDS), &Q), &FROM_TRUE),
    &Pair(EqMp, &Term(Beta, &X_CASE_AT_X), &X_CASE_APPLIED),
);

pub(crate) const EXISTS_RULE: Derivation = Pair(
    EqMp,
    &Sym(&EXISTS_PRED_IS),
    &generalize!(BOOL, Q, Q_EACH, discharge!(EACH_IMP_Q, Q, Q_FROM_X)),
);

// (?) P |- (!x. P x ==> q) ==> q
const CASES_OF_Q: Derivation = Pair(
    EqMp,
    &EXISTS_PRED_IS,
    &Term(Assume, &Combination(&Constant("?", &QUANTIFIER), &PRED)),
);

pub(crate) const CHOOSE: Derivation = specialize!(Q, Q_EACH, CASES_OF_Q);
