// ETA_AX and SELECT_AX, as data.
use crate::laws::{CHOSEN, GENERALIZES};
use crate::{discharge, eqt_intro, generalize};
use hol_prelude_derivations::derivation::Derivation;
use hol_prelude_derivations::derivation::Derivation::{Abs, Inst, Pair, Term};
use hol_prelude_derivations::formulas::{
    A, ALWAYS, FORALL, PRED, PRED_X, PRED_X_IMP, PREDICATE, X,
};
use hol_prelude_derivations::rule::Axiom;
use hol_prelude_derivations::rule::PairRule::EqMp;
use hol_prelude_derivations::rule::TermRule::Assume;
use hol_prelude_derivations::sketch::TermSketch::{
    Abstraction, Combination, Constant, Equation, Variable,
};
use hol_prelude_derivations::sketch::{TermSketch, TypeSketch};

// |- P x ==> P ((@) P)
pub const PRED_X_HOLDS: Derivation = eqt_intro!(Term(Assume, &PRED_X));

const PRED_CHOICE: TermSketch = Combination(
    &PRED,
    &Combination(&Constant("@", &TypeSketch::Function(&PREDICATE, &A)), &PRED),
);

pub const CHOOSES: Derivation = discharge!(PRED_X, PRED_CHOICE, Derivation::Axiom(Axiom::Select));

const PRED_X_IMP_PRED_CHOICE: TermSketch = Combination(&PRED_X_IMP, &PRED_CHOICE);

// |- !t. (\x. t x) = t
const A_TO_B: TypeSketch = TypeSketch::Function(&A, &TypeSketch::Variable("B"));

const FUNCTION: TermSketch = Variable("t", &A_TO_B);

const ETA_AX_BODY: TermSketch = Abstraction(
    &FUNCTION,
    &Equation(&Abstraction(&X, &Combination(&FUNCTION, &X)), &FUNCTION),
);

pub const ETA_AX: Derivation = generalize!(
    A_TO_B,
    FUNCTION,
    ETA_AX_BODY,
    Derivation::Axiom(Axiom::Eta)
);

// |- !P x. P x ==> P ((@) P)
const CHOOSES_EACH_BODY: TermSketch = Abstraction(&X, &PRED_X_IMP_PRED_CHOICE);

const CHOOSES_EACH_FORALL: TermSketch = Combination(&FORALL, &CHOOSES_EACH_BODY);

const CHOOSES_EACH: Derivation = Pair(
    EqMp,
    &Inst(
        &CHOOSES_EACH_BODY,
        &PRED,
        &GENERALIZES,
        &Equation(&Equation(&CHOOSES_EACH_BODY, &ALWAYS), &CHOOSES_EACH_FORALL),
    ),
    &Abs(&X, &eqt_intro!(CHOSEN)),
);

const SELECT_AX_BODY: TermSketch = Abstraction(&PRED, &CHOOSES_EACH_FORALL);

pub const SELECT_AX: Derivation = generalize!(PREDICATE, PRED, SELECT_AX_BODY, CHOOSES_EACH);
