// The bodies of the definitions of the logical constants (HOL Light's `bool.ml`), and their parts, as data.
use crate::sketch::TermSketch::{Abstraction, Combination, Constant, Equation, Formula, Variable};
use crate::sketch::{TermSketch, TypeSketch};

pub const BOOL: TypeSketch = TypeSketch::Bool;

pub const A: TypeSketch = TypeSketch::Variable("A");

pub(crate) const UNARY: TypeSketch = TypeSketch::Function(&BOOL, &BOOL);

pub const BINARY: TypeSketch = TypeSketch::Binary;

pub const PREDICATE: TypeSketch = TypeSketch::Function(&A, &BOOL);

pub const QUANTIFIER: TypeSketch = TypeSketch::Function(&PREDICATE, &BOOL);

pub const BOOL_QUANTIFIER: TypeSketch = TypeSketch::Function(&UNARY, &BOOL);

pub const P: TermSketch = Formula("p");

pub const Q: TermSketch = Formula("q");

pub const R: TermSketch = Formula("r");

pub const X: TermSketch = Variable("x", &A);

pub const PRED: TermSketch = Variable("P", &PREDICATE);

pub const PRED_X: TermSketch = Combination(&PRED, &X);

pub const T: TermSketch = Constant("T", &BOOL);

pub const F: TermSketch = Constant("F", &BOOL);

pub const IMP: TermSketch = Constant("==>", &BINARY);

pub const NOT: TermSketch = Constant("~", &UNARY);

pub const FORALL: TermSketch = Constant("!", &QUANTIFIER);

pub const FORALL_BOOL: TermSketch = Constant("!", &BOOL_QUANTIFIER);

// (\p. p) = (\p. p)
pub(crate) const IDENTITY: TermSketch = Abstraction(&P, &P);

pub const TRUE_BODY: TermSketch = Equation(&IDENTITY, &IDENTITY);

// \p q. (\f. f p q) = (\f. f T T)
pub const TEST: TermSketch = Variable("f", &BINARY);

const TEST_P: TermSketch = Combination(&TEST, &P);

pub(crate) const TESTED: TermSketch = Abstraction(&TEST, &Combination(&TEST_P, &Q));

pub const TEST_T: TermSketch = Combination(&TEST, &T);

pub const TESTED_TRUE: TermSketch = Abstraction(&TEST, &Combination(&TEST_T, &T));

pub(crate) const AND_P: TermSketch = Abstraction(&Q, &Equation(&TESTED, &TESTED_TRUE));

pub const AND_BODY: TermSketch = Abstraction(&P, &AND_P);

// \p q. p /\ q <=> p
pub(crate) const P_AND_Q: TermSketch = Combination(&Combination(&Constant("/\\", &BINARY), &P), &Q);

pub(crate) const P_ABSORBS_Q: TermSketch = Equation(&P_AND_Q, &P);

pub(crate) const IMP_P: TermSketch = Abstraction(&Q, &P_ABSORBS_Q);

pub const IMP_BODY: TermSketch = Abstraction(&P, &IMP_P);

// \P. P = (\x. T)
pub const ALWAYS: TermSketch = Abstraction(&X, &T);

pub(crate) const IS_ALWAYS: TermSketch = Equation(&PRED, &ALWAYS);

pub const FORALL_BODY: TermSketch = Abstraction(&PRED, &IS_ALWAYS);

// \P. !q. (!x. P x ==> q) ==> q
pub const PRED_X_IMP: TermSketch = Combination(&IMP, &PRED_X);

pub const X_PRED_X_IMP_Q: TermSketch = Abstraction(&X, &Combination(&PRED_X_IMP, &Q));

pub const EACH_IMP_Q: TermSketch = Combination(&FORALL, &X_PRED_X_IMP_Q);

const EACH_IMP_Q_IMP: TermSketch = Combination(&IMP, &EACH_IMP_Q);

const EACH_IMP_Q_IMP_Q: TermSketch = Combination(&EACH_IMP_Q_IMP, &Q);

pub const Q_EACH: TermSketch = Abstraction(&Q, &EACH_IMP_Q_IMP_Q);

const FORALL_Q_EACH: TermSketch = Combination(&FORALL_BOOL, &Q_EACH);

pub const EXISTS_BODY: TermSketch = Abstraction(&PRED, &FORALL_Q_EACH);

// \p q. !r. (p ==> r) ==> (q ==> r) ==> r
pub const P_IMP: TermSketch = Combination(&IMP, &P);

pub const P_IMP_R: TermSketch = Combination(&P_IMP, &R);

pub const Q_IMP_R: TermSketch = Combination(&Combination(&IMP, &Q), &R);

const Q_CASE: TermSketch = Combination(&IMP, &Q_IMP_R);

pub const Q_CASE_R: TermSketch = Combination(&Q_CASE, &R);

pub const P_CASE: TermSketch = Combination(&IMP, &P_IMP_R);

pub const BOTH_CASES: TermSketch = Combination(&P_CASE, &Q_CASE_R);

pub const R_BOTH_CASES: TermSketch = Abstraction(&R, &BOTH_CASES);

const FORALL_R_CASES: TermSketch = Combination(&FORALL_BOOL, &R_BOTH_CASES);

pub const OR_P: TermSketch = Abstraction(&Q, &FORALL_R_CASES);

pub const OR_BODY: TermSketch = Abstraction(&P, &OR_P);

// !p. p
pub const FALSE_BODY: TermSketch = Combination(&FORALL_BOOL, &IDENTITY);

// \p. p ==> F
pub(crate) const P_IMP_F: TermSketch = Combination(&P_IMP, &F);

pub const NOT_BODY: TermSketch = Abstraction(&P, &P_IMP_F);
