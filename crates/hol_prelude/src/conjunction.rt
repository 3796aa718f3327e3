// REFL of `/\` and `T /\ T`, as data.
use hol_prelude_derivations::derivation::Derivation;
use hol_prelude_derivations::derivation::Derivation::{Earlier, Inst, Pair, Sym, Term};
use hol_prelude_derivations::formulas::{BINARY, P, Q, T, TEST, TEST_T, TESTED_TRUE};
use hol_prelude_derivations::numbers;
use hol_prelude_derivations::rule::PairRule::EqMp;
use hol_prelude_derivations::rule::TermRule::Refl;
use hol_prelude_derivations::sketch::TermSketch;
use hol_prelude_derivations::sketch::TermSketch::{Abstraction, Combination, Constant, Equation};

// |- (/\) = (/\)
const AND: TermSketch = Constant("/\\", &BINARY);

pub(crate) const AND_IS_AND: Derivation = Term(Refl, &AND);

// |- T /\ T: the definition of /\ at T and T
const T_AND: TermSketch = Combination(&AND, &T);

const T_AND_Q_UNFOLDS: TermSketch = Equation(
    &Combination(&T_AND, &Q),
    &Equation(&Abstraction(&TEST, &Combination(&TEST_T, &Q)), &TESTED_TRUE),
);

const SYM_T_AND_T_IS: Derivation = Sym(&Inst(
    &T,
    &Q,
    &Inst(&T, &P, &Earlier(numbers::AND_UNFOLDED), &T_AND_Q_UNFOLDS),
    &Equation(
        &Combination(&T_AND, &T),
        &Equation(&TESTED_TRUE, &TESTED_TRUE),
    ),
));

pub(crate) const T_AND_T_HOLDS: Derivation = Pair(EqMp, &SYM_T_AND_T_IS, &Term(Refl, &TESTED_TRUE));
