// T, and the pieces of EQT_INTRO and EQT_ELIM, as data.
use crate::derivation::Derivation;
use crate::derivation::Derivation::{Earlier, Pair, Sym, Term};
use crate::formulas::{BINARY, IDENTITY, P, T};
use crate::numbers;
use crate::rule::PairRule::{DeductAntisym, EqMp};
use crate::rule::TermRule::{Assume, Refl};
use crate::sketch::TermSketch;
use crate::sketch::TermSketch::{Constant, Equation};

// |- T: EQ_MP (SYM T_DEF) (REFL (\p. p))
pub const EQ_BOOL: TermSketch = Constant("=", &BINARY);

pub const REFL_T: Derivation = Term(Refl, &T);

pub const TRUTH: Derivation = Pair(EqMp, &Sym(&Earlier(numbers::T_DEF)), &Term(Refl, &IDENTITY));

// p |- p <=> T: DEDUCT_ANTISYM_RULE (ASSUME p) TRUTH
pub const EARLIER_TRUTH: Derivation = Earlier(numbers::TRUTH);

pub const ASSUME_P: Derivation = Term(Assume, &P);

pub const EQT_INTRO: Derivation = Pair(DeductAntisym, &ASSUME_P, &EARLIER_TRUTH);

// p <=> T |- p: EQ_MP (SYM (ASSUME (p <=> T))) TRUTH
pub const EQT_ELIM: Derivation = Pair(EqMp, &Sym(&Term(Assume, &Equation(&P, &T))), &EARLIER_TRUTH);
