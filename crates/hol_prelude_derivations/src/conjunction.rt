// The pieces of CONJ, CONJUNCT1 and CONJUNCT2, as data.
use crate::derivation::Derivation;
use crate::derivation::Derivation::{Abs, ApTerm, ApThm, Earlier, Inst, Pair, Sym, Term};
use crate::formulas::{AND_BODY, AND_P, P, P_AND_Q, Q, T, TEST, TESTED, TESTED_TRUE};
use crate::rule::PairRule::{DeductAntisym, EqMp, MkComb, Trans};
use crate::rule::TermRule::{Assume, Beta};
use crate::sketch::TermSketch;
use crate::sketch::TermSketch::{Abstraction, Combination, Equation};
use crate::truth::{EARLIER_TRUTH, EQ_BOOL};
use crate::{numbers, unfolded};

// |- p /\ q <=> (\f. f p q) = (\f. f T T): AND_DEF at p and q
pub const AND_UNFOLDED: Derivation = unfolded!(
    unfolded!(Earlier(numbers::AND_DEF), AND_BODY, P),
    AND_P,
    Q
);

// p, q |- p /\ q
const P_AND_Q_IS: Derivation = Earlier(numbers::AND_UNFOLDED);

pub const P_TRUE: Derivation = Earlier(numbers::EQT_INTRO);

pub const Q_TRUE: Derivation = Pair(DeductAntisym, &Term(Assume, &Q), &EARLIER_TRUTH);

pub const P_AND_Q_IS_EQUATES: Derivation = ApTerm(&EQ_BOOL, &P_AND_Q_IS);

pub const CONJ: Derivation = Pair(
    EqMp,
    &Sym(&P_AND_Q_IS),
    &Abs(&TEST, &Pair(MkComb, &ApTerm(&TEST, &P_TRUE), &Q_TRUE)),
);

// p /\ q |- (\f. f p q) = (\f. f T T)
const AGREE: Derivation = Pair(EqMp, &P_AND_Q_IS, &Term(Assume, &P_AND_Q));

const BETA_TESTED: Derivation = Term(Beta, &Combination(&TESTED, &TEST));

const BETA_TESTED_TRUE: Derivation = Term(Beta, &Combination(&TESTED_TRUE, &TEST));

// \p q. p, or \p q. q
macro_rules! projection {
    ($part:expr) => {
        Abstraction(&P, &Abstraction(&Q, &$part))
    };
}

// |- (\p q. part) p q = part
macro_rules! projected {
    ($part:expr) => {
        unfolded!(
            Term(Beta, &Combination(&projection!($part), &P)),
            Abstraction(&Q, &$part),
            Q
        )
    };
}

// |- (\f. f p q) (\p q. part) = part
macro_rules! tested_at {
    ($part:expr) => {
        Pair(
            Trans,
            &Inst(
                &projection!($part),
                &TEST,
                &BETA_TESTED,
                &Equation(
                    &Combination(&TESTED, &projection!($part)),
                    &Combination(&Combination(&projection!($part), &P), &Q),
                ),
            ),
            &projected!($part),
        )
    };
}

// |- (\f. f T T) (\p q. part) = T: the part, and the part with T for p
macro_rules! true_at {
    ($part:expr, $part_at_t:expr) => {
        Pair(
            Trans,
            &Inst(
                &projection!($part),
                &TEST,
                &BETA_TESTED_TRUE,
                &Equation(
                    &Combination(&TESTED_TRUE, &projection!($part)),
                    &Combination(&Combination(&projection!($part), &T), &T),
                ),
            ),
            &Inst(
                &T,
                &Q,
                &Inst(
                    &T,
                    &P,
                    &projected!($part),
                    &Equation(
                        &Combination(&Combination(&projection!($part), &T), &Q),
                        &$part_at_t,
                    ),
                ),
                &Equation(
                    &Combination(&Combination(&projection!($part), &T), &T),
                    &T,
                ),
            ),
        )
    };
}

// p /\ q |- part: both tests at its projection
macro_rules! conjunct {
    ($projection:expr, $tested:expr, $is_true:expr) => {
        Pair(
            EqMp,
            &$tested,
            &Pair(
                EqMp,
                &Sym(&ApThm(&AGREE, &$projection)),
                &Pair(EqMp, &Sym(&$is_true), &EARLIER_TRUTH),
            ),
        )
    };
}

// p /\ q |- p: with \p q. p for f
pub const FIRST: TermSketch = projection!(P);

pub const FIRST_TESTED: Derivation = tested_at!(P);

pub const TRUE_AT_FIRST: TermSketch = Combination(&TESTED_TRUE, &FIRST);

pub const FIRST_TRUE: Derivation = true_at!(P, T);

pub const CONJUNCT1: Derivation = conjunct!(FIRST, FIRST_TESTED, FIRST_TRUE);

// p /\ q |- q: with \p q. q for f
pub const SECOND: TermSketch = projection!(Q);

pub const SECOND_TESTED: Derivation = tested_at!(Q);

pub const TRUE_AT_SECOND: TermSketch = Combination(&TESTED_TRUE, &SECOND);

pub const SECOND_TRUE: Derivation = true_at!(Q, Q);

pub const CONJUNCT2: Derivation = conjunct!(SECOND, SECOND_TESTED, SECOND_TRUE);
