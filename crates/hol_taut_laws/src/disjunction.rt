// The law of `\/` of which one side is `F`, as data.
use crate::negations::P_FOLLOWS_P;
use hol_prelude_derivations::derivation::Derivation;
use hol_prelude_derivations::derivation::Derivation::{ApTerm, ApThm, Earlier, Inst, Pair, Term};
use hol_prelude_derivations::formulas::{IMP, P, P_IMP, Q, R};
use hol_prelude_derivations::rule::PairRule::{DeductAntisym, EqMp, Trans};
use hol_prelude_derivations::rule::TermRule::Assume;
use hol_prelude_derivations::sketch::TermSketch;
use hol_prelude_derivations::sketch::TermSketch::Combination;
use hol_prelude_laws::disjunction::P_OR_Q;
use hol_prelude_laws::laws::FROM_TRUE;
use hol_prelude_laws::{detach, eqt_intro};

// p <=> F |- p \/ q <=> q
const Q_IMP_Q: TermSketch = Combination(&Combination(&IMP, &Q), &Q);

const RIGHT_CASE_FOLLOWS: Derivation = ApThm(
    &ApTerm(&IMP, &eqt_intro!(Inst(&Q, &P, &P_FOLLOWS_P, &Q_IMP_Q))),
    &Q,
);

const Q_RIGHT_CASE: TermSketch = Combination(&Combination(&IMP, &Q_IMP_Q), &Q);

const Q_CASES: TermSketch = Combination(
    &Combination(&IMP, &Combination(&P_IMP, &Q)),
    &Q_RIGHT_CASE,
);

pub(crate) const DECIDES: Derivation = Earlier(43);

const Q_FROM_RIGHT_CASE: Derivation = detach!(
    Q_RIGHT_CASE,
    detach!(
        Q_CASES,
        Inst(
            &Q,
            &R,
            &DECIDES,
            &Combination(&Combination(&IMP, &P_OR_Q), &Q_CASES)
        ),
        Term(Assume, &P_OR_Q)
    ),
    Earlier(46)
);

pub(crate) const OR_FALSE_LEFT: Derivation = Pair(
    DeductAntisym,
    &Earlier(32),
    &Pair(
        EqMp,
        &Pair(Trans, &RIGHT_CASE_FOLLOWS, &FROM_TRUE),
        &Q_FROM_RIGHT_CASE,
    ),
);
