// Derived rules, as macros that write derivations.
pub use crate::laws::{
    DISCHARGE, FIRST_OF_TESTS, FROM_TRUE, GENERALIZES, SPECIALIZES, T_IMP, U, V,
};
pub use hol_prelude_derivations::conjunction::{FIRST, TRUE_AT_FIRST};
pub use hol_prelude_derivations::derivation::Derivation::{
    Abs, ApTerm, ApThm, Inst, InstType, Pair, Term,
};
pub use hol_prelude_derivations::formulas::{A, BOOL, FORALL_BOOL, IMP, Q, T, TEST, TESTED_TRUE};
pub use hol_prelude_derivations::logic::{
    FORALL_FORMULA_IS, FORMULA, FORMULA_ALWAYS, FORMULA_PRED,
};
pub use hol_prelude_derivations::rule::PairRule::{DeductAntisym, EqMp, MkComb, Trans};
pub use hol_prelude_derivations::rule::TermRule::{Assume, Beta};
pub use hol_prelude_derivations::sketch::TermSketch::{
    Abstraction, Combination, Constant, Equation, Variable,
};
pub use hol_prelude_derivations::sketch::TypeSketch::Function;
pub use hol_prelude_derivations::truth::EARLIER_TRUTH;

/// `\f. f p q`.
#[macro_export]
macro_rules! tested {
    ($p:expr, $q:expr) => {
        $crate::rules::Abstraction(
            &$crate::rules::TEST,
            &$crate::rules::Combination(
                &$crate::rules::Combination(&$crate::rules::TEST, &$p),
                &$q,
            ),
        )
    };
}

/// `(\f. f p q) = (\f. f T T)`.
#[macro_export]
macro_rules! tests {
    ($p:expr, $q:expr) => {
        $crate::rules::Equation(&$crate::tested!($p, $q), &$crate::rules::TESTED_TRUE)
    };
}

/// `((\f. f p q) = (\f. f T T) <=> p) <=> (p ==> q)`.
#[macro_export]
macro_rules! tests_discharge {
    ($p:expr, $q:expr) => {
        $crate::rules::Equation(
            &$crate::rules::Equation(&$crate::tests!($p, $q), &$p),
            &$crate::rules::Combination(
                &$crate::rules::Combination(&$crate::rules::IMP, &$p),
                &$q,
            ),
        )
    };
}

/// `((\f. f p q) (\p q. p) <=> (\f. f T T) (\p q. p)) <=> p`.
#[macro_export]
macro_rules! first_of_tests {
    ($p:expr, $q:expr) => {
        $crate::rules::Equation(
            &$crate::rules::Equation(
                &$crate::rules::Combination(&$crate::tested!($p, $q), &$crate::rules::FIRST),
                &$crate::rules::TRUE_AT_FIRST,
            ),
            &$p,
        )
    };
}

/// A law of `u` and `v` at `p` and `q`, with what it states at `p`, and then at both.
#[macro_export]
macro_rules! law_at {
    ($p:expr, $q:expr, $law:expr, $at_p:expr, $at_both:expr) => {
        $crate::rules::Inst(
            &$q,
            &$crate::rules::V,
            &$crate::rules::Inst(&$p, &$crate::rules::U, &$law, &$at_p),
            &$at_both,
        )
    };
}

/// EQT_INTRO: from `p`, `p <=> T`.
#[macro_export]
macro_rules! eqt_intro {
    ($theorem:expr) => {
        $crate::rules::Pair(
            $crate::rules::DeductAntisym,
            &$theorem,
            &$crate::rules::EARLIER_TRUTH,
        )
    };
}

/// From `q <=> T`, `(\f. f p q) = (\f. f T T)`, with the hypothesis `p`.
#[macro_export]
macro_rules! tests_hold {
    ($p:expr, $q_is_true:expr) => {
        $crate::rules::Abs(
            &$crate::rules::TEST,
            &$crate::rules::Pair(
                $crate::rules::MkComb,
                &$crate::rules::ApTerm(
                    &$crate::rules::TEST,
                    &$crate::eqt_intro!($crate::rules::Term($crate::rules::Assume, &$p)),
                ),
                &$q_is_true,
            ),
        )
    };
}

/// From `(\f. f p q) = (\f. f T T)`, which is a hypothesis, `p`.
#[macro_export]
macro_rules! first_of {
    ($p:expr, $q:expr) => {
        $crate::rules::Pair(
            $crate::rules::EqMp,
            &$crate::law_at!(
                $p,
                $q,
                $crate::rules::FIRST_OF_TESTS,
                $crate::first_of_tests!($p, $crate::rules::V),
                $crate::first_of_tests!($p, $q)
            ),
            &$crate::rules::ApThm(
                &$crate::rules::Term($crate::rules::Assume, &$crate::tests!($p, $q)),
                &$crate::rules::FIRST,
            ),
        )
    };
}

/// From `q <=> T`, `p ==> q` without the hypothesis `p`.
#[macro_export]
macro_rules! discharge_true {
    ($p:expr, $q:expr, $q_is_true:expr) => {
        $crate::rules::Pair(
            $crate::rules::EqMp,
            &$crate::law_at!(
                $p,
                $q,
                $crate::rules::DISCHARGE,
                $crate::tests_discharge!($p, $crate::rules::V),
                $crate::tests_discharge!($p, $q)
            ),
            &$crate::rules::Pair(
                $crate::rules::DeductAntisym,
                &$crate::tests_hold!($p, $q_is_true),
                &$crate::first_of!($p, $q),
            ),
        )
    };
}

/// DISCH: from `q`, `p ==> q` without the hypothesis `p`.
#[macro_export]
macro_rules! discharge {
    ($p:expr, $q:expr, $theorem:expr) => {
        $crate::discharge_true!($p, $q, $crate::eqt_intro!($theorem))
    };
}

/// From `p <=> T`, `(p ==> q) <=> q`.
#[macro_export]
macro_rules! true_imp {
    ($q:expr, $p_is_true:expr) => {
        $crate::rules::Pair(
            $crate::rules::Trans,
            &$crate::rules::ApThm(
                &$crate::rules::ApTerm(&$crate::rules::IMP, &$p_is_true),
                &$q,
            ),
            &$crate::rules::Inst(
                &$q,
                &$crate::rules::Q,
                &$crate::rules::FROM_TRUE,
                &$crate::rules::Equation(
                    &$crate::rules::Combination(&$crate::rules::T_IMP, &$q),
                    &$q,
                ),
            ),
        )
    };
}

/// MP: from `p ==> q` and `p`, `q`.
#[macro_export]
macro_rules! detach {
    ($q:expr, $implication:expr, $antecedent:expr) => {
        $crate::rules::Pair(
            $crate::rules::EqMp,
            &$crate::true_imp!($q, $crate::eqt_intro!($antecedent)),
            &$implication,
        )
    };
}

/// `P = (\x. T) <=> !x. P x`, for `x` of a type.
#[macro_export]
macro_rules! always {
    ($ty:expr, $predicate:expr) => {
        $crate::rules::Equation(
            &$crate::rules::Equation(
                &$predicate,
                &$crate::rules::Abstraction(
                    &$crate::rules::Variable("x", &$ty),
                    &$crate::rules::T,
                ),
            ),
            &$crate::rules::Combination(
                &$crate::rules::Constant(
                    "!",
                    &$crate::rules::Function(
                        &$crate::rules::Function(&$ty, &$crate::rules::BOOL),
                        &$crate::rules::BOOL,
                    ),
                ),
                &$predicate,
            ),
        )
    };
}

/// A variable `P` for predicates of a type.
#[macro_export]
macro_rules! predicate {
    ($ty:expr) => {
        $crate::rules::Variable(
            "P",
            &$crate::rules::Function(&$ty, &$crate::rules::BOOL),
        )
    };
}

/// From `P = (\x. T)`, `!x. P x`, for `x` of a type.
#[macro_export]
macro_rules! forall {
    ($ty:expr, $predicate:expr, $is_always:expr) => {
        $crate::rules::Pair(
            $crate::rules::EqMp,
            &$crate::rules::Inst(
                &$predicate,
                &$crate::predicate!($ty),
                &$crate::rules::InstType(
                    &$ty,
                    &$crate::rules::A,
                    &$crate::rules::GENERALIZES,
                    &$crate::always!($ty, $crate::predicate!($ty)),
                ),
                &$crate::always!($ty, $predicate),
            ),
            &$is_always,
        )
    };
}

/// GEN: from the body of an abstraction, `!` of it; the type of its variable, a variable that stands for it, and the abstraction.
#[macro_export]
macro_rules! generalize {
    ($ty:expr, $x:expr, $abstraction:expr, $theorem:expr) => {
        $crate::forall!(
            $ty,
            $abstraction,
            $crate::rules::Abs(&$x, &$crate::eqt_intro!($theorem))
        )
    };
}

/// `(P x <=> (\x. T) x) <=> P x`, for a formula `x`.
#[macro_export]
macro_rules! always_at {
    ($predicate:expr, $x:expr) => {
        $crate::rules::Equation(
            &$crate::rules::Equation(
                &$crate::rules::Combination(&$predicate, &$x),
                &$crate::rules::Combination(&$crate::rules::FORMULA_ALWAYS, &$x),
            ),
            &$crate::rules::Combination(&$predicate, &$x),
        )
    };
}

/// SPEC: from `!` of an abstraction, its body; its variable, which is a formula, and the abstraction.
#[macro_export]
macro_rules! specialize {
    ($x:expr, $abstraction:expr, $theorem:expr) => {
        $crate::rules::Pair(
            $crate::rules::EqMp,
            &$crate::rules::Term(
                $crate::rules::Beta,
                &$crate::rules::Combination(&$abstraction, &$x),
            ),
            &$crate::rules::Pair(
                $crate::rules::EqMp,
                &$crate::rules::Inst(
                    &$x,
                    &$crate::rules::FORMULA,
                    &$crate::rules::Inst(
                        &$abstraction,
                        &$crate::rules::FORMULA_PRED,
                        &$crate::rules::InstType(
                            &$crate::rules::BOOL,
                            &$crate::rules::A,
                            &$crate::rules::SPECIALIZES,
                            &$crate::always_at!(
                                $crate::rules::FORMULA_PRED,
                                $crate::rules::FORMULA
                            ),
                        ),
                        &$crate::always_at!($abstraction, $crate::rules::FORMULA),
                    ),
                    &$crate::always_at!($abstraction, $x),
                ),
                &$crate::rules::ApThm(
                    &$crate::rules::Pair(
                        $crate::rules::EqMp,
                        &$crate::rules::Inst(
                            &$abstraction,
                            &$crate::rules::FORMULA_PRED,
                            &$crate::rules::FORALL_FORMULA_IS,
                            &$crate::rules::Equation(
                                &$crate::rules::Combination(
                                    &$crate::rules::FORALL_BOOL,
                                    &$abstraction,
                                ),
                                &$crate::rules::Equation(
                                    &$abstraction,
                                    &$crate::rules::FORMULA_ALWAYS,
                                ),
                            ),
                        ),
                        &$theorem,
                    ),
                    &$x,
                ),
            ),
        )
    };
}
