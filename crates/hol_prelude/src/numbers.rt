// The numbers, among the theorems of the prelude, of those that rules are made from.

pub use hol_prelude_derivations::numbers::{
    CONJ, CONJUNCT1, CONJUNCT2, CONTR, DISCH, EQT_ELIM, EQT_INTRO, GEN, MP, NOT_ELIM, NOT_INTRO,
    SPEC, TRUTH,
};

/// `p |- p \/ q`.
pub const DISJ1: usize = 27;
/// `q |- p \/ q`.
pub const DISJ2: usize = 28;
/// `p \/ q |- (p ==> r) ==> (q ==> r) ==> r`.
pub const DISJ_CASES: usize = 29;
/// `P x |- (?) P`.
pub const EXISTS: usize = 30;
/// `(?) P |- (!x. P x ==> q) ==> q`.
pub const CHOOSE: usize = 31;
/// `|- !t. (\x. t x) = t`.
pub const ETA_AX: usize = 32;
/// `|- !P x. P x ==> P (@ P)`.
pub const SELECT_AX: usize = 33;
/// `|- p \/ ~p`.
pub const EXCLUDED_MIDDLE: usize = 34;
/// `|- (/\) = (/\)`.
pub const AND_REFL: usize = 36;
/// `|- T /\ T`.
pub const T_AND_T: usize = 37;
