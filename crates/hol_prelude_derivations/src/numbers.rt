// The numbers of the first theorems of the prelude, by which derivations cite them and rules are made from them.

/// The definition of `T`.
pub const T_DEF: usize = 0;
/// The definition of `/\`.
pub const AND_DEF: usize = 1;
/// The definition of `==>`.
pub const IMP_DEF: usize = 2;
/// The definition of `!`.
pub const FORALL_DEF: usize = 3;
/// The definition of `?`.
pub const EXISTS_DEF: usize = 4;
/// The definition of `\/`.
pub const OR_DEF: usize = 5;
/// The definition of `F`.
pub const F_DEF: usize = 6;
/// The definition of `~`.
pub const NOT_DEF: usize = 7;
/// `|- T`.
pub const TRUTH: usize = 8;
/// `p |- p <=> T`.
pub const EQT_INTRO: usize = 9;
/// `p <=> T |- p`.
pub const EQT_ELIM: usize = 10;
/// `|- p /\ q <=> (\f. f p q) = (\f. f T T)`.
pub const AND_UNFOLDED: usize = 11;
/// `p, q |- p /\ q`.
pub const BOTH: usize = 12;
/// `p /\ q |- p`.
pub const CONJUNCT1: usize = 13;
/// `p /\ q |- q`.
pub const CONJUNCT2: usize = 14;
/// `|- p ==> q <=> (p /\ q <=> p)`.
pub const IMP_UNFOLDED: usize = 15;
/// `p /\ q <=> p |- p ==> q`.
pub const DISCH: usize = 16;
/// `p ==> q, p |- q`.
pub const Q_FROM_P: usize = 17;
/// `|- (!) P <=> P = (\x. T)`.
pub const FORALL_UNFOLDED: usize = 18;
/// `P = (\x. T) |- (!) P`.
pub const GEN: usize = 19;
/// `(!) P |- P x`.
pub const SPEC: usize = 20;
/// `|- ~p <=> p ==> F`.
pub const NOT_UNFOLDED: usize = 21;
/// `p ==> F |- ~p`.
pub const NOT_INTRO: usize = 22;
/// `~p |- p ==> F`.
pub const NOT_ELIM: usize = 23;
/// `F |- p`.
pub const CONTR: usize = 24;
/// `p |- q <=> p /\ q`.
pub const CONJ: usize = 25;
/// `p |- (p ==> q) <=> q`.
pub const MP: usize = 26;
