// The laws of the connectives at truth values.

/// A theorem of the connectives at truth values, of one formula `p` or of two, `p` and `q`.
#[derive(Clone, Copy, PartialEq, Eq, Hash)]
pub enum Law {
    /// `|- T`.
    Truth,
    /// `F |- p`.
    Contr,
    /// `p |- q <=> p /\ q`.
    Conj,
    /// `p |- (p ==> q) <=> q`.
    Mp,
    /// `p |- p \/ q`.
    Disj1,
    /// `q |- p \/ q`.
    Disj2,
    /// `p <=> F |- p /\ q <=> F`.
    AndFalseLeft,
    /// `q <=> F |- p /\ q <=> F`.
    AndFalseRight,
    /// `p <=> F |- p ==> q`.
    ImpFalseLeft,
    /// `q |- p ==> q`.
    ImpTrueRight,
    /// `p |- ~p <=> F`.
    NotTrue,
    /// `p <=> F |- ~p`.
    NotFalse,
    /// `p |- (p <=> q) <=> q`.
    IffTrueLeft,
    /// `q |- (p <=> q) <=> p`.
    IffTrueRight,
    /// `p <=> F |- (q <=> F) <=> (p <=> q)`.
    IffFalseLeft,
    /// `p <=> F |- p \/ q <=> q`.
    OrFalseLeft,
    /// `(p <=> F) <=> F |- p`.
    NotFalseElim,
}
