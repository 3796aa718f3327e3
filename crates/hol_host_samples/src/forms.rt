// Terms taken apart and put together.

use hol_model::Fault;
use hol_terms::Term;
use hol_types::Ty;
use std::alloc::Global;

// Two operands of an infix.
#[derive(Clone, Copy)]
pub(crate) struct Operands<'a> {
    pub(crate) left: &'a Term,
    pub(crate) right: &'a Term,
}

// A bound variable and what it is bound in.
#[derive(Clone, Copy)]
pub(crate) struct Bound<'a> {
    pub(crate) variable: &'a Term,
    pub(crate) body: &'a Term,
}

/// The operands of this infix, where the term has that form.
pub(crate) fn dest_binary<'a>(term: &'a Term, infix: &str) -> Option<Operands<'a>> {
    let (applied, right) = term.dest_comb()?;
    let (head, left) = applied.dest_comb()?;
    let (name, _) = head.dest_const()?;
    if name == infix {
        Some(Operands { left, right })
    } else {
        None
    }
}

/// The variable and the body of a universal formula.
pub(crate) fn dest_forall(term: &Term) -> Option<Bound<'_>> {
    let (head, predicate) = term.dest_comb()?;
    let (name, _) = head.dest_const()?;
    let (variable, body) = predicate.dest_abs()?;
    if name == "!" {
        Some(Bound { variable, body })
    } else {
        None
    }
}

/// `F`.
pub(crate) fn falsity(alloc: Global) -> Result<Term, Fault> {
    Term::mk_const(alloc, "F", &Ty::boolean(alloc)?)
}

/// `p /\ q`.
pub(crate) fn conjunction(alloc: Global, p: &Term, q: &Term) -> Result<Term, Fault> {
    let boolean = Ty::boolean(alloc)?;
    let unary = Ty::fun(alloc, &boolean, &boolean)?;
    let binary = Ty::fun(alloc, &boolean, &unary)?;
    let and = Term::mk_const(alloc, "/\\", &binary)?;
    let applied = Term::mk_comb(alloc, &and, p)?;
    Term::mk_comb(alloc, &applied, q)
}
