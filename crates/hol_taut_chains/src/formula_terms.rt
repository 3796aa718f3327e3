// Terms from which laws of chains and their instances are made.
ghost use Rattle.std.specs.Prelude.{◌≡◌, true, IfOk, IfErr};
ghost use Rattle.hol_model.specs.declared.fault.Fault.TheVariants.{Memory};
ghost use Rattle.hol_model.specs.Terms.HolType.{bool_type};
ghost use Rattle.hol_model.specs.Terms.Name.{is_identifier};
ghost use Rattle.hol_model.specs.Terms.NamedTerm.{variable};

use hol_model::Fault;
use hol_terms::{Term, mk_eq};
use hol_types::Ty;
use std::alloc::Global;

/// The variable of this name of type `bool`.
pub fn proposition(alloc: Global, name: &str) -> Result<Term, Fault>
    requires { is_identifier name.now ≡ true }
    ensures ok { IfOk result (λ term. term ≡ variable name.now bool_type) }
    ensures err { IfErr result (λ fault. fault ≡ Memory) }
{
    let boolean = Ty::boolean(alloc)?;
    Term::mk_var(alloc, name, &boolean)
}

// Puts a formula for the variable of this name.
fn put(
    alloc: Global,
    terms: &mut Vec<(Term, Term)>,
    formula: &Term,
    name: &str,
) -> Result<(), Fault>
    requires { is_identifier name.now ≡ true }
{
    let variable = proposition(alloc, name)?;
    let formula = formula.copy(alloc)?;
    terms.push((formula, variable))?;
    Ok(())
}

// Puts the formulas for the variables `p`, `q` and `r`.
fn put_p_q_r(
    alloc: Global,
    terms: &mut Vec<(Term, Term)>,
    p: &Term,
    q: &Term,
    r: &Term,
) -> Result<(), Fault> {
    put(alloc, terms, p, "p")?;
    put(alloc, terms, q, "q")?;
    put(alloc, terms, r, "r")
}

/// The formulas for the variables `p`, `q` and `r`.
pub(crate) fn for_p_q_r(
    alloc: Global,
    p: &Term,
    q: &Term,
    r: &Term,
) -> Result<Vec<(Term, Term)>, Fault> {
    let mut terms = Vec::new(alloc);
    put_p_q_r(alloc, &mut terms, p, q, r)?;
    Ok(terms)
}

/// `(=)` at its first argument.
pub(crate) fn equal_to(alloc: Global, left: &Term) -> Result<Term, Fault> {
    let whole = mk_eq(alloc, left, left)?;
    match whole.dest_comb() {
        Some((function, _)) => function.copy(alloc),
        None => Err(Fault::BadShape),
    }
}

/// `~` of a formula.
pub(crate) fn negation(alloc: Global, p: &Term) -> Result<Term, Fault> {
    let boolean = Ty::boolean(alloc)?;
    let ty = Ty::fun(alloc, &boolean, &boolean)?;
    let not = Term::mk_const(alloc, "~", &ty)?;
    Term::mk_comb(alloc, &not, p)
}
