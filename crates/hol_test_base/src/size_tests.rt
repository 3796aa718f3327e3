// What a replacement that changes nothing costs.
use hol_model::Fault;
use hol_subst::{inst, vsubst};
use hol_terms::Term;
use hol_types::Ty;
use std::alloc::Global;

// Seventeen doublings of t to `f t t`.
fn doubled(alloc: Global, ty: &Ty) -> Result<Term, Fault> {
    let binary = Ty::fun(alloc, ty, &Ty::fun(alloc, ty, ty)?)?;
    let f = Term::mk_var(alloc, "f", &binary)?;
    let mut term = Term::mk_var(alloc, "t", ty)?;
    for _ in 0..17 {
        let half = Term::mk_comb(alloc, &f, &term)?;
        term = Term::mk_comb(alloc, &half, &term)?;
    }
    Ok(term)
}

fn is_whole(answer: &Result<Term, Fault>) -> bool {
    match answer {
        Ok(term) => term.nodes() == 524_285,
        Err(_) => false,
    }
}

// Whether z put for y changes nothing.
fn substitution_shares(alloc: Global) -> Result<bool, Fault> {
    let ty = Ty::tyvar(alloc, "A")?;
    let term = doubled(alloc, &ty)?;
    let theta = [(
        Term::mk_var(alloc, "z", &ty)?,
        Term::mk_var(alloc, "y", &ty)?,
    )];
    Ok(is_whole(&vsubst(alloc, &theta, &term)))
}

// Whether `bool` put for `B` changes nothing.
fn instance_shares(alloc: Global) -> Result<bool, Fault> {
    let term = doubled(alloc, &Ty::tyvar(alloc, "A")?)?;
    let theta = [(Ty::boolean(alloc)?, Ty::tyvar(alloc, "B")?)];
    Ok(is_whole(&inst(alloc, &theta, &term)))
}

// A replacement that changes nothing asks for no memory: whichever growth is refused, it answers the term.
#[test]
fn shares_what_stays(rt: HostRuntime) {
    let alloc = rt.alloc();
    assert!(rt; substitution_shares(alloc) != Ok(false));
    assert!(rt; instance_shares(alloc) != Ok(false));
}
