// A goal without redexes, before it is split.

use hol_host::HostFail;
use hol_just::{Goal, Step};
use hol_tactics_forms::{Derivation, assume, eq_mp, prove_hyp, push_copy, sub, sym, to_one};
use hol_tactics_rewrite::beta_normal;
use hol_terms::Term;
use std::alloc::Global;

/// The step to the goal whose formulas are in beta normal form. It fails where more than 2,000 redexes of one are reduced.
pub(crate) fn reduce(alloc: Global, goal: &Goal) -> Result<Step, HostFail> {
    let mut asms = Vec::new(alloc);
    let mut just = sub(alloc, 0);
    for assumption in &goal.asms {
        just = reduced_assumption(alloc, assumption, just, &mut asms);
    }
    match beta_normal(alloc, &goal.concl)? {
        Some((concl, equal)) => {
            to_one(
                alloc,
                Ok(Goal { asms, concl }),
                eq_mp(alloc, sym(alloc, Ok(equal)), just),
            )
        }
        None => {
            let concl = goal.concl.copy(alloc)?;
            to_one(alloc, Ok(Goal { asms, concl }), just)
        }
    }
}

// The same from an assumption, where it is from the normal form of this, which is put at the end of a list.
fn reduced_assumption(
    alloc: Global,
    assumption: &Term,
    just: Derivation,
    asms: &mut Vec<Term>,
) -> Derivation {
    let Some((normal, equal)) = beta_normal(alloc, assumption)? else {
        push_copy(alloc, assumption, asms)?;
        return just;
    };
    asms.push(normal)?;
    prove_hyp(
        alloc,
        eq_mp(alloc, Ok(equal), assume(alloc, assumption)),
        just,
    )
}
