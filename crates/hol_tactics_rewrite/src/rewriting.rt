// ASM_REWRITE_TAC, and of what MP_TAC brought.

use crate::basic::is_truth;
use crate::changed::Changed;
use crate::redepth::Redepth;
use crate::rules::Rules;
use hol_host::HostFail;
use hol_just::{Goal, Step};
use hol_tactics_forms::{dest_imp, discharged, eq_mp, eqt_elim, sub, sym, to_none, to_one};
use hol_terms::Term;
use std::alloc::Global;

/// ASM_REWRITE_TAC: the goal rewritten by its assumptions, by HOL Light's basic rewrites and by beta conversion, from the inside out,
/// as often as one of them applies. Of an assumption, `!` is stripped, a conjunction gives the rules of both sides, an equation is a
/// rule from left to right, `~p` gives `p <=> F`, another formula `p <=> T`. No subgoal where `T` is left. It fails where nothing
/// applies, and where more than 2,000 rewrites are wanted.
pub fn asm_rewrite(alloc: Global, goal: &Goal) -> Result<Step, HostFail> {
    let mut rules = Rules::new(alloc, goal)?;
    rules.add_all(alloc, &goal.asms)?;
    rewritten(alloc, goal, &goal.concl, rules)
}

/// ASM_REWRITE_TAC of what MP_TAC brought: on `p ==> g` the goal `g` rewritten by `p`, by the assumptions and as `asm_rewrite` does.
pub fn rewrite(alloc: Global, goal: &Goal) -> Result<Step, HostFail> {
    let Some((brought, wanted)) = dest_imp(&goal.concl) else {
        return Err(HostFail::Failed);
    };
    let mut rules = Rules::new(alloc, goal)?;
    rules.add(alloc, brought)?;
    rules.add_all(alloc, &goal.asms)?;
    discharged(alloc, brought, rewritten(alloc, goal, wanted, rules))
}

// The step from a conclusion to what it is rewritten to.
fn rewritten(alloc: Global, goal: &Goal, concl: &Term, rules: Rules) -> Result<Step, HostFail> {
    let (rewrites, fixed) = rules.into_parts();
    let mut rewriting = Redepth::by_rules(rewrites, fixed);
    match rewriting.convert(alloc, concl)? {
        Some(changed) => to_changed(alloc, goal, changed),
        None => Err(HostFail::Failed),
    }
}

// The step to what the conclusion became.
fn to_changed(alloc: Global, goal: &Goal, changed: Changed) -> Result<Step, HostFail> {
    let Changed { term, just } = changed;
    if is_truth(&term) {
        return to_none(alloc, eqt_elim(alloc, Ok(just)));
    }
    let just = eq_mp(alloc, sym(alloc, Ok(just)), sub(alloc, 0));
    to_one(alloc, goal.with_concl(alloc, &term), just)
}
