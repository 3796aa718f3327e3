// The steps of a quoted term.
use hol_model::Fault;
use hol_syntax::{Scope, term_of_steps};
use hol_syntax_grammar::TermStep;
use hol_syntax_grammar::grammar::{Binder, Infix};
use std::alloc::Global;

/// Whether the steps are refused so.
pub(crate) fn is_refused(
    alloc: Global,
    scope: &Scope,
    steps: &[TermStep<'_>],
    fault: &Fault,
) -> bool {
    match term_of_steps(alloc, scope, steps) {
        Ok(_) => false,
        Err(found) => found == *fault,
    }
}

/// The length of the shortest front of the steps that is refused so, where the whole is.
pub(crate) fn refused_front(
    alloc: Global,
    scope: &Scope,
    steps: &[TermStep<'_>],
    fault: &Fault,
) -> usize {
    let mut accepted = 0usize;
    let mut refused = steps.len();
    for _ in 0..64 {
        let middle = accepted.saturating_add(refused.saturating_sub(accepted) / 2);
        let Some(front) = steps.get(..middle) else {
            break;
        };
        if middle == accepted {
            break;
        }
        if is_refused(alloc, scope, front, fault) {
            refused = middle;
        } else {
            accepted = middle;
        }
    }
    refused
}

/// How many steps stand before those that make the last term of the first steps, so many.
pub(crate) fn begin_of_last(steps: &[TermStep<'_>], count: usize) -> usize {
    // How many terms are wanted and how many scopes are open, from the back.
    let mut terms = 1usize;
    let mut scopes = 0usize;
    let mut at = count;
    for _ in 0..count {
        if terms == 0 && scopes == 0 {
            break;
        }
        at = at.saturating_sub(1);
        match steps.get(at) {
            Some(TermStep::Bare(_) | TermStep::Variable(_, _) | TermStep::Constant(_, _)) => {
                terms = terms.saturating_sub(1);
            }
            Some(TermStep::Apply | TermStep::Join(_)) => terms = terms.saturating_add(1),
            Some(TermStep::Enter(_, _)) => scopes = scopes.saturating_sub(1),
            Some(TermStep::Leave(_)) => scopes = scopes.saturating_add(1),
            Some(TermStep::Not) | None => {}
        }
    }
    at
}

/// How many of the first steps, so many, stand for names of the text.
pub(crate) fn names_before(steps: &[TermStep<'_>], count: usize) -> usize {
    let mut names = 0usize;
    for at in 0..count.min(steps.len()) {
        if matches!(
            &steps[at],
            TermStep::Bare(_)
                | TermStep::Variable(_, _)
                | TermStep::Constant(_, _)
                | TermStep::Enter(_, _)
        ) {
            names = names.saturating_add(1);
        }
    }
    names
}

/// The sign of an infix.
pub(crate) fn infix_sign(operation: Infix) -> &'static str {
    match operation {
        Infix::Iff => "<=>",
        Infix::Implies => "==>",
        Infix::Or => "\\/",
        Infix::And => "/\\",
        Infix::Equal => "=",
    }
}

/// The sign of a binder.
pub(crate) fn binder_sign(binder: Binder) -> &'static str {
    match binder {
        Binder::Lambda => "\\",
        Binder::ForAll => "!",
        Binder::Exists => "?",
        Binder::Choice => "@",
    }
}
