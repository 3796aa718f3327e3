// Theorems that refiners are given, and why they do not take them.
use crate::case::Case;
use crate::said::Said::{Quoted, Shown, Theorem};
use hol_alpha::aconv;
use hol_explain_words::{Message, Span, is_before_theorem};
use hol_terms::Term;

/// Puts a text at the end with the theorem behind a refiner or a conversion in its hole, where it is one of a theorem.
pub(crate) fn push_given(case: &Case<'_>, from: usize, text: &str, message: &mut Message) {
    match case.arguments.theorem_at(from.saturating_add(1)) {
        Some(premise) if is_before_theorem(case.piece.text(from)) => {
            case.teller.push(message, text, &[Theorem(premise)]);
        }
        _ => {}
    }
}

// The first of the terms that is none of the assumptions.
fn first_unassumed<'a>(assumptions: &[Term], terms: &'a [Term]) -> Option<&'a Term> {
    for term in terms {
        if !assumptions.iter().any(|assumed| aconv(assumed, term)) {
            return Some(term);
        }
    }
    None
}

// Puts the first theorem in a part at the end with a hypothesis that is none of the assumptions, and that hypothesis.
fn push_unassumed(case: &Case<'_>, assumptions: &[Term], span: Span, message: &mut Message) {
    for at in span.from..span.to {
        if let Some(premise) = case.arguments.theorem_at(at) {
            if let Some(hypothesis) = first_unassumed(assumptions, &premise.hypotheses) {
                let parts = [Shown(hypothesis), Quoted(premise.name())];
                case.teller.push(message, "; the hypothesis {} of {} is not assumed", &parts);
                return;
            }
        }
    }
}

/// Puts the theorem at the end that a refiner of theorems does not take at a goal, and why.
pub(crate) fn push_untaken(
    case: &Case<'_>,
    goal: (&[Term], &Term),
    span: Span,
    message: &mut Message,
) {
    let (assumptions, conclusion) = goal;
    let is_accept = case.piece.text(span.from) == "ACCEPT_TAC";
    match case.arguments.theorem_at(span.from.saturating_add(1)) {
        Some(premise) if is_accept && !aconv(&premise.conclusion, conclusion) => {
            let parts = [Quoted(premise.name())];
            case.teller
                .push(message, "; the conclusion of {} is not the goal", &parts);
        }
        _ => push_unassumed(case, assumptions, span, message),
    }
}
