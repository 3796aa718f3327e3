// Theorems by which rewriting may have no end.
use crate::arguments::Premise;
use crate::case::Case;
use crate::said::Said::{Quoted, Text};
use hol_explain_words::Message;
use hol_match::term_match;
use hol_model::Fault;
use hol_terms::{Parts, Term, frees};
use std::alloc::Global;

// Whether a pattern matches a part of a term.
fn fits_part(
    alloc: Global,
    fixed: &[Term],
    pattern: &Term,
    term: &Term,
    message: &mut Message,
) -> bool {
    if message
        .given(term_match(alloc, fixed, pattern, term))
        .is_some()
    {
        return true;
    }
    match term.parts() {
        Parts::Variable(_, _) | Parts::Constant(_, _) => false,
        Parts::Combination(function, argument) => {
            fits_part(alloc, fixed, pattern, function, message)
                || fits_part(alloc, fixed, pattern, argument, message)
        }
        Parts::Abstraction(_, _, body) => fits_part(alloc, fixed, pattern, body, message),
    }
}

// Whether a formula gives an equation whose left side matches a part of its right side: under `!`, or of a conjunction.
fn feeds_itself(alloc: Global, fixed: &[Term], formula: &Term, message: &mut Message) -> bool {
    let Parts::Combination(function, argument) = formula.parts() else {
        return false;
    };
    match function.parts() {
        Parts::Combination(operator, left) => match operator.dest_const() {
            Some(("=", _)) => fits_part(alloc, fixed, left, argument, message),
            Some(("/\\", _)) => {
                feeds_itself(alloc, fixed, left, message)
                    || feeds_itself(alloc, fixed, argument, message)
            }
            _ => false,
        },
        Parts::Constant("!", _) => match argument.parts() {
            Parts::Abstraction(_, _, body) => feeds_itself(alloc, fixed, body, message),
            _ => false,
        },
        _ => false,
    }
}

// Whether an equation of a theorem, for whose hypotheses' variables it puts nothing, matches a part of what it makes.
fn is_endless(alloc: Global, premise: &Premise, message: &mut Message) -> bool {
    let mut fixed = Vec::new(alloc);
    for hypothesis in &premise.hypotheses {
        if let Some(mut variables) = message.given(frees(alloc, hypothesis)) {
            let _appended = message.made(fixed.append(&mut variables));
        }
    }
    feeds_itself(alloc, &fixed, &premise.conclusion, message)
}

// What is said of such a theorem.
const ENDLESS: &str =
    "; {} applies to what it makes, as its left side matches a part of its right side: `CONV_TAC (ONCE_DEPTH_CONV (REWR_CONV {}))` uses it once";

/// Puts the first theorem at the end by which a `REWRITE_TAC` may have no end, where it passes a limit.
pub(crate) fn push_endless(case: &Case<'_>, message: &mut Message) {
    if !matches!(case.fault, Fault::StepLimit | Fault::TooLarge) {
        return;
    }
    for number in 0..case.arguments.theorems.len() {
        if let Some(premise) = case.arguments.theorem(number) {
            if is_endless(case.teller.alloc, premise, message) {
                let name = premise.name();
                case.teller
                    .push(message, ENDLESS, &[Quoted(name), Text(name)]);
                return;
            }
        }
    }
}
