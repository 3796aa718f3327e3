// What is said of rules whose terms are not alike.
use crate::case::Case;
use crate::parts::{body_at, differing, infix_parts, sides};
use crate::said::Said::Shown;
use hol_explain_words::{Message, line_of};
use hol_terms::Term;

// What is said of the two terms of a rule that have to be alike.
const UNLIKE: &str = "\
EXISTS the body of the first term at the witness, {} and the conclusion of the theorem, {}
DISJ_CASES the conclusion of the second theorem, {} and that of the third, {}
TRANS the right side of the first theorem, {} and the left side of the second, {}
MP the antecedent of the first theorem, {} and the conclusion of the second, {}";

// The same of other rules.
const UNLIKE_LEFT: &str =
    "the left side of the first theorem, {} and the conclusion of the second, {}";

// Says that two terms of a rule have to be alike, and the first parts in which they differ.
fn differ(case: &Case<'_>, message: &mut Message, at: usize, first: &Term, second: &Term) {
    let text = match line_of(UNLIKE, case.rule()) {
        Some(text) => text,
        None => UNLIKE_LEFT,
    };
    case.say(message, at, text, &[Shown(first), Shown(second)]);
    message.push_str(" have to be alike");
    if let Some((part, other)) = differing(first, second) {
        let parts = [Shown(part), Shown(other)];
        case.teller
            .push(message, "; they differ first at {} and {}", &parts);
    }
}

// Says how the body of the formula that `EXISTS` is to prove, at its witness, and the conclusion of its theorem differ.
fn unlike_body(case: &Case<'_>, message: &mut Message) {
    let (Some(formula), Some(witness), Some(premise)) = (
        case.arguments.term(0),
        case.arguments.term(1),
        case.arguments.theorem(0),
    ) else {
        return;
    };
    if let Some(wanted) = body_at(case.teller.alloc, &formula.term, &witness.term, message) {
        differ(case, message, premise.at, &wanted, &premise.conclusion);
    }
}

// The parts of two conclusions that a rule wants to be alike.
fn compared<'a>(rule: &str, first: &'a Term, second: &'a Term) -> Option<(&'a Term, &'a Term)> {
    match rule {
        "DISJ_CASES" => Some((first, second)),
        "TRANS" => Some((sides(first)?.1, sides(second)?.0)),
        "MP" => Some((infix_parts(first, "==>")?.0, second)),
        _ => Some((sides(first)?.0, second)),
    }
}

/// Says which terms of a rule have to be alike.
pub(crate) fn not_alpha(case: &Case<'_>, message: &mut Message) {
    let rule = case.rule();
    if rule == "EXISTS" {
        unlike_body(case, message);
        return;
    }
    let from = if rule == "DISJ_CASES" { 1 } else { 0 };
    if let (Some(first), Some(second)) = (
        case.arguments.theorem(from),
        case.arguments.theorem(from + 1),
    ) {
        if let Some((wanted, found)) = compared(rule, &first.conclusion, &second.conclusion) {
            differ(case, message, second.at, wanted, found);
        }
    }
}
