// What is said of rules whose types do not fit.
use crate::arguments::Quotation;
use crate::case::Case;
use crate::parts::sides;
use crate::said::Said::{Quoted, Typed};
use hol_explain_words::Message;
use hol_terms::Term;

const UNFIT: &str = "{} finds types that do not fit";

// Puts the left sides of the equations at the end that `MK_COMB` applies to one another.
fn push_left_sides(case: &Case<'_>, message: &mut Message) {
    let (Some(first), Some(second)) = (case.arguments.theorem(0), case.arguments.theorem(1)) else {
        return;
    };
    if let (Some((function, _)), Some((argument, _))) = (
        sides(&first.conclusion),
        sides(&second.conclusion),
    ) {
        let parts = [Typed(function), Typed(argument)];
        case.teller
            .push(message, ": the function {}, and its argument {}", &parts);
    }
}

// Puts the first pair of `INST` at the end whose terms have different types.
fn push_unequal(case: &Case<'_>, message: &mut Message) {
    for pair in 0..case.arguments.terms.len() / 2 {
        let at = pair.saturating_mul(2);
        if let (Some(new), Some(old)) = (
            case.arguments.term(at),
            case.arguments.term(at.saturating_add(1)),
        ) {
            if !new.term.ty().eq(old.term.ty()) {
                let parts = [Typed(&new.term), Typed(&old.term)];
                case.teller.push(message, ": {}, and {}", &parts);
                return;
            }
        }
    }
}

// The term of `EXISTS`, or of another rule, that is to stand for the variable of a formula, and that formula.
fn stand_in<'a>(case: &Case<'a>) -> Option<(&'a Quotation, &'a Term)> {
    let arguments = case.arguments;
    let first = arguments.term(0)?;
    if case.rule() == "EXISTS" {
        Some((arguments.term(1)?, &first.term))
    } else {
        Some((first, &arguments.theorem(0)?.conclusion))
    }
}

/// Says the two types that do not fit, of the terms and the theorems of a rule.
pub(crate) fn mistyped(case: &Case<'_>, message: &mut Message) {
    let rule = [Quoted(case.rule())];
    match case.rule() {
        "MK_COMB" => {
            case.say(message, 4, UNFIT, &rule);
            push_left_sides(case, message);
        }
        "INST" => {
            case.say(message, 4, UNFIT, &rule);
            push_unequal(case, message);
        }
        _ => {
            if let Some((quotation, formula)) = stand_in(case) {
                case.say(message, quotation.at, UNFIT, &rule);
                case.teller.push_misfit(message, formula, &quotation.term);
            }
        }
    }
}
