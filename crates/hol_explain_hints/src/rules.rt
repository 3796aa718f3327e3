// What is said of refused rules and definitions, of their theorems and their terms.
use crate::arguments::{Premise, Quotation};
use crate::case::Case;
use crate::conversions::push_conversion;
use crate::misfits::mistyped;
use crate::parts::{body_at, sides};
use crate::said::Said::{Quoted, Shown, Text, Theorem, Type, Typed};
use crate::shapes::wanted;
use crate::unlike::not_alpha;
use hol_alpha::aconv;
use hol_explain_words::{Message, sentence};
use hol_model::Fault;
use hol_terms::{Parts, Term, free_in, frees, type_vars};

// Says what the rule wants, and the first term or the first theorem that it was given.
fn bad_shape(case: &Case<'_>, message: &mut Message) {
    let rule = case.rule();
    let Some(wanted) = wanted(rule) else {
        return;
    };
    if matches!(rule, "BETA_CONV" | "EXISTS") {
        if let Some(found) = case.arguments.term(0) {
            let parts = [Quoted(rule), Text(wanted), Shown(&found.term)];
            case.say(
                message,
                found.at,
                "{} wants {}, and {} stands there",
                &parts,
            );
        }
    } else if let Some(found) = case.arguments.theorem(0) {
        let parts = [Quoted(rule), Text(wanted), Theorem(found)];
        case.say(message, found.at, "{} wants {}, and {}", &parts);
    }
}

// Says which theorem is the first that is no equation.
fn no_equation(case: &Case<'_>, message: &mut Message) {
    for number in 0..case.arguments.theorems.len() {
        if let Some(found) = case.arguments.theorem(number) {
            if sides(&found.conclusion).is_none() {
                let parts = [Quoted(case.rule()), Theorem(found)];
                case.say(
                    message,
                    found.at,
                    "{} wants an equation here, and {}",
                    &parts,
                );
                return;
            }
        }
    }
}

// What a term is.
fn kind_of(term: &Term) -> &'static str {
    match term.parts() {
        Parts::Variable(_, _) => " is a variable",
        Parts::Constant(_, _) => " is a constant, not a variable",
        Parts::Combination(_, _) => " is an application, not a variable",
        Parts::Abstraction(_, _, _) => " is an abstraction, not a variable",
    }
}

// Says which quoted term is the first that is no variable where one is wanted: of a pair of `INST` the second.
fn no_variable(case: &Case<'_>, message: &mut Message) {
    let has_pairs = case.rule() == "INST";
    for number in 0..case.arguments.terms.len() {
        if let Some(found) = case.arguments.term(number) {
            let is_new = has_pairs && number % 2 == 0;
            if !is_new && !found.term.is_var() {
                let kind = Text(kind_of(&found.term));
                let parts = [Text(sentence(case.fault)), Shown(&found.term), kind];
                case.say(message, found.at, "{}, and {}{}", &parts);
                return;
            }
        }
    }
}

// Says which quoted term is the first that is no formula.
fn no_formula(case: &Case<'_>, message: &mut Message) {
    for number in 0..case.arguments.terms.len() {
        if let Some(found) = case.arguments.term(number) {
            if !found.term.ty().is_bool() {
                let parts = [Text(sentence(case.fault)), Typed(&found.term)];
                case.say(message, found.at, "{}, and {}", &parts);
                return;
            }
        }
    }
}

// Whether a hypothesis is the one that a rule takes out, where it takes one out.
fn is_spared(hypothesis: &Term, spared: &Option<Term>) -> bool {
    match spared {
        Some(spared) => aconv(hypothesis, spared),
        None => false,
    }
}

// The first hypothesis of the last theorem in which the variable is free. `CHOOSE` takes out of these the body of the first theorem's
// conclusion at the variable.
fn hypothesis_with<'a>(
    case: &Case<'_>,
    variable: &Term,
    first: &Premise,
    last: &'a Premise,
    message: &mut Message,
) -> Option<&'a Term> {
    let chosen = if case.rule() == "CHOOSE" {
        body_at(case.teller.alloc, &first.conclusion, variable, message)
    } else {
        None
    };
    for hypothesis in &last.hypotheses {
        if free_in(variable, hypothesis) && !is_spared(hypothesis, &chosen) {
            return Some(hypothesis);
        }
    }
    None
}

// Says that a variable is free in the conclusion of a theorem.
fn free_in_conclusion<'a>(
    case: &Case<'a>,
    message: &mut Message,
    variable: &'a Quotation,
    premise: &'a Premise,
) {
    let parts = [Shown(&variable.term), Quoted(premise.name())];
    let text = "the variable {} is free in the conclusion of {}";
    case.say(message, variable.at, text, &parts);
}

// Says where the variable is free: in the conclusion, or in a hypothesis of the last theorem.
fn free_in_hypothesis(case: &Case<'_>, message: &mut Message) {
    let last = case.arguments.theorems.len().saturating_sub(1);
    let (Some(variable), Some(first), Some(premise)) = (
        case.arguments.term(0),
        case.arguments.theorem(0),
        case.arguments.theorem(last),
    ) else {
        return;
    };
    let term = &variable.term;
    if case.rule() == "CHOOSE" && free_in(term, &premise.conclusion) {
        free_in_conclusion(case, message, variable, premise);
        return;
    }
    let Some(hypothesis) = hypothesis_with(case, term, first, premise, message) else {
        free_in_conclusion(case, message, variable, first);
        return;
    };
    let parts = [Shown(term), Shown(hypothesis), Quoted(premise.name())];
    let text = "the variable {} is free in the hypothesis {} of {}";
    case.say(message, variable.at, text, &parts);
}

// Says the first of the variables that are free in the term of a definition.
fn not_closed_by(case: &Case<'_>, message: &mut Message, at: usize, variables: &[Term]) {
    let Some(variable) = variables.first() else {
        return;
    };
    let parts = [Text(sentence(case.fault)), Shown(variable)];
    case.say(message, at, "{}, and {} is free in it", &parts);
}

// Says the first variable that is free in the term of a definition.
fn not_closed(case: &Case<'_>, message: &mut Message, found: &Quotation) {
    if let Some(variables) = message.given(frees(case.teller.alloc, &found.term)) {
        not_closed_by(case, message, found.at, &variables);
    }
}

// Says the type of the term of a definition, and the type variables in its body.
fn not_reflected(case: &Case<'_>, message: &mut Message, found: &Quotation) {
    let Some(variables) = message.given(type_vars(case.teller.alloc, &found.term)) else {
        return;
    };
    let parts = [Text(sentence(case.fault)), Type(found.term.ty())];
    let text = "{}: the type is {}, and in the body stand";
    case.say(message, found.at, text, &parts);
    for variable in &variables {
        case.teller.push(message, " {}", &[Type(variable)]);
    }
}

/// Says what is wrong with a refused definition.
pub(crate) fn at_definition(case: &Case<'_>, message: &mut Message) {
    match (case.fault, case.arguments.term(0)) {
        (Fault::NotClosed, Some(found)) => not_closed(case, message, found),
        (Fault::TypeVarsNotReflected, Some(found)) => not_reflected(case, message, found),
        _ => {}
    }
}

// Says the conversion that does not apply, and the term that it is applied to.
fn at_conversion(case: &Case<'_>, message: &mut Message) {
    if let Some(found) = case.arguments.term(0) {
        case.say(message, 4, sentence(case.fault), &[]);
        push_conversion(case, 4, &found.term, message);
    }
}

// Says the term that a rule was given, behind the sentence of the refusal.
fn at_quoted_term(case: &Case<'_>, message: &mut Message) {
    let Some(found) = case.arguments.term(0) else {
        return;
    };
    let parts = [Text(sentence(case.fault)), Shown(&found.term)];
    case.say(message, found.at, "{}, and the term is {}", &parts);
}

/// Says what is wrong with a refused rule, where something is known.
pub(crate) fn at_rule(case: &Case<'_>, message: &mut Message) {
    match (case.rule(), case.fault) {
        ("CONV", _) => at_conversion(case, message),
        (_, Fault::BadShape) => bad_shape(case, message),
        (_, Fault::NotEquation) => no_equation(case, message),
        (_, Fault::NotAlpha) => not_alpha(case, message),
        (_, Fault::FreeInHypothesis) => free_in_hypothesis(case, message),
        (_, Fault::TypeMismatch) => mistyped(case, message),
        (_, Fault::NotVariable) => no_variable(case, message),
        (_, Fault::NotBool) => no_formula(case, message),
        (_, Fault::NotTrivialBeta | Fault::TooManyAtoms) => at_quoted_term(case, message),
        _ => {}
    }
}
