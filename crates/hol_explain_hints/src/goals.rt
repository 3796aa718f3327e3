// What is said of refused commands of goals.
use crate::case::Case;
use crate::conversions::push_conversion;
use crate::endless::push_endless;
use crate::said::Said::{Bare, Quoted, Text, Typed};
use crate::shapes::wanted;
use crate::taken::{push_given, push_untaken};
use hol_explain_words::{Known, Message, Piece, Span, is_refiner, line_of, next_outside, sentence};
use hol_model::Fault;
use hol_syntax::read_sequent;
use hol_taut_formulas::atoms;
use hol_terms::Term;
use std::alloc::Global;

// What is said of a formula that is false for some values, where the goal has assumptions.
const UNSEEN: &str = "; `TAUT_TAC` does not see assumptions: `HOST undisch THEN TAUT_TAC` does";

// What stands between alternatives.
const ALTERNATIVES: (&str, &str) = ("ORELSE", "ORELSE");

/// A part of a refiner expression that is refused, and the open goals there, where the one at which it is refused comes first.
/// Where the part is a list behind `THENL`, how many subgoals it is for.
#[derive(Drop)]
pub struct Part {
    pub span: Span,
    subgoals: usize,
    goals: String,
    goal: Option<(Vec<Term>, Term)>,
}

/// The line of the first goal in the text of the open goals: the second line.
pub fn first_goal(goals: &str) -> &str {
    let mut lines = goals.lines();
    let _count = lines.next();
    match lines.next() {
        Some(goal) => goal,
        None => "",
    }
}

// The assumptions and the conclusion in the line of a goal.
fn sequent(
    alloc: Global,
    known: &Known,
    goal: &str,
    message: &mut Message,
) -> Option<(Vec<Term>, Term)> {
    let (assumptions, conclusion) = goal.split_once("?- ")?;
    let text = message.made(format!(in alloc; "{assumptions}|- {conclusion}"))?;
    message.given(read_sequent(alloc, &known.scope, text.as_bytes()))
}

impl Part {
    /// A part for so many subgoals, at the goals of a text.
    pub fn new(
        alloc: Global,
        known: &Known,
        span: Span,
        subgoals: usize,
        goals: String,
        message: &mut Message,
    ) -> Part {
        let goal = sequent(alloc, known, first_goal(goals.as_str()), message);
        Part {
            span,
            subgoals,
            goals,
            goal,
        }
    }
}

/// Says what is wrong with a `goal` whose term is no formula.
pub(crate) fn at_new_goal(case: &Case<'_>, message: &mut Message) {
    match case.arguments.term(0) {
        Some(found) if *case.fault == Fault::NotBool => {
            let parts = [Typed(&found.term)];
            case.say(
                message,
                found.at,
                "a goal is a formula, of type `bool`, and {}",
                &parts,
            );
        }
        _ => {}
    }
}

// Puts what a refiner wants at the end, with the theorem that it was given, and why it does not take one.
fn push_wanted(case: &Case<'_>, part: &Part, span: Span, wanted: &str, message: &mut Message) {
    let parts = [Quoted(case.piece.text(span.from)), Text(wanted)];
    case.teller.push(message, "{} wants {}", &parts);
    push_given(case, span.from, ", {}", message);
    match &part.goal {
        Some((assumptions, conclusion)) if *case.fault == Fault::RefineFails => {
            push_untaken(case, (assumptions.as_slice(), conclusion), span, message);
        }
        _ => {}
    }
}

// What is said behind functions of the host that fail.
const FAILED: &str = "meson : it found no proof within its bounds; it unfolds no definitions";

// Puts that the host's function behind a word fails at the end.
fn push_failed(case: &Case<'_>, from: usize, message: &mut Message) {
    let name = case.piece.text(from.saturating_add(1));
    case.teller
        .push(message, "the host's {} fails here", &[Quoted(name)]);
    if let Some(behind) = line_of(FAILED, name) {
        message.push_str(behind);
    }
}

// Puts what the alternatives of a part want at the end, or that they fail, a part without alternatives being its only one.
fn push_alternatives(case: &Case<'_>, part: &Part, message: &mut Message) {
    let mut lead = ": ";
    let mut from = part.span.from;
    let to = part.span.to;
    for _ in 0..case.piece.words.len() {
        let joint = next_outside(case.piece, Span { from, to }, ALTERNATIVES);
        let word = case.piece.text(from);
        if word == "HOST" {
            message.push_str(lead);
            push_failed(case, from, message);
            lead = "; ";
        } else if let Some(wanted) = wanted(word) {
            message.push_str(lead);
            push_wanted(case, part, Span { from, to: joint }, wanted, message);
            lead = "; ";
        }
        if joint >= to {
            break;
        }
        from = joint.saturating_add(1);
    }
}

// Puts a row of values at the end, each with its atom.
fn push_values(case: &Case<'_>, atoms: &[Term], row: &[bool], message: &mut Message) {
    for at in 0..atoms.len().min(row.len()) {
        message.push_str(if at == 0 { ": " } else { ", " });
        let text = if row[at] { "{}=T" } else { "{}=F" };
        case.teller.push(message, text, &[Bare(&atoms[at])]);
    }
}

// Puts the row of values at the end that makes a formula false, where there is one, and whether there is.
fn push_row(case: &Case<'_>, formula: &Term, message: &mut Message) -> bool {
    let Fault::NotTautology { row, .. } = case.fault else {
        return false;
    };
    if let Some(atoms) = message.given(atoms(case.teller.alloc, formula)) {
        push_values(case, &atoms, row, message);
    }
    true
}

// Puts what a refiner without parts wants at the end, and what stands there. The message is on the word in question then.
fn push_reason(case: &Case<'_>, from: usize, goal: (&[Term], &Term), message: &mut Message) {
    let (assumptions, conclusion) = goal;
    let inside = from.saturating_add(1);
    match case.piece.text(from) {
        "CONV_TAC" => push_conversion(case, inside, conclusion, message),
        "REWRITE_TAC" => push_endless(case, message),
        "EXISTS_TAC" => {
            if let Some(witness) = case.arguments.term_at(inside) {
                case.teller.push_misfit(message, conclusion, &witness.term);
            }
        }
        word => {
            if push_row(case, conclusion, message)
                && !assumptions.is_empty()
                && word == "TAUT_TAC"
            {
                message.push_str(UNSEEN);
            }
        }
    }
}

/// Whether a part has alternatives.
pub(crate) fn has_alternatives(piece: &Piece<'_>, span: Span) -> bool {
    next_outside(piece, span, ALTERNATIVES) < span.to
}

/// Says what is known of a part of a refiner expression that is refused: what is wanted there, and its first goal.
pub fn of_part(case: &Case<'_>, part: &Part, message: &mut Message) {
    let from = part.span.from;
    case.say(message, from, sentence(case.fault), &[]);
    let is_leaf = !has_alternatives(case.piece, part.span) && is_refiner(case.piece.text(from));
    match (case.fault, &part.goal) {
        (Fault::LengthMismatch, _) => {
            let subgoals = part.subgoals;
            message.push_made(format!(in case.teller.alloc;
                "; the number of subgoals is {subgoals}"
            ));
        }
        (Fault::BadShape | Fault::RefineFails, _) => push_alternatives(case, part, message),
        (_, Some((assumptions, conclusion))) if is_leaf => {
            push_reason(case, from, (assumptions.as_slice(), conclusion), message);
        }
        _ => {}
    }
    let goal = first_goal(part.goals.as_str());
    if !goal.is_empty() {
        case.teller
            .push(message, "; the first goal there is {}", &[Quoted(goal)]);
    }
}
