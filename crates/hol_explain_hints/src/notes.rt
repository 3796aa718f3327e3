// What is said of accepted commands that are suspicious.
use crate::arguments::{Arguments, Premise, Quotation, span_of};
use crate::goals::has_alternatives;
use crate::names::is_theorem_place;
use crate::replaced::push_types;
use crate::said::Said::{Quoted, Shown, Text};
use crate::said::{Said, Teller};
use hol_explain_words::{Kind, Known, Message, NoMemory, Piece, Span, Told, goes_on, next_joint};
use hol_syntax::read_term;
use hol_terms::{Term, free_in, frees};
use std::alloc::Global;

/// An accepted command, and what is known where it stands.
#[derive(Clone, Copy)]
pub struct Accepted<'a> {
    pub alloc: Global,
    pub known: &'a Known,
    pub told: &'a Told<'a>,
    pub arguments: &'a Arguments,
}

impl Accepted<'_> {
    /// Puts the line of a note on what stands at an offset at the end: a text with parts in its holes.
    pub(crate) fn push(&self, notes: &mut Message, at: usize, text: &str, parts: &[Said<'_>]) {
        let (file, here) = self.told.located(at);
        let line = here.line;
        let column = here.column;
        notes.push_made(format!(in self.alloc; "{file}:{line}:{column}: note: "));
        // No note tells what the goal shows.
        let teller = Teller {
            alloc: self.alloc,
            known: self.known,
            goal: self.told.piece,
        };
        teller.push(notes, text, parts);
        notes.push_str("\n");
    }
}

// What is said of a proved goal whose theorem is not stored.
const UNSAVED: &str =
    "the goal that was proved in {} is given up here, and its theorem is not stored: `save` stores it";

// Says that a new goal takes the place of a proved one, or of one whose proof was begun.
fn push_replaced(of: &Accepted<'_>, notes: &mut Message) {
    let proof = &of.known.proof;
    let at = of.told.piece.start(0);
    if let Some(place) = &proof.unsaved {
        of.push(notes, at, UNSAVED, &[Text(place.as_str())]);
    } else if proof.open > 0 && proof.steps > 0 {
        let open = proof.open;
        let end = if open == 1 { "" } else { "s" };
        let said = format!(in of.alloc;
            "the proof of the goal before is given up, with {open} open goal{end}"
        );
        if let Some(said) = notes.made(said) {
            of.push(notes, at, said.as_str(), &[]);
        }
    }
}

// Says what happens to the goal that is set: another one takes its place, or a command goes on with it where one behind it was refused.
fn push_goal(of: &Accepted<'_>, notes: &mut Message) {
    let word = of.told.piece.text(0);
    let proof = &of.known.proof;
    if word == "goal" {
        push_replaced(of, notes);
    } else if goes_on(word) {
        if let (Some(begun), Some(refused)) = (&proof.begun, &proof.refused) {
            let text = "this goes on with the goal of {}: the `goal` of {} was refused";
            let parts = [Text(begun.as_str()), Text(refused.as_str())];
            of.push(notes, of.told.piece.start(0), text, &parts);
        }
    }
}

// The place in the list of the first name of a theorem under which a refused command would have stored another one.
fn first_kept(known: &Known, piece: &Piece<'_>) -> Option<usize> {
    for at in 1..piece.words.len() {
        let is_name = piece.kind(at) == Kind::Name && is_theorem_place(piece, at);
        if is_name && known.place_kept(piece.text(at)).is_some() {
            return Some(at);
        }
    }
    None
}

// What is said of a theorem that the last command would have replaced.
const KEPT: &str =
    "{} is an older theorem here: {}, which would have stored another one under the name, was refused";

// Says that a name stands for another theorem than the last command would have stored under it.
fn push_kept(of: &Accepted<'_>, notes: &mut Message) {
    let Some(at) = first_kept(of.known, of.told.piece) else {
        return;
    };
    let name = of.told.piece.text(at);
    if let Some(place) = of.known.place_kept(name) {
        of.push(
            notes,
            of.told.piece.start(at),
            KEPT,
            &[Quoted(name), Text(place)],
        );
    }
}

/// What is known behind an accepted command, of the open goals that it leaves where it shows them. The theorem that a note told of is
/// told no more.
pub fn learn(
    alloc: Global,
    known: &mut Known,
    told: &Told<'_>,
    goals: Option<&str>,
) -> Result<(), NoMemory> {
    let piece = told.piece;
    if let Some(at) = first_kept(known, piece) {
        known.forget_kept(piece.text(at));
    }
    known.learn(alloc, piece)?;
    if let Some(goals) = goals {
        let line = told.line(alloc)?;
        known
            .proof
            .leave(alloc, piece.text(0), goals, line.as_str())?;
    }
    Ok(())
}

/// What is known behind a refused command: the names that it would have made are told by its line.
pub fn miss(alloc: Global, known: &mut Known, told: &Told<'_>) -> Result<(), NoMemory> {
    let line = told.line(alloc)?;
    known.miss(alloc, told.piece, line.as_str())
}

// The first place in the list from one on where a variable with its type stands, in parentheses, and a constant has its name; or the
// end of the text.
fn next_named_as_constant(known: &Known, inside: &Piece<'_>, from: usize) -> usize {
    for at in from..inside.words.len() {
        let name = at.saturating_add(1);
        if inside.text(at) == "("
            && inside.text(name.saturating_add(1)) == ":"
            && known.scope.const_type(inside.text(name)).is_some()
        {
            return at;
        }
    }
    inside.words.len()
}

// Whether a variable has a name.
fn is_named(variable: &Term, name: &str) -> bool {
    match variable.dest_var() {
        Some((other, _)) => other == name,
        None => false,
    }
}

// The first place of a free variable that has the name of a constant, from a place on.
fn free_from(known: &Known, inside: &Piece<'_>, variables: &[Term], from: usize) -> Option<usize> {
    let mut at = from;
    for _ in 0..inside.words.len() {
        if at >= inside.words.len() {
            return None;
        }
        let name = inside.text(at.saturating_add(1));
        if variables.iter().any(|variable| is_named(variable, name)) {
            return Some(at);
        }
        at = next_named_as_constant(known, inside, at.saturating_add(1));
    }
    None
}

// What is said of a free variable that has the name of a constant.
const NAMED: &str =
    "this is a free variable, and not the constant {}, which is written `[{}:type]`";

// Says of a quoted text, which begins at an offset, which free variable is the first that has the name of a constant.
fn push_in_quote(of: &Accepted<'_>, notes: &mut Message, inside: &Piece<'_>, start: usize) {
    let first = next_named_as_constant(of.known, inside, 0);
    if first >= inside.words.len() {
        return;
    }
    let Some(term) = notes.given(read_term(of.alloc, &of.known.scope, inside.bytes)) else {
        return;
    };
    let Some(variables) = notes.given(frees(of.alloc, &term)) else {
        return;
    };
    if let Some(at) = free_from(of.known, inside, &variables, first) {
        let name = inside.text(at.saturating_add(1));
        let parts = [Quoted(name), Text(name)];
        of.push(notes, start.saturating_add(inside.start(at)), NAMED, &parts);
    }
}

// The same of each quoted text.
fn push_variables(of: &Accepted<'_>, notes: &mut Message) {
    for at in 0..of.told.piece.words.len() {
        if of.told.piece.kind(at) == Kind::Quote {
            if let Some(inside) = notes.made(Piece::of_quote(of.alloc, of.told.piece.quoted(at))) {
                push_in_quote(
                    of,
                    notes,
                    &inside,
                    of.told.piece.start(at).saturating_add(1),
                );
            }
        }
    }
}

// Whether a variable is free in a theorem.
fn is_free(variable: &Term, premise: &Premise) -> bool {
    let mut hypotheses = premise.hypotheses.iter();
    hypotheses.any(|hypothesis| free_in(variable, hypothesis))
        || free_in(variable, &premise.conclusion)
}

// The first of these variables that has the name of another one.
fn namesake<'a>(variables: &'a [Term], variable: &Term) -> Option<&'a Term> {
    let (name, _) = variable.dest_var()?;
    variables.iter().find(|other| is_named(other, name))
}

// What is said of a variable that is not free in a theorem.
const IDLE: &str = "nothing is put for {}, which is not free in {}";

// The same where another variable of its name is free there.
const IDLE_BESIDE: &str = "nothing is put for {}, which is not free in {}; {} is";

// Says that nothing is put for a variable in a theorem, whose conclusion has these free variables.
fn push_idle<'b>(
    of: &Accepted<'_>,
    notes: &mut Message,
    old: &'b Quotation,
    premise: &'b Premise,
    variables: &'b [Term],
) {
    let at = of.told.piece.start(old.at);
    let (shown, name) = (Shown(&old.term), Quoted(premise.name()));
    match namesake(variables, &old.term) {
        Some(other) => of.push(notes, at, IDLE_BESIDE, &[shown, name, Shown(other)]),
        None => of.push(notes, at, IDLE, &[shown, name]),
    }
}

// Says which variables of `INST` are not free in its theorem.
fn push_pairs(of: &Accepted<'_>, notes: &mut Message) {
    let Some(premise) = of.arguments.theorem(0) else {
        return;
    };
    let Some(variables) = notes.given(frees(of.alloc, &premise.conclusion)) else {
        return;
    };
    for pair in 0..of.arguments.terms.len() / 2 {
        if let Some(old) = of.arguments.term(pair.saturating_mul(2).saturating_add(1)) {
            if !is_free(&old.term, premise) {
                push_idle(of, notes, old, premise, &variables);
            }
        }
    }
}

/// Where the arguments of an accepted command stand that notes want: those of `INST` and `INST_TYPE`.
pub fn noted_span(piece: &Piece<'_>) -> Span {
    if piece.text(0) == "thm" && matches!(piece.text(3), "INST" | "INST_TYPE") {
        span_of(piece)
    } else {
        let end = piece.words.len();
        Span { from: end, to: end }
    }
}

/// Puts notes at the end on what is suspicious of an accepted command.
pub fn push_notes(of: &Accepted<'_>, notes: &mut Message) {
    push_goal(of, notes);
    push_kept(of, notes);
    push_variables(of, notes);
    match (of.told.piece.text(0), of.told.piece.text(3)) {
        ("thm", "INST") => push_pairs(of, notes),
        ("thm", "INST_TYPE") => push_types(of, notes),
        _ => {}
    }
}

/// The next `REWRITE_TAC` or `CONV_TAC` of an expression, outside of all brackets and no alternative, from a part on that begins at a
/// place.
pub fn next_rewriting(piece: &Piece<'_>, from: usize) -> Option<Span> {
    let end = piece.words.len();
    let mut start = from;
    for _ in 0..end {
        if start >= end {
            return None;
        }
        let span = Span {
            from: start,
            to: next_joint(piece, start, end),
        };
        let is_rewriting = matches!(piece.text(start), "REWRITE_TAC" | "CONV_TAC");
        if is_rewriting && !has_alternatives(piece, span) {
            return Some(span);
        }
        start = span.to.saturating_add(1);
    }
    None
}

/// Puts a note at the end that the `REWRITE_TAC` or the `CONV_TAC` at a place in the list changes no goal.
pub fn push_unchanged(of: &Accepted<'_>, notes: &mut Message, at: usize) {
    let said = if of.told.piece.text(at) == "CONV_TAC" {
        "`CONV_TAC` changes no goal here: its conversion leaves the conclusion as it is"
    } else {
        "`REWRITE_TAC` changes no goal here: none of its equations matches a part (compare names and types)"
    };
    of.push(notes, of.told.piece.start(at), said, &[]);
}
