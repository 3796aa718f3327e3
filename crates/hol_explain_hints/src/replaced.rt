// Type variables for which a command puts a type, and which its theorem does not have.
use crate::arguments::Premise;
use crate::notes::Accepted;
use crate::said::Said::{Quoted, Type};
use hol_explain_words::{Kind, Message};
use hol_syntax::read_type;
use hol_terms::{Term, type_vars};
use hol_types::Ty;
use std::alloc::Global;

// Whether a term has a type variable.
fn has(alloc: Global, term: &Term, variable: &Ty, notes: &mut Message) -> bool {
    match notes.given(type_vars(alloc, term)) {
        Some(variables) => variables.iter().any(|known| known.eq(variable)),
        None => false,
    }
}

// Whether a theorem has a type variable.
fn occurs(alloc: Global, premise: &Premise, variable: &Ty, notes: &mut Message) -> bool {
    for hypothesis in &premise.hypotheses {
        if has(alloc, hypothesis, variable, notes) {
            return true;
        }
    }
    has(alloc, &premise.conclusion, variable, notes)
}

// Says that the type variable at a place in the list is none of a theorem, where it is none.
fn push_absent<'b>(
    of: &Accepted<'_>,
    notes: &mut Message,
    at: usize,
    variable: &'b Ty,
    premise: &'b Premise,
) {
    if occurs(of.alloc, premise, variable, notes) {
        return;
    }
    let parts = [Type(variable), Quoted(premise.name())];
    let text = "nothing is put for {}, which is no type variable of {}";
    of.push(notes, of.told.piece.start(at), text, &parts);
}

// The same of the type variable that the word at a place in the list quotes.
fn push_quoted(of: &Accepted<'_>, notes: &mut Message, at: usize, premise: &Premise) {
    let read = read_type(of.alloc, &of.known.scope, of.told.piece.quoted(at));
    if let Some(variable) = notes.given(read) {
        push_absent(of, notes, at, &variable, premise);
    }
}

/// Says which type variables of `INST_TYPE` its theorem does not have.
pub(crate) fn push_types(of: &Accepted<'_>, notes: &mut Message) {
    let Some(premise) = of.arguments.theorem(0) else {
        return;
    };
    for at in 0..of.told.piece.words.len() {
        if of.told.piece.kind(at) == Kind::Quote
            && of.told.piece.text(at.saturating_sub(1)) == ","
        {
            push_quoted(of, notes, at, premise);
        }
    }
}
