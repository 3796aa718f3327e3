// What is said of a refused command.
use crate::case::Case;
use crate::goals::at_new_goal;
use crate::names::{at_new_name, in_names, unknown_type};
use crate::quoted::in_quote;
use crate::rules::{at_definition, at_rule};
use crate::said::Said::Text;
use hol_explain_words::{Kind, Message, Piece, sentence};
use hol_model::Fault;

// Says what is at fault in the first quoted text that is refused so.
fn in_quotes(case: &Case<'_>, message: &mut Message) {
    for at in 0..case.piece.words.len() {
        if case.piece.kind(at) == Kind::Quote {
            if let Some(inside) = message.made(Piece::of_quote(
                case.teller.alloc,
                case.piece.quoted(at),
            )) {
                if case.piece.text(3) == "INST_TYPE" {
                    unknown_type(case.teller, message, &inside, 0, true);
                } else {
                    in_quote(case.teller, message, &inside, case.fault);
                }
            }
            if !message.is_empty() {
                message.enter_quote(case.piece.start(at));
                return;
            }
        }
    }
}

// What is said behind a row of values in which a quantified formula has one.
const QUANTIFIED: &str =
    "; a formula under `!` or `?` counts as one letter here, and what it says of its instances does not: take it apart by `SPEC` or `EXISTS`";

// Says the row of values that makes a formula false.
fn at_row(case: &Case<'_>, message: &mut Message) {
    let Some(row) = case.row else {
        return;
    };
    case.say(message, 4, "the formula is false where{}", &[Text(row)]);
    if row.contains('!') || row.contains('?') {
        message.push_str(QUANTIFIED);
    }
}

// Says what the names of a command tell of its refusal.
fn in_words(case: &Case<'_>, message: &mut Message) {
    match case.fault {
        Fault::UnknownName => in_names(case, message),
        Fault::UnknownType => unknown_type(case.teller, message, case.piece, 3, true),
        Fault::NotTautology { .. } => at_row(case, message),
        _ => at_new_name(case, message),
    }
}

/// Says what the words, the terms and the theorems of a refused command tell, where they do.
pub fn of_case(case: &Case<'_>, message: &mut Message) {
    in_quotes(case, message);
    if message.is_empty() {
        in_words(case, message);
    }
    if message.is_empty() {
        match case.piece.text(0) {
            "thm" => at_rule(case, message),
            "def" => at_definition(case, message),
            "goal" => at_new_goal(case, message),
            _ => {}
        }
    }
}

// What is said of a `b` behind which steps stand that are not kept.
const FORGOTTEN: &str = "only the last 256 steps are kept, and all of these are taken back";

/// Says the sentence of a refused command of which no more is known.
pub fn plain(case: &Case<'_>, message: &mut Message) {
    let at = if case.piece.text(0) == "thm" { 3 } else { 0 };
    let said = if *case.fault == Fault::NothingToUndo && case.teller.known.proof.steps > 0 {
        FORGOTTEN
    } else {
        sentence(case.fault)
    };
    case.say(message, at, said, &[]);
}
