// Which conversion of an expression does not apply, and to which term.
use crate::case::Case;
use crate::said::Said::{Quoted, Shown, Text};
use crate::shapes::wanted;
use crate::taken::push_given;
use hol_explain_words::{Message, Piece, Span, between, end_of_conversion, next_outside, text_of};
use hol_terms::{Parts, Term};

// What joins two conversions.
const JOINTS: (&str, &str) = ("THENC", "ORELSEC");

// The part of a term to which a word hands the conversion behind it.
fn part_for<'a>(word: &str, term: &'a Term) -> Option<&'a Term> {
    match (word, term.parts()) {
        ("RAND_CONV", Parts::Combination(_, argument)) => Some(argument),
        ("RATOR_CONV", Parts::Combination(function, _)) => Some(function),
        ("ABS_CONV", Parts::Abstraction(_, _, body)) => Some(body),
        _ => None,
    }
}

// A conversion, and the term that it is applied to.
#[derive(Clone, Copy)]
struct Applied<'a> {
    span: Span,
    term: &'a Term,
}

// What parentheses, `RAND_CONV`, `RATOR_CONV` and `ABS_CONV` make of a conversion and a term.
fn innermost<'a>(piece: &Piece<'_>, whole: Applied<'a>) -> Applied<'a> {
    let mut applied = whole;
    for _ in 0..piece.words.len() {
        let word = piece.text(applied.span.from);
        let inside = Span {
            from: applied.span.from.saturating_add(1),
            to: applied.span.to.saturating_sub(1),
        };
        if word == "(" && next_outside(piece, inside, JOINTS) >= inside.to {
            applied.span = inside;
            continue;
        }
        let Some(part) = part_for(word, applied.term) else {
            break;
        };
        applied.term = part;
        applied.span.from = inside.from;
    }
    applied
}

/// Puts the conversion that does not apply at the end, what it wants, and the term that it is applied to: that of the expression
/// from a word on, or what `RAND_CONV`, `RATOR_CONV` and `ABS_CONV` make of both. The message is on that conversion then.
pub(crate) fn push_conversion<'a>(
    case: &Case<'a>,
    from: usize,
    term: &'a Term,
    message: &mut Message,
) {
    let piece = case.piece;
    let to = end_of_conversion(case.teller.alloc, piece, from, message);
    let span = Span { from, to };
    let Applied { span, term } = innermost(piece, Applied { span, term });
    let end = piece.word(span.to.saturating_sub(1)).end;
    let conversion = text_of(between(piece.bytes, piece.start(span.from), end));
    match wanted(piece.text(span.from)) {
        Some(wanted) => {
            let parts = [Quoted(conversion), Text(wanted), Shown(term)];
            case.say(
                message,
                span.from,
                ": {} wants {}, and is applied to {}",
                &parts,
            );
        }
        None => {
            let parts = [Quoted(conversion), Shown(term)];
            case.say(message, span.from, ": {} is applied to {}", &parts);
        }
    }
    push_given(case, span.from, ", and {}", message);
}
