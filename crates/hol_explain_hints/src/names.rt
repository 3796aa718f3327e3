// Names that are unknown, or that a command may not make known.
use crate::case::Case;
use crate::said::Said::{Quoted, Text};
use crate::said::Teller;
use hol_explain_words::{
    Kind, Known, Message, Piece, Unknown, is_among, is_before_theorem, line_of_pair, type_depth,
};

// Whether a place in the list stands between the brackets of a `REWRITE_TAC`.
fn is_in_rewriting(piece: &Piece<'_>, at: usize) -> bool {
    let mut is_inside = false;
    for before in 0..at {
        match piece.text(before) {
            "REWRITE_TAC" => is_inside = true,
            "]" => is_inside = false,
            _ => {}
        }
    }
    is_inside
}

/// Whether the name at a place in the list is that of a theorem.
pub(crate) fn is_theorem_place(piece: &Piece<'_>, at: usize) -> bool {
    if is_before_theorem(piece.text(at.saturating_sub(1))) {
        return true;
    }
    match piece.text(0) {
        "show" => at == 1,
        "thm" => at > 3 && piece.text(3) != "CONV",
        "e" => is_in_rewriting(piece, at),
        _ => false,
    }
}

// The name at a place in the list, where it is that of a theorem or of a host's function and is unknown.
fn unknown_at<'a>(case: &Case<'a>, at: usize) -> Option<Unknown<'a>> {
    let known = case.teller.known;
    let (said, names, lost) = if case.piece.text(at.saturating_sub(1)) == "HOST" {
        (
            "the host has no function of this kind under",
            case.host_names,
            &[][..],
        )
    } else if is_theorem_place(case.piece, at) {
        (
            "no theorem is stored under",
            known.theorems.as_slice(),
            known.lost_theorems.as_slice(),
        )
    } else {
        return None;
    };
    let name = case.piece.text(at);
    if is_among(names, name) {
        return None;
    }
    Some(Unknown {
        said,
        name,
        first: names,
        second: &[],
        lost,
        otherwise: "",
    })
}

/// Says the first name of a theorem or of a host's function that is unknown.
pub(crate) fn in_names(case: &Case<'_>, message: &mut Message) {
    for at in 1..case.piece.words.len() {
        if case.piece.kind(at) == Kind::Name {
            if let Some(unknown) = unknown_at(case, at) {
                message.say_unknown(case.teller.alloc, case.piece.start(at), &unknown);
                return;
            }
        }
    }
}

/// Says the first name in the types of a text that stands for none, from a word on; where `in_type`, the text is a type itself.
pub(crate) fn unknown_type(
    teller: Teller<'_>,
    message: &mut Message,
    piece: &Piece<'_>,
    from: usize,
    in_type: bool,
) {
    let known = teller.known;
    let mut depth = 0usize;
    for at in from..piece.words.len() {
        let name = piece.text(at);
        let is_type = in_type || depth > 0;
        if is_type && piece.kind(at) == Kind::Name && !known.is_type(name) {
            let unknown = Unknown {
                said: "no type is named",
                name,
                first: &known.types,
                second: &[],
                lost: &known.lost_names,
                otherwise: "; `newtype` declares one, and a type variable begins with a capital letter",
            };
            message.say_unknown(teller.alloc, piece.start(at), &unknown);
            return;
        }
        depth = type_depth(depth, name);
    }
}

// What is said behind a name that a command may not make known: by the refusal and the word of the command, or any word.
const NEW_NAMES: &str = "\
BadName thm : names of theorems that end in `_def` belong to definitions
BadName save : names of theorems that end in `_def` belong to definitions
BadName newtype  is no name of a declared type, which begins with a small letter and is not `bool`
BadName #any  is no name of a constant
NameTaken thm  is the name of a theorem that is stored already, and stays its name
NameTaken save  is the name of a theorem that is stored already, and stays its name
NameTaken #any  is taken, or a theorem is stored under it with `_def` behind it
AlreadyDefined #any  is the name of a constant or a type already
TypeVarsNotReflected newconst  is declared at a type with type variables, and a declared constant has none";

/// Says what is wrong with a name that a command makes.
pub(crate) fn at_new_name(case: &Case<'_>, message: &mut Message) {
    let (fault, word) = (case.fault.name(), case.piece.text(0));
    let said = match line_of_pair(NEW_NAMES, fault, word) {
        Some(said) => Some(said),
        None => line_of_pair(NEW_NAMES, fault, "#any"),
    };
    if let Some(said) = said {
        let parts = [Quoted(case.piece.text(1)), Text(said)];
        case.say(message, 1, "{}{}", &parts);
    }
}
