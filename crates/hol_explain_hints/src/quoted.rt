// What is at fault inside a quoted term.
use crate::names::unknown_type;
use crate::said::Said::{Quoted, Text, Type, Typed};
use crate::said::Teller;
use crate::steps::{
    begin_of_last, binder_sign, infix_sign, is_refused, names_before, refused_front,
};
use hol_explain_words::{Kind, Message, Piece, Unknown, absent, text_of, type_depth, type_in};
use hol_model::Fault;
use hol_syntax::{build_type, term_of_steps};
use hol_syntax_grammar::grammar::Infix;
use hol_syntax_grammar::{ReadError, TermStep, TypeStep, parse_term, tokens_in};
use hol_terms::Term;
use hol_types::Ty;

const NO_NAME: &str = "no binder, constant or declared variable is named";

const UNDECLARED: &str =
    "; a free variable is written `(name:type)` at each place, or declared by `var`";

const OF_GOAL: &str =
    "{} `{}`; the goal has `({}:{})`: write it with its type, or declare `var {} : {}`";

const GENERIC: &str =
    "{} is a constant with type variables in its type {}, so that it is written `[{}:type]`";

// Where the name at a place in the list begins, with the bracket before it.
fn begin_of_name(piece: &Piece<'_>, at: usize) -> usize {
    let before = at.saturating_sub(1);
    let is_typed = piece.text(at.saturating_add(1)) == ":";
    let is_bracketed = matches!(piece.text(before), "(" | "[");
    piece.start(if is_typed && is_bracketed { before } else { at })
}

// Where the name of this number among those of the text begins, with the bracket before it.
fn place_of_name(piece: &Piece<'_>, number: usize) -> usize {
    let mut names = 0usize;
    let mut depth = 0usize;
    let mut before = "";
    for at in 0..piece.words.len() {
        if depth == 0 && (piece.kind(at) == Kind::Name || before == "[") {
            if names == number {
                return begin_of_name(piece, at);
            }
            names = names.saturating_add(1);
        }
        before = piece.text(at);
        depth = type_depth(depth, before);
    }
    0
}

// A quoted term, and its steps.
#[derive(Clone, Copy)]
struct Quote<'a> {
    teller: Teller<'a>,
    piece: &'a Piece<'a>,
    steps: &'a [TermStep<'a>],
}

// What is joined or applied by a step, and where both parts stand in the text.
#[derive(Clone, Copy)]
struct Operands<'a> {
    first: &'a Term,
    second: &'a Term,
    left: usize,
    right: usize,
}

impl<'a> Quote<'a> {
    // Where the text of the step stands that comes behind so many others.
    fn place(&self, before: usize) -> usize {
        place_of_name(self.piece, names_before(self.steps, before))
    }

    // The last term that the first steps make, so many.
    fn last_term(&self, message: &mut Message, count: usize) -> Option<Term> {
        let front = self.steps.get(..count)?;
        message.given(term_of_steps(self.teller.alloc, &self.teller.known.scope, front))
    }

    // Says that a bare name stands for nothing.
    fn undeclared(&self, message: &mut Message, at: usize, name: &'a str) {
        let known = self.teller.known;
        let none: &[String] = &[];
        let (first, second, otherwise) = match absent(name) {
            Some(said) => (none, none, said),
            None => (
                known.constants.as_slice(),
                known.variables.as_slice(),
                UNDECLARED,
            ),
        };
        let unknown = Unknown {
            said: NO_NAME,
            name,
            first,
            second,
            lost: &known.lost_names,
            otherwise,
        };
        message.say_unknown(self.teller.alloc, at, &unknown);
    }

    // Says why a bare name does not stand for a term: its constant has type variables, a variable of the goal wants its type, or it
    // stands for nothing.
    fn at_bare(&self, message: &mut Message, at: usize, name: &'a str) {
        let Teller { known, goal, .. } = self.teller;
        if let Some(ty) = known.scope.const_type(name) {
            let parts = [Quoted(name), Type(ty), Text(name)];
            self.teller.say(message, at, GENERIC, &parts);
        } else if let Some(ty) = type_in(goal, name) {
            let parts = [
                Text(NO_NAME),
                Text(name),
                Text(name),
                Text(ty),
                Text(name),
                Text(ty),
            ];
            self.teller.say(message, at, OF_GOAL, &parts);
        } else {
            self.undeclared(message, at, name);
        }
    }

    // Says that a constant is not known, or stands at a type that is no instance of its own.
    fn at_constant(&self, message: &mut Message, at: usize, name: &'a str, types: &[TypeStep<'_>]) {
        let Teller { alloc, known, .. } = self.teller;
        let Some(generic) = known.scope.const_type(name) else {
            let unknown = Unknown {
                said: "no constant is named",
                name,
                first: &known.constants,
                second: &[],
                lost: &known.lost_names,
                otherwise: "; `def` defines one, and `newconst` declares one",
            };
            message.say_unknown(alloc, at, &unknown);
            return;
        };
        let parts = [Quoted(name), Type(generic)];
        self.teller.say(
            message,
            at,
            "the constant {} has the generic type {}",
            &parts,
        );
        if let Some(ty) = message.given(build_type(alloc, &known.scope, types)) {
            self.teller
                .push(message, ", and {} is no instance of it", &[Type(&ty)]);
        }
    }

    // Says that an operand is no formula.
    fn no_formula<'b>(
        &self,
        message: &mut Message,
        at: usize,
        operator: &'b str,
        operand: &'b Term,
    ) {
        let parts = [Quoted(operator), Typed(operand)];
        self.teller.say(
            message,
            at,
            "{} wants formulas, of type `bool`, and {}",
            &parts,
        );
    }

    // Says that an infix, or application where there is none, does not fit its operands.
    fn misjoined(&self, message: &mut Message, operation: Option<Infix>, operands: Operands<'_>) {
        let Operands { first, second, .. } = operands;
        let text = match operation {
            None if first.ty().dest_fun().is_some() => "the function {}, and its argument {}",
            None => "what is applied is no function: {}, and its argument {}",
            Some(Infix::Equal) => {
                "the sides of `=` have one type, but the left side {}, and the right side {}"
            }
            Some(operation) => {
                let (at, operand) = if first.ty().is_bool() {
                    (operands.right, second)
                } else {
                    (operands.left, first)
                };
                self.no_formula(message, at, infix_sign(operation), operand);
                return;
            }
        };
        self.teller.say(
            message,
            operands.right,
            text,
            &[Typed(first), Typed(second)],
        );
    }

    // Says what is wrong with an infix, or an application where there is none, that is refused behind so many other steps.
    fn at_operands(&self, message: &mut Message, before: usize, operation: Option<Infix>) {
        let Some(second) = self.last_term(message, before) else {
            return;
        };
        let right = begin_of_last(self.steps, before);
        if let Some(first) = self.last_term(message, right) {
            let operands = Operands {
                first: &first,
                second: &second,
                left: self.place(begin_of_last(self.steps, right)),
                right: self.place(right),
            };
            self.misjoined(message, operation, operands);
        }
    }

    // Says what is wrong with the operand of `~`, or the body of a binder.
    fn at_body(&self, message: &mut Message, before: usize, operator: &str) {
        let at = self.place(begin_of_last(self.steps, before));
        if let Some(body) = self.last_term(message, before) {
            self.no_formula(message, at, operator, &body);
        }
    }

    // Says what is wrong with a step that is refused behind so many others.
    fn at_step(&self, message: &mut Message, before: usize) {
        let here = self.place(before);
        match self.steps.get(before) {
            Some(TermStep::Bare(name)) => self.at_bare(message, here, text_of(name)),
            Some(TermStep::Constant(name, types)) => {
                self.at_constant(message, here, text_of(name), types);
            }
            Some(TermStep::Apply) => self.at_operands(message, before, None),
            Some(TermStep::Join(operation)) => self.at_operands(message, before, Some(*operation)),
            Some(TermStep::Not) => self.at_body(message, before, "~"),
            Some(TermStep::Leave(binder)) => self.at_body(message, before, binder_sign(*binder)),
            _ => {}
        }
    }
}

// What the reader answers, by the fault of the command.
fn read<T: Drop>(answer: Result<T, ReadError>) -> Result<T, Fault> {
    match answer {
        Ok(value) => Ok(value),
        Err(ReadError::Memory) => Err(Fault::Memory),
        Err(ReadError::Syntax) => Err(Fault::Syntax),
    }
}

/// Says what is wrong with a quoted text that is refused so as a term, where it is. Of a term that is too large no place is told.
pub(crate) fn in_quote<'a>(
    teller: Teller<'a>,
    message: &mut Message,
    piece: &'a Piece<'a>,
    fault: &Fault,
) {
    if *fault == Fault::TooLarge {
        return;
    }
    let (alloc, scope) = (teller.alloc, &teller.known.scope);
    let Some(tokens) = message.given(read(tokens_in(alloc, piece.bytes))) else {
        return;
    };
    let Some(steps) = message.given(read(parse_term(alloc, &tokens))) else {
        return;
    };
    if !is_refused(alloc, scope, &steps, fault) {
        return;
    }
    if *fault == Fault::UnknownType {
        unknown_type(teller, message, piece, 0, false);
    } else {
        let quote = Quote {
            teller,
            piece,
            steps: &steps,
        };
        let front = refused_front(alloc, scope, &steps, fault);
        quote.at_step(message, front.saturating_sub(1));
    }
}
