// The parser of terms: its open places are in a vector, and its answer is a list of steps.
ghost use Rattle.std.specs.Prelude.{◌≡◌, ℕ, List, [], ◌+◌, Option, Some, None, OnOk};
ghost use Rattle.hol_model.specs.Texts.TermGrammar.{TermTree, Lexeme, infix_level};
ghost use Rattle.hol_model.specs.Texts.TermGrammar as terms;
ghost use Rattle.hol_model.specs.Texts.TypeGrammar.{TypeTree};
ghost use Rattle.hol_syntax_grammar.specs.TermReader.{Pending, close, closed, joined, turn, run};
ghost use Rattle.hol_syntax_grammar.specs.TermSteps.{flat_step, TakeAtom, EnterBinder};
ghost use Rattle.hol_syntax_grammar.specs.Grammar.{infix_here, binder_here};
ghost use Rattle.hol_syntax_grammar.specs.Steps.{flat_step_of};
ghost use Rattle.hol_syntax_grammar.specs.Views.{tokens_of};
ghost use Rattle.hol_syntax_grammar.specs.PieceStates.{IsPieceOf};
ghost use Rattle.hol_syntax_grammar.specs.TermStates.{waiting_level, made_step, IsFloor, IsPoppedWaiting, IsState, Takes, IsOpened, IsStepped, IsWhole, Parses};

use crate::grammar::{Binder, Infix};
use crate::piece_reader::{Piece, take_piece};
use crate::steps::TermStep;
use crate::token::Token;
use crate::type_reader::ReadError;
use hol_model::TERM_NESTING_LIMIT;
use std::alloc::{AllocError, Global};

// What waits for a term on its right.
#[derive(Clone, Copy)]
enum Waiting {
    Not,
    Right(Infix),
    Body(Binder),
}

// What is open: a parenthesis, alone or behind a function, or what waits for a term.
#[derive(Clone, Copy)]
enum Open {
    Parenthesis,
    Argument,
    Waits(Waiting),
}

#[derive(Drop)]
struct TermReader<'a> {
    opens: Vec<Open>,
    steps: Vec<TermStep<'a>>,
    // Whether an operand stands behind what is open.
    complete: bool,
}

// The level of the term that is made.
fn level_made(waiting: Waiting) -> u8
    ensures { result ≡ waiting_level waiting }
{
    match waiting {
        Waiting::Not => 14,
        Waiting::Right(operation) => operation.level(),
        Waiting::Body(_) => 0,
    }
}

fn step_made<'a>(waiting: Waiting) -> TermStep<'a>
    ensures { flat_step_of result ≡ made_step waiting }
{
    match waiting {
        Waiting::Not => TermStep::Not,
        Waiting::Right(operation) => TermStep::Join(operation),
        Waiting::Body(quantifier) => TermStep::Leave(quantifier),
    }
}

// Takes what waits with this level or more off the end, if it is there.
fn pop_waiting(opens: &mut Vec<Open>, level: u8) -> Option<Waiting>
    ensures { IsPoppedWaiting result level opens.old.items opens.new.items }
{
    let Some(Open::Waits(waiting)) = opens.last().copied() else {
        return None;
    };
    if level_made(waiting) < level {
        return None;
    }
    opens.pop();
    Some(waiting)
}

// The least level that a term may have here.
fn floor(opens: &[Open]) -> u8
    ensures { IsFloor result opens.now }
{
    match opens.last() {
        Some(Open::Waits(waiting)) => level_made(*waiting),
        Some(Open::Parenthesis) | Some(Open::Argument) | None => 0,
    }
}

impl<'a> TermReader<'a> {
    // Makes what waits with this level or more and ends here.
    fn close(&mut self, level: u8) -> Result<(), AllocError>
        ensures { OnOk result ((opens : List Pending) (t : TermTree) → IsState self.old opens (Some t)
            → IsState self.new (close level opens t).0 (Some (close level opens t).1)) }
    {
        while let Some(waiting) = pop_waiting(&mut self.opens, level) {
            self.steps.push(step_made(waiting))?;
        }
        Ok(())
    }

    // One more is open.
    fn open_place(&mut self, place: Open) -> Result<(), ReadError>
        ensures { IsOpened result self.old self.new place }
    {
        if self.opens.len() >= TERM_NESTING_LIMIT {
            return Err(ReadError::Syntax);
        }
        self.opens.push(place)?;
        self.complete = false;
        Ok(())
    }

    // An atom where an operand is wanted.
    fn begin_atom(&mut self, step: TermStep<'a>) -> Result<(), ReadError>
        ensures { (opens : List Pending) (atom : terms.Atom) → IsState self.old opens None → flat_step_of step.entry ≡ flat_step (TakeAtom atom)
            → Takes result self.new (turn (terms.AtomPiece atom) opens None) }
    {
        self.steps.push(step)?;
        self.complete = true;
        Ok(())
    }

    // A binder, which stands where no level is asked for.
    fn begin_binder(&mut self, quantifier: Binder, step: TermStep<'a>) -> Result<(), ReadError>
        ensures { (opens : List Pending) (name : List ℕ) (tree : TypeTree) → IsState self.old opens None → flat_step_of step.entry ≡ flat_step (EnterBinder name tree)
            → Takes result self.new (turn (terms.BinderPiece (binder_here quantifier) name tree) opens None) }
    {
        if floor(&self.opens) > 0 {
            return Err(ReadError::Syntax);
        }
        self.steps.push(step)?;
        self.open_place(Open::Waits(Waiting::Body(quantifier)))
    }

    // A piece where an operand is wanted.
    fn begin(&mut self, piece: Piece<'a>) -> Result<(), ReadError>
        ensures { (opens : List Pending) (lexeme : Lexeme) → IsState self.old opens None → IsPieceOf piece.entry lexeme
            → Takes result self.new (turn lexeme opens None) }
    {
        match piece {
            Piece::Atom(step) => self.begin_atom(step),
            Piece::Open => self.open_place(Open::Parenthesis),
            Piece::Not => self.open_place(Open::Waits(Waiting::Not)),
            Piece::Bind(quantifier, step) => self.begin_binder(quantifier, step),
            Piece::Close | Piece::Join(_) => Err(ReadError::Syntax),
        }
    }

    // An atom behind an operand is its argument.
    fn apply_atom(&mut self, step: TermStep<'a>) -> Result<(), ReadError>
        ensures { (opens : List Pending) (t : TermTree) (atom : terms.Atom) → IsState self.old opens (Some t) → flat_step_of step.entry ≡ flat_step (TakeAtom atom)
            → Takes result self.new (turn (terms.AtomPiece atom) opens (Some t)) }
    {
        self.steps.push(step)?;
        self.steps.push(TermStep::Apply)?;
        Ok(())
    }

    // A closing parenthesis behind an operand.
    fn enclose(&mut self) -> Result<(), ReadError>
        ensures { (opens : List Pending) (t : TermTree) → IsState self.old opens (Some t)
            → Takes result self.new (closed (close 0 opens t)) }
    {
        self.close(0)?;
        match self.opens.pop() {
            Some(Open::Parenthesis) => Ok(()),
            Some(Open::Argument) => {
                self.steps.push(TermStep::Apply)?;
                Ok(())
            }
            Some(Open::Waits(_)) | None => Err(ReadError::Syntax),
        }
    }

    // An infix behind an operand.
    fn join(&mut self, operation: Infix) -> Result<(), ReadError>
        ensures { (opens : List Pending) (t : TermTree) → IsState self.old opens (Some t)
            → Takes result self.new (joined (infix_here operation) (close (infix_level (infix_here operation) + 1) opens t)) }
    {
        self.close(operation.level() + 1)?;
        self.open_place(Open::Waits(Waiting::Right(operation)))
    }

    // A piece behind an operand.
    fn go_on(&mut self, piece: Piece<'a>) -> Result<(), ReadError>
        ensures { (opens : List Pending) (t : TermTree) (lexeme : Lexeme) → IsState self.old opens (Some t) → IsPieceOf piece.entry lexeme
            → Takes result self.new (turn lexeme opens (Some t)) }
    {
        match piece {
            Piece::Atom(step) => self.apply_atom(step),
            Piece::Open => self.open_place(Open::Argument),
            Piece::Close => self.enclose(),
            Piece::Join(operation) => self.join(operation),
            Piece::Not | Piece::Bind(_, _) => Err(ReadError::Syntax),
        }
    }

    // Takes a piece.
    fn turn(&mut self, piece: Piece<'a>) -> Result<(), ReadError>
        ensures { (opens : List Pending) (current : Option TermTree) (lexeme : Lexeme) → IsState self.old opens current → IsPieceOf piece.entry lexeme
            → Takes result self.new (turn lexeme opens current) }
    {
        if self.complete {
            self.go_on(piece)
        } else {
            self.begin(piece)
        }
    }

    // Takes the piece at the front of the tokens, and answers how many they are.
    fn take(&mut self, alloc: Global, tokens: &[Token<'a>]) -> Result<usize, ReadError>
        ensures { (opens : List Pending) (current : Option TermTree) → IsState self.old opens current
            → IsStepped result self.new (tokens_of tokens.now) opens current }
    {
        let (piece, rest) = take_piece(alloc, tokens)?;
        self.turn(piece)?;
        Ok(tokens.len() - rest.len())
    }

    // The end of the tokens.
    fn finish(&mut self) -> Result<(), ReadError>
        ensures { (opens : List Pending) (current : Option TermTree) → IsState self.old opens current
            → IsWhole result self.new (run [] opens current) }
    {
        if !self.complete {
            return Err(ReadError::Syntax);
        }
        self.close(0)?;
        if self.opens.is_empty() {
            Ok(())
        } else {
            Err(ReadError::Syntax)
        }
    }
}

/// The steps of the term that the tokens are.
pub fn parse_term<'a>(alloc: Global, tokens: &[Token<'a>]) -> Result<Vec<TermStep<'a>>, ReadError>
    ensures { Parses result (tokens_of tokens.now) }
{
    let mut reader = TermReader {
        opens: Vec::new(alloc),
        steps: Vec::new(alloc),
        complete: false,
    };
    let mut at = 0;
    while at < tokens.len() {
        at += reader.take(alloc, &tokens[at..])?;
    }
    reader.finish()?;
    Ok(reader.steps)
}
