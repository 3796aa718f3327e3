// The reader of types: its open places are in a vector, and its answer is a list of steps.
ghost use Rattle.std.specs.Prelude.{◌≡◌, ◌≢◌, List, [], ◌∷◌, ◌++◌, Option, Some, None, OnOk, MatchBool};
ghost use Rattle.hol_syntax_grammar.specs.declared.type_reader.Open.{Open};
ghost use Rattle.hol_model.specs.Texts.TypeGrammar.{TypeTree};
ghost use Rattle.hol_syntax_grammar.specs.TypeReader.{Pending, close, closed, finished, turn, role, open_one, LeftOf, Parenthesis};
ghost use Rattle.hol_syntax_grammar.specs.Views.{token_of, tokens_of, role_of};
ghost use Rattle.hol_syntax_grammar.specs.TypeStates.{IsState, Takes, IsOpened, Reads};
ghost use Rattle.hol_syntax_grammar.specs.declared.type_reader.ReadError.TheVariants.{Memory};

use crate::token::Token;
use hol_model::{Fault, Symbol};
use std::alloc::{AllocError, AllocFailed, Global};

/// Why a text is not read.
#[derive(Clone, Copy, Drop)]
pub enum ReadError {
    Memory,
    Syntax,
}

impl From<AllocError> for ReadError {
    ghost from_gives = { λ _ e. e ≡ Memory };

    fn from(_: AllocError) -> ReadError {
        ReadError::Memory
    }
}

impl<T: Drop> From<AllocFailed<T>> for ReadError {
    ghost from_gives = { λ _ e. e ≡ Memory };

    fn from(_: AllocFailed<T>) -> ReadError {
        ReadError::Memory
    }
}

impl From<ReadError> for Fault {
    ghost use Rattle.hol_syntax_grammar.specs.Faults.{fault_of};

    ghost from_gives = { λ error fault. fault ≡ fault_of error };

    fn from(error: ReadError) -> Fault {
        match error {
            ReadError::Memory => Fault::Memory,
            ReadError::Syntax => Fault::Syntax,
        }
    }
}

/// A step towards a type, after the steps for its parts.
#[derive(Clone, Copy, Drop)]
pub enum TypeStep<'a> {
    TakeName(&'a [u8]),
    MakeFunction,
}

// What a token is to a type.
#[derive(Clone, Copy, Drop)]
enum Role<'a> {
    Name(&'a [u8]),
    Opens,
    Closes,
    Continues,
    Stops,
}

// What is open: a parenthesis, or an arrow whose right side is being read.
#[derive(Clone, Copy, Drop)]
enum Open {
    Parenthesis,
    Arrow,
}

// The nesting limit of types.
const LIMIT: usize = 2000;

#[derive(Drop)]
struct TypeReader<'a> {
    opens: Vec<Open>,
    steps: Vec<TypeStep<'a>>,
    // Whether an atom stands behind what is open.
    complete: bool,
}

fn type_role<'a>(token: Token<'a>) -> Role<'a>
    ensures { role_of result ≡ role (token_of token.entry) }
{
    match token {
        Token::Name(bytes) => Role::Name(bytes),
        Token::Number(_) => Role::Stops,
        Token::Mark(Symbol::OpenParenthesis) => Role::Opens,
        Token::Mark(Symbol::CloseParenthesis) => Role::Closes,
        Token::Mark(Symbol::Arrow) => Role::Continues,
        Token::Mark(_) => Role::Stops,
    }
}

// Takes an arrow off the end, if one is there.
fn pop_arrow(opens: &mut Vec<Open>) -> bool
    ensures { MatchBool result (opens.old.items ≡ opens.new.items ++ Open.Arrow ∷ [])
        ((opens.new.items ≡ opens.old.items) × ((rest : List Open) → opens.old.items ≢ rest ++ Open.Arrow ∷ [])) }
{
    if let Some(Open::Arrow) = opens.last() {
        opens.pop();
        true
    } else {
        false
    }
}

impl<'a> TypeReader<'a> {
    // Applies the arrows that end here.
    fn close(&mut self) -> Result<(), AllocError>
        ensures { OnOk result ((opens : List Pending) (t : TypeTree) → IsState self.old opens (Some t)
            → IsState self.new (close opens t).0 (Some (close opens t).1)) }
    {
        while pop_arrow(&mut self.opens) {
            self.steps.push(TypeStep::MakeFunction)?;
        }
        Ok(())
    }

    // One more is open.
    fn open_place(&mut self, place: Open) -> Result<bool, ReadError>
        ensures { IsOpened result self.old self.new place }
    {
        if self.opens.len() >= LIMIT {
            return Err(ReadError::Syntax);
        }
        self.opens.push(place)?;
        self.complete = false;
        Ok(true)
    }

    // A token where an atom is wanted.
    fn begin(&mut self, role: Role<'a>) -> Result<bool, ReadError>
        ensures { (opens : List Pending) → IsState self.old opens None
            → Takes result self.new (turn (role_of role.entry) opens None) }
    {
        match role {
            Role::Name(bytes) => {
                self.steps.push(TypeStep::TakeName(bytes))?;
                self.complete = true;
                Ok(true)
            }
            Role::Opens => self.open_place(Open::Parenthesis),
            Role::Closes | Role::Continues | Role::Stops => Err(ReadError::Syntax),
        }
    }

    // A closing parenthesis behind an atom.
    fn enclose(&mut self) -> Result<bool, ReadError>
        ensures { (opens : List Pending) (t : TypeTree) → IsState self.old opens (Some t)
            → Takes result self.new (closed (close opens t)) }
    {
        self.close()?;
        match self.opens.pop() {
            None => Ok(false),
            Some(Open::Parenthesis) => Ok(true),
            Some(Open::Arrow) => Err(ReadError::Syntax),
        }
    }

    // The end of the type, behind an atom.
    fn finish(&mut self) -> Result<bool, ReadError>
        ensures { (opens : List Pending) (t : TypeTree) → IsState self.old opens (Some t)
            → Takes result self.new (finished (close opens t)) }
    {
        self.close()?;
        if self.opens.is_empty() {
            Ok(false)
        } else {
            Err(ReadError::Syntax)
        }
    }

    // A token behind an atom.
    fn go_on(&mut self, role: Role<'a>) -> Result<bool, ReadError>
        ensures { (opens : List Pending) (t : TypeTree) → IsState self.old opens (Some t)
            → Takes result self.new (turn (role_of role.entry) opens (Some t)) }
    {
        match role {
            Role::Closes => self.enclose(),
            Role::Continues => self.open_place(Open::Arrow),
            Role::Name(_) | Role::Opens | Role::Stops => self.finish(),
        }
    }

    // Takes a token: true where the type goes on, false where it ended before the token.
    fn turn(&mut self, role: Role<'a>) -> Result<bool, ReadError>
        ensures { (opens : List Pending) (current : Option TypeTree) → IsState self.old opens current
            → Takes result self.new (turn (role_of role.entry) opens current) }
    {
        if self.complete {
            self.go_on(role)
        } else {
            self.begin(role)
        }
    }
}

/// The steps of the type at the front of the tokens, and how many tokens it takes.
pub fn read_type_steps<'a>(
    alloc: Global,
    tokens: &[Token<'a>],
) -> Result<(Vec<TypeStep<'a>>, usize), ReadError>
    ensures { Reads result (tokens_of tokens.now) }
{
    let mut reader = TypeReader {
        opens: Vec::new(alloc),
        steps: Vec::new(alloc),
        complete: false,
    };
    for (i, token) in tokens.iter().enumerate() {
        if !reader.turn(type_role(*token))? {
            return Ok((reader.steps, i));
        }
    }
    if reader.turn(Role::Stops)? {
        return Err(ReadError::Syntax);
    }
    Ok((reader.steps, tokens.len()))
}
