// The piece at the front of the tokens.
ghost use Rattle.std.specs.Prelude.{◌≡◌, [], None, MatchOption, IsTrue, IsFalse};
ghost use Rattle.hol_model.specs.Texts.Token.{token_text};
ghost use Rattle.hol_syntax_grammar.specs.Grammar.{binder_here};
ghost use Rattle.hol_model.specs.Texts.TermGrammar.{AtomPiece, Variable};
ghost use Rattle.hol_syntax_grammar.specs.TypeReader.{run};
ghost use Rattle.hol_syntax_grammar.specs.Pieces.{type_until, made, EndsVariable, piece_at, typed, binder_piece, bracket_piece, parenthesis_piece, is_colon, names_constant, ending, symbol_start, started};
ghost use Rattle.hol_syntax_grammar.specs.PieceStates.{IsFirst, IsTyped, IsTaken, ending_here, ends_with};
ghost use Rattle.hol_syntax_grammar.specs.Views.{token_of, tokens_of};

use crate::grammar::{Binder, Infix};
use crate::lexer::text;
use crate::steps::TermStep;
use crate::token::Token;
use crate::type_reader::{ReadError, TypeStep, read_type_steps};
use hol_model::Symbol;
use std::alloc::Global;

/// A piece of a term that no parenthesis or level parts. An atom and a binder stand as their steps.
#[derive(Drop)]
pub enum Piece<'a> {
    Atom(TermStep<'a>),
    Open,
    Close,
    Not,
    Join(Infix),
    Bind(Binder, TermStep<'a>),
}

// What ends a type that is written in a piece.
#[derive(Clone, Copy)]
enum Ending {
    Variable,
    Constant,
    Binder,
}

// The first token, and what follows it.
fn first<'a, 'b>(tokens: &'b [Token<'a>]) -> Option<(Token<'a>, &'b [Token<'a>])>
    ensures { IsFirst result (tokens_of tokens.now) }
{
    match tokens.split_first() {
        Some((token, rest)) => Some((*token, rest)),
        None => None,
    }
}

fn is_a_colon(token: Token) -> bool
    ensures { result ≡ is_colon (token_of token.entry) }
{
    match token {
        Token::Mark(Symbol::Colon) => true,
        Token::Name(_) | Token::Number(_) | Token::Mark(_) => false,
    }
}

// Whether a type of this piece ends with the token.
fn ends(wanted: Ending, token: Token) -> bool
    ensures { result ≡ ends_with (ending_here wanted) (ending (token_of token.entry)) }
{
    match wanted {
        Ending::Variable => match token {
            Token::Mark(Symbol::CloseParenthesis) => true,
            Token::Name(_) | Token::Number(_) | Token::Mark(_) => false,
        },
        Ending::Constant => match token {
            Token::Mark(Symbol::CloseBracket) => true,
            Token::Name(_) | Token::Number(_) | Token::Mark(_) => false,
        },
        Ending::Binder => match token {
            Token::Mark(Symbol::Dot) => true,
            Token::Name(_) | Token::Number(_) | Token::Mark(_) => false,
        },
    }
}

// The bytes of a token that the brackets of a constant may hold.
fn constant_name<'a>(token: Token<'a>) -> Option<&'a [u8]>
    ensures { MatchOption result (IsFalse (names_constant (token_of token.entry)))
        (λ name. (name.now ≡ token_text (token_of token.entry)) × IsTrue (names_constant (token_of token.entry))) }
{
    match token {
        Token::Name(bytes) => Some(bytes),
        Token::Mark(symbol) => match symbol {
            Symbol::Equal
            | Symbol::At
            | Symbol::And
            | Symbol::Or
            | Symbol::Implies
            | Symbol::Tilde
            | Symbol::Exclamation
            | Symbol::Question => Some(text(symbol)),
            _ => None,
        },
        Token::Number(_) => None,
    }
}

// A type with the symbol that ends it, and what follows.
fn take_type<'a, 'b>(
    alloc: Global,
    wanted: Ending,
    tokens: &'b [Token<'a>],
) -> Result<(Vec<TypeStep<'a>>, &'b [Token<'a>]), ReadError>
    ensures { IsTyped result (type_until (ending_here wanted) (run (tokens_of tokens.now) [] None)) }
{
    let (steps, count) = read_type_steps(alloc, tokens)?;
    if count >= tokens.len() {
        return Err(ReadError::Syntax);
    }
    if !ends(wanted, tokens[count]) {
        return Err(ReadError::Syntax);
    }
    Ok((steps, &tokens[count + 1..]))
}

// A colon, a type and the symbol that ends it, and what follows.
fn take_typed<'a, 'b>(
    alloc: Global,
    wanted: Ending,
    tokens: &'b [Token<'a>],
) -> Result<(Vec<TypeStep<'a>>, &'b [Token<'a>]), ReadError>
    ensures { IsTyped result (typed (ending_here wanted) (tokens_of tokens.now)) }
{
    let Some((token, rest)) = first(tokens) else {
        return Err(ReadError::Syntax);
    };
    if !is_a_colon(token) {
        return Err(ReadError::Syntax);
    }
    take_type(alloc, wanted, rest)
}

// A variable with its type, behind the name.
fn take_variable<'a, 'b>(
    alloc: Global,
    name: &'a [u8],
    tokens: &'b [Token<'a>],
) -> Result<(Piece<'a>, &'b [Token<'a>]), ReadError>
    ensures { IsTaken result (made (λ tree. AtomPiece (Variable name.now tree)) (typed EndsVariable (tokens_of tokens.now))) }
{
    let (steps, rest) = take_typed(alloc, Ending::Variable, tokens)?;
    Ok((Piece::Atom(TermStep::Variable(name, steps)), rest))
}

// What a parenthesis opens: a variable with its type, where a name and a colon come next, or itself alone.
fn take_parenthesis<'a, 'b>(
    alloc: Global,
    tokens: &'b [Token<'a>],
) -> Result<(Piece<'a>, &'b [Token<'a>]), ReadError>
    ensures { IsTaken result (parenthesis_piece (tokens_of tokens.now)) }
{
    let Some((token, rest)) = first(tokens) else {
        return Ok((Piece::Open, tokens));
    };
    let Token::Name(name) = token else {
        return Ok((Piece::Open, tokens));
    };
    let Some((next, _)) = first(rest) else {
        return Ok((Piece::Open, tokens));
    };
    if is_a_colon(next) {
        take_variable(alloc, name, rest)
    } else {
        Ok((Piece::Open, tokens))
    }
}

// A constant with its type, behind a bracket.
fn take_bracket<'a, 'b>(
    alloc: Global,
    tokens: &'b [Token<'a>],
) -> Result<(Piece<'a>, &'b [Token<'a>]), ReadError>
    ensures { IsTaken result (bracket_piece (tokens_of tokens.now)) }
{
    let Some((token, rest)) = first(tokens) else {
        return Err(ReadError::Syntax);
    };
    let Some(name) = constant_name(token) else {
        return Err(ReadError::Syntax);
    };
    let (steps, behind) = take_typed(alloc, Ending::Constant, rest)?;
    Ok((Piece::Atom(TermStep::Constant(name, steps)), behind))
}

// A name with its type, behind a binder.
fn take_binder<'a, 'b>(
    alloc: Global,
    binder: Binder,
    tokens: &'b [Token<'a>],
) -> Result<(Piece<'a>, &'b [Token<'a>]), ReadError>
    ensures { IsTaken result (binder_piece (binder_here binder) (tokens_of tokens.now)) }
{
    let Some((token, rest)) = first(tokens) else {
        return Err(ReadError::Syntax);
    };
    let Token::Name(name) = token else {
        return Err(ReadError::Syntax);
    };
    let (steps, behind) = take_typed(alloc, Ending::Binder, rest)?;
    Ok((Piece::Bind(binder, TermStep::Enter(name, steps)), behind))
}

// The piece that begins with a symbol.
fn take_symbol<'a, 'b>(
    alloc: Global,
    symbol: Symbol,
    rest: &'b [Token<'a>],
) -> Result<(Piece<'a>, &'b [Token<'a>]), ReadError>
    ensures { IsTaken result (started (symbol_start symbol) (tokens_of rest.now)) }
{
    match symbol {
        Symbol::Iff => Ok((Piece::Join(Infix::Iff), rest)),
        Symbol::Implies => Ok((Piece::Join(Infix::Implies), rest)),
        Symbol::Or => Ok((Piece::Join(Infix::Or), rest)),
        Symbol::And => Ok((Piece::Join(Infix::And), rest)),
        Symbol::Equal => Ok((Piece::Join(Infix::Equal), rest)),
        Symbol::Tilde => Ok((Piece::Not, rest)),
        Symbol::CloseParenthesis => Ok((Piece::Close, rest)),
        Symbol::OpenParenthesis => take_parenthesis(alloc, rest),
        Symbol::OpenBracket => take_bracket(alloc, rest),
        Symbol::Backslash => take_binder(alloc, Binder::Lambda, rest),
        Symbol::Exclamation => take_binder(alloc, Binder::ForAll, rest),
        Symbol::Question => take_binder(alloc, Binder::Exists, rest),
        Symbol::At => take_binder(alloc, Binder::Choice, rest),
        _ => Err(ReadError::Syntax),
    }
}

/// The piece at the front of the tokens, and what follows it.
pub fn take_piece<'a, 'b>(
    alloc: Global,
    tokens: &'b [Token<'a>],
) -> Result<(Piece<'a>, &'b [Token<'a>]), ReadError>
    ensures { IsTaken result (piece_at (tokens_of tokens.now)) }
{
    let Some((token, rest)) = first(tokens) else {
        return Err(ReadError::Syntax);
    };
    match token {
        Token::Name(name) => Ok((Piece::Atom(TermStep::Bare(name)), rest)),
        Token::Number(_) => Err(ReadError::Syntax),
        Token::Mark(symbol) => take_symbol(alloc, symbol, rest),
    }
}
