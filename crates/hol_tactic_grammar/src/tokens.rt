// The token at a place, and what follows it.
ghost use Rattle.std.specs.Prelude.{MatchBool};
ghost use Rattle.hol_model.specs.Texts.Token.{Name, Mark};
ghost use Rattle.hol_syntax_grammar.specs.Views.{tokens_of};
ghost use Rattle.hol_tactic_grammar.specs.Tokens.{AreTokens, IsAt, IsNotAt, IsNameAt, ReadsName};

use hol_model::Symbol;
use hol_syntax::identifier;
use hol_syntax_grammar::{ReadError, Token};
use std::alloc::Global;

/// What a reader answers.
pub type Read<T> = Result<T, ReadError>;

/// The name at a place.
pub fn name_at<'a>(tokens: &[Token<'a>], at: usize) -> Option<&'a str>
    requires { AreTokens (tokens_of tokens.now) }
    ensures { IsNameAt result at tokens.now }
{
    if at >= tokens.len() {
        return None;
    }
    match tokens[at] {
        Token::Name(bytes) => identifier(bytes),
        _ => None,
    }
}

/// The name at a place, as text of its own.
pub fn read_name(alloc: Global, tokens: &[Token<'_>], at: usize) -> Read<String>
    requires { AreTokens (tokens_of tokens.now) }
    ensures { ReadsName result at tokens.now }
{
    let Some(name) = name_at(tokens, at) else {
        return Err(ReadError::Syntax);
    };
    Ok(String::from_str(alloc, name)?)
}

/// Whether this word is at the place.
pub fn is_word(tokens: &[Token<'_>], at: usize, word: &str) -> bool
    requires { AreTokens (tokens_of tokens.now) }
    ensures { MatchBool result (IsAt (Name word.now) at tokens.now) (IsNotAt (Name word.now) at tokens.now) }
{
    match name_at(tokens, at) {
        Some(name) => name == word,
        None => false,
    }
}

/// Whether this symbol is at the place.
pub fn is_mark(tokens: &[Token<'_>], at: usize, symbol: Symbol) -> bool
    ensures { MatchBool result (IsAt (Mark symbol) at tokens.now) (IsNotAt (Mark symbol) at tokens.now) }
{
    if at >= tokens.len() {
        return false;
    }
    match tokens[at] {
        Token::Mark(other) => other == symbol,
        _ => false,
    }
}
