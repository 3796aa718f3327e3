// Tokens from the front: names, marks and quoted parts.
ghost use Rattle.std.specs.Prelude.{◌≡◌};
ghost use Rattle.hol_model.specs.Texts.Lexing.{IsToken};
ghost use Rattle.hol_syntax_grammar.specs.Views.{token_of, tokens_of};
ghost use Rattle.hol_tactic_grammar.specs.Tokens.{AreTokens};
ghost use Rattle.hol_script_commands.specs.Reading as reading;
ghost use Rattle.hol_script_commands.specs.Reading.{IsNameOf, TakesName, TakesOnlyName, TakesOnlyNames, TakesMark, TakesQuote};

use hol_model::Symbol;
use hol_syntax::identifier;
use hol_syntax_grammar::{ReadError, Token};
use std::alloc::Global;

// The name that a token is.
fn token_name<'a>(token: &Token<'a>) -> Option<&'a str>
    requires { IsToken (token_of token.now) }
    ensures { IsNameOf result (token_of token.now) }
{
    match token {
        Token::Name(bytes) => identifier(bytes),
        _ => None,
    }
}

/// The name at the front of the tokens, and what follows it.
pub fn take_name<'a>(tokens: &'a [Token<'a>]) -> Option<(&'a str, &'a [Token<'a>])>
    requires { AreTokens (tokens_of tokens.now) }
    ensures { TakesName result (tokens_of tokens.now) }
{
    match tokens {
        [first, rest @ ..] => match token_name(first) {
            Some(name) => Some((name, rest)),
            None => None,
        },
        [] => None,
    }
}

/// The name that the tokens are.
pub fn only_name<'a>(tokens: &'a [Token<'a>]) -> Option<&'a str>
    requires { AreTokens (tokens_of tokens.now) }
    ensures { TakesOnlyName result (tokens_of tokens.now) }
{
    let (name, rest) = take_name(tokens)?;
    if rest.is_empty() { Some(name) } else { None }
}

/// The names that the tokens are, so many.
pub fn only_names<'a>(
    alloc: Global,
    count: usize,
    tokens: &'a [Token<'a>],
) -> Result<Vec<&'a str>, ReadError>
    requires { AreTokens (tokens_of tokens.now) }
    ensures { TakesOnlyNames result count (tokens_of tokens.now) }
{
    if tokens.len() != count {
        return Err(ReadError::Syntax);
    }
    let mut names = Vec::new(alloc);
    for token in tokens {
        let Some(name) = token_name(token) else {
            return Err(ReadError::Syntax);
        };
        names.push(name)?;
    }
    Ok(names)
}

/// What follows a mark at the front of the tokens.
pub fn take_mark<'a>(tokens: &'a [Token<'a>], symbol: Symbol) -> Option<&'a [Token<'a>]>
    ensures { TakesMark result symbol (tokens_of tokens.now) }
{
    match tokens {
        [Token::Mark(other), rest @ ..] => { if *other == symbol { Some(rest) } else { None } }
        _ => None,
    }
}

fn is_quote(token: &Token<'_>) -> bool
    ensures { result ≡ reading.is_quote (token_of token.now) }
{
    matches!(token, Token::Mark(Symbol::Backquote))
}

/// The tokens between two backquotes at the front, and what follows them.
pub fn take_quote<'a>(tokens: &'a [Token<'a>]) -> Option<(&'a [Token<'a>], &'a [Token<'a>])>
    ensures { TakesQuote result (tokens_of tokens.now) }
{
    let inner = take_mark(tokens, Symbol::Backquote)?;
    let mut at = 0;
    while at < inner.len() {
        if is_quote(&inner[at]) {
            return Some((&inner[..at], &inner[at + 1..]));
        }
        at += 1;
    }
    None
}
