// Quoted terms among tokens.
ghost use Rattle.hol_model.specs.declared.symbol.Symbol.TheVariants.{Backquote};
ghost use Rattle.hol_model.specs.Texts.Token.{Mark};
ghost use Rattle.hol_tactic_grammar.specs.Quotes.{FindsQuote, ReadsQuote};

use crate::tokens::{Read, is_mark};
use hol_model::Symbol;
use hol_syntax_grammar::{ReadError, TermStep, Token, parse_term};
use std::alloc::Global;

// The place of the first backquote from a place on.
fn find_quote(tokens: &[Token<'_>], at: usize) -> Option<usize>
    ensures { FindsQuote result at tokens.now }
{
    let mut end = at;
    while end < tokens.len() {
        if is_mark(tokens, end, Symbol::Backquote) {
            return Some(end);
        }
        end += 1;
    }
    None
}

/// The steps of the term between two backquotes at a place, and the place behind them.
pub fn read_quote<'a>(
    alloc: Global,
    tokens: &[Token<'a>],
    at: usize,
) -> Read<(Vec<TermStep<'a>>, usize)>
    ensures { ReadsQuote result at tokens.now }
{
    if !is_mark(tokens, at, Symbol::Backquote) {
        return Err(ReadError::Syntax);
    }
    let begin = at + 1;
    let Some(end) = find_quote(tokens, begin) else {
        return Err(ReadError::Syntax);
    };
    let steps = parse_term(alloc, &tokens[begin..end])?;
    Ok((steps, end + 1))
}
