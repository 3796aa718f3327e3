// Refiners without parts, read from tokens.
ghost use Rattle.std.specs.Prelude.{◌≡◌, ℕ};
ghost use Rattle.std.specs.String.{string_bytes};
ghost use Rattle.hol_model.specs.Texts.Token.{Name};
ghost use Rattle.hol_model_sessions.specs.TacticGrammar.{plain_word, named_word, quoted_word};
ghost use Rattle.hol_syntax_grammar.specs.Steps.{flat_steps_of};
ghost use Rattle.hol_syntax_grammar.specs.Views.{tokens_of};
ghost use Rattle.hol_tactic_grammar.specs.Tokens.{AreTokens, IsAt};
ghost use Rattle.hol_tactic_grammar.specs.TacticWords.{plain_of, named_of, quoted_of, other_word};
ghost use Rattle.hol_tactic_grammar.specs.Expressions.{simple, plain, by_name, by_quote, expression_here};
ghost use Rattle.hol_tactic_grammar.specs.Tactics.{ReadsNames, ReadsUnit};

use crate::conversions::read_unit;
use crate::quotes::read_quote;
use crate::tactic_words::{Named, Other, Plain, Quoted};
use crate::tactics::Refiner;
use crate::tokens::{Read, is_mark, read_name};
use hol_model::Symbol;
use hol_syntax_grammar::{ReadError, TermStep, Token};
use hol_tactic_exprs::{Leaf, Tac};
use std::alloc::Global;

fn plain_tactic<'a>(tactic: Plain) -> Refiner<'a>
    ensures { expression_here result ≡ simple (plain (plain_of tactic)) }
{
    match tactic {
        Plain::All => Tac::Leaf(Leaf::All),
        Plain::No => Tac::Leaf(Leaf::No),
        Plain::Assumption => Tac::Leaf(Leaf::Assumption),
        Plain::Refl => Tac::Leaf(Leaf::Refl),
        Plain::Conj => Tac::Leaf(Leaf::Conj),
        Plain::Eq => Tac::Leaf(Leaf::Eq),
        Plain::Disj1 => Tac::Leaf(Leaf::Disj1),
        Plain::Disj2 => Tac::Leaf(Leaf::Disj2),
        Plain::Disch => Tac::Leaf(Leaf::Disch),
        Plain::Gen => Tac::Leaf(Leaf::Gen),
        Plain::Taut => Tac::Leaf(Leaf::Taut),
    }
}

fn named_tactic<'a>(tactic: Named, name: String) -> Refiner<'a>
    ensures { expression_here result ≡ simple (by_name (named_of tactic) (string_bytes name)) }
{
    match tactic {
        Named::Accept => Tac::Leaf(Leaf::Accept(name)),
        Named::Assume => Tac::Leaf(Leaf::Assume(name)),
        Named::Mp => Tac::Leaf(Leaf::Mp(name)),
        Named::DisjCases => Tac::Leaf(Leaf::DisjCases(name)),
        Named::Choose => Tac::Leaf(Leaf::Choose(name)),
        Named::Host => Tac::Host(name),
    }
}

fn quoted_tactic<'a>(tactic: Quoted, steps: Vec<TermStep<'a>>) -> Refiner<'a>
    ensures { expression_here result ≡ simple (by_quote (quoted_of tactic) (flat_steps_of steps.entry.items)) }
{
    match tactic {
        Quoted::Exists => Tac::Leaf(Leaf::Exists(steps)),
        Quoted::Undisch => Tac::Leaf(Leaf::Undisch(steps)),
    }
}

/// A refiner without arguments.
pub fn read_plain<'a>(tokens: &[Token<'a>], at: usize, tactic: Plain) -> Read<(Refiner<'a>, usize)>
    requires { IsAt (Name (plain_word (plain_of tactic))) at tokens.now }
    ensures { (room : ℕ) → ReadsUnit result at room tokens.now }
{
    Ok((plain_tactic(tactic), at + 1))
}

/// A refiner and the name behind it.
pub fn read_by_name<'a>(
    alloc: Global,
    tokens: &[Token<'a>],
    at: usize,
    tactic: Named,
) -> Read<(Refiner<'a>, usize)>
    requires tokens { AreTokens (tokens_of tokens.now) }
    requires front { IsAt (Name (named_word (named_of tactic))) at tokens.now }
    ensures { (room : ℕ) → ReadsUnit result at room tokens.now }
{
    let name = read_name(alloc, tokens, at + 1)?;
    Ok((named_tactic(tactic, name), at + 2))
}

/// A refiner and the quoted term behind it.
pub fn read_by_quote<'a>(
    alloc: Global,
    tokens: &[Token<'a>],
    at: usize,
    tactic: Quoted,
) -> Read<(Refiner<'a>, usize)>
    requires { IsAt (Name (quoted_word (quoted_of tactic))) at tokens.now }
    ensures { (room : ℕ) → ReadsUnit result at room tokens.now }
{
    let (steps, next) = read_quote(alloc, tokens, at + 1)?;
    Ok((quoted_tactic(tactic, steps), next))
}

// The names of a list in brackets, and the place behind it.
fn read_names(alloc: Global, tokens: &[Token<'_>], at: usize) -> Read<(Vec<String>, usize)>
    requires { AreTokens (tokens_of tokens.now) }
    ensures { ReadsNames result at tokens.now }
{
    if !is_mark(tokens, at, Symbol::OpenBracket) {
        return Err(ReadError::Syntax);
    }
    let mut names = Vec::new(alloc);
    if is_mark(tokens, at + 1, Symbol::CloseBracket) {
        return Ok((names, at + 2));
    }
    let first = read_name(alloc, tokens, at + 1)?;
    names.push(first)?;
    let mut next = at + 2;
    while is_mark(tokens, next, Symbol::Semicolon) {
        let name = read_name(alloc, tokens, next + 1)?;
        names.push(name)?;
        next += 2;
    }
    if !is_mark(tokens, next, Symbol::CloseBracket) {
        return Err(ReadError::Syntax);
    }
    Ok((names, next + 1))
}

/// CONV_TAC and the conversion behind it, or REWRITE_TAC and the names behind it.
pub fn read_other<'a>(
    alloc: Global,
    tokens: &[Token<'a>],
    at: usize,
    other: Other,
    room: usize,
) -> Read<(Refiner<'a>, usize)>
    requires tokens { AreTokens (tokens_of tokens.now) }
    requires front { IsAt (Name (other_word other)) at tokens.now }
    ensures { ReadsUnit result at room tokens.now }
{
    match other {
        Other::Conv => {
            let (conv, next) = read_unit(alloc, tokens, at + 1, room)?;
            Ok((Tac::Leaf(Leaf::Conv(conv)), next))
        }
        Other::Rewrite => {
            if room == 0 {
                return Err(ReadError::Syntax);
            }
            let (names, next) = read_names(alloc, tokens, at + 1)?;
            Ok((Tac::Leaf(Leaf::Rewrite(names)), next))
        }
    }
}
