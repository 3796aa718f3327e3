// Sequents, read from texts.
ghost use Rattle.std.specs.Prelude.{◌≡◌, ◌∷◌, [], List, IfOk, IfErr};
ghost use Rattle.hol_model.specs.Texts.TermGrammar.{TermTree};
ghost use Rattle.hol_model.specs.Kernel.Rules.{is_formula};
ghost use Rattle.hol_model.specs.Texts.SequentGrammar.{formula_meaning, ReadsSequent, RefusesSequent};
ghost use Rattle.hol_model.specs.Kernel.Outcome.{Answers};
ghost use Rattle.hol_syntax.specs.Scope.{scope_of};
ghost use Rattle.hol_syntax_grammar.specs.Steps.{flat_steps_of};
ghost use Rattle.hol_syntax_grammar.specs.TermSteps.{flat_steps, term_steps};
ghost use Rattle.hol_syntax_grammar.specs.Views.{token_of, tokens_of};
ghost use Rattle.hol_syntax.specs.SequentStates.{separates, IsFound, ParsesList, ParsesSequent, MeansFormulas};
ghost use Rattle.hol_syntax.specs.UniqueSequents.{SequentsAreUnambiguous};

use crate::evaluate::term_of_steps;
use crate::scope::Scope;
use hol_model::{Fault, Symbol};
use hol_syntax_grammar::{ReadError, TermStep, Token, parse_term, tokens_in};
use hol_terms::Term;
use std::alloc::Global;

// What stands between the terms of a sequent.
#[derive(Clone, Copy)]
enum Separator {
    Comma,
    Turnstile,
}

fn separates(separator: Separator, token: Token) -> bool
    ensures { result ≡ separates separator (token_of token.entry) }
{
    match separator {
        Separator::Comma => match token {
            Token::Mark(Symbol::Comma) => true,
            Token::Name(_) | Token::Number(_) | Token::Mark(_) => false,
        },
        Separator::Turnstile => match token {
            Token::Mark(Symbol::Turnstile) => true,
            Token::Name(_) | Token::Number(_) | Token::Mark(_) => false,
        },
    }
}

// Where the first separator of this kind stands.
fn find(separator: Separator, tokens: &[Token]) -> Option<usize>
    ensures { IsFound result separator (tokens_of tokens.now) }
{
    for (i, token) in tokens.iter().enumerate() {
        if separates(separator, *token) {
            return Some(i);
        }
    }
    None
}

// The steps of the terms, which have commas between them.
fn parse_list<'a>(alloc: Global, tokens: &[Token<'a>]) -> Result<Vec<Vec<TermStep<'a>>>, ReadError>
    ensures { ParsesList result (tokens_of tokens.now) }
{
    let mut parsed = Vec::new(alloc);
    if tokens.is_empty() {
        return Ok(parsed);
    }
    let mut at = 0;
    while let Some(count) = find(Separator::Comma, &tokens[at..]) {
        let steps = parse_term(alloc, &tokens[at..at + count])?;
        parsed.push(steps)?;
        at += count + 1;
    }
    let last = parse_term(alloc, &tokens[at..])?;
    parsed.push(last)?;
    Ok(parsed)
}

// The steps of the hypotheses and of the conclusion.
fn parse_sequent<'a>(
    alloc: Global,
    tokens: &[Token<'a>],
) -> Result<(Vec<Vec<TermStep<'a>>>, Vec<TermStep<'a>>), ReadError>
    ensures { ParsesSequent result (tokens_of tokens.now) }
{
    let Some(count) = find(Separator::Turnstile, tokens) else {
        return Err(ReadError::Syntax);
    };
    let hypotheses = parse_list(alloc, &tokens[..count])?;
    let conclusion = parse_term(alloc, &tokens[count + 1..])?;
    Ok((hypotheses, conclusion))
}

// The term of the type of truth values that the steps of a tree make.
fn formula_of_steps(alloc: Global, scope: &Scope, steps: &[TermStep]) -> Result<Term, Fault>
    ensures { (tree : TermTree) → flat_steps_of steps.now ≡ flat_steps (term_steps tree)
        → Answers result (formula_meaning (scope_of scope.now) tree) }
{
    let term = term_of_steps(alloc, scope, steps)?;
    if is_a_formula(&term) {
        Ok(term)
    } else {
        Err(Fault::NotBool)
    }
}

// Whether the term's type is that of truth values.
fn is_a_formula(term: &Term) -> bool
    ensures { result ≡ is_formula term.now }
{
    term.ty().is_bool()
}

// The terms of the type of truth values that the steps make, one after another.
fn formulas_of_steps(
    alloc: Global,
    scope: &Scope,
    parsed: &[Vec<TermStep>],
) -> Result<Vec<Term>, Fault>
    ensures { MeansFormulas result (scope_of scope.now) parsed.now }
{
    let mut terms = Vec::new(alloc);
    for steps in parsed {
        let term = formula_of_steps(alloc, scope, steps)?;
        terms.push(term)?;
    }
    Ok(terms)
}

/// The hypotheses and the conclusion that a text is read as.
pub fn read_sequent(alloc: Global, scope: &Scope, text: &[u8]) -> Result<(Vec<Term>, Term), Fault>
    ensures found { IfOk result (λ sequent. ReadsSequent (scope_of scope.now) text.now (sequent.0.items, sequent.1)) }
    ensures refused { IfErr result (λ fault. RefusesSequent (scope_of scope.now) text.now fault) }
{
    let tokens = tokens_in(alloc, text)?;
    let (parsed, last) = parse_sequent(alloc, &tokens)?;
    let hypotheses = formulas_of_steps(alloc, scope, &parsed)?;
    let conclusion = formula_of_steps(alloc, scope, &last)?;
    Ok((hypotheses, conclusion))
}

/// A text is spelled as one tree of a sequent.
pub fn sequents_are_unambiguous()
    ensures { SequentsAreUnambiguous }
{}
