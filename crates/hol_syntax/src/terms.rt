// Terms, read from texts.
ghost use Rattle.std.specs.Prelude.{IfOk, IfErr};
ghost use Rattle.hol_model.specs.Texts.Texts.{ReadsTerm, RefusesTerm, TermsAreUnambiguous};
ghost use Rattle.hol_syntax.specs.Scope.{scope_of};

use crate::evaluate::term_of_steps;
use crate::scope::Scope;
use hol_model::Fault;
use hol_syntax_grammar::{parse_term, tokens_in};
use hol_terms::Term;
use std::alloc::Global;

/// The term that a text is read as.
pub fn read_term(alloc: Global, scope: &Scope, text: &[u8]) -> Result<Term, Fault>
    ensures found { IfOk result (λ term. ReadsTerm (scope_of scope.now) text.now term) }
    ensures refused { IfErr result (λ fault. RefusesTerm (scope_of scope.now) text.now fault) }
{
    let tokens = tokens_in(alloc, text)?;
    let steps = parse_term(alloc, &tokens)?;
    term_of_steps(alloc, scope, &steps)
}

/// A text is spelled as one tree of terms.
pub fn terms_are_unambiguous()
    ensures { TermsAreUnambiguous }
{}
