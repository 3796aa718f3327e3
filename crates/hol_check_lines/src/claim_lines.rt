// The lines of claims, and the last line.
ghost use Rattle.std.specs.Prelude.{◌≡◌, IfOk, IfErr};
ghost use Rattle.std.specs.List.{All};
ghost use Rattle.hol_model.specs.declared.fault.Fault.TheVariants.{Memory};
ghost use Rattle.hol_model.specs.Logs.LogLine.{claim_line};
ghost use Rattle.hol_model.specs.Logs.LogState.{same_terms};
ghost use Rattle.hol_check_rules.specs.Hypotheses.{terms_in};
ghost use Rattle.hol_check_rules.specs.State.{sequent_in, state_of, IsContents, IsFittingTheorem};
ghost use Rattle.hol_check_rules.specs.Judged.{Judges, IsMadeLine};
ghost use Rattle.hol_check_terms.specs.Terms.{term_at};
ghost use Rattle.hol_check_lines.specs.ClaimLines.{AreNamed, is_sequent};
ghost use Rattle.hol_check_changes.specs.Forming.{IsFitting};

use crate::judge::Judged;
use hol_check_rules::hypotheses::set_of;
use hol_check_rules::state::{Addition, Contents, ListedClaim, Theorem, term_at, theorem_at};
use hol_check_terms::terms::Terms;
use hol_model::{Cause, Fault, is_identifier};

/// A claim: `number` where its theorem or one of its terms is not there, `name` where its name is no identifier,
/// `claim` where the theorem has another conclusion or another set of hypotheses.
pub(crate) fn judge_claim(
    terms: &mut Terms,
    contents: &Contents,
    name: &[u8],
    theorem: u32,
    conclusion: u32,
    hypotheses: &[u32],
) -> Judged
    requires contents { IsContents terms.old contents.now }
    requires conclusion { IsMadeLine contents.now conclusion }
    requires hypotheses { All (IsMadeLine contents.now) hypotheses.now }
    ensures { Judges (claim_line name.now theorem conclusion hypotheses.now) contents.now terms.old result terms.new }
{
    let Some(proved) = theorem_at(contents, theorem) else {
        return Ok(Err(Cause::Number));
    };
    let Some(concluded) = term_at(contents, conclusion) else {
        return Ok(Err(Cause::Number));
    };
    let Some(supposed) = terms_named(terms, contents, hypotheses)? else {
        return Ok(Err(Cause::Number));
    };
    if !is_identifier(name) {
        return Ok(Err(Cause::Name));
    }
    let ordered = set_of(terms, &supposed)?;
    if !concludes(terms, proved, concluded, &ordered) {
        return Ok(Err(Cause::Claim));
    }
    let name = terms.name(name)?;
    let theorem = theorem as usize;
    Ok(Ok(Addition::Claimed(ListedClaim { name, theorem })))
}

// Whether a theorem has this conclusion and these hypotheses, in their order.
fn concludes(terms: &Terms, theorem: &Theorem, conclusion: usize, hypotheses: &[usize]) -> bool
    requires theorem { IsFittingTheorem terms.now.terms theorem.now }
    requires conclusion { IsFitting terms.now.terms conclusion }
    requires hypotheses { All (IsFitting terms.now.terms) hypotheses.now }
    ensures { result ≡ is_sequent (term_at terms.now.terms conclusion) (terms_in terms.now.terms hypotheses.now) (sequent_in terms.now.terms theorem.now) }
{
    terms.is_same(conclusion, theorem.conclusion)
        && are_same(terms, hypotheses, &theorem.hypotheses)
}

// Whether two lists of numbers are those of the same terms.
fn are_same(terms: &Terms, first: &[usize], second: &[usize]) -> bool
    requires first { All (IsFitting terms.now.terms) first.now }
    requires second { All (IsFitting terms.now.terms) second.now }
    ensures { result ≡ same_terms (terms_in terms.now.terms first.now) (terms_in terms.now.terms second.now) }
{
    terms.have_one_number();
    first == second
}

// The numbers in the tables of the terms that a line names.
fn terms_named(
    terms: &Terms,
    contents: &Contents,
    lines: &[u32],
) -> Result<Option<Vec<usize>>, Fault>
    requires contents { IsContents terms.now contents.now }
    requires made { All (IsMadeLine contents.now) lines.now }
    ensures named { IfOk result (AreNamed (state_of terms.now contents.now) lines.now terms.now.terms) }
    ensures refused { IfErr result (λ fault. fault ≡ Memory) }
{
    let mut numbers = Vec::new(terms.alloc());
    for line in lines {
        let Some(number) = term_at(contents, *line) else {
            return Ok(None);
        };
        numbers.push(number)?;
    }
    Ok(Some(numbers))
}
