// The pairs (new, old) that a line of an instance names.
ghost use Rattle.std.specs.Prelude.{◌≡◌, IfOk, IfErr};
ghost use Rattle.hol_model.specs.declared.fault.Fault.TheVariants.{Memory};
ghost use Rattle.hol_check_rules.specs.State.{state_of, IsContents};
ghost use Rattle.std.specs.List.{All};
ghost use Rattle.hol_check_lines.specs.Named.{IsMadePair};
ghost use Rattle.hol_check_rules.specs.StepPairs.{FindsTermPairs, FindsTypePairs};
ghost use Rattle.hol_check_lines.specs.LookedUp.{FindsPairs};

use hol_check_rules::state::{Contents, term_at, type_at};
use hol_check_terms::terms::Terms;
use hol_model::Fault;
use std::alloc::Global;

/// The numbers in the tables of pairs of terms.
pub(crate) fn term_pairs(
    terms: &Terms,
    contents: &Contents,
    lines: &[(u32, u32)],
) -> Result<Option<Vec<(usize, usize)>>, Fault>
    requires contents { IsContents terms.now contents.now }
    requires made { All (IsMadePair contents.now) lines.now }
    ensures found { IfOk result (FindsTermPairs (state_of terms.now contents.now) lines.now terms.now.terms) }
    ensures refused { IfErr result (λ fault. fault ≡ Memory) }
{
    pairs_at(terms.alloc(), lines, |line| term_at(contents, line))
}

/// The numbers in the tables of pairs of types.
pub(crate) fn type_pairs(
    terms: &Terms,
    contents: &Contents,
    lines: &[(u32, u32)],
) -> Result<Option<Vec<(usize, usize)>>, Fault>
    requires { IsContents terms.now contents.now }
    ensures found { IfOk result (FindsTypePairs (state_of terms.now contents.now) lines.now terms.now.types) }
    ensures refused { IfErr result (λ fault. fault ≡ Memory) }
{
    pairs_at(terms.alloc(), lines, |line| type_at(contents, line))
}

// What the look-up gives for each pair of lines.
fn pairs_at<F: Fn(u32) -> Option<usize>>(
    alloc: Global,
    lines: &[(u32, u32)],
    at: F,
) -> Result<Option<Vec<(usize, usize)>>, Fault>
    requires { F.IsAlwaysCallable at }
    ensures found { IfOk result (FindsPairs (F.post at) lines.now) }
    ensures refused { IfErr result (λ fault. fault ≡ Memory) }
{
    let mut pairs = Vec::new(alloc);
    for line in lines {
        let (Some(new), Some(old)) = (at(line.0), at(line.1)) else {
            return Ok(None);
        };
        pairs.push((new, old))?;
    }
    Ok(Some(pairs))
}
