// The claims of a log.
ghost use Rattle.std.specs.Prelude.{◌≡◌, ◌<◌, slice_get, length, IfOk, OnOk, IfErr};
ghost use Rattle.std.specs.List.{slice_index_or};
ghost use Rattle.hol_model.specs.declared.fault.Fault.TheVariants.{Memory};
ghost use Rattle.hol_model.specs.Logs.LogClaims.{claim_text};
ghost use Rattle.hol_logtext.specs.Writing.{Appends};
ghost use Rattle.hol_check_rules.specs.State.{IsContents, IsFittingTheorem, sequent_in};
ghost use Rattle.hol_check.specs.PrintedClaims.{sequent_bytes, claim_bytes, claims_in, no_claim};
ghost use Rattle.hol_check.specs.Claims.{claim_of};

use crate::print::{print, print_listed, print_term};
use crate::view::TermView;
use hol_check_lines::log::Log;
use hol_check_rules::state::{Contents, Theorem};
use hol_check_terms::terms::Terms;
use hol_model::Fault;
use std::alloc::{AllocError, Global};
use std::marker::Model;
use std::rc::Rc;

/// A claim of a log: a name for a sequent of terms without bound names. The claims of a log share its types and terms.
#[derive(Drop)]
pub struct Claim {
    log: Rc<Log>,
    place: usize,
}

impl Model for Claim {
    ghost use Rattle.hol_model.specs.Logs.LogState.{LogClaim};
    ghost use Rattle.hol_check_lines.specs.LogCode.{claim_code};

    ghost Value = { LogClaim };

    ghost coded = { claim_code };

    ghost use Rattle.hol_check.specs.Claims.{viewed_claim, IsPlaced};

    ghost view = { viewed_claim };

    ghost invariant = { IsPlaced };
}

impl Claim {
    // The terms of the claim's log, the number of its name, and its theorem.
    fn parts(&self) -> (&Terms, usize, &Theorem)
        ensures name { result.1 < length result.0.now.names }
        ensures theorem { IsFittingTheorem result.0.now.terms result.2.now }
        ensures claim { self.now ≡ claim_of result.0.now result.1 result.2.now }
    {
        let (table, contents) = self.log.parts();
        let claim = contents.claims[self.place];
        (table, claim.name, &contents.theorems[claim.theorem])
    }

    /// The bytes of the claim's name.
    pub fn name(&self) -> &[u8]
        ensures { result.now ≡ self.now.name }
    {
        let (table, name, _theorem) = self.parts();
        table.name_bytes(name)
    }

    /// The number of hypotheses.
    pub fn hyp_count(&self) -> usize
        ensures { result ≡ length self.now.sequent.hypotheses }
    {
        let (_table, _name, theorem) = self.parts();
        theorem.hypotheses.len()
    }

    /// The hypothesis at a place; the hypotheses stand in the order of terms, each once.
    pub fn hyp(&self, place: usize) -> Option<TermView<'_>>
        ensures { result ≡ slice_get self.now.sequent.hypotheses place }
    {
        let (table, _name, theorem) = self.parts();
        match theorem.hypotheses.get(place) {
            Some(number) => Some(TermView::of(table, *number)),
            None => None,
        }
    }

    /// The conclusion.
    pub fn concl(&self) -> TermView<'_>
        ensures { result ≡ self.now.sequent.conclusion }
    {
        let (table, _name, theorem) = self.parts();
        TermView::of(table, theorem.conclusion)
    }
}

/// The claims of a log, in the order of their lines.
pub(crate) fn claims_of(alloc: Global, log: Rc<Log>) -> Result<Vec<Claim>, Fault>
    ensures claims { IfOk result (λ claims. claims.items ≡ log.value.claims) }
    ensures refused { IfErr result (λ fault. fault ≡ Memory) }
{
    let count = log.claims();
    let mut claims = Vec::new(alloc);
    let mut place = 0;
    while place < count {
        let log = log.clone()?;
        claims.push(Claim { log, place })?;
        place += 1;
    }
    Ok(claims)
}

// Prints the sequent of a theorem.
fn print_sequent(table: &Terms, theorem: &Theorem, out: &mut Vec<u8>) -> Result<(), AllocError>
    requires { IsFittingTheorem table.now.terms theorem.now }
    ensures { OnOk result (Appends out.old.items out.new.items (sequent_bytes (sequent_in table.now.terms theorem.now))) }
{
    print_listed(table, theorem.hypotheses.as_slice(), out)?;
    print(out, b"|- ")?;
    print_term(table, theorem.conclusion, out)
}

// Prints the claim at a place: its name, `: ` and its sequent.
fn print_claim(
    table: &Terms,
    contents: &Contents,
    place: usize,
    out: &mut Vec<u8>,
) -> Result<(), AllocError>
    requires kept { IsContents table.now contents.now }
    requires placed { place < length contents.now.claims.items }
    ensures { OnOk result (Appends out.old.items out.new.items (claim_bytes (slice_index_or (claims_in table.now contents.now) place no_claim))) }
{
    let claim = contents.claims[place];
    print(out, table.name_bytes(claim.name))?;
    print(out, b": ")?;
    print_sequent(table, &contents.theorems[claim.theorem], out)
}

/// The text of a claim: its name, `: `, its hypotheses with commas between them, `|- ` and its conclusion.
///
/// A free variable is `(x:ty)`, a constant `[c:ty]`, a variable of a binder `#n`, 0 being the innermost, an application
/// `(f a)` and an abstraction `(\ty. body)`. Refusals: Memory.
pub fn text_of_claim(alloc: Global, claim: &Claim) -> Result<Vec<u8>, Fault>
    ensures text { IfOk result (λ text. text.items ≡ claim_text claim.now) }
    ensures refused { IfErr result (λ fault. fault ≡ Memory) }
{
    let (table, contents) = claim.log.parts();
    let mut out = Vec::new(alloc);
    print_claim(table, contents, claim.place, &mut out)?;
    Ok(out)
}
