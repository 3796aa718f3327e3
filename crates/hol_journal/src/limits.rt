// Theorems and types within the limits. Nothing is computed here: the clauses are laws, for callers' proofs.
ghost use Rattle.std.specs.Prelude.{◌≡◌, true};
ghost use Rattle.std.specs.List.{list_all};
ghost use Rattle.hol_model.specs.Terms.Nameless.{image};
ghost use Rattle.hol_model.specs.Terms.Measures.{nameless_within_limits};
ghost use Rattle.hol_model.specs.Terms.NamedTerm.{type_fits};
ghost use Rattle.hol_journal.specs.Limits.{fits_log, FitsLog};

use hol_kernel::Thm;
use hol_terms::Term;
use hol_types::Ty;

/// A theorem's terms are within the limits.
pub fn within_limits(theorem: &Thm)
    ensures { FitsLog theorem.now }
{
    term_fits(theorem.concl());
    terms_fit(theorem.hyps());
}

fn terms_fit(terms: &[Term])
    ensures { list_all fits_log terms.now ≡ true }
{
    for term in terms {
        term_fits(term);
    }
}

fn term_fits(term: &Term)
    ensures { fits_log term.now ≡ true }
{
    let _type = term.ty();
    term.well_formed();
}

// A type is within the limit.
pub(crate) fn type_fit(ty: &Ty)
    ensures { type_fits ty.now ≡ true }
{
    let _nodes = ty.nodes();
}
