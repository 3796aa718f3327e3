// Whether a pattern fits a term.
ghost use Rattle.std.specs.Prelude.{◌≡◌};
ghost use Rattle.hol_model.specs.Rewrites.Matching as spec;

use hol_terms::{Parts, Term};

/// Whether a pattern fits a term, types aside: a variable fits each term, a constant one of its name, a combination one
/// whose parts fit, an abstraction each abstraction. A pattern that matches a term fits it.
pub fn fits(pattern: &Term, term: &Term) -> bool
    ensures { result ≡ spec.fits pattern.now term.now }
{
    match (pattern.parts(), term.parts()) {
        (Parts::Variable(_, _), _) => true,
        (Parts::Constant(name, _), Parts::Constant(other, _)) => name == other,
        (Parts::Combination(f, x), Parts::Combination(g, y)) => fits(f, g) && fits(x, y),
        (Parts::Abstraction(_, _, _), Parts::Abstraction(_, _, _)) => true,
        _ => false,
    }
}
