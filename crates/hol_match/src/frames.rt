// The binders around a part of the pattern (on the left) and the part of the term in its place.
ghost use Rattle.std.specs.Prelude.{◌≡◌};
ghost use Rattle.hol_model.specs.Terms.NamedTerm as terms;
ghost use Rattle.hol_match.specs.Frames.{sides_of};
ghost use Rattle.hol_match.specs.Walk as spec;
ghost use Rattle.hol_model.specs.Terms.Substitution as substitution;
ghost use Rattle.hol_match.specs.Walk.{left_of};

use hol_alpha::Frames;
use hol_terms::{Parts, Term, same_variable};
use hol_types::Ty;

// Whether the variable of this name and type is bound in the pattern.
fn is_left_bound(frames: &Frames<'_>, name: &str, ty: &Ty) -> bool
    ensures { result ≡ terms.is_bound_by (left_of (sides_of frames.now)) name.now ty.now }
{
    match frames {
        Frames::Outermost => false,
        Frames::Under(left, _, outer) => same_variable(left.name, left.ty, name, ty)
            || is_left_bound(outer, name, ty),
    }
}

/// For a variable that is bound in the pattern, whether the term is bound by the binder in the place of that variable's;
/// `None` for one that is free.
pub fn bound_alike(frames: &Frames<'_>, name: &str, ty: &Ty, term: &Term) -> Option<bool>
    ensures { result ≡ spec.bound_alike (sides_of frames.now) name.now ty.now term.now }
{
    match frames {
        Frames::Outermost => None,
        Frames::Under(left, right, outer) => {
            let is_right = is_variable_named(right.name, right.ty, term);
            if same_variable(left.name, left.ty, name, ty) {
                return Some(is_right);
            }
            if !is_right {
                return bound_alike(outer, name, ty, term);
            }
            if is_left_bound(outer, name, ty) {
                Some(false)
            } else {
                None
            }
        }
    }
}

/// Whether a term is the variable of this name and type.
pub fn is_variable_named(name: &str, ty: &Ty, term: &Term) -> bool
    ensures { result ≡ substitution.is_variable_named name.now ty.now term.now }
{
    match term.parts() {
        Parts::Variable(other, s) => same_variable(other, s, name, ty),
        _ => false,
    }
}
