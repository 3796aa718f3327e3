// Whether a part of the term is free of the binders around it.
ghost use Rattle.std.specs.Prelude.{◌≡◌};
ghost use Rattle.std.specs.Option.{is_some};
ghost use Rattle.hol_model.specs.Terms.Nameless.{binder_index};
ghost use Rattle.hol_match.specs.Frames.{sides_of, binders_of, passed_of};
ghost use Rattle.hol_match.specs.Inside.{CoversOuter};
ghost use Rattle.hol_match.specs.Walk.{right_of};
ghost use Rattle.hol_match.specs.Walk as spec;

use hol_alpha::Frames;
use hol_terms::{NameClasses, Parts, Term, same_variable};
use hol_types::Ty;

/// The binders that were passed on the way into a part of the term, and those around the part.
#[derive(Drop)]
pub enum Inside<'a> {
    Around(&'a Frames<'a>),
    // The name and the type of a binder that was passed, and those outside it.
    Passed(&'a str, &'a Ty, &'a Inside<'a>),
}

/// Whether no variable of a part of the term is bound by a binder around it. Only what has a name of the class of such a
/// binder's is walked.
#[tactic(auto, using(crate::proofs::ClosedParts::closed))]
pub fn is_closed(frames: &Frames<'_>, term: &Term) -> bool
    ensures { result ≡ spec.stays_inside 0 (right_of (sides_of frames.now)) term.now }
{
    stays_inside(&Inside::Around(frames), names_of_binders(frames), term)
}

// The classes of the names of the term's binders around a part.
#[tactic(auto, using(crate::proofs::ClosedParts::closed))]
fn names_of_binders(frames: &Frames<'_>) -> NameClasses
    ensures { CoversOuter result.bits 0 (right_of (sides_of frames.now)) }
{
    match frames {
        Frames::Outermost => NameClasses::none(),
        Frames::Under(_, right, outer) => {
            NameClasses::of_name(right.name).union(names_of_binders(outer))
        }
    }
}

// Whether no variable of a term is bound by a binder around the part, given the classes of those binders' names.
#[tactic(auto, using(crate::proofs::ClosedParts::closed))]
fn stays_inside(scope: &Inside<'_>, names: NameClasses, term: &Term) -> bool
    requires { CoversOuter names.bits (passed_of scope.now) (binders_of scope.now) }
    ensures { result ≡ spec.stays_inside (passed_of scope.now) (binders_of scope.now) term.now }
{
    if !names.meets(term.names()) {
        return true;
    }
    match term.parts() {
        Parts::Variable(name, ty) => is_inside(&*scope, name, ty),
        Parts::Constant(_, _) => true,
        Parts::Combination(function, argument) => stays_inside(&*scope, names, function)
            && stays_inside(&*scope, names, argument),
        Parts::Abstraction(name, ty, body) => {
            stays_inside(&Inside::Passed(name, ty, &*scope), names, body)
        }
    }
}

// Whether the variable of this name and type is free, or bound by a binder that was passed.
fn is_inside(scope: &Inside<'_>, name: &str, ty: &Ty) -> bool
    ensures { result ≡ spec.is_inside (passed_of scope.now) (binder_index (binders_of scope.now) name.now ty.now) }
{
    match scope {
        Inside::Around(frames) => !is_right_bound(frames, name, ty),
        Inside::Passed(other, s, outer) => same_variable(other, s, name, ty)
            || is_inside(outer, name, ty),
    }
}

// Whether the variable of this name and type is bound by a binder around the part.
fn is_right_bound(frames: &Frames<'_>, name: &str, ty: &Ty) -> bool
    ensures { result ≡ is_some (binder_index (right_of (sides_of frames.now)) name.now ty.now) }
{
    match frames {
        Frames::Outermost => false,
        Frames::Under(_, right, outer) => same_variable(right.name, right.ty, name, ty)
            || is_right_bound(outer, name, ty),
    }
}
