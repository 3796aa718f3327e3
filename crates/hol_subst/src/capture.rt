// Which variables are free in a term after the replacement, and which binders would capture them.
ghost use Rattle.std.specs.Prelude.{◌≡◌, List, [], ◌∷◌, IfOk, IfErr, IsTrue};
ghost use Rattle.hol_model.specs.Terms.HolType.{HolType, type_put};
ghost use Rattle.hol_model.specs.Terms.NamedTerm.{NamedTerm, Binder, variable};
ghost use Rattle.hol_model.specs.Terms.Substitution.{occurs_free};
ghost use Rattle.hol_model.specs.declared.fault.Fault.TheVariants.{Memory};
ghost use Rattle.hol_subst.specs.Entries.{instance_of};
ghost use Rattle.hol_subst.specs.Replacements.{entries_of, binders_of};
ghost use Rattle.hol_subst.specs.Replacing.{term_after};
ghost use Rattle.hol_subst.specs.Sought.{IsBroughtBy, IsBroughtFrom, IsKeptIn, classes_brought};
ghost use Rattle.hol_subst.specs.Sought as spec;
ghost use Rattle.hol_subst.specs.VariableTypes.{HasVariables, known_table, table_of};

use crate::known_variables::{
    self, KnownVariables, admits, becomes, has_instance, has_other_instance,
};
use crate::passed::{Passed, is_bound};
use crate::place::Place;
use crate::replacements::Replacements;
use crate::replacing::Replacing;
use crate::touched::{changes_type, changes_types};
use crate::variable::Variable;
use crate::variable_types::VariableTypes;
use crate::walks::Walks;
use hol_model::Fault;
use hol_terms::{NameClasses, Parts, Term, is_free};
use hol_types::Ty;
use std::alloc::Global;

// The classes of the names of variables in whose place the sought one may stand free: of those that are replaced by a
// term in which it is free, and of those that become it.
#[derive(Clone, Copy)]
struct Sources {
    brought_by: NameClasses,
    kept_in: NameClasses,
}

/// Whether the sought variable is free in a term, which stands under the passed binders, after the replacement. The hint
/// tells where what becomes it may stand.
#[tactic(auto, using(crate::proofs::Standing::keeping_classes))]
pub(crate) fn is_free_after(
    term: &Term,
    sought: Variable<'_>,
    passed: &Passed<'_>,
    replacing: &Replacing<'_>,
    hint: Place,
    known: &KnownVariables<'_>,
) -> bool
    requires { HasVariables (known_table known.now) term.now }
    ensures { result ≡ occurs_free sought.entry.name.now sought.entry.ty.now (term_after replacing.now (binders_of passed.now) term.now) }
{
    if stands_at(term, hint, sought, &*passed, &*replacing) {
        return true;
    }
    let mut place = Place::first();
    let sources = Sources {
        brought_by: brought_by(sought, &*passed, &*replacing, &*known),
        kept_in: kept_in(sought, replacing.types, &*known),
    };
    stands_after(term, sources, sought, &*passed, &*replacing, &mut place)
}

/// Whether a binder, its type replaced by the new one, would capture in its body after the replacement. The walks tell
/// where a captured variable may stand in the body, and are told where one was found, or how far none was.
#[tactic(auto, using(crate::proofs::Standing::keeping_classes))]
pub(crate) fn captures(
    name: &str,
    ty: &Ty,
    new_type: &Ty,
    body: &Term,
    replacing: &Replacing<'_>,
    known: &KnownVariables<'_>,
    walks: &mut Walks,
) -> bool
    requires typed { new_type.now ≡ type_put replacing.now.types.now ty.now }
    requires known { HasVariables (known_table known.now) body.now }
    ensures { result ≡ occurs_free name.now new_type.now (term_after replacing.now ((name.now, ty.now) ∷ []) body.now) }
{
    let outermost = Passed::Outermost;
    let passed = Passed::Under(name, ty, &outermost);
    let captured = Variable { name, ty: new_type };
    if stands_at(body, walks.hint, captured, &passed, &*replacing) {
        return true;
    }
    let mut place = Place::first();
    let sources = Sources {
        brought_by: brought_by(captured, &passed, &*replacing, &*known),
        kept_in: kept_in_body(name, ty, new_type, body, replacing.types, &*known),
    };
    if !stands_after(body, sources, captured, &passed, &*replacing, &mut place) {
        if are_any(sources) {
            *walks = walks.and_in_vain(u64::from(body.nodes()));
        }
        return false;
    }
    walks.hint = place.before();
    true
}

// The classes of the variables that may be free, but that the passed binders do not bind, and that are replaced by a
// term in which the sought one is free.
#[tactic(auto, using(crate::proofs::Standing::bringing_classes))]
fn brought_by(
    sought: Variable<'_>,
    passed: &Passed<'_>,
    replacing: &Replacing<'_>,
    known: &KnownVariables<'_>,
) -> NameClasses
    ensures { IsBroughtFrom (known_table known.now) result.bits (entries_of replacing.now.replacements.now) (binders_of passed.now) sought.entry.name.now sought.entry.ty.now }
{
    if !replacing
        .touched
        .new
        .meets(NameClasses::of_name(sought.name))
    {
        return NameClasses::none();
    }
    brought_by_entries(replacing.replacements, sought, &*passed, &*known)
}

#[tactic(auto, using(crate::proofs::Standing::bringing_classes))]
fn brought_by_entries(
    replacements: &Replacements<'_>,
    sought: Variable<'_>,
    passed: &Passed<'_>,
    known: &KnownVariables<'_>,
) -> NameClasses
    ensures { IsBroughtFrom (known_table known.now) result.bits (entries_of replacements.now) (binders_of passed.now) sought.entry.name.now sought.entry.ty.now }
{
    match replacements {
        Replacements::Pairs(pairs) => brought_by_pairs(pairs, sought, &*known),
        Replacements::Keeping(_, _, outer) => brought_by_entries(outer, sought, &*passed, &*known),
        Replacements::Putting(other, s, new, outer) => {
            let classes = brought_by_entries(outer, sought, &*passed, &*known);
            if is_bound(&*passed, other, s) {
                return classes;
            }
            if !is_free(new, sought.name, sought.ty) {
                return classes;
            }
            if admits(&*known, other, s) {
                classes.union(NameClasses::of_name(other))
            } else {
                classes
            }
        }
    }
}

fn brought_by_pairs(
    pairs: &[(Term, Term)],
    sought: Variable<'_>,
    known: &KnownVariables<'_>,
) -> NameClasses
    ensures { result.bits ≡ classes_brought (known_table known.now) sought.entry.name.now sought.entry.ty.now 0 pairs.now }
{
    NameClasses {
        bits: pairs.iter().fold(0, |bits, pair| {
            if is_free(&pair.0, sought.name, sought.ty)
                && known_variables::may_have(known, &pair.1)
            {
                bits | pair.1.names().bits
            } else {
                bits
            }
        }),
    }
}

// The classes of the variables that are free under a binder and may become the binder's.
#[tactic(auto, using(crate::proofs::Standing::keeping_classes))]
fn kept_in_body(
    name: &str,
    ty: &Ty,
    new_type: &Ty,
    body: &Term,
    types: &[(Ty, Ty)],
    known: &KnownVariables<'_>,
) -> NameClasses
    requires typed { new_type.now ≡ type_put types.now ty.now }
    requires known { HasVariables (known_table known.now) body.now }
    ensures { IsKeptIn result.bits types.now ((name.now, ty.now) ∷ []) name.now new_type.now body.now }
{
    if !changes_type(types, ty) && !changes_types(types, body) {
        return NameClasses::none();
    }
    if !has_other_instance(&*known, name, ty, types, new_type) {
        return NameClasses::none();
    }
    NameClasses::of_name(name)
}

// The classes of the variables that may become the sought one.
#[tactic(auto, using(crate::proofs::Standing::keeping_classes))]
fn kept_in(sought: Variable<'_>, types: &[(Ty, Ty)], known: &KnownVariables<'_>) -> NameClasses
    ensures { (binders : List Binder) (term : NamedTerm) → HasVariables (known_table known.now) term
        → IsKeptIn result.bits types.now binders sought.entry.name.now sought.entry.ty.now term }
{
    if !has_instance(&*known, sought.name, types, sought.ty) {
        return NameClasses::none();
    }
    NameClasses::of_name(sought.name)
}

/// The types of a term's variables, known where a binder of the term may capture.
pub(crate) fn variables_where_needed(
    alloc: Global,
    term: &Term,
    replacing: &Replacing<'_>,
) -> Result<VariableTypes, Fault>
    ensures ok { IfOk result (λ variables. HasVariables (table_of variables) term.now) }
    ensures err { IfErr result (λ fault. fault ≡ Memory) }
{
    if may_capture(term, &*replacing) {
        return VariableTypes::of(alloc, term);
    }
    Ok(VariableTypes::unknown(alloc))
}

// Whether a binder may capture: a type under it changes, or its variable is free in a new term. Nothing rests on the
// answer but the time that the replacement takes.
fn may_capture(term: &Term, replacing: &Replacing<'_>) -> bool {
    if !term.has_binders() || replacing.stays(term) {
        return false;
    }
    match term.parts() {
        Parts::Variable(_, _) | Parts::Constant(_, _) => false,
        Parts::Combination(function, argument) => {
            may_capture(function, &*replacing) || may_capture(argument, &*replacing)
        }
        Parts::Abstraction(name, ty, body) => changes_types(replacing.types, body)
            || is_put(name, ty, &*replacing)
            || may_capture(body, &*replacing),
    }
}

// Whether a variable is free in a new term.
fn is_put(name: &str, ty: &Ty, replacing: &Replacing<'_>) -> bool {
    replacing.touched.new.meets(NameClasses::of_name(name))
        && is_put_by(replacing.replacements, name, ty)
}

fn is_put_by(replacements: &Replacements<'_>, name: &str, ty: &Ty) -> bool {
    match replacements {
        Replacements::Pairs(pairs) => pairs.iter().any(|pair| is_free(&pair.0, name, ty)),
        Replacements::Keeping(_, _, outer) => is_put_by(outer, name, ty),
        Replacements::Putting(_, _, new, outer) => {
            is_free(new, name, ty) || is_put_by(outer, name, ty)
        }
    }
}

// Whether there is anything to walk for.
fn are_any(sources: Sources) -> bool {
    sources.brought_by.union(sources.kept_in).bits != 0
}

// Whether no variable in whose place the sought one may stand is in the term.
fn is_apart(term: &Term, sources: Sources) -> bool
    ensures { result ≡ spec.is_apart sources.brought_by.bits sources.kept_in.bits term.now }
{
    !sources
        .brought_by
        .union(sources.kept_in)
        .meets(term.names())
}

// Whether the sought variable is free in what becomes of the variable at a place of a term.
#[tactic(auto, using(crate::proofs::Hinted::standing_at))]
fn stands_at(
    term: &Term,
    place: Place,
    sought: Variable<'_>,
    passed: &Passed<'_>,
    replacing: &Replacing<'_>,
) -> bool
    ensures { IsTrue result → IsTrue (occurs_free sought.entry.name.now sought.entry.ty.now (term_after replacing.now (binders_of passed.now) term.now)) }
{
    if !place.is_in(term) {
        return false;
    }
    let inside = place.in_first_part();
    match term.parts() {
        Parts::Variable(name, ty) => stands_here(name, ty, sought, &*passed, &*replacing),
        Parts::Constant(_, _) => false,
        Parts::Combination(function, argument) => {
            if inside.is_in(function) {
                return stands_at(function, inside, sought, &*passed, &*replacing);
            }
            stands_at(
                argument,
                place.in_argument(function),
                sought,
                &*passed,
                &*replacing,
            )
        }
        Parts::Abstraction(name, ty, body) => stands_at(
            body,
            inside,
            sought,
            &Passed::Under(name, ty, &*passed),
            &*replacing,
        ),
    }
}

// Whether the sought variable is free in a term after the replacement, given where it may be. The place goes on by the
// nodes up to where it is found.
#[tactic(auto, using(crate::proofs::Standing::seeking))]
fn stands_after(
    term: &Term,
    sources: Sources,
    sought: Variable<'_>,
    passed: &Passed<'_>,
    replacing: &Replacing<'_>,
    place: &mut Place,
) -> bool
    requires brought { IsBroughtBy sources.brought_by.bits (entries_of replacing.now.replacements.now) (binders_of passed.now) sought.name.now sought.ty.now term.now }
    requires kept { IsKeptIn sources.kept_in.bits replacing.now.types.now (binders_of passed.now) sought.name.now sought.ty.now term.now }
    ensures { result ≡ occurs_free sought.entry.name.now sought.entry.ty.now (term_after replacing.now (binders_of passed.now) term.now) }
{
    if is_apart(term, sources) {
        place.pass(term.nodes());
        return false;
    }
    place.pass(1);
    match term.parts() {
        Parts::Variable(name, ty) => stands_for(name, ty, sources, sought, &*passed, &*replacing),
        Parts::Constant(_, _) => false,
        Parts::Combination(function, argument) => {
            stands_after(
                function,
                sources,
                sought,
                &*passed,
                &*replacing,
                &mut *place,
            ) || stands_after(
                argument,
                sources,
                sought,
                &*passed,
                &*replacing,
                &mut *place,
            )
        }
        Parts::Abstraction(name, ty, body) => stands_after(
            body,
            sources,
            sought,
            &Passed::Under(name, ty, &*passed),
            &*replacing,
            &mut *place,
        ),
    }
}

// Whether the sought variable is free in what stands for another, which stands under the passed binders, after the
// replacement.
#[tactic(auto, using(crate::proofs::Standing::standing_for))]
fn stands_for(
    name: &str,
    ty: &Ty,
    sources: Sources,
    sought: Variable<'_>,
    passed: &Passed<'_>,
    replacing: &Replacing<'_>,
) -> bool
    requires { IsBroughtBy sources.brought_by.bits (entries_of replacing.now.replacements.now) (binders_of passed.now) sought.name.now sought.ty.now (variable name.now ty.now) }
    ensures { result ≡ occurs_free sought.entry.name.now sought.entry.ty.now (term_after replacing.now (binders_of passed.now) (variable name.now ty.now)) }
{
    if !becomes(name, ty, sought.name, sought.ty, replacing.types)
        && !sources.brought_by.meets(NameClasses::of_name(name))
    {
        return false;
    }
    stands_here(name, ty, sought, &*passed, &*replacing)
}

// The same, wherever it may be.
fn stands_here(
    name: &str,
    ty: &Ty,
    sought: Variable<'_>,
    passed: &Passed<'_>,
    replacing: &Replacing<'_>,
) -> bool
    ensures { result ≡ occurs_free sought.entry.name.now sought.entry.ty.now (term_after replacing.now (binders_of passed.now) (variable name.now ty.now)) }
{
    is_free_in_instance(name, ty, sought, &*replacing) && !is_bound(&*passed, name, ty)
}

// Whether the sought variable is free in what replaces another, or is the other with its new type.
#[tactic(auto, using(crate::proofs::Putting::standing))]
fn is_free_in_instance(name: &str, ty: &Ty, sought: Variable<'_>, replacing: &Replacing<'_>) -> bool
    ensures { result ≡ occurs_free sought.entry.name.now sought.entry.ty.now (instance_of (entries_of replacing.now.replacements.now) replacing.now.types.now name.now ty.now) }
{
    match replacing.look_up(name, ty) {
        Some(new) => is_free(new, sought.name, sought.ty),
        None => becomes(name, ty, sought.name, sought.ty, replacing.types),
    }
}
