// The terms of the tables that lines write. All binders around a part are closed in one walk, so that no term is made
// that stands between the first of them and the last.
ghost use Rattle.std.specs.Prelude.{◌≡◌, ◌<◌, ◌≤◌, ◌+◌, ◌∷◌, [], ℕ, List, Some, length, slice_get, IsTrue, IfOk, IfErr, OnOk};
ghost use Rattle.std.specs.Option.{IfSome};
ghost use Rattle.hol_model.specs.declared.limits.TheConstants.{TERM_HEIGHT_LIMIT};
ghost use Rattle.hol_model.specs.declared.fault.Fault.TheVariants.{Memory};
ghost use Rattle.hol_model.specs.Terms.NamedTerm.{NamedTerm};
ghost use Rattle.hol_model.specs.Terms.Nameless.{Nameless, image, image_under, variable_image, binder_index};
ghost use Rattle.hol_model.specs.Logs.LogSequents.{variable_name};
ghost use Rattle.hol_model.specs.Logs.LogState.{term_type};
ghost use Rattle.hol_check_terms.specs.Terms.{TermTable, term_at, IsGrown};
ghost use Rattle.hol_check_written.specs.Written.{IsFree, AreCounted, AreWritten};
ghost use Rattle.hol_check_written.specs.Making.{binders_in, AreCovered, AreBinders, HasEntry, Stays, AreMade, IsWork, IsShallow, Keeps, Numbers};

use crate::memo::{keep, note, recall};
use crate::variables::{Variables, are_apart, joined, no_variable, one_variable};
use crate::written::{Written, WrittenShape, variable_type};
use hol_check_terms::terms::Terms;
use hol_model::{Fault, TERM_HEIGHT_LIMIT};
use indexmap::IndexMap;

/// The binders around a part, the innermost first: the number of a binder's variable, and variables among which are
/// those of this binder and of all outside it.
#[derive(Drop)]
pub(crate) enum Binders<'a> {
    Outermost,
    Under(usize, Variables, &'a Binders<'a>),
}

// Variables among which are those of all binders.
fn covered(binders: &Binders<'_>) -> Variables
    ensures { (terms : List Nameless) → AreBinders terms binders.now → AreCovered result binders.now }
{
    match binders {
        Binders::Outermost => no_variable(),
        Binders::Under(_variable, covers, _outer) => *covers,
    }
}

// Whether it is known that the variable of no binder is free in a part.
fn is_apart(terms: &Terms, binders: &Binders<'_>, part: Variables) -> bool
    requires { AreBinders terms.now.terms binders.now }
    ensures { IsTrue result → (term : NamedTerm) → AreCounted terms.now.terms term part → image_under (binders_in terms.now.terms binders.now) term ≡ image term }
{
    terms.have_one_number();
    are_apart(covered(&*binders), part)
}

// The number of binders between a variable and its own, which is the nearest.
fn index_of(terms: &Terms, binders: &Binders<'_>, number: usize) -> Option<usize>
    requires number { IsFree terms.now.terms number }
    requires binders { AreBinders terms.now.terms binders.now }
    requires shallow { length (binders_in terms.now.terms binders.now) ≤ TERM_HEIGHT_LIMIT }
    ensures index { result ≡ binder_index (binders_in terms.now.terms binders.now) (variable_name (term_at terms.now.terms number)) (term_type (term_at terms.now.terms number)) }
    ensures within { IfSome result (λ index. index < length (binders_in terms.now.terms binders.now)) }
{
    terms.have_one_number();
    match binders {
        Binders::Outermost => None,
        Binders::Under(other, _covers, outer) => {
            if *other == number {
                return Some(0);
            }
            match index_of(terms, outer, number) {
                Some(index) => Some(index + 1),
                None => None,
            }
        }
    }
}

// A variable under binders.
fn variable_under(terms: &mut Terms, binders: &Binders<'_>, number: usize) -> Result<usize, Fault>
    requires number { IsFree terms.old.terms number }
    requires binders { AreBinders terms.old.terms binders.now }
    requires shallow { length (binders_in terms.old.terms binders.now) < TERM_HEIGHT_LIMIT }
    ensures number { IfOk result (λ new. slice_get terms.new.terms new
        ≡ Some (variable_image (binders_in terms.old.terms binders.now) (variable_name (term_at terms.old.terms number)) (term_type (term_at terms.old.terms number)))) }
    ensures refused { IfErr result (λ fault. fault ≡ Memory) }
    ensures grows { IsGrown terms.old terms.new }
{
    match index_of(terms, &*binders, number) {
        Some(index) => terms.bound(index),
        None => Ok(number),
    }
}

// Keeps a part that was made. Lines are within the limits, so that only memory refuses it.
fn keep_made(
    made: &mut IndexMap<usize, usize>,
    known: &mut IndexMap<usize, usize>,
    is_apart: bool,
    line: usize,
    new: Result<usize, Fault>,
) -> Result<usize, Fault>
    ensures { (wanted : Nameless) (earlier now : TermTable) → IsGrown earlier now → IfOk new (λ number. slice_get now.terms number ≡ Some wanted)
        → Keeps wanted is_apart line earlier now made.old.entries made.new.entries known.old.entries known.new.entries result }
{
    match new {
        Ok(number) => keep(made, known, is_apart, line, number),
        Err(_fault) => Err(Fault::Memory),
    }
}

// The number of the term that a line writes, under binders, with what was made for good and under these binders. The
// lines are within the limits, so that only memory refuses it.
#[cycle(number_under)]
fn number_under(
    terms: &mut Terms,
    made: &mut IndexMap<usize, usize>,
    known: &mut IndexMap<usize, usize>,
    written: &[Written],
    binders: &Binders<'_>,
    line: usize,
) -> Result<usize, Fault>
    requires line { line < length written.now }
    requires shallow { IsShallow terms.old written.now (binders_in terms.old.terms binders.now) line }
    requires work { IsWork terms.old written.now binders.now made.old.entries known.old.entries }
    ensures { Numbers written.now (binders_in terms.old.terms binders.now) line terms.old terms.new made.old.entries made.new.entries known.new.entries result }
{
    let part = written[line];
    let is_apart = is_apart(terms, &*binders, part.variables);
    if let Some(number) = recall(made, known, is_apart, line) {
        return Ok(number);
    }
    match part.shape {
        WrittenShape::Variable(number) => variable_under(terms, &*binders, number),
        WrittenShape::Constant(number) => Ok(number),
        WrittenShape::Application(function, argument) => {
            let new_function = number_under(terms, made, known, written, &*binders, function)?;
            let new_argument = number_under(terms, made, known, written, &*binders, argument)?;
            let whole = terms.application(new_function, new_argument);
            keep_made(made, known, is_apart, line, whole)
        }
        WrittenShape::Abstraction(binder, body) => {
            let new_body = number_of_body(terms, made, written, &*binders, binder, body)?;
            let ty = variable_type(terms, binder);
            let whole = terms.abstraction(ty, new_body);
            keep_made(made, known, is_apart, line, whole)
        }
    }
}

// The same of the body of an abstraction that stands under binders.
#[cycle(number_under)]
fn number_of_body(
    terms: &mut Terms,
    made: &mut IndexMap<usize, usize>,
    written: &[Written],
    binders: &Binders<'_>,
    binder: usize,
    body: usize,
) -> Result<usize, Fault>
    requires binder { IsFree terms.old.terms binder }
    requires body { body < length written.now }
    requires shallow { IsShallow terms.old written.now ((variable_name (term_at terms.old.terms binder), term_type (term_at terms.old.terms binder)) ∷ binders_in terms.old.terms binders.now) body }
    requires work { IsWork terms.old written.now binders.now made.old.entries [] }
    ensures { Numbers written.now ((variable_name (term_at terms.old.terms binder), term_type (term_at terms.old.terms binder)) ∷ binders_in terms.old.terms binders.now) body terms.old terms.new
        made.old.entries made.new.entries [] result }
{
    let covers = joined(one_variable(binder), covered(&*binders));
    let mut known = IndexMap::new(terms.alloc());
    number_under(
        terms,
        made,
        &mut known,
        written,
        &Binders::Under(binder, covers, &*binders),
        body,
    )
}

// The number of the term that a line writes.
fn number_of(
    terms: &mut Terms,
    made: &mut IndexMap<usize, usize>,
    written: &[Written],
    line: usize,
) -> Result<usize, Fault>
    requires line { line < length written.now }
    requires written { AreWritten terms.old written.now }
    requires made { AreMade terms.old written.now made.old.entries }
    ensures { Numbers written.now [] line terms.old terms.new made.old.entries made.new.entries [] result }
{
    let mut known = IndexMap::new(terms.alloc());
    number_under(terms, made, &mut known, written, &Binders::Outermost, line)
}

/// Makes the term that a line writes, unless it was made. Memory may be used up here that its line did not need.
pub fn make(
    terms: &mut Terms,
    made: &mut IndexMap<usize, usize>,
    written: &[Written],
    line: usize,
) -> Result<(), Fault>
    requires line { line < length written.now }
    requires written { AreWritten terms.old written.now }
    requires made { AreMade terms.old written.now made.old.entries }
    ensures there { OnOk result (HasEntry made.new.entries line) }
    ensures refused { IfErr result (λ fault. fault ≡ Memory) }
    ensures made { AreMade terms.new written.now made.new.entries }
    ensures stays { Stays made.old.entries made.new.entries }
    ensures grows { IsGrown terms.old terms.new }
{
    let number = number_of(terms, made, written, line)?;
    note(made, line, number)?;
    Ok(())
}
