// How many inferences TAUT takes, each time right behind the prelude and the laws of tautologies. What it answers is shown by the rows
// `tautologies_*`.
ghost use Rattle.std.specs.Prelude.{◌≡◌, []};
ghost use Rattle.hol_taut_laws.specs.HasLaws.{HasLaws};

use hol_journal::Recorder;
use hol_model::Fault;
use hol_prelude::prelude;
use hol_syntax::{Scope, read_term};
use hol_taut::taut;
use hol_taut_laws::{Laws, tautology_laws};
use hol_terms::Term;
use hol_types::Ty;
use std::alloc::Global;

// The names of the variables, all of type `bool`.
const VARIABLES: &str = "a b c d e f g h i j k l m n r";

fn add_names(alloc: Global, scope: &mut Scope) -> Result<(), Fault> {
    let truth = Ty::boolean(alloc)?;
    for name in VARIABLES.split(' ') {
        scope.set_var(alloc, name, &truth)?;
    }
    let predicate = Ty::fun(alloc, &truth, &truth)?;
    scope.add_const(alloc, "~", &predicate)?;
    let operation = Ty::fun(alloc, &truth, &predicate)?;
    scope.add_const(alloc, "/\\", &operation)?;
    scope.add_const(alloc, "\\/", &operation)?;
    scope.add_const(alloc, "==>", &operation)
}

// How many inferences TAUT takes by these laws.
fn inferences_by(recorder: &mut Recorder, laws: &Laws, formula: &Term) -> Result<usize, Fault>
    requires { HasLaws recorder.old laws.now }
{
    let before = recorder.entries();
    match taut(recorder, laws, formula) {
        Ok(_theorem) => Ok(recorder.entries().saturating_sub(before)),
        Err(fault) => Err(fault),
    }
}

// The same in a theory that has nothing yet.
fn inferences_from(recorder: &mut Recorder, formula: &Term) -> Result<usize, Fault>
    requires { recorder.old.theory ≡ [] }
{
    let logic = prelude(recorder)?;
    let laws = tautology_laws(recorder, &logic)?;
    inferences_by(recorder, &laws, formula)
}

// The same for a formula's text.
fn inferences(alloc: Global, scope: &Scope, text: &str) -> Result<usize, Fault> {
    let formula = read_term(alloc, scope, text.as_bytes())?;
    let mut recorder = Recorder::new(alloc)?;
    inferences_from(&mut recorder, &formula)
}

// Whether the first formula takes at most so many inferences more than the others.
fn takes_few(alloc: Global, scope: &Scope, bound: usize, formulas: &str) -> Result<bool, Fault> {
    let mut parts = formulas.split("; ");
    let Some(first) = parts.next() else {
        return Err(Fault::Syntax);
    };
    let taken = inferences(alloc, scope, first)?;
    let mut allowed = bound;
    for other in parts {
        allowed = allowed.saturating_add(inferences(alloc, scope, other)?);
    }
    Ok(taken <= allowed)
}

// What is printed of formulas behind this bound.
fn verdict(alloc: Global, scope: &Scope, bound: &str, formulas: &str) -> &'static str {
    let Ok(number) = bound.parse::<usize>() else {
        return "no bound:";
    };
    match takes_few(alloc, scope, number, formulas) {
        Ok(true) => "at most",
        Ok(false) => "more than",
        Err(_) => "not proved:",
    }
}

/// Prints the lines of a text. A line `N: FORMULA; OTHERS` asks whether the formula takes at most N inferences more than the others
/// together; a line of another form is printed as it is.
pub(crate) fn print_bounds(rt: &HostRuntime, text: &str) -> anyhow::Result<()> {
    let alloc = rt.alloc();
    let mut scope = Scope::new(alloc)?;
    add_names(alloc, &mut scope)?;
    for line in text.lines() {
        match line.split_once(": ") {
            Some((bound, formulas)) => {
                let verdict = verdict(alloc, &scope, bound, formulas);
                println!(rt; "{verdict} {bound}")?;
            }
            None => println!(rt; "{line}")?,
        }
    }
    Ok(())
}
