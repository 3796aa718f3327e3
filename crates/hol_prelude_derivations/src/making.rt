// Lists of definitions and derivations, made one after another.
ghost use Rattle.std.specs.Prelude.{◌≡◌, IfOk, []};
ghost use Rattle.hol_model.specs.Kernel.Outcome.{Answers};
ghost use Rattle.hol_journal.specs.Journal.{IsMade, theorem_in};
ghost use Rattle.hol_journal.specs.Growth.{IsGrown};
ghost use Rattle.hol_prelude_derivations.specs.Derivations.{theorems, AreMade};
ghost use Rattle.hol_prelude_derivations.specs.Makings.{made_outcome, next_theory, all_made, made_in, MakesAll};

use crate::derivation::{Derivation, derive};
use crate::sketch::{TermSketch, term_of};
use hol_journal::{Rec, Recorder};
use hol_model::Fault;

/// A definition of a constant, or a derivation from the theorems that were made before it.
#[derive(Clone, Copy)]
pub enum Making<'a> {
    Define(&'a str, &'a TermSketch<'a>),
    Derive(&'a Derivation<'a>),
}

// The theorem of one of them.
fn make(recorder: &mut Recorder, earlier: &[Rec], making: &Making<'_>) -> Result<Rec, Fault>
    requires { AreMade recorder.old earlier.now }
    ensures outcome { Answers (theorem_in result) (made_outcome recorder.old.theory (theorems earlier.now) making.now) }
    ensures theory { IfOk result (λ made. recorder.new.theory ≡ next_theory recorder.old.theory making.now made.theorem) }
    ensures made { IfOk result (IsMade recorder.new) }
    ensures grown { IsGrown recorder.old recorder.new }
{
    let alloc = recorder.alloc();
    match making {
        Making::Define(name, body) => {
            let body = term_of(alloc, body)?;
            recorder.define(name, &body)
        }
        Making::Derive(derivation) => derive(recorder, earlier, derivation),
    }
}

// The earlier theorems, and those of the list.
fn make_all(
    recorder: &mut Recorder,
    mut earlier: Vec<Rec>,
    makings: &[Making<'_>],
) -> Result<Vec<Rec>, Fault>
    requires { AreMade recorder.old earlier.items }
    ensures outcome { Answers (made_in recorder.new.theory result) (all_made recorder.old.theory (theorems earlier.items) makings.now) }
    ensures made { IfOk result (λ all. AreMade recorder.new all.items) }
    ensures grown { IsGrown recorder.old recorder.new }
{
    let Some((first, rest)) = makings.split_first() else {
        return Ok(earlier);
    };
    let theorem = make(recorder, &earlier, first)?;
    earlier.push(theorem)?;
    make_all(recorder, earlier, rest)
}

/// The earlier theorems, and those of a table.
pub fn make_table(
    recorder: &mut Recorder,
    earlier: Vec<Rec>,
    makings: &[Making<'_>],
) -> Result<Vec<Rec>, Fault>
    requires { AreMade recorder.old earlier.items }
    ensures outcome { MakesAll recorder.old.theory (theorems earlier.items) makings.now recorder.new.theory result }
    ensures made { IfOk result (λ all. AreMade recorder.new all.items) }
    ensures grown { IsGrown recorder.old recorder.new }
{
    make_all(recorder, earlier, makings)
}

/// The theorems of a table, from none.
pub fn make_first(recorder: &mut Recorder, makings: &[Making<'_>]) -> Result<Vec<Rec>, Fault>
    ensures outcome { MakesAll recorder.old.theory [] makings.now recorder.new.theory result }
    ensures made { IfOk result (λ all. AreMade recorder.new all.items) }
    ensures grown { IsGrown recorder.old recorder.new }
{
    let alloc = recorder.alloc();
    make_table(recorder, Vec::new(alloc), makings)
}
