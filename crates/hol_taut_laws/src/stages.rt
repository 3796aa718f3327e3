// The laws and what their derivations cite, table by table.
ghost use Rattle.std.specs.Prelude.{◌≡◌, ◌≤◌, ◌++◌, take, drop, length, IfOk, IfErr};
ghost use Rattle.hol_model.specs.declared.fault.Fault.TheVariants.{Memory};
ghost use Rattle.hol_model.specs.Logic.Logic.{logical_definitions};
ghost use Rattle.hol_journal.specs.Growth.{IsGrown};
ghost use Rattle.hol_prelude_derivations.specs.Derivations.{AreMade};
ghost use Rattle.hol_prelude.specs.HasLogic.{HasLogic};
ghost use Rattle.hol_prelude.specs.Laws.{laws};
ghost use Rattle.hol_prelude.specs.Prelude.{first_theorems};
ghost use Rattle.hol_prelude.specs.Stages.{MakesTheorems};
ghost use Rattle.hol_taut_laws.specs.declared.tables.TheConstants.{CITED_FIRST};
ghost use Rattle.hol_taut_laws.specs.LawTheorems.{cited_theorems, discharged_laws, side_laws, negation_laws, disjunction_laws, tautology_theorems};

use crate::tables::{CITED_FIRST, DENIAL, DISCHARGED, DISJUNCTION, NEGATIONS, SIDES, TRUTH_LAWS};
use hol_journal::{Rec, Recorder};
use hol_model::Fault;
use hol_prelude::Bool;
use hol_prelude_derivations::making::make_table;
use std::alloc::Global;

// A list with copies of more theorems at its end.
fn with_copies(alloc: Global, mut all: Vec<Rec>, more: &[Rec]) -> Result<Vec<Rec>, Fault>
    ensures ok { IfOk result (λ longer. longer.items ≡ all.items ++ more.now) }
    ensures err { IfErr result (λ fault. fault ≡ Memory) }
{
    let Some((first, rest)) = more.split_first() else {
        return Ok(all);
    };
    all.push(first.copy(alloc)?)?;
    with_copies(alloc, all, rest)
}

// The theorems that stand before the laws of `T` and `==>`.
fn before_laws(stored: &[Rec]) -> &[Rec]
    requires { CITED_FIRST ≤ length stored.now }
    ensures { result.now ≡ take CITED_FIRST stored.now }
{
    &stored[..CITED_FIRST]
}

// Those that stand behind them.
fn behind_laws(stored: &[Rec]) -> &[Rec]
    requires { CITED_FIRST ≤ length stored.now }
    ensures { result.now ≡ drop CITED_FIRST stored.now }
{
    &stored[CITED_FIRST..]
}

// The first theorems of the prelude, and the laws of `T` and `==>` behind them.
fn with_truth(recorder: &mut Recorder, logic: &Bool) -> Result<Vec<Rec>, Fault>
    requires logic { HasLogic recorder.old logic.now }
    requires theory { recorder.old.theory ≡ logical_definitions }
    ensures outcome { MakesTheorems (first_theorems ++ take 4 laws) recorder.new.theory result }
    ensures made { IfOk result (λ all. AreMade recorder.new all.items) }
    ensures grown { IsGrown recorder.old recorder.new }
{
    let alloc = recorder.alloc();
    let stored = logic.theorems();
    let before = before_laws(stored);
    let earlier = with_copies(alloc, Vec::new(alloc), before)?;
    make_table(recorder, earlier, &TRUTH_LAWS)
}

// What derivations of the laws cite of the prelude.
fn cited(recorder: &mut Recorder, logic: &Bool) -> Result<Vec<Rec>, Fault>
    requires logic { HasLogic recorder.old logic.now }
    requires theory { recorder.old.theory ≡ logical_definitions }
    ensures outcome { MakesTheorems cited_theorems recorder.new.theory result }
    ensures made { IfOk result (λ all. AreMade recorder.new all.items) }
    ensures grown { IsGrown recorder.old recorder.new }
{
    let alloc = recorder.alloc();
    let stored = logic.theorems();
    let behind = behind_laws(stored);
    let earlier = with_truth(recorder, logic)?;
    with_copies(alloc, earlier, behind)
}

// The same, and what is discharged.
fn with_discharged(recorder: &mut Recorder, logic: &Bool) -> Result<Vec<Rec>, Fault>
    requires logic { HasLogic recorder.old logic.now }
    requires theory { recorder.old.theory ≡ logical_definitions }
    ensures outcome { MakesTheorems (cited_theorems ++ discharged_laws) recorder.new.theory result }
    ensures made { IfOk result (λ all. AreMade recorder.new all.items) }
    ensures grown { IsGrown recorder.old recorder.new }
{
    let earlier = cited(recorder, logic)?;
    make_table(recorder, earlier, &DISCHARGED)
}

// The same, and the laws of `/\` and `==>`.
fn with_sides(recorder: &mut Recorder, logic: &Bool) -> Result<Vec<Rec>, Fault>
    requires logic { HasLogic recorder.old logic.now }
    requires theory { recorder.old.theory ≡ logical_definitions }
    ensures outcome { MakesTheorems (cited_theorems ++ discharged_laws ++ side_laws) recorder.new.theory result }
    ensures made { IfOk result (λ all. AreMade recorder.new all.items) }
    ensures grown { IsGrown recorder.old recorder.new }
{
    let earlier = with_discharged(recorder, logic)?;
    make_table(recorder, earlier, &SIDES)
}

// The same, and the laws of `~` and `<=>`.
fn with_negations(recorder: &mut Recorder, logic: &Bool) -> Result<Vec<Rec>, Fault>
    requires logic { HasLogic recorder.old logic.now }
    requires theory { recorder.old.theory ≡ logical_definitions }
    ensures outcome { MakesTheorems (cited_theorems ++ discharged_laws ++ side_laws ++ negation_laws) recorder.new.theory result }
    ensures made { IfOk result (λ all. AreMade recorder.new all.items) }
    ensures grown { IsGrown recorder.old recorder.new }
{
    let earlier = with_sides(recorder, logic)?;
    make_table(recorder, earlier, &NEGATIONS)
}

// The same, and the law of `\/`.
fn with_disjunction(recorder: &mut Recorder, logic: &Bool) -> Result<Vec<Rec>, Fault>
    requires logic { HasLogic recorder.old logic.now }
    requires theory { recorder.old.theory ≡ logical_definitions }
    ensures outcome { MakesTheorems (cited_theorems ++ discharged_laws ++ side_laws ++ negation_laws ++ disjunction_laws) recorder.new.theory result }
    ensures made { IfOk result (λ all. AreMade recorder.new all.items) }
    ensures grown { IsGrown recorder.old recorder.new }
{
    let earlier = with_negations(recorder, logic)?;
    make_table(recorder, earlier, &DISJUNCTION)
}

/// All of them.
pub(crate) fn with_denial(recorder: &mut Recorder, logic: &Bool) -> Result<Vec<Rec>, Fault>
    requires logic { HasLogic recorder.old logic.now }
    requires theory { recorder.old.theory ≡ logical_definitions }
    ensures outcome { MakesTheorems tautology_theorems recorder.new.theory result }
    ensures made { IfOk result (λ all. AreMade recorder.new all.items) }
    ensures grown { IsGrown recorder.old recorder.new }
{
    let earlier = with_disjunction(recorder, logic)?;
    make_table(recorder, earlier, &DENIAL)
}
