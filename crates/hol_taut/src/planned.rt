// Tautologies by plans, whose steps are taken one after another.
ghost use Rattle.std.specs.Prelude.{◌≡◌, ◌∷◌, ◌++◌, [], IfOk, IfErr, OnOk};
ghost use Rattle.hol_model.specs.declared.fault.Fault.TheVariants.{Memory};
ghost use Rattle.hol_journal.specs.Journal.{IsMade};
ghost use Rattle.hol_journal.specs.Growth.{IsGrown, Continues};
ghost use Rattle.hol_prelude_derivations.specs.Derivations.{AreMade};
ghost use Rattle.hol_taut_laws.specs.HasLaws.{HasLaws};

use crate::leaves::constantly;
use hol_bool::{equivalence, falsity, for_p_q};
use hol_equal::steps::deduct_antisym;
use hol_equal::{assume, eq_mp, trans};
use hol_journal::{Rec, Recorder};
use hol_model::Fault;
use hol_taut_chains::{instance, reflexive};
use hol_taut_laws::{Law, Laws, law_theorem};
use hol_taut_plans::{Formula, Plan, Rule, Step, planned};
use hol_terms::Term;
use std::alloc::Global;

// A part of the formula.
fn part_of(plan: &Plan, number: usize) -> Result<&Term, Fault> {
    match plan.part(number) {
        Some(part) => Ok(part),
        None => Err(Fault::BadShape),
    }
}

// A formula of the plan.
fn formula_of(alloc: Global, plan: &Plan, formula: Formula) -> Result<Term, Fault> {
    match formula {
        Formula::Part(number) => part_of(plan, number)?.copy(alloc),
        Formula::Denied(number) => {
            let falsity = falsity(alloc)?;
            equivalence(alloc, part_of(plan, number)?, &falsity)
        }
    }
}

// Two formulas of the plan for the variables `p` and `q`.
fn formulas_for(
    alloc: Global,
    plan: &Plan,
    p: Formula,
    q: Formula,
) -> Result<Vec<(Term, Term)>, Fault> {
    let p = formula_of(alloc, plan, p)?;
    let q = formula_of(alloc, plan, q)?;
    for_p_q(alloc, &p, &q)
}

// An earlier theorem.
fn earlier<'a>(recorder: &Recorder, made: &'a [Rec], number: usize) -> Result<&'a Rec, Fault>
    requires { AreMade recorder.now made.now }
    ensures { IfOk result (λ theorem. IsMade recorder.now theorem.now) }
{
    let _entries = recorder.entries();
    match made.get(number) {
        Some(theorem) => Ok(theorem),
        None => Err(Fault::BadShape),
    }
}

// REFL of a formula.
fn refl_of(recorder: &mut Recorder, plan: &Plan, formula: Formula) -> Result<Rec, Fault>
    ensures continues { Continues recorder.old recorder.new result }
{
    let alloc = recorder.alloc();
    let formula = formula_of(alloc, plan, formula)?;
    reflexive(recorder, &formula)
}

// ASSUME of a formula.
fn assume_of(recorder: &mut Recorder, plan: &Plan, formula: Formula) -> Result<Rec, Fault>
    ensures continues { Continues recorder.old recorder.new result }
{
    let alloc = recorder.alloc();
    let formula = formula_of(alloc, plan, formula)?;
    assume(recorder, &formula)
}

// A law at formulas.
fn law_at(
    recorder: &mut Recorder,
    laws: &Laws,
    law: Law,
    formulas: Result<Vec<(Term, Term)>, Fault>,
) -> Result<Rec, Fault>
    requires laws { HasLaws recorder.old laws.now }
    ensures continues { Continues recorder.old recorder.new result }
{
    let formulas = formulas?;
    let lemma = law_theorem(recorder, laws, law);
    instance(recorder, &formulas, lemma)
}

// A rule of two earlier theorems.
fn by_rule(
    recorder: &mut Recorder,
    made: &[Rec],
    rule: Rule,
    first: usize,
    second: usize,
) -> Result<Rec, Fault>
    requires made { AreMade recorder.old made.now }
    ensures continues { Continues recorder.old recorder.new result }
{
    let first = earlier(recorder, made, first)?;
    let second = earlier(recorder, made, second)?;
    match rule {
        Rule::DeductAntisym => deduct_antisym(recorder, first, second),
        Rule::EqMp => eq_mp(recorder, first, second),
        Rule::Trans => trans(recorder, first, second),
    }
}

// The theorem of a step, by those of the earlier ones.
fn taken(
    recorder: &mut Recorder,
    laws: &Laws,
    plan: &Plan,
    made: &[Rec],
    step: Step,
) -> Result<Rec, Fault>
    requires laws { HasLaws recorder.old laws.now }
    requires made { AreMade recorder.old made.now }
    ensures continues { Continues recorder.old recorder.new result }
{
    let alloc = recorder.alloc();
    match step {
        Step::Truth => constantly(recorder, laws, true),
        Step::Refl(formula) => refl_of(recorder, plan, formula),
        Step::Assume(formula) => assume_of(recorder, plan, formula),
        Step::Inst(law, p, q) => {
            let formulas = formulas_for(alloc, plan, p, q);
            law_at(recorder, laws, law, formulas)
        }
        Step::Rule(rule, first, second) => by_rule(recorder, made, rule, first, second),
    }
}

// One theorem more.
fn pushed(made: &mut Vec<Rec>, theorem: Rec) -> Result<(), Fault>
    ensures ok { OnOk result (made.new.items ≡ made.old.items ++ theorem ∷ []) }
    ensures err { IfErr result (λ fault. fault ≡ Memory) }
{
    made.push(theorem)?;
    Ok(())
}

// The theorems of all steps.
fn all_taken(
    recorder: &mut Recorder,
    laws: &Laws,
    plan: &Plan,
    steps: &[Step],
) -> Result<Vec<Rec>, Fault>
    requires laws { HasLaws recorder.old laws.now }
    ensures grown { IsGrown recorder.old recorder.new }
    ensures theory { recorder.new.theory ≡ recorder.old.theory }
    ensures made { IfOk result (λ all. AreMade recorder.new all.items) }
{
    let alloc = recorder.alloc();
    let mut made = Vec::new(alloc);
    for step in steps {
        let theorem = taken(recorder, laws, plan, &made, *step)?;
        pushed(&mut made, theorem)?;
    }
    Ok(made)
}

// The theorem of the last step.
fn by_plan(recorder: &mut Recorder, laws: &Laws, plan: &Plan) -> Result<Rec, Fault>
    requires laws { HasLaws recorder.old laws.now }
    ensures continues { Continues recorder.old recorder.new result }
{
    let Some((last, steps)) = plan.steps().split_last() else {
        return Err(Fault::BadShape);
    };
    let made = all_taken(recorder, laws, plan, steps)?;
    taken(recorder, laws, plan, &made, *last)
}

/// A formula by the steps of a plan. A search whose answer is to be judged.
pub(crate) fn by_planned_steps(
    recorder: &mut Recorder,
    laws: &Laws,
    term: &Term,
) -> Result<Rec, Fault>
    requires laws { HasLaws recorder.old laws.now }
    ensures continues { Continues recorder.old recorder.new result }
{
    let alloc = recorder.alloc();
    let plan = planned(alloc, term)?;
    by_plan(recorder, laws, &plan)
}
