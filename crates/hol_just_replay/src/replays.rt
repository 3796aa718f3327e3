// Replaying a justification: each line once.
ghost use Rattle.std.specs.Prelude.{◌≡◌, ◌<◌, ◌++◌, [], ◌∷◌, map, length, slice_get, true, List, Option, Ok, Err, IfOk, IfErr, IfSome, OnOk};
ghost use Rattle.std.specs.Option.{option_map};
ghost use Rattle.hol_model.specs.declared.fault.Fault.TheVariants.{Memory, InvalidStep};
ghost use Rattle.hol_model.specs.Goals.Justifications.{Justification};
ghost use Rattle.hol_model.specs.Goals.Replays.{IsReplay};
ghost use Rattle.hol_journal.specs.Journal.{Journal, IsMade, theorem_in};
ghost use Rattle.hol_journal.specs.Growth.{IsGrown, Continues, IsHeld};
ghost use Rattle.hol_prelude_derivations.specs.Derivations.{AreMade};
ghost use Rattle.hol_prelude.specs.HasLogic.{HasLogic};
ghost use Rattle.hol_just.specs.Flat.{cites_below, cite_earlier, are_below, cited};
ghost use Rattle.hol_just.specs.Lines.{flat_line, flat_lines};
ghost use Rattle.hol_just.specs.Steps.{tree_of};
ghost use Rattle.hol_theorem_store.specs.Stored.{IsStoreOf, theorems_in};
ghost use Rattle.hol_theorem_store.specs.Store.{stored_of};
ghost use Rattle.hol_just_replay.specs.Named.{sequents_of};
ghost use Rattle.hol_just_replay.specs.Outcomes.{AreLent, lent_theorems};
ghost use Rattle.hol_just_replay.specs.Lines.{Expected, Meets, expected_in, AreMet, AreHeldLines, IsHeldLine, ContinuesLine};
ghost use Rattle.hol_just_replay.specs.Lines.{Applies, AppliesAs, IsNamed, IsBroken, IsPremise, MeetsFrom, MeetsLine, premise_result, IsReplaying, IsReplayRefusal};

use crate::apply::apply_rule;
use hol_journal::{Rec, Recorder};
use hol_just::{Just, Line, Rule};
use hol_model::Fault;
use hol_prelude::{Bool, logic_stays};
use hol_theorem_store::Store;
use std::alloc::Global;

// What a line comes to: a theorem, or that its tree has no sequent, or that a term is too large.
#[derive(Drop)]
enum LineAnswer {
    Made(Rec),
    Invalid,
    Large,
}

// What a rule came to.
#[tactic(auto, using(crate::proofs::Replaying::answering))]
fn answered(outcome: Result<Rec, Fault>) -> Result<LineAnswer, Fault>
    ensures applied { AppliesAs (theorem_in outcome) result }
    ensures held { (journal : Journal) → IfOk outcome (IsHeld journal) → IfOk result (IsHeldLine journal) }
    ensures err { IfErr result (λ fault. fault ≡ Memory) }
{
    match outcome {
        Ok(made) => Ok(LineAnswer::Made(made)),
        Err(Fault::Memory) => Err(Fault::Memory),
        Err(Fault::TooLarge) => Ok(LineAnswer::Large),
        Err(_) => Ok(LineAnswer::Invalid),
    }
}

// A line that is answered with no further entry.
#[tactic(auto, using(crate::proofs::Replaying::keeping))]
fn kept(recorder: &mut Recorder, answer: LineAnswer) -> Result<LineAnswer, Fault>
    requires { IsBroken answer }
    ensures continues { ContinuesLine recorder.old recorder.new result }
    ensures value { result ≡ Ok answer }
{
    let _entries = recorder.entries();
    Ok(answer)
}

// The theorem of a line, or why it has none.
fn premise(answers: &[LineAnswer], place: usize) -> Result<&Rec, LineAnswer>
    requires { place < length answers.now }
    ensures held { (journal : Journal) → AreHeldLines journal answers.now → IfOk result (λ made. IsMade journal made.now) }
    ensures met { (expects : Justification → Expected) (trees : List Justification) → AreMet expects trees answers.now → IsPremise expects trees place (premise_result result) }
    ensures broken { IfErr result IsBroken }
{
    match &answers[place] {
        LineAnswer::Made(made) => Ok(made),
        LineAnswer::Invalid => Err(LineAnswer::Invalid),
        LineAnswer::Large => Err(LineAnswer::Large),
    }
}

// A rule, as a line.
#[tactic(auto, using(crate::proofs::Replaying::continued))]
fn by_rule(
    recorder: &mut Recorder,
    logic: &Bool,
    rule: &Rule,
    premises: &[&Rec],
) -> Result<LineAnswer, Fault>
    requires logic { HasLogic recorder.old logic.now }
    requires premises { AreLent recorder.old premises.now }
    ensures continues { ContinuesLine recorder.old recorder.new result }
    ensures applied { IfOk result (Applies recorder.old.theory rule.now (lent_theorems premises.now)) }
    ensures err { IfErr result (λ fault. fault ≡ Memory) }
{
    let outcome = apply_rule(recorder, logic, rule, premises);
    answered(outcome)
}

// What a rule draws from the lines at these places.
fn rule_answer(
    recorder: &mut Recorder,
    logic: &Bool,
    rule: &Rule,
    answers: &[LineAnswer],
    places: &[usize],
) -> Result<LineAnswer, Fault>
    requires logic { HasLogic recorder.old logic.now }
    requires held { AreHeldLines recorder.old answers.now }
    requires places { are_below (length answers.now) places.now ≡ true }
    ensures continues { ContinuesLine recorder.old recorder.new result }
    ensures met { MeetsFrom recorder.old.theory rule.now answers.now places.now result }
    ensures err { IfErr result (λ fault. fault ≡ Memory) }
{
    let count = places.len();
    if count > 3 {
        return kept(recorder, LineAnswer::Invalid);
    }
    if count == 0 {
        return by_rule(recorder, logic, rule, &[]);
    }
    let first = match premise(answers, places[0]) {
        Ok(first) => first,
        Err(answer) => return kept(recorder, answer),
    };
    if count == 1 {
        return by_rule(recorder, logic, rule, &[first]);
    }
    let second = match premise(answers, places[1]) {
        Ok(second) => second,
        Err(answer) => return kept(recorder, answer),
    };
    if count == 2 {
        return by_rule(recorder, logic, rule, &[first, second]);
    }
    let third = match premise(answers, places[2]) {
        Ok(third) => third,
        Err(answer) => return kept(recorder, answer),
    };
    by_rule(recorder, logic, rule, &[first, second, third])
}

// A subgoal's theorem.
fn subgoal_at(subgoals: &[Rec], number: usize) -> Option<&Rec>
    ensures { option_map (λ theorem. theorem.now) result ≡ slice_get subgoals.now number }
{
    if number < subgoals.len() {
        Some(&subgoals[number])
    } else {
        None
    }
}

// A line that names a theorem.
#[tactic(auto, using(crate::proofs::Replaying::naming))]
fn named_answer(recorder: &mut Recorder, found: Option<&Rec>) -> Result<LineAnswer, Fault>
    requires { IfSome found (λ theorem. IsMade recorder.old theorem.now) }
    ensures continues { ContinuesLine recorder.old recorder.new result }
    ensures named { IfOk result (IsNamed (option_map (λ theorem. theorem.now) found.entry)) }
    ensures err { IfErr result (λ fault. fault ≡ Memory) }
{
    let alloc = recorder.alloc();
    let _entries = recorder.entries();
    match found {
        Some(theorem) => match theorem.copy(alloc) {
            Ok(copy) => Ok(LineAnswer::Made(copy)),
            Err(fault) => Err(fault),
        },
        None => Ok(LineAnswer::Invalid),
    }
}

// What a line comes to, after lines that came to these answers.
fn line_answer(
    recorder: &mut Recorder,
    logic: &Bool,
    store: &Store,
    subgoals: &[Rec],
    answers: &[LineAnswer],
    line: &Line,
) -> Result<LineAnswer, Fault>
    requires logic { HasLogic recorder.old logic.now }
    requires store { IsStoreOf recorder.old (stored_of store.now) }
    requires subgoals { AreMade recorder.old subgoals.now }
    requires held { AreHeldLines recorder.old answers.now }
    requires places { cites_below (length answers.now) (flat_line line.now) ≡ true }
    ensures continues { ContinuesLine recorder.old recorder.new result }
    ensures met { MeetsLine (expected_in recorder.old.theory (stored_of store.now) subgoals.now) answers.now (flat_line line.now) result }
    ensures err { IfErr result (λ fault. fault ≡ Memory) }
{
    match line {
        Line::Sub(number) => named_answer(recorder, subgoal_at(subgoals, *number)),
        Line::Named(name) => named_answer(recorder, store.get(name)),
        Line::Lemma(number) => named_answer(recorder, store.lemma(*number)),
        Line::ByRule(rule, places) => rule_answer(recorder, logic, rule, answers, places),
    }
}

// One answer more.
fn pushed(answers: &mut Vec<LineAnswer>, answer: LineAnswer) -> Result<(), Fault>
    ensures ok { OnOk result (answers.new.items ≡ answers.old.items ++ answer ∷ []) }
    ensures err { IfErr result (λ fault. fault ≡ Memory) }
{
    answers.push(answer)?;
    Ok(())
}

// What the lines come to, one after another.
fn line_answers(
    recorder: &mut Recorder,
    logic: &Bool,
    store: &Store,
    subgoals: &[Rec],
    lines: &[Line],
) -> Result<Vec<LineAnswer>, Fault>
    requires logic { HasLogic recorder.old logic.now }
    requires store { IsStoreOf recorder.old (stored_of store.now) }
    requires subgoals { AreMade recorder.old subgoals.now }
    requires cite { cite_earlier 0 (flat_lines lines.now) ≡ true }
    ensures grown { IsGrown recorder.old recorder.new }
    ensures theory { recorder.new.theory ≡ recorder.old.theory }
    ensures replayed { IfOk result (λ answers. IsReplaying recorder.old recorder.new (expected_in recorder.old.theory (stored_of store.now) subgoals.now) [] (flat_lines lines.now) answers.items) }
    ensures err { IfErr result (λ fault. fault ≡ Memory) }
{
    let alloc = recorder.alloc();
    logic_stays();
    let mut answers = Vec::new(alloc);
    for line in lines {
        let answer = line_answer(recorder, logic, store, subgoals, &answers, line)?;
        pushed(&mut answers, answer)?;
    }
    Ok(answers)
}

// The theorem of the line that stands for the whole.
fn finished(alloc: Global, answers: &[LineAnswer], root: usize) -> Result<Rec, Fault>
    requires { root < length answers.now }
    ensures made { (journal : Journal) → AreHeldLines journal answers.now → IfOk result (IsMade journal) }
    ensures met { (expects : Justification → Expected) (trees : List Justification) → AreMet expects trees answers.now → Meets (expects (cited trees root)) (theorem_in result) }
    ensures refusals { IfErr result IsReplayRefusal }
{
    match premise(answers, root) {
        Ok(made) => made.copy(alloc),
        Err(LineAnswer::Large) => Err(Fault::TooLarge),
        Err(_) => Err(Fault::InvalidStep),
    }
}

/// The theorem of a justification over what is stored and theorems for its subgoals: each line is done once. Its sequent
/// is that of the tree (HOL Light's `justification`, tactics.ml, as data). Refused: InvalidStep where the tree has none;
/// TooLarge only where a term that the tree's rules take, or of the sequent of a part, leaves no room; Memory.
pub fn replay(
    recorder: &mut Recorder,
    logic: &Bool,
    store: &Store,
    just: &Just,
    subgoals: &[Rec],
) -> Result<Rec, Fault>
    requires logic { HasLogic recorder.old logic.now }
    requires store { IsStoreOf recorder.old (stored_of store.now) }
    requires subgoals { AreMade recorder.old subgoals.now }
    ensures grown { IsGrown recorder.old recorder.new }
    ensures theory { recorder.new.theory ≡ recorder.old.theory }
    ensures made { IfOk result (IsMade recorder.new) }
    ensures answer { IsReplay recorder.old.theory (theorems_in (stored_of store.now)) (sequents_of subgoals.now) (tree_of just.now) (theorem_in result) }
{
    let alloc = recorder.alloc();
    let lines = just.lines();
    let root = just.root();
    let answers = line_answers(recorder, logic, store, subgoals, lines)?;
    finished(alloc, &answers, root)
}
