// Which lines' trees name subgoals below a count alone, each line tested once.
ghost use Rattle.std.specs.Prelude.{◌≡◌, [], IfOk, IfErr};
ghost use Rattle.hol_model.specs.declared.fault.Fault.TheVariants.{Memory};
ghost use Rattle.hol_just.specs.Flat.{tree};
ghost use Rattle.hol_just.specs.Lines.{flat_line, flat_lines, flat_of_lines};
ghost use Rattle.hol_just.specs.Subgoals.{subgoals_are_below, cited_answer, all_cited, answer_of_line, answers_after};

use crate::line::Line;
use hol_model::Fault;
use std::alloc::Global;

// The answer at a place; true where there is none.
fn answer_at(answers: &[bool], place: usize) -> bool
    ensures { result ≡ cited_answer answers.now place }
{
    if place < answers.len() {
        answers[place]
    } else {
        true
    }
}

// Whether the answers at these places are all true.
fn all_at(answers: &[bool], places: &[usize]) -> bool
    ensures { result ≡ all_cited answers.now places.now }
{
    for place in places {
        if !answer_at(answers, *place) {
            return false;
        }
    }
    true
}

// The answer for a line, behind lines with these answers.
fn answer_of_line(answers: &[bool], count: usize, line: &Line) -> bool
    ensures { result ≡ answer_of_line count answers.now (flat_line line.now) }
{
    match line {
        Line::Sub(number) => *number < count,
        Line::ByRule(_, places) => all_at(answers, places),
        _ => true,
    }
}

// The answers for all lines.
fn answers(alloc: Global, lines: &[Line], count: usize) -> Result<Vec<bool>, Fault>
    ensures ok { IfOk result (λ answers. answers.items ≡ answers_after count [] (flat_lines lines.now)) }
    ensures err { IfErr result (λ fault. fault ≡ Memory) }
{
    let mut answers = Vec::new(alloc);
    for line in lines {
        let answer = answer_of_line(&answers, count, line);
        answers.push(answer)?;
    }
    Ok(answers)
}

/// Whether each subgoal in the tree of the line at a place has a number below the count.
#[tactic(auto, using(crate::proofs::SubgoalAnswers::root_answer))]
pub(crate) fn root_subgoals_below(
    alloc: Global,
    lines: &[Line],
    root: usize,
    count: usize,
) -> Result<bool, Fault>
    ensures ok { IfOk result (λ answer. answer ≡ subgoals_are_below count (tree (flat_of_lines lines.now root))) }
    ensures err { IfErr result (λ fault. fault ≡ Memory) }
{
    let answers = answers(alloc, lines, count)?;
    Ok(answer_at(&answers, root))
}
