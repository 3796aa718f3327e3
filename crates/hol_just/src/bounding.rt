// Numbers of subgoals that a tree does not need.
ghost use Rattle.std.specs.Prelude.{◌≡◌, true, map, IfOk, IfErr};
ghost use Rattle.hol_model.specs.declared.fault.Fault.TheVariants.{Memory};
ghost use Rattle.hol_just.specs.Bounds.{bounded_line, number_is_within, numbers_are_within};
ghost use Rattle.hol_just.specs.Flat.{is_well_cited};
ghost use Rattle.hol_just.specs.Lines.{flat_line, flat_lines};
ghost use Rattle.hol_just.specs.Steps.{flat_of, tree_of, steps_of};
ghost use Rattle.hol_just.specs.Subgoals.{subgoals_are_below};

use crate::just::{Just, JustNode};
use crate::line::Line;
use crate::moving::moved_places;
use hol_model::Fault;
use std::alloc::Global;
use std::rc::Rc;

// Whether the number of a subgoal in the line is not past the limit.
fn number_is_within(line: &Line, limit: usize) -> bool
    ensures { result ≡ number_is_within limit (flat_line line.now) }
{
    match line {
        Line::Sub(number) => *number <= limit,
        _ => true,
    }
}

// Whether none of the lines has the number of a subgoal past the limit.
fn numbers_are_within(lines: &[Line], limit: usize) -> bool
    ensures { result ≡ numbers_are_within limit (flat_lines lines.now) }
{
    for line in lines {
        if !number_is_within(line, limit) {
            return false;
        }
    }
    true
}

// The line, with the limit for a number past it.
fn bounded_line(alloc: Global, line: &Line, limit: usize) -> Result<Line, Fault>
    ensures ok { IfOk result (λ made. flat_line made ≡ bounded_line limit (flat_line line.now)) }
    ensures err { IfErr result (λ fault. fault ≡ Memory) }
{
    match line {
        Line::Sub(number) => Ok(Line::Sub(if *number <= limit { *number } else { limit })),
        Line::Named(name) => Ok(Line::Named(String::from_str(alloc, name)?)),
        Line::Lemma(number) => Ok(Line::Lemma(*number)),
        Line::ByRule(rule, cites) => {
            Ok(Line::ByRule(rule.clone()?, moved_places(alloc, cites, 0)?))
        }
    }
}

// The lines, with the limit for each number past it.
fn bounded_lines(alloc: Global, lines: &[Line], limit: usize) -> Result<Vec<Line>, Fault>
    ensures ok { IfOk result (λ made. flat_lines made.items ≡ map (bounded_line limit) (flat_lines lines.now)) }
    ensures err { IfErr result (λ fault. fault ≡ Memory) }
{
    let mut bounded = Vec::new(alloc);
    for line in lines {
        bounded.push(bounded_line(alloc, line, limit)?)?;
    }
    Ok(bounded)
}

impl Just {
    /// The same tree, by lines that have no number of a subgoal past the count, as lines may have that the root does not need:
    /// `splice` makes each number higher. Refused: Memory.
    #[tactic(auto, using(crate::proofs::Bounds::cited_bounded, crate::proofs::Bounds::tree_bounded, crate::proofs::Bounds::numbers_bounded, crate::proofs::Bounds::steps_bounded))]
    pub fn bounded(self, alloc: Global, count: usize) -> Result<Just, Fault>
        requires { subgoals_are_below count (tree_of self) ≡ true }
        ensures tree { IfOk result (λ made. tree_of made ≡ tree_of self) }
        ensures steps { IfOk result (λ made. steps_of made ≡ steps_of self) }
        ensures numbers { IfOk result (λ made. numbers_are_within count (flat_of made).lines ≡ true) }
        ensures err { IfErr result (λ fault. fault ≡ Memory) }
    {
        if numbers_are_within(&self.node.lines, count) {
            return Ok(self);
        }
        let lines = bounded_lines(alloc, &self.node.lines, count)?;
        let root = self.node.root;
        Ok(Just {
            node: Rc::new(alloc, JustNode { lines, root })?,
        })
    }
}
