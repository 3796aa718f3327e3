// The makers of justifications.
ghost use Rattle.std.specs.Prelude.{◌≡◌, ◌+◌, ◌∷◌, [], ◌≤◌, sum_by, length, map, true, IfOk, IfErr};
ghost use Rattle.hol_model.specs.declared.fault.Fault.TheVariants.{Memory};
ghost use Rattle.hol_model.specs.Goals.Justifications as trees;
ghost use Rattle.hol_just.specs.Flat.{is_well_cited, tree};
ghost use Rattle.hol_just.specs.Lines.{flat_line, flat_lines, flat_of_lines, IsLeaf};
ghost use Rattle.hol_just.specs.Steps.{flat_of, tree_of, steps_of, parts_of, IsRefused};
ghost use Rattle.hol_model.specs.Goals.Replays.{is_within_depth};
ghost use Rattle.hol_just.specs.Joining.{IsJoined, own_portion};

use crate::depth::is_within_depth;
use crate::just::{Just, JustNode};
use crate::line::Line;
use crate::moving::Joined;
use crate::rule::Rule;
use hol_model::Fault;
use std::alloc::Global;
use std::rc::Rc;

// The justification of one line that cites nothing.
fn leaf(alloc: Global, line: Line) -> Result<Just, Fault>
    requires { IsLeaf line }
    ensures ok { IfOk result (λ made. flat_of made ≡ record { lines = flat_line line ∷ []; root = 0 }) }
    ensures err { IfErr result (λ fault. fault ≡ Memory) }
{
    let mut lines = Vec::new(alloc);
    lines.push(line)?;
    Ok(Just {
        node: Rc::new(alloc, JustNode { lines, root: 0 })?,
    })
}

/// The justification by the subgoal with this number. Refused: Memory.
pub fn sub(alloc: Global, number: usize) -> Result<Just, Fault>
    ensures tree { IfOk result (λ made. tree_of made ≡ trees.sub number) }
    ensures steps { IfOk result (λ made. steps_of made ≡ 1) }
    ensures err { IfErr result (λ fault. fault ≡ Memory) }
{
    leaf(alloc, Line::Sub(number))
}

/// The justification by the stored theorem of this name. Refused: Memory.
pub fn named(alloc: Global, name: &str) -> Result<Just, Fault>
    ensures tree { IfOk result (λ made. tree_of made ≡ trees.named name.now) }
    ensures steps { IfOk result (λ made. steps_of made ≡ 1) }
    ensures err { IfErr result (λ fault. fault ≡ Memory) }
{
    leaf(alloc, Line::Named(String::from_str(alloc, name)?))
}

/// The justification by the lemma with this number. Refused: Memory.
pub fn lemma(alloc: Global, number: usize) -> Result<Just, Fault>
    ensures tree { IfOk result (λ made. tree_of made ≡ trees.lemma number) }
    ensures steps { IfOk result (λ made. steps_of made ≡ 1) }
    ensures err { IfErr result (λ fault. fault ≡ Memory) }
{
    leaf(alloc, Line::Lemma(number))
}

/// The justification of these lines. Refused: Memory, or TooLarge for a tree that is deeper than the limit.
pub(crate) fn finished(alloc: Global, lines: Vec<Line>, root: usize) -> Result<Just, Fault>
    requires { is_well_cited (flat_of_lines lines.items root) ≡ true }
    ensures tree { IfOk result (λ made. tree_of made ≡ tree (flat_of_lines lines.items root)) }
    ensures steps { IfOk result (λ made. steps_of made ≡ length lines.items) }
    ensures within { IfOk result (λ made. is_within_depth (tree_of made) ≡ true) }
    ensures err { IfErr result (IsRefused (tree (flat_of_lines lines.items root))) }
{
    if !is_within_depth(alloc, &lines, root)? {
        return Err(Fault::TooLarge);
    }
    Ok(Just {
        node: Rc::new(alloc, JustNode { lines, root })?,
    })
}

// The lines of the parts one behind another, each subgoal under the number that it had.
fn joined(alloc: Global, parts: &[Just]) -> Result<Joined, Fault>
    ensures ok { IfOk result (λ joined. IsJoined joined 0 [] (map own_portion parts.now)) }
    ensures err { IfErr result (λ fault. fault ≡ Memory) }
{
    let mut joined = Joined::new(alloc);
    for part in parts {
        joined.add(alloc, part, 0)?;
    }
    Ok(joined)
}

/// The justification by a rule, from one for each of its premises, in order; whether the rule draws anything is not asked.
/// The lines of all parts are copied. Refused: Memory, or TooLarge for a tree that is deeper than the limit.
pub fn step(alloc: Global, rule: Rule, parts: &[Just]) -> Result<Just, Fault>
    ensures tree { IfOk result (λ made. tree_of made ≡ trees.by_rule rule (parts_of (map tree_of parts.now))) }
    ensures steps { IfOk result (λ made. steps_of made ≡ sum_by steps_of parts.now + 1) }
    ensures within { IfOk result (λ made. is_within_depth (tree_of made) ≡ true) }
    ensures err { IfErr result (IsRefused (trees.by_rule rule (parts_of (map tree_of parts.now)))) }
{
    let Joined { mut lines, roots } = joined(alloc, parts)?;
    let root = lines.len();
    lines.push(Line::ByRule(Rc::new(alloc, rule)?, roots))?;
    finished(alloc, lines, root)
}
