// Justifications in place of subgoals.
ghost use Rattle.std.specs.Prelude.{◌≡◌, ◌+◌, ◌-◌, ◌≤◌, [], length, map, sum_by, slice_index, slice_get, true, IfOk, IfErr, OnOk};
ghost use Rattle.hol_model.specs.declared.fault.Fault.TheVariants.{Memory};
ghost use Rattle.hol_model.specs.Goals.Splicing as spec;
ghost use Rattle.hol_just.specs.Flat.{redirected, with_replaced, replaced_line, replaced_sub};
ghost use Rattle.hol_just.specs.Lines.{flat_line, flat_lines};
ghost use Rattle.hol_just.specs.Steps.{flat_of, goals_of, tree_of, step_of, steps_of, flat_portion, IsRefused};
ghost use Rattle.hol_model.specs.Goals.Replays.{is_within_depth};
ghost use Rattle.hol_just.specs.Joining.{replaced_of, redirected_of};

use crate::goal::Step;
use crate::just::Just;
use crate::line::Line;
use crate::making::finished;
use crate::moving::{Joined, moved};
use crate::places::number_at;
use hol_model::Fault;
use std::alloc::Global;
use std::rc::Rc;

// What a line becomes: the place of a portion's root, or a line of its own.
#[derive(Drop)]
enum Replacement {
    Root(usize),
    Own(Line),
}

/// The lines so far, and the new place of each old line.
#[derive(Drop)]
pub(crate) struct Spliced {
    pub(crate) lines: Vec<Line>,
    pub(crate) new_places: Vec<usize>,
}

// The new places of cited lines.
fn redirected_places(alloc: Global, places: &[usize], cites: &[usize]) -> Result<Vec<usize>, Fault>
    ensures ok { IfOk result (λ redirected. redirected.items ≡ map (slice_index places.now) cites.now) }
    ensures err { IfErr result (λ fault. fault ≡ Memory) }
{
    let mut redirected = Vec::new(alloc);
    for cite in cites {
        redirected.push(number_at(places, *cite, 0))?;
    }
    Ok(redirected)
}

// What a subgoal becomes.
fn replaced_sub(roots: &[usize], subgoals: usize, number: usize) -> Result<Replacement, Fault>
    ensures ok { IfOk result (λ made. replaced_of made ≡ replaced_sub subgoals (number - length roots.now) (slice_get roots.now number)) }
    ensures err { IfErr result (λ fault. fault ≡ Memory) }
{
    if number < roots.len() {
        return Ok(Replacement::Root(roots[number]));
    }
    Ok(Replacement::Own(Line::Sub(moved(number - roots.len(), subgoals)?)))
}

// What a line becomes behind portions with these roots and so many subgoals in all.
fn replaced_line(
    alloc: Global,
    roots: &[usize],
    subgoals: usize,
    new_places: &[usize],
    line: &Line,
) -> Result<Replacement, Fault>
    ensures ok { IfOk result (λ made. replaced_of made ≡ replaced_line roots.now subgoals new_places.now (flat_line line.now)) }
    ensures err { IfErr result (λ fault. fault ≡ Memory) }
{
    match line {
        Line::Sub(number) => replaced_sub(roots, subgoals, *number),
        Line::Named(name) => Ok(Replacement::Own(Line::Named(String::from_str(alloc, name)?))),
        Line::Lemma(number) => Ok(Replacement::Own(Line::Lemma(*number))),
        Line::ByRule(rule, cites) => Ok(Replacement::Own(Line::ByRule(
            rule.clone()?,
            redirected_places(alloc, new_places, cites)?,
        ))),
    }
}

impl Spliced {
    // Adds what a line becomes.
    fn take(&mut self, replacement: Replacement) -> Result<(), Fault>
        ensures ok { OnOk result (redirected_of self.new ≡ with_replaced (redirected_of self.old) (replaced_of replacement)) }
        ensures err { IfErr result (λ fault. fault ≡ Memory) }
    {
        match replacement {
            Replacement::Root(place) => self.new_places.push(place)?,
            Replacement::Own(line) => {
                self.new_places.push(self.lines.len())?;
                self.lines.push(line)?;
            }
        }
        Ok(())
    }
}

// The lines of portions, without an old line behind them, and the places of the portions' roots.
fn begun(alloc: Global, joined: Joined) -> (Spliced, Vec<usize>)
    ensures lines { redirected_of result.0 ≡ record { lines = flat_lines joined.lines.items; new_places = [] } }
    ensures roots { result.1.items ≡ joined.roots.items }
{
    let spliced = Spliced {
        lines: joined.lines,
        new_places: Vec::new(alloc),
    };
    (spliced, joined.roots)
}

/// The lines of a justification behind its portions.
pub(crate) fn redirected(
    alloc: Global,
    joined: Joined,
    subgoals: usize,
    lines: &[Line],
) -> Result<Spliced, Fault>
    ensures ok { IfOk result (λ made. redirected_of made ≡ redirected joined.roots.items subgoals (record { lines = flat_lines joined.lines.items; new_places = [] }) (flat_lines lines.now)) }
    ensures err { IfErr result (λ fault. fault ≡ Memory) }
{
    let (mut spliced, roots) = begun(alloc, joined);
    for line in lines {
        let replacement = replaced_line(alloc, &roots, subgoals, &spliced.new_places, line)?;
        spliced.take(replacement)?;
    }
    Ok(spliced)
}

/// The justification with that of the part at each place in place of the subgoal of that number. The subgoals of the parts
/// are numbered one after another, and a subgoal past the parts comes behind them all. The lines of each part stand in it
/// once, however often its subgoal is named. Refused: Memory (also where a number would pass `usize`), or TooLarge for a
/// tree that is deeper than the limit.
pub fn splice(alloc: Global, just: &Just, parts: &[Step]) -> Result<Just, Fault>
    ensures tree { IfOk result (λ made. tree_of made ≡ spec.splice (tree_of just.now) (map (λ part. spec.portion_of (step_of part)) parts.now)) }
    ensures steps { IfOk result (λ made. steps_of made ≤ steps_of just.now + sum_by (λ part. steps_of part.just) parts.now) }
    ensures within { IfOk result (λ made. is_within_depth (tree_of made) ≡ true) }
    ensures err { IfErr result (IsRefused (spec.splice (tree_of just.now) (map (λ part. spec.portion_of (step_of part)) parts.now))) }
{
    let mut joined = Joined::new(alloc);
    let mut subgoals = 0;
    for part in parts {
        joined.add(alloc, &part.just, subgoals)?;
        subgoals = moved(part.goals.len(), subgoals)?;
    }
    let spliced = redirected(alloc, joined, subgoals, &just.node.lines)?;
    let root = number_at(&spliced.new_places, just.node.root, 0);
    finished(alloc, spliced.lines, root)
}

// The new places of cited lines, in the same memory.
fn redirected_own_places(places: &[usize], mut cites: Vec<usize>) -> Vec<usize>
    ensures { result.items ≡ map (slice_index places.now) cites.items }
{
    for i in 0..cites.len() {
        cites[i] = number_at(places, cites[i], 0);
    }
    cites
}

// What a line becomes, as `replaced_line`, in the same memory.
fn replaced_own_line(
    roots: &[usize],
    subgoals: usize,
    new_places: &[usize],
    line: Line,
) -> Result<Replacement, Fault>
    ensures ok { IfOk result (λ made. replaced_of made ≡ replaced_line roots.now subgoals new_places.now (flat_line line)) }
    ensures err { IfErr result (λ fault. fault ≡ Memory) }
{
    match line {
        Line::Sub(number) => replaced_sub(roots, subgoals, number),
        Line::Named(name) => Ok(Replacement::Own(Line::Named(name))),
        Line::Lemma(number) => Ok(Replacement::Own(Line::Lemma(number))),
        Line::ByRule(rule, cites) => Ok(Replacement::Own(Line::ByRule(
            rule,
            redirected_own_places(new_places, cites),
        ))),
    }
}

// The lines of a justification behind its portions, as `redirected`, and none is copied.
fn redirected_own(
    alloc: Global,
    joined: Joined,
    subgoals: usize,
    lines: Vec<Line>,
) -> Result<Spliced, Fault>
    ensures ok { IfOk result (λ made. redirected_of made ≡ redirected joined.roots.items subgoals (record { lines = flat_lines joined.lines.items; new_places = [] }) (flat_lines lines.items)) }
    ensures err { IfErr result (λ fault. fault ≡ Memory) }
{
    let (mut spliced, roots) = begun(alloc, joined);
    for line in lines {
        let replacement = replaced_own_line(&roots, subgoals, &spliced.new_places, line)?;
        spliced.take(replacement)?;
    }
    Ok(spliced)
}

// The lines of a justification behind its portions. They are copied only where something else shares them.
fn redirected_just(
    alloc: Global,
    joined: Joined,
    subgoals: usize,
    just: Just,
) -> Result<Spliced, Fault>
    ensures ok { IfOk result (λ made. redirected_of made ≡ redirected joined.roots.items subgoals (record { lines = flat_lines joined.lines.items; new_places = [] }) (flat_of just).lines) }
    ensures err { IfErr result (λ fault. fault ≡ Memory) }
{
    match Rc::try_unwrap(just.node) {
        Ok(node) => redirected_own(alloc, joined, subgoals, node.lines),
        Err(node) => redirected(alloc, joined, subgoals, &node.lines),
    }
}

/// The step with this justification and the parts in place of its subgoals: its subgoals are theirs, one part after another,
/// and its justification is as `splice` makes it. Lines are copied only where something else shares them. Refused: as
/// `splice`.
pub fn spliced_step(alloc: Global, just: Just, parts: Vec<Step>) -> Result<Step, Fault>
    ensures goals { IfOk result (λ made. goals_of made.goals.items ≡ spec.goals_of_steps (map step_of parts.items)) }
    ensures tree { IfOk result (λ made. tree_of made.just ≡ spec.splice (tree_of just) (map (λ part. spec.portion_of (step_of part)) parts.items)) }
    ensures within { IfOk result (λ made. is_within_depth (tree_of made.just) ≡ true) }
    ensures err { IfErr result (IsRefused (spec.splice (tree_of just) (map (λ part. spec.portion_of (step_of part)) parts.items))) }
{
    let mut joined = Joined::new(alloc);
    let mut goals = Vec::new(alloc);
    for part in parts {
        let Step {
            goals: mut more,
            just,
        } = part;
        joined.add_own(alloc, just, goals.len())?;
        goals.append(&mut more)?;
    }
    let root = just.node.root;
    let spliced = redirected_just(alloc, joined, goals.len(), just)?;
    let root = number_at(&spliced.new_places, root, 0);
    match finished(alloc, spliced.lines, root) {
        Ok(just) => Ok(Step { goals, just }),
        Err(fault) => Err(fault),
    }
}
