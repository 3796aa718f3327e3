// How deep a subgoal stands in lines' trees, each line asked once.
ghost use Rattle.std.specs.Prelude.{◌≡◌, ◌<◌, ◌^◌, [], length, IfOk, IfErr};
ghost use Rattle.hol_model.specs.declared.fault.Fault.TheVariants.{Memory};
ghost use Rattle.hol_just.specs.Depths.{AreWithin};
ghost use Rattle.hol_just.specs.Flat.{tree};
ghost use Rattle.hol_just.specs.Lines.{flat_line, flat_lines, flat_of_lines};
ghost use Rattle.hol_just.specs.SubgoalDepths.{subgoal_depth, subgoal_depth_of_line, subgoal_depths_after};

use crate::line::Line;
use crate::places::{greatest_at, number_at};
use hol_model::Fault;
use std::alloc::Global;

// How deep the subgoal stands in a line's tree, behind lines in whose trees it stands so deep.
fn depth_of_line(depths: &[usize], number: usize, line: &Line) -> usize
    requires within { AreWithin (length depths.now) depths.now }
    requires short { length depths.now < 2 ^ 63 }
    ensures { result ≡ subgoal_depth_of_line number depths.now (flat_line line.now) }
{
    match line {
        Line::Sub(other) => usize::from(*other == number),
        Line::ByRule(_, places) => {
            let greatest = greatest_at(depths, places, 0);
            if greatest == 0 {
                return 0;
            }
            greatest + 1
        }
        _ => 0,
    }
}

// The same for all lines.
fn depths(alloc: Global, lines: &[Line], number: usize) -> Result<Vec<usize>, Fault>
    ensures ok { IfOk result (λ depths. depths.items ≡ subgoal_depths_after number [] (flat_lines lines.now)) }
    ensures err { IfErr result (λ fault. fault ≡ Memory) }
{
    let mut depths = Vec::new(alloc);
    for line in lines {
        let depth = depth_of_line(&depths, number, line);
        depths.push(depth)?;
    }
    Ok(depths)
}

/// How deep the subgoal stands in the tree of the line at a place, 1 where it is the tree; 0 where it does not stand there.
#[tactic(auto, using(crate::proofs::SubgoalDepths::root_depth))]
pub(crate) fn root_subgoal_depth(
    alloc: Global,
    lines: &[Line],
    root: usize,
    number: usize,
) -> Result<usize, Fault>
    ensures ok { IfOk result (λ found. found ≡ subgoal_depth number (tree (flat_of_lines lines.now root))) }
    ensures err { IfErr result (λ fault. fault ≡ Memory) }
{
    let depths = depths(alloc, lines, number)?;
    Ok(number_at(&depths, root, 0))
}
