// The depths of the trees of lines, each computed once.
ghost use Rattle.std.specs.Prelude.{◌≡◌, ◌+◌, ◌<◌, ◌^◌, [], length, IfOk, IfErr};
ghost use Rattle.hol_model.specs.declared.fault.Fault.TheVariants.{Memory};
ghost use Rattle.hol_model.specs.Goals.Replays.{depth, is_within_depth};
ghost use Rattle.hol_just.specs.Lines.{flat_line, flat_lines, flat_of_lines};
ghost use Rattle.hol_just.specs.Depths.{AreWithin, depth_of_line, depths_after};
ghost use Rattle.hol_just.specs.Flat.{tree};

use crate::line::Line;
use crate::places::{greatest_at, number_at};
use hol_model::{Fault, JUSTIFICATION_DEPTH_LIMIT};
use std::alloc::Global;

// The depth of a line's tree, behind lines of these depths.
fn depth_of_line(depths: &[usize], line: &Line) -> usize
    requires within { AreWithin (length depths.now + 1) depths.now }
    requires short { length depths.now < 2 ^ 63 }
    ensures { result ≡ depth_of_line depths.now (flat_line line.now) }
{
    match line {
        Line::ByRule(_, places) => greatest_at(depths, places, 1) + 1,
        _ => 1,
    }
}

// The depths of the lines' trees.
fn depths(alloc: Global, lines: &[Line]) -> Result<Vec<usize>, Fault>
    ensures ok { IfOk result (λ depths. depths.items ≡ depths_after [] (flat_lines lines.now)) }
    ensures err { IfErr result (λ fault. fault ≡ Memory) }
{
    let mut depths = Vec::new(alloc);
    for line in lines {
        let depth = depth_of_line(&depths, line);
        depths.push(depth)?;
    }
    Ok(depths)
}

/// The depth of the tree of the line at a place.
#[tactic(auto, using(crate::proofs::Depths::root_depth))]
pub(crate) fn root_depth(alloc: Global, lines: &[Line], root: usize) -> Result<usize, Fault>
    ensures ok { IfOk result (λ found. found ≡ depth (tree (flat_of_lines lines.now root))) }
    ensures err { IfErr result (λ fault. fault ≡ Memory) }
{
    let depths = depths(alloc, lines)?;
    Ok(number_at(&depths, root, 1))
}

/// Whether the tree of the line at a place is within the limit.
pub(crate) fn is_within_depth(alloc: Global, lines: &[Line], root: usize) -> Result<bool, Fault>
    ensures ok { IfOk result (λ answer. answer ≡ is_within_depth (tree (flat_of_lines lines.now root))) }
    ensures err { IfErr result (λ fault. fault ≡ Memory) }
{
    Ok(root_depth(alloc, lines, root)? <= JUSTIFICATION_DEPTH_LIMIT as usize)
}
