// The stack of REPEAT: steps whose subgoals are being refined.
ghost use Rattle.std.specs.Prelude.{◌≡◌, ◌∷◌, true, OnOk, IfOk, IfErr};
ghost use Rattle.hol_model.specs.declared.fault.Fault.TheVariants.{Memory};
ghost use Rattle.hol_model.specs.Goals.Replays.{depth};
ghost use Rattle.hol_just.specs.Steps.{step_of, tree_of};
ghost use Rattle.hol_combine.specs.Repeating.{Popped, Taken, LacksRoom, frame_of, frames_of, begun, next_above, has_room, with_done};

use crate::splicing::keep;
use hol_just::{Goal, Just, Step};
use hol_model::{Fault, JUSTIFICATION_DEPTH_LIMIT};
use std::alloc::Global;

/// A step, of whose subgoals the first are refined.
#[derive(Drop)]
pub(crate) struct Frame {
    pub(crate) just: Just,
    /// The subgoals that are still to be refined, the first of them last.
    pub(crate) goals: Vec<Goal>,
    /// What refined those before them.
    pub(crate) done: Vec<Step>,
    /// How many levels the justification of the whole has above that of the step; none where that takes no part in it.
    pub(crate) above: Option<usize>,
}

// A frame on top.
fn push(stack: &mut Vec<Frame>, frame: Frame) -> Result<(), Fault>
    ensures ok { OnOk result (frames_of stack.new.items ≡ frame_of frame ∷ frames_of stack.old.items) }
    ensures err { IfErr result (λ fault. fault ≡ Memory) }
{
    stack.push(frame)?;
    Ok(())
}

/// Takes the frame on top.
pub(crate) fn pop(stack: &mut Vec<Frame>) -> Option<Frame>
    ensures { Popped result (frames_of stack.old.items) (frames_of stack.new.items) }
{
    stack.pop()
}

/// Takes the first of the subgoals that are still to be refined.
pub(crate) fn take_goal(frame: &mut Frame) -> Option<Goal>
    ensures { Taken result (frame_of frame.old) (frame_of frame.new) }
{
    frame.goals.pop()
}

// Whether a justification with so many levels above it is within the limit.
fn has_room(alloc: Global, above: Option<usize>, just: &Just) -> Result<bool, Fault>
    ensures ok { IfOk result (λ room. room ≡ has_room above (depth (tree_of just.now))) }
    ensures err { IfErr result (λ fault. fault ≡ Memory) }
{
    let Some(above) = above else {
        return Ok(true);
    };
    let depth = just.depth(alloc)?;
    Ok(above.saturating_add(depth) <= JUSTIFICATION_DEPTH_LIMIT as usize)
}

/// A frame on top for a step of whose subgoals none is refined. Refused: TooLarge where the justification of the whole is too
/// deep, whatever refines them; Memory.
pub(crate) fn begin(
    alloc: Global,
    stack: &mut Vec<Frame>,
    above: Option<usize>,
    step: Step,
) -> Result<(), Fault>
    ensures ok { OnOk result (frames_of stack.new.items ≡ begun above (step_of step) ∷ frames_of stack.old.items) }
    ensures room { OnOk result (has_room above (depth (tree_of step.just)) ≡ true) }
    ensures err { IfErr result (LacksRoom above (step_of step)) }
{
    let Step { mut goals, just } = step;
    if !has_room(alloc, above, &just)? {
        return Err(Fault::TooLarge);
    }
    goals.reverse();
    let done = Vec::new(alloc);
    push(
        stack,
        Frame {
            just,
            goals,
            done,
            above,
        },
    )
}

// How many levels stand above what refines the next subgoal.
fn next_above(alloc: Global, frame: &Frame) -> Result<Option<usize>, Fault>
    ensures ok { IfOk result (λ above. above ≡ next_above (frame_of frame.now)) }
    ensures err { IfErr result (λ fault. fault ≡ Memory) }
{
    let Some(above) = frame.above else {
        return Ok(None);
    };
    let depth = frame.just.subgoal_depth(alloc, frame.done.len())?;
    if depth == 0 {
        return Ok(None);
    }
    Ok(Some(above.saturating_add(depth - 1)))
}

/// The frame that was on top again, and a frame for a step that refines its next subgoal. Refused: as `begin` refuses.
pub(crate) fn descend(
    alloc: Global,
    stack: &mut Vec<Frame>,
    frame: Frame,
    next: Step,
) -> Result<(), Fault>
    ensures ok { OnOk result (frames_of stack.new.items ≡ begun (next_above (frame_of frame)) (step_of next) ∷ frame_of frame ∷ frames_of stack.old.items) }
    ensures err { IfErr result (LacksRoom (next_above (frame_of frame)) (step_of next)) }
{
    let above = next_above(alloc, &frame)?;
    push(stack, frame)?;
    begin(alloc, stack, above, next)
}

/// The frame that was on top again, with a step more.
pub(crate) fn resume(stack: &mut Vec<Frame>, frame: Frame, made: Step) -> Result<(), Fault>
    ensures ok { OnOk result (frames_of stack.new.items ≡ with_done (frame_of frame) (step_of made) ∷ frames_of stack.old.items) }
    ensures err { IfErr result (λ fault. fault ≡ Memory) }
{
    let mut frame = frame;
    keep(&mut frame.done, made)?;
    push(stack, frame)
}
