// Justifications that grow at their first subgoal.
ghost use Rattle.std.specs.Prelude.{◌≡◌, ◌∷◌, ◌≤◌, map, true, IfOk, IfErr};
ghost use Rattle.hol_model.specs.declared.fault.Fault.TheVariants.{Memory};
ghost use Rattle.hol_model.specs.Goals.Replays.{depth, is_within_depth};
ghost use Rattle.hol_just.specs.Portions.{refined_first, refined_in_turn, portion_of, flat_portion_of};
ghost use Rattle.hol_just.specs.Steps.{tree_of, IsRefused};

use crate::front::refined_in_turn;
use crate::just::Just;
use crate::moving::moved;
use crate::portion::Portion;
use hol_model::{Fault, JUSTIFICATION_DEPTH_LIMIT};
use std::alloc::Global;

// How many portions stand apart at most: so many steps share the lines of a justification before they are copied.
const PORTIONS_LIMIT: usize = 64;

/// The justification of a proof under way, which is refined at its first subgoal again and again. What refined it last stands
/// apart, the newest first, so a further step copies no more than that.
#[derive(Drop)]
pub struct Growing {
    just: Just,
    portions: Vec<Portion>,
    depth_bound: usize,
    ghost bounded: { depth (refined_in_turn (map portion_of portions.items) (tree_of just)) ≤ depth_bound },
}

// The portion, and the older ones behind it.
fn and_older(alloc: Global, portion: Portion, older: &[Portion]) -> Result<Vec<Portion>, Fault>
    ensures ok { IfOk result (λ all. map flat_portion_of all.items ≡ flat_portion_of portion ∷ map flat_portion_of older.now) }
    ensures err { IfErr result (λ fault. fault ≡ Memory) }
{
    let mut all = Vec::new(alloc);
    all.push(portion)?;
    for portion in older {
        all.push(portion.copy(alloc)?)?;
    }
    Ok(all)
}

impl Growing {
    ghost use Rattle.hol_just.specs.Growing.{grown_tree};

    /// The justification, refined by nothing so far. Refused: Memory.
    pub fn new(alloc: Global, just: Just) -> Result<Growing, Fault>
        ensures tree { IfOk result (λ made. grown_tree made ≡ tree_of just) }
        ensures err { IfErr result (λ fault. fault ≡ Memory) }
    {
        let depth_bound = just.depth(alloc)?;
        Ok(Growing {
            just,
            portions: Vec::new(alloc),
            depth_bound,
        })
    }

    // The justification refined by the portions, the newest first in the list, none of which stands apart any more.
    fn folded(alloc: Global, just: &Just, portions: &[Portion]) -> Result<Growing, Fault>
        ensures tree { IfOk result (λ made. grown_tree made ≡ refined_in_turn (map portion_of portions.now) (tree_of just.now)) }
        ensures within { IfOk result (λ made. is_within_depth (grown_tree made) ≡ true) }
        ensures err { IfErr result (IsRefused (refined_in_turn (map portion_of portions.now) (tree_of just.now))) }
    {
        let just = refined_in_turn(alloc, just, portions)?;
        Growing::new(alloc, just)
    }

    /// The justification with the portion in place of its first subgoal, the others numbered behind the portion's. Refused:
    /// Memory (also where a number would pass `usize`), or TooLarge for a tree that is deeper than the limit.
    pub fn refined(&self, alloc: Global, portion: Portion) -> Result<Growing, Fault>
        ensures tree { IfOk result (λ made. grown_tree made ≡ refined_first (portion_of portion) (grown_tree self.now)) }
        ensures within { IfOk result (λ made. is_within_depth (grown_tree made) ≡ true) }
        ensures err { IfErr result (IsRefused (refined_first (portion_of portion) (grown_tree self.now))) }
    {
        let deeper = portion.just.depth(alloc)?.saturating_sub(1);
        let depth_bound = moved(deeper, self.depth_bound)?;
        let portions = and_older(alloc, portion, &self.portions)?;
        if depth_bound <= JUSTIFICATION_DEPTH_LIMIT as usize && portions.len() <= PORTIONS_LIMIT {
            return Ok(Growing {
                just: self.just.copy(alloc)?,
                portions,
                depth_bound,
            });
        }
        Growing::folded(alloc, &self.just, &portions)
    }

    /// The whole in one list of lines. Refused: Memory (also where a number would pass `usize`), or TooLarge for a tree that is
    /// deeper than the limit.
    pub fn whole(&self, alloc: Global) -> Result<Just, Fault>
        ensures tree { IfOk result (λ made. tree_of made ≡ grown_tree self.now) }
        ensures within { IfOk result (λ made. is_within_depth (tree_of made) ≡ true) }
        ensures err { IfErr result (IsRefused (grown_tree self.now)) }
    {
        refined_in_turn(alloc, &self.just, &self.portions)
    }
}
