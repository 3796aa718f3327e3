// What stands for the subgoals of a justification that is refined at its first subgoal again and again.
ghost use Rattle.std.specs.Prelude.{◌≡◌, ◌∷◌, map, drop, true, IfOk, IfErr};
ghost use Rattle.hol_model.specs.declared.fault.Fault.TheVariants.{Memory};
ghost use Rattle.hol_model.specs.Goals.Replays.{is_within_depth};
ghost use Rattle.hol_just.specs.Portions.{refined_in_turn, portion_of, flat_portion_of, bare_front, front_before, front_before_all};
ghost use Rattle.hol_just.specs.Growing.{front_of};
ghost use Rattle.hol_just.specs.Steps.{tree_of, IsRefused};

use crate::just::Just;
use crate::making::finished;
use crate::moving::{Joined, moved};
use crate::places::number_at;
use crate::portion::Portion;
use crate::splicing::redirected;
use hol_model::Fault;
use std::alloc::Global;

// What stands for each subgoal: the line at its root, and past the roots the subgoals from a number on.
#[derive(Drop)]
struct Front {
    joined: Joined,
    subgoals: usize,
}

// The roots without the first ones, so many.
fn later_roots(alloc: Global, roots: &[usize], count: usize) -> Result<Vec<usize>, Fault>
    ensures ok { IfOk result (λ later. later.items ≡ drop count roots.now) }
    ensures err { IfErr result (λ fault. fault ≡ Memory) }
{
    let mut later = Vec::new(alloc);
    for place in count..roots.len() {
        later.push(roots[place])?;
    }
    Ok(later)
}

// The root, and the later ones behind it.
fn and_later(alloc: Global, root: usize, later: &[usize]) -> Result<Vec<usize>, Fault>
    ensures ok { IfOk result (λ roots. roots.items ≡ root ∷ later.now) }
    ensures err { IfErr result (λ fault. fault ≡ Memory) }
{
    let mut roots = Vec::new(alloc);
    roots.push(root)?;
    for root in later {
        roots.push(*root)?;
    }
    Ok(roots)
}

impl Front {
    // Nothing stands for a subgoal but itself.
    fn bare(alloc: Global) -> Front
        ensures { front_of result ≡ bare_front }
    {
        Front {
            joined: Joined::new(alloc),
            subgoals: 0,
        }
    }

    // The front before the portion: it stands for the first subgoal.
    fn before(self, alloc: Global, portion: &Portion) -> Result<Front, Fault>
        ensures ok { IfOk result (λ made. front_of made ≡ front_before (front_of self) (flat_portion_of portion.now)) }
        ensures err { IfErr result (λ fault. fault ≡ Memory) }
    {
        let roots = self.joined.roots.len();
        let later = later_roots(alloc, &self.joined.roots, portion.subgoals)?;
        let subgoals = moved(portion.subgoals.saturating_sub(roots), self.subgoals)?;
        let lines = redirected(alloc, self.joined, self.subgoals, &portion.just.node.lines)?;
        let root = number_at(&lines.new_places, portion.just.node.root, 0);
        let joined = Joined {
            lines: lines.lines,
            roots: and_later(alloc, root, &later)?,
        };
        Ok(Front { joined, subgoals })
    }

    // The front before portions, the newest first in the list.
    fn before_all(alloc: Global, portions: &[Portion]) -> Result<Front, Fault>
        ensures ok { IfOk result (λ made. front_of made ≡ front_before_all (map flat_portion_of portions.now) bare_front) }
        ensures err { IfErr result (λ fault. fault ≡ Memory) }
    {
        let mut front = Front::bare(alloc);
        for portion in portions {
            front = front.before(alloc, portion)?;
        }
        Ok(front)
    }
}

/// The justification with the portions one after another, the newest first in the list, each in place of the subgoal that is
/// first then.
pub(crate) fn refined_in_turn(
    alloc: Global,
    just: &Just,
    portions: &[Portion],
) -> Result<Just, Fault>
    ensures tree { IfOk result (λ made. tree_of made ≡ refined_in_turn (map portion_of portions.now) (tree_of just.now)) }
    ensures within { IfOk result (λ made. is_within_depth (tree_of made) ≡ true) }
    ensures err { IfErr result (IsRefused (refined_in_turn (map portion_of portions.now) (tree_of just.now))) }
{
    let front = Front::before_all(alloc, portions)?;
    let lines = redirected(alloc, front.joined, front.subgoals, &just.node.lines)?;
    let root = number_at(&lines.new_places, just.node.root, 0);
    finished(alloc, lines.lines, root)
}
