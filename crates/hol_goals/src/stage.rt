// How far a proof has come.
ghost use Rattle.std.specs.Prelude.{◌≡◌, ◌<◌, length, true};
ghost use Rattle.hol_model.specs.Goals.Replays.{is_within_depth};
ghost use Rattle.hol_just.specs.Growing.{grown_tree};

use hol_journal::Rec;
use hol_just::{Goal, Growing};

/// Goals, and how their sequents make the goal's (HOL Light's goalstate).
#[derive(Drop)]
pub(crate) struct GoalState {
    pub(crate) goals: Vec<Goal>,
    pub(crate) just: Growing,
}

/// Goals that are open, one at least, and how their sequents make the goal's, by a tree within the depth limit.
#[derive(Drop)]
pub(crate) struct Opening {
    pub(crate) goals: Vec<Goal>,
    pub(crate) just: Growing,
    ghost open: { 0 < length goals.items },
    ghost within: { is_within_depth (grown_tree just) ≡ true },
}

/// The goals that are open, or the theorem of the goal.
#[derive(Drop)]
pub(crate) enum Stage {
    Underway(Opening),
    Proved(Rec),
}
