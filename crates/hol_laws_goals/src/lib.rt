//! The laws on proofs of goals and on goal stacks: what is sound stays so.
//!
//! Each function is a law: it does nothing, and its clause is the law's statement, for callers' proofs.
#![tactic(auto)]

ghost use Rattle.hol_model.specs.Goals.GoalLaws.{SetIsValid, BackIsValid, RotateIsValid, ExpandIsValid, ExpandFailsForSize, RevertIsValid, ProofsStayValid};

/// What is set is sound.
pub fn set_is_valid()
    ensures { SetIsValid }
{}

/// Taking back keeps a proof sound.
pub fn back_is_valid()
    ensures { BackIsValid }
{}

/// Rotating keeps a proof sound.
pub fn rotate_is_valid()
    ensures { RotateIsValid }
{}

/// Refining the first goal by a valid step keeps a proof sound.
pub fn expand_is_valid()
    ensures { ExpandIsValid }
{}

/// Refining the first goal by a valid step is refused for memory or size alone.
pub fn expand_fails_for_size()
    ensures { ExpandFailsForSize }
{}

/// Undoing keeps a stack sound.
pub fn revert_is_valid()
    ensures { RevertIsValid }
{}

/// What is sound stays so while the theory and the store grow.
pub fn proofs_stay_valid()
    ensures { ProofsStayValid }
{}
