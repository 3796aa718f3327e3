// One plain sentence for each refusal.
use crate::tables::line_of;
use hol_model::Fault;

const SENTENCES: &str = "\
Memory there was no memory for the command
TooLarge a term, a type or a justification would pass the limits on its size (a rewriting that makes terms grow has no end)
BadName the name is not of the kind that is wanted here
TypeMismatch the types of two parts do not fit
UnknownConst a constant is not known
NotInstance a constant stands at a type that is no instance of its generic type
NotBool a formula is wanted, which is a term of type `bool`
NotEquation a theorem that concludes an equation is wanted
NotAlpha two terms have to be the same up to the names of bound variables
NotVariable a variable is wanted
FreeInHypothesis the variable is free in a hypothesis
NotTrivialBeta `BETA` wants `(\\x. t) x`, an abstraction applied to the very variable that it binds
NotClosed the body of a definition may have no free variable
TypeVarsNotReflected each type variable in the body of a definition has to occur in the type of the body
AlreadyDefined the name belongs to a constant or a type already
BadShape a formula does not have the form that is wanted here
ConvFails the conversion does not apply to the term
RefineFails the refiner does not apply to the goal
LengthMismatch `THENL` wants one refiner in its list for each subgoal, and their numbers differ
StepLimit the command would take more than 100,000 steps: a repetition or a rewriting may have no end
UnknownName no theorem, or no function of the host of the kind that is wanted here, has the name
NoGoal no goal is open; `goal` sets one, and `save` stores the theorem of a proved one
GoalsRemain `save` wants a proved goal, and goals are still open
NothingToUndo there is no `e` or `r` behind the last `goal` to take back
InvalidStep what a host's function answered does not prove what it claims
NotTautology the formula is false for some values of its atoms
TooManyAtoms the formula has more atoms than tautologies may have
NameTaken the name is taken already
NoMatch the left side of no equation of the theorem matches the term at first order
UnknownType a type is not known";

/// What a refusal means.
pub fn sentence(fault: &Fault) -> &'static str {
    match line_of(SENTENCES, fault.name()) {
        Some(meaning) => meaning,
        None => "the command is refused",
    }
}
