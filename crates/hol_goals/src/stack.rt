// The stack.
ghost use Rattle.std.specs.Prelude.{◌≡◌, Some, None, IfOk, IfErr};
ghost use Rattle.hol_model.specs.declared.fault.Fault.TheVariants.{Memory};
ghost use Rattle.hol_model.specs.Kernel.Rules.{is_formula};
ghost use Rattle.hol_journal.specs.Journal.{Journal};
ghost use Rattle.hol_just.specs.Steps.{goal_of};
ghost use Rattle.hol_model.specs.Goals.GoalStates as states;
ghost use Rattle.hol_goals.specs.Settings.{IsDecided};
ghost use Rattle.hol_goals.specs.Stages.{stage_of, attempt_of, stack_of};
ghost use Rattle.hol_goals.specs.Made.{IsStageMade, IsAttemptMade};

use crate::attempt::{Attempt, Change};
use crate::expanding::Told;
use crate::proving::Prover;
use crate::stage::{Opening, Stage};
use hol_combine::refine_goal;
use hol_host::Refiners;
use hol_journal::{Rec, Recorder};
use hol_just::{Goal, Growing, Step, sub};
use hol_model::Fault;
use hol_tactic_exprs::{Fuel, Tac};
use hol_terms::{Term, equation_fits};
use std::alloc::Global;
use std::collections::VecDeque;

/// The proof of a goal under way, if one was set.
#[derive(Drop)]
pub struct Stack {
    attempt: Option<Attempt>,
}

// A term as a goal without assumptions.
fn goal_of_term(alloc: Global, term: &Term) -> Result<Goal, Fault>
    ensures ok { IfOk result (λ goal. goal_of goal ≡ states.goal_of term.now) }
    ensures err { IfErr result (λ fault. fault ≡ Memory) }
{
    Ok(Goal {
        asms: Vec::new(alloc),
        concl: term.copy(alloc)?,
    })
}

// The stage at which nothing was done to a goal.
fn untouched(alloc: Global, term: &Term) -> Result<Stage, Fault>
    ensures ok { IfOk result (λ stage. stage_of stage ≡ states.underway (states.untouched (states.goal_of term.now))) }
    ensures made { (journal : Journal) → IfOk result (IsStageMade journal) }
    ensures err { IfErr result (λ fault. fault ≡ Memory) }
{
    let mut goals = Vec::new(alloc);
    goals.push(goal_of_term(alloc, term)?)?;
    Ok(Stage::Underway(Opening {
        goals,
        just: Growing::new(alloc, sub(alloc, 0)?)?,
    }))
}

// The proof of a term that nothing was done to.
fn begun(alloc: Global, term: &Term) -> Result<Attempt, Fault>
    ensures ok { IfOk result (λ attempt. attempt_of attempt ≡ record { proof = Some (states.begun (states.goal_of term.now)); before = None }) }
    ensures made { (journal : Journal) → IfOk result (IsAttemptMade journal) }
    ensures err { IfErr result (λ fault. fault ≡ Memory) }
{
    let goal = goal_of_term(alloc, term)?;
    let stage = untouched(alloc, term)?;
    let mut stages = VecDeque::new(alloc);
    if stages.push_front(stage).is_err() {
        return Err(Fault::Memory);
    }
    Ok(Attempt {
        goal,
        stages,
        change: Change::Nothing,
    })
}

// Whether a term is a formula.
fn is_formula(term: &Term) -> bool
    ensures { result ≡ is_formula term.now }
{
    term.ty().is_bool()
}

// Whether a goal can be set: a known formula, whose equation with itself is within the limits.
fn settable(recorder: &Recorder, term: &Term) -> Result<(), Fault>
    ensures { IsDecided (states.set_outcome recorder.now.theory term.now) (states.begun (states.goal_of term.now)) result }
{
    if !is_formula(term) {
        return Err(Fault::NotBool);
    }
    if let Some(fault) = recorder.theory().first_unknown(term) {
        return Err(fault);
    }
    if equation_fits(term) {
        Ok(())
    } else {
        Err(Fault::TooLarge)
    }
}

impl Stack {
    ghost use Rattle.std.specs.Option.{option_map};
    ghost use Rattle.hol_just.specs.Steps.{goals_of};
    ghost use Rattle.std.specs.Prelude.{◌≡◌, ◌⊎◌, IfErr, IfSome, is_some};
    ghost use Rattle.hol_model.specs.declared.fault.Fault.TheVariants.{Memory, NoGoal, NothingToUndo};
    ghost use Rattle.hol_just.specs.Steps.{step_of};
    ghost use Rattle.hol_goals.specs.Refinements.{goal_told, goal_in_focus};
    ghost use Rattle.hol_goals.specs.Expansions.{IsExpandedBy};
    ghost use Rattle.hol_journal.specs.Journal.{Journal, IsMade};
    ghost use Rattle.hol_goals.specs.Made.{StaysMade, IsStageMade, KeepsMade};
    ghost use Rattle.hol_goals.specs.Stages.{opening_of, stage_of, stack_of, theorem_told, HasGoals};
    ghost use Rattle.hol_model.specs.Goals.GoalStates as states;
    ghost use Rattle.hol_model.specs.Goals.StackCalls.{Changes};
    ghost use Rattle.hol_model.specs.Goals.GoalLaws.{IsValidStack};
    ghost use Rattle.hol_model.specs.Logic.Theory.{IsLegal};
    ghost use Rattle.hol_model.specs.Refining.Combinators.{IsLater, at};
    ghost use Rattle.hol_model.specs.Refining.RefinerConditions.{HasKnownWitnesses};
    ghost use Rattle.hol_tactic_exprs.specs.Expressions.{tactic_of};
    ghost use Rattle.hol_combine.specs.Posed.{IsGrounded};
    ghost use Rattle.hol_goals.specs.Running.{RefinesFirst, IsGoodFirst, IsExpandedTo, ClosesIfValid};

    /// The stack without a goal.
    pub fn new() -> Stack
        ensures empty { stack_of result ≡ states.empty_stack }
        ensures made { (journal : Journal) → KeepsMade journal result }
    {
        Stack { attempt: None }
    }

    /// Sets a goal, and forgets the proof that was under way.
    pub fn set(&mut self, alloc: Global, recorder: &Recorder, term: &Term) -> Result<(), Fault>
        ensures outcome { Changes result (states.set_outcome recorder.now.theory term.now) (states.set_stack (stack_of self.old)) (stack_of self.old) (stack_of self.new) }
        ensures made { (journal : Journal) → KeepsMade journal self.old → KeepsMade journal self.new }
    {
        settable(recorder, term)?;
        let attempt = begun(alloc, term)?;
        self.attempt = Some(attempt);
        Ok(())
    }

    /// Takes the last change of the proof back: the stage before it is at hand again.
    pub fn back(&mut self) -> Result<(), Fault>
        ensures outcome { Changes result (states.back_outcome (stack_of self.old).proof) (states.changed_stack (stack_of self.old)) (stack_of self.old) (stack_of self.new) }
        ensures err { IfErr result (λ fault. (fault ≡ NoGoal) ⊎ (fault ≡ NothingToUndo)) }
        ensures made { (journal : Journal) → KeepsMade journal self.old → KeepsMade journal self.new }
    {
        match &mut self.attempt {
            Some(attempt) => attempt.back(),
            None => Err(Fault::NoGoal),
        }
    }

    /// Moves the first open goal behind the others, so many times.
    pub fn rotate(&mut self, alloc: Global, turns: u32) -> Result<(), Fault>
        ensures outcome { Changes result (states.rotate_outcome (stack_of self.old).proof turns) (states.changed_stack (stack_of self.old)) (stack_of self.old) (stack_of self.new) }
        ensures made { (journal : Journal) → KeepsMade journal self.old → KeepsMade journal self.new }
    {
        match &mut self.attempt {
            Some(attempt) => attempt.rotate(alloc, turns as usize),
            None => Err(Fault::NoGoal),
        }
    }

    /// Undoes the last change of the proof, where it was a further stage or a stage taken back.
    pub fn revert(&mut self)
        ensures reverted { stack_of self.new ≡ states.reverted (stack_of self.old) }
        ensures made { (journal : Journal) → KeepsMade journal self.old → KeepsMade journal self.new }
    {
        match &mut self.attempt {
            Some(attempt) => attempt.revert(),
            None => {}
        }
    }

    /// The stage at hand.
    fn stage(&self) -> Option<&Stage>
        ensures stage { option_map (λ stage. stage_of stage.now) result ≡ option_map (λ proof. proof.stage) (stack_of self.now).proof }
        ensures made { (journal : Journal) → KeepsMade journal self.now → IfSome result (λ stage. IsStageMade journal stage.now) }
    {
        match &self.attempt {
            Some(attempt) => attempt.stage(),
            None => None,
        }
    }

    /// Whether a goal is set.
    #[tactic(auto)]
    pub fn is_set(&self) -> bool
        ensures { result ≡ is_some (stack_of self.now).proof }
    {
        self.stage().is_some()
    }

    /// The theorem of the goal, once no goal is open.
    #[tactic(auto, using(crate::proofs::Tops::no_top, crate::proofs::Tops::top_of))]
    pub fn top_thm(&self) -> Result<&Rec, Fault>
        ensures outcome { theorem_told result ≡ states.top_outcome (stack_of self.now).proof }
        ensures made { (journal : Journal) → KeepsMade journal self.now → IfOk result (λ made. IsMade journal made.now) }
    {
        let Some(stage) = self.stage() else {
            return Err(Fault::NoGoal);
        };
        match stage {
            Stage::Underway(_) => Err(Fault::GoalsRemain),
            Stage::Proved(made) => Ok(made),
        }
    }

    /// The goals that are open; none where no goal is set. A proof under way has one at least.
    #[tactic(auto, using(crate::proofs::Tops::no_goals, crate::proofs::Tops::goals_at, crate::proofs::Tops::none_set, crate::proofs::Tops::none_left, crate::proofs::Tops::some_left))]
    pub fn open_goals(&self) -> &[Goal]
        ensures goals { goals_of result.now ≡ states.goals_of_proof (stack_of self.now).proof }
        ensures some { IfSome (stack_of self.now).proof (λ proof. HasGoals proof.stage) }
    {
        let Some(stage) = self.stage() else {
            return &[];
        };
        match stage {
            Stage::Underway(opening) => &opening.goals,
            Stage::Proved(_) => &[],
        }
    }

    /// The first open goal, if one is.
    pub fn focus(&self) -> Result<&Goal, Fault>
        ensures { goal_told result ≡ goal_in_focus (states.focus_outcome (stack_of self.now).proof) }
    {
        match &self.attempt {
            Some(attempt) => attempt.focus(),
            None => Err(Fault::NoGoal),
        }
    }

    /// Refines the first open goal by a step that was found for it (HOL Light's `by`, tactics.ml). Its subgoals stand before the
    /// other goals. Where none is left, the justification is replayed, and the theorem of the goal's own term is the next stage.
    /// Refused, where nothing changes: NoGoal where no goal is open; TooLarge where the justification is deeper than the limit;
    /// where no goal is left, what the replay is refused for, InvalidStep where its theorem does not achieve the goal; Memory.
    pub fn expand_by<P: Prover>(&mut self, alloc: Global, prover: &mut P, refinement: Step) -> Told
        requires ready { P.is_ready prover.old }
        ensures outcome { IsExpandedBy (P.theory prover.old) (P.store prover.old) (step_of refinement) (stack_of self.old) (stack_of self.new) result }
        ensures theory { P.theory prover.new ≡ P.theory prover.old }
        ensures store { P.store prover.new ≡ P.store prover.old }
        ensures ready { P.is_ready prover.new }
        ensures stays { StaysMade (P.journal prover.old) (P.journal prover.new) }
        ensures extends { P.extends prover.old prover.new }
        ensures made { KeepsMade (P.journal prover.old) self.old → KeepsMade (P.journal prover.new) self.new }
    {
        match &mut self.attempt {
            Some(attempt) => attempt.expand_by(alloc, prover, refinement),
            None => Err(Fault::NoGoal),
        }
    }

    // Runs an expression on the first open goal.
    fn refine_first<P: Prover, H: Refiners>(
        &self,
        alloc: Global,
        prover: &mut P,
        tac: &Tac<Term>,
        host: &H,
        fuel: &mut Fuel,
    ) -> Result<Step, Fault>
        requires ready { P.is_ready prover.old }
        requires grounded { IsGrounded (P.theory prover.old) (P.store prover.old) }
        requires witnesses { HasKnownWitnesses (P.theory prover.old) (tactic_of tac.now) }
        requires valid { IsValidStack (P.theory prover.old) (P.store prover.old) (stack_of self.now) }
        ensures runs { RefinesFirst (H.refiners host.now) (H.conversions host.now) (P.theory prover.old) (P.store prover.old) fuel.old.left tac.now
            (stack_of self.now) result (P.store prover.new) fuel.new.left }
        ensures good { IfOk result (IsGoodFirst (P.theory prover.old) (P.store prover.new) (stack_of self.now)) }
        ensures later { IsLater (P.theory prover.old) (at (P.store prover.old) fuel.old.left) (at (P.store prover.new) fuel.new.left) }
        ensures theory { P.theory prover.new ≡ P.theory prover.old }
        ensures ready { P.is_ready prover.new }
        ensures stays { StaysMade (P.journal prover.old) (P.journal prover.new) }
        ensures extends { P.extends prover.old prover.new }
    {
        let goal = self.focus()?;
        refine_goal(alloc, tac, goal, host, prover, fuel)
    }

    /// Refines the first open goal by an expression (HOL Light's `e`, tactics.ml), whose witnesses are known terms. Its subgoals
    /// stand before the other goals. Where none is left, the whole justification is replayed, and the theorem of the goal's own
    /// term is the next stage. Lemmas are added to what is stored, also where it is refused.
    ///
    /// Refused, where nothing of the stack changes: NoGoal where no goal is open; what the expression is refused for, StepLimit
    /// only where no step is left; TooLarge where the justification is deeper than the limit, or the replay has no room; Memory. The
    /// replay of a whole proof is refused for memory or room alone.
    pub fn expand<P: Prover, H: Refiners>(
        &mut self,
        alloc: Global,
        prover: &mut P,
        tac: &Tac<Term>,
        host: &H,
        fuel: &mut Fuel,
    ) -> Told
        requires ready { P.is_ready prover.old }
        requires legal { IsLegal (P.theory prover.old) }
        requires grounded { IsGrounded (P.theory prover.old) (P.store prover.old) }
        requires witnesses { HasKnownWitnesses (P.theory prover.old) (tactic_of tac.now) }
        requires valid { IsValidStack (P.theory prover.old) (P.store prover.old) (stack_of self.old) }
        ensures expanded { IsExpandedTo (H.refiners host.now) (H.conversions host.now) (P.theory prover.old)
            (P.store prover.old) fuel.old.left tac.now (stack_of self.old) (stack_of self.new) result (P.store prover.new) fuel.new.left }
        ensures closing { ClosesIfValid (H.refiners host.now) (H.conversions host.now) (P.theory prover.old)
            (P.store prover.old) fuel.old.left tac.now (stack_of self.old) result (P.store prover.new) fuel.new.left }
        ensures later { IsLater (P.theory prover.old) (at (P.store prover.old) fuel.old.left) (at (P.store prover.new) fuel.new.left) }
        ensures valid { IsValidStack (P.theory prover.old) (P.store prover.new) (stack_of self.new) }
        ensures theory { P.theory prover.new ≡ P.theory prover.old }
        ensures ready { P.is_ready prover.new }
        ensures stays { StaysMade (P.journal prover.old) (P.journal prover.new) }
        ensures extends { P.extends prover.old prover.new }
        ensures made { KeepsMade (P.journal prover.old) self.old → KeepsMade (P.journal prover.new) self.new }
    {
        let refinement = self.refine_first(alloc, prover, tac, host, fuel)?;
        self.expand_by(alloc, prover, refinement)
    }
}
