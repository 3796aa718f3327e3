// Terms, made from their steps.
ghost use Rattle.std.specs.Prelude.{◌≡◌, ◌∷◌, [], IfErr, OnOk, Result, reverse};
ghost use Rattle.hol_model.specs.declared.fault.Fault.TheVariants.{Memory};
ghost use Rattle.hol_model.specs.Terms.NamedTerm.{NamedTerm};
ghost use Rattle.hol_model.specs.Texts.TypeGrammar.{TypeTree, type_steps};
ghost use Rattle.hol_model.specs.Texts.TermGrammar.{TermTree};
ghost use Rattle.hol_model.specs.Texts.Reading as reading;
ghost use Rattle.hol_model.specs.Texts.Reading.{meaning};
ghost use Rattle.hol_model.specs.Kernel.Outcome.{Answers};
ghost use Rattle.hol_syntax.specs.Scope.{scope_of};
ghost use Rattle.hol_syntax_grammar.specs.Views.{steps_of};
ghost use Rattle.hol_syntax_grammar.specs.Grammar.{infix_here, binder_here};
ghost use Rattle.hol_syntax_grammar.specs.Steps.{flat_step_of, flat_steps_of};
ghost use Rattle.hol_syntax_grammar.specs.TermSteps as model;
ghost use Rattle.hol_syntax_grammar.specs.TermSteps.{Workspace, MakeApply, MakeNot, MakeJoin, EnterBinder, LeaveBinder, flat_step, flat_steps, term_steps};
ghost use Rattle.hol_syntax.specs.TypeStack.{IsPopped};
ghost use Rattle.hol_syntax.specs.Evaluating.{pushed, IsHeld, Arrives};

use crate::binders::Binders;
use crate::builder::{apply, bare, bind, constant, join, negate, variable};
use crate::leaves::Leaves;
use crate::scope::Scope;
use crate::types::build_type;
use hol_model::Fault;
use hol_syntax_grammar::grammar::{Binder, Infix};
use hol_syntax_grammar::{TermStep, TypeStep};
use hol_terms::Term;
use std::alloc::Global;

// The open binders, the terms that wait, and leaves that further ones share.
#[derive(Drop)]
struct Evaluator {
    binders: Binders,
    terms: Vec<Term>,
    leaves: Leaves,
}

fn push_term(stack: &mut Vec<Term>, term: Term) -> Result<(), Fault>
    ensures pushed { OnOk result (reverse stack.new.items ≡ term ∷ reverse stack.old.items) }
    ensures err { IfErr result (λ fault. fault ≡ Memory) }
{
    stack.push(term)?;
    Ok(())
}

fn pop_term(stack: &mut Vec<Term>) -> Option<Term>
    ensures { IsPopped result (reverse stack.old.items) (reverse stack.new.items) }
{
    stack.pop()
}

impl Evaluator {
    // Puts a term on those that wait.
    fn put(&mut self, made: Result<Term, Fault>) -> Result<(), Fault>
        ensures { (work : Workspace) (wanted : Result NamedTerm Fault) → IsHeld self.old work → Answers made wanted
            → Arrives result self.new (pushed work wanted) }
    {
        let term = made?;
        push_term(&mut self.terms, term)
    }

    // Puts a variable or a constant on those that wait.
    fn put_leaf(&mut self, alloc: Global, made: Result<Term, Fault>) -> Result<(), Fault>
        ensures { (work : Workspace) (wanted : Result NamedTerm Fault) → IsHeld self.old work → Answers made wanted
            → Arrives result self.new (pushed work wanted) }
    {
        let leaf = made?;
        let shared = self.leaves.shared(alloc, leaf)?;
        push_term(&mut self.terms, shared)
    }

    fn apply(&mut self, alloc: Global) -> Result<(), Fault>
        ensures { (scope : reading.Scope) (work : Workspace) → IsHeld self.old work
            → Arrives result self.new (model.take_step scope MakeApply work) }
    {
        let Some(argument) = pop_term(&mut self.terms) else {
            return Err(Fault::TypeMismatch);
        };
        let Some(function) = pop_term(&mut self.terms) else {
            return Err(Fault::TypeMismatch);
        };
        let made = apply(alloc, &function, &argument);
        self.put(made)
    }

    fn negate(&mut self, alloc: Global, scope: &Scope) -> Result<(), Fault>
        ensures { (work : Workspace) → IsHeld self.old work
            → Arrives result self.new (model.take_step (scope_of scope.now) MakeNot work) }
    {
        let Some(term) = pop_term(&mut self.terms) else {
            return Err(Fault::TypeMismatch);
        };
        let made = negate(alloc, scope, &term);
        self.put(made)
    }

    fn join(&mut self, alloc: Global, scope: &Scope, operation: Infix) -> Result<(), Fault>
        ensures { (work : Workspace) → IsHeld self.old work
            → Arrives result self.new (model.take_step (scope_of scope.now) (MakeJoin (infix_here operation)) work) }
    {
        let Some(right) = pop_term(&mut self.terms) else {
            return Err(Fault::TypeMismatch);
        };
        let Some(left) = pop_term(&mut self.terms) else {
            return Err(Fault::TypeMismatch);
        };
        let made = join(alloc, scope, operation, &left, &right);
        self.put(made)
    }

    // Opens a binder.
    fn enter(
        &mut self,
        alloc: Global,
        scope: &Scope,
        name: &[u8],
        types: &[TypeStep],
    ) -> Result<(), Fault>
        ensures { (tree : TypeTree) (work : Workspace) → steps_of types.now ≡ type_steps tree → IsHeld self.old work
            → Arrives result self.new (model.take_step (scope_of scope.now) (EnterBinder name.now tree) work) }
    {
        let ty = build_type(alloc, scope, types)?;
        let binder = variable(alloc, name, &ty)?;
        self.binders.enter(alloc, binder)
    }

    // Closes the innermost binder.
    fn leave(&mut self, alloc: Global, scope: &Scope, quantifier: Binder) -> Result<(), Fault>
        ensures { (work : Workspace) → IsHeld self.old work
            → Arrives result self.new (model.take_step (scope_of scope.now) (LeaveBinder (binder_here quantifier)) work) }
    {
        let Some(binder) = self.binders.leave(alloc)? else {
            return Err(Fault::TypeMismatch);
        };
        let Some(body) = pop_term(&mut self.terms) else {
            return Err(Fault::TypeMismatch);
        };
        let made = bind(alloc, scope, quantifier, &binder, &body);
        self.put(made)
    }

    fn take_step(&mut self, alloc: Global, scope: &Scope, step: &TermStep) -> Result<(), Fault>
        ensures { (taken : model.TermStep) (work : Workspace) → flat_step_of step.now ≡ flat_step taken → IsHeld self.old work
            → Arrives result self.new (model.take_step (scope_of scope.now) taken work) }
    {
        match step {
            TermStep::Bare(name) => {
                let made = bare(alloc, scope, &self.binders, name);
                self.put_leaf(alloc, made)
            }
            TermStep::Variable(name, types) => {
                let ty = build_type(alloc, scope, types)?;
                let made = variable(alloc, name, &ty);
                self.put_leaf(alloc, made)
            }
            TermStep::Constant(name, types) => {
                let ty = build_type(alloc, scope, types)?;
                let made = constant(alloc, scope, name, &ty);
                self.put_leaf(alloc, made)
            }
            TermStep::Apply => self.apply(alloc),
            TermStep::Not => self.negate(alloc, scope),
            TermStep::Join(operation) => self.join(alloc, scope, *operation),
            TermStep::Enter(name, types) => self.enter(alloc, scope, name, types),
            TermStep::Leave(quantifier) => self.leave(alloc, scope, *quantifier),
        }
    }
}

/// The term that the steps of a tree make, or the first refusal.
pub fn term_of_steps(alloc: Global, scope: &Scope, steps: &[TermStep]) -> Result<Term, Fault>
    ensures { (tree : TermTree) → flat_steps_of steps.now ≡ flat_steps (term_steps tree)
        → Answers result (meaning (scope_of scope.now) [] tree) }
{
    let mut evaluator = Evaluator {
        binders: Binders::new(alloc),
        terms: Vec::new(alloc),
        leaves: Leaves::new(alloc),
    };
    for step in steps {
        evaluator.take_step(alloc, scope, step)?;
    }
    match pop_term(&mut evaluator.terms) {
        Some(term) => Ok(term),
        None => Err(Fault::Syntax),
    }
}
