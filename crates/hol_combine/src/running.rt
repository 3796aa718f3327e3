// Runs refiner expressions.
ghost use Rattle.std.specs.Prelude.{◌≡◌, ◌∷◌, [], length};
ghost use Rattle.hol_model.specs.Goals.Replays.{IsKnownGoal};
ghost use Rattle.hol_model.specs.Refining.RefinerConditions.{HaveKnownWitnesses, HasKnownWitnesses, HasKnownWitnessesInLink, HaveKnownWitnessesInLinks};
ghost use Rattle.hol_tactic_exprs.specs.Expressions.{tactic_of, tactics_of, link_of, links_of};
ghost use Rattle.hol_just.specs.Steps.{goal_of, goals_of};
ghost use Rattle.hol_combine.specs.Posed.{IsPosed, ArePosed, IsKept};
ghost use Rattle.hol_combine.specs.Answers.{Refines, HostRefines, Repeats, GoesOn, Chains, LinkRefines, AllRefine, EachRefines};
ghost use Rattle.hol_combine.specs.Repeating.{OnceRefines};

use crate::frames::{Frame, begin, descend, pop, resume, take_goal};
use crate::leaves::Leaves;
use crate::splicing::{bounded, keep, spliced};
use hol_host::{HostFail, Refiners};
use hol_just::{Goal, Step};
use hol_model::Fault;
use hol_tactic_exprs::{Fuel, Leaf, Link, Tac, is_caught};
use hol_terms::Term;
use std::alloc::Global;

/// What stays while an expression runs.
#[derive(Drop)]
pub(crate) struct Setting<'a, H> {
    pub(crate) alloc: Global,
    pub(crate) host: &'a H,
}

// Runs a host's refiner, and takes its step only where it is accepted.
fn run_host<H: Refiners, L: Leaves>(
    setting: &Setting<'_, H>,
    name: &str,
    goal: &Goal,
    leaves: &mut L,
    fuel: &mut Fuel,
) -> Result<Step, Fault>
    requires ready { L.is_ready leaves.old }
    ensures outcome { HostRefines (H.refiners setting.now.host.now) (H.conversions setting.now.host.now) (L.theory leaves.old) (L.store leaves.old)
        fuel.old.left name.now goal.now result (L.store leaves.new) fuel.new.left }
    ensures kept { IsKept (L.theory leaves.old) (L.theory leaves.new) (L.is_ready leaves.new) (L.extends leaves.old leaves.new) }
{
    if !fuel.spend() {
        return Err(Fault::StepLimit);
    }
    let Some(answer) = setting.host.refine(setting.alloc, name, goal) else {
        return Err(Fault::UnknownName);
    };
    let step = match answer {
        Ok(step) => step,
        Err(HostFail::Failed) => return Err(Fault::RefineFails),
        Err(HostFail::Memory) => return Err(Fault::Memory),
    };
    match leaves.accept(setting.alloc, goal, &step) {
        Ok(()) => bounded(setting.alloc, step),
        Err(fault) => Err(fault),
    }
}

/// Runs an expression on a goal.
#[cycle(run)]
pub(crate) fn run<H: Refiners, L: Leaves>(
    setting: &Setting<'_, H>,
    tac: &Tac<Term>,
    goal: &Goal,
    leaves: &mut L,
    fuel: &mut Fuel,
) -> Result<Step, Fault>
    requires ready { L.is_ready leaves.old }
    requires posed { IsPosed (L.theory leaves.old) (L.store leaves.old) (tactic_of tac.now) (goal_of goal.now) }
    ensures outcome { Refines (H.refiners setting.now.host.now) (H.conversions setting.now.host.now) (L.theory leaves.old) (L.store leaves.old)
        fuel.old.left tac.now goal.now result (L.store leaves.new) fuel.new.left }
    ensures kept { IsKept (L.theory leaves.old) (L.theory leaves.new) (L.is_ready leaves.new) (L.extends leaves.old leaves.new) }
{
    match tac {
        Tac::Leaf(leaf) => leaves.refine(setting.alloc, leaf, goal, setting.host, fuel),
        Tac::Host(name) => run_host(setting, name, goal, leaves, fuel),
        Tac::Chain(first, links) => match run(setting, first, goal, leaves, fuel) {
            Ok(step) => run_links(setting, step, links, leaves, fuel),
            Err(fault) => Err(fault),
        },
        Tac::OrElse(first, others) => match run(setting, first, goal, leaves, fuel) {
            Ok(step) => Ok(step),
            Err(fault) => run_others(setting, fault, others, goal, leaves, fuel),
        },
        Tac::Repeat(again) => run_repeat(setting, again, goal, leaves, fuel),
        Tac::Try(first) => match run(setting, first, goal, leaves, fuel) {
            Ok(step) => Ok(step),
            Err(fault) => {
                if !is_caught(&fault) {
                    return Err(fault);
                }
                leaves.refine(setting.alloc, &Leaf::All, goal, setting.host, fuel)
            }
        },
    }
}

// What a step of REPEAT leaves: subgoals on which it goes on, the goal as it was, or a refusal that is not caught.
#[derive(Drop)]
enum Once {
    Refined(Step),
    Stays(Step),
    Refused(Fault),
}

// Runs an expression on a goal once for REPEAT.
#[cycle(run)]
fn run_once<H: Refiners, L: Leaves>(
    setting: &Setting<'_, H>,
    again: &Tac<Term>,
    goal: &Goal,
    leaves: &mut L,
    fuel: &mut Fuel,
) -> Once
    requires ready { L.is_ready leaves.old }
    requires posed { IsPosed (L.theory leaves.old) (L.store leaves.old) (tactic_of again.now) (goal_of goal.now) }
    ensures outcome { OnceRefines (H.refiners setting.now.host.now) (H.conversions setting.now.host.now) (L.theory leaves.old) (L.store leaves.old)
        fuel.old.left again.now goal.now result (L.store leaves.new) fuel.new.left }
    ensures kept { IsKept (L.theory leaves.old) (L.theory leaves.new) (L.is_ready leaves.new) (L.extends leaves.old leaves.new) }
{
    match run(setting, again, goal, leaves, fuel) {
        Ok(step) => Once::Refined(step),
        Err(fault) => {
            if !is_caught(&fault) {
                return Once::Refused(fault);
            }
            match leaves.refine(setting.alloc, &Leaf::All, goal, setting.host, fuel) {
                Ok(step) => Once::Stays(step),
                Err(fault) => Once::Refused(fault),
            }
        }
    }
}

// Runs an expression on a goal, and on what is left of it, until it is refused there.
#[cycle(run)]
fn run_repeat<H: Refiners, L: Leaves>(
    setting: &Setting<'_, H>,
    again: &Tac<Term>,
    goal: &Goal,
    leaves: &mut L,
    fuel: &mut Fuel,
) -> Result<Step, Fault>
    requires ready { L.is_ready leaves.old }
    requires posed { IsPosed (L.theory leaves.old) (L.store leaves.old) (tactic_of again.now) (goal_of goal.now) }
    ensures outcome { Repeats (H.refiners setting.now.host.now) (H.conversions setting.now.host.now) (L.theory leaves.old) (L.store leaves.old)
        fuel.old.left again.now goal.now result (L.store leaves.new) fuel.new.left }
    ensures kept { IsKept (L.theory leaves.old) (L.theory leaves.new) (L.is_ready leaves.new) (L.extends leaves.old leaves.new) }
{
    let mut stack = Vec::new(setting.alloc);
    match run_once(setting, again, goal, leaves, fuel) {
        Once::Refined(step) => begin(setting.alloc, &mut stack, Some(0), step)?,
        Once::Stays(step) => return Ok(step),
        Once::Refused(fault) => return Err(fault),
    }
    while let Some(mut frame) = pop(&mut stack) {
        if let Some(goal) = take_goal(&mut frame) {
            let once = run_once(setting, again, &goal, leaves, fuel);
            drop(goal);
            match once {
                Once::Refined(next) => descend(setting.alloc, &mut stack, frame, next)?,
                Once::Stays(next) => resume(&mut stack, frame, next)?,
                Once::Refused(fault) => return Err(fault),
            }
        } else {
            let Frame {
                just,
                goals: _,
                done,
                above: _,
            } = frame;
            let made = spliced(setting.alloc, just, done)?;
            let Some(below) = pop(&mut stack) else {
                return Ok(made);
            };
            resume(&mut stack, below, made)?;
        }
    }
    unreachable!()
}

// Goes on after a refusal with the first of the others that is not refused so that it is caught.
#[cycle(run)]
fn run_others<H: Refiners, L: Leaves>(
    setting: &Setting<'_, H>,
    fault: Fault,
    rest: &[Tac<Term>],
    goal: &Goal,
    leaves: &mut L,
    fuel: &mut Fuel,
) -> Result<Step, Fault>
    requires ready { L.is_ready leaves.old }
    requires posed { ArePosed (L.theory leaves.old) (L.store leaves.old) (λ theory. HaveKnownWitnesses theory (tactics_of rest.now)) (goal_of goal.now ∷ []) }
    ensures outcome { GoesOn (H.refiners setting.now.host.now) (H.conversions setting.now.host.now) (L.theory leaves.old) (L.store leaves.old)
        fuel.old.left fault rest.now goal.now result (L.store leaves.new) fuel.new.left }
    ensures kept { IsKept (L.theory leaves.old) (L.theory leaves.new) (L.is_ready leaves.new) (L.extends leaves.old leaves.new) }
{
    let mut fault = fault;
    for other in rest {
        if !is_caught(&fault) {
            return Err(fault);
        }
        match run(setting, other, goal, leaves, fuel) {
            Ok(step) => return Ok(step),
            Err(next) => fault = next,
        }
    }
    Err(fault)
}

// Refines a step's subgoals by one link after another.
#[cycle(run)]
fn run_links<H: Refiners, L: Leaves>(
    setting: &Setting<'_, H>,
    step: Step,
    links: &[Link<Term>],
    leaves: &mut L,
    fuel: &mut Fuel,
) -> Result<Step, Fault>
    requires ready { L.is_ready leaves.old }
    requires posed { ArePosed (L.theory leaves.old) (L.store leaves.old) (λ theory. HaveKnownWitnessesInLinks theory (links_of links.now)) (goals_of step.goals.items) }
    ensures outcome { Chains (H.refiners setting.now.host.now) (H.conversions setting.now.host.now) (L.theory leaves.old) (L.store leaves.old)
        fuel.old.left step links.now result (L.store leaves.new) fuel.new.left }
    ensures kept { IsKept (L.theory leaves.old) (L.theory leaves.new) (L.is_ready leaves.new) (L.extends leaves.old leaves.new) }
{
    let mut step = step;
    for link in links {
        let Step { goals, just } = step;
        let steps = run_link(setting, link, &goals, leaves, fuel)?;
        step = spliced(setting.alloc, just, steps)?;
    }
    Ok(step)
}

// Refines goals by a link. Where there are none, a list of any length will do.
#[cycle(run)]
fn run_link<H: Refiners, L: Leaves>(
    setting: &Setting<'_, H>,
    link: &Link<Term>,
    goals: &[Goal],
    leaves: &mut L,
    fuel: &mut Fuel,
) -> Result<Vec<Step>, Fault>
    requires ready { L.is_ready leaves.old }
    requires posed { ArePosed (L.theory leaves.old) (L.store leaves.old) (λ theory. HasKnownWitnessesInLink theory (link_of link.now)) (goals_of goals.now) }
    ensures outcome { LinkRefines (H.refiners setting.now.host.now) (H.conversions setting.now.host.now) (L.theory leaves.old) (L.store leaves.old)
        fuel.old.left link.now goals.now result (L.store leaves.new) fuel.new.left }
    ensures kept { IsKept (L.theory leaves.old) (L.theory leaves.new) (L.is_ready leaves.new) (L.extends leaves.old leaves.new) }
{
    match link {
        Link::Then(tac) => run_on_all(setting, tac, goals, leaves, fuel),
        Link::Thenl(tacs) => {
            if goals.is_empty() {
                return Ok(Vec::new(setting.alloc));
            }
            if tacs.len() != goals.len() {
                return Err(Fault::LengthMismatch);
            }
            run_on_each(setting, tacs, goals, leaves, fuel)
        }
    }
}

// Runs an expression on each goal in turn.
#[cycle(run)]
fn run_on_all<H: Refiners, L: Leaves>(
    setting: &Setting<'_, H>,
    tac: &Tac<Term>,
    goals: &[Goal],
    leaves: &mut L,
    fuel: &mut Fuel,
) -> Result<Vec<Step>, Fault>
    requires ready { L.is_ready leaves.old }
    requires posed { ArePosed (L.theory leaves.old) (L.store leaves.old) (λ theory. HasKnownWitnesses theory (tactic_of tac.now)) (goals_of goals.now) }
    ensures outcome { AllRefine (H.refiners setting.now.host.now) (H.conversions setting.now.host.now) (L.theory leaves.old) (L.store leaves.old)
        fuel.old.left tac.now goals.now result (L.store leaves.new) fuel.new.left }
    ensures kept { IsKept (L.theory leaves.old) (L.theory leaves.new) (L.is_ready leaves.new) (L.extends leaves.old leaves.new) }
{
    let mut steps = Vec::new(setting.alloc);
    for goal in goals {
        let step = run(setting, tac, goal, leaves, fuel)?;
        keep(&mut steps, step)?;
    }
    Ok(steps)
}

// Runs the first expression on the first goal, and so on.
#[cycle(run)]
fn run_on_each<H: Refiners, L: Leaves>(
    setting: &Setting<'_, H>,
    tacs: &[Tac<Term>],
    goals: &[Goal],
    leaves: &mut L,
    fuel: &mut Fuel,
) -> Result<Vec<Step>, Fault>
    requires ready { L.is_ready leaves.old }
    requires posed { ArePosed (L.theory leaves.old) (L.store leaves.old) (λ theory. HaveKnownWitnesses theory (tactics_of tacs.now)) (goals_of goals.now) }
    requires lengths { length tacs.now ≡ length goals.now }
    ensures outcome { EachRefines (H.refiners setting.now.host.now) (H.conversions setting.now.host.now) (L.theory leaves.old) (L.store leaves.old)
        fuel.old.left tacs.now goals.now result (L.store leaves.new) fuel.new.left }
    ensures kept { IsKept (L.theory leaves.old) (L.theory leaves.new) (L.is_ready leaves.new) (L.extends leaves.old leaves.new) }
{
    let mut steps = Vec::new(setting.alloc);
    for i in 0..tacs.len() {
        let tac = &tacs[i];
        let goal = &goals[i];
        let step = run(setting, tac, goal, leaves, fuel)?;
        keep(&mut steps, step)?;
    }
    Ok(steps)
}
