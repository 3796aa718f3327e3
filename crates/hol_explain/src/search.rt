// Which part of a refused refiner expression is at fault, and at which goal.
ghost use Rattle.hol_script.specs.Managers.{IsManager};

use hol_explain_hints::{
    Known, Message, Part, Piece, Span, command_of, count_of_goals, has_misfit, next_joint,
    next_member, unwrapped,
};
use hol_host::Refiners;
use hol_script::execute::execute;
use hol_script::{Manager, Printed};
use std::alloc::Global;

/// With what parts of an expression are tried: over which host, and of which command.
#[derive(Drop)]
pub(crate) struct Trial<'a, H> {
    pub(crate) alloc: Global,
    pub(crate) host: &'a H,
    pub(crate) piece: &'a Piece<'a>,
}

// What is refused inside an expression, for how many subgoals it is, how many steps were taken up to it, and whether it is to be
// looked into further.
#[derive(Clone, Copy)]
struct Inside {
    span: Span,
    subgoals: usize,
    steps: usize,
    is_last: bool,
}

/// The text of the open goals; nothing where there is none.
pub(crate) fn open_goals(alloc: Global, manager: &Manager, message: &mut Message) -> String
    requires { IsManager manager.now }
{
    match message.given(manager.print(alloc)) {
        Some(Printed::Goals(text)) => text,
        _ => String::new(alloc),
    }
}

impl<H: Refiners> Trial<'_, H> {
    /// Runs a command, and answers whether it is accepted.
    pub(crate) fn run(&self, manager: &mut Manager, command: &[u8]) -> bool
        requires { IsManager manager.old }
        ensures { IsManager manager.new }
    {
        execute(manager, self.alloc, self.host, command).is_ok()
    }

    /// Runs a part of an expression as an `e`, and answers whether it is accepted.
    pub(crate) fn run_part(&self, manager: &mut Manager, part: Span, message: &mut Message) -> bool
        requires { IsManager manager.old }
        ensures { IsManager manager.new }
    {
        self.run(manager, &command_of(self.alloc, self.piece, part, message))
    }

    // Whether the refiner of a part is accepted at the first goal; what it does is taken back.
    fn is_accepted(&self, manager: &mut Manager, span: Span, message: &mut Message) -> bool
        requires { IsManager manager.old }
        ensures { IsManager manager.new }
    {
        if !self.run_part(manager, span, message) {
            return false;
        }
        self.run(manager, b"b");
        true
    }

    // The place in the list of the first joint up to which a part is refused, and of the one before it; the end of the part, where it
    // is accepted up to each joint.
    fn refused_joint(
        &self,
        manager: &mut Manager,
        span: Span,
        message: &mut Message,
    ) -> (Option<usize>, usize)
        requires { IsManager manager.old }
        ensures { IsManager manager.new }
    {
        let mut accepted = None;
        let mut joint = next_joint(self.piece, span.from, span.to);
        for _ in 0..self.piece.words.len() {
            if joint >= span.to {
                break;
            }
            let front = Span {
                from: span.from,
                to: joint,
            };
            if !self.is_accepted(manager, front, message) {
                break;
            }
            accepted = Some(joint);
            joint = next_joint(self.piece, joint.saturating_add(1), span.to);
        }
        (accepted, joint)
    }

    // Turns the goals up to the first subgoal at which the refiner behind a joint is refused, and answers that refiner.
    fn refused_member(
        &self,
        manager: &mut Manager,
        behind: Span,
        subgoals: usize,
        message: &mut Message,
    ) -> Inside
        requires { IsManager manager.old }
        ensures { IsManager manager.new }
    {
        let mut steps = 1usize;
        let mut member = next_member(self.piece, behind, None);
        for _ in 0..subgoals {
            if !self.is_accepted(manager, member, message) {
                return Inside {
                    span: member,
                    subgoals,
                    steps,
                    is_last: false,
                };
            }
            self.run(manager, b"r 1");
            steps = steps.saturating_add(1);
            member = next_member(self.piece, behind, Some(member));
        }
        Inside {
            span: behind,
            subgoals,
            steps,
            is_last: true,
        }
    }

    // What is refused behind a joint, where the part before it is accepted.
    fn behind_joint(
        &self,
        manager: &mut Manager,
        front: Span,
        to: usize,
        message: &mut Message,
    ) -> Inside
        requires { IsManager manager.old }
        ensures { IsManager manager.new }
    {
        let before = open_goals(self.alloc, manager, message);
        self.run_part(manager, front, message);
        let after = open_goals(self.alloc, manager, message);
        let done = count_of_goals(before.as_str());
        let subgoals = count_of_goals(after.as_str())
            .saturating_add(1)
            .saturating_sub(done);
        let behind = Span { from: front.to, to };
        if has_misfit(self.piece, behind, subgoals) {
            Inside {
                span: behind,
                subgoals,
                steps: 1,
                is_last: true,
            }
        } else {
            self.refused_member(manager, behind, subgoals, message)
        }
    }

    // What is refused inside a part that is refused at the first goal: one level down.
    fn look_inside(&self, manager: &mut Manager, span: Span, message: &mut Message) -> Inside
        requires { IsManager manager.old }
        ensures { IsManager manager.new }
    {
        let (accepted, joint) = self.refused_joint(manager, span, message);
        let front = Span {
            from: span.from,
            to: joint,
        };
        match accepted {
            None => Inside {
                span: front,
                subgoals: 1,
                steps: 0,
                is_last: joint >= span.to,
            },
            Some(at) => {
                let done = Span {
                    from: span.from,
                    to: at,
                };
                self.behind_joint(manager, done, joint, message)
            }
        }
    }

    // Takes back so many commands.
    fn take_back(&self, manager: &mut Manager, steps: usize)
        requires { IsManager manager.old }
        ensures { IsManager manager.new }
    {
        for _ in 0..steps {
            self.run(manager, b"b");
        }
    }

    /// The part of a refused `e` that is refused, found by trying its parts, which are taken back.
    pub(crate) fn refused_part(
        &self,
        known: &Known,
        manager: &mut Manager,
        message: &mut Message,
    ) -> Part
        requires { IsManager manager.old }
        ensures { IsManager manager.new }
    {
        let mut found = Inside {
            span: Span {
                from: 1,
                to: self.piece.words.len(),
            },
            subgoals: 1,
            steps: 0,
            is_last: false,
        };
        let mut steps = 0usize;
        for _ in 0..self.piece.words.len() {
            if found.is_last {
                break;
            }
            let inner = unwrapped(self.piece, found.span);
            found = self.look_inside(manager, inner, message);
            steps = steps.saturating_add(found.steps);
        }
        let goals = open_goals(self.alloc, manager, message);
        self.take_back(manager, steps);
        Part::new(
            self.alloc,
            known,
            found.span,
            found.subgoals,
            goals,
            message,
        )
    }
}
