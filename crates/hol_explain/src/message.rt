// What is said of a refused command.
ghost use Rattle.hol_script.specs.Managers.{IsManager};

use crate::search::{Trial, open_goals};
use hol_explain_hints::{
    Arguments, Case, Known, Message, Piece, Premise, Span, Teller, first_goal, is_looked_up,
    no_command, of_case, of_part, plain, span_of,
};
use hol_host::Refiners;
use hol_model::Fault;
use hol_script::{Manager, Printed, Refused};
use std::alloc::Global;

// The stored theorem whose name stands at a place in the list.
fn premise(
    alloc: Global,
    known: &Known,
    manager: &Manager,
    piece: &Piece<'_>,
    at: usize,
    message: &mut Message,
) -> Option<Premise>
    requires { IsManager manager.now }
{
    let name = piece.text(at);
    match message.given(manager.show(alloc, name)) {
        Some(Printed::Line(line)) => {
            Premise::read(alloc, known, line.text, at, name.len(), message)
        }
        _ => None,
    }
}

// Puts the theorems at the end that a part of a command names.
fn push_premises(
    alloc: Global,
    known: &Known,
    manager: &Manager,
    piece: &Piece<'_>,
    span: Span,
    premises: &mut Vec<Option<Premise>>,
    message: &mut Message,
)
    requires { IsManager manager.now }
{
    for at in span.from..span.to {
        if is_looked_up(piece, at) {
            let premise = premise(alloc, known, manager, piece, at, message);
            let _pushed = message.made(premises.push(premise));
        }
    }
}

/// The arguments in a part of a command.
pub(crate) fn arguments_in(
    alloc: Global,
    known: &Known,
    manager: &Manager,
    piece: &Piece<'_>,
    span: Span,
    message: &mut Message,
) -> Arguments
    requires { IsManager manager.now }
{
    let mut arguments = Arguments::new(alloc, known, piece, span, message);
    let premises = &mut arguments.theorems;
    push_premises(alloc, known, manager, piece, span, premises, message);
    arguments
}

impl<H: Refiners> Trial<'_, H> {
    // Says what is known of the part of an `e` that is refused.
    fn of_expression(&self, manager: &mut Manager, case: &Case<'_>, message: &mut Message)
        requires { IsManager manager.old }
        ensures { IsManager manager.new }
    {
        let known = case.teller.known;
        let part = self.refused_part(known, manager, message);
        let arguments = arguments_in(self.alloc, known, manager, self.piece, part.span, message);
        let inner = Case {
            teller: case.teller,
            host_names: case.host_names,
            piece: case.piece,
            arguments: &arguments,
            fault: case.fault,
            row: case.row,
        };
        of_part(&inner, &part, message);
    }

    // Says what is known of a refused command of which nothing is said yet, of an `e` by its part that is refused.
    fn of_unsaid(&self, manager: &mut Manager, case: &Case<'_>, message: &mut Message)
        requires { IsManager manager.old }
        ensures { IsManager manager.new }
    {
        if !message.is_empty() {
            return;
        }
        if case.piece.text(0) == "e" {
            self.of_expression(manager, case, message);
        } else {
            plain(case, message);
        }
    }

    // Says what is known of a command that is refused in this state.
    fn of_command(
        &self,
        host_names: &[String],
        teller: Teller<'_>,
        manager: &mut Manager,
        refused: &Refused,
        message: &mut Message,
    )
        requires { IsManager manager.old }
        ensures { IsManager manager.new }
    {
        let (alloc, piece) = (self.alloc, self.piece);
        let arguments = arguments_in(alloc, teller.known, manager, piece, span_of(piece), message);
        let case = Case {
            teller,
            host_names,
            piece,
            arguments: &arguments,
            fault: &refused.fault,
            row: match &refused.row {
                Some(row) => Some(row.as_str()),
                None => None,
            },
        };
        of_case(&case, message);
        self.of_unsaid(manager, &case, message);
    }

    /// Says what is known of a command that is refused in this state, which stays but for what `b` can take back.
    pub(crate) fn explain_command(
        &self,
        host_names: &[String],
        known: &Known,
        manager: &mut Manager,
        refused: &Refused,
        message: &mut Message,
    )
        requires { IsManager manager.old }
        ensures { IsManager manager.new }
    {
        let alloc = self.alloc;
        if refused.fault == Fault::Syntax {
            no_command(alloc, known, self.piece, message);
            return;
        }
        let goals = open_goals(alloc, manager, message);
        let goal = first_goal(goals.as_str());
        if let Some(goal) = message.made(Piece::of_quote(alloc, goal.as_bytes())) {
            let teller = Teller {
                alloc,
                known,
                goal: &goal,
            };
            self.of_command(host_names, teller, manager, refused, message);
        }
    }
}
