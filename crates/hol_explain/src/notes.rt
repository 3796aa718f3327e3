// What is noted of a command that is accepted and suspicious.
ghost use Rattle.hol_script.specs.Managers.{IsManager};

use crate::message::arguments_in;
use crate::search::{Trial, open_goals};
use hol_explain_hints::{
    Accepted, Known, Message, Span, Told, count_of_goals, next_rewriting, noted_span, push_notes,
    push_unchanged,
};
use hol_host::Refiners;
use hol_script::Manager;

impl<H: Refiners> Trial<'_, H> {
    // The open goals behind the first words of an expression, up to a place, which are taken back.
    fn goals_behind(&self, manager: &mut Manager, to: usize, notes: &mut Message) -> String
        requires { IsManager manager.old }
        ensures { IsManager manager.new }
    {
        if to <= 1 {
            return open_goals(self.alloc, manager, notes);
        }
        if !self.run_part(manager, Span { from: 1, to }, notes) {
            return String::new(self.alloc);
        }
        let goals = open_goals(self.alloc, manager, notes);
        self.run(manager, b"b");
        goals
    }

    // Whether a part of an expression refines goals, and leaves each as it is.
    fn is_unchanged(&self, manager: &mut Manager, part: Span, notes: &mut Message) -> bool
        requires { IsManager manager.old }
        ensures { IsManager manager.new }
    {
        let first = open_goals(self.alloc, manager, notes);
        let before = self.goals_behind(manager, part.from.saturating_sub(1), notes);
        let behind = self.goals_behind(manager, part.to, notes);
        let is_refined = count_of_goals(before.as_str()) >= count_of_goals(first.as_str());
        is_refined && before.as_str() == behind.as_str()
    }

    // The place in the list of the first `REWRITE_TAC` or `CONV_TAC` of an expression that changes no goal.
    fn first_unchanged(&self, manager: &mut Manager, notes: &mut Message) -> Option<usize>
        requires { IsManager manager.old }
        ensures { IsManager manager.new }
    {
        let mut from = 1usize;
        for _ in 0..self.piece.words.len() {
            let Some(part) = next_rewriting(self.piece, from) else {
                break;
            };
            if self.is_unchanged(manager, part, notes) {
                return Some(part.from);
            }
            from = part.to.saturating_add(1);
        }
        None
    }

    // The same of a command that was accepted, which is taken back meanwhile.
    fn unchanged_in(&self, manager: &mut Manager, notes: &mut Message) -> Option<usize>
        requires { IsManager manager.old }
        ensures { IsManager manager.new }
    {
        if self.piece.text(0) != "e" || next_rewriting(self.piece, 1).is_none() {
            return None;
        }
        self.run(manager, b"b");
        let found = self.first_unchanged(manager, notes);
        self.run(manager, self.piece.bytes);
        found
    }

    /// Puts the lines of what is noted of a command at the end that was accepted, before its names are known.
    pub(crate) fn note_command(
        &self,
        told: &Told<'_>,
        known: &Known,
        manager: &mut Manager,
        notes: &mut Message,
    )
        requires { IsManager manager.old }
        ensures { IsManager manager.new }
    {
        let (alloc, piece) = (self.alloc, self.piece);
        let arguments = arguments_in(alloc, known, manager, piece, noted_span(piece), notes);
        let accepted = Accepted {
            alloc,
            known,
            told,
            arguments: &arguments,
        };
        push_notes(&accepted, notes);
        if let Some(at) = self.unchanged_in(manager, notes) {
            push_unchanged(&accepted, notes, at);
        }
    }
}
