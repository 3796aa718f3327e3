// The proof under way, as far as notes and messages tell of it.
use crate::no_memory::NoMemory;
use std::alloc::Global;

/// What the commands so far leave of the proof under way: each command by the place behind it.
#[derive(Drop)]
pub struct Proof {
    /// The `goal` that set its goal.
    pub begun: Option<String>,
    /// The last `goal` that was refused, until a command goes on with the goal before it.
    pub refused: Option<String>,
    /// How many `e` and `r` stand behind the goal that no `b` took back.
    pub steps: usize,
    /// How many goals are open.
    pub open: usize,
    /// Where the last goal was proved, as long as its theorem is not stored.
    pub unsaved: Option<String>,
}

/// How many goals the text of the open goals has: a line each, behind the first.
pub fn count_of_goals(goals: &str) -> usize {
    goals.lines().count().saturating_sub(1)
}

/// Whether a command of this word goes on with the goal that is set.
pub fn goes_on(word: &str) -> bool {
    matches!(word, "e" | "r" | "b" | "p" | "save")
}

// How many steps stand behind the goal once a command of this word is accepted, of so many before it.
fn steps_behind(word: &str, before: usize) -> usize {
    match word {
        "goal" => 0,
        "e" | "r" => before.saturating_add(1),
        "b" => before.saturating_sub(1),
        _ => before,
    }
}

impl Proof {
    /// No goal is set when a script begins.
    pub(crate) fn none() -> Proof {
        Proof {
            begun: None,
            refused: None,
            steps: 0,
            open: 0,
            unsaved: None,
        }
    }

    /// A command of this word is accepted.
    pub(crate) fn accept(&mut self, word: &str) {
        if word == "goal" || goes_on(word) {
            self.refused = None;
        }
        if word == "goal" || word == "save" {
            self.unsaved = None;
        }
    }

    /// An accepted command of this word, which stands at a place, leaves the open goals of a text.
    pub fn leave(
        &mut self,
        alloc: Global,
        word: &str,
        goals: &str,
        place: &str,
    ) -> Result<(), NoMemory> {
        self.open = count_of_goals(goals);
        self.steps = steps_behind(word, self.steps);
        if word == "goal" {
            self.begun = Some(String::from_str(alloc, place)?);
        }
        if self.open > 0 {
            self.unsaved = None;
        } else if word == "e" {
            self.unsaved = Some(String::from_str(alloc, place)?);
        }
        Ok(())
    }

    /// A `goal` that stands at a place is refused.
    pub(crate) fn refuse(&mut self, alloc: Global, place: &str) -> Result<(), NoMemory> {
        self.refused = Some(String::from_str(alloc, place)?);
        Ok(())
    }
}
