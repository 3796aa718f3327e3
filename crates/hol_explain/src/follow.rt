// A conversation is followed: each of its commands is run once more, and its refusal is explained as it comes.
ghost use Rattle.std.specs.Prelude.{◌≡◌, ◌∷◌, ℕ, [], false, IfErr, Contains, OnOk};
ghost use Rattle.hol_model.specs.declared.fault.Fault.TheVariants.{Memory, WriteFault};
ghost use Rattle.hol_script.specs.Managers.{IsManager};

use crate::rerun::Rerun;
use crate::walk::{Walk, explain_piece, explain_rest};
use hol_explain_hints::Place;
use hol_host::Refiners;
use hol_model::{Fault, Sink};
use hol_script_commands::cut::is_blank_text;
use std::alloc::Global;
use std::marker::Model;

/// What follows a conversation: its commands, run once more, and the place of the next one. Contracts see nothing of it.
#[derive(Drop)]
pub struct Follower {
    rerun: Rerun,
    place: Place,
}

impl Model for Follower {
    ghost Value = { ℕ };

    ghost view = { λ _. 0 };

    ghost invariant = { λ follower. IsManager follower.rerun.manager };
}

impl Follower {
    /// Where a conversation begins. Refused: Memory.
    pub fn new(alloc: Global) -> Result<Follower, Fault> {
        Ok(Follower {
            rerun: Rerun::new(alloc)?,
            place: Place::start(),
        })
    }

    /// Runs the command that is the text of a walk's script, up to its `;;`, and writes what `explain` writes of it.
    /// Refused: Memory, and WriteFault where the sink failed; then the place of the next command is not known any more.
    pub fn follow<W: Sink, H: Refiners>(
        &mut self,
        walk: &Walk<'_, H>,
        writer: &mut W,
    ) -> Result<(), Fault>
        requires { W.has_failed writer.old ≡ false }
        ensures refusals { IfErr result (Contains (WriteFault ∷ Memory ∷ [])) }
        ensures unfailed { OnOk result (W.has_failed writer.new ≡ false) }
    {
        let text = walk.script.text;
        if !is_blank_text(text) {
            let Rerun { known, manager } = &mut self.rerun;
            explain_piece(walk, writer, known, manager, text, &self.place)?;
        }
        self.place = self.place.behind(text).behind(b";;");
        Ok(())
    }

    /// Writes what `explain` writes of a rest where the text of a walk's script, behind which no `;;` comes any more, holds more than
    /// white space. Refused: Memory, and WriteFault where the sink failed.
    pub fn end<W: Sink, H: Refiners>(&self, walk: &Walk<'_, H>, writer: &mut W) -> Result<(), Fault>
        requires { W.has_failed writer.old ≡ false }
        ensures { IfErr result (Contains (WriteFault ∷ Memory ∷ [])) }
    {
        let text = walk.script.text;
        if is_blank_text(text) {
            return Ok(());
        }
        explain_rest(walk, writer, text, &self.place)
    }
}
