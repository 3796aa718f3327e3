// A run under way: the commands that were read are answered one after another.
ghost use Rattle.std.specs.Prelude.{◌≡◌, ◌≤◌, ◌<◌, ◌-◌, ◌∷◌, ℕ, List, [], Option, true, false, length, take, drop, OnOk, OnErr, IfOk, IfErr, IsErrOf};
ghost use Rattle.hol_model.specs.declared.fault.Fault.TheVariants.{Memory, WriteFault};
ghost use Rattle.hol_model_sessions.specs.Script.{has_mark};
ghost use Rattle.hol_script_manager.specs.Managers.{state_of, IsManager};
ghost use Rattle.hol_script_manager.specs.Session.{session_tools};
ghost use Rattle.hol_script.specs.Runs.{counts_of, names_of, Finishes, Breaks};
ghost use Rattle.hol_script.specs.Courses.{IsBegun, IsWithin, IsUnderway, GoesOn, BreaksOff};

use crate::progress::Progress;
use crate::writing::{write_answer, write_refusal};
use hol_host::Refiners;
use hol_model::{Fault, Sink};
use hol_script_commands::cut::{cut, is_blank_text, leading_line_feeds, line_feeds};
use hol_script_manager::Refused;
use std::alloc::Global;

// Whether a `;;` stands in a text, where none stands in so many of its bytes.
fn has_new_mark(text: &[u8], known: usize) -> bool
    requires { known ≤ length text.now }
    ensures { result ≡ false → has_mark (take known text.now) ≡ false → has_mark text.now ≡ false }
{
    cut(&text[known.saturating_sub(1)..]).is_some()
}

/// How far a run has come: how many of the bytes that were read are answered, and the line of the next one.
#[derive(Drop)]
pub(crate) struct Course {
    pub(crate) progress: Progress,
    pub(crate) at: usize,
    pub(crate) line: u64,
}

impl Course {
    /// Where a run begins. Where no log is wanted, what it is written from is not kept.
    pub(crate) fn new(alloc: Global, wants_log: bool) -> Result<Course, Fault>
        ensures begun { IfOk result IsBegun }
        ensures err { IfErr result (λ fault. fault ≡ Memory) }
    {
        let mut progress = Progress::new(alloc)?;
        progress.keep_journal_if(wants_log);
        Ok(Course {
            progress,
            at: 0,
            line: 1,
        })
    }

    /// Answers the next command and writes the text of the answer, where the `;;` of the command was read, and says whether it
    /// was. A blank command asks for nothing.
    pub(crate) fn answer_next<W: Sink, H: Refiners>(
        &mut self,
        alloc: Global,
        read: &[u8],
        writer: &mut W,
        host: &H,
    ) -> Result<bool, Fault>
        requires unfailed { W.has_failed writer.old ≡ false }
        requires within { IsWithin read.now self.old }
        ensures within { OnOk result (IsWithin read.now self.new) }
        ensures further { IfOk result (λ answers. answers ≡ true → self.old.at < self.new.at) }
        ensures waits { IfOk result (λ answers. answers ≡ false → has_mark (drop self.new.at read.now) ≡ false) }
        ensures goes_on { OnOk result (GoesOn (session_tools (H.refiners host.now) (H.conversions host.now)) read.now (W.contents writer.old) (W.contents writer.new) self.old self.new) }
        ensures err { IfErr result (BreaksOff (session_tools (H.refiners host.now) (H.conversions host.now)) read.now (W.contents writer.old) (W.contents writer.new)
            (W.has_failed writer.new) self.old) }
        ensures unfailed { OnOk result (W.has_failed writer.new ≡ false) }
    {
        let Some((piece, _)) = cut(&read[self.at..]) else {
            return Ok(false);
        };
        if !is_blank_text(piece) {
            let here = self.line + leading_line_feeds(piece) as u64;
            let answer = self.progress.answer(alloc, host, piece);
            write_answer(writer, here, &answer)?;
            self.progress.keep(answer);
        }
        self.line += line_feeds(piece) as u64;
        self.at += piece.len() + 2;
        Ok(true)
    }

    /// Answers each command whose `;;` was read, where none had been read among so many of the bytes. A `;;` is sought behind
    /// these alone, so that a command that grows is not searched again each time.
    pub(crate) fn answer_read<W: Sink, H: Refiners>(
        &mut self,
        alloc: Global,
        read: &[u8],
        known: usize,
        writer: &mut W,
        host: &H,
    ) -> Result<(), Fault>
        requires unfailed { W.has_failed writer.old ≡ false }
        requires within { IsWithin read.now self.old }
        requires place { self.old.at ≤ known }
        requires known { known ≤ length read.now }
        requires waits { has_mark (take (known - self.old.at) (drop self.old.at read.now)) ≡ false }
        ensures within { OnOk result (IsWithin read.now self.new) }
        ensures waits { OnOk result (has_mark (drop self.new.at read.now) ≡ false) }
        ensures goes_on { OnOk result (GoesOn (session_tools (H.refiners host.now) (H.conversions host.now)) read.now (W.contents writer.old) (W.contents writer.new) self.old self.new) }
        ensures err { IfErr result (BreaksOff (session_tools (H.refiners host.now) (H.conversions host.now)) read.now (W.contents writer.old) (W.contents writer.new)
            (W.has_failed writer.new) self.old) }
        ensures unfailed { OnOk result (W.has_failed writer.new ≡ false) }
    {
        if !has_new_mark(&read[self.at..], known - self.at) {
            return Ok(());
        }
        while self.answer_next(alloc, read, writer, host)? {}
        Ok(())
    }

    /// Answers all that was read, once nothing more can be: each command whose `;;` was read, and what stands behind the last one,
    /// where white space asks for nothing and any other text is refused.
    pub(crate) fn answer_all<W: Sink, H: Refiners>(
        &mut self,
        alloc: Global,
        read: &[u8],
        writer: &mut W,
        host: &H,
    ) -> Result<(), Fault>
        requires unfailed { W.has_failed writer.old ≡ false }
        requires within { IsWithin read.now self.old }
        ensures ok { OnOk result ((written : Option (List ℕ)) → IsUnderway (session_tools (H.refiners host.now) (H.conversions host.now)) read.now written (W.contents writer.old) self.old
            → Finishes (session_tools (H.refiners host.now) (H.conversions host.now)) read.now written (W.contents writer.new)
            (counts_of self.new.progress.summary) (names_of self.new.progress) (state_of self.new.progress.manager)) }
        ensures is_manager { OnOk result (IsManager self.new.progress.manager) }
        ensures err { OnErr result ((written : Option (List ℕ)) → IsUnderway (session_tools (H.refiners host.now) (H.conversions host.now)) read.now written (W.contents writer.old) self.old
            → Breaks (session_tools (H.refiners host.now) (H.conversions host.now)) read.now written (W.contents writer.new)) }
        ensures unfailed { OnOk result (W.has_failed writer.new ≡ false) }
        ensures failed { OnErr result (W.has_failed writer.new ≡ true) }
        ensures kinds { IfErr result (λ fault. fault ≡ WriteFault) }
    {
        self.answer_read(alloc, read, self.at, writer, host)?;
        let rest = &read[self.at..];
        if is_blank_text(rest) {
            return Ok(());
        }
        let here = self.line + leading_line_feeds(rest) as u64;
        let refused = Refused::plain(Fault::Syntax);
        write_refusal(writer, here, &refused)?;
        self.progress.keep(Err(refused));
        Ok(())
    }
}
