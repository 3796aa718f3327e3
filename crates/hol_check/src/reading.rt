// The bytes of a log, read one after another.
ghost use Rattle.std.specs.Prelude.{⊤, ◌≡◌, ◌≤◌, ◌<◌, ◌+◌, ◌++◌, ◌∷◌, ◌==◌, ℕ, List, [], Option, false, length, IfOk, OnOk, IfErr, IfSome, IsErrOf, MatchBool, Contains};
ghost use Rattle.hol_model.specs.declared.fault.Fault.TheVariants.{Memory, ReadFault, TooLong};
ghost use Rattle.hol_logtext.specs.Fields.{line_feed};
ghost use Rattle.hol_logtext.specs.Fields.{has_line_feed};
ghost use Rattle.hol_check.specs.Reading.{IsUnread, IsRead, IsNext, IsLine, IsReadOn, StaysWithin, TellsFailure, TellsLength};

use hol_model::{Fault, Source, TEXT_BYTES_LIMIT};
use std::marker::Model;

/// The bytes of the room that a source fills.
const ROOM: usize = 4096;

fn is_line_feed(byte: u8) -> bool
    ensures { result ≡ (byte == line_feed) }
{
    byte == b'\n'
}

/// The bytes that a source has given and that are not handed out yet, and how many were handed out.
#[derive(Drop)]
pub(crate) struct Reading {
    bytes: [u8; ROOM],
    next: usize,
    filled: usize,
    given: usize,
}

impl Model for Reading {
    ghost use Rattle.hol_check.specs.Reading.{Unread, unread_of, IsReading};

    ghost Value = { Unread };

    ghost view = { unread_of };

    ghost invariant = { IsReading };
}

impl Reading {
    pub(crate) fn new() -> Reading
        ensures pending { result.pending ≡ [] }
        ensures given { result.given ≡ 0 }
    {
        Reading {
            bytes: [0; ROOM],
            next: 0,
            filled: 0,
            given: 0,
        }
    }

    // Lets the source fill the room, where nothing is pending; false at the end of the text.
    fn refill<R: Source>(&mut self, reader: &mut R) -> Result<bool, Fault>
        requires unfailed { R.has_failed reader.old ≡ false }
        requires none { self.old.pending ≡ [] }
        ensures read { (input : Option (List ℕ)) (handed : List ℕ) → IsUnread input handed self.old (R.remaining reader.old)
            → IfOk result (λ more. MatchBool more (IsUnread input handed self.new (R.remaining reader.new)) (IsRead input handed)) }
        ensures some { IfOk result (λ more. MatchBool more (0 < length self.new.pending) ⊤) }
        ensures given { OnOk result (self.new.given ≡ self.old.given) }
        ensures too_long { (input : Option (List ℕ)) (handed : List ℕ) → IsUnread input handed self.old (R.remaining reader.old) → TellsLength result input }
        ensures failure { TellsFailure result (R.has_failed reader.new) }
        ensures refusals { IfErr result (Contains (ReadFault ∷ TooLong ∷ [])) }
    {
        let Ok(count) = reader.pull(&mut self.bytes) else {
            return Err(Fault::ReadFault);
        };
        if count == 0 {
            return Ok(false);
        }
        if count > TEXT_BYTES_LIMIT - self.given {
            return Err(Fault::TooLong);
        }
        self.next = 0;
        self.filled = count;
        Ok(true)
    }

    // Hands out the first pending byte.
    fn hand_out(&mut self) -> u8
        requires some { 0 < length self.old.pending }
        ensures read { (input : Option (List ℕ)) (handed : List ℕ) (left : Option (List ℕ)) → IsUnread input handed self.old left
            → IsUnread input (handed ++ result ∷ []) self.new left }
        ensures given { self.new.given ≡ self.old.given + 1 }
        ensures room { self.new.given + length self.new.pending ≤ TEXT_BYTES_LIMIT }
    {
        let byte = self.bytes[self.next];
        self.next += 1;
        self.given += 1;
        byte
    }

    fn has_pending(&self) -> bool
        ensures { MatchBool result (0 < length self.now.pending) (self.now.pending ≡ []) }
    {
        self.next < self.filled
    }

    /// The next byte of the text, `None` at its end. ReadFault: the source failed. TooLong: the text is longer than the
    /// limit on texts.
    pub(crate) fn next<R: Source>(&mut self, reader: &mut R) -> Result<Option<u8>, Fault>
        requires unfailed { R.has_failed reader.old ≡ false }
        ensures read { (input : Option (List ℕ)) (handed : List ℕ) → IsUnread input handed self.old (R.remaining reader.old)
            → IfOk result (IsNext input handed self.new (R.remaining reader.new)) }
        ensures given { IfOk result (λ found. IfSome found (λ byte. self.new.given ≡ self.old.given + 1)) }
        ensures room { IfOk result (λ found. IfSome found (λ byte. self.new.given + length self.new.pending ≤ TEXT_BYTES_LIMIT)) }
        ensures too_long { (input : Option (List ℕ)) (handed : List ℕ) → IsUnread input handed self.old (R.remaining reader.old) → TellsLength result input }
        ensures failure { TellsFailure result (R.has_failed reader.new) }
        ensures refusals { IfErr result (Contains (ReadFault ∷ TooLong ∷ [])) }
    {
        if self.has_pending() {
            return Ok(Some(self.hand_out()));
        }
        if self.refill(reader)? {
            Ok(Some(self.hand_out()))
        } else {
            Ok(None)
        }
    }

    /// Puts the next line, without its line feed, in the place of what `line` holds; false where the text ended before a
    /// line feed. Refusals: as of `next`, and no memory.
    pub(crate) fn next_line<R: Source>(
        &mut self,
        reader: &mut R,
        line: &mut Vec<u8>,
    ) -> Result<bool, Fault>
        requires unfailed { R.has_failed reader.old ≡ false }
        ensures read { (input : Option (List ℕ)) (handed : List ℕ) → IsUnread input handed self.old (R.remaining reader.old)
            → IfOk result (λ fed. IsLine input handed line.new.items self.new (R.remaining reader.new) fed) }
        ensures one { OnOk result (has_line_feed line.new.items ≡ false) }
        ensures given { IfOk result (λ fed. MatchBool fed (self.old.given < self.new.given) ⊤) }
        ensures room { IfOk result (λ fed. MatchBool fed (self.new.given + length self.new.pending ≤ TEXT_BYTES_LIMIT) ⊤) }
        ensures too_long { (input : Option (List ℕ)) (handed : List ℕ) → IsUnread input handed self.old (R.remaining reader.old) → TellsLength result input }
        ensures failure { TellsFailure result (R.has_failed reader.new) }
        ensures memory { (input : Option (List ℕ)) (handed : List ℕ) → IsUnread input handed self.old (R.remaining reader.old)
            → IsErrOf result Memory → StaysWithin input (R.remaining reader.new) }
        ensures refusals { IfErr result (Contains (ReadFault ∷ TooLong ∷ Memory ∷ [])) }
    {
        line.clear();
        while let Some(byte) = self.next(reader)? {
            if is_line_feed(byte) {
                return Ok(true);
            }
            line.push(byte)?;
        }
        Ok(false)
    }

    /// Reads on to the end of the text without keeping anything. Refusals: as of `next`.
    pub(crate) fn skip_rest<R: Source>(&mut self, reader: &mut R) -> Result<(), Fault>
        requires unfailed { R.has_failed reader.old ≡ false }
        ensures read { (input : Option (List ℕ)) (handed : List ℕ) → IsUnread input handed self.old (R.remaining reader.old)
            → OnOk result (IsReadOn input handed) }
        ensures too_long { (input : Option (List ℕ)) (handed : List ℕ) → IsUnread input handed self.old (R.remaining reader.old) → TellsLength result input }
        ensures failure { TellsFailure result (R.has_failed reader.new) }
        ensures refusals { IfErr result (Contains (ReadFault ∷ TooLong ∷ [])) }
    {
        while let Some(_byte) = self.next(reader)? {}
        Ok(())
    }
}
