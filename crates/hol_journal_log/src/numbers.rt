// The numbers of a log.
ghost use Rattle.std.specs.Prelude.{◌≡◌, [], ◌∷◌, ◌++◌, IfOk, IfErr, OnOk, IsFalse, nat_eq};
ghost use Rattle.std.specs.List.{list_any};
ghost use Rattle.hol_model.specs.declared.fault.Fault.TheVariants.{Memory};
ghost use Rattle.hol_journal_log.specs.LogWriting.{theorem_number};

use hol_model::Fault;
use std::alloc::{AllocError, Global};
use std::marker::Model;

/// The entries whose theorems have lines. The places are the numbers of the theorems.
#[derive(Drop)]
pub(crate) struct TheoremNumbers {
    entries: Vec<usize>,
    // By an entry's number the place where it may stand. Nothing is said of it: each is tested where it is used.
    places: Vec<u32>,
}

impl Model for TheoremNumbers {
    ghost use Rattle.std.specs.Prelude.{ℕ, List};
    ghost use Rattle.hol_journal_log.specs.Numbered.{numbered_entries, IsNumbered};

    ghost Value = { List ℕ };

    ghost view = { numbered_entries };

    ghost invariant = { IsNumbered };
}

impl TheoremNumbers {
    /// No entries.
    pub(crate) fn new(alloc: Global) -> TheoremNumbers
        ensures { result ≡ [] }
    {
        TheoremNumbers {
            entries: Vec::new(alloc),
            places: Vec::new(alloc),
        }
    }

    /// The number of the theorem of an entry: its place, or the number of entries where it is not among them.
    pub(crate) fn number(&self, entry: usize) -> usize
        ensures { result ≡ theorem_number self.now entry }
    {
        if let Some(place) = self.places.get(entry) {
            if let Some(other) = self.entries.get(*place as usize) {
                if *other == entry {
                    return *place as usize;
                }
            }
        }
        first_place(&self.entries, entry)
    }

    /// One entry more. Refused: Memory.
    pub(crate) fn push(&mut self, entry: usize) -> Result<(), Fault>
        requires { IsFalse (list_any (nat_eq entry) self.old) }
        ensures ok { OnOk result (self.new ≡ self.old ++ entry ∷ []) }
        ensures err { IfErr result (λ fault. fault ≡ Memory) }
    {
        note_place(&mut self.places, entry, self.entries.len())?;
        self.entries.push(entry)?;
        Ok(())
    }
}

/// A place as a number of a log.
pub(crate) fn number(place: usize) -> Result<u32, Fault>
    ensures ok { IfOk result (λ number. number ≡ place) }
    ensures err { IfErr result (λ fault. fault ≡ Memory) }
{
    match u32::try_from(place) {
        Ok(number) => Ok(number),
        Err(_) => Err(Fault::Memory),
    }
}

// The place of an entry, or the number of entries where it is not among them.
fn first_place(entries: &[usize], entry: usize) -> usize
    ensures { result ≡ theorem_number entries.now entry }
{
    for place in 0..entries.len() {
        if entries[place] == entry {
            return place;
        }
    }
    entries.len()
}

// Notes where an entry stands, unless there is a place at its number already.
fn note_place(places: &mut Vec<u32>, entry: usize, place: usize) -> Result<(), AllocError> {
    if entry < places.len() {
        return Ok(());
    }
    for _ in places.len()..entry {
        places.push(u32::MAX)?;
    }
    places.push(u32::try_from(place).unwrap_or(u32::MAX))?;
    Ok(())
}
