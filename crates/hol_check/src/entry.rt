// The entries of a log's theory.
ghost use Rattle.std.specs.Prelude.{◌≡◌, ◌<◌, length, OnOk, IfOk, IfErr};
ghost use Rattle.hol_model.specs.declared.fault.Fault.TheVariants.{Memory};
ghost use Rattle.hol_model.specs.Terms.Nameless.{const};
ghost use Rattle.hol_model.specs.Logic.Derivable.{nameless_equation};
ghost use Rattle.hol_model.specs.Logs.LogClaims.{nameless_bytes};
ghost use Rattle.hol_check_terms.specs.Terms.{name_at, type_at, term_at};
ghost use Rattle.hol_logtext.specs.Writing.{Appends};
ghost use Rattle.hol_check_rules.specs.State.{HasEntryParts, entry_in};
ghost use Rattle.hol_check.specs.Entries.{entries_in, entry_of_parts, entry_bytes, entry_text};

use crate::print::{print, print_term, print_type, print_typed};
use crate::view::{TermView, TypeView};
use hol_check_lines::log::Log;
use hol_check_rules::state::TheoryEntry;
use hol_check_terms::terms::Terms;
use hol_model::Fault;
use std::alloc::{AllocError, Global};
use std::marker::Model;
use std::rc::Rc;

/// An entry of a log's theory: a definition or a declaration. The entries of a log share its types and terms.
#[derive(Drop)]
pub struct LogEntry {
    log: Rc<Log>,
    place: usize,
}

impl Model for LogEntry {
    ghost use Rattle.hol_model.specs.Logic.Theory.{Entry};
    ghost use Rattle.hol_model.specs.Terms.NamelessCode.{entry_code};

    ghost Value = { Entry };

    ghost coded = { entry_code };

    ghost use Rattle.hol_check.specs.Entries.{viewed_entry, IsListed};

    ghost view = { viewed_entry };

    ghost invariant = { IsListed };
}

/// What an entry says. Names are bytes.
#[derive(Drop)]
pub enum EntryParts<'a> {
    /// The constant's name, its type, and the term that it is defined as.
    Definition(&'a [u8], TypeView<'a>, TermView<'a>),
    DeclaredType(&'a [u8]),
    /// The constant's name, and its type.
    DeclaredConstant(&'a [u8], TypeView<'a>),
}

impl LogEntry {
    // The tables of the entry's log, and the entry by numbers.
    fn numbered(&self) -> (&Terms, TheoryEntry)
        ensures parts { HasEntryParts result.0.now result.1 }
        ensures entry { self.now ≡ entry_in result.0.now result.1 }
    {
        let (table, contents) = self.log.parts();
        (table, contents.entries[self.place])
    }

    /// What the entry says.
    pub fn parts(&self) -> EntryParts<'_>
        ensures { entry_of_parts result ≡ self.now }
    {
        let (table, entry) = self.numbered();
        match entry {
            TheoryEntry::Definition(name, ty, body) => EntryParts::Definition(
                table.name_bytes(name),
                TypeView::of(table, ty),
                TermView::of(table, body),
            ),
            TheoryEntry::DeclaredType(name) => EntryParts::DeclaredType(table.name_bytes(name)),
            TheoryEntry::DeclaredConstant(name, ty) => {
                EntryParts::DeclaredConstant(table.name_bytes(name), TypeView::of(table, ty))
            }
        }
    }
}

/// The entries of a log's theory, in the order of their lines.
pub(crate) fn entries_of(alloc: Global, log: Rc<Log>) -> Result<Vec<LogEntry>, Fault>
    ensures entries { IfOk result (λ entries. entries.items ≡ entries_in log.value.theory) }
    ensures refused { IfErr result (λ fault. fault ≡ Memory) }
{
    let (_table, contents) = log.parts();
    let count = contents.entries.len();
    let mut entries = Vec::new(alloc);
    let mut place = 0;
    while place < count {
        let log = log.clone()?;
        entries.push(LogEntry { log, place })?;
        place += 1;
    }
    Ok(entries)
}

// Prints the equation of a defined constant, of this type, with what it is defined as.
fn print_definition(
    table: &Terms,
    name: usize,
    ty: usize,
    body: usize,
    out: &mut Vec<u8>,
) -> Result<(), AllocError>
    requires name { name < length table.now.names }
    requires ty { ty < length table.now.types }
    requires body { body < length table.now.terms }
    ensures { OnOk result (Appends out.old.items out.new.items
        (nameless_bytes (nameless_equation (type_at table.now.types ty) (const (name_at table.now.names name) (type_at table.now.types ty)) (term_at table.now.terms body)))) }
{
    print(out, b"(([=:")?;
    print_type(table, ty, true, out)?;
    print(out, b"->")?;
    print_type(table, ty, true, out)?;
    print(out, b"->bool] ")?;
    print_typed(table, b'[', name, ty, b']', out)?;
    print(out, b") ")?;
    print_term(table, body, out)?;
    print(out, b")")
}

// Prints an entry: `DEF c: |- c = t`, `TYPE ty` or `CONST c`.
fn print_entry(table: &Terms, entry: TheoryEntry, out: &mut Vec<u8>) -> Result<(), AllocError>
    requires { HasEntryParts table.now entry }
    ensures { OnOk result (Appends out.old.items out.new.items (entry_bytes (entry_in table.now entry))) }
{
    match entry {
        TheoryEntry::Definition(name, ty, body) => {
            print(out, b"DEF ")?;
            print(out, table.name_bytes(name))?;
            print(out, b": |- ")?;
            print_definition(table, name, ty, body, out)
        }
        TheoryEntry::DeclaredType(name) => {
            print(out, b"TYPE ")?;
            print(out, table.name_bytes(name))
        }
        TheoryEntry::DeclaredConstant(name, ty) => {
            print(out, b"CONST ")?;
            print_typed(table, b'[', name, ty, b']', out)
        }
    }
}

/// The text of an entry, in the notation of claims (`text_of_claim`): `DEF c: |- c = t` for a definition, `TYPE ty` for a
/// declared type, `CONST c` for a declared constant. Refusals: Memory.
pub fn text_of_entry(alloc: Global, entry: &LogEntry) -> Result<Vec<u8>, Fault>
    ensures text { IfOk result (λ text. text.items ≡ entry_text entry.now) }
    ensures refused { IfErr result (λ fault. fault ≡ Memory) }
{
    let (table, numbered) = entry.numbered();
    let mut out = Vec::new(alloc);
    print_entry(table, numbered, &mut out)?;
    Ok(out)
}
