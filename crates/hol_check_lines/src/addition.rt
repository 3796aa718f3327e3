// What an accepted line adds to what the lines before it gave.
ghost use Rattle.std.specs.Prelude.{◌≡◌, ◌<◌, ◌∷◌, ◌++◌, [], length, IfErr, OnOk, OnErr};
ghost use Rattle.std.specs.Vec.{vec_len, vec_capacity};
ghost use Rattle.hol_model.specs.declared.fault.Fault.TheVariants.{Memory};
ghost use Rattle.hol_check_terms.specs.Terms.{TermTable};
ghost use Rattle.hol_check_rules.specs.Known.{GivesConstant};
ghost use Rattle.hol_check_rules.specs.State.{entry_in, theory_in, HasEntryParts, IsContents};
ghost use Rattle.hol_check_rules.specs.Judged.{HasRoom};
ghost use Rattle.hol_check_lines.specs.Added.{IsAdded, IsEntered, Gains, Keeps};
ghost use Rattle.hol_check_rules.specs.declared.state.Addition.TheVariants as addition;

use hol_check_rules::known::{add_constant, add_type};
use hol_check_rules::state::{Addition, Contents, Theorem, TheoryEntry};
use hol_model::Fault;
use std::alloc::Global;

/// Adds what an accepted line adds.
pub(crate) fn add(alloc: Global, contents: &mut Contents, addition: Addition) -> Result<(), Fault>
    ensures added { OnOk result (Gains contents.old addition contents.new) }
    ensures refused { IfErr result (λ fault. fault ≡ Memory) }
    ensures kept { OnErr result (Keeps contents.old addition contents.new) }
{
    match addition {
        Addition::TypeNumber(number) => push(&mut contents.types, number),
        Addition::TermLine(line) => push(&mut contents.terms, line),
        Addition::Proved(theorem) => add_theorem(contents, theorem),
        Addition::Defined(name, ty, body, conclusion) => {
            let hypotheses = Vec::new(alloc);
            let theorem = Theorem {
                hypotheses,
                conclusion,
            };
            add_definition(contents, name, ty, body, theorem)
        }
        Addition::NewType(name) => declare_type(contents, name),
        Addition::NewConstant(name, ty) => add_constant_declaration(contents, name, ty),
        Addition::Claimed(claim) => push(&mut contents.claims, claim),
        Addition::Ended => {
            end(contents);
            Ok(())
        }
    }
}

// Adds an item to a list.
fn push<T: Drop>(list: &mut Vec<T>, item: T) -> Result<(), Fault>
    ensures added { OnOk result (list.new.items ≡ list.old.items ++ item ∷ []) }
    ensures refused { IfErr result (λ fault. fault ≡ Memory) }
    ensures kept { OnErr result (list.new.items ≡ list.old.items) }
{
    list.push(item)?;
    Ok(())
}

fn add_theorem(contents: &mut Contents, theorem: Theorem) -> Result<(), Fault>
    ensures added { OnOk result (Gains contents.old (addition.Proved theorem) contents.new) }
    ensures refused { IfErr result (λ fault. fault ≡ Memory) }
    ensures kept { OnErr result (Keeps contents.old (addition.Proved theorem) contents.new) }
{
    push(&mut contents.theorems, theorem)
}

fn end(contents: &mut Contents)
    ensures { (table : TermTable) → IsContents table contents.old → IsAdded table contents.old addition.Ended contents.new }
{
    contents.is_ended = true;
}

// Adds an entry for which there is room.
fn put_entry(entries: &mut Vec<TheoryEntry>, entry: TheoryEntry)
    requires { vec_len entries.old < vec_capacity entries.old }
    ensures { entries.new.items ≡ entries.old.items ++ entry ∷ [] }
{
    match entries.push(entry) {
        Ok(()) => {}
        Err(_entry) => unreachable!(),
    }
}

// Adds an entry that gives a constant of a new name its type.
fn declare_constant(
    contents: &mut Contents,
    entry: TheoryEntry,
    name: usize,
    ty: usize,
) -> Result<(), Fault>
    ensures added { OnOk result ((table : TermTable) → IsContents table contents.old → HasEntryParts table entry
        → GivesConstant table (entry_in table entry) (theory_in table contents.old.entries.items) name ty → HasRoom contents.old
        → IsEntered table contents.old entry contents.new) }
    ensures refused { IfErr result (λ fault. fault ≡ Memory) }
    ensures kept { OnErr result ((table : TermTable) → IsContents table contents.old → IsContents table contents.new) }
{
    contents.entries.reserve(1)?;
    add_constant(&mut contents.known, name, ty)?;
    put_entry(&mut contents.entries, entry);
    Ok(())
}

// Adds a declared type of a new name.
fn declare_type(contents: &mut Contents, name: usize) -> Result<(), Fault>
    ensures added { OnOk result (Gains contents.old (addition.NewType name) contents.new) }
    ensures refused { IfErr result (λ fault. fault ≡ Memory) }
    ensures kept { OnErr result (Keeps contents.old (addition.NewType name) contents.new) }
{
    contents.entries.reserve(1)?;
    add_type(&mut contents.known, name)?;
    put_entry(&mut contents.entries, TheoryEntry::DeclaredType(name));
    Ok(())
}

fn add_constant_declaration(contents: &mut Contents, name: usize, ty: usize) -> Result<(), Fault>
    ensures added { OnOk result (Gains contents.old (addition.NewConstant name ty) contents.new) }
    ensures refused { IfErr result (λ fault. fault ≡ Memory) }
    ensures kept { OnErr result (Keeps contents.old (addition.NewConstant name ty) contents.new) }
{
    declare_constant(contents, TheoryEntry::DeclaredConstant(name, ty), name, ty)
}

fn add_definition(
    contents: &mut Contents,
    name: usize,
    ty: usize,
    body: usize,
    theorem: Theorem,
) -> Result<(), Fault>
    requires { theorem.hypotheses.items ≡ [] }
    ensures added { OnOk result (Gains contents.old (addition.Defined name ty body theorem.conclusion) contents.new) }
    ensures refused { IfErr result (λ fault. fault ≡ Memory) }
    ensures kept { OnErr result (Keeps contents.old (addition.Defined name ty body theorem.conclusion) contents.new) }
{
    declare_constant(contents, TheoryEntry::Definition(name, ty, body), name, ty)?;
    add_theorem(contents, theorem)
}
