// Whether the logical constants are defined as usual.
ghost use Rattle.std.specs.Prelude.{◌≡◌, ◌↔◌, IsTrue};
ghost use Rattle.std.specs.List.{list_any};
ghost use Rattle.hol_model.specs.Terms.HolType.{type_eq};
ghost use Rattle.hol_model.specs.Logic.Derivable.{IsMember};
ghost use Rattle.hol_model.specs.Logic.Logic.{logical_definitions};
ghost use Rattle.hol_model_evaluator.specs.Trees.{hol_type, nameless, entry_of};
ghost use Rattle.hol_check_review.specs.Usual as spec;
ghost use Rattle.hol_check_review.specs.Usual.{IsRemark, mark, same_nameless, same_entry};

use crate::logic::DEFINITIONS;
use hol_check::{EntryParts, LogEntry, TermParts, TermView, TypeParts, TypeView};
use hol_model_evaluator::{EntryTree, TermTree, TypeTree};

/// What is remarked on an entry.
#[derive(Clone, Copy, PartialEq, Eq)]
pub enum Remark {
    /// It defines a logical constant as the prelude does.
    Usual,
    /// It makes a constant of the name of a logical constant, and not as the prelude does.
    Unusual,
    Plain,
}

// Whether the type is that of the tree.
fn is_type(view: &TypeView<'_>, tree: &TypeTree<'_>) -> bool
    ensures { result ≡ type_eq view.now (hol_type tree.now) }
{
    match (view.parts(), tree) {
        (TypeParts::Variable(a), TypeTree::Variable(b)) => a == b.as_bytes(),
        (TypeParts::Boolean, TypeTree::Bool) => true,
        (TypeParts::Function(a, b), TypeTree::Function(c, d)) => is_type(&a, c) && is_type(&b, d),
        (TypeParts::Declared(a), TypeTree::Declared(b)) => a == b.as_bytes(),
        _ => false,
    }
}

// Whether the term is that of the tree.
fn is_term(view: &TermView<'_>, tree: &TermTree<'_>) -> bool
    ensures { result ≡ same_nameless view.now (nameless tree.now) }
{
    match (view.parts(), tree) {
        (TermParts::Free(a, s), TermTree::Free(b, t)) => a == b.as_bytes() && is_type(&s, t),
        (TermParts::Constant(a, s), TermTree::Const(b, t)) => a == b.as_bytes() && is_type(&s, t),
        (TermParts::Bound(i), TermTree::Bound(j)) => i == *j,
        (TermParts::Application(f, a), TermTree::App(g, b)) => is_term(&f, g) && is_term(&a, b),
        (TermParts::Abstraction(s, p), TermTree::Lam(t, q)) => is_type(&s, t) && is_term(&p, q),
        _ => false,
    }
}

// Whether the entry is that of the tree.
fn is_entry(entry: &LogEntry, tree: &EntryTree<'_>) -> bool
    ensures { result ≡ same_entry entry.now (entry_of tree.now) }
{
    match (entry.parts(), tree) {
        (EntryParts::Definition(a, s, p), EntryTree::Definition(b, t, q)) => {
            a == b.as_bytes() && is_type(&s, t) && is_term(&p, q)
        }
        (EntryParts::DeclaredType(a), EntryTree::DeclaredType(b)) => a == b.as_bytes(),
        (EntryParts::DeclaredConstant(a, s), EntryTree::DeclaredConstant(b, t)) => {
            a == b.as_bytes() && is_type(&s, t)
        }
        _ => false,
    }
}

// Whether the entry is that of one of the trees.
fn is_one_of(entry: &LogEntry, trees: &[EntryTree<'_>]) -> bool
    ensures { result ≡ list_any (λ tree. same_entry entry.now (entry_of tree)) trees.now }
{
    trees.iter().any(|tree| is_entry(entry, tree))
}

// Whether the entry defines a logical constant as the prelude does.
fn is_usual(entry: &LogEntry) -> bool
    ensures { IsTrue result ↔ IsMember entry.now logical_definitions }
{
    is_one_of(entry, DEFINITIONS.as_slice())
}

// Whether the name is that of a logical constant.
fn is_logical_name(name: &[u8]) -> bool
    ensures { result ≡ spec.is_logical_name name.now }
{
    matches!(
        name,
        b"T" | b"/\\" | b"==>" | b"!" | b"?" | b"\\/" | b"F" | b"~"
    )
}

// Whether the entry makes a constant of the name of a logical constant.
fn makes_logical_constant(entry: &LogEntry) -> bool
    ensures { result ≡ spec.makes_logical_constant entry.now }
{
    match entry.parts() {
        EntryParts::Definition(name, _, _) | EntryParts::DeclaredConstant(name, _) => {
            is_logical_name(name)
        }
        EntryParts::DeclaredType(_) => false,
    }
}

/// What is remarked on an entry of a log's theory.
pub fn remark_on(entry: &LogEntry) -> Remark
    ensures { IsRemark entry.now result }
{
    if is_usual(entry) {
        return Remark::Usual;
    }
    if makes_logical_constant(entry) {
        Remark::Unusual
    } else {
        Remark::Plain
    }
}

/// What is printed behind an entry.
pub(crate) fn mark_of(remark: Remark) -> &'static str
    ensures { result.now ≡ mark remark }
{
    match remark {
        Remark::Usual => " (as usual)",
        Remark::Unusual => " (WARNING: not as usual)",
        Remark::Plain => "",
    }
}
