// The texts of types and terms without bound names.
ghost use Rattle.std.specs.Prelude.{◌<◌, [], ◌∷◌, ◌++◌, false, length, OnOk};
ghost use Rattle.std.specs.List.{All};
ghost use Rattle.hol_model.specs.Logs.LogClaims.{nameless_bytes, further_nameless, listed_nameless};
ghost use Rattle.hol_logtext.specs.Writing.{Appends};
ghost use Rattle.hol_check_terms.specs.Terms.{name_at, type_at, term_at};
ghost use Rattle.hol_check.specs.PrintedClaims.{bytes_if, type_text, terms_at};

use hol_check_terms::terms::{TermShape, Terms};
use hol_check_terms::types::TypeShape;
use itoa::Buffer;
use std::alloc::AllocError;

/// Puts bytes at the end.
pub(crate) fn print(out: &mut Vec<u8>, bytes: &[u8]) -> Result<(), AllocError>
    ensures { OnOk result (Appends out.old.items out.new.items (λ rest. bytes.now ++ rest)) }
{
    out.extend_from_slice(bytes)
}

// Puts a byte at the end.
fn print_byte(out: &mut Vec<u8>, byte: u8) -> Result<(), AllocError>
    ensures { OnOk result (Appends out.old.items out.new.items (λ rest. byte ∷ rest)) }
{
    out.push(byte)?;
    Ok(())
}

// Puts a byte at the end where it is wanted.
fn print_byte_if(out: &mut Vec<u8>, wanted: bool, byte: u8) -> Result<(), AllocError>
    ensures { OnOk result (Appends out.old.items out.new.items (bytes_if wanted (byte ∷ []))) }
{
    if wanted {
        print_byte(out, byte)
    } else {
        Ok(())
    }
}

/// Prints a type; on the left of an arrow a function type is in parentheses.
pub(crate) fn print_type(
    table: &Terms,
    number: usize,
    on_left: bool,
    out: &mut Vec<u8>,
) -> Result<(), AllocError>
    requires { number < length table.now.types }
    ensures { OnOk result (Appends out.old.items out.new.items (type_text on_left (type_at table.now.types number))) }
{
    match table.type_shape(number) {
        TypeShape::Variable(name) => print(out, table.name_bytes(name)),
        TypeShape::Boolean => print(out, b"bool"),
        TypeShape::Function(domain, codomain) => {
            print_byte_if(out, on_left, b'(')?;
            print_type(table, domain, true, out)?;
            print(out, b"->")?;
            print_type(table, codomain, false, out)?;
            print_byte_if(out, on_left, b')')
        }
        TypeShape::Declared(name) => print(out, table.name_bytes(name)),
    }
}

/// Prints a name with its type, between two bytes.
pub(crate) fn print_typed(
    table: &Terms,
    before: u8,
    name: usize,
    ty: usize,
    after: u8,
    out: &mut Vec<u8>,
) -> Result<(), AllocError>
    requires name { name < length table.now.names }
    requires ty { ty < length table.now.types }
    ensures { OnOk result (Appends out.old.items out.new.items
        (λ rest. before ∷ (name_at table.now.names name ++ 58 ∷ type_text false (type_at table.now.types ty) (after ∷ rest)))) }
{
    print_byte(out, before)?;
    print(out, table.name_bytes(name))?;
    print_byte(out, b':')?;
    print_type(table, ty, false, out)?;
    print_byte(out, after)
}

/// Prints a term: each function, argument and body in parentheses.
pub(crate) fn print_term(table: &Terms, number: usize, out: &mut Vec<u8>) -> Result<(), AllocError>
    requires { number < length table.now.terms }
    ensures { OnOk result (Appends out.old.items out.new.items (nameless_bytes (term_at table.now.terms number))) }
{
    match table.shape(number) {
        TermShape::Free(name, ty) => print_typed(table, b'(', name, ty, b')', out),
        TermShape::Constant(name, ty) => print_typed(table, b'[', name, ty, b']', out),
        TermShape::Bound(index) => {
            let mut digits = Buffer::new();
            print_byte(out, b'#')?;
            print(out, digits.format(index).as_bytes())
        }
        TermShape::Application(function, argument) => {
            print_byte(out, b'(')?;
            print_term(table, function, out)?;
            print_byte(out, b' ')?;
            print_term(table, argument, out)?;
            print_byte(out, b')')
        }
        TermShape::Abstraction(ty, body) => {
            print(out, b"(\\")?;
            print_type(table, ty, false, out)?;
            print(out, b". ")?;
            print_term(table, body, out)?;
            print_byte(out, b')')
        }
    }
}

// Prints each term behind a comma.
fn print_further(table: &Terms, numbers: &[usize], out: &mut Vec<u8>) -> Result<(), AllocError>
    requires { All (λ number. number < length table.now.terms) numbers.now }
    ensures { OnOk result (Appends out.old.items out.new.items (further_nameless (terms_at table.now.terms numbers.now))) }
{
    for number in numbers {
        print(out, b", ")?;
        print_term(table, *number, out)?;
    }
    Ok(())
}

/// Prints the terms with commas between them and a space behind, if there are any.
pub(crate) fn print_listed(
    table: &Terms,
    numbers: &[usize],
    out: &mut Vec<u8>,
) -> Result<(), AllocError>
    requires { All (λ number. number < length table.now.terms) numbers.now }
    ensures { OnOk result (Appends out.old.items out.new.items (listed_nameless (terms_at table.now.terms numbers.now))) }
{
    match numbers {
        [] => Ok(()),
        [first, rest @ ..] => {
            print_term(table, *first, out)?;
            print_further(table, rest, out)?;
            print_byte(out, b' ')
        }
    }
}
