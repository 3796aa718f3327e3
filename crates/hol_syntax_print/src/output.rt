// Bytes at the end of a text.
ghost use Rattle.std.specs.Prelude.{◌≡◌, [], ◌∷◌, ◌++◌, OnOk, codes};
ghost use Rattle.std.specs.String.{string_bytes};
ghost use Rattle.hol_model.specs.Texts.Printing.{type_tree};
ghost use Rattle.hol_model.specs.Texts.TermGrammar.{infix_symbol};
ghost use Rattle.hol_model.specs.Texts.Token.{symbol_text};
ghost use Rattle.hol_model.specs.Texts.Texts.{type_bytes};
ghost use Rattle.hol_syntax_grammar.specs.Grammar.{infix_here};
ghost use Rattle.hol_syntax_print.specs.Output.{Appends, opening, closing};
ghost use Rattle.hol_syntax_print.specs.PrintedType.{placed};

use hol_syntax_grammar::grammar::Infix;
use hol_types::{Ty, TypeParts};
use std::alloc::AllocError;

/// Puts a text at the end. One of a byte or two, as marks and most names are, is pushed, which takes fewer steps than a copy.
#[inline(always)]
pub fn append(out: &mut String, text: &str) -> Result<(), AllocError>
    ensures ok { OnOk result (Appends (string_bytes out.old) (string_bytes out.new) (λ rest. text.now ++ rest)) }
{
    match text.as_bytes() {
        [byte] if *byte < 128 => out.push(*byte as char),
        [first, second] if *first < 128 && *second < 128 => {
            out.push(*first as char)?;
            out.push(*second as char)
        }
        _ => out.push_str(text),
    }
}

/// Opens a parenthesis, where it is wanted.
pub fn open(out: &mut String, wanted: bool) -> Result<(), AllocError>
    ensures ok { OnOk result (Appends (string_bytes out.old) (string_bytes out.new) (opening wanted)) }
{
    if wanted { append(out, "(") } else { Ok(()) }
}

/// Closes a parenthesis, where it is wanted.
pub fn close(out: &mut String, wanted: bool) -> Result<(), AllocError>
    ensures ok { OnOk result (Appends (string_bytes out.old) (string_bytes out.new) (closing wanted)) }
{
    if wanted { append(out, ")") } else { Ok(()) }
}

/// Prints a type; on the left of an arrow a function type is in parentheses.
pub fn print_type(ty: &Ty, on_left: bool, out: &mut String) -> Result<(), AllocError>
    ensures ok { OnOk result (Appends (string_bytes out.old) (string_bytes out.new) (type_bytes (placed on_left (type_tree ty.now)))) }
{
    match ty.parts() {
        TypeParts::Variable(name) => append(out, name),
        TypeParts::Bool => append(out, "bool"),
        TypeParts::Function(domain, codomain) => {
            open(out, on_left)?;
            print_type(domain, true, out)?;
            append(out, "->")?;
            print_type(codomain, false, out)?;
            close(out, on_left)
        }
        TypeParts::Declared(name) => append(out, name),
    }
}

/// Prints a colon, a type and the text `after`. `bool_after` is what that makes of `bool`, put at the end as one piece; inline, its length is known.
#[inline(always)]
pub fn print_annotation(
    ty: &Ty,
    after: &str,
    bool_after: &str,
    out: &mut String,
) -> Result<(), AllocError>
    requires { bool_after.now ≡ codes ":bool" ++ after.now }
    ensures ok { OnOk result (Appends (string_bytes out.old) (string_bytes out.new) (λ rest. 58 ∷ type_bytes (type_tree ty.now) (after.now ++ rest))) }
{
    match ty.parts() {
        TypeParts::Bool => out.push_str(bool_after),
        _ => print_type_between(ty, after, out),
    }
}

// Prints a colon, a type and the text `after`.
fn print_type_between(ty: &Ty, after: &str, out: &mut String) -> Result<(), AllocError>
    ensures ok { OnOk result (Appends (string_bytes out.old) (string_bytes out.new) (λ rest. 58 ∷ type_bytes (type_tree ty.now) (after.now ++ rest))) }
{
    append(out, ":")?;
    print_type(ty, false, out)?;
    append(out, after)
}

/// Puts an infix at the end, with a space on each side.
pub fn append_infix(out: &mut String, operation: Infix) -> Result<(), AllocError>
    ensures ok { OnOk result (Appends (string_bytes out.old) (string_bytes out.new)
        (λ rest. (32 ∷ symbol_text (infix_symbol (infix_here operation)) ++ 32 ∷ []) ++ rest)) }
{
    match operation {
        Infix::Iff => out.push_str(" <=> "),
        Infix::Implies => out.push_str(" ==> "),
        Infix::Or => out.push_str(" \\/ "),
        Infix::And => out.push_str(" /\\ "),
        Infix::Equal => out.push_str(" = "),
    }
}
