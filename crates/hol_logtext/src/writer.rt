// Lines written at the end of a text.
ghost use Rattle.std.specs.Prelude.{◌≡◌, ℕ, List, [], ◌∷◌, ◌++◌, decimal, map, OnOk, OnErr};
ghost use Rattle.hol_logtext.specs.Fields.{spaced, joined};
ghost use Rattle.hol_logtext.specs.LineText.{pair_fields, rule_fields, line_fields, line_bytes};
ghost use Rattle.hol_logtext.specs.Lines.{rule_of, line_of};
ghost use Rattle.hol_logtext.specs.Writing.{Writes};

use crate::line::{Line, Rule, Version};
use crate::output::{
    write_byte, write_field, write_name_and_number, write_number, write_numbers, write_pair,
    write_pairs, write_text,
};
use std::alloc::AllocError;

// Words and a name.
fn with_name(out: &mut Vec<u8>, words: &str, name: &str) -> Result<(), AllocError>
    ensures { Writes result out.old.items out.new.items (λ rest. words.now ++ spaced (name.now ∷ []) rest) }
{
    write_text(out, words)?;
    write_field(out, name)
}

// Words and a number.
fn with_number(out: &mut Vec<u8>, words: &str, number: u32) -> Result<(), AllocError>
    ensures { Writes result out.old.items out.new.items (λ rest. words.now ++ spaced (decimal number ∷ []) rest) }
{
    write_text(out, words)?;
    write_number(out, number)
}

// Words and two numbers.
fn with_pair(out: &mut Vec<u8>, words: &str, first: u32, second: u32) -> Result<(), AllocError>
    ensures { Writes result out.old.items out.new.items (λ rest. words.now ++ spaced (decimal first ∷ decimal second ∷ []) rest) }
{
    write_text(out, words)?;
    write_pair(out, first, second)
}

// Words, a name and a number.
fn with_name_and_number(
    out: &mut Vec<u8>,
    words: &str,
    name: &str,
    number: u32,
) -> Result<(), AllocError>
    ensures { Writes result out.old.items out.new.items (λ rest. words.now ++ spaced (name.now ∷ decimal number ∷ []) rest) }
{
    write_text(out, words)?;
    write_name_and_number(out, name, number)
}

// Words, a number and pairs of numbers.
fn with_pairs(
    out: &mut Vec<u8>,
    words: &str,
    number: u32,
    pairs: &[(u32, u32)],
) -> Result<(), AllocError>
    ensures { Writes result out.old.items out.new.items (λ rest. words.now ++ spaced (decimal number ∷ pair_fields pairs.now) rest) }
{
    with_number(out, words, number)?;
    write_pairs(out, pairs)
}

fn write_rule(out: &mut Vec<u8>, rule: &Rule<'_>) -> Result<(), AllocError>
    ensures { Writes result out.old.items out.new.items (joined (line_fields (line_of (Line.Theorem rule.now)))) }
{
    match rule {
        Rule::Refl(t) => with_number(out, "k REFL", *t),
        Rule::Trans(i, j) => with_pair(out, "k TRANS", *i, *j),
        Rule::MkComb(i, j) => with_pair(out, "k MK_COMB", *i, *j),
        Rule::Abs(t, i) => with_pair(out, "k ABS", *t, *i),
        Rule::Beta(t) => with_number(out, "k BETA", *t),
        Rule::Assume(t) => with_number(out, "k ASSUME", *t),
        Rule::EqMp(i, j) => with_pair(out, "k EQ_MP", *i, *j),
        Rule::Deduct(i, j) => with_pair(out, "k DEDUCT", *i, *j),
        Rule::Inst(i, pairs) => with_pairs(out, "k INST", *i, pairs),
        Rule::InstType(i, pairs) => with_pairs(out, "k INSTTYPE", *i, pairs),
        Rule::Eta => write_text(out, "k ETA"),
        Rule::Select => write_text(out, "k SELECT"),
        Rule::Def(name, t) => with_name_and_number(out, "k DEF", name, *t),
    }
}

fn write_header(out: &mut Vec<u8>, version: Version) -> Result<(), AllocError>
    ensures { Writes result out.old.items out.new.items (joined (line_fields (line_of (Line.Header version)))) }
{
    match version {
        Version::First => write_text(out, "holp-log 1"),
        Version::Second => write_text(out, "holp-log 2"),
    }
}

fn write_claim(
    out: &mut Vec<u8>,
    name: &str,
    theorem: u32,
    conclusion: u32,
    hypotheses: &[u32],
) -> Result<(), AllocError>
    ensures { Writes result out.old.items out.new.items
        (λ rest. 99 ∷ spaced (name.now ∷ decimal theorem ∷ decimal conclusion ∷ map decimal hypotheses.now) rest) }
{
    with_name(out, "c", name)?;
    write_pair(out, theorem, conclusion)?;
    write_numbers(out, hypotheses)
}

fn write_fields(out: &mut Vec<u8>, line: &Line<'_>) -> Result<(), AllocError>
    ensures { Writes result out.old.items out.new.items (joined (line_fields (line_of line.now))) }
{
    match line {
        Line::Header(version) => write_header(out, *version),
        Line::TypeVariable(name) => with_name(out, "y v", name),
        Line::Bool => write_text(out, "y b"),
        Line::FunctionType(domain, codomain) => with_pair(out, "y f", *domain, *codomain),
        Line::DeclaredType(name) => with_name(out, "y n", name),
        Line::Variable(name, ty) => with_name_and_number(out, "t v", name, *ty),
        Line::Constant(name, ty) => with_name_and_number(out, "t c", name, *ty),
        Line::Combination(function, argument) => with_pair(out, "t a", *function, *argument),
        Line::Abstraction(variable, body) => with_pair(out, "t l", *variable, *body),
        Line::NewType(name) => with_name(out, "ny", name),
        Line::NewConstant(name, ty) => with_name_and_number(out, "nc", name, *ty),
        Line::Theorem(rule) => write_rule(out, rule),
        Line::Claim(name, theorem, conclusion, hypotheses) => {
            write_claim(out, name, *theorem, *conclusion, hypotheses)
        }
        Line::End(count) => with_number(out, "end", *count),
    }
}

// The line and its line feed, or a part of them.
fn write_whole(out: &mut Vec<u8>, line: &Line<'_>) -> Result<(), AllocError>
    ensures { Writes result out.old.items out.new.items (λ rest. joined (line_fields (line_of line.now)) (10 ∷ rest)) }
{
    write_fields(out, line)?;
    write_byte(out, b'\n')
}

/// Puts a line with its line feed at the end of a text.
///
/// Refusals: no memory; the text then stays as it was.
pub fn write_line(line: &Line<'_>, out: &mut Vec<u8>) -> Result<(), AllocError>
    ensures ok { OnOk result (out.new.items ≡ out.old.items ++ line_bytes (line_of line.now)) }
    ensures err { OnErr result (out.new.items ≡ out.old.items) }
{
    let length = out.len();
    match write_whole(out, line) {
        Ok(()) => Ok(()),
        Err(error) => {
            out.truncate(length);
            Err(error)
        }
    }
}
