// The texts of types, terms and sequents.
ghost use Rattle.std.specs.Prelude.{◌≡◌, ◌∷◌, ◌++◌, [], IfOk, OnOk, IfErr, IsTrue};
ghost use Rattle.std.specs.String.{string_bytes};
ghost use Rattle.hol_model.specs.declared.fault.Fault.TheVariants.{Memory};
ghost use Rattle.hol_model.specs.Terms.Name.{is_constant_name};
ghost use Rattle.hol_model.specs.Texts.Printing.{enclose, type_tree, apply_tree, variable_tree, constant_tree, term_tree};
ghost use Rattle.hol_model.specs.Texts.TermGrammar as grammar;
ghost use Rattle.hol_model.specs.Texts.Reading as reading;
ghost use Rattle.hol_model.specs.Texts.Reading.{Bindings, bound_type};
ghost use Rattle.hol_model.specs.Texts.SequentGrammar.{ReadsSequent};
ghost use Rattle.hol_model.specs.Texts.SequentTexts.{IsReadableFormula, AreReadableFormulas};
ghost use Rattle.hol_model.specs.Texts.Texts.{term_bytes, listed_bytes, IsNamedType, IsKnownTerm, ReadsType, ReadsTerm};
ghost use Rattle.hol_model.specs.Texts.Texts as texts;
ghost use Rattle.hol_syntax_print.specs.Output.{Appends};
ghost use Rattle.hol_syntax.specs.Scope.{scope_of};
ghost use Rattle.hol_syntax_grammar.specs.Grammar.{infix_here, binder_here};
ghost use Rattle.hol_syntax_print.specs.Innermost.{IsInnermost};
ghost use Rattle.hol_syntax_print.specs.Shape.{shape_tree, joined_tree, IsNamed};

use crate::innermost::Innermost;
use crate::output::{append, append_infix, close, open, print_annotation, print_type};
use crate::shape::{Shape, binder_text, is_bare_constant, is_bound, level, shape_of};
use hol_model::Fault;
use hol_syntax::Scope;
use hol_syntax_grammar::grammar::{Binder, Infix};
use hol_terms::{Parts, Term};
use hol_types::Ty;
use std::alloc::{AllocError, Global};

// Prints a variable: its bare name where the innermost binder of that name is its own, else its type too.
#[inline(never)]
fn print_variable(
    binders: &Innermost<'_>,
    name: &str,
    ty: &Ty,
    out: &mut String,
) -> Result<(), AllocError>
    ensures ok { (bindings : Bindings) → IsInnermost binders.now bindings → OnOk result (Appends (string_bytes out.old) (string_bytes out.new)
        (term_bytes (variable_tree (bound_type bindings name.now) name.now ty.now))) }
{
    if is_bound(binders, name, ty) {
        append(out, name)
    } else {
        append(out, "(")?;
        append(out, name)?;
        print_annotation(ty, ")", ":bool)", out)
    }
}

// Prints a constant: its bare name where that says which constant it is, else its type too.
#[inline(never)]
fn print_constant(
    scope: &Scope,
    binders: &Innermost<'_>,
    name: &str,
    ty: &Ty,
    out: &mut String,
) -> Result<(), AllocError>
    requires { IsTrue (is_constant_name name.now) }
    ensures ok { (bindings : Bindings) → IsInnermost binders.now bindings → OnOk result (Appends (string_bytes out.old) (string_bytes out.new)
        (term_bytes (constant_tree (scope_of scope.now) bindings name.now ty.now))) }
{
    if is_bare_constant(scope, binders, name) {
        append(out, name)
    } else {
        append(out, "[")?;
        append(out, name)?;
        print_annotation(ty, "]", ":bool]", out)
    }
}

// Prints a term that stands under binders, in parentheses where its form is below the level.
#[cycle(print_term)]
#[inline(always)]
fn print_term<'a>(
    term: &'a Term,
    scope: &Scope,
    min_level: u8,
    binders: &mut Innermost<'a>,
    out: &mut String,
) -> Result<(), AllocError>
    ensures ok { (bindings : Bindings) → IsInnermost binders.old bindings → OnOk result (Appends (string_bytes out.old) (string_bytes out.new)
        (term_bytes (enclose min_level (term_tree (scope_of scope.now) bindings term.now)))) }
    ensures kept { (bindings : Bindings) → IsInnermost binders.old bindings → OnOk result (IsInnermost binders.new bindings) }
{
    if term.is_var() {
        print_short(min_level, term, scope, binders, out)
    } else {
        print_enclosed(term, min_level, scope, binders, out)
    }
}

// Prints a term likewise, and a variable in few steps, since that is never in parentheses.
#[cycle(print_term)]
#[inline(never)]
fn print_short<'a>(
    min_level: u8,
    part: &'a Term,
    scope: &Scope,
    binders: &mut Innermost<'a>,
    out: &mut String,
) -> Result<(), AllocError>
    ensures ok { (bindings : Bindings) → IsInnermost binders.old bindings → OnOk result (Appends (string_bytes out.old) (string_bytes out.new)
        (term_bytes (enclose min_level (term_tree (scope_of scope.now) bindings part.now)))) }
    ensures kept { (bindings : Bindings) → IsInnermost binders.old bindings → OnOk result (IsInnermost binders.new bindings) }
{
    match part.parts() {
        Parts::Variable(name, ty) if min_level <= 20 => print_variable(binders, name, ty, out),
        _ => print_enclosed(part, min_level, scope, binders, out),
    }
}

// Prints a term of any form, in parentheses where its form is below the level. Infixes nest deepest, so they alone are inlined
// here: each level of a recursion has a small frame.
#[cycle(print_term)]
fn print_enclosed<'a>(
    whole: &'a Term,
    min_level: u8,
    scope: &Scope,
    binders: &mut Innermost<'a>,
    out: &mut String,
) -> Result<(), AllocError>
    ensures ok { (bindings : Bindings) → IsInnermost binders.old bindings → OnOk result (Appends (string_bytes out.old) (string_bytes out.new)
        (term_bytes (enclose min_level (term_tree (scope_of scope.now) bindings whole.now)))) }
    ensures kept { (bindings : Bindings) → IsInnermost binders.old bindings → OnOk result (IsInnermost binders.new bindings) }
{
    let shape = shape_of(whole);
    let enclosed = level(shape) < min_level;
    open(out, enclosed)?;
    print_shape(shape, scope, binders, out)?;
    close(out, enclosed)
}

// Prints a term of this form.
#[cycle(print_term)]
#[inline(always)]
fn print_shape<'a>(
    shape: Shape<'a>,
    scope: &Scope,
    binders: &mut Innermost<'a>,
    out: &mut String,
) -> Result<(), AllocError>
    requires { IsNamed shape }
    ensures ok { (bindings : Bindings) → IsInnermost binders.old bindings → OnOk result (Appends (string_bytes out.old) (string_bytes out.new)
        (term_bytes (shape_tree (scope_of scope.now) bindings shape.entry))) }
    ensures kept { (bindings : Bindings) → IsInnermost binders.old bindings → OnOk result (IsInnermost binders.new bindings) }
{
    match shape {
        Shape::Variable(name, ty) => print_variable(binders, name, ty, out),
        Shape::Constant(name, ty) => print_constant(scope, binders, name, ty, out),
        Shape::Apply(function, argument) => {
            print_application(function, argument, scope, binders, out)
        }
        Shape::Not(operand) => print_negation(operand, scope, binders, out),
        Shape::Join(operation, left, right) => {
            print_infix(operation, left, right, scope, binders, out)
        }
        Shape::Bind(binder, name, ty, body) => {
            print_binding(binder, name, ty, body, scope, binders, out)
        }
    }
}

#[cycle(print_term)]
#[inline(never)]
fn print_application<'a>(
    function: &'a Term,
    argument: &'a Term,
    scope: &Scope,
    binders: &mut Innermost<'a>,
    out: &mut String,
) -> Result<(), AllocError>
    ensures ok { (bindings : Bindings) → IsInnermost binders.old bindings → OnOk result (Appends (string_bytes out.old) (string_bytes out.new)
        (term_bytes (apply_tree (term_tree (scope_of scope.now) bindings function.now) (term_tree (scope_of scope.now) bindings argument.now)))) }
    ensures kept { (bindings : Bindings) → IsInnermost binders.old bindings → OnOk result (IsInnermost binders.new bindings) }
{
    print_term(function, scope, 16, binders, out)?;
    append(out, " ")?;
    print_term(argument, scope, 20, binders, out)
}

#[cycle(print_term)]
#[inline(never)]
fn print_negation<'a>(
    operand: &'a Term,
    scope: &Scope,
    binders: &mut Innermost<'a>,
    out: &mut String,
) -> Result<(), AllocError>
    ensures ok { (bindings : Bindings) → IsInnermost binders.old bindings → OnOk result (Appends (string_bytes out.old) (string_bytes out.new)
        (term_bytes (grammar.Not (enclose 14 (term_tree (scope_of scope.now) bindings operand.now))))) }
    ensures kept { (bindings : Bindings) → IsInnermost binders.old bindings → OnOk result (IsInnermost binders.new bindings) }
{
    append(out, "~")?;
    print_term(operand, scope, 14, binders, out)
}

#[cycle(print_term)]
#[inline(always)]
fn print_infix<'a>(
    operation: Infix,
    left: &'a Term,
    right: &'a Term,
    scope: &Scope,
    binders: &mut Innermost<'a>,
    out: &mut String,
) -> Result<(), AllocError>
    ensures ok { (bindings : Bindings) → IsInnermost binders.old bindings → OnOk result (Appends (string_bytes out.old) (string_bytes out.new)
        (term_bytes (joined_tree (infix_here operation) (term_tree (scope_of scope.now) bindings left.now) (term_tree (scope_of scope.now) bindings right.now)))) }
    ensures kept { (bindings : Bindings) → IsInnermost binders.old bindings → OnOk result (IsInnermost binders.new bindings) }
{
    let level = operation.level();
    print_term(left, scope, level + 1, binders, out)?;
    append_infix(out, operation)?;
    print_term(right, scope, level, binders, out)
}

#[cycle(print_term)]
#[inline(never)]
fn print_binding<'a>(
    binder: Binder,
    name: &'a str,
    ty: &'a Ty,
    body: &'a Term,
    scope: &Scope,
    binders: &mut Innermost<'a>,
    out: &mut String,
) -> Result<(), AllocError>
    ensures ok { (bindings : Bindings) → IsInnermost binders.old bindings → OnOk result (Appends (string_bytes out.old) (string_bytes out.new)
        (term_bytes (grammar.Bind (binder_here binder) name.now (type_tree ty.now) (term_tree (scope_of scope.now) ((name.now, ty.now) ∷ bindings) body.now)))) }
    ensures kept { (bindings : Bindings) → IsInnermost binders.old bindings → OnOk result (IsInnermost binders.new bindings) }
{
    append(out, binder_text(binder))?;
    append(out, name)?;
    print_annotation(ty, ". ", ":bool. ", out)?;
    let hidden = binders.enter(name, ty)?;
    print_term(body, scope, 0, binders, out)?;
    binders.leave(name, hidden)
}

// Prints a term that stands under no binder.
fn print_whole<'a>(
    binders: &mut Innermost<'a>,
    scope: &Scope,
    term: &'a Term,
    out: &mut String,
) -> Result<(), AllocError>
    requires none { IsInnermost binders.old [] }
    ensures ok { OnOk result (Appends (string_bytes out.old) (string_bytes out.new) (term_bytes (term_tree (scope_of scope.now) [] term.now))) }
    ensures kept { OnOk result (IsInnermost binders.new []) }
{
    print_term(term, scope, 0, binders, out)
}

// Prints the terms with commas between them and a space behind, if there are any.
fn print_listed<'a>(
    binders: &mut Innermost<'a>,
    scope: &Scope,
    terms: &'a [Term],
    out: &mut String,
) -> Result<(), AllocError>
    requires none { IsInnermost binders.old [] }
    ensures ok { OnOk result (Appends (string_bytes out.old) (string_bytes out.new) (listed_bytes (scope_of scope.now) terms.now)) }
    ensures kept { OnOk result (IsInnermost binders.new []) }
{
    match terms {
        [] => Ok(()),
        [first, rest @ ..] => {
            print_whole(binders, scope, first, out)?;
            for term in rest {
                append(out, ", ")?;
                print_whole(binders, scope, term, out)?;
            }
            append(out, " ")
        }
    }
}

/// The text of a type.
pub fn text_of_type(alloc: Global, ty: &Ty) -> Result<String, Fault>
    ensures ok { IfOk result (λ text. string_bytes text ≡ texts.text_of_type ty.now) }
    ensures reads_back { IfOk result (λ text. (scope : reading.Scope) → IsNamedType scope ty.now → ReadsType scope (string_bytes text) ty.now) }
    ensures err { IfErr result (λ fault. fault ≡ Memory) }
{
    let _within_limit = ty.nodes();
    let mut out = String::new(alloc);
    print_type(ty, false, &mut out)?;
    Ok(out)
}

/// The text of a term.
pub fn text_of_term(alloc: Global, scope: &Scope, term: &Term) -> Result<String, Fault>
    ensures ok { IfOk result (λ text. string_bytes text ≡ texts.text_of_term (scope_of scope.now) term.now) }
    ensures reads_back { IfOk result (λ text. IsKnownTerm (scope_of scope.now) term.now → ReadsTerm (scope_of scope.now) (string_bytes text) term.now) }
    ensures err { IfErr result (λ fault. fault ≡ Memory) }
{
    term.well_formed();
    let mut binders = Innermost::new(alloc);
    let mut out = String::new(alloc);
    print_whole(&mut binders, scope, term, &mut out)?;
    Ok(out)
}

// Puts the terms, a sign and the term behind it at the end of a text.
fn print_around(
    alloc: Global,
    scope: &Scope,
    terms: &[Term],
    sign: &str,
    concl: &Term,
    out: &mut String,
) -> Result<(), AllocError>
    ensures { OnOk result (Appends (string_bytes out.old) (string_bytes out.new)
        (λ rest. listed_bytes (scope_of scope.now) terms.now (sign.now ++ term_bytes (term_tree (scope_of scope.now) [] concl.now) rest))) }
{
    // A node takes some four bytes: room for most of them at once.
    out.reserve(4 * concl.nodes() as usize)?;
    let mut binders = Innermost::new(alloc);
    print_listed(&mut binders, scope, terms, out)?;
    append(out, sign)?;
    print_whole(&mut binders, scope, concl, out)
}

// The text of the terms, a sign and the term behind it.
#[tactic(auto, using(crate::proofs::Printed::from_nothing))]
fn text_around(
    alloc: Global,
    scope: &Scope,
    terms: &[Term],
    sign: &str,
    concl: &Term,
) -> Result<String, AllocError>
    ensures { IfOk result (λ text. string_bytes text ≡ listed_bytes (scope_of scope.now) terms.now (sign.now ++ term_bytes (term_tree (scope_of scope.now) [] concl.now) [])) }
{
    let mut out = String::new(alloc);
    print_around(alloc, scope, terms, sign, concl, &mut out)?;
    Ok(out)
}

/// Puts the text of a sequent at the end of a text. Refused: Memory.
#[tactic(auto, using(crate::proofs::Printed::appended))]
pub fn push_sequent(
    alloc: Global,
    scope: &Scope,
    hyps: &[Term],
    concl: &Term,
    out: &mut String,
) -> Result<(), Fault>
    ensures ok { OnOk result (string_bytes out.new ≡ string_bytes out.old ++ texts.text_of_sequent (scope_of scope.now) hyps.now concl.now) }
    ensures err { IfErr result (λ fault. fault ≡ Memory) }
{
    print_around(alloc, scope, hyps, "|- ", concl, out)?;
    Ok(())
}

/// The text of a sequent.
pub fn text_of_sequent(
    alloc: Global,
    scope: &Scope,
    hyps: &[Term],
    concl: &Term,
) -> Result<String, Fault>
    ensures ok { IfOk result (λ text. string_bytes text ≡ texts.text_of_sequent (scope_of scope.now) hyps.now concl.now) }
    ensures reads_back { IfOk result (λ text. AreReadableFormulas (scope_of scope.now) hyps.now → IsReadableFormula (scope_of scope.now) concl.now
        → ReadsSequent (scope_of scope.now) (string_bytes text) (hyps.now, concl.now)) }
    ensures err { IfErr result (λ fault. fault ≡ Memory) }
{
    Ok(text_around(alloc, scope, hyps, "|- ", concl)?)
}

/// The text of a goal.
pub fn text_of_goal(
    alloc: Global,
    scope: &Scope,
    assumptions: &[Term],
    concl: &Term,
) -> Result<String, Fault>
    ensures ok { IfOk result (λ text. string_bytes text ≡ texts.text_of_goal (scope_of scope.now) assumptions.now concl.now) }
    ensures err { IfErr result (λ fault. fault ≡ Memory) }
{
    Ok(text_around(alloc, scope, assumptions, "?- ", concl)?)
}
