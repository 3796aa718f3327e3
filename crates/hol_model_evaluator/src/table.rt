// Tables of functions over lists of elements.
ghost use Rattle.std.specs.Prelude.{◌≡◌, ◌++◌, ◌∷◌, map, IfOk};
ghost use Rattle.hol_model.specs.Models.Values.{table, values_of, same_value};
ghost use Rattle.hol_model.specs.Models.Tables as tables;
ghost use Rattle.hol_model_evaluator.specs.Rows.{rows_of};

use crate::element::{Element, ElementParts, copies, push_copies, same};
use std::alloc::{AllocError, Global};

/// A test's answer as an element.
pub fn truth_of(alloc: Global, test: bool) -> Result<Element, AllocError>
    ensures { IfOk result (λ element. element ≡ tables.truth_of test) }
{
    if test {
        Element::number(alloc, 1)
    } else {
        Element::number(alloc, 0)
    }
}

/// The first element, or the number 0 where there is none.
pub fn first_of(alloc: Global, elements: &[Element]) -> Result<Element, AllocError>
    ensures { IfOk result (λ element. element ≡ tables.first_of elements.now) }
{
    match elements {
        [] => Element::number(alloc, 0),
        [first, ..] => first.copy(),
    }
}

// The element beside an argument.
fn value_beside(
    alloc: Global,
    arguments: &[Element],
    values: &[Element],
    x: &Element,
) -> Result<Element, AllocError>
    ensures { IfOk result (λ element. element ≡ tables.value_beside arguments.now (values_of values.now) x.now) }
{
    match arguments {
        [] => Element::number(alloc, 0),
        [argument, rest @ ..] => match values {
            [] => Element::number(alloc, 0),
            [value, others @ ..] => {
                if same(x, argument) {
                    value.copy()
                } else {
                    value_beside(alloc, rest, others, x)
                }
            }
        },
    }
}

/// A table's element at an argument, the table's arguments being given in order.
pub fn look_up(
    alloc: Global,
    arguments: &[Element],
    function: &Element,
    x: &Element,
) -> Result<Element, AllocError>
    ensures { IfOk result (λ element. element ≡ tables.look_up arguments.now function.now x.now) }
{
    match function.parts() {
        ElementParts::Number(_) => Element::number(alloc, 0),
        ElementParts::Table(values) => value_beside(alloc, arguments, values, x),
    }
}

// Adds each row with the element in front.
fn push_rows_before(
    alloc: Global,
    out: &mut Vec<Vec<Element>>,
    first: &Element,
    rows: &[Vec<Element>],
) -> Result<(), AllocError>
    ensures { IfOk result (λ _. rows_of out.new.items ≡ rows_of out.old.items ++ map (λ row. first.now ∷ row) (rows_of rows.now)) }
{
    match rows {
        [] => Ok(()),
        [row, rest @ ..] => {
            let mut longer = Vec::new(alloc);
            let copied = first.copy()?;
            longer.push(copied)?;
            push_copies(&mut longer, row)?;
            out.push(longer)?;
            push_rows_before(alloc, out, first, rest)
        }
    }
}

// Adds each row with each of the elements in front.
fn push_each_before(
    alloc: Global,
    out: &mut Vec<Vec<Element>>,
    elements: &[Element],
    rows: &[Vec<Element>],
) -> Result<(), AllocError>
    ensures { IfOk result (λ _. rows_of out.new.items ≡ rows_of out.old.items ++ tables.each_before elements.now (rows_of rows.now)) }
{
    match elements {
        [] => Ok(()),
        [first, rest @ ..] => {
            push_rows_before(alloc, out, first, rows)?;
            push_each_before(alloc, out, rest, rows)
        }
    }
}

// Each list of one of the elements for each argument, in lexicographic order.
fn each_row(
    alloc: Global,
    arguments: &[Element],
    elements: &[Element],
) -> Result<Vec<Vec<Element>>, AllocError>
    ensures { IfOk result (λ rows. rows_of rows.items ≡ tables.each_row arguments.now elements.now) }
{
    let mut out = Vec::new(alloc);
    match arguments {
        [] => out.push(Vec::new(alloc))?,
        [_, rest @ ..] => {
            let rows = each_row(alloc, rest, elements)?;
            push_each_before(alloc, &mut out, elements, &rows)?;
        }
    }
    Ok(out)
}

// Adds the table of each row.
fn push_tables(
    alloc: Global,
    out: &mut Vec<Element>,
    rows: &[Vec<Element>],
) -> Result<(), AllocError>
    ensures { IfOk result (λ _. out.new.items ≡ out.old.items ++ map table (rows_of rows.now)) }
{
    match rows {
        [] => Ok(()),
        [row, rest @ ..] => {
            let elements = copies(alloc, row)?;
            let tabulated = Element::table(alloc, elements)?;
            out.push(tabulated)?;
            push_tables(alloc, out, rest)
        }
    }
}

/// All tables with one of the elements for each argument, in lexicographic order.
pub fn all_tables(
    alloc: Global,
    arguments: &[Element],
    elements: &[Element],
) -> Result<Vec<Element>, AllocError>
    ensures { IfOk result (λ all. all.items ≡ map table (tables.each_row arguments.now elements.now)) }
{
    let rows = each_row(alloc, arguments, elements)?;
    let mut all = Vec::new(alloc);
    push_tables(alloc, &mut all, &rows)?;
    Ok(all)
}

// Adds, for each element, whether it is this one.
fn push_comparisons(
    alloc: Global,
    out: &mut Vec<Element>,
    x: &Element,
    elements: &[Element],
) -> Result<(), AllocError>
    ensures { IfOk result (λ _. out.new.items ≡ out.old.items ++ map (λ y. tables.truth_of (same_value x.now y)) elements.now) }
{
    match elements {
        [] => Ok(()),
        [y, rest @ ..] => {
            let answer = truth_of(alloc, same(x, y))?;
            out.push(answer)?;
            push_comparisons(alloc, out, x, rest)
        }
    }
}

// The table of an element's identity with each of some.
fn identity_with(alloc: Global, x: &Element, all: &[Element]) -> Result<Element, AllocError>
    ensures { IfOk result (λ element. element ≡ tables.tabulate all.now (λ y. tables.truth_of (same_value x.now y))) }
{
    let mut answers = Vec::new(alloc);
    push_comparisons(alloc, &mut answers, x, all)?;
    Element::table(alloc, answers)
}

// Adds, for each of the first elements, the table of its identity with each of all.
fn push_identities(
    alloc: Global,
    out: &mut Vec<Element>,
    elements: &[Element],
    all: &[Element],
) -> Result<(), AllocError>
    ensures { IfOk result (λ _. out.new.items ≡ out.old.items ++ map (λ x. tables.tabulate all.now (λ y. tables.truth_of (same_value x y))) elements.now) }
{
    match elements {
        [] => Ok(()),
        [x, rest @ ..] => {
            let tabulated = identity_with(alloc, x, all)?;
            out.push(tabulated)?;
            push_identities(alloc, out, rest, all)
        }
    }
}

/// Identity, as a table of tables.
pub fn equality_table(alloc: Global, elements: &[Element]) -> Result<Element, AllocError>
    ensures { IfOk result (λ element. element ≡ tables.equality_table elements.now) }
{
    let mut tabulated = Vec::new(alloc);
    push_identities(alloc, &mut tabulated, elements, elements)?;
    Element::table(alloc, tabulated)
}

// The first of the elements where the table has truth, or the first of all.
fn first_true(
    alloc: Global,
    all: &[Element],
    predicate: &Element,
    elements: &[Element],
) -> Result<Element, AllocError>
    ensures { IfOk result (λ element. element ≡ tables.first_true all.now predicate.now elements.now) }
{
    match elements {
        [] => first_of(alloc, all),
        [x, rest @ ..] => {
            let answer = look_up(alloc, all, predicate, x)?;
            let yes = truth_of(alloc, true)?;
            if same(&answer, &yes) {
                x.copy()
            } else {
                first_true(alloc, all, predicate, rest)
            }
        }
    }
}

// Adds, for each predicate, the element that it chooses.
fn push_choices(
    alloc: Global,
    out: &mut Vec<Element>,
    elements: &[Element],
    predicates: &[Element],
) -> Result<(), AllocError>
    ensures { IfOk result (λ _. out.new.items ≡ out.old.items ++ map (λ p. tables.first_true elements.now p elements.now) predicates.now) }
{
    match predicates {
        [] => Ok(()),
        [predicate, rest @ ..] => {
            let chosen = first_true(alloc, elements, predicate, elements)?;
            out.push(chosen)?;
            push_choices(alloc, out, elements, rest)
        }
    }
}

/// Choice, as a table over the tables of truth values.
pub fn choice_table(
    alloc: Global,
    elements: &[Element],
    predicates: &[Element],
) -> Result<Element, AllocError>
    ensures { IfOk result (λ element. element ≡ tables.choice_table elements.now predicates.now) }
{
    let mut chosen = Vec::new(alloc);
    push_choices(alloc, &mut chosen, elements, predicates)?;
    Element::table(alloc, chosen)
}
