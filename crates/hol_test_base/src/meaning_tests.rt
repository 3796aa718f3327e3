// Meanings and sequents in small models told as data, with expected values by hand.
use hol_model_evaluator::{
    Choices, ConstantElement, Element, EntryTree, Interpretation, NamedCarrier, TermTree, TypeTree,
    VariableElement, carrier, holds_in, same, term_meaning,
};
use std::alloc::{AllocError, Global};

// An element: a number, or the table of numbers.
enum Value<'a> {
    Number(u32),
    Table(&'a [u32]),
}

// What a model gives: the numbers of a type variable or of a declared type, or what a free variable or a declared constant stands for.
enum Given<'a> {
    Type(&'a str, &'a [u32]),
    Declared(&'a str, &'a [u32]),
    Variable(&'a str, &'a TypeTree<'a>, Value<'a>),
    Constant(&'a str, u32),
}

// What is claimed in a model.
enum Claim<'a> {
    /// The elements of a type.
    Carrier(&'a TypeTree<'a>, &'a [Value<'a>]),
    /// What a term means.
    Means(&'a TermTree<'a>, Value<'a>),
    /// Whether a sequent holds.
    Holds(&'a [TermTree<'a>], &'a TermTree<'a>, bool),
}

// A theory, what a model gives, and what is claimed there.
struct Row<'a>(&'a [EntryTree<'a>], &'a [Given<'a>], &'a [Claim<'a>]);

fn numbers(alloc: Global, list: &[u32]) -> Result<Vec<Element>, AllocError> {
    let mut elements = Vec::new(alloc);
    for n in list {
        elements.push(Element::number(alloc, *n)?)?;
    }
    Ok(elements)
}

fn element(alloc: Global, value: &Value<'_>) -> Result<Element, AllocError> {
    match value {
        Value::Number(n) => Element::number(alloc, *n),
        Value::Table(list) => Element::table(alloc, numbers(alloc, list)?),
    }
}

// What a model gives, in a list for each kind.
#[derive(Drop)]
struct Lists<'a> {
    type_variables: Vec<NamedCarrier<'a>>,
    declared_types: Vec<NamedCarrier<'a>>,
    free_variables: Vec<VariableElement<'a>>,
    declared_constants: Vec<ConstantElement<'a>>,
}

impl<'a> Lists<'a> {
    fn of(alloc: Global, given: &'a [Given<'a>]) -> Result<Lists<'a>, AllocError> {
        let mut lists = Lists {
            type_variables: Vec::new(alloc),
            declared_types: Vec::new(alloc),
            free_variables: Vec::new(alloc),
            declared_constants: Vec::new(alloc),
        };
        for one in given {
            lists.add(alloc, one)?;
        }
        Ok(lists)
    }

    fn add(&mut self, alloc: Global, given: &'a Given<'a>) -> Result<(), AllocError> {
        match given {
            Given::Type(name, list) => {
                let elements = numbers(alloc, list)?;
                self.type_variables.push(NamedCarrier { name, elements })?;
            }
            Given::Declared(name, list) => {
                let elements = numbers(alloc, list)?;
                self.declared_types.push(NamedCarrier { name, elements })?;
            }
            Given::Variable(name, ty, value) => {
                let element = element(alloc, value)?;
                self.free_variables
                    .push(VariableElement { name, ty, element })?;
            }
            Given::Constant(name, number) => {
                let element = Element::number(alloc, *number)?;
                self.declared_constants
                    .push(ConstantElement { name, element })?;
            }
        }
        Ok(())
    }
}

fn is_value(alloc: Global, found: &Element, wanted: &Value<'_>) -> Result<bool, AllocError> {
    Ok(same(found, &element(alloc, wanted)?))
}

fn are_values(alloc: Global, found: &[Element], wanted: &[Value<'_>]) -> Result<bool, AllocError> {
    if found.len() != wanted.len() {
        return Ok(false);
    }
    for at in 0..wanted.len() {
        let value = &wanted[at];
        if !is_value(alloc, &found[at], value)? {
            return Ok(false);
        }
    }
    Ok(true)
}

fn is_so(
    alloc: Global,
    theory: &[EntryTree<'_>],
    model: &Interpretation<'_>,
    claim: &Claim<'_>,
) -> Result<bool, AllocError> {
    match claim {
        Claim::Carrier(ty, wanted) => {
            let found = carrier(alloc, model, ty)?;
            are_values(alloc, &found, wanted)
        }
        Claim::Means(term, wanted) => {
            let found = term_meaning(alloc, theory, model, term)?;
            is_value(alloc, &found, wanted)
        }
        Claim::Holds(hypotheses, conclusion, wanted) => {
            Ok(holds_in(alloc, theory, model, hypotheses, conclusion)? == *wanted)
        }
    }
}

fn are_so(
    alloc: Global,
    theory: &[EntryTree<'_>],
    model: &Interpretation<'_>,
    claims: &[Claim<'_>],
) -> Result<bool, AllocError> {
    for at in 0..claims.len() {
        let claim = &claims[at];
        if !is_so(alloc, theory, model, claim)? {
            return Ok(false);
        }
    }
    Ok(true)
}

fn row_is_so(alloc: Global, row: &Row<'_>) -> Result<bool, AllocError> {
    let given = Lists::of(alloc, row.1)?;
    let choices = Choices {
        type_variables: &given.type_variables,
        declared_types: &given.declared_types,
        free_variables: &given.free_variables,
        declared_constants: &given.declared_constants,
    };
    are_so(alloc, row.0, &Interpretation::Given(&choices), row.2)
}

// The number of the first row of which something does not hold, if any.
fn first_wrong(alloc: Global, rows: &[Row<'_>]) -> Option<usize> {
    for at in 0..rows.len() {
        let row = &rows[at];
        if !matches!(row_is_so(alloc, row), Ok(true)) {
            return Some(at);
        }
    }
    None
}

const A: TypeTree<'static> = TypeTree::Variable("A");

const B: TypeTree<'static> = TypeTree::Variable("B");

const BOOL: TypeTree<'static> = TypeTree::Bool;

const ON_A: TypeTree<'static> = TypeTree::Function(&A, &A);

const ON_BOOL: TypeTree<'static> = TypeTree::Function(&BOOL, &BOOL);

const FROM_FUNCTIONS: TypeTree<'static> = TypeTree::Function(&ON_BOOL, &BOOL);

const EQUAL_FUNCTIONS: TypeTree<'static> = TypeTree::Function(&ON_BOOL, &FROM_FUNCTIONS);

// The types of `P:A->bool`, of `@` and of `!`.
const PREDICATE: TypeTree<'static> = TypeTree::Function(&A, &BOOL);

const CHOICE: TypeTree<'static> = TypeTree::Function(&PREDICATE, &A);

const QUANTIFIER: TypeTree<'static> = TypeTree::Function(&PREDICATE, &BOOL);

// `(\x:bool. x) = (\x. x)`.
const BOUND: TermTree<'static> = TermTree::Bound(0);

const BOOL_IDENTITY: TermTree<'static> = TermTree::Lam(&BOOL, &BOUND);

const FUNCTION_EQUALITY: TermTree<'static> = TermTree::Const("=", &EQUAL_FUNCTIONS);

const IDENTITY_EQUALS: TermTree<'static> = TermTree::App(&FUNCTION_EQUALITY, &BOOL_IDENTITY);

const REFLEXIVE: TermTree<'static> = TermTree::App(&IDENTITY_EQUALS, &BOOL_IDENTITY);

// The tables over two arguments come in lexicographic order, whatever the arguments are. A type that is not listed has one element.
const CARRIERS: [Row<'static>; 1] = [Row(
    &[],
    &[Given::Type("A", &[7, 9])],
    &[
        Claim::Carrier(
            &PREDICATE,
            &[
                Value::Table(&[0, 0]),
                Value::Table(&[0, 1]),
                Value::Table(&[1, 0]),
                Value::Table(&[1, 1]),
            ],
        ),
        Claim::Carrier(&B, &[Value::Number(0)]),
    ],
)];

#[test]
fn the_tables_are_listed(rt: HostRuntime) {
    assert!(rt; first_wrong(rt.alloc(), &CARRIERS).is_none());
}

// The axiom `(\x:A. t x) = t`.
const FUNCTION: TypeTree<'static> = TypeTree::Function(&A, &B);

const FUNCTION_TO_TRUTH: TypeTree<'static> = TypeTree::Function(&FUNCTION, &BOOL);

const EQUAL_ON_FUNCTIONS: TypeTree<'static> = TypeTree::Function(&FUNCTION, &FUNCTION_TO_TRUTH);

const T: TermTree<'static> = TermTree::Free("t", &FUNCTION);

const T_OF_BOUND: TermTree<'static> = TermTree::App(&T, &BOUND);

const EXPANDED: TermTree<'static> = TermTree::Lam(&A, &T_OF_BOUND);

const EQUALITY_ON_FUNCTIONS: TermTree<'static> = TermTree::Const("=", &EQUAL_ON_FUNCTIONS);

const EXPANDED_EQUALS: TermTree<'static> = TermTree::App(&EQUALITY_ON_FUNCTIONS, &EXPANDED);

const ETA: TermTree<'static> = TermTree::App(&EXPANDED_EQUALS, &T);

const ETA_HOLDS: [Claim<'static>; 1] = [Claim::Holds(&[], &ETA, true)];

// Carriers of `A` and `B` of two and of one element, and all functions from the one to the other.
const A_OF_TWO: Given<'static> = Given::Type("A", &[5, 6]);

const A_OF_ONE: Given<'static> = Given::Type("A", &[5]);

const B_OF_TWO: Given<'static> = Given::Type("B", &[2, 3]);

const B_OF_ONE: Given<'static> = Given::Type("B", &[2]);

const FUNCTIONS_TWO_TWO: [Value<'static>; 4] = [
    Value::Table(&[2, 2]),
    Value::Table(&[2, 3]),
    Value::Table(&[3, 2]),
    Value::Table(&[3, 3]),
];

const T_2_2: Given<'static> = Given::Variable("t", &FUNCTION, Value::Table(&[2, 2]));

const T_2_3: Given<'static> = Given::Variable("t", &FUNCTION, Value::Table(&[2, 3]));

const T_3_2: Given<'static> = Given::Variable("t", &FUNCTION, Value::Table(&[3, 2]));

const T_3_3: Given<'static> = Given::Variable("t", &FUNCTION, Value::Table(&[3, 3]));

const FUNCTIONS_ONE_TWO: [Value<'static>; 2] = [Value::Table(&[2]), Value::Table(&[3])];

const T_2: Given<'static> = Given::Variable("t", &FUNCTION, Value::Table(&[2]));

const T_3: Given<'static> = Given::Variable("t", &FUNCTION, Value::Table(&[3]));

const FUNCTIONS_TWO_ONE: [Value<'static>; 1] = [Value::Table(&[2, 2])];

const FUNCTIONS_ONE_ONE: [Value<'static>; 1] = [Value::Table(&[2])];

const ETAS: [Row<'static>; 12] = [
    Row(
        &[],
        &[A_OF_TWO, B_OF_TWO],
        &[Claim::Carrier(&FUNCTION, &FUNCTIONS_TWO_TWO)],
    ),
    Row(&[], &[A_OF_TWO, B_OF_TWO, T_2_2], &ETA_HOLDS),
    Row(&[], &[A_OF_TWO, B_OF_TWO, T_2_3], &ETA_HOLDS),
    Row(&[], &[A_OF_TWO, B_OF_TWO, T_3_2], &ETA_HOLDS),
    Row(&[], &[A_OF_TWO, B_OF_TWO, T_3_3], &ETA_HOLDS),
    Row(
        &[],
        &[A_OF_ONE, B_OF_TWO],
        &[Claim::Carrier(&FUNCTION, &FUNCTIONS_ONE_TWO)],
    ),
    Row(&[], &[A_OF_ONE, B_OF_TWO, T_2], &ETA_HOLDS),
    Row(&[], &[A_OF_ONE, B_OF_TWO, T_3], &ETA_HOLDS),
    Row(
        &[],
        &[A_OF_TWO, B_OF_ONE],
        &[Claim::Carrier(&FUNCTION, &FUNCTIONS_TWO_ONE)],
    ),
    Row(&[], &[A_OF_TWO, B_OF_ONE, T_2_2], &ETA_HOLDS),
    Row(
        &[],
        &[A_OF_ONE, B_OF_ONE],
        &[Claim::Carrier(&FUNCTION, &FUNCTIONS_ONE_ONE)],
    ),
    Row(&[], &[A_OF_ONE, B_OF_ONE, T_2], &ETA_HOLDS),
];

#[test]
fn eta_holds(rt: HostRuntime) {
    assert!(rt; first_wrong(rt.alloc(), &ETAS).is_none());
}

// The axiom `P x |- P (@ P)`, and its conclusion alone, which fails for the empty predicate.
const P: TermTree<'static> = TermTree::Free("P", &PREDICATE);

const X: TermTree<'static> = TermTree::Free("x", &A);

const CHOOSE: TermTree<'static> = TermTree::Const("@", &CHOICE);

const CHOSEN: TermTree<'static> = TermTree::App(&CHOOSE, &P);

const P_OF_CHOSEN: TermTree<'static> = TermTree::App(&P, &CHOSEN);

const P_OF_X: [TermTree<'static>; 1] = [TermTree::App(&P, &X)];

const SELECT_HOLDS: [Claim<'static>; 2] = [
    Claim::Holds(&P_OF_X, &P_OF_CHOSEN, true),
    Claim::Holds(&[], &P_OF_CHOSEN, true),
];

const SELECT_OF_NONE: [Claim<'static>; 2] = [
    Claim::Holds(&P_OF_X, &P_OF_CHOSEN, true),
    Claim::Holds(&[], &P_OF_CHOSEN, false),
];

// All predicates and elements of carriers of two and of one element.
const X_5: Given<'static> = Given::Variable("x", &A, Value::Number(5));

const X_6: Given<'static> = Given::Variable("x", &A, Value::Number(6));

const P_0_0: Given<'static> = Given::Variable("P", &PREDICATE, Value::Table(&[0, 0]));

const P_0_1: Given<'static> = Given::Variable("P", &PREDICATE, Value::Table(&[0, 1]));

const P_1_0: Given<'static> = Given::Variable("P", &PREDICATE, Value::Table(&[1, 0]));

const P_1_1: Given<'static> = Given::Variable("P", &PREDICATE, Value::Table(&[1, 1]));

const P_0: Given<'static> = Given::Variable("P", &PREDICATE, Value::Table(&[0]));

const P_1: Given<'static> = Given::Variable("P", &PREDICATE, Value::Table(&[1]));

const SELECTS: [Row<'static>; 10] = [
    Row(&[], &[A_OF_TWO, P_0_0, X_5], &SELECT_OF_NONE),
    Row(&[], &[A_OF_TWO, P_0_0, X_6], &SELECT_OF_NONE),
    Row(&[], &[A_OF_TWO, P_0_1, X_5], &SELECT_HOLDS),
    Row(&[], &[A_OF_TWO, P_0_1, X_6], &SELECT_HOLDS),
    Row(&[], &[A_OF_TWO, P_1_0, X_5], &SELECT_HOLDS),
    Row(&[], &[A_OF_TWO, P_1_0, X_6], &SELECT_HOLDS),
    Row(&[], &[A_OF_TWO, P_1_1, X_5], &SELECT_HOLDS),
    Row(&[], &[A_OF_TWO, P_1_1, X_6], &SELECT_HOLDS),
    Row(&[], &[A_OF_ONE, P_0, X_5], &SELECT_OF_NONE),
    Row(&[], &[A_OF_ONE, P_1, X_5], &SELECT_HOLDS),
];

#[test]
fn select_holds(rt: HostRuntime) {
    assert!(rt; first_wrong(rt.alloc(), &SELECTS).is_none());
}

// `@` gives the first element where the predicate is true, and of an empty predicate the first of the carrier.
const A_OF_THREE: Given<'static> = Given::Type("A", &[7, 9, 4]);

const P_0_0_0: Given<'static> = Given::Variable("P", &PREDICATE, Value::Table(&[0, 0, 0]));

const P_0_1_1: Given<'static> = Given::Variable("P", &PREDICATE, Value::Table(&[0, 1, 1]));

const P_0_0_1: Given<'static> = Given::Variable("P", &PREDICATE, Value::Table(&[0, 0, 1]));

const P_1_1_1: Given<'static> = Given::Variable("P", &PREDICATE, Value::Table(&[1, 1, 1]));

const SEVEN_IS_CHOSEN: [Claim<'static>; 1] = [Claim::Means(&CHOSEN, Value::Number(7))];

const NINE_IS_CHOSEN: [Claim<'static>; 1] = [Claim::Means(&CHOSEN, Value::Number(9))];

const FOUR_IS_CHOSEN: [Claim<'static>; 1] = [Claim::Means(&CHOSEN, Value::Number(4))];

const CHOICES: [Row<'static>; 4] = [
    Row(&[], &[A_OF_THREE, P_0_0_0], &SEVEN_IS_CHOSEN),
    Row(&[], &[A_OF_THREE, P_0_1_1], &NINE_IS_CHOSEN),
    Row(&[], &[A_OF_THREE, P_0_0_1], &FOUR_IS_CHOSEN),
    Row(&[], &[A_OF_THREE, P_1_1_1], &SEVEN_IS_CHOSEN),
];

#[test]
fn the_first_is_chosen(rt: HostRuntime) {
    assert!(rt; first_wrong(rt.alloc(), &CHOICES).is_none());
}

// `I = \x:A. x` at two instances, and `J = I I`, which uses it at two others.
const ON_B: TypeTree<'static> = TypeTree::Function(&B, &B);

const ON_FUNCTIONS: TypeTree<'static> = TypeTree::Function(&ON_A, &ON_A);

const IDENTITY: TermTree<'static> = TermTree::Lam(&A, &BOUND);

const OUTER: TermTree<'static> = TermTree::Const("I", &ON_FUNCTIONS);

const INNER: TermTree<'static> = TermTree::Const("I", &ON_A);

const BOTH: TermTree<'static> = TermTree::App(&OUTER, &INNER);

const IDENTITIES: [EntryTree<'static>; 2] = [
    EntryTree::Definition("J", &ON_A, &BOTH),
    EntryTree::Definition("I", &ON_A, &IDENTITY),
];

const I_AT_B: TermTree<'static> = TermTree::Const("I", &ON_B);

const J_AT_B: TermTree<'static> = TermTree::Const("J", &ON_B);

const I_AT_BOOL: TermTree<'static> = TermTree::Const("I", &ON_BOOL);

const J_AT_BOOL: TermTree<'static> = TermTree::Const("J", &ON_BOOL);

// `T = (\p:bool. p) = (\p. p)`, `! = \P:A->bool. P = (\x. T)` and `F = !p:bool. p`.
const EQUAL_PREDICATES: TypeTree<'static> = TypeTree::Function(&PREDICATE, &QUANTIFIER);

const TRUE_CONSTANT: TermTree<'static> = TermTree::Const("T", &BOOL);

const ALWAYS: TermTree<'static> = TermTree::Lam(&A, &TRUE_CONSTANT);

const PREDICATE_EQUALITY: TermTree<'static> = TermTree::Const("=", &EQUAL_PREDICATES);

const EQUAL_TO: TermTree<'static> = TermTree::App(&PREDICATE_EQUALITY, &BOUND);

const IS_ALWAYS: TermTree<'static> = TermTree::App(&EQUAL_TO, &ALWAYS);

const FORALL_BODY: TermTree<'static> = TermTree::Lam(&PREDICATE, &IS_ALWAYS);

const FORALL: TermTree<'static> = TermTree::Const("!", &FROM_FUNCTIONS);

const FALSE_BODY: TermTree<'static> = TermTree::App(&FORALL, &BOOL_IDENTITY);

const TRUTHS: [EntryTree<'static>; 3] = [
    EntryTree::Definition("F", &BOOL, &FALSE_BODY),
    EntryTree::Definition("!", &QUANTIFIER, &FORALL_BODY),
    EntryTree::Definition("T", &BOOL, &REFLEXIVE),
];

const FALSE_CONSTANT: TermTree<'static> = TermTree::Const("F", &BOOL);

const FALSE_CONSTANTS: [TermTree<'static>; 1] = [TermTree::Const("F", &BOOL)];

const DEFINITIONS: [Row<'static>; 2] = [
    Row(
        &IDENTITIES,
        &[Given::Type("B", &[7, 9, 4])],
        &[
            Claim::Means(&I_AT_B, Value::Table(&[7, 9, 4])),
            Claim::Means(&J_AT_B, Value::Table(&[7, 9, 4])),
            Claim::Means(&I_AT_BOOL, Value::Table(&[0, 1])),
            Claim::Means(&J_AT_BOOL, Value::Table(&[0, 1])),
        ],
    ),
    Row(
        &TRUTHS,
        &[],
        &[
            Claim::Means(&REFLEXIVE, Value::Number(1)),
            Claim::Means(&FALSE_BODY, Value::Number(0)),
            Claim::Holds(&[], &TRUE_CONSTANT, true),
            Claim::Holds(&[], &FALSE_CONSTANT, false),
            Claim::Holds(&FALSE_CONSTANTS, &FALSE_BODY, true),
        ],
    ),
];

#[test]
fn definitions(rt: HostRuntime) {
    assert!(rt; first_wrong(rt.alloc(), &DEFINITIONS).is_none());
}

// `p |- p` and `|- (\x:bool. x) = (\x. x)` hold for both values of the variables; `|- p`, `|- p = q` and `p |- q` do not.
const BINARY: TypeTree<'static> = TypeTree::Function(&BOOL, &ON_BOOL);

const LITTLE_P: TermTree<'static> = TermTree::Free("p", &BOOL);

const Q: TermTree<'static> = TermTree::Free("q", &BOOL);

const P_ALONE: [TermTree<'static>; 1] = [TermTree::Free("p", &BOOL)];

const EQUIVALENCE: TermTree<'static> = TermTree::Const("=", &BINARY);

const P_EQUALS: TermTree<'static> = TermTree::App(&EQUIVALENCE, &LITTLE_P);

const EQUIVALENT: TermTree<'static> = TermTree::App(&P_EQUALS, &Q);

const P_IS_FALSE: Given<'static> = Given::Variable("p", &BOOL, Value::Number(0));

const P_IS_TRUE: Given<'static> = Given::Variable("p", &BOOL, Value::Number(1));

const Q_IS_FALSE: Given<'static> = Given::Variable("q", &BOOL, Value::Number(0));

const Q_IS_TRUE: Given<'static> = Given::Variable("q", &BOOL, Value::Number(1));

const P_FROM_P: Claim<'static> = Claim::Holds(&P_ALONE, &LITTLE_P, true);

const Q_FROM_P: Claim<'static> = Claim::Holds(&P_ALONE, &Q, true);

const NO_Q_FROM_P: Claim<'static> = Claim::Holds(&P_ALONE, &Q, false);

const REFLEXIVITY: Claim<'static> = Claim::Holds(&[], &REFLEXIVE, true);

const P_HOLDS: Claim<'static> = Claim::Holds(&[], &LITTLE_P, true);

const P_FAILS: Claim<'static> = Claim::Holds(&[], &LITTLE_P, false);

const EQUAL: Claim<'static> = Claim::Holds(&[], &EQUIVALENT, true);

const UNEQUAL: Claim<'static> = Claim::Holds(&[], &EQUIVALENT, false);

const SEQUENTS: [Row<'static>; 4] = [
    Row(
        &[],
        &[P_IS_FALSE, Q_IS_FALSE],
        &[P_FROM_P, REFLEXIVITY, P_FAILS, EQUAL, Q_FROM_P],
    ),
    Row(
        &[],
        &[P_IS_FALSE, Q_IS_TRUE],
        &[P_FROM_P, REFLEXIVITY, P_FAILS, UNEQUAL, Q_FROM_P],
    ),
    Row(
        &[],
        &[P_IS_TRUE, Q_IS_FALSE],
        &[P_FROM_P, REFLEXIVITY, P_HOLDS, UNEQUAL, NO_Q_FROM_P],
    ),
    Row(
        &[],
        &[P_IS_TRUE, Q_IS_TRUE],
        &[P_FROM_P, REFLEXIVITY, P_HOLDS, EQUAL, Q_FROM_P],
    ),
];

#[test]
fn sequents_of_variables(rt: HostRuntime) {
    assert!(rt; first_wrong(rt.alloc(), &SEQUENTS).is_none());
}

// A declared type with two elements, and a declared constant of it.
const PERSON: TypeTree<'static> = TypeTree::Declared("person");

const PERSON_TO_TRUTH: TypeTree<'static> = TypeTree::Function(&PERSON, &BOOL);

const EQUAL_PERSONS: TypeTree<'static> = TypeTree::Function(&PERSON, &PERSON_TO_TRUTH);

const PERSONS: [EntryTree<'static>; 2] = [
    EntryTree::DeclaredConstant("adam", &PERSON),
    EntryTree::DeclaredType("person"),
];

const ADAM: TermTree<'static> = TermTree::Const("adam", &PERSON);

const SOMEBODY: TermTree<'static> = TermTree::Free("x", &PERSON);

const PERSON_EQUALITY: TermTree<'static> = TermTree::Const("=", &EQUAL_PERSONS);

const ADAM_EQUALS: TermTree<'static> = TermTree::App(&PERSON_EQUALITY, &ADAM);

const IS_ADAM: TermTree<'static> = TermTree::App(&ADAM_EQUALS, &SOMEBODY);

const TWO_PERSONS: Given<'static> = Given::Declared("person", &[4, 6]);

const ADAM_IS_6: Given<'static> = Given::Constant("adam", 6);

const SOMEBODY_IS_4: Given<'static> = Given::Variable("x", &PERSON, Value::Number(4));

const SOMEBODY_IS_6: Given<'static> = Given::Variable("x", &PERSON, Value::Number(6));

const DECLARATIONS: [Row<'static>; 2] = [
    Row(
        &PERSONS,
        &[TWO_PERSONS, ADAM_IS_6, SOMEBODY_IS_4],
        &[Claim::Holds(&[], &IS_ADAM, false)],
    ),
    Row(
        &PERSONS,
        &[TWO_PERSONS, ADAM_IS_6, SOMEBODY_IS_6],
        &[Claim::Holds(&[], &IS_ADAM, true)],
    ),
];

#[test]
fn declared_types_and_constants(rt: HostRuntime) {
    assert!(rt; first_wrong(rt.alloc(), &DECLARATIONS).is_none());
}
