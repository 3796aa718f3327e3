// The definitions of the logical constants, as data: those that the prelude makes.
use hol_model_evaluator::{EntryTree, TermTree, TypeTree};

const BOOL: TypeTree<'static> = TypeTree::Bool;

const A: TypeTree<'static> = TypeTree::Variable("A");

const UNARY: TypeTree<'static> = TypeTree::Function(&BOOL, &BOOL);

const BINARY: TypeTree<'static> = TypeTree::Function(&BOOL, &UNARY);

const PREDICATE: TypeTree<'static> = TypeTree::Function(&A, &BOOL);

const QUANTIFIER: TypeTree<'static> = TypeTree::Function(&PREDICATE, &BOOL);

const BOOL_QUANTIFIER: TypeTree<'static> = TypeTree::Function(&UNARY, &BOOL);

const TEST: TypeTree<'static> = TypeTree::Function(&BINARY, &BOOL);

const UNARY_RELATION: TypeTree<'static> = TypeTree::Function(&UNARY, &BOOL_QUANTIFIER);

const OF_TEST: TypeTree<'static> = TypeTree::Function(&TEST, &BOOL);

const TEST_RELATION: TypeTree<'static> = TypeTree::Function(&TEST, &OF_TEST);

const OF_PREDICATE: TypeTree<'static> = TypeTree::Function(&PREDICATE, &BOOL);

const PREDICATE_RELATION: TypeTree<'static> = TypeTree::Function(&PREDICATE, &OF_PREDICATE);

const T: TermTree<'static> = TermTree::Const("T", &BOOL);

const F: TermTree<'static> = TermTree::Const("F", &BOOL);

const AND: TermTree<'static> = TermTree::Const("/\\", &BINARY);

const IMP: TermTree<'static> = TermTree::Const("==>", &BINARY);

const FORALL: TermTree<'static> = TermTree::Const("!", &QUANTIFIER);

const FORALL_BOOL: TermTree<'static> = TermTree::Const("!", &BOOL_QUANTIFIER);

const EQUAL_FORMULAS: TermTree<'static> = TermTree::Const("=", &BINARY);

const EQUAL_UNARY: TermTree<'static> = TermTree::Const("=", &UNARY_RELATION);

const EQUAL_TESTS: TermTree<'static> = TermTree::Const("=", &TEST_RELATION);

const EQUAL_PREDICATES: TermTree<'static> = TermTree::Const("=", &PREDICATE_RELATION);

const BOUND_0: TermTree<'static> = TermTree::Bound(0);

const BOUND_1: TermTree<'static> = TermTree::Bound(1);

const BOUND_2: TermTree<'static> = TermTree::Bound(2);

// (\p. p) = (\p. p)
const IDENTITY: TermTree<'static> = TermTree::Lam(&BOOL, &BOUND_0);

const IDENTITY_EQUALS: TermTree<'static> = TermTree::App(&EQUAL_UNARY, &IDENTITY);

const TRUE_BODY: TermTree<'static> = TermTree::App(&IDENTITY_EQUALS, &IDENTITY);

// \p q. (\f. f p q) = (\f. f T T)
const TEST_P: TermTree<'static> = TermTree::App(&BOUND_0, &BOUND_2);

const TEST_P_Q: TermTree<'static> = TermTree::App(&TEST_P, &BOUND_1);

const TESTED: TermTree<'static> = TermTree::Lam(&BINARY, &TEST_P_Q);

const TEST_T: TermTree<'static> = TermTree::App(&BOUND_0, &T);

const TEST_T_T: TermTree<'static> = TermTree::App(&TEST_T, &T);

const TESTED_TRUE: TermTree<'static> = TermTree::Lam(&BINARY, &TEST_T_T);

const TESTED_EQUALS: TermTree<'static> = TermTree::App(&EQUAL_TESTS, &TESTED);

const TESTS_AGREE: TermTree<'static> = TermTree::App(&TESTED_EQUALS, &TESTED_TRUE);

const AND_P: TermTree<'static> = TermTree::Lam(&BOOL, &TESTS_AGREE);

const AND_BODY: TermTree<'static> = TermTree::Lam(&BOOL, &AND_P);

// \p q. p /\ q <=> p
const P_AND: TermTree<'static> = TermTree::App(&AND, &BOUND_1);

const P_AND_Q: TermTree<'static> = TermTree::App(&P_AND, &BOUND_0);

const P_AND_Q_EQUALS: TermTree<'static> = TermTree::App(&EQUAL_FORMULAS, &P_AND_Q);

const P_ABSORBS_Q: TermTree<'static> = TermTree::App(&P_AND_Q_EQUALS, &BOUND_1);

const IMP_P: TermTree<'static> = TermTree::Lam(&BOOL, &P_ABSORBS_Q);

const IMP_BODY: TermTree<'static> = TermTree::Lam(&BOOL, &IMP_P);

// \P. P = (\x. T)
const ALWAYS: TermTree<'static> = TermTree::Lam(&A, &T);

const PREDICATE_EQUALS: TermTree<'static> = TermTree::App(&EQUAL_PREDICATES, &BOUND_0);

const IS_ALWAYS: TermTree<'static> = TermTree::App(&PREDICATE_EQUALS, &ALWAYS);

const FORALL_BODY: TermTree<'static> = TermTree::Lam(&PREDICATE, &IS_ALWAYS);

// \P. !q. (!x. P x ==> q) ==> q
const PREDICATE_X: TermTree<'static> = TermTree::App(&BOUND_2, &BOUND_0);

const PREDICATE_X_IMP: TermTree<'static> = TermTree::App(&IMP, &PREDICATE_X);

const PREDICATE_X_IMP_Q: TermTree<'static> = TermTree::App(&PREDICATE_X_IMP, &BOUND_1);

const AT_EACH: TermTree<'static> = TermTree::Lam(&A, &PREDICATE_X_IMP_Q);

const EACH_IMP_Q: TermTree<'static> = TermTree::App(&FORALL, &AT_EACH);

const EACH_IMP_Q_IMP: TermTree<'static> = TermTree::App(&IMP, &EACH_IMP_Q);

const EACH_IMP_Q_IMP_Q: TermTree<'static> = TermTree::App(&EACH_IMP_Q_IMP, &BOUND_0);

const AT_EACH_Q: TermTree<'static> = TermTree::Lam(&BOOL, &EACH_IMP_Q_IMP_Q);

const EACH_Q: TermTree<'static> = TermTree::App(&FORALL_BOOL, &AT_EACH_Q);

const EXISTS_BODY: TermTree<'static> = TermTree::Lam(&PREDICATE, &EACH_Q);

// \p q. !r. (p ==> r) ==> (q ==> r) ==> r
const P_IMP: TermTree<'static> = TermTree::App(&IMP, &BOUND_2);

const P_IMP_R: TermTree<'static> = TermTree::App(&P_IMP, &BOUND_0);

const Q_IMP: TermTree<'static> = TermTree::App(&IMP, &BOUND_1);

const Q_IMP_R: TermTree<'static> = TermTree::App(&Q_IMP, &BOUND_0);

const Q_CASE: TermTree<'static> = TermTree::App(&IMP, &Q_IMP_R);

const Q_CASE_R: TermTree<'static> = TermTree::App(&Q_CASE, &BOUND_0);

const P_CASE: TermTree<'static> = TermTree::App(&IMP, &P_IMP_R);

const BOTH_CASES: TermTree<'static> = TermTree::App(&P_CASE, &Q_CASE_R);

const AT_EACH_R: TermTree<'static> = TermTree::Lam(&BOOL, &BOTH_CASES);

const EACH_R: TermTree<'static> = TermTree::App(&FORALL_BOOL, &AT_EACH_R);

const OR_P: TermTree<'static> = TermTree::Lam(&BOOL, &EACH_R);

const OR_BODY: TermTree<'static> = TermTree::Lam(&BOOL, &OR_P);

// !p. p
const FALSE_BODY: TermTree<'static> = TermTree::App(&FORALL_BOOL, &IDENTITY);

// \p. p ==> F
const IMP_FROM_P: TermTree<'static> = TermTree::App(&IMP, &BOUND_0);

const P_IMP_F: TermTree<'static> = TermTree::App(&IMP_FROM_P, &F);

const NOT_BODY: TermTree<'static> = TermTree::Lam(&BOOL, &P_IMP_F);

/// The definitions, the newest first.
pub(crate) const DEFINITIONS: [EntryTree<'static>; 8] = [
    EntryTree::Definition("~", &UNARY, &NOT_BODY),
    EntryTree::Definition("F", &BOOL, &FALSE_BODY),
    EntryTree::Definition("\\/", &BINARY, &OR_BODY),
    EntryTree::Definition("?", &QUANTIFIER, &EXISTS_BODY),
    EntryTree::Definition("!", &QUANTIFIER, &FORALL_BODY),
    EntryTree::Definition("==>", &BINARY, &IMP_BODY),
    EntryTree::Definition("/\\", &BINARY, &AND_BODY),
    EntryTree::Definition("T", &BOOL, &TRUE_BODY),
];
