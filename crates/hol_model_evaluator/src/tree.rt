// Types, terms without bound names and theories, as small trees.

/// A type.
#[derive(Drop)]
pub enum TypeTree<'a> {
    Variable(&'a str),
    Bool,
    Function(&'a TypeTree<'a>, &'a TypeTree<'a>),
    Declared(&'a str),
}

/// A term without bound names.
#[derive(Drop)]
pub enum TermTree<'a> {
    Free(&'a str, &'a TypeTree<'a>),
    Const(&'a str, &'a TypeTree<'a>),
    Bound(usize),
    App(&'a TermTree<'a>, &'a TermTree<'a>),
    Lam(&'a TypeTree<'a>, &'a TermTree<'a>),
}

/// A definition, or a declared type or constant.
#[derive(Drop)]
pub enum EntryTree<'a> {
    Definition(&'a str, &'a TypeTree<'a>, &'a TermTree<'a>),
    DeclaredType(&'a str),
    DeclaredConstant(&'a str, &'a TypeTree<'a>),
}
