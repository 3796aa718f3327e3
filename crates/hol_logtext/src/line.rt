// The lines of a proof log.

/// The version of a log. The second has declared types and constants besides what the first has.
#[derive(Clone, Copy, PartialEq, Eq)]
pub enum Version {
    First,
    Second,
}

/// How a theorem follows: a rule, an axiom or a definition. Terms and theorems are named by numbers.
#[derive(Drop)]
pub enum Rule<'a> {
    Refl(u32),
    Trans(u32, u32),
    MkComb(u32, u32),
    /// The variable, and the theorem.
    Abs(u32, u32),
    Beta(u32),
    Assume(u32),
    EqMp(u32, u32),
    Deduct(u32, u32),
    /// The theorem, and pairs of a new term and an old one.
    Inst(u32, Vec<(u32, u32)>),
    /// The theorem, and pairs of a new type and an old one.
    InstType(u32, Vec<(u32, u32)>),
    Eta,
    Select,
    /// The constant's name, and what it is defined as.
    Def(&'a str, u32),
}

/// A line of a log, a case for each form. Types, terms and theorems are named by the numbers of their lines, each kind
/// counted by itself from 0.
#[derive(Drop)]
pub enum Line<'a> {
    /// The first line.
    Header(Version),
    TypeVariable(&'a str),
    Bool,
    FunctionType(u32, u32),
    DeclaredType(&'a str),
    /// The name, and the type.
    Variable(&'a str, u32),
    /// The name, and the type.
    Constant(&'a str, u32),
    /// The function, and the argument.
    Combination(u32, u32),
    /// The variable, and the body.
    Abstraction(u32, u32),
    NewType(&'a str),
    /// The name, and the type.
    NewConstant(&'a str, u32),
    Theorem(Rule<'a>),
    /// The claim's name, the theorem, its conclusion and its hypotheses.
    Claim(&'a str, u32, u32, Vec<u32>),
    /// The last line, with the number of claims.
    End(u32),
}
