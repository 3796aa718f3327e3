// The limits, which bound every recursion over types, terms, justifications and texts.

/// The greatest number of nodes of a type.
pub const TYPE_NODES_LIMIT: u32 = 4000;

/// The greatest number of nodes of a term.
pub const TERM_NODES_LIMIT: u32 = 4_000_000;

/// The greatest height of a term.
pub const TERM_HEIGHT_LIMIT: u32 = 2000;

/// The greatest number of definitions and declarations of a theory.
pub const DEFINITIONS_LIMIT: usize = 10_000;

/// The greatest number of arrows and parentheses that are open at once in the text of a type.
pub const TYPE_NESTING_LIMIT: usize = 2000;

/// The greatest number of parentheses, binders, negations and right operands that are open at once in the text of a
/// term.
pub const TERM_NESTING_LIMIT: usize = 4000;

/// The greatest number of parentheses, lists and prefixes that are open at once in the text of a refiner or a
/// conversion.
pub const EXPRESSION_NESTING_LIMIT: usize = 1000;

/// The greatest depth of a justification's tree.
pub const JUSTIFICATION_DEPTH_LIMIT: u32 = 2000;

/// The greatest number of descents of a conversion from a term to a part of it that are open at once.
pub const DESCENTS_LIMIT: u32 = 2000;

/// The greatest number of leaves of refiners and conversions that one command may apply.
pub const STEPS_LIMIT: u32 = 100_000;

/// The greatest number of atoms of a tautology.
pub const ATOMS_LIMIT: usize = 14;

/// The greatest number of host functions, refiners and conversions together.
pub const HOST_FUNCTIONS_LIMIT: usize = 64;

/// The greatest number of expansions that can be taken back.
pub const KEPT_EXPANSIONS_LIMIT: usize = 256;

/// The greatest number of bytes of a script, and of a log.
pub const TEXT_BYTES_LIMIT: usize = 16_777_216;

/// The greatest number that a text may write.
pub const NUMBER_LIMIT: u32 = 4_294_967_295;
