// Conversions.

/// A conversion (HOL Light's equal.ml). Those that are chained stand in a list, so that only parentheses and prefixes nest.
#[derive(Drop)]
pub enum Conv {
    /// ALL_CONV.
    All,
    /// NO_CONV.
    No,
    /// BETA_CONV.
    Beta,
    /// REWR_CONV, by the rules of the stored theorem of this name.
    Rewr(String),
    /// The host's conversion of this name.
    Host(String),
    /// THENC, between the first and each of the others.
    Then(Box<Conv>, Vec<Conv>),
    /// ORELSEC, between the first and each of the others.
    OrElse(Box<Conv>, Vec<Conv>),
    /// A conversional in front of a conversion.
    Prefixed(Prefix, Box<Conv>),
}

/// The conversionals that stand in front of one conversion (HOL Light's equal.ml).
#[derive(Clone, Copy, PartialEq, Eq)]
pub enum Prefix {
    /// REPEATC.
    Repeat,
    /// TRY_CONV.
    Try,
    /// RAND_CONV.
    Rand,
    /// RATOR_CONV.
    Rator,
    /// ABS_CONV.
    Abs,
    /// SUB_CONV.
    Sub,
    /// DEPTH_CONV.
    Depth,
    /// ONCE_DEPTH_CONV.
    OnceDepth,
    /// TOP_DEPTH_CONV.
    TopDepth,
}
