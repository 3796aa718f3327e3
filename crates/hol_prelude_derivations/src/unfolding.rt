// A definition at an argument, as a macro that writes a derivation.
pub use crate::derivation::Derivation::{ApThm, Pair, Term};
pub use crate::rule::PairRule::Trans;
pub use crate::rule::TermRule::Beta;
pub use crate::sketch::TermSketch::Combination;

/// From `f = (\x. t)`, `f x = t`: the theorem, the abstraction and its variable.
#[macro_export]
macro_rules! unfolded {
    ($theorem:expr, $abstraction:expr, $x:expr) => {
        $crate::unfolding::Pair(
            $crate::unfolding::Trans,
            &$crate::unfolding::ApThm(&$theorem, &$x),
            &$crate::unfolding::Term(
                $crate::unfolding::Beta,
                &$crate::unfolding::Combination(&$abstraction, &$x),
            ),
        )
    };
}
