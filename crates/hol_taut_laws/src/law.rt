// Where the laws stand.
ghost use Rattle.std.specs.Prelude.{◌≡◌};
ghost use Rattle.hol_taut_laws.specs.LawTheorems.{place};

use hol_taut_formulas::Law;

/// The place of a law among the theorems that are made.
pub(crate) fn place_of(law: Law) -> usize
    ensures { result ≡ place law }
{
    match law {
        Law::Truth => 8,
        Law::Contr => 24,
        Law::Conj => 25,
        Law::Mp => 26,
        Law::Disj1 => 31,
        Law::Disj2 => 32,
        Law::AndFalseLeft => 44,
        Law::AndFalseRight => 45,
        Law::ImpFalseLeft => 46,
        Law::ImpTrueRight => 47,
        Law::NotTrue => 48,
        Law::NotFalse => 49,
        Law::IffTrueLeft => 50,
        Law::IffTrueRight => 51,
        Law::IffFalseLeft => 52,
        Law::OrFalseLeft => 53,
        Law::NotFalseElim => 54,
    }
}
