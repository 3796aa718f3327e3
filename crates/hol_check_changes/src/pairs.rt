// Replacements by pairs of numbers (new, old).
ghost use Rattle.std.specs.Prelude.{◌≡◌, nat_eq, find};
ghost use Rattle.std.specs.Option.{option_map, option_map_or};
ghost use Rattle.hol_check_changes.specs.Pairs.{replaced_number};

/// What the first pair for a number puts in its place.
pub(crate) fn replaced(pairs: &[(usize, usize)], old: usize) -> usize
    ensures { result ≡ replaced_number pairs.now old }
{
    match first_pair(pairs, old) {
        Some(pair) => pair.0,
        None => old,
    }
}

fn first_pair(pairs: &[(usize, usize)], old: usize) -> Option<&(usize, usize)>
    ensures { option_map (λ pair. pair.now) result ≡ find (λ pair. nat_eq pair.1 old) pairs.now }
{
    pairs.iter().find(|pair| pair.1 == old)
}
