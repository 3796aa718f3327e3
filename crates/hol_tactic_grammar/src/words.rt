// Words, and what they stand for in a table.
ghost use Rattle.std.specs.Prelude.{◌≡◌, map};
ghost use Rattle.hol_tactic_grammar.specs.Words.{meaning_in};

/// What stands under a word in a table.
pub fn meaning_in<T: Copy>(table: &[(&str, T)], word: &str) -> Option<T>
    ensures { result ≡ meaning_in (map (λ entry. (entry.0.now, entry.1)) table.now) word.now }
{
    for entry in table {
        if word == entry.0 {
            return Some(entry.1);
        }
    }
    None
}
