// Tables as texts: a word at the front of each line, and behind it what is said of it.

/// The word at the front of a line, and what stands behind the blank after it.
pub fn front(line: &str) -> (&str, &str) {
    match line.split_once(' ') {
        Some(parts) => parts,
        None => (line, ""),
    }
}

/// What stands behind a word at the front of a line, where the table has such a line.
pub fn line_of(table: &'static str, word: &str) -> Option<&'static str> {
    for line in table.lines() {
        let (known, behind) = front(line);
        if known == word {
            return Some(behind);
        }
    }
    None
}

/// What stands behind two words at the front of a line, where the table has such a line.
pub fn line_of_pair(table: &'static str, first: &str, second: &str) -> Option<&'static str> {
    for line in table.lines() {
        let (known, rest) = front(line);
        if known == first {
            let (word, behind) = front(rest);
            if word == second {
                return Some(behind);
            }
        }
    }
    None
}
