// The literals of clauses, by the symbols at the heads of their atoms.

use crate::problem::Problem;
use hol_host::HostFail;
use std::alloc::Global;

/// A literal of a clause: its clause, its place in it and its atom, and how many others the clause has.
#[derive(Clone, Copy)]
pub(crate) struct Entry {
    pub(crate) clause: usize,
    pub(crate) literal: usize,
    pub(crate) atom: usize,
    pub(crate) others: usize,
}

// Affirmed and denied literals, those of shorter clauses first.
#[derive(Drop)]
struct Row {
    affirmed: Vec<Entry>,
    denied: Vec<Entry>,
}

/// The literals that fit each symbol: those with it at their head, or with a variable.
#[derive(Drop)]
pub(crate) struct Index {
    rows: Vec<Row>,
    // All literals.
    all: Row,
}

impl Row {
    fn new(alloc: Global) -> Row {
        Row {
            affirmed: Vec::new(alloc),
            denied: Vec::new(alloc),
        }
    }

    fn add(&mut self, entry: Entry, positive: bool) -> Result<(), HostFail> {
        let entries = if positive {
            &mut self.affirmed
        } else {
            &mut self.denied
        };
        entries.push(entry)?;
        Ok(())
    }
}

impl Index {
    /// The literals of all clauses.
    pub(crate) fn of(alloc: Global, problem: &Problem) -> Result<Index, HostFail> {
        let mut rows = Vec::new(alloc);
        for _ in problem.terms.symbols() {
            rows.push(Row::new(alloc))?;
        }
        let mut index = Index {
            rows,
            all: Row::new(alloc),
        };
        let mut longest = 0;
        for clause in &problem.clauses {
            longest = longest.max(clause.literals.len());
        }
        for others in 0..longest {
            index.add_clauses(problem, others)?;
        }
        Ok(index)
    }

    // Adds the clauses of one literal and so many others.
    fn add_clauses(&mut self, problem: &Problem, others: usize) -> Result<(), HostFail> {
        for (number, clause) in problem.clauses.iter().enumerate() {
            if clause.literals.len().checked_sub(1) != Some(others) {
                continue;
            }
            for (place, literal) in clause.literals.iter().enumerate() {
                let entry = Entry {
                    clause: number,
                    literal: place,
                    atom: literal.atom,
                    others,
                };
                self.add(entry, problem.terms.head(literal.atom), literal.positive)?;
            }
        }
        Ok(())
    }

    fn add(
        &mut self,
        entry: Entry,
        head: Option<(usize, u32)>,
        positive: bool,
    ) -> Result<(), HostFail> {
        self.all.add(entry, positive)?;
        match head {
            Some((symbol, _)) => {
                if let Some(row) = self.rows.get_mut(symbol) {
                    row.add(entry, positive)?;
                }
            }
            None => {
                for row in self.rows.iter_mut() {
                    row.add(entry, positive)?;
                }
            }
        }
        Ok(())
    }

    /// The literals that may contradict one of this sign with this symbol at its head, or with a variable.
    pub(crate) fn against(&self, head: Option<(usize, u32)>, positive: bool) -> &[Entry] {
        let row = match head {
            Some((symbol, _)) => match self.rows.get(symbol) {
                Some(row) => row,
                None => &self.all,
            },
            None => &self.all,
        };
        if positive { &row.denied } else { &row.affirmed }
    }
}
