// The search: model elimination, as Loveland's, with iterative deepening by the number of inferences.

use crate::index::{Entry, Index};
use crate::problem::{Literal, Problem};
use crate::unification::{Bindings, Instance, Mark};
use hol_host::HostFail;
use std::alloc::Global;
use std::mem::replace;

/// How many inferences a refutation may have.
pub const INFERENCES: usize = 59;

/// How many pairs of nodes are compared in all for one goal of a script.
pub const COMPARISONS: u32 = 30_000_000;

// How many turns one search may take: each compares nodes, cuts a group in two, or goes back to where one of these was done.
const TURNS: u32 = 8 * COMPARISONS;

// With how much room for further subgoals a group is halved, and which part of it the one half has.
const ROOM: usize = 5;

const PARTS: usize = 4;

/// An inference of a refutation. They stand in the order in which the subgoals are met, that of each clause from left to right.
#[derive(Clone, Copy)]
pub enum Move {
    /// The subgoal contradicts one above it.
    Reduce,
    /// It contradicts a literal of an instance of a clause.
    Extend(Extension),
}

/// A clause, the place of its literal and the place where the values of the instance's variables begin.
#[derive(Clone, Copy)]
pub struct Extension {
    pub clause: usize,
    pub literal: usize,
    pub base: usize,
}

/// A refutation: the first clause, whose literals are the first subgoals and the values of whose variables come first, the moves that
/// meet all subgoals, and the values of variables.
#[derive(Drop)]
pub struct Refutation {
    pub start: usize,
    pub moves: Vec<Move>,
    pub bindings: Bindings,
}

// Where a literal stands: the number of the move that brought its clause, none for the first one, and its place in this.
#[derive(Clone, Copy)]
struct Place {
    under: Option<usize>,
    literal: usize,
}

// A literal of an instance of a clause that is to be contradicted, and the subgoal above it.
#[derive(Clone, Copy)]
struct Subgoal {
    literal: Literal,
    place: Place,
    base: usize,
    parent: Option<usize>,
}

// Subgoals one behind another, how many subgoals there may be when all of them are met, and the group that is met after them.
#[derive(Clone, Copy)]
struct Group {
    first: usize,
    count: usize,
    limit: usize,
    next: Option<usize>,
}

// Subgoals one behind another: the first one, and how many.
#[derive(Clone, Copy)]
struct Run {
    first: usize,
    count: usize,
}

impl Group {
    // The first subgoals, so many, and the others.
    fn cut(&self, count: usize) -> (Run, Run) {
        let first = Run {
            first: self.first,
            count,
        };
        let others = Run {
            first: self.first.saturating_add(count),
            count: self.count.saturating_sub(count),
        };
        (first, others)
    }
}

// A group of one subgoal, with their numbers.
#[derive(Clone, Copy)]
struct Open {
    group: usize,
    limit: usize,
    next: Option<usize>,
    number: usize,
    subgoal: Subgoal,
}

impl Subgoal {
    fn atom(&self) -> Instance {
        Instance {
            node: self.literal.atom,
            base: self.base,
        }
    }
}

// The ways to meet a group that are not tried yet.
#[derive(Clone, Copy)]
enum Untried {
    All,
    // Its second half first.
    Second,
    // By the subgoals above it, from this one on, and by all literals of clauses.
    Above(Option<usize>),
    // By the literals of clauses from this place on.
    Literals(usize),
}

// What there was when a way was taken to meet a group, and the ways that were left.
#[derive(Clone, Copy)]
struct Choice {
    group: usize,
    untried: Untried,
    groups: usize,
    subgoals: usize,
    moves: usize,
    mark: Mark,
}

// A move, and the literal that it meets.
#[derive(Clone, Copy)]
struct Met {
    place: Place,
    by: Move,
}

#[derive(Drop)]
struct Search<'a> {
    problem: &'a Problem,
    index: &'a Index,
    // How many inferences and how many comparisons there may be.
    size: usize,
    comparisons: u32,
    subgoals: Vec<Subgoal>,
    groups: Vec<Group>,
    moves: Vec<Met>,
    choices: Vec<Choice>,
    bindings: Bindings,
    // The group that is met next.
    first: Option<usize>,
}

/// A refutation of the clauses. What is compared is taken from the comparisons. It fails where none is found, or none is left.
pub fn find_refutation(
    alloc: Global,
    problem: &Problem,
    comparisons: &mut u32,
) -> Result<Refutation, HostFail> {
    let index = Index::of(alloc, problem)?;
    let mut search = Search::new(alloc, problem, &index, *comparisons);
    let found = search.refutation(alloc);
    *comparisons = search.comparisons;
    found
}

// Whether each literal of a clause is denied: among those that cannot hold together there is such a clause.
fn is_start(problem: &Problem, clause: usize) -> bool {
    match problem.clause(clause) {
        Some(clause) => clause.literals.iter().all(|literal| !literal.positive),
        None => false,
    }
}

impl<'a> Search<'a> {
    fn new(alloc: Global, problem: &'a Problem, index: &'a Index, comparisons: u32) -> Search<'a> {
        Search {
            problem,
            index,
            size: 0,
            comparisons,
            subgoals: Vec::new(alloc),
            groups: Vec::new(alloc),
            moves: Vec::new(alloc),
            choices: Vec::new(alloc),
            bindings: Bindings::new(alloc),
            first: None,
        }
    }

    // The refutation, without its comparisons.
    fn refutation(&mut self, alloc: Global) -> Result<Refutation, HostFail> {
        let start = self.deepened()?;
        let moves = self.in_order(alloc, start)?;
        self.comparisons = self.comparisons.saturating_sub(self.bindings.spent);
        Ok(Refutation {
            start,
            moves,
            bindings: replace(&mut self.bindings, Bindings::new(alloc)),
        })
    }

    // The first clause of a refutation that has as few inferences as can be.
    fn deepened(&mut self) -> Result<usize, HostFail> {
        for below in 0..INFERENCES {
            self.size = below + 1;
            for start in 0..self.problem.clauses.len() {
                if is_start(self.problem, start) && self.run(start)? {
                    return Ok(start);
                }
                if self.is_spent() {
                    return Err(HostFail::Failed);
                }
            }
        }
        Err(HostFail::Failed)
    }

    fn is_spent(&self) -> bool {
        self.bindings.spent >= self.comparisons
    }

    // Whether there is a refutation that begins with a clause.
    fn run(&mut self, start: usize) -> Result<bool, HostFail> {
        self.begin(start)?;
        if self.subgoals.len() > self.size {
            return Ok(false);
        }
        let mut untried = Untried::All;
        for _ in 0..TURNS {
            let Some(group) = self.first else {
                return Ok(true);
            };
            if self.is_spent() {
                return Ok(false);
            }
            if self.meet(group, untried)? {
                untried = Untried::All;
            } else {
                let Some(choice) = self.choices.pop() else {
                    return Ok(false);
                };
                self.go_back(choice);
                untried = choice.untried;
            }
        }
        Ok(false)
    }

    fn begin(&mut self, start: usize) -> Result<(), HostFail> {
        self.subgoals.clear();
        self.groups.clear();
        self.moves.clear();
        self.choices.clear();
        self.bindings.clear();
        self.first = None;
        let base = self.instance(start)?;
        self.add_subgoals(start, base, None, None, self.size)
    }

    fn go_back(&mut self, choice: Choice) {
        self.bindings.undo(choice.mark);
        self.subgoals.truncate(choice.subgoals);
        self.groups.truncate(choice.groups);
        self.moves.truncate(choice.moves);
        self.first = Some(choice.group);
    }

    // Where the values of the variables of a new instance of a clause begin.
    fn instance(&mut self, clause: usize) -> Result<usize, HostFail> {
        match self.problem.clause(clause) {
            Some(clause) => self.bindings.instance(clause.variables.len()),
            None => Err(HostFail::Failed),
        }
    }

    // Adds the literals of a clause as a group, without the one that the subgoal above them was met by.
    fn add_subgoals(
        &mut self,
        clause: usize,
        base: usize,
        parent: Option<usize>,
        used: Option<usize>,
        limit: usize,
    ) -> Result<(), HostFail> {
        let Some(clause) = self.problem.clause(clause) else {
            return Err(HostFail::Failed);
        };
        let first = self.subgoals.len();
        let under = self.moves.len().checked_sub(1);
        for (place, literal) in clause.literals.iter().enumerate() {
            if Some(place) != used {
                self.subgoals.push(Subgoal {
                    literal: *literal,
                    place: Place {
                        under,
                        literal: place,
                    },
                    base,
                    parent,
                })?;
            }
        }
        let count = self.subgoals.len().saturating_sub(first);
        self.add_group(Run { first, count }, limit)
    }

    // Puts a group, unless it is empty, before what is to be met.
    fn add_group(&mut self, run: Run, limit: usize) -> Result<(), HostFail> {
        let Run { first, count } = run;
        if count == 0 {
            return Ok(());
        }
        let number = self.groups.len();
        self.groups.push(Group {
            first,
            count,
            limit,
            next: self.first,
        })?;
        self.first = Some(number);
        Ok(())
    }

    fn subgoal(&self, number: Option<usize>) -> Option<Subgoal> {
        self.subgoals.get(number?).copied()
    }

    // Meets the first group in a way that is not tried yet; false where none serves.
    fn meet(&mut self, number: usize, untried: Untried) -> Result<bool, HostFail> {
        let Some(group) = self.groups.get(number).copied() else {
            return Ok(false);
        };
        if group.count > 1 {
            return self.halved(number, group, untried);
        }
        let Some(subgoal) = self.subgoal(Some(group.first)) else {
            return Ok(false);
        };
        let open = Open {
            group: number,
            limit: group.limit,
            next: group.next,
            number: group.first,
            subgoal,
        };
        match untried {
            Untried::All | Untried::Second => {
                if self.is_repeated(subgoal)? {
                    return Ok(false);
                }
                self.meet_above(open, subgoal.parent)
            }
            Untried::Above(above) => self.meet_above(open, above),
            Untried::Literals(from) => self.extended(open, from),
        }
    }

    // Puts two groups in place of one. Where there is much room, the first one has a quarter of it: one half of the subgoals can be met
    // with less than the other, and whether this is the first or the second is a choice.
    fn halved(&mut self, number: usize, group: Group, untried: Untried) -> Result<bool, HostFail> {
        let room = group.limit.saturating_sub(self.subgoals.len());
        let less = self.subgoals.len().saturating_add(room / PARTS);
        self.first = group.next;
        let (first, last, limit) = if room < ROOM {
            let (one, others) = group.cut(1);
            (one, others, group.limit)
        } else {
            let (half, others) = group.cut(group.count / 2);
            if matches!(untried, Untried::Second) {
                (others, half, less)
            } else {
                let choice = self.choice(number, Untried::Second);
                self.choices.push(choice)?;
                (half, others, less)
            }
        };
        self.add_group(last, group.limit)?;
        self.add_group(first, limit)?;
        Ok(true)
    }

    // Whether a subgoal is the same literal as one above it.
    fn is_repeated(&mut self, subgoal: Subgoal) -> Result<bool, HostFail> {
        let problem = self.problem;
        let mut above = subgoal.parent;
        for _ in 0..self.subgoals.len() {
            let Some(ancestor) = self.subgoal(above) else {
                return Ok(false);
            };
            let atoms = (subgoal.atom(), ancestor.atom());
            if ancestor.literal.positive == subgoal.literal.positive
                && self.bindings.are_equal(&problem.terms, atoms, false)?
            {
                return Ok(true);
            }
            above = ancestor.parent;
        }
        Ok(false)
    }

    // Meets a subgoal by one above it, from this one on, or else by a literal of a clause.
    fn meet_above(&mut self, open: Open, from: Option<usize>) -> Result<bool, HostFail> {
        let mut above = from;
        for _ in 0..self.subgoals.len() {
            let Some(ancestor) = self.subgoal(above) else {
                break;
            };
            if ancestor.literal.positive != open.subgoal.literal.positive
                && self.reduce(open, ancestor)?
            {
                return Ok(true);
            }
            above = ancestor.parent;
        }
        self.extended(open, 0)
    }

    // Meets a subgoal by a literal of a clause, from this place on, among those that fit the symbol at its head.
    fn extended(&mut self, open: Open, from: usize) -> Result<bool, HostFail> {
        let index = self.index;
        let literal = open.subgoal.literal;
        let head = self.problem.terms.head(literal.atom);
        let entries = index.against(head, literal.positive);
        for place in from..entries.len() {
            let entry = entries[place];
            // The later ones bring no fewer new subgoals.
            if self.subgoals.len().saturating_add(entry.others) > open.limit {
                return Ok(false);
            }
            if self.extend(open, entry, place)? {
                return Ok(true);
            }
        }
        Ok(false)
    }

    fn choice(&self, group: usize, untried: Untried) -> Choice {
        Choice {
            group,
            untried,
            groups: self.groups.len(),
            subgoals: self.subgoals.len(),
            moves: self.moves.len(),
            mark: self.bindings.mark(),
        }
    }

    // Makes two atoms equal; where they cannot be, all is as it was at the mark.
    fn unify(&mut self, atoms: (Instance, Instance), mark: Mark) -> Result<bool, HostFail> {
        let problem = self.problem;
        let are_unified = self.bindings.are_equal(&problem.terms, atoms, true)?;
        if !are_unified {
            self.bindings.undo(mark);
        }
        Ok(are_unified)
    }

    // Notes the move that meets a subgoal. Where it brings no subgoals and nothing was set, no other way serves better.
    fn take(
        &mut self,
        open: Open,
        choice: Choice,
        by: Move,
        has_others: bool,
    ) -> Result<(), HostFail> {
        if has_others || self.bindings.has_set_since(choice.mark) {
            self.choices.push(choice)?;
        }
        self.first = open.next;
        self.moves.push(Met {
            place: open.subgoal.place,
            by,
        })?;
        Ok(())
    }

    // Meets a subgoal by one above it, if the two contradict each other.
    fn reduce(&mut self, open: Open, ancestor: Subgoal) -> Result<bool, HostFail> {
        let choice = self.choice(open.group, Untried::Above(ancestor.parent));
        if !self.unify((open.subgoal.atom(), ancestor.atom()), choice.mark)? {
            return Ok(false);
        }
        self.take(open, choice, Move::Reduce, false)?;
        Ok(true)
    }

    // Meets a subgoal by the literal at this place, if the two contradict each other.
    fn extend(&mut self, open: Open, entry: Entry, place: usize) -> Result<bool, HostFail> {
        let choice = self.choice(open.group, Untried::Literals(place.saturating_add(1)));
        let extension = Extension {
            clause: entry.clause,
            literal: entry.literal,
            base: self.instance(entry.clause)?,
        };
        let atom = Instance {
            node: entry.atom,
            base: extension.base,
        };
        if !self.unify((open.subgoal.atom(), atom), choice.mark)? {
            return Ok(false);
        }
        self.take(open, choice, Move::Extend(extension), entry.others > 0)?;
        let (parent, used) = (Some(open.number), Some(entry.literal));
        self.add_subgoals(entry.clause, extension.base, parent, used, open.limit)?;
        Ok(true)
    }

    // The moves in the order of the literals that they meet, from left to right, those below a literal behind its own.
    fn in_order(&self, alloc: Global, start: usize) -> Result<Vec<Move>, HostFail> {
        let mut moves = Vec::new(alloc);
        let mut pending = Vec::new(alloc);
        self.add_places(start, None, None, &mut pending)?;
        for _ in 0..self.moves.len() {
            let Some(place) = pending.pop() else {
                break;
            };
            let Some((number, by)) = self.met(place) else {
                return Err(HostFail::Failed);
            };
            moves.push(by)?;
            if let Move::Extend(extension) = by {
                let used = Some(extension.literal);
                self.add_places(extension.clause, Some(number), used, &mut pending)?;
            }
        }
        Ok(moves)
    }

    // Adds the places of a clause's literals but the used one, the last one first.
    fn add_places(
        &self,
        clause: usize,
        under: Option<usize>,
        used: Option<usize>,
        pending: &mut Vec<Place>,
    ) -> Result<(), HostFail> {
        let Some(clause) = self.problem.clause(clause) else {
            return Err(HostFail::Failed);
        };
        for (literal, _) in clause.literals.iter().enumerate().rev() {
            if Some(literal) != used {
                pending.push(Place { under, literal })?;
            }
        }
        Ok(())
    }

    // The number of the move that met a literal, and this move.
    fn met(&self, place: Place) -> Option<(usize, Move)> {
        for (number, met) in self.moves.iter().enumerate() {
            if met.place.under == place.under && met.place.literal == place.literal {
                return Some((number, met.by));
            }
        }
        None
    }
}
