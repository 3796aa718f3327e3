// The names that are known where a command stands.
use crate::messages::Message;
use crate::no_memory::NoMemory;
use crate::piece::{Piece, between};
use crate::proof::Proof;
use crate::tables::front;
use hol_model::Fault;
use hol_syntax::{Scope, read_term, read_type};
use hol_types::Ty;
use std::alloc::Global;
use strsim::osa_distance;

/// What names stand for, all names of each kind, and those that refused commands would have made: each with the place behind it; and
/// the proof under way.
#[derive(Drop)]
pub struct Known {
    pub scope: Scope,
    pub theorems: Vec<String>,
    pub constants: Vec<String>,
    pub variables: Vec<String>,
    pub types: Vec<String>,
    pub lost_theorems: Vec<String>,
    pub lost_names: Vec<String>,
    /// Names of stored theorems under which a refused command would have stored another one.
    pub kept_theorems: Vec<String>,
    pub proof: Proof,
}

// The theorems that are stored when a script begins.
const THEOREMS: &str =
    "T_DEF AND_DEF IMP_DEF FORALL_DEF EXISTS_DEF OR_DEF F_DEF NOT_DEF TRUTH ETA_AX SELECT_AX EXCLUDED_MIDDLE";

// The constants that are known when a script begins, with their generic types.
const CONSTANTS: &str = "\
= A->A->bool
@ (A->bool)->A
T bool
F bool
~ bool->bool
/\\ bool->bool->bool
\\/ bool->bool->bool
==> bool->bool->bool
! (A->bool)->bool
? (A->bool)->bool";

// The longest name for which a near one is looked for.
const NAME_LENGTH: usize = 64;

/// What a call that is told by its fault answers, where there is one, and that there was no memory.
fn given<T: Drop>(answer: Result<T, Fault>) -> Result<Option<T>, NoMemory> {
    match answer {
        Ok(value) => Ok(Some(value)),
        Err(Fault::Memory) => Err(NoMemory),
        Err(_) => Ok(None),
    }
}

/// Puts a name at the end.
pub(crate) fn push_name(
    alloc: Global,
    names: &mut Vec<String>,
    name: &str,
) -> Result<(), NoMemory> {
    names.push(String::from_str(alloc, name)?)?;
    Ok(())
}

// Puts a name and a place behind it at the end.
fn push_lost(
    alloc: Global,
    lost: &mut Vec<String>,
    name: &str,
    place: &str,
) -> Result<(), NoMemory> {
    lost.push(format!(in alloc; "{name} {place}")?)?;
    Ok(())
}

/// Whether a name is one of these.
pub fn is_among(names: &[String], name: &str) -> bool {
    for known in names {
        if known.as_str() == name {
            return true;
        }
    }
    false
}

impl Known {
    /// The names that are known when a script begins.
    pub fn new(alloc: Global) -> Result<Known, NoMemory> {
        let Ok(scope) = Scope::new(alloc) else {
            return Err(NoMemory);
        };
        let mut known = Known {
            scope,
            theorems: Vec::new(alloc),
            constants: Vec::new(alloc),
            variables: Vec::new(alloc),
            types: Vec::new(alloc),
            lost_theorems: Vec::new(alloc),
            lost_names: Vec::new(alloc),
            kept_theorems: Vec::new(alloc),
            proof: Proof::none(),
        };
        match known.learn_first(alloc) {
            Ok(()) => Ok(known),
            Err(error) => {
                drop(known);
                Err(error)
            }
        }
    }

    // What is known when a script begins.
    fn learn_first(&mut self, alloc: Global) -> Result<(), NoMemory> {
        for name in THEOREMS.split(' ') {
            push_name(alloc, &mut self.theorems, name)?;
        }
        for line in CONSTANTS.lines() {
            let (name, ty) = front(line);
            self.learn_typed(alloc, name, ty.as_bytes(), false)?;
        }
        push_name(alloc, &mut self.types, "bool")
    }

    // A constant is known at a type, those of the scope's own with the others.
    fn learn_constant(&mut self, alloc: Global, name: &str, ty: &Ty) -> Result<(), NoMemory> {
        let _known = given(self.scope.add_const(alloc, name, ty))?;
        push_name(alloc, &mut self.constants, name)
    }

    // A variable or a constant is known at the type of a text.
    fn learn_typed(
        &mut self,
        alloc: Global,
        name: &str,
        ty: &[u8],
        is_variable: bool,
    ) -> Result<(), NoMemory> {
        match given(read_type(alloc, &self.scope, ty))? {
            Some(ty) if is_variable => {
                let _known = given(self.scope.set_var(alloc, name, &ty))?;
                push_name(alloc, &mut self.variables, name)
            }
            Some(ty) => self.learn_constant(alloc, name, &ty),
            None => Ok(()),
        }
    }

    // A constant is defined by the term of a text.
    fn learn_definition(&mut self, alloc: Global, name: &str, text: &[u8]) -> Result<(), NoMemory> {
        self.theorems.push(format!(in alloc; "{name}_def")?)?;
        match given(read_term(alloc, &self.scope, text))? {
            Some(term) => self.learn_constant(alloc, name, term.ty()),
            None => Ok(()),
        }
    }

    /// An accepted command makes its names known.
    pub fn learn(&mut self, alloc: Global, piece: &Piece<'_>) -> Result<(), NoMemory> {
        self.proof.accept(piece.text(0));
        let name = piece.text(1);
        let behind = between(piece.bytes, piece.start(3), piece.bytes.len());
        match piece.text(0) {
            "thm" | "save" => push_name(alloc, &mut self.theorems, name),
            "var" => self.learn_typed(alloc, name, behind, true),
            "newconst" => self.learn_typed(alloc, name, behind, false),
            "def" => self.learn_definition(alloc, name, piece.quoted(3)),
            "newtype" => {
                let _known = given(self.scope.add_type(alloc, name))?;
                push_name(alloc, &mut self.types, name)
            }
            _ => Ok(()),
        }
    }

    // A refused command would have stored a theorem of a name; there may be one already.
    fn miss_theorem(&mut self, alloc: Global, name: &str, place: &str) -> Result<(), NoMemory> {
        if is_among(&self.theorems, name) {
            push_lost(alloc, &mut self.kept_theorems, name, place)?;
        }
        push_lost(alloc, &mut self.lost_theorems, name, place)
    }

    /// The place of the first refused command that would have stored another theorem under the name of a stored one.
    pub fn place_kept(&self, name: &str) -> Option<&str> {
        place_lost(&self.kept_theorems, name)
    }

    /// No more is said of the refused commands that would have stored another theorem under a name.
    pub fn forget_kept(&mut self, name: &str) {
        self.kept_theorems
            .retain(|line| front(line.as_str()).0 != name);
    }

    /// A refused command, which stands at a place, would have made its names known.
    pub fn miss(&mut self, alloc: Global, piece: &Piece<'_>, place: &str) -> Result<(), NoMemory> {
        let name = piece.text(1);
        match piece.text(0) {
            "thm" | "save" => self.miss_theorem(alloc, name, place),
            "var" | "newconst" | "newtype" => push_lost(alloc, &mut self.lost_names, name, place),
            "def" => {
                push_lost(alloc, &mut self.lost_names, name, place)?;
                let theorem = format!(in alloc; "{name}_def")?;
                self.miss_theorem(alloc, theorem.as_str(), place)
            }
            "goal" => self.proof.refuse(alloc, place),
            _ => Ok(()),
        }
    }

    /// Whether a name stands for a type.
    pub fn is_type(&self, name: &str) -> bool {
        is_type_variable(name.as_bytes()) || is_among(&self.types, name)
    }
}

/// Whether a name is one of a type variable.
pub(crate) fn is_type_variable(name: &[u8]) -> bool {
    match name.first() {
        Some(first) => first.is_ascii_uppercase(),
        None => false,
    }
}

/// The place of the first command that would have made a name, where it was refused.
pub(crate) fn place_lost<'a>(lost: &'a [String], name: &str) -> Option<&'a str> {
    for line in lost {
        let (known, place) = front(line.as_str());
        if known == name {
            return Some(place);
        }
    }
    None
}

// How far a name may be from another that is near to it.
fn reach(name: &str) -> usize {
    match name.len() {
        0..3 => 0,
        3..10 => 1,
        length => length / 5,
    }
}

/// The first of the names that differ in case alone from a name, if that is longer than a letter, or of those that are nearest to it,
/// where one is near. A message is told where there was no memory to look for it.
pub(crate) fn nearest<'a>(
    alloc: Global,
    first: &'a [String],
    second: &'a [String],
    name: &str,
    message: &mut Message,
) -> Option<&'a str> {
    if name.len() > NAME_LENGTH {
        return None;
    }
    let mut found = None;
    let mut least = reach(name).saturating_add(1);
    for known in first.iter().chain(second) {
        let candidate = known.as_str();
        if name.len() > 1 && name.eq_ignore_ascii_case(candidate) {
            return Some(candidate);
        }
        if candidate.len() <= NAME_LENGTH {
            let distance = message.made(osa_distance(alloc, name, candidate))?;
            if distance < least {
                found = Some(candidate);
                least = distance;
            }
        }
    }
    found
}
