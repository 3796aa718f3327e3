// The variables of the open binders, by name and by place.
ghost use Rattle.std.specs.Prelude.{◌≡◌, ℕ, List, [], ◌∷◌, Some, IfOk, IfErr, OnOk, reverse};
ghost use Rattle.std.specs.Option.{option_map};
ghost use Rattle.std.specs.HashMap as map;
ghost use Rattle.hol_model.specs.declared.fault.Fault.TheVariants.{Memory};
ghost use Rattle.hol_model.specs.Terms.HolType.{HolType};
ghost use Rattle.hol_model.specs.Terms.NamedTerm as named;
ghost use Rattle.hol_model.specs.Texts.Reading.{Bindings, bound_type};
ghost use Rattle.hol_syntax.specs.OpenBinders.{SetsName, IsOpened, Enters, Leaves};
ghost use Rattle.hol_syntax.specs.TypeStack.{IsPopped};

use hol_model::Fault;
use hol_terms::Term;
use std::alloc::Global;
use std::collections::HashMap;

// An open binder's variable, and the variable of its name that it hides.
#[derive(Drop)]
struct Opened {
    variable: Term,
    hidden: Option<Term>,
}

/// The variables of the open binders: found by name, and left the innermost first.
#[derive(Drop)]
pub struct Binders {
    opened: Vec<Opened>,
    innermost: HashMap<String, Term>,
}

// Sets the variable that a name stands for, and hands out the one that it stood for.
fn set_name(
    alloc: Global,
    innermost: &mut HashMap<String, Term>,
    name: &str,
    variable: Term,
) -> Result<Option<Term>, Fault>
    ensures old { IfOk result (λ hidden. hidden ≡ map.get_by_text innermost.old name.now) }
    ensures new { OnOk result (SetsName (map.get_by_text innermost.old) (map.get_by_text innermost.new) name.now (Some variable)) }
    ensures err { IfErr result (λ fault. fault ≡ Memory) }
{
    let key = String::from_str(alloc, name)?;
    let hidden = innermost.insert(key, variable)?;
    Ok(hidden)
}

// Gives a name back the variable that it stood for, if it stood for one.
fn reset_name(
    alloc: Global,
    innermost: &mut HashMap<String, Term>,
    name: &str,
    hidden: Option<Term>,
) -> Result<(), Fault>
    ensures new { OnOk result (SetsName (map.get_by_text innermost.old) (map.get_by_text innermost.new) name.now hidden) }
    ensures err { IfErr result (λ fault. fault ≡ Memory) }
{
    match hidden {
        Some(variable) => {
            set_name(alloc, innermost, name, variable)?;
            Ok(())
        }
        None => {
            innermost.remove(name);
            Ok(())
        }
    }
}

fn push_opened(stack: &mut Vec<Opened>, opened: Opened) -> Result<(), Fault>
    ensures pushed { OnOk result (reverse stack.new.items ≡ opened ∷ reverse stack.old.items) }
    ensures err { IfErr result (λ fault. fault ≡ Memory) }
{
    stack.push(opened)?;
    Ok(())
}

fn pop_opened(stack: &mut Vec<Opened>) -> Option<Opened>
    ensures { IsPopped result (reverse stack.old.items) (reverse stack.new.items) }
{
    stack.pop()
}

impl Binders {
    /// No binder is open.
    pub fn new(alloc: Global) -> Binders
        ensures { IsOpened result [] }
    {
        Binders {
            opened: Vec::new(alloc),
            innermost: HashMap::new(alloc),
        }
    }

    /// The variable of the innermost binder of this name.
    pub fn find(&self, name: &str) -> Option<&Term>
        ensures { (bindings : Bindings) → IsOpened self.now bindings
            → option_map (λ found. found.now) result ≡ option_map (named.variable name.now) (bound_type bindings name.now) }
    {
        self.innermost.get(name)
    }

    /// Opens the binder of a variable.
    pub fn enter(&mut self, alloc: Global, variable: Term) -> Result<(), Fault>
        ensures { (name : List ℕ) (ty : HolType) (bindings : Bindings) → variable ≡ named.variable name ty → IsOpened self.old bindings
            → Enters result self.new name ty bindings }
    {
        let Some((name, _)) = variable.dest_var() else {
            return Err(Fault::NotVariable);
        };
        let innermost = variable.copy(alloc)?;
        let hidden = set_name(alloc, &mut self.innermost, name, innermost)?;
        push_opened(&mut self.opened, Opened { variable, hidden })
    }

    /// Closes the innermost binder, if one is open.
    pub fn leave(&mut self, alloc: Global) -> Result<Option<Term>, Fault>
        ensures { (bindings : Bindings) → IsOpened self.old bindings → Leaves result self.new bindings }
    {
        let Some(Opened { variable, hidden }) = pop_opened(&mut self.opened) else {
            return Ok(None);
        };
        let Some((name, _)) = variable.dest_var() else {
            return Err(Fault::NotVariable);
        };
        reset_name(alloc, &mut self.innermost, name, hidden)?;
        Ok(Some(variable))
    }
}
