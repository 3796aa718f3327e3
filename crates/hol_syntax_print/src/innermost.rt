// The types of the innermost binders, by name.
ghost use Rattle.std.specs.Prelude.{◌≡◌, [], ◌∷◌, Some, IfOk, OnOk};
ghost use Rattle.std.specs.Option.{option_map};
ghost use Rattle.hol_model.specs.Terms.HolType.{HolType};
ghost use Rattle.hol_model.specs.Texts.Reading.{Bindings, bound_type};
ghost use Rattle.hol_syntax_print.specs.Innermost.{SetsBound, IsInnermost, bound};

use hol_types::Ty;
use std::alloc::{AllocError, Global};
use std::collections::HashMap;

/// The type of the innermost open binder of each name.
#[derive(Drop)]
pub struct Innermost<'a> {
    types: HashMap<&'a str, &'a Ty>,
}

impl<'a> Innermost<'a> {
    /// No binder is open.
    pub fn new(alloc: Global) -> Innermost<'a>
        ensures { IsInnermost result [] }
    {
        Innermost {
            types: HashMap::new(alloc),
        }
    }

    /// The type of the innermost binder of this name.
    #[inline(always)]
    pub fn find(&self, name: &str) -> Option<&'a Ty>
        ensures { (bindings : Bindings) → IsInnermost self.now bindings
            → option_map (λ ty. ty.now) result ≡ bound_type bindings name.now }
    {
        if self.types.is_empty() {
            return None;
        }
        self.look_up(name)
    }

    // The type that a name stands for.
    #[inline(never)]
    fn look_up(&self, name: &str) -> Option<&'a Ty>
        ensures { result ≡ bound self.now name.now }
    {
        self.types.get(name).copied()
    }

    // Sets the type that a name stands for, and hands out the one that it stood for.
    fn set(&mut self, name: &'a str, ty: &'a Ty) -> Result<Option<&'a Ty>, AllocError>
        ensures old { IfOk result (λ hidden. hidden ≡ bound self.old name.now) }
        ensures new { OnOk result (SetsBound (bound self.old) (bound self.new) name.now (Some ty.entry)) }
    {
        let hidden = self.types.insert(name, ty)?;
        Ok(hidden)
    }

    // Gives a name back the type that it stood for, if it stood for one.
    fn reset(&mut self, name: &'a str, hidden: Option<&'a Ty>) -> Result<(), AllocError>
        ensures new { OnOk result (SetsBound (bound self.old) (bound self.new) name.now hidden.entry) }
    {
        match hidden {
            Some(ty) => {
                self.set(name, ty)?;
            }
            None => {
                self.types.remove(name);
            }
        }
        Ok(())
    }

    /// Opens a binder, and hands out the type that its name stood for.
    pub fn enter(&mut self, name: &'a str, ty: &'a Ty) -> Result<Option<&'a Ty>, AllocError>
        ensures hidden { (bindings : Bindings) → IsInnermost self.old bindings → IfOk result (λ hidden. option_map (λ ty. ty.now) hidden ≡ bound_type bindings name.now) }
        ensures opened { (bindings : Bindings) → IsInnermost self.old bindings → OnOk result (IsInnermost self.new ((name.now, ty.now) ∷ bindings)) }
    {
        self.set(name, ty)
    }

    /// Closes the innermost binder, which has this name, and gives the name back the type that it stood for.
    pub fn leave(&mut self, name: &'a str, hidden: Option<&'a Ty>) -> Result<(), AllocError>
        ensures closed { (ty : HolType) (bindings : Bindings) → IsInnermost self.old ((name.now, ty) ∷ bindings) → option_map (λ ty. ty.now) hidden.entry ≡ bound_type bindings name.now
            → OnOk result (IsInnermost self.new bindings) }
    {
        self.reset(name, hidden)
    }
}
