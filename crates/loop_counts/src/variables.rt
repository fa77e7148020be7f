//! Variables in the order of their declarations, of which the latest of a name counts, each found in one look-up.

ghost use Rattle.std.specs.Prelude.{◌≡◌, ◌<◌, ◌≤◌, [], ◌∷◌, None, OnOk, drop, length};
ghost use Rattle.std.specs.Option.{option_map};
ghost use Rattle.c_semantics.specs.Meaning.State.{scalar, find, keep};

use c_tree::name::Name;
use c_tree::tree::Ty;
use indexmap::IndexMap;
use std::alloc::{AllocError, Global};
use std::marker::Model;

/// A variable, with the type that its name has without it.
#[derive(Drop)]
pub struct Variable {
    name: Name,
    ty: Ty,
    hides: Option<Ty>,
}

/// The variables, the latest last. Contracts see the latest first, none with a value.
#[derive(Drop)]
pub struct Variables {
    alloc: Global,
    declared: Vec<Variable>,
    /// The type of each name's latest variable, and `None` where none is left.
    types: IndexMap<Name, Option<Ty>>,
}

impl Model for Variables {
    ghost use Rattle.std.specs.Prelude.{List};
    ghost use Rattle.c_semantics.specs.Meaning.State.{Var};
    ghost use Rattle.loop_counts.specs.Variables.{variables_of, IsTyped};

    ghost Value = { List Var };

    ghost view = { variables_of };

    ghost invariant = { IsTyped };
}

impl Variables {
    pub fn new(alloc: Global) -> Variables
        ensures { result ≡ [] }
    {
        Variables {
            alloc,
            declared: Vec::new(alloc),
            types: IndexMap::new(alloc),
        }
    }

    #[tactic(auto, using(crate::proofs::TypedNames::lengths))]
    pub fn len(&self) -> usize
        ensures { result ≡ length self.now }
    {
        self.declared.len()
    }

    /// The type of the latest variable of a name.
    #[tactic(auto, using(crate::proofs::TypedNames::lookups))]
    pub fn type_of(&self, name: &Name) -> Option<Ty>
        ensures { option_map (λ t. scalar t None) result ≡ find name.now self.now }
    {
        match self.types.get(name) {
            Some(ty) => *ty,
            None => None,
        }
    }

    /// One variable more.
    #[tactic(auto, using(crate::proofs::TypedNames::lookups))]
    pub fn push(&mut self, name: &Name, ty: Ty) -> Result<(), AllocError>
        ensures { OnOk result (self.new ≡ record { name = name.now; cell = scalar ty None } ∷ self.old) }
    {
        let hides = self.type_of(name);
        let key = name.copy(self.alloc)?;
        let name = name.copy(self.alloc)?;
        self.declared.push(Variable { name, ty, hides })?;
        match self.types.insert(key, Some(ty)) {
            Ok(_) => Ok(()),
            Err(_) => {
                self.declared.pop();
                Err(AllocError)
            }
        }
    }

    /// Takes the latest variable back.
    fn take_back(&mut self)
        requires { 0 < length self.old }
        ensures { self.new ≡ drop 1 self.old }
    {
        if let Some(Variable { name, hides, .. }) = self.declared.pop() {
            let _ = self.types.insert(name, hides);
        }
    }

    /// Takes back all variables but the first ones, of which there are so many.
    #[tactic(auto, using(crate::proofs::TypedNames::kept))]
    pub fn truncate(&mut self, len: usize)
        ensures { self.new ≡ keep len self.old }
    {
        'each: while len < self.len() {
            self.take_back();
        }
    }
}
