//! The declarations that are visible at a place, each found by its name in one look-up, and the names that were declared
//! before it.

ghost use Rattle.std.specs.Prelude.{◌≡◌, ◌≤◌, ◌<◌, ◌-◌, ◌++◌, [], ◌∷◌, OnOk, OnErr, length, reverse, take, drop, is_some};
ghost use Rattle.c_tree.specs.NameRules.Scopes as scopes;
ghost use Rattle.c_tree.specs.NameRules.DeclaredNames as names;
ghost use Rattle.c_types.specs.Noted as noted;

use c_tree::name::Name;
use c_tree::name_rule::Entity;
use indexmap::IndexMap;
use std::alloc::{AllocError, Global};
use std::marker::Model;

/// What a name means, and the index of the declaration that says so.
#[derive(Clone, Copy)]
pub struct Visible {
    pub entity: Entity,
    pub index: usize,
}

/// A declaration, with what the name means without it.
#[derive(Drop)]
pub struct Declared {
    pub name: Name,
    pub entity: Entity,
    pub hides: Option<Visible>,
}

/// Declarations in their order, the latest last, and each name that was ever noted.
#[derive(Drop)]
pub struct Declarations {
    alloc: Global,
    declared: Vec<Declared>,
    /// What each name means, and `None` where no declaration of it is left.
    meanings: IndexMap<Name, Option<Visible>>,
}

impl Model for Declarations {
    ghost use Rattle.c_types.specs.Noted.{Noted};

    ghost Value = { Noted };

    ghost use Rattle.c_types.specs.Lookup.{noted_of, IsLookup};

    ghost view = { noted_of };

    ghost invariant = { IsLookup };
}

impl Declarations {
    /// No declaration and no name.
    pub fn new(alloc: Global) -> Declarations
        ensures { result ≡ noted.nothing }
    {
        Declarations {
            alloc,
            declared: Vec::new(alloc),
            meanings: IndexMap::new(alloc),
        }
    }

    /// How many declarations there are.
    pub fn len(&self) -> usize
        ensures { result ≡ length self.now.declarations }
    {
        self.declared.len()
    }

    #[tactic(auto, using(crate::proofs::Lookups::lookups))]
    fn visible(&self, name: &Name) -> Option<Visible>
        ensures { result ≡ noted.visible name.now (reverse self.now.declarations) }
    {
        match self.meanings.get(name) {
            Some(meaning) => *meaning,
            None => None,
        }
    }

    /// What the latest declaration of a name stands for.
    #[tactic(auto, using(crate::proofs::Lookups::lookups))]
    pub fn meaning(&self, name: &Name) -> Option<Entity>
        ensures { result ≡ scopes.find name.now (reverse self.now.declarations) }
    {
        match self.visible(name) {
            Some(visible) => Some(visible.entity),
            None => None,
        }
    }

    /// Whether a name is declared by one of the declarations from an index on.
    #[tactic(auto, using(crate::proofs::Lookups::lookups))]
    pub fn is_since(&self, name: &Name, start: usize) -> bool
        requires { start ≤ length self.now.declarations }
        ensures { result ≡ is_some (scopes.find name.now (reverse (drop start self.now.declarations))) }
    {
        match self.visible(name) {
            Some(visible) => start <= visible.index,
            None => false,
        }
    }

    /// Whether a name was noted.
    #[tactic(auto, using(crate::proofs::Lookups::lookups))]
    pub fn is_among(&self, name: &Name) -> bool
        ensures { result ≡ names.is_among name.now self.now.names }
    {
        self.meanings.contains_key(name)
    }

    /// Notes a name. Nothing changes where there is no memory.
    #[tactic(auto, using(crate::proofs::Lookups::lookups))]
    pub fn note(&mut self, name: &Name) -> Result<(), AllocError>
        ensures noted { OnOk result (self.new ≡ record self.old { names = names.with_name name.now self.old.names }) }
        ensures unchanged { OnErr result (self.new ≡ self.old) }
    {
        if !self.is_among(name) {
            let key = name.copy(self.alloc)?;
            self.meanings.insert(key, None)?;
        }
        Ok(())
    }

    /// Declares a name, and notes it. Nothing changes where there is no memory.
    #[tactic(auto, using(crate::proofs::Lookups::lookups))]
    pub fn add(&mut self, name: &Name, entity: Entity) -> Result<(), AllocError>
        ensures declared { OnOk result (self.new ≡ noted.with_declaration name.now entity self.old) }
        ensures unchanged { OnErr result (self.new ≡ self.old) }
    {
        let hides = self.visible(name);
        let index = self.len();
        let key = name.copy(self.alloc)?;
        let name = name.copy(self.alloc)?;
        self.declared.push(Declared {
            name,
            entity,
            hides,
        })?;
        match self.meanings.insert(key, Some(Visible { entity, index })) {
            Ok(_) => Ok(()),
            Err(_) => {
                self.declared.pop();
                Err(AllocError)
            }
        }
    }

    /// Takes the latest declaration back.
    #[tactic(auto, using(crate::proofs::Lookups::lookups))]
    fn take_back(&mut self)
        requires { 0 < length self.old.declarations }
        ensures { self.new ≡ record self.old { declarations = take (length self.old.declarations - 1) self.old.declarations } }
    {
        if let Some(Declared { name, hides, .. }) = self.declared.pop() {
            let _ = self.meanings.insert(name, hides);
        }
    }

    /// Takes back all declarations but the first ones, of which there are so many. The names stay noted.
    #[tactic(auto, using(crate::proofs::Lookups::lookups))]
    pub fn truncate(&mut self, len: usize)
        requires { len ≤ length self.old.declarations }
        ensures { self.new ≡ record self.old { declarations = take len self.old.declarations } }
    {
        'each: while len < self.len() {
            self.take_back();
        }
    }
}
