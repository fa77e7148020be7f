//! Sets of names.

ghost use Rattle.std.specs.Prelude.{◌≡◌, [], ◌∷◌, OnOk};
ghost use Rattle.c_semantics.specs.Meaning.FileVariables.{has_name};
ghost use Rattle.loop_heads.specs.Touching.{Grows};

use c_tree::name::Name;
use indexmap::IndexSet;
use std::alloc::{AllocError, Global};
use std::marker::Model;

/// A set of names, which contracts see as a list.
#[derive(Drop)]
pub struct Names {
    alloc: Global,
    names: IndexSet<Name>,
}

impl Model for Names {
    ghost use Rattle.std.specs.Prelude.{List};
    ghost use Rattle.c_tree.specs.Bare.{Name};

    ghost Value = { List Name };

    ghost view = { λ set. set.names.keys };
}

impl Names {
    /// The empty set, which takes no memory yet.
    pub fn new(alloc: Global) -> Names
        ensures { result ≡ [] }
    {
        Names {
            alloc,
            names: IndexSet::new(alloc),
        }
    }

    #[tactic(auto, using(crate::proofs::NameSets::name_sets))]
    pub fn has(&self, name: &Name) -> bool
        ensures { result ≡ has_name self.now name.now }
    {
        self.names.contains(name)
    }

    /// Puts a copy of a name in.
    #[tactic(auto, using(crate::proofs::NameSets::name_sets))]
    pub fn add(&mut self, name: &Name) -> Result<(), AllocError>
        ensures { OnOk result (Grows self.old (name.now ∷ []) self.new) }
    {
        if self.has(name) {
            return Ok(());
        }
        let key = name.copy(self.alloc)?;
        self.names.insert(key)?;
        Ok(())
    }

    /// Puts copies of all names of another set in.
    #[tactic(auto, using(crate::proofs::NameSets::unions))]
    pub fn add_all(&mut self, others: &Names) -> Result<(), AllocError>
        ensures { OnOk result (Grows self.old others.now self.new) }
    {
        'each: for name in others.names.as_slice() {
            self.add(name)?;
        }
        Ok(())
    }
}
