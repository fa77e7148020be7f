//! Defines in their order, of which the latest of a name counts, each found in one look-up.

ghost use Rattle.std.specs.Prelude.{◌≡◌, [], ◌∷◌, OnOk};
ghost use Rattle.loop_counts.specs.ConstantNames.{constant_named};

use c_tree::constant::TypedValue;
use c_tree::name::Name;
use indexmap::IndexMap;
use std::alloc::{AllocError, Global};
use std::marker::Model;

/// A define.
#[derive(Drop)]
pub struct Constant {
    name: Name,
    value: TypedValue,
}

/// The defines, the latest last. Contracts see the latest first.
#[derive(Drop)]
pub struct Defines {
    alloc: Global,
    defines: Vec<Constant>,
    /// What each name's latest define stands for.
    values: IndexMap<Name, TypedValue>,
}

impl Model for Defines {
    ghost use Rattle.std.specs.Prelude.{List};
    ghost use Rattle.c_semantics.specs.Meaning.Expressions.{Define};
    ghost use Rattle.loop_counts.specs.Defines.{defines_of, IsValued};

    ghost Value = { List Define };

    ghost view = { defines_of };

    ghost invariant = { IsValued };
}

impl Defines {
    pub fn new(alloc: Global) -> Defines
        ensures { result ≡ [] }
    {
        Defines {
            alloc,
            defines: Vec::new(alloc),
            values: IndexMap::new(alloc),
        }
    }

    /// What the latest define of a name stands for.
    pub fn value_of(&self, name: &Name) -> Option<TypedValue>
        ensures { result ≡ constant_named self.now name.now }
    {
        self.values.get(name).copied()
    }

    /// One define more.
    pub fn push(&mut self, name: &Name, value: TypedValue) -> Result<(), AllocError>
        ensures { OnOk result (self.new ≡ record { name = name.now; ty = value.ty; value = value.value } ∷ self.old) }
    {
        let key = name.copy(self.alloc)?;
        let name = name.copy(self.alloc)?;
        self.defines.push(Constant { name, value })?;
        match self.values.insert(key, value) {
            Ok(_) => Ok(()),
            Err(_) => {
                self.defines.pop();
                Err(AllocError)
            }
        }
    }
}
