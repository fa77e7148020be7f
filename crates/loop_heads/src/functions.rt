//! What the functions of a program read and assign.

ghost use Rattle.std.specs.Prelude.{◌≡◌, ◌∷◌, [], OnOk, Option, Some, None};
ghost use Rattle.std.specs.Option.{option_copied};
ghost use Rattle.c_semantics.specs.Meaning.FileVariables as files;
ghost use Rattle.loop_heads.specs.Touching.{AreSame, Gains, or_no_access};

use crate::names::Names;
use c_tree::name::Name;
use indexmap::IndexMap;
use std::alloc::{AllocError, Global};
use std::marker::Model;

/// The file-scope variables that statements may read and may assign.
#[derive(Drop)]
pub struct Touched {
    pub reads: Names,
    pub assigns: Names,
}

impl Model for Touched {
    ghost use Rattle.c_semantics.specs.Meaning.FileVariables.{Access};

    ghost Value = { Access };

    ghost view = { λ touched. record { reads = touched.reads; assigns = touched.assigns } };
}

impl Touched {
    /// Nothing is read or assigned.
    pub fn new(alloc: Global) -> Touched
        ensures { result ≡ files.no_access }
    {
        Touched {
            reads: Names::new(alloc),
            assigns: Names::new(alloc),
        }
    }

    /// Puts in all that is touched elsewhere.
    pub fn add_all(&mut self, others: &Touched) -> Result<(), AllocError>
        ensures { OnOk result (Gains self.old others.now self.new) }
    {
        self.reads.add_all(&others.reads)?;
        self.assigns.add_all(&others.assigns)
    }
}

/// What each function may read and may assign, by its name.
#[derive(Drop)]
pub struct Functions {
    alloc: Global,
    table: IndexMap<Name, Touched>,
}

impl Model for Functions {
    ghost use Rattle.std.specs.Prelude.{List};
    ghost use Rattle.c_semantics.specs.Meaning.FileVariables.{FunctionAccess};

    ghost Value = { List FunctionAccess };

    ghost use Rattle.loop_heads.specs.Touching.{functions_of};

    ghost view = { functions_of };
}

impl Functions {
    /// No function is known.
    pub fn new(alloc: Global) -> Functions
        ensures { result ≡ [] }
    {
        Functions {
            alloc,
            table: IndexMap::new(alloc),
        }
    }

    /// Makes known what a function reads and assigns, in place of what was known of one of that name.
    pub fn add(&mut self, function: &Name, touched: Touched) -> Result<(), AllocError>
        ensures { OnOk result (AreSame (record { name = function.now; access = touched } ∷ self.old) self.new) }
    {
        let key = function.copy(self.alloc)?;
        self.table.insert(key, touched)?;
        Ok(())
    }

    /// What a function reads and assigns, and `None` only of one that isn't known.
    #[tactic(auto, using(crate::proofs::Known::known))]
    pub fn touched(&self, function: &Name) -> Option<&Touched>
        ensures { or_no_access (option_copied result) ≡ files.access_of self.now function.now }
    {
        self.table.get(function)
    }

    /// Whether a call of a function may assign a file-scope variable.
    pub fn may_assign(&self, function: &Name, variable: &Name) -> bool
        ensures { result ≡ files.has_name (files.access_of self.now function.now).assigns variable.now }
    {
        match self.touched(function) {
            None => false,
            Some(touched) => touched.assigns.has(variable),
        }
    }

    /// Whether a call of a function may read a file-scope variable.
    pub fn may_read(&self, function: &Name, variable: &Name) -> bool
        ensures { result ≡ files.has_name (files.access_of self.now function.now).reads variable.now }
    {
        match self.touched(function) {
            None => false,
            Some(touched) => touched.reads.has(variable),
        }
    }
}
