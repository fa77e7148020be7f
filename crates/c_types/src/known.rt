//! What is known at a place of a program: the declarations that are visible there, the names that were declared before
//! it, and how many elements the arrays before it have.

ghost use Rattle.std.specs.Prelude.{◌≡◌, ◌≤◌, ◌<◌, ◌+◌, OnOk, length, reverse, if◌then◌else◌};
ghost use Rattle.c_tree.specs.NameRules.Scopes as scopes;
ghost use Rattle.c_tree.specs.NameRules.Programs as programs;
ghost use Rattle.c_tree.specs.NameRules.DeclaredNames as names;
ghost use Rattle.c_types.specs.Visible.{scope_left};

use crate::declarations::Declarations;
use c_tree::constant::{Defines, TypedValue};
use c_tree::name::Name;
use c_tree::name_rule::Entity;
use c_tree::tree::Port;
use std::alloc::{AllocError, Global};
use std::marker::Model;

/// What is known at a place.
#[derive(Drop)]
pub struct Table {
    /// The visible declarations, and each name that was declared or defined in any scope.
    declared: Declarations,
    /// Where the declarations of the present scope begin.
    start: usize,
    print_known: bool,
    input_known: bool,
    /// The elements of all arrays, where one more than the limit stands for any greater number.
    elements: u64,
}

impl Model for Table {
    ghost use Rattle.c_tree.specs.NameRules.Programs.{Known};

    ghost Value = { Known };

    ghost use Rattle.c_types.specs.Visible.{known_of, IsTable};

    ghost view = { known_of };

    ghost invariant = { IsTable };
}

impl Table {
    /// Nothing is known.
    pub fn new(alloc: Global) -> Table
        ensures { result ≡ programs.nothing_known }
    {
        Table {
            declared: Declarations::new(alloc),
            start: 0,
            print_known: false,
            input_known: false,
            elements: 0,
        }
    }

    /// What a name means, and `None` exactly where nothing makes it visible.
    #[tactic(auto, using(crate::proofs::Tables::tables))]
    pub fn meaning(&self, name: &Name) -> Option<Entity>
        ensures { result ≡ scopes.meaning self.now.scope name.now }
    {
        self.declared.meaning(name)
    }

    /// Whether a name is declared in this scope already or is a define.
    pub fn is_taken(&self, name: &Name) -> bool
        ensures { result ≡ scopes.is_taken self.now.scope name.now }
    {
        self.declared.is_since(name, self.start)
            || matches!(self.meaning(name), Some(Entity::Define(_)))
    }

    /// Whether a name was declared or defined before, in any scope.
    pub fn is_among(&self, name: &Name) -> bool
        ensures { result ≡ names.is_among name.now self.now.names }
    {
        self.declared.is_among(name)
    }

    pub fn print_known(&self) -> bool
        ensures { result ≡ self.now.scope.print_known }
    {
        self.print_known
    }

    pub fn input_known(&self) -> bool
        ensures { result ≡ self.now.scope.input_known }
    {
        self.input_known
    }

    /// The elements of all arrays so far, where one more than the limit stands for any greater number.
    pub fn elements(&self) -> u64
        ensures elements { result ≡ self.now.elements }
        ensures most { result ≤ programs.most_elements + 1 }
    {
        self.elements
    }

    pub fn set_elements(&mut self, elements: u64)
        requires { elements ≤ programs.most_elements + 1 }
        ensures { self.new ≡ record self.old { elements = elements } }
    {
        self.elements = elements;
    }

    /// Makes `print` or `input` known.
    pub fn make_known(&mut self, port: Port)
        ensures { self.new ≡ record self.old { scope = programs.with_port port self.old.scope } }
    {
        match port {
            Port::Print => self.print_known = true,
            Port::Input => self.input_known = true,
        }
    }

    fn note(&mut self, name: &Name) -> Result<(), AllocError>
        ensures { OnOk result (self.new ≡ record self.old { names = names.with_name name.now self.old.names }) }
    {
        self.declared.note(name)
    }

    /// Makes a name visible in this scope.
    #[tactic(auto, using(crate::proofs::Tables::tables))]
    pub fn add(&mut self, name: &Name, entity: Entity) -> Result<(), AllocError>
        ensures { OnOk result (self.new ≡ record self.old {
          scope = scopes.add name.now entity self.old.scope;
          names = names.with_name name.now self.old.names;
        }) }
    {
        self.declared.add(name, entity)
    }

    /// Declares a name in this scope, where nothing forbids it.
    pub fn declare(&mut self, name: &Name, entity: Entity) -> Result<(), AllocError>
        ensures { OnOk result (self.new ≡ record self.old {
          scope = scopes.declare name.now entity self.old.scope;
          names = names.with_name name.now self.old.names;
        }) }
    {
        if self.is_taken(name) {
            self.note(name)
        } else {
            self.add(name, entity)
        }
    }

    /// Defines a name, unless it was declared or defined before in any scope.
    #[tactic(auto, using(crate::proofs::Tables::tables))]
    pub fn define(&mut self, name: &Name, constant: TypedValue) -> Result<(), AllocError>
        ensures { OnOk result (self.new ≡ record self.old {
          scope = (if names.is_among name.now self.old.names then self.old.scope else scopes.add name.now (Entity.Define constant) self.old.scope);
          names = names.with_name name.now self.old.names;
        }) }
    {
        if self.is_among(name) {
            return Ok(());
        }
        self.add(name, Entity::Define(constant))
    }

    /// How many declarations stand round this scope.
    pub fn round(&self) -> usize
        ensures { result ≡ length self.now.scope.outside }
    {
        self.start
    }

    /// Enters a scope in this one.
    #[tactic(auto, using(crate::proofs::Tables::tables))]
    pub fn enter(&mut self)
        ensures { self.new ≡ record self.old { scope = scopes.inner self.old.scope } }
    {
        self.start = self.declared.len();
    }

    /// Leaves this scope for the one in which it was entered, round which so many declarations stand.
    #[tactic(auto, using(crate::proofs::Tables::tables))]
    pub fn leave(&mut self, round: usize)
        requires { round ≤ length self.old.scope.outside }
        ensures { self.new ≡ record self.old { scope = scope_left round self.old.scope } }
    {
        self.declared.truncate(self.start);
        self.start = round;
    }
}

impl Defines for Table {
    ghost use Rattle.c_tree.specs.NameRules.Scopes.{constant_named};

    ghost constants = { λ known. constant_named known.scope };

    ghost are_held = { λ known. Unit {0} };

    fn constant_named(&self, name: &Name) -> Option<TypedValue> {
        match self.meaning(name) {
            Some(Entity::Define(constant)) => Some(constant),
            _ => None,
        }
    }
}
