//! The variables and the defines that are visible at a place of a program, without values.

ghost use Rattle.std.specs.Prelude.{◌≡◌, ◌++◌, OnOk, None, map, length};
ghost use Rattle.std.specs.Option.{option_map};
ghost use Rattle.c_tree.specs.BareOf.{bare_param, bare_top};
ghost use Rattle.c_tree.specs.WellFormed.{WellFormedTop};
ghost use Rattle.c_semantics.specs.Meaning.State.{scalar, look, find, push, keep, with_frame};
ghost use Rattle.c_semantics.specs.Meaning.FileVariables as file;
ghost use Rattle.c_semantics.specs.Structure.Skeleton.{params_frame};
ghost use Rattle.canonical_nests.specs.Weight as weight;
ghost use Rattle.loop_counts.specs.ConstantNames.{constant_named};
ghost use Rattle.loop_counts.specs.Visible.{nothing_visible};

use crate::defines::Defines;
use crate::variables::Variables;
use c_tree::constant::{TypedValue, defined_as};
use c_tree::name::Name;
use c_tree::tree::{Item, Param, Ty};
use std::alloc::{AllocError, Global};
use std::marker::Model;

/// What is visible at a place: the defines and the file-scope variables before it, and the variables of the function,
/// each found by its name in one look-up. Contracts see the defines, the latest first, and a state whose variables have no
/// values.
#[derive(Drop)]
pub struct Scope {
    defines: Defines,
    globals: Variables,
    frame: Variables,
}

impl Model for Scope {
    ghost use Rattle.loop_counts.specs.Visible.{Visible, visible_of};

    ghost Value = { Visible };

    ghost view = { visible_of };
}

impl Scope {
    /// Nothing is visible.
    pub fn new(alloc: Global) -> Scope
        ensures { result ≡ nothing_visible }
    {
        Scope {
            defines: Defines::new(alloc),
            globals: Variables::new(alloc),
            frame: Variables::new(alloc),
        }
    }

    /// What a name is defined as.
    pub fn constant(&self, name: &Name) -> Option<TypedValue>
        ensures { result ≡ constant_named self.now.defines name.now }
    {
        self.defines.value_of(name)
    }

    /// The type of the function's variable of a name.
    pub fn local_type(&self, name: &Name) -> Option<Ty>
        ensures { option_map (λ t. scalar t None) result ≡ find name.now self.now.state.frame }
    {
        self.frame.type_of(name)
    }

    /// The type of the variable that a name means: the innermost of the function, else the file's.
    #[tactic(auto, using(crate::proofs::Lookups::seen))]
    pub fn variable_type(&self, name: &Name) -> Option<Ty>
        ensures { option_map (λ t. scalar t None) result ≡ look self.now.state name.now }
    {
        match self.frame.type_of(name) {
            Some(ty) => Some(ty),
            None => self.globals.type_of(name),
        }
    }

    /// How many variables the function has here.
    pub fn len(&self) -> usize
        ensures { result ≡ length self.now.state.frame }
    {
        self.frame.len()
    }

    /// A new innermost variable.
    pub fn declare(&mut self, name: &Name, ty: Ty) -> Result<(), AllocError>
        ensures { OnOk result (self.new ≡ record self.old { state = push name.now (scalar ty None) self.old.state }) }
    {
        self.frame.push(name, ty)?;
        Ok(())
    }

    /// Makes the parameters of a function visible, the first one innermost.
    #[tactic(auto, using(crate::proofs::Parameters::params))]
    pub fn declare_params(&mut self, params: &[Param]) -> Result<(), AllocError>
        ensures { OnOk result (self.new ≡ record self.old { state = with_frame (params_frame (map bare_param params.now) ++ self.old.state.frame) self.old.state }) }
    {
        let mut left = params.len();
        'each: while left > 0 {
            left -= 1;
            let param = &params[left];
            self.declare(&param.name, param.ty)?;
        }
        Ok(())
    }

    /// Drops the innermost variables, down to so many.
    pub fn keep(&mut self, len: usize)
        ensures { self.new ≡ record self.old { state = with_frame (keep len self.old.state.frame) self.old.state } }
    {
        self.frame.truncate(len);
    }

    /// What is visible after an item of the file.
    pub fn add_item(&mut self, item: &Item) -> Result<(), AllocError>
        requires { WellFormedTop (bare_top item.now) }
        ensures { OnOk result (self.new ≡ record {
          defines = file.defines_with self.old.defines (bare_top item.now);
          state = weight.scope_with self.old.state (bare_top item.now);
        }) }
    {
        match item {
            Item::Define {
                name,
                negative,
                value,
                ty,
                ..
            } => {
                self.defines.push(name, defined_as(*negative, *value, *ty))?;
            }
            Item::Global { ty, name, .. } => {
                self.globals.push(name, *ty)?;
            }
            Item::Extern { .. } | Item::Function { .. } | Item::Main { .. } => {}
        }
        Ok(())
    }
}
