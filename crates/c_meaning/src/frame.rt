//! The variables of the running function.

ghost use Rattle.std.specs.Prelude.{◌≡◌, ◌∷◌, ◌<◌, [], OnOk, drop, length, is_some};
ghost use Rattle.std.specs.Option.{option_copied};
ghost use Rattle.c_semantics.specs.Meaning.State.{find, write, keep};
ghost use Rattle.c_semantics.specs.Meaning.SimpleStatements.{changed};
ghost use Rattle.resolved_names.specs.Numbered.{number_name};
ghost use Rattle.c_meaning.specs.Variables.{cell_of, cell_in, IsCell};

use crate::place_table::PlaceTable;
use crate::variable::{Cell, Variable};
use std::alloc::{AllocError, Global};
use std::marker::Model;

/// A variable with the place of the one that it hides.
#[derive(Debug, Drop)]
struct Binding {
    variable: Variable,
    hidden: Option<usize>,
}

/// The variables of a function, each of which is found by its number in one step. Contracts see them, the innermost first.
#[derive(Debug, Drop)]
pub struct Frame {
    /// The innermost stands last.
    bindings: Vec<Binding>,
    /// The place of the innermost variable of each number.
    innermost: PlaceTable,
}

impl Model for Frame {
    ghost use Rattle.std.specs.Prelude.{List, reverse};
    ghost use Rattle.c_semantics.specs.Meaning.State.{Var};
    ghost use Rattle.c_meaning.specs.Frames.{variables, places, IsFrame};

    ghost Value = { List Var };

    ghost view = { λ f. reverse (variables f.bindings.items) };

    ghost invariant = { λ f. IsFrame (reverse (variables f.bindings.items)) (reverse (places f.bindings.items)) f.innermost };
}

impl Frame {
    /// A frame without variables, which takes no memory.
    pub fn new(alloc: Global) -> Frame
        ensures { result ≡ [] }
    {
        Frame {
            bindings: Vec::new(alloc),
            innermost: PlaceTable::new(alloc),
        }
    }

    /// How many variables there are.
    pub fn len(&self) -> usize
        ensures { result ≡ length self.now }
    {
        self.bindings.len()
    }

    /// The innermost variable of a name.
    pub fn look(&self, name: usize) -> Option<&Variable>
        ensures { cell_in (option_copied result) ≡ find (number_name name) self.now }
    {
        match self.innermost.get(name) {
            Some(place) => Some(&self.bindings[place].variable),
            None => None,
        }
    }

    /// Stores a number in the innermost variable of a name, where it has that place. Whether there is such a variable.
    pub fn set(&mut self, name: usize, at: u64, number: i64) -> bool
        ensures found { result ≡ is_some (find (number_name name) self.old) }
        ensures changed { self.new ≡ write (number_name name) (changed (find (number_name name) self.old) at number) self.old }
    {
        match self.innermost.get(name) {
            Some(place) => {
                self.bindings[place].variable.set(at, number);
                true
            }
            None => false,
        }
    }

    /// A new innermost variable. The only error is want of memory.
    pub fn push(&mut self, name: usize, cell: Cell) -> Result<(), AllocError>
        requires { IsCell cell }
        ensures { OnOk result (self.new ≡ record { name = number_name name; cell = cell_of cell } ∷ self.old) }
    {
        self.innermost.make_room(name)?;
        let place = self.bindings.len();
        let hidden = self.innermost.get(name);
        self.bindings.push(Binding {
            variable: Variable::new(name, cell),
            hidden,
        })?;
        self.innermost.put(name, Some(place));
        Ok(())
    }

    /// Drops the innermost variable, and the one that it hid is seen again.
    fn drop_innermost(&mut self)
        ensures { self.new ≡ drop 1 self.old }
    {
        if let Some(binding) = self.bindings.pop() {
            self.innermost.put(binding.variable.name(), binding.hidden);
        }
    }

    /// Drops the innermost variables, down to so many.
    #[tactic(auto, using(crate::proofs::Frames::kept))]
    pub fn keep(&mut self, len: usize)
        ensures { self.new ≡ keep len self.old }
    {
        'each: while self.len() > len {
            self.drop_innermost();
        }
    }
}
