//! The variables of the file.

ghost use Rattle.std.specs.Prelude.{◌≡◌, ◌++◌, ◌∷◌, [], OnOk};
ghost use Rattle.std.specs.Option.{option_copied};
ghost use Rattle.c_semantics.specs.Meaning.State.{find, write};
ghost use Rattle.c_semantics.specs.Meaning.SimpleStatements.{changed};
ghost use Rattle.resolved_names.specs.Numbered.{number_name};
ghost use Rattle.c_meaning.specs.Variables.{cell_of, cell_in, IsCell};

use crate::place_table::PlaceTable;
use crate::variable::{Cell, Variable};
use std::alloc::{AllocError, Global};
use std::marker::Model;

/// The variables of the file, each of which is found by its number in one step. Contracts see them in their order.
#[derive(Debug, Drop)]
pub struct FileVariables {
    variables: Vec<Variable>,
    /// The place of the first variable of each number.
    first: PlaceTable,
}

impl Model for FileVariables {
    ghost use Rattle.std.specs.Prelude.{List};
    ghost use Rattle.c_semantics.specs.Meaning.State.{Var};
    ghost use Rattle.c_meaning.specs.FileVariables.{TellsFirst};

    ghost Value = { List Var };

    ghost view = { λ f. f.variables.items };

    ghost invariant = { λ f. TellsFirst f.first f.variables.items };
}

impl FileVariables {
    /// No variables, which take no memory.
    pub fn new(alloc: Global) -> FileVariables
        ensures { result ≡ [] }
    {
        FileVariables {
            variables: Vec::new(alloc),
            first: PlaceTable::new(alloc),
        }
    }

    /// The first variable of a name.
    pub fn look(&self, name: usize) -> Option<&Variable>
        ensures { cell_in (option_copied result) ≡ find (number_name name) self.now }
    {
        match self.first.get(name) {
            Some(place) => Some(&self.variables[place]),
            None => None,
        }
    }

    /// Stores a number in the first variable of a name, where there is one and it has that place.
    pub fn set(&mut self, name: usize, at: u64, number: i64)
        ensures { self.new ≡ write (number_name name) (changed (find (number_name name) self.old) at number) self.old }
    {
        match self.first.get(name) {
            Some(place) => self.variables[place].set(at, number),
            None => {}
        }
    }

    /// A new variable behind the others. The only error is want of memory.
    pub fn push(&mut self, name: usize, cell: Cell) -> Result<(), AllocError>
        requires { IsCell cell }
        ensures { OnOk result (self.new ≡ self.old ++ record { name = number_name name; cell = cell_of cell } ∷ []) }
    {
        self.first.make_room(name)?;
        let place = self.variables.len();
        self.variables.push(Variable::new(name, cell))?;
        match self.first.get(name) {
            Some(_) => {}
            None => self.first.put(name, Some(place)),
        }
        Ok(())
    }
}
