//! A variable of a run, with what it holds.

ghost use Rattle.std.specs.Prelude.{◌≡◌, ℕ, ◌<◌, Some, slice_get};
ghost use Rattle.c_semantics.specs.Meaning.Expressions.{cell_type, dims_of, elements_of, or_unset};
ghost use Rattle.c_semantics.specs.Meaning.SimpleStatements.{changed, old_value};
ghost use Rattle.c_meaning.specs.Variables.{cell_of, number_of, IsCell, FitFrom};
ghost use Rattle.resolved_names.specs.Numbered.{number_name};

use c_tree::arithmetic::Trap;
use c_tree::tree::Ty;
use std::marker::Model;

/// What a variable holds: a number or nothing yet, or an array's dimensions with its elements, row by row.
#[derive(Debug, Drop)]
pub enum Cell {
    Scalar {
        ty: Ty,
        value: Option<i64>,
    },
    Array {
        ty: Ty,
        dims: Vec<u64>,
        elements: Vec<i64>,
    },
}

/// A variable, which contracts see as that of a state.
#[derive(Debug, Drop)]
pub struct Variable {
    name: usize,
    cell: Cell,
}

impl Model for Variable {
    ghost use Rattle.c_semantics.specs.Meaning.State.{Var};
    ghost use Rattle.resolved_names.specs.Numbered.{number_name};
    ghost use Rattle.c_meaning.specs.Variables.{cell_of, IsCell};

    ghost Value = { Var };

    ghost view = { λ v. record { name = number_name v.name; cell = cell_of v.cell } };

    ghost invariant = { λ v. IsCell v.cell };
}

impl Variable {
    /// A variable with the number of its name.
    pub fn new(name: usize, cell: Cell) -> Variable
        requires { IsCell cell }
        ensures { result ≡ record { name = number_name name; cell = cell_of cell } }
    {
        Variable { name, cell }
    }

    /// The number of its name.
    pub fn name(&self) -> usize
        ensures { number_name result ≡ self.now.name }
    {
        self.name
    }

    /// The type of its number or of its elements.
    pub fn ty(&self) -> Ty
        ensures { result ≡ cell_type self.now.cell }
    {
        match &self.cell {
            Cell::Scalar { ty, .. } | Cell::Array { ty, .. } => *ty,
        }
    }

    /// The number that a read of the name without subscripts gives; an array has none.
    pub fn number(&self) -> Option<i64>
        ensures { result ≡ number_of self.now.cell }
    {
        match &self.cell {
            Cell::Scalar { value, .. } => *value,
            Cell::Array { .. } => None,
        }
    }

    /// The dimensions, of which a scalar has none. Each product of the first of them is below 2^63.
    pub fn dims(&self) -> &[u64]
        ensures dims { result.now ≡ dims_of (Some self.now.cell) }
        ensures fit { FitFrom 1 result.now }
    {
        match &self.cell {
            Cell::Scalar { .. } => &[],
            Cell::Array { dims, .. } => dims.as_slice(),
        }
    }

    /// The element at a place; a scalar has none.
    pub fn element(&self, at: u64) -> Option<i64>
        ensures { result ≡ slice_get (elements_of (Some self.now.cell)) at }
    {
        match &self.cell {
            Cell::Scalar { .. } => None,
            Cell::Array { elements, .. } => elements.get(at as usize).copied(),
        }
    }

    /// The number that `op=` reads: a scalar's, or an array's element at a place.
    pub fn old_number(&self, at: u64) -> Option<i64>
        ensures { or_unset result ≡ old_value (Some self.now.cell) at }
    {
        match &self.cell {
            Cell::Scalar { value, .. } => *value,
            Cell::Array { elements, .. } => elements.get(at as usize).copied(),
        }
    }

    /// Stores a number: a scalar's, or an array's element at a place, where it has that place.
    pub fn set(&mut self, at: u64, number: i64)
        ensures { self.new ≡ record self.old { cell = changed (Some self.old.cell) at number } }
    {
        match &mut self.cell {
            Cell::Scalar { value, .. } => *value = Some(number),
            Cell::Array { elements, .. } => {
                if let Some(element) = elements.get_mut(at as usize) {
                    *element = number;
                }
            }
        }
    }
}
