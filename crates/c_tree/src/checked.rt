//! Programs that were checked: what reads, translates and runs a program counts on.

ghost use Rattle.std.specs.Prelude.{◌≡◌};
ghost use Rattle.c_tree.specs.Checked.{IsChecked};

use crate::tree::Program;
use std::marker::Model;

/// A program that is well formed, breaks no name rule and has height at most 256. Contracts see the program in full,
/// its places included.
#[derive(Debug, Drop)]
pub struct Checked {
    program: Program,
}

impl Model for Checked {
    ghost use Rattle.c_tree.specs.declared.tree.Program.{Program};
    ghost use Rattle.c_tree.specs.contracts.tree.Program as contract;

    ghost Value = { Program };

    ghost coded = { contract.the_row.coded };

    ghost use Rattle.c_tree.specs.Checked.{IsChecked};

    ghost view = { λ checked. checked.program };

    ghost invariant = { λ checked. IsChecked checked.program };
}

impl Checked {
    /// The program as a checked one. It takes no memory.
    pub fn new(program: Program) -> Checked
        requires { IsChecked program }
        ensures { result ≡ program }
    {
        Checked { program }
    }

    /// The program, which is as a checked one is. It takes no memory.
    pub fn program(&self) -> &Program
        ensures program { result.now ≡ self.now }
        ensures checked { IsChecked result.now }
    {
        &self.program
    }

    /// The program, which is as a checked one is. It takes no memory.
    pub fn into_program(self) -> Program
        ensures program { result ≡ self }
        ensures checked { IsChecked result }
    {
        let Checked { program } = self;
        program
    }
}
