//! Programs whose directives can be carried out.

ghost use Rattle.std.specs.Prelude.{◌≡◌};
ghost use Rattle.canonical_nests.specs.Admitted.{BreaksNone, IsAdmitted};

use c_tree::checked::Checked;
use std::marker::Model;

/// A checked program that breaks none of the loop rules L1 to L28. Contracts see the program in full, its places
/// included.
#[derive(Debug, Drop)]
pub struct Admitted {
    checked: Checked,
}

impl Model for Admitted {
    ghost use Rattle.c_tree.specs.declared.tree.Program.{Program};
    ghost use Rattle.c_tree.specs.contracts.tree.Program as contract;
    ghost use Rattle.canonical_nests.specs.Admitted.{BreaksNone};

    ghost Value = { Program };

    ghost coded = { contract.the_row.coded };

    ghost view = { λ admitted. admitted.checked };

    ghost invariant = { λ admitted. BreaksNone admitted.checked };
}

impl Admitted {
    /// The program as an admitted one. It takes no memory.
    pub fn new(checked: Checked) -> Admitted
        requires { BreaksNone checked }
        ensures { result ≡ checked }
    {
        Admitted { checked }
    }

    /// The program as a checked one. It takes no memory.
    pub fn checked(&self) -> &Checked
        ensures program { result.now ≡ self.now }
        ensures admitted { BreaksNone result.now }
    {
        &self.checked
    }

    /// The program as a checked one. It takes no memory.
    pub fn into_checked(self) -> Checked
        ensures program { result ≡ self }
        ensures admitted { BreaksNone result }
    {
        let Admitted { checked } = self;
        checked
    }
}
