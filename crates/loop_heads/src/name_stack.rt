//! Names in the order in which their scopes were entered.

ghost use Rattle.std.specs.Prelude.{◌≡◌, [], ◌∷◌, OnOk, length, map, reverse};
ghost use Rattle.c_semantics.specs.Meaning.FileVariables.{has_name};
ghost use Rattle.c_semantics.specs.Meaning.State.{keep};

use c_tree::name::Name;
use std::alloc::{AllocError, Global};
use std::marker::Model;

/// Names in the order in which they were entered, which contracts see with the latest first.
#[derive(Drop)]
pub struct NameStack<'p> {
    names: Vec<&'p Name>,
}

impl<'p> Model for NameStack<'p> {
    ghost use Rattle.std.specs.Prelude.{List};
    ghost use Rattle.c_tree.specs.Bare.{Name};
    ghost use Rattle.loop_heads.specs.Reading.{stacked};

    ghost Value = { List Name };

    ghost view = { stacked };
}

/// Whether a name is among others.
#[tactic(auto, using(crate::proofs::NameStacks::rounds))]
fn is_among(names: &[&Name], name: &Name) -> bool
    ensures { result ≡ has_name (map (λ n. n.now) (reverse names.now)) name.now }
{
    let mut left = names.len();
    'each: while left > 0 {
        left -= 1;
        if name == names[left] {
            return true;
        }
    }
    false
}

impl<'p> NameStack<'p> {
    /// No name was entered.
    pub fn new(alloc: Global) -> NameStack<'p>
        ensures { result ≡ [] }
    {
        NameStack {
            names: Vec::new(alloc),
        }
    }

    pub fn has(&self, name: &Name) -> bool
        ensures { result ≡ has_name self.now name.now }
    {
        is_among(self.names.as_slice(), name)
    }

    /// Whether a name is among the earliest, of which there are so many.
    #[tactic(auto, using(crate::proofs::NameStacks::changes))]
    pub fn has_within(&self, len: usize, name: &Name) -> bool
        ensures { result ≡ has_name (keep len self.now) name.now }
    {
        let names = self.names.as_slice();
        if len < names.len() {
            is_among(&names[..len], name)
        } else {
            is_among(names, name)
        }
    }

    #[tactic(auto, using(crate::proofs::NameStacks::changes))]
    pub fn len(&self) -> usize
        ensures { result ≡ length self.now }
    {
        self.names.len()
    }

    /// Enters a name.
    #[tactic(auto, using(crate::proofs::NameStacks::changes))]
    pub fn enter(&mut self, name: &'p Name) -> Result<(), AllocError>
        ensures { OnOk result (self.new ≡ name.now ∷ self.old) }
    {
        self.names.push(name)?;
        Ok(())
    }

    /// Leaves the latest names, down to so many.
    #[tactic(auto, using(crate::proofs::NameStacks::changes))]
    pub fn keep(&mut self, len: usize)
        ensures { self.new ≡ keep len self.old }
    {
        self.names.truncate(len);
    }
}
