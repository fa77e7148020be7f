//! Where the last define and the last function of each name stand in a program.

ghost use Rattle.std.specs.Prelude.{◌≡◌, ◌+◌, ◌<◌, IfOk, OnOk, length, take, unwrap_or};
ghost use Rattle.c_meaning.specs.PlaceTables.{place_at};
ghost use Rattle.c_meaning.specs.LastItems.{StandBefore};

use crate::place_table::PlaceTable;
use resolved_names::tree::Item;
use std::alloc::{AllocError, Global};

/// For each number, how many items there are up to the last define of it, and up to the last function of it.
#[derive(Debug, Drop)]
pub struct LastItems {
    defines: PlaceTable,
    functions: PlaceTable,
}

impl LastItems {
    /// The last items of a program.
    pub fn of(alloc: Global, items: &[Item]) -> Result<LastItems, AllocError>
        ensures { IfOk result (λ last. StandBefore last items.now) }
    {
        let mut last = LastItems {
            defines: PlaceTable::new(alloc),
            functions: PlaceTable::new(alloc),
        };
        'each: for (index, _) in items.iter().enumerate() {
            last.note(items, index)?;
        }
        Ok(last)
    }

    /// Notes one item more.
    fn note(&mut self, items: &[Item], index: usize) -> Result<(), AllocError>
        requires within { index < length items.now }
        requires so_far { StandBefore self.old (take index items.now) }
        ensures { OnOk result (StandBefore self.new (take (index + 1) items.now)) }
    {
        match &items[index] {
            Item::Define { name, .. } => self.defines.set(*name, index + 1),
            Item::Function { name, .. } => self.functions.set(*name, index + 1),
            _ => Ok(()),
        }
    }

    /// How many items there are up to the last define of a name, and with it; 0 where there is none.
    pub fn up_to_define(&self, name: usize) -> usize
        ensures { result ≡ unwrap_or (place_at self.now.defines name) 0 }
    {
        self.defines.get(name).unwrap_or(0)
    }

    /// How many items there are up to the last function of a name, and with it; 0 where there is none.
    pub fn up_to_function(&self, name: usize) -> usize
        ensures { result ≡ unwrap_or (place_at self.now.functions name) 0 }
    {
        self.functions.get(name).unwrap_or(0)
    }
}
