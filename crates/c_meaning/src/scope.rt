//! What is known at a place of a program: the defines and the functions that stand before it.

ghost use Rattle.c_meaning.specs.LastItems.{StandBefore};

use crate::last_items::LastItems;
use resolved_names::tree::Item;

/// The items before a place, and the bound on the turns of each execution of a loop.
#[derive(Clone, Copy, Debug)]
pub struct Scope<'p> {
    pub bound: u64,
    pub items: &'p [Item],
    /// Where the last items of a name stand, of these and those behind them.
    pub last: &'p LastItems,
    pub ghost stand_before: { StandBefore last.now items.now },
}
