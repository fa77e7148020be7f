//! The variables and arrays of a file (C11 6.7), taken from the tokens that are left after their type's name.

ghost use Rattle.std.specs.Prelude.{◌≡◌};
ghost use Rattle.c_grammar.specs.Goals.{global_named};
ghost use Rattle.c_parser.specs.Globals.{IsGlobalTaken};
ghost use Rattle.c_parser.specs.Items.{items_of, AreItemsTaken};

use crate::cursor::{Class, Cursor};
use crate::item_nodes::{add_item, unvalued, valued};
use crate::phrases::expr;
use crate::simple::subscripts;
use crate::terminals::name;
use c_tree::name::Name;
use c_tree::tree::{Item, ItemList, Span, Ty};
use pragma_grammar::directive_kept::Kept;
use pragma_grammar::phrase::ParseFault;
use std::alloc::Global;

/// Takes the rest of a declarator (C11 6.7.6, 6.7.9), whose name stands at `at`. As an item it begins at `from`.
fn global(
    alloc: Global,
    cursor: &mut Cursor,
    ty: Ty,
    from: u64,
    name: Name,
    at: Span,
) -> Result<Kept<Item>, ParseFault>
    ensures { IsGlobalTaken ty from name at cursor.old result cursor.new }
{
    match cursor.may(Class::Assign) {
        Some(_) => {
            let (value, _) = expr(alloc, cursor)?;
            Ok(valued(alloc, ty, name, at, value, from))
        }
        None => {
            let (dims, _) = subscripts(alloc, cursor, at)?;
            Ok(unvalued(ty, name, at, dims, from))
        }
    }
}

/// Takes declarators with commas between them, through `;`, each as an item, and answers the items with these after them.
/// The first one begins at `from`, which is its type's place, and each other one at its name.
pub fn globals(
    alloc: Global,
    cursor: &mut Cursor,
    ty: Ty,
    from: u64,
    items: Kept<ItemList>,
) -> Result<Kept<ItemList>, ParseFault>
    ensures { AreItemsTaken (global_named ty from) (items_of items) cursor.old result cursor.new }
{
    let mut items = items;
    let mut from = from;
    loop {
        let (name, at) = name(alloc, cursor)?;
        let item = global(alloc, cursor, ty, from, name, at)?;
        items = add_item(items, item)?;
        match cursor.may(Class::Comma) {
            Some(_) => {
                from = cursor.first().span.start;
            }
            None => {
                cursor.take(Class::Semicolon)?;
                return Ok(items);
            }
        }
    }
}
