//! Functions (C11 6.9.1) and `main` (5.1.2.2.1), each taken as an item from the tokens that are left after its first words.

ghost use Rattle.c_grammar.specs.Goals.{function_goal, main_goal};
ghost use Rattle.c_parser.specs.Items.{IsItemTaken, IsLastTaken};

use crate::bodies::stmts_of_list;
use crate::cursor::Cursor;
use crate::function_heads::{function_head, main_head};
use crate::item_nodes::{function_item, main_item};
use crate::simple::spanning;
use c_tree::tree::{Item, Span};
use pragma_grammar::directive_kept::Kept;
use pragma_grammar::phrase::ParseFault;
use std::alloc::Global;

/// Takes the rest of a function, whose word `static` stands at `at`.
pub fn function(alloc: Global, cursor: &mut Cursor, at: Span) -> Result<Kept<Item>, ParseFault>
    ensures { IsItemTaken (function_goal at) cursor.old result cursor.new }
{
    let head = function_head(alloc, cursor)?;
    let (body, last) = stmts_of_list(alloc, cursor, false, at)?;
    Ok(function_item(
        head.name,
        head.name_span,
        head.params,
        body,
        spanning(at, last),
    ))
}

/// Takes the rest of `main` after its name. The word `int` stands at `at`.
pub fn main_function(alloc: Global, cursor: &mut Cursor, at: Span) -> Result<Kept<Item>, ParseFault>
    ensures { IsLastTaken (main_goal at) cursor.old result cursor.new }
{
    main_head(cursor)?;
    let (body, last) = stmts_of_list(alloc, cursor, true, at)?;
    Ok(main_item(body, spanning(at, last)))
}
