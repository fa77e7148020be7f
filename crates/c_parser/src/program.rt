//! The reader of programs.

ghost use Rattle.std.specs.Prelude.{◌≡◌, ◌↔◌, IsTrue, []};
ghost use Rattle.pragma_grammar.specs.Symbols.{symbol};
ghost use Rattle.pragma_grammar.specs.Terminals.{terminal_of};
ghost use Rattle.pragma_grammar.specs.declared.terminal.Terminal as terminal;
ghost use Rattle.pragma_grammar.specs.DirectiveKept.{kept};
ghost use Rattle.pragma_grammar.specs.Reading.{EndsText};
ghost use Rattle.c_grammar.specs.Goals as goals;
ghost use Rattle.c_grammar.specs.Goals.{int_goal, long_goal};
ghost use Rattle.c_parser.specs.Items.{items_of, IsItemTaken, AreAllTaken};
ghost use Rattle.c_parser.specs.Openings.{opened, single_goal};
ghost use Rattle.c_parser.specs.Parsing.{AreTopsTaken, IsEnded, whole_of, IsParsed};

use crate::cursor::{Class, Cursor};
use crate::functions::{function, main_function};
use crate::globals::globals;
use crate::heads::long_rest;
use crate::item_nodes::{add_item, no_items};
use crate::items::{define, external, printer, reader};
use crate::openings::{Opening, Single, take_opening};
use c_lexer::token::Token;
use c_tree::tree::{Item, ItemList, Program, Span, Ty};
use pragma_grammar::directive_kept::Kept;
use pragma_grammar::phrase::{ParseFault, ParseKind};
use pragma_grammar::terminal::{Terminal, terminal_of};
use std::alloc::Global;

/// The items so far. After `main`, which is the last one, nothing is left to read.
#[derive(Drop)]
pub enum Tops {
    Open(Kept<ItemList>),
    Closed(Kept<ItemList>),
}

/// Takes what an item that begins with `int` at `at` may be: `main`, or variables.
fn int_tops(
    alloc: Global,
    cursor: &mut Cursor,
    at: Span,
    items: Kept<ItemList>,
) -> Result<Tops, ParseFault>
    ensures { AreTopsTaken (int_goal at) (items_of items) cursor.old result cursor.new }
{
    match cursor.may(Class::Main) {
        Some(_) => {
            let item = main_function(alloc, cursor, at)?;
            let items = add_item(items, item)?;
            Ok(Tops::Closed(items))
        }
        None => {
            let items = globals(alloc, cursor, Ty::Int, at.start, items)?;
            Ok(Tops::Open(items))
        }
    }
}

/// Takes what an item that begins with `long` at `at` may be: a declaration of `input`, or variables.
fn long_tops(
    alloc: Global,
    cursor: &mut Cursor,
    at: Span,
    items: Kept<ItemList>,
) -> Result<Tops, ParseFault>
    ensures { AreTopsTaken (long_goal at) (items_of items) cursor.old result cursor.new }
{
    long_rest(cursor)?;
    match cursor.may(Class::Input) {
        Some(_) => {
            let item = reader(cursor, at.start)?;
            let items = add_item(items, item)?;
            Ok(Tops::Open(items))
        }
        None => {
            let items = globals(alloc, cursor, Ty::Long, at.start, items)?;
            Ok(Tops::Open(items))
        }
    }
}

/// Takes the rest of an item whose first token, at `at`, alone tells what it is.
fn take_single(
    alloc: Global,
    cursor: &mut Cursor,
    single: Single,
    at: Span,
) -> Result<Kept<Item>, ParseFault>
    ensures { IsItemTaken (single_goal single at) cursor.old result cursor.new }
{
    match single {
        Single::Void => printer(cursor, at.start),
        Single::Extern => external(cursor, at),
        Single::Static => function(alloc, cursor, at),
        Single::Hash => define(alloc, cursor, at),
    }
}

/// Takes the rest of what an item begins, whose first token stands at `at`.
fn take_tops(
    alloc: Global,
    cursor: &mut Cursor,
    opening: Opening,
    at: Span,
    items: Kept<ItemList>,
) -> Result<Tops, ParseFault>
    ensures { AreTopsTaken (opened opening at) (items_of items) cursor.old result cursor.new }
{
    match opening {
        Opening::Int => int_tops(alloc, cursor, at, items),
        Opening::Long => long_tops(alloc, cursor, at, items),
        Opening::One(first) => {
            let item = take_single(alloc, cursor, first, at)?;
            let items = add_item(items, item)?;
            Ok(Tops::Open(items))
        }
    }
}

/// Takes the items of a program.
fn all_items(alloc: Global, cursor: &mut Cursor) -> Result<Kept<ItemList>, ParseFault>
    ensures { AreAllTaken goals.tops (kept 0 []) cursor.old result cursor.new }
{
    let mut items = no_items(alloc);
    loop {
        let (opening, at) = take_opening(cursor)?;
        match take_tops(alloc, cursor, opening, at, items)? {
            Tops::Open(all) => {
                items = all;
            }
            Tops::Closed(all) => return Ok(all),
        }
    }
}

fn is_end(token: &Token) -> bool
    ensures { IsTrue result ↔ (terminal_of (symbol token.now) ≡ terminal.Terminal.End) }
{
    match terminal_of(token) {
        Terminal::End => true,
        _ => false,
    }
}

/// Refuses tokens other than the last one of a text.
fn end(cursor: &mut Cursor) -> Result<(), ParseFault>
    ensures { IsEnded cursor.old result }
{
    if is_end(cursor.first()) {
        if cursor.tokens().len() == 1 {
            Ok(())
        } else {
            cursor.advance();
            Err(cursor.blamed())
        }
    } else {
        Err(cursor.blamed())
    }
}

fn whole(items: Kept<ItemList>) -> Result<Program, ParseFault>
    ensures { result ≡ whole_of items }
{
    match items {
        Kept::Whole { tree, .. } => Ok(Program { items: tree }),
        Kept::Deep(place) => Err(ParseFault::At(ParseKind::TooDeep, place)),
    }
}

/// The program that the tokens of a text spell (C11 6.9). Where a part of it has a height above 256, the error is `TooDeep`
/// at the part that ends first. Where they spell none, it is at the first token with which no program's tokens begin, and of
/// the kind `Outside` for a word or a punctuator outside the profile, else `Syntax`. `Memory` stands for no memory.
pub fn parse(alloc: Global, tokens: &[Token]) -> Result<Program, ParseFault>
    requires { EndsText tokens.now }
    ensures { IsParsed tokens.now result }
{
    let mut cursor = Cursor::new(tokens);
    let items = all_items(alloc, &mut cursor)?;
    end(&mut cursor)?;
    whole(items)
}
