//! A `#define` and the functions of the outside, each taken from the tokens that are left after its first word.

ghost use Rattle.std.specs.Prelude.{◌≡◌};
ghost use Rattle.c_tree.specs.Placed as placed;
ghost use Rattle.pragma_grammar.specs.DirectiveKept.{kept};
ghost use Rattle.c_grammar.specs.Goals.{define_goal, printer_goal, reader_goal, extern_goal};
ghost use Rattle.c_parser.specs.Items.{item_of, IsItemTaken, IsMayNameTaken, IsEndTaken, IsParameterTaken, extern_reader_goal};

use crate::constants::{Constant, value};
use crate::cursor::{Class, Cursor};
use crate::heads::long_rest;
use crate::terminals::name;
use c_tree::name::Name;
use c_tree::tree::{Item, Port, Span};
use pragma_grammar::directive_kept::Kept;
use pragma_grammar::phrase::ParseFault;
use pragma_grammar::terminal::{Terminal, terminal_of};
use std::alloc::Global;

fn define_item(name: Name, constant: Constant, name_span: Span) -> Kept<Item>
    ensures { item_of result ≡ kept 0 (placed.define name constant.negative constant.value constant.ty name_span) }
{
    Kept::Whole {
        tree: Item::Define {
            name,
            negative: constant.negative,
            value: constant.value,
            ty: constant.ty,
            name_span,
        },
        height: 0,
    }
}

/// Takes the rest of a `#define` (C11 6.10.3), whose `#` stands at `at`.
pub fn define(alloc: Global, cursor: &mut Cursor, at: Span) -> Result<Kept<Item>, ParseFault>
    ensures { IsItemTaken (define_goal at) cursor.old result cursor.new }
{
    cursor.take(Class::Define)?;
    let (name, name_span) = name(alloc, cursor)?;
    let constant = value(cursor)?;
    cursor.take(Class::LineEnd)?;
    Ok(define_item(name, constant, name_span))
}

fn port_item(port: Port, start: u64, last: Span) -> Kept<Item>
    ensures { item_of result ≡ kept 0 (placed.extern_ port (record { start = start; end = last.end })) }
{
    Kept::Whole {
        tree: Item::Extern {
            port,
            span: Span {
                start,
                end: last.end,
            },
        },
        height: 0,
    }
}

/// Takes a name, where one stands first.
fn may_name(cursor: &mut Cursor)
    ensures { IsMayNameTaken cursor.old cursor.new }
{
    match terminal_of(cursor.first()) {
        Terminal::Name => cursor.advance(),
        _ => {}
    }
}

/// Takes `) ;`, and answers where they end.
fn end_declaration(cursor: &mut Cursor) -> Result<Span, ParseFault>
    ensures { IsEndTaken cursor.old result cursor.new }
{
    cursor.take(Class::RoundClose)?;
    let last = cursor.take(Class::Semicolon)?;
    Ok(last)
}

/// Takes the type of `print`'s parameter, and its name where there is one, with the `(` before them.
fn print_parameter(cursor: &mut Cursor) -> Result<(), ParseFault>
    ensures { IsParameterTaken cursor.old result cursor.new }
{
    cursor.take(Class::RoundOpen)?;
    cursor.take(Class::Long)?;
    long_rest(cursor)?;
    may_name(cursor);
    Ok(())
}

/// Takes the rest of a declaration of `print` (C11 6.7) after `void`. It begins at `from`.
pub fn printer(cursor: &mut Cursor, from: u64) -> Result<Kept<Item>, ParseFault>
    ensures { IsItemTaken (printer_goal from) cursor.old result cursor.new }
{
    cursor.take(Class::Print)?;
    print_parameter(cursor)?;
    let last = end_declaration(cursor)?;
    Ok(port_item(Port::Print, from, last))
}

/// Takes the rest of a declaration of `input` (C11 6.7) after its name. It begins at `from`.
pub fn reader(cursor: &mut Cursor, from: u64) -> Result<Kept<Item>, ParseFault>
    ensures { IsItemTaken (reader_goal from) cursor.old result cursor.new }
{
    cursor.take(Class::RoundOpen)?;
    cursor.may(Class::Void);
    let last = end_declaration(cursor)?;
    Ok(port_item(Port::Input, from, last))
}

/// Takes the rest of a declaration of `input` after `extern`.
fn extern_reader(cursor: &mut Cursor, from: u64) -> Result<Kept<Item>, ParseFault>
    ensures { IsItemTaken (extern_reader_goal from) cursor.old result cursor.new }
{
    cursor.take(Class::Long)?;
    long_rest(cursor)?;
    cursor.take(Class::Input)?;
    reader(cursor, from)
}

/// Takes the rest of a declaration of `print` or `input` whose word `extern` stands at `at`.
pub fn external(cursor: &mut Cursor, at: Span) -> Result<Kept<Item>, ParseFault>
    ensures { IsItemTaken (extern_goal at) cursor.old result cursor.new }
{
    match cursor.may(Class::Void) {
        Some(_) => printer(cursor, at.start),
        None => extern_reader(cursor, at.start),
    }
}
