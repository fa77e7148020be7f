//! Writes words, numbers and indentation.

ghost use Rattle.std.specs.Prelude.{◌≡◌, ◌++◌, OnOk};
ghost use Rattle.c_printer.specs.Layout.{text, mark, number, suffix, type_name, opening, closing, indent, separator, gap, word, ◌&◌};

use c_tree::name::Name;
use c_tree::tree::Ty;
use itoa::Buffer;
use std::alloc::AllocError;

/// Writes a number in decimal, and `LL` after one of type `long long`.
pub fn push_number(out: &mut Vec<u8>, value: u64, ty: Ty) -> Result<(), AllocError>
    ensures { OnOk result (out.new.items ≡ out.old.items ++ text (mark (number value ty))) }
{
    let mut buffer = Buffer::new();
    out.extend_from_slice(buffer.format(value).as_bytes())?;
    out.extend_from_slice(suffix(ty))
}

fn suffix(ty: Ty) -> &'static [u8]
    ensures { result.now ≡ suffix ty }
{
    match ty {
        Ty::Int => b"",
        Ty::Long => b"LL",
    }
}

/// Writes `int` or `long long`.
pub fn push_type(out: &mut Vec<u8>, ty: Ty) -> Result<(), AllocError>
    ensures { OnOk result (out.new.items ≡ out.old.items ++ text (type_name ty)) }
{
    match ty {
        Ty::Int => out.extend_from_slice(b"int"),
        Ty::Long => out.extend_from_slice(b"long long"),
    }
}

/// Writes `(` where it is needed.
pub fn open_round(out: &mut Vec<u8>, needed: bool) -> Result<(), AllocError>
    ensures { OnOk result (out.new.items ≡ out.old.items ++ text (opening needed)) }
{
    if needed {
        out.extend_from_slice(b"(")
    } else {
        out.extend_from_slice(b"")
    }
}

/// Writes `)` where it is needed.
pub fn close_round(out: &mut Vec<u8>, needed: bool) -> Result<(), AllocError>
    ensures { OnOk result (out.new.items ≡ out.old.items ++ text (closing needed)) }
{
    if needed {
        out.extend_from_slice(b")")
    } else {
        out.extend_from_slice(b"")
    }
}

/// Writes a comma and a space, before an element of a list that isn't the first.
pub fn push_separator(out: &mut Vec<u8>, first: bool) -> Result<(), AllocError>
    ensures { OnOk result (out.new.items ≡ out.old.items ++ text (separator first)) }
{
    if first {
        out.extend_from_slice(b"")
    } else {
        out.extend_from_slice(b", ")
    }
}

/// Writes a type and the name that is declared.
pub fn push_declared(out: &mut Vec<u8>, ty: Ty, name: &Name) -> Result<(), AllocError>
    ensures { OnOk result (out.new.items ≡ out.old.items ++ text (type_name ty & gap & word name.now)) }
{
    push_type(out, ty)?;
    out.extend_from_slice(b" ")?;
    out.extend_from_slice(name.bytes())
}

/// Writes four spaces for each level.
#[tactic(auto, using(crate::proofs::Indents::indent_more))]
pub fn push_indent(out: &mut Vec<u8>, level: u64) -> Result<(), AllocError>
    ensures { OnOk result (out.new.items ≡ out.old.items ++ text (indent level)) }
{
    let mut left = level;
    while left > 0 {
        out.extend_from_slice(b"    ")?;
        left -= 1;
    }
    Ok(())
}
