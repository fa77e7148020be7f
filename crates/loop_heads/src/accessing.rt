//! The file-scope variables that expressions, targets and heads read and assign.

ghost use Rattle.std.specs.Prelude.{OnOk, Some};
ghost use Rattle.std.specs.Option.{option_map};
ghost use Rattle.c_tree.specs.BareOf.{bare_expr, bare_exprs, bare_target};
ghost use Rattle.c_semantics.specs.Meaning.FileVariables as files;
ghost use Rattle.c_semantics.specs.Meaning.State.{keep};
ghost use Rattle.canonical_nests.specs.Canonical.{seen_loop};
ghost use Rattle.loop_heads.specs.Touching.{Grows, Gains};

use crate::functions::Touched;
use crate::name_stack::NameStack;
use crate::names::Names;
use c_tree::name::Name;
use c_tree::tree::{Expr, SetOp, Target, Ty};
use canonical_nests::canonical::CanonLoop;
use std::alloc::AllocError;

/// The names that hide file-scope variables at a place: the earliest of these, of which there are so many.
#[derive(Clone, Copy)]
pub struct Hidden<'a, 'p> {
    pub names: &'a NameStack<'p>,
    pub len: usize,
}

/// A name, which means a file-scope variable unless it is hidden.
#[tactic(auto, using(crate::proofs::NameSets::grows_none))]
fn touch(hidden: Hidden, into: &mut Names, name: &Name) -> Result<(), AllocError>
    ensures { OnOk result (Grows into.old (files.free_name (keep hidden.entry.len hidden.entry.names.now) name.now) into.new) }
{
    if hidden.names.has_within(hidden.len, name) {
        return Ok(());
    }
    into.add(name)
}

#[tactic(auto, using(crate::proofs::Touches::names))]
#[cycle(read_names)]
fn read_names(hidden: Hidden, into: &mut Names, e: &Expr) -> Result<(), AllocError>
    ensures { OnOk result (Grows into.old (files.free_names (keep hidden.entry.len hidden.entry.names.now) (bare_expr e.now)) into.new) }
{
    match e {
        Expr::Num { .. } => Ok(()),
        Expr::Read { name, .. } => touch(hidden, into, name),
        Expr::Item { name, subs, .. } => {
            touch(hidden, into, name)?;
            read_each(hidden, into, subs.as_slice())
        }
        Expr::Un { of, .. } => read_names(hidden, into, of.get()),
        Expr::Bin { left, right, .. } => {
            read_names(hidden, into, left.get())?;
            read_names(hidden, into, right.get())?;
            Ok(())
        }
        Expr::Cond { test, yes, no, .. } => {
            read_names(hidden, into, test.get())?;
            read_names(hidden, into, yes.get())?;
            read_names(hidden, into, no.get())?;
            Ok(())
        }
        Expr::Cast { of, .. } => read_names(hidden, into, of.get()),
    }
}

#[tactic(auto, using(crate::proofs::Touches::lists))]
#[cycle(read_names)]
fn read_each(hidden: Hidden, into: &mut Names, es: &[Expr]) -> Result<(), AllocError>
    ensures { OnOk result (Grows into.old (files.free_names_each (keep hidden.entry.len hidden.entry.names.now) (bare_exprs es.now)) into.new) }
{
    'each: for e in es {
        read_names(hidden, into, e)?;
    }
    Ok(())
}

/// The variables that an expression reads.
#[tactic(auto, using(crate::proofs::NameSets::grows_none))]
pub fn read(hidden: Hidden, into: &mut Touched, e: &Expr) -> Result<(), AllocError>
    ensures { OnOk result (Gains into.old (files.reading (files.free_names (keep hidden.entry.len hidden.entry.names.now) (bare_expr e.now))) into.new) }
{
    read_names(hidden, &mut into.reads, e)
}

/// The variables that arguments read.
#[tactic(auto, using(crate::proofs::NameSets::grows_none))]
pub fn read_all(hidden: Hidden, into: &mut Touched, es: &[Expr]) -> Result<(), AllocError>
    ensures { OnOk result (Gains into.old (files.reading (files.free_names_each (keep hidden.entry.len hidden.entry.names.now) (bare_exprs es.now))) into.new) }
{
    read_each(hidden, &mut into.reads, es)
}

#[tactic(auto, using(crate::proofs::NameSets::grows_none))]
pub fn read_if(hidden: Hidden, into: &mut Touched, e: &Option<Expr>) -> Result<(), AllocError>
    ensures { OnOk result (Gains into.old (files.reading (files.free_names_if (keep hidden.entry.len hidden.entry.names.now) (option_map bare_expr e.now))) into.new) }
{
    match e {
        None => Ok(()),
        Some(e) => read_names(hidden, &mut into.reads, e),
    }
}

/// What is assigned, with its subscripts.
pub fn assign(hidden: Hidden, into: &mut Touched, target: &Target) -> Result<(), AllocError>
    ensures { OnOk result (Gains into.old (files.assigning (keep hidden.entry.len hidden.entry.names.now) (bare_target target.now)) into.new) }
{
    read_each(hidden, &mut into.reads, target.subs.as_slice())?;
    touch(hidden, &mut into.assigns, &target.name)
}

/// What is read and assigned, with its subscripts.
#[tactic(auto, using(crate::proofs::NameSets::grows_both))]
pub fn update(hidden: Hidden, into: &mut Touched, target: &Target) -> Result<(), AllocError>
    ensures { OnOk result (Gains into.old (files.updating (keep hidden.entry.len hidden.entry.names.now) (bare_target target.now)) into.new) }
{
    touch(hidden, &mut into.reads, &target.name)?;
    read_each(hidden, &mut into.reads, target.subs.as_slice())?;
    touch(hidden, &mut into.assigns, &target.name)
}

pub fn set(hidden: Hidden, into: &mut Touched, op: SetOp, target: &Target) -> Result<(), AllocError>
    ensures { OnOk result (Gains into.old (files.setting (keep hidden.entry.len hidden.entry.names.now) op (bare_target target.now)) into.new) }
{
    match op {
        SetOp::Plain => assign(hidden, into, target),
        _ => update(hidden, into, target),
    }
}

/// The variable of an affected loop, where its head doesn't declare it.
#[tactic(auto, using(crate::proofs::NameSets::grows_none))]
fn variable(hidden: Hidden, into: &mut Names, ty: Option<Ty>, name: &Name) -> Result<(), AllocError>
    ensures { OnOk result (Grows into.old (files.variable (keep hidden.entry.len hidden.entry.names.now) ty name.now) into.new) }
{
    match ty {
        Some(_) => Ok(()),
        None => touch(hidden, into, name),
    }
}

/// The head of an affected loop.
#[tactic(auto, using(crate::proofs::NameSets::grows_both))]
pub fn touch_head(hidden: Hidden, into: &mut Touched, canon: &CanonLoop) -> Result<(), AllocError>
    ensures { OnOk result (Gains into.old (files.head_access (keep hidden.entry.len hidden.entry.names.now) (Some (seen_loop canon.now))) into.new) }
{
    variable(hidden, &mut into.reads, canon.ty, canon.var)?;
    read_names(hidden, &mut into.reads, canon.lb)?;
    read_names(hidden, &mut into.reads, canon.ub)?;
    variable(hidden, &mut into.assigns, canon.ty, canon.var)
}
