//! The numbers of a program's names.

ghost use Rattle.std.specs.Prelude.{◌≡◌, ◌∷◌, [], IfOk, IfSome};
ghost use Rattle.resolved_names.specs.Numbering.{numbering};

use c_tree::name::Name;
use c_tree::tree::{ForHead, Item, Param, Stmt};
use indexmap::IndexSet;
use std::alloc::{AllocError, Global};
use std::marker::Model;

/// The names that a program declares, each with its index as its number. Contracts see them in their order.
#[derive(Drop)]
pub struct Names {
    alloc: Global,
    names: IndexSet<Name>,
}

impl Model for Names {
    ghost use Rattle.std.specs.Prelude.{List};
    ghost use Rattle.c_tree.specs.Bare.{Name};

    ghost Value = { List Name };

    ghost view = { λ table. table.names.keys };
}

impl Names {
    pub fn new(alloc: Global) -> Names {
        Names {
            alloc,
            names: IndexSet::new(alloc),
        }
    }

    /// Gives a name a number where it has none.
    pub fn note(&mut self, name: &Name) -> Result<(), AllocError> {
        if self.names.get_index_of(name).is_none() {
            let name = name.copy(self.alloc)?;
            self.names.insert(name)?;
        }
        Ok(())
    }

    /// The number of a name.
    pub fn number(&self, name: &Name) -> Option<usize>
        ensures { IfSome result (λ number. numbering self.now name.now ≡ number ∷ []) }
    {
        self.names.get_index_of(name)
    }
}

/// Notes of the names that a program declares.
impl Names {
    #[cycle(noting)]
    fn note_stmt(&mut self, stmt: &Stmt) -> Result<(), AllocError> {
        match stmt {
            Stmt::Decl { name, .. } => self.note(name),
            Stmt::If { yes, no, .. } => {
                self.note_stmts(yes.as_slice())?;
                match no {
                    Some(no) => self.note_stmts(no.as_slice()),
                    None => Ok(()),
                }
            }
            Stmt::While { body, .. } | Stmt::Do { body, .. } | Stmt::Block { body, .. } => {
                self.note_stmts(body.as_slice())
            }
            Stmt::For { head, body, .. } => {
                self.note_head(head)?;
                self.note_stmts(body.as_slice())
            }
            _ => Ok(()),
        }
    }

    #[cycle(noting)]
    fn note_stmts(&mut self, stmts: &[Stmt]) -> Result<(), AllocError> {
        'each: for stmt in stmts {
            self.note_stmt(stmt)?;
        }
        Ok(())
    }

    /// The last part of a head declares nothing.
    #[cycle(noting)]
    fn note_head(&mut self, head: &ForHead) -> Result<(), AllocError> {
        match &head.init {
            Some(stmt) => self.note_stmt(stmt.get()),
            None => Ok(()),
        }
    }

    fn note_params(&mut self, params: &[Param]) -> Result<(), AllocError> {
        for param in params {
            self.note(&param.name)?;
        }
        Ok(())
    }

    fn note_item(&mut self, item: &Item) -> Result<(), AllocError> {
        match item {
            Item::Define { name, .. } | Item::Global { name, .. } => self.note(name),
            Item::Function {
                name,
                params,
                body,
                ..
            } => {
                self.note(name)?;
                self.note_params(params.as_slice())?;
                self.note_stmts(body.as_slice())
            }
            Item::Main { body, .. } => self.note_stmts(body.as_slice()),
            Item::Extern { .. } => Ok(()),
        }
    }

    /// Gives each name a number that the items declare.
    pub fn note_items(&mut self, items: &[Item]) -> Result<(), AllocError> {
        for item in items {
            self.note_item(item)?;
        }
        Ok(())
    }
}
