//! Fresh names, which a source doesn't have.

ghost use Rattle.std.specs.Prelude.{◌≡◌, ◌++◌, IfOk, OnOk, OnErr, codes, reverse, length};
ghost use Rattle.c_tree.specs.BareOf.{bare_program};
ghost use Rattle.loop_normal.specs.DrawnNames as names;
ghost use Rattle.loop_normal.specs.SourceNames.{beside_program};
ghost use Rattle.loop_normal.specs.TakenNames.{taken_names};

use crate::source_names::{in_table, program_names};
use c_tree::checked::Checked;
use c_tree::name::Name;
use indexmap::IndexSet;
use std::alloc::{AllocError, Global};
use std::marker::Model;

/// Draws names `omp_t` with a number, from 0 up, past the names that are taken. The number is kept as decimal digits, so
/// that there is no greatest one.
#[derive(Debug, Drop)]
pub struct Fresh {
    alloc: Global,
    taken: IndexSet<Name>,
    /// ASCII codes, the least significant first.
    digits: Vec<u8>,
}

impl Model for Fresh {
    ghost use Rattle.loop_normal.specs.DrawnNames.{FreshNames};

    ghost Value = { FreshNames };

    ghost view = { λ fresh. record { taken = fresh.taken.keys; digits = fresh.digits.items } };
}

impl Fresh {
    /// Fresh names beside a program, none drawn yet: none is a name of its variables, functions and defines.
    pub fn new(alloc: Global, source: &Checked) -> Result<Fresh, AllocError>
        ensures { IfOk result (λ fresh. fresh ≡ beside_program (bare_program source.now)) }
    {
        let taken = program_names(alloc, source.program())?;
        Fresh::beside(alloc, taken)
    }

    /// Fresh names beside these, none drawn yet.
    pub fn beside(alloc: Global, taken: Vec<Name>) -> Result<Fresh, AllocError>
        ensures { IfOk result (λ fresh. fresh ≡ names.no_draws (taken_names taken.items)) }
    {
        let taken = in_table(alloc, taken)?;
        let digits = Vec::from_slice(alloc, b"0")?;
        Ok(Fresh {
            alloc,
            taken,
            digits,
        })
    }

    /// The name with the least number, no less than all numbers drawn before, whose name isn't taken. After want of memory
    /// nothing was drawn.
    pub fn next(&mut self) -> Result<Name, AllocError>
        ensures name { IfOk result (λ name. name ≡ names.drawn self.old) }
        ensures drawn { OnOk result (self.new ≡ names.after_draw self.old) }
        ensures unchanged { OnErr result (self.new ≡ self.old) }
    {
        let digits = self.untaken()?;
        let name = numbered(self.alloc, digits.as_slice())?;
        let next = next_digits(self.alloc, digits.as_slice())?;
        self.digits = next;
        Ok(name)
    }

    /// The digits of the number that is drawn next: at most as many numbers are tried as names are taken, each in one step.
    #[tactic(auto, using(crate::proofs::TakenNames::table))]
    fn untaken(&self) -> Result<Vec<u8>, AllocError>
        ensures { IfOk result (λ digits. digits.items ≡ names.drawn_digits self.now) }
    {
        let mut digits = Vec::from_slice(self.alloc, self.digits.as_slice())?;
        let mut left = self.taken.as_slice();
        while let [_, rest @ ..] = left {
            let name = numbered(self.alloc, digits.as_slice())?;
            if !self.taken.contains(&name) {
                return Ok(digits);
            }
            digits = next_digits(self.alloc, digits.as_slice())?;
            left = rest;
        }
        Ok(digits)
    }
}

/// The digits of the next number, the least significant first.
#[tactic(auto, using(crate::proofs::Digits::digits))]
fn next_digits(alloc: Global, mut digits: &[u8]) -> Result<Vec<u8>, AllocError>
    ensures { IfOk result (λ next. next.items ≡ names.next_digits digits.entry.now) }
{
    let mut next = Vec::new(alloc);
    while let [digit, rest @ ..] = digits {
        if *digit < b'9' {
            next.push(*digit + 1)?;
            next.extend_from_slice(rest)?;
            return Ok(next);
        }
        next.push(b'0')?;
        digits = rest;
    }
    next.push(b'1')?;
    Ok(next)
}

fn numbered(alloc: Global, digits: &[u8]) -> Result<Name, AllocError>
    ensures { IfOk result (λ name. name ≡ names.numbered digits.now) }
{
    let mut bytes = Vec::from_slice(alloc, b"omp_t")?;
    let backwards: Vec<u8> = digits.iter().rev().copied().collect(alloc)?;
    bytes.extend_from_slice(backwards.as_slice())?;
    Name::new(alloc, bytes.as_slice())
}
