//! The state of a run: what its variables hold, the input that is left, and the turns of `for` loops.

ghost use Rattle.std.specs.Prelude.{◌≡◌, ◌++◌, ◌∷◌, [], OnOk, length};
ghost use Rattle.std.specs.Option.{option_copied};
ghost use Rattle.c_semantics.specs.Meaning.State.{look, push, store, keep, with_frame, with_globals};
ghost use Rattle.c_semantics.specs.Meaning.SimpleStatements.{changed, next_input, rest_of};
ghost use Rattle.resolved_names.specs.Numbered.{number_name};
ghost use Rattle.c_meaning.specs.Variables.{cell_of, cell_in, IsCell};
ghost use Rattle.c_meaning.specs.States.{start, one_turn_more};

use crate::file_variables::FileVariables;
use crate::frame::Frame;
use crate::variable::{Cell, Variable};
use c_tree::arithmetic::Trap;
use std::alloc::{AllocError, Global};
use std::marker::Model;
use std::mem;

/// The state of a run, which contracts see as a state without lines, and with as many turns as 64 bits hold.
#[derive(Drop)]
pub struct Machine<'p> {
    alloc: Global,
    /// The variables of the running function.
    frame: Frame,
    /// Frames of calls that have ended, whose room later calls use.
    spare: Vec<Frame>,
    globals: FileVariables,
    input: &'p [i64],
    turns: u64,
}

impl<'p> Model for Machine<'p> {
    ghost use Rattle.c_semantics.specs.Meaning.State.{State};
    ghost use Rattle.c_meaning.specs.Machines.{state_of};

    ghost Value = { State };

    ghost view = { state_of };
}

impl<'p> Machine<'p> {
    /// No variable is there, and no turn was counted.
    pub fn new(alloc: Global, input: &'p [i64]) -> Machine<'p>
        ensures { result ≡ start input.now }
    {
        Machine {
            alloc,
            frame: Frame::new(alloc),
            spare: Vec::new(alloc),
            globals: FileVariables::new(alloc),
            input,
            turns: 0,
        }
    }

    /// The variable that a name means: the innermost of the frame, else the file's.
    #[tactic(auto, using(crate::proofs::Variables::places))]
    pub fn look(&self, name: usize) -> Option<&Variable>
        ensures { cell_in (option_copied result) ≡ look self.now (number_name name) }
    {
        match self.frame.look(name) {
            Some(variable) => Some(variable),
            None => self.globals.look(name),
        }
    }

    /// Stores a number where the name's variable has that place.
    pub fn set(&mut self, name: usize, at: u64, number: i64)
        ensures { self.new ≡ store (number_name name) (changed (look self.old (number_name name)) at number) self.old }
    {
        if self.frame.set(name, at, number) {
            return;
        }
        self.globals.set(name, at, number);
    }

    /// A new innermost variable of the frame. The only error is want of memory.
    pub fn push(&mut self, name: usize, cell: Cell) -> Result<(), AllocError>
        requires { IsCell cell }
        ensures { OnOk result (self.new ≡ push (number_name name) (cell_of cell) self.old) }
    {
        self.frame.push(name, cell)
    }

    /// A new file-scope variable behind the others. The only error is want of memory.
    pub fn add_global(&mut self, name: usize, cell: Cell) -> Result<(), AllocError>
        requires { IsCell cell }
        ensures { OnOk result (self.new ≡ with_globals (self.old.globals ++ record { name = number_name name; cell = cell_of cell } ∷ []) self.old) }
    {
        self.globals.push(name, cell)
    }

    /// Where memory comes from.
    pub fn alloc(&self) -> Global {
        self.alloc
    }

    /// How many variables the frame has.
    pub fn frame_len(&self) -> usize
        ensures { result ≡ length self.now.frame }
    {
        self.frame.len()
    }

    /// Drops the innermost variables, down to so many.
    pub fn keep(&mut self, len: usize)
        ensures { self.new ≡ with_frame (keep len self.old.frame) self.old }
    {
        self.frame.keep(len);
    }

    /// Puts a frame in place of the running function's, whose variables it gives back.
    pub fn swap_frame(&mut self, frame: Frame) -> Frame
        ensures frame { self.new ≡ with_frame frame self.old }
        ensures was { result ≡ self.old.frame }
    {
        mem::replace(&mut self.frame, frame)
    }

    /// A frame without variables: one that was put back, with its room, or a new one. No variable is changed.
    #[tactic(auto, using(crate::proofs::Frames::kept))]
    pub fn empty_frame(&mut self) -> Frame
        ensures frame { result ≡ [] }
        ensures same { self.new ≡ self.old }
    {
        match self.spare.pop() {
            Some(mut frame) => {
                frame.keep(0);
                frame
            }
            None => Frame::new(self.alloc),
        }
    }

    /// Takes back a frame that isn't needed any more. Where memory is wanting, it is dropped.
    pub fn put_back(&mut self, frame: Frame)
        ensures { self.new ≡ self.old }
    {
        let _ = self.spare.push(frame);
    }

    /// Takes the next number of the input: `InputEnd` exactly where none is left.
    pub fn take_input(&mut self) -> Result<i64, Trap>
        ensures number { result ≡ next_input self.old.input }
        ensures rest { self.new ≡ record self.old { input = rest_of self.old.input } }
    {
        match self.input {
            [] => Err(Trap::InputEnd),
            [number, rest @ ..] => {
                self.input = rest;
                Ok(*number)
            }
        }
    }

    /// Counts a turn of a `for` loop; the count stands still at 2^64 - 1.
    pub fn count_turn(&mut self)
        ensures { self.new ≡ one_turn_more self.old }
    {
        self.turns = self.turns.saturating_add(1);
    }

    /// How many turns of `for` loops were counted.
    pub fn turns(&self) -> u64
        ensures { result ≡ self.now.turns }
    {
        self.turns
    }
}
