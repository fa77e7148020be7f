//! The lexer, which takes a text in pieces.

ghost use Rattle.std.specs.Prelude.{◌≡◌, ◌⊎◌, ℕ, ◌+◌, ◌<◌, ◌^◌, List, [], ◌∷◌, ◌++◌, length, OnOk, OnErr, IfOk, IfErr};
ghost use Rattle.c_lexer.specs.declared.token.Token.{Token};
ghost use Rattle.c_lexer.specs.declared.token.LexKind.{LexKind};
ghost use Rattle.c_lexer.specs.Cut.{Cut, FirstFault, IsFault};
ghost use Rattle.c_lexer.specs.Lexing.{StandsFor, fed};

use crate::machine::Machine;
use crate::token::{LexFault, Token};
use std::alloc::{AllocError, Global};
use std::marker::Model;

/// A lexer stands for the bytes that it was fed. It keeps the whole tokens and what is open, and not the text.
#[derive(Drop)]
pub struct Lexer {
    machine: Machine,
    count: u64,
}

impl Model for Lexer {
    ghost use Rattle.c_lexer.specs.Lexing.{Lexing};

    ghost Value = { Lexing };

    ghost use Rattle.std.specs.Prelude.{◌≡◌, []};
    ghost use Rattle.c_lexer.specs.Running.{state_of};

    ghost view = { λ l. record { count = l.count; state = state_of l.machine; tokens = l.machine.tokens.0 } };

    ghost invariant = { λ l. (l.machine.tokens.1 ≡ []) × (l.machine.text.0 ≡ l.machine.text.1) };
}

impl Lexer {
    /// A lexer that stands for no bytes. It takes no memory.
    pub fn new(alloc: Global) -> Lexer
        ensures { StandsFor result [] }
    {
        Lexer {
            machine: Machine::new(alloc),
            count: 0,
        }
    }

    /// Takes the next piece of the text. After an error, want of memory, the lexer is as it was before.
    pub fn feed(&mut self, piece: &[u8]) -> Result<(), AllocError>
        requires { self.old.count + length piece.now < 2 ^ 63 }
        ensures stands { OnOk result ((bytes : List ℕ) → StandsFor self.old bytes → StandsFor self.new (bytes ++ piece.now)) }
        ensures count { OnOk result (self.new.count ≡ self.old.count + length piece.now) }
        ensures err { OnErr result (self.new ≡ self.old) }
    {
        self.take(piece)
    }

    /// The same, as a step of the machine.
    fn take(&mut self, piece: &[u8]) -> Result<(), AllocError>
        requires { self.old.count + length piece.now < 2 ^ 63 }
        ensures ok { OnOk result (self.new ≡ fed self.old piece.now) }
        ensures err { OnErr result (self.new ≡ self.old) }
    {
        let before = self.machine.piece;
        match self.machine.take(self.count, piece) {
            Ok(()) => {
                self.machine.commit();
                self.count += piece.len() as u64;
                Ok(())
            }
            Err(error) => {
                self.machine.revert(before);
                Err(error)
            }
        }
    }

    /// The tokens of the bytes that the lexer stands for, or their first fault.
    pub fn finish(self) -> Result<Vec<Token>, LexFault>
        ensures cut { (bytes : List ℕ) → StandsFor self bytes → IfOk result (λ tokens. Cut bytes tokens.items) }
        ensures fault { (bytes : List ℕ) → StandsFor self bytes → IfErr result (λ fault. IsFault bytes fault) }
    {
        let Lexer { machine, count } = self;
        machine.end(count)
    }
}

/// The tokens of a text, or its first lexical fault.
pub fn lex(alloc: Global, text: &[u8]) -> Result<Vec<Token>, LexFault>
    requires { length text.now < 2 ^ 63 }
    ensures cut { IfOk result (λ tokens. Cut text.now tokens.items) }
    ensures fault { IfErr result (λ fault. IsFault text.now fault) }
{
    let mut lexer = Lexer::new(alloc);
    lexer.feed(text)?;
    lexer.finish()
}

/// Each text has one answer: one cut, or one first fault.
pub fn one_answer()
    ensures cut { (text : List ℕ) (these those : List Token) → Cut text these → Cut text those → these ≡ those }
    ensures fault { (text : List ℕ) (this that : LexKind) (here there : ℕ) → FirstFault text this here → FirstFault text that there
        → (this ≡ that) × (here ≡ there) }
    ensures not_both { (text : List ℕ) (tokens : List Token) (kind : LexKind) (place : ℕ) → Cut text tokens → FirstFault text kind place → ⊥ }
    ensures some { (text : List ℕ) → ((tokens : List Token) × Cut text tokens) ⊎ ((kind : LexKind) × (place : ℕ) × FirstFault text kind place) }
{}
