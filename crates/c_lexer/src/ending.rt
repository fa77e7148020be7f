//! The machine at the end of the text.

ghost use Rattle.std.specs.Prelude.{◌≡◌, ◌++◌, IfOk, IfErr};
ghost use Rattle.c_lexer.specs.Cut.{after, tokens};
ghost use Rattle.c_lexer.specs.Machine.{closing, closes_backslash, closes_number, end};
ghost use Rattle.c_lexer.specs.Numbers.{integer};
ghost use Rattle.c_lexer.specs.Running.{state_of};
ghost use Rattle.c_lexer.specs.Lexing.{FaultIs};

use crate::context::{Before, Line};
use crate::machine::{Machine, push_line_end, push_token, with_token};
use crate::mode::Mode;
use crate::number::integer;
use crate::token::{LexFault, LexKind, Punct, Token, TokenKind};
use c_tree::name::Name;
use std::alloc::AllocError;

impl From<AllocError> for LexFault {
    ghost use Rattle.std.specs.Prelude.{◌≡◌};
    ghost use Rattle.c_lexer.specs.declared.token.LexFault.TheVariants.{Memory};

    ghost from_gives = { λ _ fault. fault ≡ Memory };

    fn from(_: AllocError) -> LexFault {
        LexFault::Memory
    }
}

/// The fault at a backslash after a run of joins that is no join.
fn backslash_fault(before: Before, first: u64, last: u64) -> LexFault
    ensures { FaultIs result (closes_backslash before first last) }
{
    match before {
        Before::Free => LexFault::At(LexKind::BadByte, last),
        Before::Solid => LexFault::At(LexKind::SplitToken, first),
        Before::Slash => LexFault::At(LexKind::SplitToken, first),
    }
}

impl Machine {
    /// Ends the open piece, and answers the line after it.
    fn end_piece(&mut self, at: u64) -> Result<Line, LexFault>
        ensures ok { IfOk result (λ line. after self.new.tokens.1 (closing line at) ≡ after self.old.tokens.1 (end (state_of self.old) at)) }
        ensures fault { IfErr result (λ f. FaultIs f (end (state_of self.old) at)) }
        ensures before { self.new.tokens.0 ≡ self.old.tokens.0 }
    {
        match self.piece.mode {
            Mode::Between => Ok(self.piece.line),
            Mode::Word { start } => {
                let name = Name::new(self.alloc, self.text.bytes())?;
                push_token(&mut self.tokens, TokenKind::Word(name), start, at)?;
                Ok(with_token(self.piece.line))
            }
            Mode::Number { start, last: _ } => self.end_constant(start, at),
            Mode::Punct { start, punct } => {
                push_token(&mut self.tokens, TokenKind::Punct(punct), start, at)?;
                Ok(with_token(self.piece.line))
            }
            Mode::TwoDots { start, second } => {
                push_token(
                    &mut self.tokens,
                    TokenKind::Punct(Punct::Dot),
                    start,
                    second,
                )?;
                push_token(&mut self.tokens, TokenKind::Punct(Punct::Dot), second, at)?;
                Ok(with_token(with_token(self.piece.line)))
            }
            Mode::Backslash { first } => Err(LexFault::At(LexKind::BadByte, first)),
            Mode::BackslashReturn { first } => Err(LexFault::At(LexKind::BadByte, first)),
            Mode::Joined { first: _ } => Ok(self.piece.line),
            Mode::JoinedBackslash { first, last } => Err(backslash_fault(
                self.piece.before,
                first,
                last,
            )),
            Mode::JoinedReturn { first, last } => Err(backslash_fault(
                self.piece.before,
                first,
                last,
            )),
            Mode::JoinedSlash { first, slash: _ } => Err(LexFault::At(LexKind::SplitToken, first)),
            Mode::Block { start, stage: _ } => Err(LexFault::At(LexKind::OpenComment, start)),
            Mode::LineComment { stage: _ } => Ok(self.piece.line),
            Mode::Faulted { kind, place } => Err(LexFault::At(kind, place)),
        }
    }

    /// Ends an open number.
    fn end_constant(&mut self, start: u64, at: u64) -> Result<Line, LexFault>
        ensures ok { IfOk result (λ line. after self.new.tokens.1 (closing line at) ≡ after self.old.tokens.1 (closes_number self.old.piece.line (integer self.old.text.1) start at)) }
        ensures fault { IfErr result (λ f. FaultIs f (closes_number self.old.piece.line (integer self.old.text.1) start at)) }
        ensures before { self.new.tokens.0 ≡ self.old.tokens.0 }
    {
        match integer(self.text.bytes()) {
            Some(kind) => {
                push_token(&mut self.tokens, kind, start, at)?;
                Ok(with_token(self.piece.line))
            }
            None => Err(LexFault::At(LexKind::BadNumber, start)),
        }
    }

    /// The tokens of a text that ends at a place, or its first fault.
    pub fn end(self, at: u64) -> Result<Vec<Token>, LexFault>
        ensures ok { IfOk result (λ found. tokens found.items ≡ after (self.tokens.0 ++ self.tokens.1) (end (state_of self) at)) }
        ensures fault { IfErr result (λ f. FaultIs f (end (state_of self) at)) }
    {
        let mut machine = self;
        let line = machine.end_piece(at)?;
        push_line_end(&mut machine.tokens, line, at)?;
        push_token(&mut machine.tokens, TokenKind::End, at, at)?;
        Ok(machine.tokens.into_tokens())
    }
}
