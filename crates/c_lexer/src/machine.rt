//! The lexer as a machine that takes a byte at a time.

ghost use Rattle.std.specs.Prelude.{◌≡◌, ℕ, ◌+◌, ◌<◌, ◌^◌, [], ◌∷◌, ◌++◌, length, OnOk};
ghost use Rattle.c_lexer.specs.Cut.{token, with_token, after_kind, line_end};
ghost use Rattle.c_lexer.specs.Machine.{begin, ends_token, ends_number, grows, two_dots, leaves_run, bad_backslash, block_stage, ends_block, line_stage, ends_line, in_mode, hash, faulted, step, start};
ghost use Rattle.c_lexer.specs.Numbers.{integer};
ghost use Rattle.c_lexer.specs.Running.{Follows, IsKept, state_of, run};

use crate::class::{Class, class_of, goes_in_word, is_blank};
use crate::context::{Before, Line};
use crate::held::{HeldText, HeldTokens};
use crate::mode::{BlockStage, Growth, LineStage, Mode, OpenPiece};
use crate::number::{goes_on, integer};
use crate::punctuator::growth;
use crate::token::{LexKind, Punct, Token, TokenKind};
use c_tree::name::Name;
use c_tree::tree::Span;
use std::alloc::{AllocError, Global};

/// The open piece of the text, the bytes of an open word or number, and the whole tokens.
#[derive(Drop)]
pub struct Machine {
    pub alloc: Global,
    pub piece: OpenPiece,
    pub text: HeldText,
    pub tokens: HeldTokens,
}

/// The line after one more token on it.
pub fn with_token(line: Line) -> Line
    ensures { result ≡ with_token line }
{
    match line {
        Line::Fresh => Line::Begun,
        Line::Begun => Line::Begun,
        Line::Directive => Line::Directive,
    }
}

/// What a token leaves directly before the place after it.
pub fn after_kind(kind: &TokenKind) -> Before
    ensures { result ≡ after_kind kind.now }
{
    match kind {
        TokenKind::Punct(Punct::Slash) => Before::Slash,
        _ => Before::Solid,
    }
}

/// Adds a token.
pub fn push_token(
    tokens: &mut HeldTokens,
    kind: TokenKind,
    start: u64,
    end: u64,
) -> Result<(), AllocError>
    ensures before { tokens.new.0 ≡ tokens.old.0 }
    ensures ok { OnOk result (tokens.new.1 ≡ tokens.old.1 ++ token kind start end ∷ []) }
{
    tokens.push(Token {
        kind,
        span: Span { start, end },
    })
}

/// Adds the LineEnd of a `#` line.
pub fn push_line_end(tokens: &mut HeldTokens, line: Line, at: u64) -> Result<(), AllocError>
    ensures before { tokens.new.0 ≡ tokens.old.0 }
    ensures ok { OnOk result (tokens.new.1 ≡ tokens.old.1 ++ line_end line at) }
{
    match line {
        Line::Directive => push_token(tokens, TokenKind::LineEnd, at, at),
        Line::Fresh => Ok(()),
        Line::Begun => Ok(()),
    }
}

impl Machine {
    /// Opens a piece that holds no text.
    fn enter(&mut self, line: Line, before: Before, mode: Mode)
        ensures piece { self.new.piece ≡ record { line = line; before = before; mode = mode } }
        ensures text { self.new.text ≡ self.old.text }
        ensures tokens { self.new.tokens ≡ self.old.tokens }
    {
        self.piece = OpenPiece { line, before, mode };
    }

    /// The text has its first fault, so the rest of it doesn't matter.
    pub fn fail(&mut self, kind: LexKind, place: u64)
        ensures follows { Follows self.old self.new (faulted kind place) }
        ensures kept { IsKept self.old self.new }
    {
        self.enter(Line::Fresh, Before::Free, Mode::Faulted { kind, place });
    }

    /// A byte begins a piece.
    pub fn begin(&mut self, line: Line, before: Before, at: u64, byte: u8) -> Result<(), AllocError>
        requires { at < 2 ^ 63 }
        ensures ok { OnOk result (Follows self.old self.new (begin line before at byte)) }
        ensures kept { IsKept self.old self.new }
    {
        match class_of(byte) {
            Class::Feed => {
                push_line_end(&mut self.tokens, line, at)?;
                self.enter(Line::Fresh, Before::Free, Mode::Between);
            }
            Class::Blank => self.enter(line, Before::Free, Mode::Between),
            Class::Backslash => self.enter(line, before, Mode::Backslash { first: at }),
            Class::Letter => {
                self.text.begin(byte)?;
                self.enter(line, before, Mode::Word { start: at });
            }
            Class::Digit => {
                self.text.begin(byte)?;
                self.enter(
                    line,
                    before,
                    Mode::Number {
                        start: at,
                        last: byte,
                    },
                );
            }
            Class::Hash => self.begin_directive(line, at)?,
            Class::Punct(punct) => self.enter(line, before, Mode::Punct { start: at, punct }),
            Class::Other => self.fail(LexKind::BadByte, at),
        }
        Ok(())
    }

    /// A `#` begins a `#` line, where it is the first token on its line.
    fn begin_directive(&mut self, line: Line, at: u64) -> Result<(), AllocError>
        requires { at < 2 ^ 63 }
        ensures ok { OnOk result (Follows self.old self.new (hash line at)) }
        ensures kept { IsKept self.old self.new }
    {
        match line {
            Line::Fresh => {
                push_token(&mut self.tokens, TokenKind::Hash, at, at + 1)?;
                self.enter(Line::Directive, Before::Solid, Mode::Between);
                Ok(())
            }
            Line::Begun => {
                self.fail(LexKind::BadByte, at);
                Ok(())
            }
            Line::Directive => {
                self.fail(LexKind::BadByte, at);
                Ok(())
            }
        }
    }

    /// A token ends, and the byte begins a piece.
    fn end_token(
        &mut self,
        line: Line,
        kind: TokenKind,
        start: u64,
        at: u64,
        byte: u8,
    ) -> Result<(), AllocError>
        requires { at < 2 ^ 63 }
        ensures ok { OnOk result (Follows self.old self.new (ends_token line kind start at byte)) }
        ensures kept { IsKept self.old self.new }
    {
        let before = after_kind(&kind);
        push_token(&mut self.tokens, kind, start, at)?;
        self.begin(with_token(line), before, at, byte)
    }
}

impl Machine {
    /// A word goes on, or ends before the byte.
    pub fn in_word(&mut self, start: u64, at: u64, byte: u8) -> Result<(), AllocError>
        requires at { at < 2 ^ 63 }
        requires mode { self.old.piece.mode ≡ Mode.Word start }
        ensures ok { OnOk result (Follows self.old self.new (in_mode self.old.piece.line self.old.piece.before (Mode.Word start) self.old.text.1 at byte)) }
        ensures kept { IsKept self.old self.new }
    {
        if goes_in_word(byte) {
            self.text.push(byte)
        } else {
            let name = Name::new(self.alloc, self.text.bytes())?;
            self.end_token(self.piece.line, TokenKind::Word(name), start, at, byte)
        }
    }

    /// A number goes on, or ends before the byte.
    pub fn in_number(&mut self, start: u64, last: u8, at: u64, byte: u8) -> Result<(), AllocError>
        requires { at < 2 ^ 63 }
        ensures ok { OnOk result (Follows self.old self.new (in_mode self.old.piece.line self.old.piece.before (Mode.Number start last) self.old.text.1 at byte)) }
        ensures kept { IsKept self.old self.new }
    {
        if goes_on(last, byte) {
            self.text.push(byte)?;
            self.piece.mode = Mode::Number { start, last: byte };
            Ok(())
        } else {
            self.end_number(start, at, byte)
        }
    }

    fn end_number(&mut self, start: u64, at: u64, byte: u8) -> Result<(), AllocError>
        requires { at < 2 ^ 63 }
        ensures ok { OnOk result (Follows self.old self.new (ends_number self.old.piece.line (integer self.old.text.1) start at byte)) }
        ensures kept { IsKept self.old self.new }
    {
        match integer(self.text.bytes()) {
            Some(kind) => self.end_token(self.piece.line, kind, start, at, byte),
            None => {
                self.fail(LexKind::BadNumber, start);
                Ok(())
            }
        }
    }

    /// A punctuator grows, or ends before the byte.
    pub fn in_punct(
        &mut self,
        start: u64,
        punct: Punct,
        at: u64,
        byte: u8,
    ) -> Result<(), AllocError>
        requires { at < 2 ^ 63 }
        ensures ok { OnOk result (Follows self.old self.new (in_mode self.old.piece.line self.old.piece.before (Mode.Punct start punct) self.old.text.1 at byte)) }
        ensures kept { IsKept self.old self.new }
    {
        match growth(punct, byte) {
            Growth::Grows(longer) => {
                self.piece.mode = Mode::Punct {
                    start,
                    punct: longer,
                };
                Ok(())
            }
            Growth::Dots => {
                self.piece.mode = Mode::TwoDots { start, second: at };
                Ok(())
            }
            Growth::OpensBlock => {
                self.piece.mode = Mode::Block {
                    start,
                    stage: BlockStage::Inside,
                };
                Ok(())
            }
            Growth::OpensLine => {
                self.piece.mode = Mode::LineComment {
                    stage: LineStage::Inside,
                };
                Ok(())
            }
            Growth::Ends => self.end_token(
                self.piece.line,
                TokenKind::Punct(punct),
                start,
                at,
                byte,
            ),
        }
    }

    /// Two dots become an ellipsis, or are two tokens before the byte.
    pub fn in_two_dots(
        &mut self,
        start: u64,
        second: u64,
        at: u64,
        byte: u8,
    ) -> Result<(), AllocError>
        requires { at < 2 ^ 63 }
        ensures ok { OnOk result (Follows self.old self.new (in_mode self.old.piece.line self.old.piece.before (Mode.TwoDots start second) self.old.text.1 at byte)) }
        ensures kept { IsKept self.old self.new }
    {
        if byte == b'.' {
            self.piece.mode = Mode::Punct {
                start,
                punct: Punct::Ellipsis,
            };
            Ok(())
        } else {
            push_token(
                &mut self.tokens,
                TokenKind::Punct(Punct::Dot),
                start,
                second,
            )?;
            self.end_token(
                with_token(self.piece.line),
                TokenKind::Punct(Punct::Dot),
                second,
                at,
                byte,
            )
        }
    }
}

impl Machine {
    pub fn new(alloc: Global) -> Self
        ensures state { state_of result ≡ start }
        ensures tokens { result.tokens ≡ ([], []) }
        ensures text { result.text ≡ ([], []) }
    {
        Machine {
            alloc,
            piece: OpenPiece {
                line: Line::Fresh,
                before: Before::Free,
                mode: Mode::Between,
            },
            text: HeldText::new(alloc),
            tokens: HeldTokens::new(alloc),
        }
    }

    /// One byte, at a place.
    fn step(&mut self, at: u64, byte: u8) -> Result<(), AllocError>
        requires { at < 2 ^ 63 }
        ensures ok { OnOk result (Follows self.old self.new (step (state_of self.old) at byte)) }
        ensures kept { IsKept self.old self.new }
    {
        match self.piece.mode {
            Mode::Between => self.begin(self.piece.line, self.piece.before, at, byte)?,
            Mode::Word { start } => self.in_word(start, at, byte)?,
            Mode::Number { start, last } => self.in_number(start, last, at, byte)?,
            Mode::Punct { start, punct } => self.in_punct(start, punct, at, byte)?,
            Mode::TwoDots { start, second } => self.in_two_dots(start, second, at, byte)?,
            Mode::Backslash { first } => self.in_backslash(first, byte),
            Mode::BackslashReturn { first } => self.in_backslash_return(first, byte),
            Mode::Joined { first } => self.in_joined(first, at, byte)?,
            Mode::JoinedBackslash { first, last } => self.in_joined_backslash(first, last, byte),
            Mode::JoinedReturn { first, last } => self.in_joined_return(first, last, byte),
            Mode::JoinedSlash { first, slash } => self.in_joined_slash(first, slash, byte),
            Mode::Block { start, stage } => self.in_block(start, stage, byte),
            Mode::LineComment { stage } => self.in_line(stage, at, byte)?,
            Mode::Faulted { kind, place } => self.fail(kind, place),
        }
        Ok(())
    }

    /// A piece of the text, whose first byte stands at a place. After an error only what was there before is known.
    pub fn take(&mut self, at: u64, piece: &[u8]) -> Result<(), AllocError>
        requires { at + length piece.now < 2 ^ 63 }
        ensures ok { OnOk result (Follows self.old self.new (run (state_of self.old) at piece.now)) }
        ensures kept { IsKept self.old self.new }
    {
        for (i, byte) in piece.iter().enumerate() {
            self.step(at + i as u64, *byte)?;
        }
        Ok(())
    }

    /// The piece is read.
    pub fn commit(&mut self)
        ensures state { state_of self.new ≡ state_of self.old }
        ensures tokens { self.new.tokens ≡ (self.old.tokens.0 ++ self.old.tokens.1, []) }
        ensures text { self.new.text ≡ (self.old.text.1, self.old.text.1) }
    {
        self.tokens.commit();
        self.text.commit();
    }

    /// The piece is not read, and the open piece is as it was before it.
    pub fn revert(&mut self, piece: OpenPiece)
        ensures piece { self.new.piece ≡ piece }
        ensures tokens { self.new.tokens ≡ (self.old.tokens.0, []) }
        ensures text { self.new.text ≡ (self.old.text.0, self.old.text.0) }
    {
        self.piece = piece;
        self.tokens.revert();
        self.text.revert();
    }
}
