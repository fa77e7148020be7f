//! The machine in runs of joins and in comments.

ghost use Rattle.std.specs.Prelude.{◌≡◌, ◌<◌, ◌^◌, OnOk};
ghost use Rattle.c_lexer.specs.Machine.{leaves_run, bad_backslash, block_stage, ends_block, line_stage, ends_line, in_mode};
ghost use Rattle.c_lexer.specs.Running.{Follows, IsKept};

use crate::class::is_blank;
use crate::context::Before;
use crate::machine::Machine;
use crate::mode::{BlockStage, LineStage, Mode};
use crate::token::LexKind;
use std::alloc::AllocError;

/// What stands directly before the place after a byte that doesn't end a block comment.
fn block_stage(stage: BlockStage, byte: u8) -> BlockStage
    ensures { result ≡ block_stage stage byte }
{
    match stage {
        BlockStage::Inside => if byte == b'*' {
            BlockStage::Star
        } else {
            BlockStage::Inside
        },
        BlockStage::Star => {
            if byte == b'*' {
                BlockStage::Star
            } else if byte == b'\\' {
                BlockStage::StarBackslash
            } else {
                BlockStage::Inside
            }
        }
        BlockStage::StarBackslash => {
            if byte == b'\n' {
                BlockStage::Star
            } else if byte == b'\r' {
                BlockStage::StarReturn
            } else if byte == b'*' {
                BlockStage::Star
            } else {
                BlockStage::Inside
            }
        }
        BlockStage::StarReturn => {
            if byte == b'\n' {
                BlockStage::Star
            } else if byte == b'*' {
                BlockStage::Star
            } else {
                BlockStage::Inside
            }
        }
    }
}

/// Does the byte end a block comment?
fn ends_block(stage: BlockStage, byte: u8) -> bool
    ensures { result ≡ ends_block stage byte }
{
    match stage {
        BlockStage::Star => byte == b'/',
        _ => false,
    }
}

/// What stands directly before the place after a byte of a line comment.
fn line_stage(stage: LineStage, byte: u8) -> LineStage
    ensures { result ≡ line_stage stage byte }
{
    match stage {
        LineStage::Inside => if byte == b'\\' {
            LineStage::Backslash
        } else {
            LineStage::Inside
        },
        LineStage::Backslash => {
            if byte == b'\\' {
                LineStage::Backslash
            } else if byte == b'\r' {
                LineStage::Return
            } else {
                LineStage::Inside
            }
        }
        LineStage::Return => if byte == b'\\' {
            LineStage::Backslash
        } else {
            LineStage::Inside
        },
    }
}

/// Does a line comment end before the byte?
fn ends_line(stage: LineStage, byte: u8) -> bool
    ensures { result ≡ ends_line stage byte }
{
    match stage {
        LineStage::Inside => byte == b'\n',
        _ => false,
    }
}

impl Machine {
    /// A backslash begins a join, or nothing.
    pub fn in_backslash(&mut self, first: u64, byte: u8)
        ensures follows { Follows self.old self.new (in_mode self.old.piece.line self.old.piece.before (Mode.Backslash first) self.old.text.1 0 byte) }
        ensures kept { IsKept self.old self.new }
    {
        if byte == b'\n' {
            self.piece.mode = Mode::Joined { first };
        } else if byte == b'\r' {
            self.piece.mode = Mode::BackslashReturn { first };
        } else {
            self.fail(LexKind::BadByte, first);
        }
    }

    pub fn in_backslash_return(&mut self, first: u64, byte: u8)
        ensures follows { Follows self.old self.new (in_mode self.old.piece.line self.old.piece.before (Mode.BackslashReturn first) self.old.text.1 0 byte) }
        ensures kept { IsKept self.old self.new }
    {
        if byte == b'\n' {
            self.piece.mode = Mode::Joined { first };
        } else {
            self.fail(LexKind::BadByte, first);
        }
    }

    /// A run of joins goes on, or ends before the byte.
    pub fn in_joined(&mut self, first: u64, at: u64, byte: u8) -> Result<(), AllocError>
        requires { at < 2 ^ 63 }
        ensures ok { OnOk result (Follows self.old self.new (in_mode self.old.piece.line self.old.piece.before (Mode.Joined first) self.old.text.1 at byte)) }
        ensures kept { IsKept self.old self.new }
    {
        if byte == b'\\' {
            self.piece.mode = Mode::JoinedBackslash { first, last: at };
            Ok(())
        } else {
            self.leave_run(first, at, byte)
        }
    }

    /// A run of joins ends before the byte, which is no backslash.
    fn leave_run(&mut self, first: u64, at: u64, byte: u8) -> Result<(), AllocError>
        requires { at < 2 ^ 63 }
        ensures ok { OnOk result (Follows self.old self.new (leaves_run self.old.piece.line self.old.piece.before first at byte)) }
        ensures kept { IsKept self.old self.new }
    {
        match self.piece.before {
            Before::Free => self.begin(self.piece.line, Before::Free, at, byte),
            Before::Solid => {
                if is_blank(byte) || byte == b'\n' {
                    self.begin(self.piece.line, Before::Solid, at, byte)
                } else if byte == b'/' {
                    self.piece.mode = Mode::JoinedSlash { first, slash: at };
                    Ok(())
                } else {
                    self.fail(LexKind::SplitToken, first);
                    Ok(())
                }
            }
            Before::Slash => {
                if is_blank(byte) || byte == b'\n' {
                    self.begin(self.piece.line, Before::Slash, at, byte)
                } else {
                    self.fail(LexKind::SplitToken, first);
                    Ok(())
                }
            }
        }
    }

    /// A run of joins ends before a backslash at `last` that begins no join.
    fn end_run(&mut self, first: u64, last: u64)
        ensures follows { Follows self.old self.new (bad_backslash self.old.piece.before first last) }
        ensures kept { IsKept self.old self.new }
    {
        match self.piece.before {
            Before::Free => self.fail(LexKind::BadByte, last),
            Before::Solid => self.fail(LexKind::SplitToken, first),
            Before::Slash => self.fail(LexKind::SplitToken, first),
        }
    }

    pub fn in_joined_backslash(&mut self, first: u64, last: u64, byte: u8)
        ensures follows { Follows self.old self.new (in_mode self.old.piece.line self.old.piece.before (Mode.JoinedBackslash first last) self.old.text.1 0 byte) }
        ensures kept { IsKept self.old self.new }
    {
        if byte == b'\n' {
            self.piece.mode = Mode::Joined { first };
        } else if byte == b'\r' {
            self.piece.mode = Mode::JoinedReturn { first, last };
        } else {
            self.end_run(first, last);
        }
    }

    pub fn in_joined_return(&mut self, first: u64, last: u64, byte: u8)
        ensures follows { Follows self.old self.new (in_mode self.old.piece.line self.old.piece.before (Mode.JoinedReturn first last) self.old.text.1 0 byte) }
        ensures kept { IsKept self.old self.new }
    {
        if byte == b'\n' {
            self.piece.mode = Mode::Joined { first };
        } else {
            self.end_run(first, last);
        }
    }

    /// After a run that asks for white space or a comment, a `/` begins a comment, or the run is a fault.
    pub fn in_joined_slash(&mut self, first: u64, slash: u64, byte: u8)
        ensures follows { Follows self.old self.new (in_mode self.old.piece.line self.old.piece.before (Mode.JoinedSlash first slash) self.old.text.1 0 byte) }
        ensures kept { IsKept self.old self.new }
    {
        if byte == b'*' {
            self.piece.mode = Mode::Block {
                start: slash,
                stage: BlockStage::Inside,
            };
        } else if byte == b'/' {
            self.piece.mode = Mode::LineComment {
                stage: LineStage::Inside,
            };
        } else {
            self.fail(LexKind::SplitToken, first);
        }
    }

    /// A block comment goes on, or ends with the byte.
    pub fn in_block(&mut self, start: u64, stage: BlockStage, byte: u8)
        ensures follows { Follows self.old self.new (in_mode self.old.piece.line self.old.piece.before (Mode.Block start stage) self.old.text.1 0 byte) }
        ensures kept { IsKept self.old self.new }
    {
        if ends_block(stage, byte) {
            self.piece.before = Before::Free;
            self.piece.mode = Mode::Between;
        } else {
            self.piece.mode = Mode::Block {
                start,
                stage: block_stage(stage, byte),
            };
        }
    }

    /// A line comment goes on, or ends before the byte.
    pub fn in_line(&mut self, stage: LineStage, at: u64, byte: u8) -> Result<(), AllocError>
        requires { at < 2 ^ 63 }
        ensures ok { OnOk result (Follows self.old self.new (in_mode self.old.piece.line self.old.piece.before (Mode.LineComment stage) self.old.text.1 at byte)) }
        ensures kept { IsKept self.old self.new }
    {
        if ends_line(stage, byte) {
            self.begin(self.piece.line, Before::Free, at, byte)
        } else {
            self.piece.mode = Mode::LineComment {
                stage: line_stage(stage, byte),
            };
            Ok(())
        }
    }
}
