//! A text as it comes in, piece by piece.

ghost use Rattle.std.specs.Prelude.{◌≡◌, ℕ, List, [], MatchResult};
ghost use Rattle.c_lexer.specs.Cut.{Cut, IsFault};
ghost use Rattle.c_lexer.specs.Lines.{MapsLines};
ghost use Rattle.translator.specs.Intake.{StandsFor};

use crate::positions::Positions;
use c_lexer::lexer::Lexer;
use c_lexer::line_map::LineMap;
use c_lexer::token::{LexFault, Token};
use outside_io::Taker;
use std::alloc::{AllocError, Global};
use std::marker::Model;

/// A text is taken by its lexer, which cuts it into tokens, and by a map of its lines. It isn't kept itself.
#[derive(Drop)]
pub struct Intake {
    lexer: Lexer,
    lines: LineMap,
    length: u64,
}

impl Model for Intake {
    ghost use Rattle.std.specs.Prelude.{◌≡◌};
    ghost use Rattle.translator.specs.Intake.{Taken};

    ghost Value = { Taken };

    ghost view = { λ intake. record { lexing = intake.lexer; lines = intake.lines } };

    ghost invariant = { λ intake. (intake.lexer.count ≡ intake.lines.count) × (intake.length ≡ intake.lines.count) };
}

impl Intake {
    /// An intake that stands for the empty text. It takes no memory.
    pub fn new(alloc: Global) -> Intake
        ensures stands { StandsFor result [] }
        ensures count { result.lexing.count ≡ 0 }
    {
        Intake {
            lexer: Lexer::new(alloc),
            lines: LineMap::new(alloc),
            length: 0,
        }
    }

    /// The tokens of the text that was taken, or its first lexical fault, and the positions of its places.
    pub fn finish(self) -> (Result<Vec<Token>, LexFault>, Positions)
        ensures cut { (text : List ℕ) → StandsFor self text → MatchResult result.0 (λ tokens. Cut text tokens.items) (IsFault text) }
        ensures positions { (text : List ℕ) → StandsFor self text → MapsLines result.1 text }
    {
        let Intake {
            lexer,
            lines,
            length,
        } = self;
        (lexer.finish(), Positions::new(lines, length))
    }
}

/// An intake takes a piece by making room in its map, feeding its lexer and then the map.
impl Taker for Intake {
    ghost count = { λ intake. intake.lexing.count };

    ghost stands_for = { StandsFor };

    fn take(&mut self, piece: &[u8]) -> Result<(), AllocError> {
        self.lines.room(piece)?;
        self.lexer.feed(piece)?;
        self.lines.feed(piece);
        self.length += piece.len() as u64;
        Ok(())
    }
}
