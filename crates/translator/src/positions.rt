//! The line and the column of each place of a text.

ghost use Rattle.std.specs.Prelude.{◌≡◌, ℕ, List};
ghost use Rattle.c_tree.specs.Place.{line_at, column_at};
ghost use Rattle.c_lexer.specs.Lines.{MapsLines};

use c_lexer::line_map::LineMap;
use std::marker::Model;

/// The map of the lines of a text, and its length in bytes. Contracts see the map.
#[derive(Drop)]
pub struct Positions {
    lines: LineMap,
    length: u64,
}

impl Model for Positions {
    ghost use Rattle.std.specs.Prelude.{◌≡◌};
    ghost use Rattle.c_lexer.specs.Lines.{Lines};

    ghost Value = { Lines };

    ghost view = { λ positions. positions.lines };

    ghost invariant = { λ positions. positions.length ≡ positions.lines.count };
}

impl Positions {
    /// The positions in a text of this length.
    pub fn new(lines: LineMap, length: u64) -> Positions
        requires { length ≡ lines.count }
        ensures { result ≡ lines }
    {
        Positions { lines, length }
    }

    /// The line and the column of a place of the text, both counted from 1; of the text's end, where the place is past it.
    /// It takes no memory.
    pub fn line_col(&self, place: u64) -> (u64, u64)
        ensures line { (text : List ℕ) → MapsLines self.now text → result.0 ≡ line_at text place }
        ensures column { (text : List ℕ) → MapsLines self.now text → result.1 ≡ column_at text place }
    {
        self.lines.line_col(place.min(self.length))
    }
}
