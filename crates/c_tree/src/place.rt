//! Places of a text as lines and columns.

ghost use Rattle.std.specs.Prelude.{◌≡◌, ◌≤◌, length};
ghost use Rattle.c_tree.specs.Place.{line_at, column_at};

/// The line and the column of a place, both counted from 1: the line is 1 plus the number of LF bytes before the
/// place, the column 1 plus the number of bytes since the last of them. The text's end is a place too.
#[tactic(auto, using(crate::proofs::Places::places))]
pub fn line_col(text: &[u8], place: u64) -> (u64, u64)
    requires { place ≤ length text.now }
    ensures line { result.0 ≡ line_at text.now place }
    ensures column { result.1 ≡ column_at text.now place }
{
    let before = &text[..place as usize];
    let mut line = 1;
    let mut column = 1;
    'each: for byte in before {
        if *byte == b'\n' {
            line += 1;
            column = 1;
        } else {
            column += 1;
        }
    }
    (line, column)
}
