//! Texts whose parts stand in one another, up to the greatest height, above it and far above it.

use super::{answer_at_once, in_main, word_list};
use crate::status::Status;
use std::alloc::{AllocError, Global};
use std::test::Fail;

/// What stands in `main`, with two parts that are repeated, and the line that the text is refused with; none where it is
/// translated.
type Row = (
    &'static str,
    Times,
    &'static str,
    Times,
    &'static str,
    &'static str,
);

/// A part, and how often it stands there.
type Times = (&'static str, usize);

const NESTS: [Row; 20] = [
    // A literal has height 1, and each sign, `print` and `main` one more.
    ("print(", ("- ", 253), "1", ("", 0), ");", ""),
    (
        "print(",
        ("- ", 254),
        "1",
        ("", 0),
        ");",
        "2:1: TooDeep nested too deeply\n",
    ),
    (
        "print(",
        ("- ", 254),
        "x",
        ("", 0),
        ");",
        "2:1: TooDeep nested too deeply\n",
    ),
    // A block without a statement has height 1, and each block round it and `main` one more.
    ("", ("{", 100), "", ("}", 100), "", ""),
    ("", ("{", 255), "", ("}", 255), "", ""),
    (
        "",
        ("{", 256),
        "",
        ("}", 256),
        "",
        "2:1: TooDeep nested too deeply\n",
    ),
    (
        "",
        ("{", 257),
        "",
        ("}", 257),
        "",
        "3:1: TooDeep nested too deeply\n",
    ),
    (
        "",
        ("{", 300),
        "",
        ("}", 300),
        "",
        "3:44: TooDeep nested too deeply\n",
    ),
    (
        "",
        ("{", 300),
        "",
        ("}", 299),
        "",
        "5:1: Syntax unexpected token\n",
    ),
    (
        "",
        ("{", 100_000),
        "",
        ("}", 100_000),
        "",
        "3:99744: TooDeep nested too deeply\n",
    ),
    // The 256 last of the words `if`, of seven bytes each with what follows, have heights 2 to 257.
    (
        "",
        ("if (1) ", 20_000),
        ";",
        ("", 0),
        "",
        "3:138209: TooDeep nested too deeply\n",
    ),
    // Parentheses add no height.
    ("print(", ("(", 100_000), "1", (")", 100_000), ");", ""),
    // The construct has tall height 17, and `main` and 238 blocks add 239.
    ("", ("{", 238), REVERSED, ("}", 238), "", ""),
    (
        "",
        ("{", 239),
        REVERSED,
        ("}", 239),
        "",
        "4:13: L26 result too deep\n",
    ),
    // A loop of height 3 has 14 more with each `reverse` over it; 18 of them and `main` make 256.
    ("", (REVERSE, 18), LOOP, ("", 0), "", ""),
    (
        "{",
        (REVERSE, 18),
        LOOP,
        ("}", 1),
        "",
        "4:13: L26 result too deep\n",
    ),
    (
        "",
        (REVERSE, 19),
        LOOP,
        ("", 0),
        "",
        "4:13: L26 result too deep\n",
    ),
    // An item has 13 more, and 18 of them in one another the height 18.
    (
        "{{\n#pragma omp reverse",
        (" apply(reverse", 17),
        "",
        (")", 17),
        "\nfor (int i = 0; i < 2; i++) print(i); }}",
        "",
    ),
    (
        "{{{\n#pragma omp reverse",
        (" apply(reverse", 17),
        "",
        (")", 17),
        "\nfor (int i = 0; i < 2; i++) print(i); }}}",
        "4:13: L26 result too deep\n",
    ),
    (
        "#pragma omp reverse",
        (" apply(reverse", 18),
        "",
        (")", 18),
        "\nfor (int i = 0; i < 2; i++) print(i);",
        "3:13: L26 result too deep\n",
    ),
];

const REVERSE: &str = "\n#pragma omp reverse";

const LOOP: &str = "\nfor (int i = 0; i < 2; i++) print(i);\n";

const REVERSED: &str = "\n#pragma omp reverse\nfor (int i = 0; i < 2; i++) print(i);\n";

fn push_times(text: &mut String, times: Times) -> Result<(), AllocError> {
    for _ in 0..times.1 {
        text.push_str(times.0)?;
    }
    Ok(())
}

/// The program whose `main` is the row's.
fn nested(alloc: Global, row: &Row) -> Result<String, AllocError> {
    let mut lines = String::from_str(alloc, row.0)?;
    push_times(&mut lines, row.1)?;
    lines.push_str(row.2)?;
    push_times(&mut lines, row.3)?;
    lines.push_str(row.4)?;
    in_main(alloc, lines.as_str())
}

#[test]
fn a_program_has_at_most_height_256(rt: HostRuntime) -> Result<(), Fail> {
    for row in &NESTS {
        let text = nested(rt.alloc(), row)?;
        let words = word_list(rt.alloc(), &["translate"])?;
        let got = answer_at_once(rt.alloc(), words.as_slice(), text.into_bytes(), 1 << 20)?;
        let want = if row.5.is_empty() {
            Status::Done
        } else {
            Status::Refused
        };
        assert_eq!(rt; got.status, want, "{row:?}");
        assert_eq!(rt; got.diag.as_slice(), row.5.as_bytes(), "{row:?}");
    }
    Ok(())
}
