//! Texts that are refused, each with the line that says why.

use super::{NOTHING_FAILS, answer_to, in_main};
use crate::status::Status;
use std::test::Fail;

/// Whole texts.
const TEXTS: [(&str, &str); 13] = [
    ("@", "1:1: BadByte byte not allowed here\n"),
    ("a #", "1:3: BadByte byte not allowed here\n"),
    ("09", "1:1: BadNumber not a number of this profile\n"),
    (
        "0x80000000",
        "1:1: BadNumber not a number of this profile\n",
    ),
    ("0xE+1", "1:1: BadNumber not a number of this profile\n"),
    (
        "int main(void) { /* x",
        "1:18: OpenComment comment without an end\n",
    ),
    ("", "1:1: Syntax unexpected token\n"),
    ("int main(void) { for (", "1:23: Syntax unexpected token\n"),
    (
        "int main(void) {\n#pragma omp tile sizes(4\n",
        "2:25: Syntax unexpected token\n",
    ),
    (
        "int main(void) {\n#pragma omp parallel for\n;}",
        "2:13: Outside not in this profile\n",
    ),
    (
        "int float;\nint main(void) {}",
        "1:5: Outside not in this profile\n",
    ),
    (
        "static void f(void) { f(); }\nint main(void) {}",
        "1:23: N1 undeclared name\n",
    ),
    (
        "int main(void) {} int x;",
        "1:19: Syntax unexpected token\n",
    ),
];

/// Lines of `main`.
const LINES: [(&str, &str); 9] = [
    (
        "pr\\\nint(1);",
        "3:3: SplitToken line join without white space\n",
    ),
    (
        "#pragma omp stripe sizes(2)\nfor (int i = 0; i < 4; i++) ;",
        "3:13: Outside not in this profile\n",
    ),
    (
        "#pragma omp tile sizes(2) collapse(2)\nfor (int i = 0; i < 4; i++) ;",
        "3:27: Outside not in this profile\n",
    ),
    (
        "#pragma omp tile sizes(0)\nfor (int i = 0; i < 4; i += 0) { if (i) break; }\nprint();",
        "5:7: Syntax unexpected token\n",
    ),
    // No rule is broken; an item, and a directive in the body, aren't carried out yet.
    (
        "int i;\n#pragma omp reverse apply(nothing) apply(unroll)\nfor (i = 0; i < 4; i++) ;",
        "4:42: NotBuilt not built yet\n",
    ),
    (
        "#pragma omp reverse\nfor (int i = 0; i < 4; i++) {\n#pragma omp unroll\nfor (int j = 0; j < 4; j++) ;\n}",
        "5:13: NotBuilt not built yet\n",
    ),
    ("print(x);", "3:7: N1 undeclared name\n"),
    ("int x; int x;", "3:12: N2 name declared twice\n"),
    ("break;", "3:1: N6 break outside a loop\n"),
];

#[test]
fn refuses_a_text_by_its_first_fault(rt: HostRuntime) -> Result<(), Fail> {
    for (text, line) in TEXTS {
        let got = answer_to(rt.alloc(), &["translate"], text.as_bytes(), &NOTHING_FAILS)?;
        assert_eq!(rt; got.status, Status::Refused, "{text}");
        assert_eq!(rt; got.out.len(), 0);
        assert_eq!(rt; got.diag.as_slice(), line.as_bytes(), "{text}");
    }
    Ok(())
}

#[test]
fn refuses_lines_of_main_by_their_first_fault(rt: HostRuntime) -> Result<(), Fail> {
    for (lines, line) in LINES {
        let text = in_main(rt.alloc(), lines)?;
        let got = answer_to(rt.alloc(), &["translate"], text.as_bytes(), &NOTHING_FAILS)?;
        assert_eq!(rt; got.status, Status::Refused, "{lines}");
        assert_eq!(rt; got.out.len(), 0);
        assert_eq!(rt; got.diag.as_slice(), line.as_bytes(), "{lines}");
    }
    Ok(())
}
