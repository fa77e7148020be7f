//! Texts that are translated.

use super::{NOTHING_FAILS, answer_to};
use crate::status::Status;
use std::test::Fail;

/// A loop from 0 to 4 that runs backwards.
pub const REVERSED_LOOP: &[u8] =
    b"void print(long long);\nint main(void) {\n#pragma omp reverse\nfor (int i = 0; i < 5; i++) print(i);\n}\n";

/// What it is translated to.
pub const REVERSED_LOOP_IN_PLAIN_C: &[u8] =
    b"extern void print(long long);\nint main(void) {\n    {\n        int omp_t0 = 0;\n        int omp_t1 = 5;\n        long long omp_t2 = omp_t0 < omp_t1 ? ((long long)omp_t1 - (long long)omp_t0 - 1LL) / 1LL + 1LL : 0LL;\n        for (long long omp_t4 = 0LL; omp_t4 < omp_t2; omp_t4++) {\n            long long omp_t3 = omp_t2 - 1LL - omp_t4;\n            int i = (int)((long long)omp_t0 + omp_t3 * 1LL);\n            {\n                print(i);\n            }\n        }\n    }\n    return 0;\n}\n";

/// The same loop from 5 to 4, which has no iteration.
const EMPTY_LOOP: &[u8] =
    b"void print(long long);\nint main(void) {\n#pragma omp reverse\nfor (int i = 5; i < 5; i++) print(i);\n}\n";

const EMPTY_LOOP_IN_PLAIN_C: &[u8] =
    b"extern void print(long long);\nint main(void) {\n    {\n        int omp_t0 = 5;\n        int omp_t1 = 5;\n        long long omp_t2 = omp_t0 < omp_t1 ? ((long long)omp_t1 - (long long)omp_t0 - 1LL) / 1LL + 1LL : 0LL;\n        for (long long omp_t4 = 0LL; omp_t4 < omp_t2; omp_t4++) {\n            long long omp_t3 = omp_t2 - 1LL - omp_t4;\n            int i = (int)((long long)omp_t0 + omp_t3 * 1LL);\n            {\n                print(i);\n            }\n        }\n    }\n    return 0;\n}\n";

/// A loop over a variable that stands outside, turned round twice.
const OUTER_LOOP: &[u8] =
    b"void print(long long);\nint main(void) {\nint i = 9;\n#pragma omp reverse apply(reversed: reverse)\nfor (i = 0; i < 3; i++) print(i);\nprint(i);\n}\n";

/// The variable of the loop is one of the block, which hides the other.
const OUTER_LOOP_IN_PLAIN_C: &[u8] =
    b"extern void print(long long);\nint main(void) {\n    int i = 9;\n    {\n        int omp_t0 = 0;\n        int omp_t1 = 3;\n        long long omp_t2 = omp_t0 < omp_t1 ? ((long long)omp_t1 - (long long)omp_t0 - 1LL) / 1LL + 1LL : 0LL;\n        for (long long omp_t5 = 0LL; omp_t5 < omp_t2; omp_t5++) {\n            long long omp_t4 = omp_t2 - 1LL - omp_t5;\n            long long omp_t3 = omp_t2 - 1LL - omp_t4;\n            int i = (int)((long long)omp_t0 + omp_t3 * 1LL);\n            {\n                print(i);\n            }\n        }\n    }\n    print(i);\n    return 0;\n}\n";

/// The first fresh name is the first that the text doesn't have.
const NAME_LIKE_A_FRESH_ONE: &[u8] =
    b"void print(long long);\nint main(void) {\nint omp_t0 = 9; int i = 9;\n#pragma omp reverse\nfor (i = 0; i < 2; i++) print(i + omp_t0);\nprint(i);\n}\n";

const NAME_LIKE_A_FRESH_ONE_IN_PLAIN_C: &[u8] =
    b"extern void print(long long);\nint main(void) {\n    int omp_t0 = 9;\n    int i = 9;\n    {\n        int omp_t1 = 0;\n        int omp_t2 = 2;\n        long long omp_t3 = omp_t1 < omp_t2 ? ((long long)omp_t2 - (long long)omp_t1 - 1LL) / 1LL + 1LL : 0LL;\n        for (long long omp_t5 = 0LL; omp_t5 < omp_t3; omp_t5++) {\n            long long omp_t4 = omp_t3 - 1LL - omp_t5;\n            int i = (int)((long long)omp_t1 + omp_t4 * 1LL);\n            {\n                print(i + omp_t0);\n            }\n        }\n    }\n    print(i);\n    return 0;\n}\n";

/// A program without a directive.
pub const PLAIN: &[u8] =
    b"#define N 3\nvoid print(long long x);\nint a[N], s = 2;\nint main() { int k; for (k = 0; k < N; k++) a[k] = k*(s+1); if (a[2] > 5) print(a[2]); else ; }\n";

/// Its printed form.
pub const PLAIN_PRINTED: &[u8] =
    b"#define N 3\nextern void print(long long);\nint a[N];\nint s = 2;\nint main(void) {\n    int k;\n    for (k = 0; k < N; k++) {\n        a[k] = k * (s + 1);\n    }\n    if (a[2] > 5) {\n        print(a[2]);\n    } else {\n        ;\n    }\n    return 0;\n}\n";

/// The product of two matrices, with CR LF at each line's end, one joined line and comments.
pub const KERNEL: &[u8] =
    b"#define N \\\r\n        16\r\nextern void print(long long);\r\nint a[N][N];\r\nint b[N][N];\r\nint c[N][N];\r\nint main(void)\r\n{\r\n    int i, j, k; /* counters */\r\n    for (i = 0; i < N; i++)\r\n        for (j = 0; j < N; j++) {\r\n            a[i][j] = i + j;\r\n            b[i][j] = i - j;\r\n        }\r\n    for (i = 0; i < N; i++)\r\n        for (j = 0; j < N; j++)\r\n            for (k = 0; k < N; k++)\r\n                c[i][j] += a[i][k] * b[k][j];\r\n    print(c[0][0]);   // first\r\n    print(c[N - 1][N - 1]);\r\n    return 0;\r\n}\r\n";

/// Its printed form.
pub const KERNEL_PRINTED: &[u8] =
    b"#define N 16\nextern void print(long long);\nint a[N][N];\nint b[N][N];\nint c[N][N];\nint main(void) {\n    int i;\n    int j;\n    int k;\n    for (i = 0; i < N; i++) {\n        for (j = 0; j < N; j++) {\n            a[i][j] = i + j;\n            b[i][j] = i - j;\n        }\n    }\n    for (i = 0; i < N; i++) {\n        for (j = 0; j < N; j++) {\n            for (k = 0; k < N; k++) {\n                c[i][j] += a[i][k] * b[k][j];\n            }\n        }\n    }\n    print(c[0][0]);\n    print(c[N - 1][N - 1]);\n    return 0;\n}\n";

/// The printed form translates to itself.
#[test]
fn writes_a_text_without_directives_in_its_printed_form(rt: HostRuntime) -> Result<(), Fail> {
    for (text, printed) in [
        (PLAIN, PLAIN_PRINTED),
        (PLAIN_PRINTED, PLAIN_PRINTED),
        (KERNEL_PRINTED, KERNEL_PRINTED),
    ] {
        let got = answer_to(rt.alloc(), &["translate"], text, &NOTHING_FAILS)?;
        assert_eq!(rt; got.status, Status::Done);
        assert_eq!(rt; got.out.as_slice(), printed);
        assert_eq!(rt; got.diag.len(), 0);
    }
    Ok(())
}

#[test]
fn writes_a_reversed_loop_in_plain_c(rt: HostRuntime) -> Result<(), Fail> {
    for (text, plain) in [
        (REVERSED_LOOP, REVERSED_LOOP_IN_PLAIN_C),
        (EMPTY_LOOP, EMPTY_LOOP_IN_PLAIN_C),
        (OUTER_LOOP, OUTER_LOOP_IN_PLAIN_C),
        (NAME_LIKE_A_FRESH_ONE, NAME_LIKE_A_FRESH_ONE_IN_PLAIN_C),
    ] {
        let got = answer_to(rt.alloc(), &["translate"], text, &NOTHING_FAILS)?;
        assert_eq!(rt; got.status, Status::Done);
        assert_eq!(rt; got.out.as_slice(), plain);
        assert_eq!(rt; got.diag.len(), 0);
    }
    Ok(())
}
