//! Words, and streams that fail.

use super::translations::{
    KERNEL, KERNEL_PRINTED, PLAIN, PLAIN_PRINTED, REVERSED_LOOP, REVERSED_LOOP_IN_PLAIN_C,
};
use super::{
    Failing, NOTHING_FAILS, answer_at_once, answer_in_pieces, answer_to, in_main, word_list,
};
use crate::status::{Status, exit_code};
use std::alloc::{AllocError, Global};
use std::test::Fail;

#[test]
fn tells_the_usage_for_other_words(rt: HostRuntime) -> Result<(), Fail> {
    let lists: [&[&str]; 22] = [
        &[],
        &[""],
        &["translate", "x"],
        &["Translate"],
        &["translate "],
        &["run"],
        &["run", ""],
        &["run", "-1"],
        &["run", "-0"],
        &["run", "+1"],
        &["run", "1 "],
        &["run", "0x1"],
        &["run", "18446744073709551616"],
        &["run", "5", ""],
        &["run", "5", "-"],
        &["run", "5", "+1"],
        &["run", "5", "--1"],
        &["run", "5", "9223372036854775808"],
        &["run", "5", "-9223372036854775809"],
        &["run", "5", "1", "x"],
        &["order", "0"],
        &["grow", "1", "301"],
    ];
    for words in lists {
        // The first read fails, and isn't made.
        let failing = Failing {
            reads: &[1],
            out_writes: &[],
            diag_writes: &[],
        };
        let got = answer_to(rt.alloc(), words, REVERSED_LOOP, &failing)?;
        assert_eq!(rt; exit_code(got.status), 2);
        assert_eq!(rt; got.out.len(), 0);
        assert_eq!(rt;
            got.diag.as_slice(),
            b"usage: loopx translate | run BOUND [NUMBER ...]\n".as_slice()
        );
    }
    Ok(())
}

/// 150 bytes are 50 reads of 3, and one more tells the end.
#[test]
fn stops_at_each_failing_read(rt: HostRuntime) -> Result<(), Fail> {
    for number in 1..53u64 {
        let failing = Failing {
            reads: &[number],
            out_writes: &[],
            diag_writes: &[],
        };
        let got = answer_to(rt.alloc(), &["translate"], PLAIN, &failing)?;
        if number < 52 {
            assert_eq!(rt; exit_code(got.status), 3, "at read {number}");
            assert_eq!(rt; got.out.len(), 0);
            assert_eq!(rt; got.diag.as_slice(), b"read failed\n".as_slice());
        } else {
            assert_eq!(rt; got.status, Status::Done);
        }
    }
    Ok(())
}

/// A failing read comes before the fault of what was read.
#[test]
fn tells_a_failing_read_after_a_faulty_byte(rt: HostRuntime) -> Result<(), Fail> {
    let failing = Failing {
        reads: &[2],
        out_writes: &[],
        diag_writes: &[],
    };
    let got = answer_to(rt.alloc(), &["translate"], b"@", &failing)?;
    assert_eq!(rt; exit_code(got.status), 3);
    assert_eq!(rt; got.out.len(), 0);
    assert_eq!(rt; got.diag.as_slice(), b"read failed\n".as_slice());
    Ok(())
}

#[test]
fn keeps_a_first_part_at_each_failing_write(rt: HostRuntime) -> Result<(), Fail> {
    let writes = PLAIN_PRINTED.len().div_ceil(5) as u64;
    for number in 1..writes + 2 {
        let failing = Failing {
            reads: &[],
            out_writes: &[number],
            diag_writes: &[],
        };
        let got = answer_to(rt.alloc(), &["translate"], PLAIN, &failing)?;
        if number <= writes {
            assert_eq!(rt; exit_code(got.status), 4, "at write {number}");
            assert_eq!(rt; got.out.len() as u64, 5 * (number - 1));
        } else {
            assert_eq!(rt; got.status, Status::Done);
        }
        assert!(rt; PLAIN_PRINTED.starts_with(got.out.as_slice()));
        assert_eq!(rt; got.diag.len(), 0);
    }
    Ok(())
}

/// A run that prints two lines and is trapped.
const TRAPPED: &str = "int x; print(11); print(22); print(x);";

#[test]
fn keeps_a_first_part_of_the_lines_of_a_run(rt: HostRuntime) -> Result<(), Fail> {
    let text = in_main(rt.alloc(), TRAPPED)?;
    for number in [1, 2] {
        let failing = Failing {
            reads: &[],
            out_writes: &[number],
            diag_writes: &[],
        };
        let got = answer_to(rt.alloc(), &["run", "1"], text.as_bytes(), &failing)?;
        assert_eq!(rt; exit_code(got.status), 4, "at write {number}");
        assert!(rt; got.out.len() < 6);
        assert!(rt; b"11\n22\n".starts_with(got.out.as_slice()));
        assert_eq!(rt; got.diag.len(), 0);
    }
    Ok(())
}

#[test]
fn keeps_the_lines_before_a_trap_that_cannot_be_told(rt: HostRuntime) -> Result<(), Fail> {
    let text = in_main(rt.alloc(), TRAPPED)?;
    for number in [1, 2, 3] {
        let failing = Failing {
            reads: &[],
            out_writes: &[],
            diag_writes: &[number],
        };
        let got = answer_to(rt.alloc(), &["run", "1"], text.as_bytes(), &failing)?;
        assert_eq!(rt; exit_code(got.status), 4, "at write {number}");
        assert_eq!(rt; got.out.as_slice(), b"11\n22\n".as_slice());
        assert!(rt; b"trap Unset\n".starts_with(got.diag.as_slice()));
    }
    Ok(())
}

/// The line of a refusal has 29 bytes, 6 writes of at most 5.
#[test]
fn keeps_a_first_part_of_a_line_at_each_failing_write(rt: HostRuntime) -> Result<(), Fail> {
    for number in 1..8u64 {
        let failing = Failing {
            reads: &[],
            out_writes: &[],
            diag_writes: &[number],
        };
        let got = answer_to(rt.alloc(), &["translate"], b"", &failing)?;
        let want = if number < 7 {
            Status::WriteFault
        } else {
            Status::Refused
        };
        assert_eq!(rt; got.status, want, "at write {number}");
        assert!(rt; b"1:1: Syntax unexpected token\n".starts_with(got.diag.as_slice()));
        assert_eq!(rt; got.out.len(), 0);
    }
    Ok(())
}

/// A text and as many spaces as make it so long.
fn filled(alloc: Global, text: &[u8], length: usize) -> Result<Vec<u8>, AllocError> {
    let mut filled = Vec::from_slice(alloc, text)?;
    filled.resize(length, 32)?;
    Ok(filled)
}

#[test]
fn reads_texts_of_at_most_two_to_the_24_bytes(rt: HostRuntime) -> Result<(), Fail> {
    let alloc = rt.alloc();
    let rows: [(usize, u8, &[u8], &[u8]); 2] = [
        (1 << 24, 0, PLAIN_PRINTED, b""),
        ((1 << 24) + 1, 6, b"", b"text too long\n"),
    ];
    for (length, code, written, told) in rows {
        let words = word_list(alloc, &["translate"])?;
        let text = filled(alloc, PLAIN, length)?;
        let got = answer_at_once(alloc, words.as_slice(), text, 512)?;
        assert_eq!(rt; exit_code(got.status), code);
        assert_eq!(rt; got.out.as_slice(), written);
        assert_eq!(rt; got.diag.as_slice(), told);
    }
    Ok(())
}

/// Words and a text, and the exit status, what is written and what is told.
type Row = (
    &'static [&'static str],
    &'static [u8],
    u8,
    &'static [u8],
    &'static [u8],
);

/// A loop whose body assigns its variable.
const CHANGED_VARIABLE: &[u8] =
    b"int main(void) {\n#pragma omp reverse\nfor (int i = 0; i < 5; i++) i++;\n}\n";

#[test]
fn answers_alike_however_the_source_is_cut(rt: HostRuntime) -> Result<(), Fail> {
    let rows: [Row; 5] = [
        (&["translate"], KERNEL, 0, KERNEL_PRINTED, b""),
        (
            &["translate"],
            REVERSED_LOOP,
            0,
            REVERSED_LOOP_IN_PLAIN_C,
            b"",
        ),
        (
            &["translate"],
            CHANGED_VARIABLE,
            1,
            b"",
            b"3:29: L5 loop variable changed\n",
        ),
        (&["run", "5"], REVERSED_LOOP, 0, b"4\n3\n2\n1\n0\n", b""),
        (&["run", "4"], REVERSED_LOOP, 8, b"4\n3\n2\n1\n", b"cut\n"),
    ];
    for (words, text, code, written, told) in rows {
        for most in [1, 2, 3, 64] {
            assert!(rt; most >= 1);
            let got = answer_in_pieces(rt.alloc(), words, text, most, &NOTHING_FAILS)?;
            assert_eq!(rt; exit_code(got.status), code, "by {most}");
            assert_eq!(rt; got.out.as_slice(), written, "by {most}");
            assert_eq!(rt; got.diag.as_slice(), told, "by {most}");
        }
    }
    Ok(())
}

/// The text has 54 bytes, and the fault is found wherever its first piece ends.
#[test]
fn tells_a_split_token_however_the_source_is_cut(rt: HostRuntime) -> Result<(), Fail> {
    let text = in_main(rt.alloc(), "pr\\\nint(1);")?;
    for most in 1..55 {
        assert!(rt; most >= 1);
        let got = answer_in_pieces(
            rt.alloc(),
            &["translate"],
            text.as_bytes(),
            most,
            &NOTHING_FAILS,
        )?;
        let line = b"3:3: SplitToken line join without white space\n";
        assert_eq!(rt; got.diag.as_slice(), line.as_slice(), "by {most}");
    }
    Ok(())
}

/// Tells each number that isn't the next one from 0, and then the sum.
const COUNTING: &[u8] =
    b"void print(long long);\nlong long input(void);\nint s;\nint main(void) {\nfor (int i = 0; i < 10000; i++) { int n = input(); if (n != i) print(n); s += n; }\nprint(s);\n}\n";

#[test]
fn takes_ten_thousand_numbers_in_their_order(rt: HostRuntime) -> Result<(), Fail> {
    let alloc = rt.alloc();
    let mut words = word_list(alloc, &["run", "10000"])?;
    for number in 0..10_000u64 {
        words.push(format!(in alloc; "{number}")?)?;
    }
    let text = Vec::from_slice(alloc, COUNTING)?;
    let got = answer_at_once(alloc, words.as_slice(), text, 64)?;
    assert_eq!(rt; got.out.as_slice(), b"49995000\n".as_slice());
    assert_eq!(rt; got.status, Status::Done);
    Ok(())
}
