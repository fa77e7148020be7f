//! Texts with directives, printed as they were read.

ghost use Rattle.std.specs.Prelude.{◌<◌, ◌^◌, length};

use c_lexer::lexer::lex;
use c_parser::program::parse;
use c_printer::printer::print;
use c_tree::height::height;
use pragma_grammar::expression::ends_text;
use std::alloc::Global;
use std::process::Abort;
use std::test::Fail;

const DIRECTIVE: &[u8] =
    b"void print(long long);\nint main(void) {\n#pragma omp tile, sizes(2+2, (1)), apply(grid(1):reverse)\nfor (int i = 0; i < 4; i++) for (int j = 0; j < 4; j++) ;\n}\n";

const DIRECTIVE_PRINTED: &[u8] =
    b"extern void print(long long);\nint main(void) {\n    #pragma omp tile sizes(2 + 2, 1) apply(grid(1): reverse)\n    for (int i = 0; i < 4; i++) {\n        for (int j = 0; j < 4; j++) {\n            ;\n        }\n    }\n    return 0;\n}\n";

/// The printed form of the program that the text spells, where it spells one.
fn printed(rt: &impl Abort, alloc: Global, text: &[u8]) -> Result<Vec<u8>, Fail>
    requires { length text.now < 2 ^ 63 }
{
    if let Ok(tokens) = lex(alloc, text) {
        assert!(rt; ends_text(tokens.as_slice()));
        if let Ok(program) = parse(alloc, tokens.as_slice()) {
            assert!(rt; height(&program) <= 256);
            return Ok(print(alloc, &program)?);
        }
    }
    Ok(Vec::new(alloc))
}

#[test]
fn a_directive_is_printed_in_its_form(rt: HostRuntime) -> Result<(), Fail> {
    for text in [DIRECTIVE, DIRECTIVE_PRINTED] {
        let bytes = printed(&rt, rt.alloc(), text)?;
        assert_eq!(rt; bytes.as_slice(), DIRECTIVE_PRINTED);
    }
    Ok(())
}
