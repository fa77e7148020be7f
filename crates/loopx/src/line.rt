//! The lines that tell refusals, `LINE:COL: CODE TEXT`, and traps, `trap NAME`.

ghost use Rattle.std.specs.Prelude.{◌≡◌, ℕ, List, IfOk};
ghost use Rattle.c_lexer.specs.Lines.{MapsLines};
ghost use Rattle.loopx.specs.Lines.{lexical_text, syntax_text, name_text, loop_text, refusal_text, refusal_place, position_line, refusal_line, trap_line};

use c_lexer::token::LexKind;
use c_tree::arithmetic::Trap;
use c_tree::name_rule::NameRule;
use canonical_nests::rules::LoopRule;
use itoa::Buffer;
use pragma_grammar::phrase::ParseKind;
use std::alloc::{AllocError, Global};
use translator::positions::Positions;
use translator::refusal::Refusal;

fn lexical(kind: LexKind) -> &'static [u8]
    ensures { result.now ≡ lexical_text kind }
{
    match kind {
        LexKind::BadByte => b"BadByte byte not allowed here",
        LexKind::OpenComment => b"OpenComment comment without an end",
        LexKind::BadNumber => b"BadNumber not a number of this profile",
        LexKind::SplitToken => b"SplitToken line join without white space",
    }
}

fn syntax(kind: ParseKind) -> &'static [u8]
    ensures { result.now ≡ syntax_text kind }
{
    match kind {
        ParseKind::Syntax => b"Syntax unexpected token",
        ParseKind::Outside => b"Outside not in this profile",
        ParseKind::TooDeep => b"TooDeep nested too deeply",
    }
}

fn name(rule: NameRule) -> &'static [u8]
    ensures { result.now ≡ name_text rule }
{
    match rule {
        NameRule::N1 => b"N1 undeclared name",
        NameRule::N2 => b"N2 name declared twice",
        NameRule::N3 => b"N3 wrong number of subscripts",
        NameRule::N4 => b"N4 constant assigned",
        NameRule::N5 => b"N5 bad dimension",
        NameRule::N6 => b"N6 break outside a loop",
        NameRule::N7 => b"N7 continue outside a loop",
        NameRule::N8 => b"N8 arrays too large",
        NameRule::N9 => b"N9 bad initial value",
        NameRule::N10 => b"N10 function name misused",
        NameRule::N11 => b"N11 wrong number of arguments",
        NameRule::N12 => b"N12 calls nested too deeply",
    }
}

fn loops(rule: LoopRule) -> &'static [u8]
    ensures { result.now ≡ loop_text rule }
{
    match rule {
        LoopRule::L1 => b"L1 not a loop",
        LoopRule::L2 => b"L2 init is not canonical",
        LoopRule::L3 => b"L3 test is not canonical",
        LoopRule::L4 => b"L4 increment is not canonical",
        LoopRule::L5 => b"L5 loop variable changed",
        LoopRule::L6 => b"L6 bound is not invariant",
        LoopRule::L7 => b"L7 too few perfectly nested loops",
        LoopRule::L8 => b"L8 bounds depend on another affected loop",
        LoopRule::L9 => b"L9 break leaves an affected loop",
        LoopRule::L10 => b"L10 size is not a positive constant",
        LoopRule::L11 => b"L11 clause is missing",
        LoopRule::L12 => b"L12 clause repeated or excluded",
        LoopRule::L13 => b"L13 clause does not belong here",
        LoopRule::L14 => b"L14 not a permutation",
        LoopRule::L15 => b"L15 factor is not a positive constant",
        LoopRule::L16 => b"L16 full without a constant count",
        LoopRule::L17 => b"L17 omp_fill must stand once",
        LoopRule::L18 => b"L18 count is not a constant of at least 0",
        LoopRule::L19 => b"L19 range outside the sequence",
        LoopRule::L20 => b"L20 sequence member is not a loop",
        LoopRule::L21 => b"L21 more than one loop",
        LoopRule::L22 => b"L22 no loop left",
        LoopRule::L23 => b"L23 wrong apply modifier or item",
        LoopRule::L24 => b"L24 more items than loops",
        LoopRule::L25 => b"L25 bad apply index",
        LoopRule::L26 => b"L26 result too deep",
        LoopRule::L27 => b"L27 result too large",
        LoopRule::L28 => b"L28 function not allowed here",
    }
}

/// The code and the text of a refusal, and its place. Want of memory has neither.
fn said(refusal: Refusal) -> (&'static [u8], u64)
    ensures { (result.0.now ≡ refusal_text refusal) × (result.1 ≡ refusal_place refusal) }
{
    match refusal {
        Refusal::Lex(kind, place) => (lexical(kind), place),
        Refusal::Parse(kind, place) => (syntax(kind), place),
        Refusal::Names(rule, place) => (name(rule), place),
        Refusal::Loops(rule, place) => (loops(rule), place),
        Refusal::NotBuilt(place) => (b"NotBuilt not built yet", place),
        Refusal::Memory => (b"", 0),
    }
}

/// A line with a position.
fn with_position(alloc: Global, line: u64, column: u64, text: &[u8]) -> Result<Vec<u8>, AllocError>
    ensures { IfOk result (λ bytes. bytes.items ≡ position_line line column text.now) }
{
    let mut buffer = Buffer::new();
    let mut bytes = Vec::from_slice(alloc, buffer.format(line).as_bytes())?;
    bytes.push(b':')?;
    bytes.extend_from_slice(buffer.format(column).as_bytes())?;
    bytes.extend_from_slice(b": ")?;
    bytes.extend_from_slice(text)?;
    bytes.push(b'\n')?;
    Ok(bytes)
}

/// The line that tells a refusal of the text with these positions.
pub fn refused(
    alloc: Global,
    positions: &Positions,
    refusal: Refusal,
) -> Result<Vec<u8>, AllocError>
    ensures { (text : List ℕ) → MapsLines positions.now text → IfOk result (λ bytes. bytes.items ≡ refusal_line text refusal) }
{
    let (text, place) = said(refusal);
    let (line, column) = positions.line_col(place);
    with_position(alloc, line, column, text)
}

/// The line that tells a trap.
pub fn trapped(trap: Trap) -> &'static [u8]
    ensures { result.now ≡ trap_line trap }
{
    match trap {
        Trap::Overflow => b"trap Overflow\n",
        Trap::DivideByZero => b"trap DivideByZero\n",
        Trap::Index => b"trap Index\n",
        Trap::Unset => b"trap Unset\n",
        Trap::Narrow => b"trap Narrow\n",
        Trap::InputEnd => b"trap InputEnd\n",
    }
}
