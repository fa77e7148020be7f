//! The automaton that reads directives: what a token does to the open `apply` clauses, which stand in one list.

ghost use Rattle.std.specs.Prelude.{◌≡◌, [], List, Some, IfOk};
ghost use Rattle.c_tree.specs.Bare.{Name};
ghost use Rattle.pragma_grammar.specs.DirectiveMachine as machine;
ghost use Rattle.pragma_grammar.specs.DirectiveKept.{keeps, both};
ghost use Rattle.pragma_grammar.specs.DirectiveTrees.{add_item};
ghost use Rattle.pragma_grammar.specs.Words.{is_nothing, kind_of};
ghost use Rattle.pragma_grammar.specs.DirectiveStands.{KeptOpen, marked, part_of, open_of, opens, stands, came, exprs_of, directive_of, item_of, step};

use crate::directive_arguments::{added, first_element, have_step, no_exprs, want_step};
use crate::directive_kept::{Kept, acts, add_clause, add_item, apply, directive, plain};
use crate::directive_state::{Asked, Lists, Mark, Move, Open, Part, State};
use crate::operand::spanning;
use crate::words::{ClauseWord, clause_of, is_nothing, kind_of};
use c_tree::items::Items;
use c_tree::name::Name;
use c_tree::tree::{ApplyItem, ClauseKind, Directive, ExprList, Kind, Span};
use std::alloc::{AllocError, Global};

fn new_part(alloc: Global, kind: Kind, at: Span) -> Part
    ensures { part_of result ≡ machine.new_part keeps kind at }
{
    Part {
        kind,
        at,
        clauses: Kept::Whole {
            tree: Items::new(alloc),
            height: 0,
        },
    }
}

fn new_open(
    alloc: Global,
    at: Span,
    part: Part,
    modifier: Option<Name>,
    indices: Kept<ExprList>,
) -> Open
    ensures { open_of result ≡ machine.new_open keeps at (part_of part) modifier (exprs_of indices) }
{
    Open {
        part,
        at,
        modifier,
        indices,
        items: Kept::Whole {
            tree: Items::new(alloc),
            height: 0,
        },
    }
}

/// The directive, whose last token stands at `last`.
fn made(part: Part, last: Span) -> Kept<Directive>
    ensures { directive_of result ≡ machine.made keeps (part_of part) last }
{
    let span = spanning(part.at, last);
    directive(part.kind, part.clauses, span)
}

/// The `apply` clause is closed at `place`.
fn close_apply(outer: Open, place: Span) -> Result<Move, AllocError>
    ensures { IfOk result (λ m. (k : List KeptOpen) → came m k ≡ machine.close_apply keeps (open_of outer) place k) }
{
    let Open {
        part,
        at,
        modifier,
        indices,
        items,
    } = outer;
    added(part, apply(modifier, indices, items), spanning(at, place))
}

fn with_item(outer: Open, item: Kept<ApplyItem>) -> Result<Open, AllocError>
    ensures { IfOk result (λ r. open_of r ≡ machine.with_items keeps (open_of outer) (both add_item (open_of outer).items (item_of item))) }
{
    let Open {
        part,
        at,
        modifier,
        indices,
        items,
    } = outer;
    Ok(Open {
        part,
        at,
        modifier,
        indices,
        items: add_item(items, item)?,
    })
}

/// The word of a clause.
fn word_read(alloc: Global, word: ClauseWord, at: Span, part: Part) -> Result<Move, AllocError>
    ensures { IfOk result (λ m. (k : List KeptOpen) → came m k ≡ machine.word_read keeps word at (part_of part) k) }
{
    let asked = match word {
        ClauseWord::Full => return added(part, plain(ClauseKind::Full), at),
        ClauseWord::Partial => return Ok(Move::Leads(State::Partial { at, part })),
        ClauseWord::Apply => return Ok(Move::Leads(State::ApplyWord { at, part })),
        ClauseWord::Sizes => first_element(alloc, Lists::Sizes),
        ClauseWord::Permutation => first_element(alloc, Lists::Permutation),
        ClauseWord::Counts => Asked::Count {
            before: Kept::Whole {
                tree: Items::new(alloc),
                height: 0,
            },
        },
        ClauseWord::LoopRange => Asked::RangeFirst,
    };
    Ok(Move::Leads(State::Opening { asked, at, part }))
}

/// A word where a clause is wanted.
fn clause_word(
    alloc: Global,
    word: Option<ClauseWord>,
    at: Span,
    part: Part,
) -> Result<Move, AllocError>
    ensures { IfOk result (λ m. (k : List KeptOpen) → came m k ≡ machine.clause_word keeps word at (part_of part) k) }
{
    match word {
        Some(word) => word_read(alloc, word, at, part),
        None => Ok(Move::Stuck),
    }
}

/// A comma after a directive: another clause may follow, or, within `apply`, another item does.
fn comma_step(stack: &mut Vec<Open>, part: Part, last: Span) -> Result<Move, AllocError>
    ensures { IfOk result (λ m. came m (opens stack.new.items) ≡ machine.comma_step keeps (part_of part) last (opens stack.old.items)) }
{
    match stack.pop() {
        None => Ok(Move::Leads(State::Comma { part })),
        Some(outer) => Ok(Move::Leads(State::Item {
            outer: with_item(outer, acts(made(part, last)))?,
        })),
    }
}

/// A parenthesis that closes after a directive.
fn close_step(
    stack: &mut Vec<Open>,
    part: Part,
    last: Span,
    place: Span,
) -> Result<Move, AllocError>
    ensures { IfOk result (λ m. came m (opens stack.new.items) ≡ machine.close_step keeps (part_of part) last place (opens stack.old.items)) }
{
    match stack.pop() {
        None => Ok(Move::Stuck),
        Some(outer) => close_apply(with_item(outer, acts(made(part, last)))?, place),
    }
}

/// The end of the line after a directive.
fn end_step(stack: &mut Vec<Open>, part: Part, last: Span) -> Move
    ensures { came result (opens stack.new.items) ≡ machine.end_step keeps (part_of part) last (opens stack.old.items) }
{
    match stack.pop() {
        None => Move::Ended(made(part, last)),
        Some(_) => Move::Stuck,
    }
}

/// The token after a directive's name or a clause.
fn after_clause(
    alloc: Global,
    stack: &mut Vec<Open>,
    part: Part,
    last: Span,
    mark: Mark,
    word: &[u8],
    place: Span,
) -> Result<Move, AllocError>
    ensures { IfOk result (λ m. came m (opens stack.new.items) ≡ machine.after_clause keeps (part_of part) last (opens stack.old.items) (marked mark word.now place)) }
{
    match mark {
        Mark::Name => clause_word(alloc, clause_of(word), place, part),
        Mark::Comma => comma_step(stack, part, last),
        Mark::Close => close_step(stack, part, last, place),
        Mark::LineEnd => Ok(end_step(stack, part, last)),
        Mark::Open | Mark::Colon | Mark::Fill | Mark::Other => Ok(Move::Stuck),
    }
}

/// A word where a directive is wanted.
fn begin_directive(alloc: Global, kind: Option<Kind>, at: Span) -> Move
    ensures { (k : List KeptOpen) → came result k ≡ machine.begin_directive keeps kind at k }
{
    match kind {
        Some(kind) => Move::Leads(State::Clauses {
            part: new_part(alloc, kind, at),
            last: at,
        }),
        None => Move::Stuck,
    }
}

/// The token after `nothing`.
fn item_end(outer: Open, mark: Mark, place: Span) -> Result<Move, AllocError>
    ensures { IfOk result (λ m. (x : Name) (k : List KeptOpen) → came m k ≡ machine.item_end keeps (open_of outer) k (marked mark x place)) }
{
    match mark {
        Mark::Comma => Ok(Move::Leads(State::Item { outer })),
        Mark::Close => close_apply(outer, place),
        Mark::Name | Mark::Open | Mark::Colon | Mark::Fill | Mark::LineEnd | Mark::Other => Ok(
            Move::Stuck,
        ),
    }
}

/// A word where an item is wanted.
fn named_item(
    alloc: Global,
    stack: &mut Vec<Open>,
    word: &[u8],
    at: Span,
    outer: Open,
) -> Result<Move, AllocError>
    ensures { IfOk result (λ m. came m (opens stack.new.items) ≡ machine.named_item keeps (is_nothing word.now) (kind_of word.now) at (open_of outer) (opens stack.old.items)) }
{
    if is_nothing(word) {
        return Ok(Move::Leads(State::ItemRead {
            outer: with_item(
                outer,
                Kept::Whole {
                    tree: ApplyItem::Nothing(at),
                    height: 0,
                },
            )?,
        }));
    }
    match kind_of(word) {
        Some(kind) => {
            stack.push(outer)?;
            Ok(begin_directive(alloc, Some(kind), at))
        }
        None => Ok(Move::Stuck),
    }
}

/// The token after the first name of an `apply`, where the name is an item.
fn first_item(
    alloc: Global,
    stack: &mut Vec<Open>,
    name: &[u8],
    name_at: Span,
    outer: Open,
    mark: Mark,
    word: &[u8],
    place: Span,
) -> Result<Move, AllocError>
    ensures { IfOk result (λ m. came m (opens stack.new.items) ≡ machine.after_name keeps (machine.named_item keeps (is_nothing name.now) (kind_of name.now) name_at (open_of outer) (opens stack.old.items)) (marked mark word.now place)) }
{
    if is_nothing(name) {
        let outer = with_item(
            outer,
            Kept::Whole {
                tree: ApplyItem::Nothing(name_at),
                height: 0,
            },
        )?;
        return item_end(outer, mark, place);
    }
    match kind_of(name) {
        Some(kind) => {
            stack.push(outer)?;
            after_clause(
                alloc,
                stack,
                new_part(alloc, kind, name_at),
                name_at,
                mark,
                word,
                place,
            )
        }
        None => Ok(Move::Stuck),
    }
}

/// The token after the first name of an `apply`: the name is the modifier where a colon or a parenthesis follows it.
fn first_name_step(
    alloc: Global,
    stack: &mut Vec<Open>,
    name: Name,
    name_at: Span,
    at: Span,
    part: Part,
    mark: Mark,
    word: &[u8],
    place: Span,
) -> Result<Move, AllocError>
    ensures { IfOk result (λ m. came m (opens stack.new.items) ≡ machine.first_name_step keeps name name_at at (part_of part) (opens stack.old.items) (marked mark word.now place)) }
{
    match mark {
        Mark::Colon => Ok(Move::Leads(State::Item {
            outer: new_open(alloc, at, part, Some(name), no_exprs(alloc)),
        })),
        Mark::Open => Ok(Move::Leads(State::Wanting {
            asked: first_element(alloc, Lists::Indices(name)),
            at,
            part,
        })),
        Mark::Name | Mark::Close | Mark::Comma | Mark::Fill | Mark::LineEnd | Mark::Other => {
            let outer = new_open(alloc, at, part, None, no_exprs(alloc));
            first_item(
                alloc,
                stack,
                name.bytes(),
                name_at,
                outer,
                mark,
                word,
                place,
            )
        }
    }
}

/// The token where the directive's name is wanted.
fn start_step(alloc: Global, stack: &mut Vec<Open>, mark: Mark, word: &[u8], place: Span) -> Move
    ensures { came result (opens stack.new.items) ≡ machine.start_step keeps (marked mark word.now place) }
{
    stack.clear();
    match mark {
        Mark::Name => begin_directive(alloc, kind_of(word), place),
        Mark::Open
        | Mark::Close
        | Mark::Comma
        | Mark::Colon
        | Mark::Fill
        | Mark::LineEnd
        | Mark::Other => Move::Stuck,
    }
}

/// The token after a comma in the outermost directive, where a clause is wanted.
fn word_step(
    alloc: Global,
    stack: &mut Vec<Open>,
    part: Part,
    mark: Mark,
    word: &[u8],
    place: Span,
) -> Result<Move, AllocError>
    ensures { IfOk result (λ m. came m (opens stack.new.items) ≡ machine.word_step keeps (part_of part) [] (marked mark word.now place)) }
{
    stack.clear();
    match mark {
        Mark::Name => clause_word(alloc, clause_of(word), place, part),
        Mark::Open
        | Mark::Close
        | Mark::Comma
        | Mark::Colon
        | Mark::Fill
        | Mark::LineEnd
        | Mark::Other => Ok(Move::Stuck),
    }
}

fn expect_open(next: State, mark: Mark) -> Move
    ensures { (x : Name) (place : Span) (k : List KeptOpen) → came result k ≡ machine.expect_open keeps (stands next k) (marked mark x place) }
{
    match mark {
        Mark::Open => Move::Leads(next),
        Mark::Name
        | Mark::Close
        | Mark::Comma
        | Mark::Colon
        | Mark::Fill
        | Mark::LineEnd
        | Mark::Other => Move::Stuck,
    }
}

fn expect_colon(next: State, mark: Mark) -> Move
    ensures { (x : Name) (place : Span) (k : List KeptOpen) → came result k ≡ machine.expect_colon keeps (stands next k) (marked mark x place) }
{
    match mark {
        Mark::Colon => Move::Leads(next),
        Mark::Name
        | Mark::Open
        | Mark::Close
        | Mark::Comma
        | Mark::Fill
        | Mark::LineEnd
        | Mark::Other => Move::Stuck,
    }
}

/// The token after the indices of a modifier.
fn indexed_step(
    alloc: Global,
    modifier: Name,
    indices: Kept<ExprList>,
    at: Span,
    part: Part,
    mark: Mark,
) -> Move
    ensures { (x : Name) (place : Span) (k : List KeptOpen) → came result k ≡ machine.expect_colon keeps (machine.item (machine.new_open keeps at (part_of part) (Some modifier) (exprs_of indices)) k) (marked mark x place) }
{
    let outer = new_open(alloc, at, part, Some(modifier), indices);
    expect_colon(State::Item { outer }, mark)
}

/// The token after `partial`.
fn partial_step(
    alloc: Global,
    stack: &mut Vec<Open>,
    at: Span,
    part: Part,
    mark: Mark,
    word: &[u8],
    place: Span,
) -> Result<Move, AllocError>
    ensures { IfOk result (λ m. came m (opens stack.new.items) ≡ machine.partial_step keeps at (part_of part) (opens stack.old.items) (marked mark word.now place)) }
{
    match mark {
        Mark::Open => Ok(Move::Leads(State::Wanting {
            asked: Asked::Factor,
            at,
            part,
        })),
        Mark::Name
        | Mark::Close
        | Mark::Comma
        | Mark::Colon
        | Mark::Fill
        | Mark::LineEnd
        | Mark::Other => {
            let Part {
                kind,
                at: name_at,
                clauses,
            } = part;
            let clauses = add_clause(clauses, plain(ClauseKind::Partial(None)), at)?;
            let part = Part {
                kind,
                at: name_at,
                clauses,
            };
            after_clause(alloc, stack, part, at, mark, word, place)
        }
    }
}

/// The token after `apply (`.
fn applying_step(
    alloc: Global,
    at: Span,
    part: Part,
    mark: Mark,
    word: &[u8],
    place: Span,
) -> Result<Move, AllocError>
    ensures { IfOk result (λ m. (k : List KeptOpen) → came m k ≡ machine.applying_step keeps at (part_of part) k (marked mark word.now place)) }
{
    match mark {
        Mark::Name => Ok(Move::Leads(State::FirstName {
            name: Name::new(alloc, word)?,
            name_at: place,
            at,
            part,
        })),
        Mark::Open
        | Mark::Close
        | Mark::Comma
        | Mark::Colon
        | Mark::Fill
        | Mark::LineEnd
        | Mark::Other => Ok(Move::Stuck),
    }
}

/// The token where an item is wanted.
fn item_step(
    alloc: Global,
    stack: &mut Vec<Open>,
    outer: Open,
    mark: Mark,
    word: &[u8],
    place: Span,
) -> Result<Move, AllocError>
    ensures { IfOk result (λ m. came m (opens stack.new.items) ≡ machine.item_step keeps (open_of outer) (opens stack.old.items) (marked mark word.now place)) }
{
    match mark {
        Mark::Name => named_item(alloc, stack, word, place, outer),
        Mark::Open
        | Mark::Close
        | Mark::Comma
        | Mark::Colon
        | Mark::Fill
        | Mark::LineEnd
        | Mark::Other => Ok(Move::Stuck),
    }
}

/// What a token does, but where an expression is read.
pub fn step(
    alloc: Global,
    stack: &mut Vec<Open>,
    state: State,
    mark: Mark,
    word: &[u8],
    place: Span,
) -> Result<Move, AllocError>
    ensures { IfOk result (λ m. came m (opens stack.new.items) ≡ step (stands state (opens stack.old.items)) (marked mark word.now place)) }
{
    match state {
        State::Start => Ok(start_step(alloc, stack, mark, word, place)),
        State::Clauses { part, last } => after_clause(alloc, stack, part, last, mark, word, place),
        State::Comma { part } => word_step(alloc, stack, part, mark, word, place),
        State::Opening { asked, at, part } => Ok(expect_open(
            State::Wanting { asked, at, part },
            mark,
        )),
        State::Partial { at, part } => partial_step(alloc, stack, at, part, mark, word, place),
        State::ApplyWord { at, part } => Ok(expect_open(State::Applying { at, part }, mark)),
        State::Wanting { asked, at, part } => want_step(asked, at, part, mark, place),
        State::Having { held, at, part } => have_step(held, at, part, mark, place),
        State::Indexed {
            modifier,
            indices,
            at,
            part,
        } => Ok(indexed_step(alloc, modifier, indices, at, part, mark)),
        State::Applying { at, part } => applying_step(alloc, at, part, mark, word, place),
        State::FirstName {
            name,
            name_at,
            at,
            part,
        } => { first_name_step(alloc, stack, name, name_at, at, part, mark, word, place) }
        State::Item { outer } => item_step(alloc, stack, outer, mark, word, place),
        State::ItemRead { outer } => item_end(outer, mark, place),
    }
}
