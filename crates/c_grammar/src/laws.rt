//! Laws of the grammar.

ghost use Rattle.std.specs.Prelude.{◌≡◌, ℕ, ◌≤◌, List};
ghost use Rattle.c_tree.specs.Forget.{forget_program};
ghost use Rattle.c_tree.specs.Height.{program_height};
ghost use Rattle.c_tree.specs.Placed.{Program};
ghost use Rattle.c_tree.specs.WellFormed.{WellFormed};
ghost use Rattle.c_lexer.specs.Cut.{Cut};
ghost use Rattle.c_lexer.specs.declared.token.Token.{Token};
ghost use Rattle.pragma_grammar.specs.declared.phrase.ParseKind.{ParseKind};
ghost use Rattle.c_grammar.specs.Programs.{Spells, Started};
ghost use Rattle.c_grammar.specs.Reading.{Blame, DeepWhereAbove, IsTree, IsTooDeep};

/// What the tokens of a text spell is well formed.
pub fn texts_are_well_formed()
    ensures { (text : List ℕ) (tokens : List Token) (program : Program) → Cut text tokens → Spells program tokens → WellFormed (forget_program program) }
{}

/// A tree of a text, no part of which is too deep, is well formed and has height 256 at most.
pub fn trees_may_be_checked()
    ensures { (text : List ℕ) (tokens : List Token) (program : Program) → Cut text tokens → IsTree tokens program
        → WellFormed (forget_program program) × (program_height (forget_program program) ≤ 256) }
{}

/// A program is too deep somewhere exactly where its height is above 256.
#[tactic(auto, using(crate::proofs::Shallow::deep_where_above))]
pub fn programs_are_deep_where_above()
    ensures { (items : List Started) → DeepWhereAbove items }
{}

/// Tokens are spelled by at most one tree: the grammar is not ambiguous (C11 6.8.4.1 for `else`).
pub fn tokens_spell_at_most_one_tree()
    ensures { (tokens : List Token) (p q : Program) → Spells p tokens → Spells q tokens → p ≡ q }
{}

/// Tokens have at most one answer: a tree within the height, a place where the tree is too deep, or a blame, which is
/// the least place such that no program's tokens begin with those through it.
pub fn tokens_have_one_answer()
    ensures blame { (tokens : List Token) (k l : ParseKind) (m n : ℕ) → Blame tokens k m → Blame tokens l n → (k ≡ l) × (m ≡ n) }
    ensures depth { (tokens : List Token) (m n : ℕ) → IsTooDeep tokens m → IsTooDeep tokens n → m ≡ n }
    ensures tree_or_blame { (tokens : List Token) (p : Program) (k : ParseKind) (m : ℕ) → IsTree tokens p → Blame tokens k m → ⊥ }
    ensures tree_or_depth { (tokens : List Token) (p : Program) (m : ℕ) → IsTree tokens p → IsTooDeep tokens m → ⊥ }
    ensures depth_or_blame { (tokens : List Token) (k : ParseKind) (m n : ℕ) → IsTooDeep tokens n → Blame tokens k m → ⊥ }
{}
