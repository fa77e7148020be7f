//! Laws of answers.

ghost use Rattle.std.specs.Prelude.{◌≡◌, ℕ, List};
ghost use Rattle.c_tree.specs.Placed as placed;
ghost use Rattle.translator.specs.Answers.{IsAccepted, IsAdmittedText, IsCause, IsOfRules, IsRefused, IsTranslation};
ghost use Rattle.translator.specs.declared.refusal.Refusal.{Refusal};

/// A text has at most one answer: it is accepted, or it is refused in one way. No rule refuses one whose program is
/// admitted.
pub fn texts_have_one_answer()
    ensures admitted { (text : List ℕ) (program : placed.Program) → IsAdmittedText text program → (refusal : Refusal) → IsCause refusal → IsOfRules refusal → IsRefused refusal text → ⊥ }
    ensures accepted { (text : List ℕ) → IsAccepted text → (refusal : Refusal) → IsCause refusal → IsRefused refusal text → ⊥ }
    ensures refused { (text : List ℕ) → (this that : Refusal) → IsCause this → IsCause that → IsRefused this text → IsRefused that text → this ≡ that }
{}

/// A translation is accepted, and is translated to itself, byte for byte.
pub fn translations_are_given_back()
    ensures given_back { (text written again : List ℕ) → IsTranslation text written → IsTranslation written again → again ≡ written }
    ensures accepted { (text written : List ℕ) → IsTranslation text written → IsAccepted written }
{}
