//! What the words of the command line ask for.

ghost use Rattle.std.specs.Prelude.{◌≡◌, ℕ, ℤ, IfSome, IfNone, IfOk, IsTrue, ◌↔◌, ◌∷◌, map, string_bytes, codes, slice_index};
ghost use Rattle.loopx.specs.Words.{IsBound, IsNumber, AreNumbers, AllNumbers, AskForNothing};
ghost use Rattle.loopx.specs.Commands.{AsksFor};

use std::alloc::{AllocError, Global};

/// What the words ask for.
#[derive(Clone, Copy)]
pub enum Command<'a> {
    /// The translated text.
    Translate,

    /// A run of the translated program, with a bound on the turns of a loop; the words spell its input.
    Run { bound: u64, numbers: &'a [String] },
}

/// Does the word begin with a sign that a number of the command line hasn't?
fn has_plus(word: &str) -> bool
    ensures { IsTrue result ↔ (slice_index word.now 0 ≡ 43) }
{
    word.starts_with('+')
}

/// The number that the word spells, from 0 to 2^64 - 1, by decimal digits alone.
fn bound(word: &String) -> Option<u64>
    ensures some { IfSome result (IsBound (string_bytes word.now)) }
    ensures none { IfNone result ((n : ℕ) → IsBound (string_bytes word.now) n → ⊥) }
{
    if has_plus(word.as_str()) {
        return None;
    }
    word.as_str().parse::<u64>().ok()
}

/// The number of 64 bits that the word spells by decimal digits, with a `-` before them or without.
fn number(word: &String) -> Option<i64>
    ensures some { IfSome result (IsNumber (string_bytes word.now)) }
    ensures none { IfNone result ((z : ℤ) → IsNumber (string_bytes word.now) z → ⊥) }
{
    if has_plus(word.as_str()) {
        return None;
    }
    word.as_str().parse::<i64>().ok()
}

/// Does each word spell a number?
fn all_numbers(mut words: &[String]) -> bool
    ensures { IsTrue result ↔ AllNumbers (map string_bytes words.entry.now) }
{
    while let [word, rest @ ..] = words {
        if number(word).is_none() {
            return false;
        }
        words = rest;
    }
    true
}

/// The numbers that the words spell.
pub fn numbers(alloc: Global, mut words: &[String]) -> Result<Vec<i64>, AllocError>
    requires { AllNumbers (map string_bytes words.now) }
    ensures { IfOk result (λ numbers. AreNumbers (map string_bytes words.entry.now) numbers.items) }
{
    let mut numbers = Vec::new(alloc);
    while let [word, rest @ ..] = words {
        if let Some(number) = number(word) {
            numbers.push(number)?;
        }
        words = rest;
    }
    Ok(numbers)
}

/// Is the word this name?
fn is_word(word: &String, name: &str) -> bool
    ensures { IsTrue result ↔ (string_bytes word.now ≡ name.now) }
{
    word.as_str() == name
}

/// What the words ask for; none where they are in no list.
pub fn asked(words: &[String]) -> Option<Command<'_>>
    ensures some { IfSome result (AsksFor (map string_bytes words.now)) }
    ensures none { IfNone result (AskForNothing (map string_bytes words.now)) }
{
    match words {
        [word] if is_word(word, "translate") => Some(Command::Translate),
        [word, first, numbers @ ..] if is_word(word, "run") => run_command(first, numbers),
        _ => None,
    }
}

/// A run with this bound and these numbers, where the words spell them.
fn run_command<'a>(first: &String, numbers: &'a [String]) -> Option<Command<'a>>
    ensures some { IfSome result (AsksFor (codes "run" ∷ string_bytes first.now ∷ map string_bytes numbers.now)) }
    ensures none { IfNone result (AskForNothing (codes "run" ∷ string_bytes first.now ∷ map string_bytes numbers.now)) }
{
    let bound = bound(first)?;
    if all_numbers(numbers) {
        Some(Command::Run { bound, numbers })
    } else {
        None
    }
}
