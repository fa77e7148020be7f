//! Numbers: how they go on, and which integer constants they are.

ghost use Rattle.std.specs.Prelude.{◌≡◌, ℕ, ◌<◌, ◌^◌, ◌-◌, ◌&&◌, ◌||◌, ◌==◌, nat_lt, if◌then◌else◌, IsTrue, length};
ghost use Rattle.std.specs.Char.{is_digit, digit_value};
ghost use Rattle.std.specs.Str.Parse.{digits_value};
ghost use Rattle.std.specs.List.{list_all};
ghost use Rattle.c_lexer.specs.Numbers.{is_exponent, goes_on, are_digits, is_in_range, type_of, radix_of, digits_of, is_plain_zero, is_suffixed, without_suffix, integer};

use crate::class::goes_in_word;
use crate::token::TokenKind;
use c_tree::tree::Ty;

/// Can a sign go on after the byte?
fn is_exponent(byte: u8) -> bool
    ensures { result ≡ is_exponent byte }
{
    byte == b'e' || byte == b'E' || byte == b'p' || byte == b'P'
}

/// Does a number whose last byte so far is `last` go on with the byte (C11 6.4.8)?
pub fn goes_on(last: u8, byte: u8) -> bool
    ensures { result ≡ goes_on last byte }
{
    goes_in_word(byte) || byte == b'.' || ((byte == b'+' || byte == b'-') && is_exponent(last))
}

/// The value of a digit in a radix up to 36, and 36 for any other byte.
fn digit_value(byte: u8) -> u8
    ensures { result ≡ digit_value byte }
{
    if byte < b'0' {
        36
    } else if byte <= b'9' {
        byte - b'0'
    } else if byte < b'A' {
        36
    } else if byte <= b'Z' {
        byte - b'A' + 10
    } else if byte < b'a' {
        36
    } else if byte <= b'z' {
        byte - b'a' + 10
    } else {
        36
    }
}

/// Are there digits, each below the radix?
fn are_digits(radix: u8, digits: &[u8]) -> bool
    ensures { result ≡ are_digits radix digits.now }
{
    !digits.is_empty() && all_digits(radix, digits)
}

fn all_digits(radix: u8, digits: &[u8]) -> bool
    ensures { result ≡ list_all (λ d. is_digit d radix) digits.now }
{
    digits.iter().all(|digit| digit_value(*digit) < radix)
}

#[tactic(auto, using(crate::proofs::Digits::next_digit, crate::proofs::Digits::large_product, crate::proofs::Digits::large_sum))]
/// The number that the digits write, None where it is 2^64 or more.
fn digits_value(radix: u8, digits: &[u8]) -> Option<u64>
    requires { 0 < radix }
    ensures { result ≡ (if nat_lt (digits_value radix digits.now) (2 ^ 64) then Some (digits_value radix digits.now) else None) }
{
    let mut value: u64 = 0;
    for digit in digits {
        value = value
            .checked_mul(u64::from(radix))?
            .checked_add(u64::from(digit_value(*digit)))?;
    }
    Some(value)
}

/// May a constant have this value?
fn is_in_range(long: bool, radix: u8, value: u64) -> bool
    ensures { result ≡ is_in_range long radix value }
{
    value < 1 << 63 && (long || radix == 10 || value < 1 << 31)
}

fn type_of(long: bool, value: u64) -> Ty
    ensures { result ≡ type_of long value }
{
    if long || value > (1 << 31) - 1 {
        Ty::Long
    } else {
        Ty::Int
    }
}

/// The radix of a number without suffix, and its digits.
fn parts(number: &[u8]) -> (u8, &[u8])
    ensures radix { result.0 ≡ radix_of number.now }
    ensures digits { result.1.now ≡ digits_of number.now }
{
    match number {
        [b'0', b'x' | b'X', digits @ ..] => (16, digits),
        [b'0', _, ..] => (8, &number[1..]),
        _ => (10, number),
    }
}

/// The token of an integer constant (C11 6.4.4.1), None where the bytes are none of the profile.
pub fn integer(text: &[u8]) -> Option<TokenKind>
    ensures { result ≡ integer text.now }
{
    let long = is_suffixed(text);
    let (radix, digits) = parts(without_suffix(text, long));
    if !are_digits(radix, digits) {
        return None;
    }
    let value = digits_value(radix, digits)?;
    if !is_in_range(long, radix, value) {
        return None;
    }
    Some(TokenKind::Number {
        value,
        ty: type_of(long, value),
        plain_zero: is_plain_zero(text),
    })
}

fn is_suffixed(text: &[u8]) -> bool
    ensures { result ≡ is_suffixed text.now }
{
    text.ends_with(b"LL") || text.ends_with(b"ll")
}

/// The number before its suffix, if it has one.
fn without_suffix(text: &[u8], suffixed: bool) -> &[u8]
    requires { suffixed ≡ is_suffixed text.now }
    ensures { result.now ≡ without_suffix text.now }
{
    if suffixed {
        &text[..text.len() - 2]
    } else {
        text
    }
}

fn is_plain_zero(text: &[u8]) -> bool
    ensures { result ≡ is_plain_zero text.now }
{
    matches!(text, [b'0'])
}
