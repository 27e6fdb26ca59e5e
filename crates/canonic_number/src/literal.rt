//! Numeric literals: the canonic text of one.
ghost use Rattle.std.specs.Prelude.{◌≡◌, ◌↔◌, [], ◌++◌, true, IfErr, IfOk, IfSome, IsSome, IsTrue, MatchOption, OnErr, is_some, ◌&&◌};
ghost use Rattle.std.specs.Char.{is_ascii_digit};
ghost use Rattle.std.specs.List.{list_all};
ghost use Rattle.canonic_number.specs.Grammar.{IsNumericLiteral};
ghost use Rattle.canonic_number.specs.Literal as literal;
ghost use Rattle.canonic_number.specs.Number as number;
ghost use Rattle.refusal.specs.declared.Refusal.{Refusal};

use crate::digits::{after_zeros, are_digits, before_zeros};
use crate::read::{split_point, split_sign};
use refusal::Refusal;
use std::alloc::Global;

/// The canonic text of a numeric literal; none where the text is no numeric literal.
///
/// A literal is an optional `-`, then digits, digits `.` digits, or `.` digits, of any length. Its value stays:
/// leading zeros and trailing zeros of the fraction are dropped, and zero is `0`.
/// Refusals: `OutOfMemory`, only of a literal.
pub fn canonic_of(alloc: Global, text: &[u8]) -> Result<Option<Vec<u8>>, Refusal>
    ensures test { IfOk result (λ answer. is_some answer ≡ literal.is_numeric text.now) }
    ensures grammar { IfOk result (λ answer. IsSome answer ↔ IsNumericLiteral text.now) }
    ensures canonic { IfOk result (λ answer. IfSome answer (λ canonic. canonic.items ≡ literal.canonic_of text.now)) }
    ensures refused { IfErr result (λ refusal. refusal ≡ Refusal.OutOfMemory) }
    ensures asked { OnErr result (literal.is_numeric text.now ≡ true) }
{
    let (negative, magnitude) = split_sign(text);
    let (whole, fraction) = split_point(magnitude);
    let (_, none) = magnitude.split_at(magnitude.len());
    if !is_unsigned_literal(whole, fraction) {
        return Ok(None);
    }
    let whole = after_zeros(whole);
    let fraction = before_zeros(fraction.unwrap_or(none));
    let canonic = write_shortest(alloc, negative, whole, fraction)?;
    Ok(Some(canonic))
}

/// Whether a text is a numeric literal, as `canonic_of` reads it. Takes no memory.
pub fn is_numeric(text: &[u8]) -> bool
    ensures test { result ≡ literal.is_numeric text.now }
    ensures grammar { IsTrue result ↔ IsNumericLiteral text.now }
{
    let (_, magnitude) = split_sign(text);
    let (before, after) = split_point(magnitude);
    is_unsigned_literal(before, after)
}

fn some_digits(bytes: &[u8]) -> bool
    ensures { result ≡ literal.some_digits bytes.now }
{
    !bytes.is_empty() && are_digits(bytes)
}

// Digits before the point, where there is one, and at least one digit after it; else at least one digit.
fn is_unsigned_literal(whole: &[u8], fraction: Option<&[u8]>) -> bool
    ensures { MatchOption fraction.entry (result ≡ literal.some_digits whole.now) (λ f. result ≡ (list_all is_ascii_digit whole.now && literal.some_digits f.now)) }
{
    match fraction {
        Some(fraction) => are_digits(whole) && some_digits(fraction),
        None => some_digits(whole),
    }
}

fn write_shortest(
    alloc: Global,
    negative: bool,
    whole: &[u8],
    fraction: &[u8],
) -> Result<Vec<u8>, Refusal>
    ensures text { IfOk result (λ text. text.items ≡ literal.shortest negative whole.now fraction.now) }
    ensures refused { IfErr result (λ refusal. refusal ≡ Refusal.OutOfMemory) }
{
    if whole.is_empty() && fraction.is_empty() {
        let text = Vec::from_slice(alloc, b"0")?;
        return Ok(text);
    }
    let marks = usize::from(negative) + usize::from(!fraction.is_empty());
    let size = whole
        .len()
        .saturating_add(fraction.len())
        .saturating_add(marks);
    let mut text = Vec::with_capacity(alloc, size)?;
    if negative {
        text.push(b'-')?;
    }
    text.extend_from_slice(whole)?;
    if !fraction.is_empty() {
        text.push(b'.')?;
        text.extend_from_slice(fraction)?;
    }
    Ok(text)
}
