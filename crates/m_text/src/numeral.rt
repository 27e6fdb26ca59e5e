//! Numeric literals.
ghost use Rattle.std.specs.Prelude.{◌≡◌, ◌≤◌, ◌+◌, length, take, drop, true, IfSome, if◌then◌else◌};
ghost use Rattle.std.specs.Char.{is_ascii_digit};
ghost use Rattle.std.specs.List.{list_all, position, position_or_len};
ghost use Rattle.canonic_number.specs.Number as number;
ghost use Rattle.m_text.specs.Reading.{GivesUnlessMemory, GivesExactly, rest_of};
ghost use Rattle.m_text.specs.Literal as literal;

use crate::front::{after, split_digits};
use canonic_number::{canonic_of, is_numeric};
use collation::Text;
use refusal::Refusal;
use std::alloc::Global;

// What stands after the sign.
fn split_sign(text: &[u8]) -> (bool, &[u8])
    ensures sign { result.0 ≡ number.is_negative text.now }
    ensures magnitude { result.1.now ≡ number.magnitude text.now }
    ensures length { length text.now ≡ (if result.0 then length result.1.now + 1 else length result.1.now) }
{
    match text {
        [b'-', magnitude @ ..] => (true, magnitude),
        _ => (false, text),
    }
}

fn number_end(text: &[u8]) -> Option<usize>
    ensures { result ≡ position literal.ends_number text.now }
{
    text.iter()
        .position(|byte| !(byte.is_ascii_digit() || *byte == b'.'))
}

// How many digits and points stand at the front.
fn run_len(text: &[u8]) -> usize
    ensures value { result ≡ position_or_len literal.ends_number text.now }
    ensures within { result ≤ length text.now }
{
    match number_end(text) {
        Some(n) => n,
        None => text.len(),
    }
}

fn number_len(text: &[u8]) -> usize
    ensures value { result ≡ literal.number_len text.now }
    ensures within { result ≤ length text.now }
{
    let (negative, magnitude) = split_sign(text);
    let run = run_len(magnitude);
    if negative { run + 1 } else { run }
}

// The bytes at the front that a number could take, and what follows them.
pub(crate) fn split_number(text: &[u8]) -> (&[u8], &[u8])
    ensures number { result.0.now ≡ take (literal.number_len text.now) text.now }
    ensures rest { result.1.now ≡ drop (literal.number_len text.now) text.now }
{
    let n = number_len(text);
    text.split_at(n)
}

// As `split_number`, where these bytes are digits alone: so each is looked at once.
pub(crate) fn split_whole(text: &[u8]) -> Option<(&[u8], &[u8])>
    ensures number { IfSome result (λ x. x.0.now ≡ take (literal.number_len text.now) text.now) }
    ensures rest { IfSome result (λ x. x.1.now ≡ drop (literal.number_len text.now) text.now) }
    ensures digits { IfSome result (λ x. list_all is_ascii_digit x.0.now ≡ true) }
{
    let (digits, rest) = split_digits(text);
    if digits.is_empty() {
        return None;
    }
    match after(b'.', rest) {
        Some(_) => None,
        None => Some((digits, rest)),
    }
}

// A numeric literal at the front of a text: its canonic number, and what follows it.
#[tactic(auto, unfolding(crate::specs::Literal::numeric_at))]
pub(crate) fn read_number(alloc: Global, text: &[u8]) -> Result<(Text, &[u8]), Refusal>
    ensures { GivesUnlessMemory (λ x. (x.0, x.1.now)) result (literal.numeric_at text.now) }
{
    let (number, rest) = split_number(text);
    match canonic_of(alloc, number)? {
        Some(canonic) => Ok((Text::from_vec(canonic)?, rest)),
        None => Err(Refusal::BadLine),
    }
}

// What follows a numeric literal.
#[tactic(auto, unfolding(crate::specs::Literal::numeric_at))]
pub(crate) fn skip_number(text: &[u8]) -> Result<&[u8], Refusal>
    ensures { GivesExactly (λ rest. rest.now) result (rest_of (literal.numeric_at text.now)) }
{
    let (number, rest) = split_number(text);
    if is_numeric(number) {
        Ok(rest)
    } else {
        Err(Refusal::BadLine)
    }
}
