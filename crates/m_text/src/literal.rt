//! Literals.
ghost use Rattle.std.specs.Prelude.{◌≡◌, ◌||◌, IfSome, Some, false};
ghost use Rattle.collation.specs.Bytes as byte;
ghost use Rattle.m_text.specs.Reading.{GivesUnlessMemory, GivesExactly, begins_with_byte, rest_of, with_front, parted_at};
ghost use Rattle.m_text.specs.Literal.{part_at, literal_at};

use crate::chars::{read_chars, skip_chars};
use crate::front::after;
use crate::numeral::{read_number, skip_number, split_number, split_whole};
use crate::quoted::{lend_quoted, read_quoted, skip_quoted};
use canonic_number::{is_canonic, is_whole_number};
use collation::Text;
use refusal::Refusal;
use std::alloc::Global;

#[tactic(auto, unfolding(crate::specs::Literal::part_at))]
fn read_part<'a>(text: &'a [u8], out: &mut Text) -> Result<&'a [u8], Refusal>
    ensures { GivesUnlessMemory (λ rest. (out.new, rest.now)) result (with_front out.old (part_at text.now)) }
{
    match text {
        [b'"', rest @ ..] => read_quoted(rest, out),
        [b'$', rest @ ..] => read_chars(rest, out),
        _ => Err(Refusal::BadLine),
    }
}

fn read_parts<'a>(text: &'a [u8], out: &mut Text) -> Result<&'a [u8], Refusal>
    ensures { GivesUnlessMemory (λ rest. (out.new, rest.now)) result (with_front out.old (parted_at part_at byte.underscore text.now)) }
{
    let mut rest = text;
    'parts: for _ in 0..text.len() {
        let behind = read_part(rest, out)?;
        match after(b'_', behind) {
            Some(more) => rest = more,
            None => return Ok(behind),
        }
    }
    Err(Refusal::BadLine)
}

#[tactic(auto, unfolding(crate::specs::Literal::part_at))]
fn skip_part(text: &[u8]) -> Result<&[u8], Refusal>
    ensures { GivesExactly (λ rest. rest.now) result (rest_of (part_at text.now)) }
{
    match text {
        [b'"', rest @ ..] => skip_quoted(rest),
        [b'$', rest @ ..] => skip_chars(rest),
        _ => Err(Refusal::BadLine),
    }
}

fn skip_parts(text: &[u8]) -> Result<&[u8], Refusal>
    ensures { GivesExactly (λ rest. rest.now) result (rest_of (parted_at part_at byte.underscore text.now)) }
{
    let mut rest = text;
    'parts: for _ in 0..text.len() {
        let behind = skip_part(rest)?;
        match after(b'_', behind) {
            Some(more) => rest = more,
            None => return Ok(behind),
        }
    }
    Err(Refusal::BadLine)
}

// Whether a text begins as a quoted text or as `$C` does.
pub(crate) fn begins_part(text: &[u8]) -> bool
    ensures { result ≡ (begins_with_byte byte.quote text.now || begins_with_byte byte.dollar text.now) }
{
    match text {
        [] => false,
        [first, ..] => *first == b'"' || *first == b'$',
    }
}

// The canonic number at the front of a text, where a numeric literal is spelled as one, and what follows it.
#[tactic(auto, using(crate::proofs::Numbers::canonic_texts), unfolding(crate::specs::Literal::literal_at, crate::specs::Literal::numeric_at))]
fn lend_number(text: &[u8]) -> Option<(&[u8], &[u8])>
    requires { (begins_with_byte byte.quote text.now || begins_with_byte byte.dollar text.now) ≡ false }
    ensures { IfSome result (λ x. literal_at text.now ≡ Some (x.0.now, x.1.now)) }
{
    match split_whole(text) {
        Some((digits, rest)) => {
            if is_whole_number(digits) {
                Some((digits, rest))
            } else {
                None
            }
        }
        None => lend_other_number(text),
    }
}

// As `lend_number`, of a number that isn't digits alone.
#[tactic(auto, using(crate::proofs::Numbers::canonic_texts), unfolding(crate::specs::Literal::literal_at, crate::specs::Literal::numeric_at))]
fn lend_other_number(text: &[u8]) -> Option<(&[u8], &[u8])>
    requires { (begins_with_byte byte.quote text.now || begins_with_byte byte.dollar text.now) ≡ false }
    ensures { IfSome result (λ x. literal_at text.now ≡ Some (x.0.now, x.1.now)) }
{
    let (number, rest) = split_number(text);
    if is_canonic(number) {
        Some((number, rest))
    } else {
        None
    }
}

// The string of a literal that stands in the text as it is, and what follows it. It is lent from the text.
pub(crate) fn lend_literal(text: &[u8]) -> Option<(&[u8], &[u8])>
    ensures { IfSome result (λ x. literal_at text.now ≡ Some (x.0.now, x.1.now)) }
{
    if begins_part(text) {
        lend_quoted(text)
    } else {
        lend_number(text)
    }
}

// A literal whose string has to be made.
#[tactic(auto, using(crate::proofs::Fronts::from_nothing), unfolding(crate::specs::Literal::literal_at))]
pub(crate) fn make_literal(alloc: Global, text: &[u8]) -> Result<(Text, &[u8]), Refusal>
    ensures { GivesUnlessMemory (λ x. (x.0, x.1.now)) result (literal_at text.now) }
{
    if !begins_part(text) {
        return read_number(alloc, text);
    }
    let mut string = Text::new(alloc);
    let rest = read_parts(text, &mut string)?;
    Ok((string, rest))
}

/// The literal at the front of a text: the string that it stands for, and what follows it.
///
/// A string has no limit here. Refusals: `BadLine` where no literal stands there; `OutOfMemory`.
pub fn read_literal(alloc: Global, text: &[u8]) -> Result<(Text, &[u8]), Refusal>
    ensures exact { GivesUnlessMemory (λ x. (x.0, x.1.now)) result (literal_at text.now) }
{
    match lend_literal(text) {
        Some((string, rest)) => {
            let string = Text::from_slice(alloc, string)?;
            Ok((string, rest))
        }
        None => make_literal(alloc, text),
    }
}

/// What follows the literal at the front of a text. Takes no memory.
///
/// Refusals: `BadLine` where no literal stands there.
#[tactic(auto, unfolding(crate::specs::Literal::literal_at))]
pub fn skip_literal(text: &[u8]) -> Result<&[u8], Refusal>
    ensures exact { GivesExactly (λ rest. rest.now) result (rest_of (literal_at text.now)) }
{
    if begins_part(text) {
        skip_parts(text)
    } else {
        skip_number(text)
    }
}
