//! A number from the bytes of its place and digits.
ghost use Rattle.std.specs.Prelude.{◌≡◌, ◌<◌, ◌≤◌, ◌↔◌, ◌+◌, ◌*◌, ◌++◌, ◌&&◌, ℕ, IfNone, IfSome, IsTrue, OnOk, map, nat_le, replicate};
ghost use Rattle.std.specs.List.{list_all};
ghost use Rattle.canonic_number.specs.Number.{scale};
ghost use Rattle.canonic_number.specs.Place.{pointed, signed, written_at};
ghost use Rattle.key_codec.specs.Grown.{GoesOnFrom};
ghost use Rattle.key_codec.specs.Back as back;
ghost use Rattle.key_codec.specs.Reading as reading;
ghost use Rattle.key_codec.specs.Reading.{IsNumberOf};

use crate::MOST_FRACTION_DIGITS;
use canonic_number::{LONGEST_SUBSCRIPT, parts};
use std::alloc::AllocError;

// The place that this number stands for.
pub(crate) fn place_of(negative: bool, word: u16) -> Option<usize>
    ensures some { IfSome result (λ place. (reading.place_word negative place ≡ word) × (place ≤ 2 * scale + 1)) }
    ensures none { IfNone result ((place : ℕ) → 0 < place → place ≤ 2 * scale + 1 → word ≡ reading.place_word negative place → ⊥) }
{
    let word = word as usize;
    if negative {
        (2 * MOST_FRACTION_DIGITS + 1).checked_sub(word)
    } else if word <= 2 * MOST_FRACTION_DIGITS + 3 {
        word.checked_sub(2)
    } else {
        None
    }
}

// As `place_of`, of a number that stands for one.
pub(crate) fn place_from(negative: bool, word: u16) -> usize
    ensures { result ≡ back.place_from negative word }
{
    let word = word as usize;
    if negative {
        (2 * MOST_FRACTION_DIGITS + 1).saturating_sub(word)
    } else {
        word.saturating_sub(2)
    }
}

// The bytes of digits go up to 10.
pub(crate) fn are_digit_bytes(bytes: &[u8]) -> bool
    ensures { result ≡ list_all (λ b. nat_le b 10) bytes.now }
{
    bytes.iter().all(|byte| *byte <= 10)
}

// Writes the digits of these bytes at the end of `out`.
pub(crate) fn push_digits(out: &mut Vec<u8>, negative: bool, bytes: &[u8]) -> Result<(), AllocError>
    ensures ok { OnOk result (out.new.items ≡ out.old.items ++ map (reading.digit_of negative) bytes.now) }
    ensures kept { GoesOnFrom out.old.items out.new.items }
{
    for byte in bytes {
        out.push(digit_of(negative, *byte))?;
    }
    Ok(())
}

// Above zero byte + 47, written so that no byte makes it overflow.
pub(crate) fn digit_of(negative: bool, byte: u8) -> u8
    ensures { result ≡ reading.digit_of negative byte }
{
    if negative {
        58_u8.saturating_sub(byte)
    } else {
        57_u8.saturating_sub(10_u8.saturating_sub(byte))
    }
}

// Writes the number with this sign, this place and these bytes of its digits at the end of `out`.
pub(crate) fn push_number(
    out: &mut Vec<u8>,
    negative: bool,
    place: usize,
    bytes: &[u8],
) -> Result<(), AllocError>
    ensures ok { OnOk result (out.new.items ≡ out.old.items ++ signed negative (written_at scale place (map (reading.digit_of negative) bytes.now))) }
    ensures kept { GoesOnFrom out.old.items out.new.items }
{
    if negative {
        out.push(b'-')?;
        push_magnitude(out, negative, place, bytes)
    } else {
        push_magnitude(out, negative, place, bytes)
    }
}

// As `push_number`, without a sign.
fn push_magnitude(
    out: &mut Vec<u8>,
    negative: bool,
    place: usize,
    bytes: &[u8],
) -> Result<(), AllocError>
    ensures ok { OnOk result (out.new.items ≡ out.old.items ++ written_at scale place (map (reading.digit_of negative) bytes.now)) }
    ensures kept { GoesOnFrom out.old.items out.new.items }
{
    if place > MOST_FRACTION_DIGITS {
        push_pointed(out, negative, place - MOST_FRACTION_DIGITS, bytes)
    } else {
        out.push(b'.')?;
        push_zeros(out, MOST_FRACTION_DIGITS - place)?;
        push_digits(out, negative, bytes)
    }
}

// As many digits before the point, zeros where there are no more, and the rest after it.
fn push_pointed(
    out: &mut Vec<u8>,
    negative: bool,
    whole: usize,
    bytes: &[u8],
) -> Result<(), AllocError>
    ensures ok { OnOk result (out.new.items ≡ out.old.items ++ pointed whole (map (reading.digit_of negative) bytes.now)) }
    ensures kept { GoesOnFrom out.old.items out.new.items }
{
    if bytes.len() <= whole {
        push_digits(out, negative, bytes)?;
        push_zeros(out, whole - bytes.len())
    } else {
        let (before, after) = bytes.split_at(whole);
        push_digits(out, negative, before)?;
        out.push(b'.')?;
        push_digits(out, negative, after)
    }
}

fn push_zeros(out: &mut Vec<u8>, count: usize) -> Result<(), AllocError>
    ensures ok { OnOk result (out.new.items ≡ out.old.items ++ replicate count 48) }
    ensures kept { GoesOnFrom out.old.items out.new.items }
{
    for _ in 0..count {
        out.push(b'0')?;
    }
    Ok(())
}

// Whether a text is the canonic number other than zero with this sign, place and digits, and within the limit.
pub(crate) fn is_number_of(text: &[u8], negative: bool, place: usize, digits: &[u8]) -> bool
    ensures { IsTrue result ↔ IsNumberOf text.now negative place digits.now }
{
    if digits.is_empty() || text.len() > LONGEST_SUBSCRIPT {
        return false;
    }
    match parts(text) {
        Some(number) => {
            let same_place = number.whole + MOST_FRACTION_DIGITS - number.zeros == place;
            number.negative == negative
                && same_place
                && is_joined(digits, number.first, number.second)
        }
        None => false,
    }
}

fn is_joined(all: &[u8], first: &[u8], second: &[u8]) -> bool
    ensures { IsTrue result ↔ (all.now ≡ first.now ++ second.now) }
{
    if first.len() > all.len() {
        return false;
    }
    let (front, rest) = all.split_at(first.len());
    front == first && rest == second
}
