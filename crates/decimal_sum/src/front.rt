//! The number that a text begins with.
ghost use Rattle.std.specs.Prelude.{◌≡◌};
ghost use Rattle.std.specs.List.{position};
ghost use Rattle.canonic_number.specs.Parts.{is_no_digit};
ghost use Rattle.decimal_sum.specs.Front as front;
ghost use Rattle.decimal_sum.specs.Columns.{IsFrontOf};

use crate::digits::{after_zeros, before_zeros};
use canonic_number::Numeral;

// Whether the signs in front negate the number, and what follows them.
fn read_signs(text: &[u8]) -> (bool, &[u8])
    ensures negated { result.0 ≡ front.is_negated text.now }
    ensures rest { result.1.now ≡ front.after_signs text.now }
{
    let mut negated = false;
    let mut rest = text;
    'signs: while let [sign @ (b'+' | b'-'), more @ ..] = rest {
        if *sign == b'-' {
            negated = !negated;
        }
        rest = more;
    }
    (negated, rest)
}

fn digits_end(text: &[u8]) -> Option<usize>
    ensures { result ≡ position is_no_digit text.now }
{
    text.iter().position(|byte| !byte.is_ascii_digit())
}

// The digits in front, and what follows them.
fn split_digits(text: &[u8]) -> (&[u8], &[u8])
    ensures digits { result.0.now ≡ front.front_digits text.now }
    ensures rest { result.1.now ≡ front.past_digits text.now }
{
    match digits_end(text) {
        Some(end) => text.split_at(end),
        None => text.split_at(text.len()),
    }
}

// The digits after a point in front.
fn point_digits(text: &[u8]) -> &[u8]
    ensures { result.now ≡ front.point_digits text.now }
{
    match text {
        [b'.', more @ ..] => split_digits(more).0,
        _ => text.split_at(0).0,
    }
}

// The number that a text begins with, lent from it.
pub(crate) fn read_front(text: &[u8]) -> Numeral<'_>
    ensures { IsFrontOf text.now result }
{
    let (negative, rest) = read_signs(text);
    let (whole, rest) = split_digits(rest);
    Numeral {
        negative,
        whole: after_zeros(whole),
        fraction: before_zeros(point_digits(rest)),
    }
}
