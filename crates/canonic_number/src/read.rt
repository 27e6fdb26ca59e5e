//! Canonic numbers: the test, and the sign and digits of one.
ghost use Rattle.std.specs.Prelude.{◌≡◌, ◌↔◌, [], IfSome, IsTrue, MatchOption, is_some, length, true};
ghost use Rattle.std.specs.Char.{is_ascii_digit};
ghost use Rattle.std.specs.List.{list_all, position};
ghost use Rattle.canonic_number.specs.Number as number;
ghost use Rattle.canonic_number.specs.Grammar.{IsCanonic};
ghost use Rattle.canonic_number.specs.Parts.{IsNumeralOf, is_no_digit};

use crate::digits::{begins_with_0, is_fraction};

/// A canonic number, read: its sign, and its digits before and after the point. Zero has none.
#[derive(Clone, Copy, Debug)]
pub struct Numeral<'a> {
    pub negative: bool,
    pub whole: &'a [u8],
    pub fraction: &'a [u8],
}

// Whether a '-' stands in front, and what stands after it.
pub(crate) fn split_sign(text: &[u8]) -> (bool, &[u8])
    ensures sign { result.0 ≡ number.is_negative text.now }
    ensures magnitude { result.1.now ≡ number.magnitude text.now }
{
    match text {
        [b'-', magnitude @ ..] => (true, magnitude),
        _ => (false, text),
    }
}

fn point_of(magnitude: &[u8]) -> Option<usize>
    ensures { result ≡ position number.is_point magnitude.now }
{
    magnitude.iter().position(|byte| *byte == b'.')
}

// What stands before the point, and what after it where there is one.
pub(crate) fn split_point(magnitude: &[u8]) -> (&[u8], Option<&[u8]>)
    ensures whole { result.0.now ≡ number.whole_part magnitude.now }
    ensures point { is_some result.1 ≡ is_some (position number.is_point magnitude.now) }
    ensures fraction { MatchOption result.1 (number.fraction_part magnitude.now ≡ []) (λ f. f.now ≡ number.fraction_part magnitude.now) }
{
    match point_of(magnitude) {
        Some(point) => (&magnitude[..point], Some(&magnitude[point + 1..])),
        None => (magnitude, None),
    }
}

fn digits_end(magnitude: &[u8]) -> Option<usize>
    ensures { result ≡ position is_no_digit magnitude.now }
{
    magnitude.iter().position(|byte| !byte.is_ascii_digit())
}

// As `split_point`, where only digits stand before the point: so digits alone are passed once.
fn split_digits(magnitude: &[u8]) -> Option<(&[u8], Option<&[u8]>)>
    ensures digits { is_some result ≡ list_all is_ascii_digit (number.whole_part magnitude.now) }
    ensures whole { IfSome result (λ x. x.0.now ≡ number.whole_part magnitude.now) }
    ensures point { IfSome result (λ x. is_some x.1 ≡ is_some (position number.is_point magnitude.now)) }
    ensures fraction { IfSome result (λ x. MatchOption x.1 (number.fraction_part magnitude.now ≡ []) (λ f. f.now ≡ number.fraction_part magnitude.now)) }
{
    match digits_end(magnitude) {
        Some(end) => {
            if magnitude[end] == b'.' {
                Some((&magnitude[..end], Some(&magnitude[end + 1..])))
            } else {
                None
            }
        }
        None => Some((magnitude, None)),
    }
}

fn is_zero(text: &[u8]) -> bool
    ensures { result ≡ number.is_zero text.now }
{
    matches!(text, [b'0'])
}

/// The sign and digits of a canonic number, lent from its text; none where the text isn't canonic.
pub fn read_numeral(text: &[u8]) -> Option<Numeral<'_>>
    ensures canonic { is_some result ≡ number.is_canonic text.now }
    ensures parts { IfSome result (IsNumeralOf text.now) }
{
    if is_zero(text) {
        let (none, _) = text.split_at(0);
        return Some(Numeral {
            negative: false,
            whole: none,
            fraction: none,
        });
    }
    let (negative, magnitude) = split_sign(text);
    let (whole, fraction) = split_digits(magnitude)?;
    let (_, none) = magnitude.split_at(magnitude.len());
    let canonic = !magnitude.is_empty()
        && !begins_with_0(whole)
        && fraction.is_none_or(is_fraction);
    if !canonic {
        return None;
    }
    let fraction = fraction.unwrap_or(none);
    Some(Numeral {
        negative,
        whole,
        fraction,
    })
}

// As `read_numeral`, of a text that is digits alone.
#[tactic(auto, using(crate::proofs::Wholes::canonic_whole))]
pub(crate) fn read_whole(digits: &[u8]) -> Option<Numeral<'_>>
    requires { list_all is_ascii_digit digits.now ≡ true }
    ensures canonic { is_some result ≡ number.is_canonic digits.now }
    ensures parts { IfSome result (IsNumeralOf digits.now) }
    ensures fraction { IfSome result (λ n. length n.fraction.now ≡ 0) }
{
    let (_, none) = digits.split_at(digits.len());
    if is_zero(digits) {
        return Some(Numeral {
            negative: false,
            whole: none,
            fraction: none,
        });
    }
    if digits.is_empty() || begins_with_0(digits) {
        return None;
    }
    Some(Numeral {
        negative: false,
        whole: digits,
        fraction: none,
    })
}

/// As `is_canonic`, of a text that is known to be digits alone: they aren't looked at once more.
pub fn is_whole_number(digits: &[u8]) -> bool
    requires { list_all is_ascii_digit digits.now ≡ true }
    ensures { result ≡ number.is_canonic digits.now }
{
    read_whole(digits).is_some()
}

/// Whether a text is a canonic number, of any length.
///
/// That is: `0`, or an optional `-` and then a whole part that begins with 1 to 9, a `.` with a fraction that
/// doesn't end with 0, or both.
pub fn is_canonic(text: &[u8]) -> bool
    ensures test { result ≡ number.is_canonic text.now }
    ensures grammar { IsTrue result ↔ IsCanonic text.now }
{
    read_numeral(text).is_some()
}
