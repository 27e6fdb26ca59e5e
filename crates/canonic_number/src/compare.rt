//! Canonic numbers, compared by value.
ghost use Rattle.std.specs.Prelude.{◌≡◌, ◌≤◌, length};
ghost use Rattle.std.specs.Ordering.{nat_cmp, int_cmp, ordering_then};
ghost use Rattle.std.specs.Cmp.Lexicographic.{slice_cmp};
ghost use Rattle.canonic_number.specs.Number as number;
ghost use Rattle.canonic_number.specs.Parts.{IsNumeral, numeral_at, unsigned_at};

use crate::Numeral;
use std::cmp::Ordering;

/// Compares two canonic numbers by value. Takes fractions of at most 254 digits, as those of subscripts are.
pub fn cmp_numerals(a: &Numeral<'_>, b: &Numeral<'_>) -> Ordering
    requires a_form { IsNumeral a.now }
    requires b_form { IsNumeral b.now }
    requires a_short { length a.now.fraction.now ≤ number.scale }
    requires b_short { length b.now.fraction.now ≤ number.scale }
    ensures { result ≡ int_cmp (numeral_at number.scale a.now) (numeral_at number.scale b.now) }
{
    match (a.negative, b.negative) {
        (false, false) => cmp_unsigned(a, b),
        (true, true) => cmp_unsigned(b, a),
        (true, false) => Ordering::Less,
        (false, true) => Ordering::Greater,
    }
}

// The longer whole part is the greater.
fn cmp_unsigned(a: &Numeral<'_>, b: &Numeral<'_>) -> Ordering
    requires a_form { IsNumeral a.now }
    requires b_form { IsNumeral b.now }
    requires a_short { length a.now.fraction.now ≤ number.scale }
    requires b_short { length b.now.fraction.now ≤ number.scale }
    ensures { result ≡ nat_cmp (unsigned_at number.scale a.now) (unsigned_at number.scale b.now) }
{
    cmp_digits(a, b)
}

// The longer whole part, else the whole parts, else the fractions decide; each is looked at only if needed.
fn cmp_digits(a: &Numeral<'_>, b: &Numeral<'_>) -> Ordering
    ensures { result ≡ ordering_then (nat_cmp (length a.now.whole.now) (length b.now.whole.now))
        (ordering_then (slice_cmp nat_cmp a.now.whole.now b.now.whole.now) (slice_cmp nat_cmp a.now.fraction.now b.now.fraction.now)) }
{
    match a.whole.len().cmp(&b.whole.len()) {
        Ordering::Less => Ordering::Less,
        Ordering::Greater => Ordering::Greater,
        Ordering::Equal => match a.whole.cmp(&b.whole) {
            Ordering::Less => Ordering::Less,
            Ordering::Greater => Ordering::Greater,
            Ordering::Equal => a.fraction.cmp(&b.fraction),
        },
    }
}
