//! The number that a text begins with, as a text, and the sum of two.
ghost use Rattle.std.specs.Prelude.{◌≡◌, ◌≤◌, ◌+◌, ◌-◌, ◌+ℤ◌, ℕ, true, false, length, max, IfErr, IfOk};
ghost use Rattle.std.specs.Ordering.{nat_cmp, ordering_then};
ghost use Rattle.std.specs.Cmp.Lexicographic.{slice_cmp};
ghost use Rattle.canonic_number.specs.Parts.{AreDigits, numeral_at, unsigned_at};
ghost use Rattle.decimal_sum.specs.Front.{with_sign};
ghost use Rattle.decimal_sum.specs.Sums.{IsNumber, IsSum, IsTextOf, number_of, sum_of};
ghost use Rattle.refusal.specs.declared.Refusal.{Refusal};

use crate::columns::{add, put_in_columns, sized, take};
use crate::front::read_front;
use crate::writing::{write_parted, write_shortest};
use canonic_number::Numeral;
use refusal::Refusal;
use std::alloc::Global;
use std::cmp::Ordering;

/// The canonic text of the number that a text begins with.
///
/// That is: any number of signs (`+`, `-`), digits, and a point with digits, as many as there are; `0` where there
/// are no digits. Our own profile of M's numeric interpretation: an exponent isn't read, so `1E5` is `1`.
/// Refusals: `OutOfMemory`.
pub fn number_of(alloc: Global, text: &[u8]) -> Result<Vec<u8>, Refusal>
    ensures value { IfOk result (λ number. IsNumber text.now number.items) }
    ensures text { IfOk result (λ number. number.items ≡ number_of text.now) }
    ensures refused { IfErr result (λ refusal. refusal ≡ Refusal.OutOfMemory) }
{
    let number = read_front(text);
    write_shortest(alloc, number.negative, number.whole, number.fraction)
}

/// The canonic text of the sum of the numbers that two texts begin with (`number_of`), exact at any length.
///
/// So it is the sum of two canonic numbers, and of a text and a number as `$INCREMENT` adds them, an extension that
/// every M system has and the standard hasn't. It has no limit: a caller with one looks at the answer's length.
/// Takes steps in proportion to the digits. Refusals: `OutOfMemory`.
pub fn sum(alloc: Global, a: &[u8], b: &[u8]) -> Result<Vec<u8>, Refusal>
    ensures value { IfOk result (λ sum. IsSum a.now b.now sum.items) }
    ensures text { IfOk result (λ sum. sum.items ≡ sum_of a.now b.now) }
    ensures refused { IfErr result (λ refusal. refusal ≡ Refusal.OutOfMemory) }
{
    let a = read_front(a);
    let b = read_front(b);
    sum_numerals(alloc, &a, &b)
}

// Numbers of one sign are added, else the lesser is taken from the greater.
fn sum_numerals(alloc: Global, a: &Numeral<'_>, b: &Numeral<'_>) -> Result<Vec<u8>, Refusal>
    requires first { AreDigits a.now.whole.now a.now.fraction.now }
    requires second { AreDigits b.now.whole.now b.now.fraction.now }
    ensures value { IfOk result (λ text. IsTextOf text.items (max (length a.now.fraction.now) (length b.now.fraction.now)) (λ scale. numeral_at scale a.now +ℤ numeral_at scale b.now)) }
    ensures refused { IfErr result (λ refusal. refusal ≡ Refusal.OutOfMemory) }
{
    if a.negative == b.negative {
        return add_numerals(alloc, a, b);
    }
    if is_less(a, b) {
        take_numerals(alloc, b, a)
    } else {
        take_numerals(alloc, a, b)
    }
}

// Whether a number is less than another, without their signs.
fn is_less(a: &Numeral<'_>, b: &Numeral<'_>) -> bool
    requires first { AreDigits a.now.whole.now a.now.fraction.now }
    requires second { AreDigits b.now.whole.now b.now.fraction.now }
    ensures less { (scale : ℕ) → length a.now.fraction.now ≤ scale → length b.now.fraction.now ≤ scale → result ≡ true → unsigned_at scale a.now ≤ unsigned_at scale b.now }
    ensures other { (scale : ℕ) → length a.now.fraction.now ≤ scale → length b.now.fraction.now ≤ scale → result ≡ false → unsigned_at scale b.now ≤ unsigned_at scale a.now }
{
    matches!(cmp_digits(a, b), Ordering::Less)
}

// The longer whole part, else the whole parts, else the fractions decide.
fn cmp_digits(a: &Numeral<'_>, b: &Numeral<'_>) -> Ordering
    ensures { result ≡ ordering_then (nat_cmp (length a.now.whole.now) (length b.now.whole.now))
        (ordering_then (slice_cmp nat_cmp a.now.whole.now b.now.whole.now) (slice_cmp nat_cmp a.now.fraction.now b.now.fraction.now)) }
{
    match a.whole.len().cmp(&b.whole.len()) {
        Ordering::Less => Ordering::Less,
        Ordering::Greater => Ordering::Greater,
        Ordering::Equal => match a.whole.cmp(&b.whole) {
            Ordering::Less => Ordering::Less,
            Ordering::Greater => Ordering::Greater,
            Ordering::Equal => a.fraction.cmp(&b.fraction),
        },
    }
}

// How many columns two numbers and their sum have before the point, and after it.
fn columns_of(a: &Numeral<'_>, b: &Numeral<'_>) -> Result<(usize, usize), Refusal>
    ensures columns { IfOk result (λ columns. columns.0 ≡ max (length a.now.whole.now) (length b.now.whole.now) + 1) }
    ensures fraction { IfOk result (λ columns. columns.1 ≡ max (length a.now.fraction.now) (length b.now.fraction.now)) }
    ensures refused { IfErr result (λ refusal. refusal ≡ Refusal.OutOfMemory) }
{
    let whole = sized(a.whole.len().max(b.whole.len()), 1)?;
    Ok((whole, a.fraction.len().max(b.fraction.len())))
}

// The sum of two numbers of one sign.
fn add_numerals(alloc: Global, a: &Numeral<'_>, b: &Numeral<'_>) -> Result<Vec<u8>, Refusal>
    requires first { AreDigits a.now.whole.now a.now.fraction.now }
    requires second { AreDigits b.now.whole.now b.now.fraction.now }
    ensures value { IfOk result (λ text. IsTextOf text.items (max (length a.now.fraction.now) (length b.now.fraction.now)) (λ scale. with_sign a.now.negative (unsigned_at scale a.now + unsigned_at scale b.now))) }
    ensures refused { IfErr result (λ refusal. refusal ≡ Refusal.OutOfMemory) }
{
    let (whole, fraction) = columns_of(a, b)?;
    let mut digits = put_in_columns(alloc, a, whole, fraction)?;
    let _carried = add(&mut digits, b, whole);
    write_parted(alloc, a.negative, whole, &digits)
}

// A number less another that isn't greater, with the first one's sign.
fn take_numerals(alloc: Global, a: &Numeral<'_>, b: &Numeral<'_>) -> Result<Vec<u8>, Refusal>
    requires first { AreDigits a.now.whole.now a.now.fraction.now }
    requires second { AreDigits b.now.whole.now b.now.fraction.now }
    requires less { (scale : ℕ) → length a.now.fraction.now ≤ scale → length b.now.fraction.now ≤ scale → unsigned_at scale b.now ≤ unsigned_at scale a.now }
    ensures value { IfOk result (λ text. IsTextOf text.items (max (length a.now.fraction.now) (length b.now.fraction.now)) (λ scale. with_sign a.now.negative (unsigned_at scale a.now - unsigned_at scale b.now))) }
    ensures refused { IfErr result (λ refusal. refusal ≡ Refusal.OutOfMemory) }
{
    let (whole, fraction) = columns_of(a, b)?;
    let mut digits = put_in_columns(alloc, a, whole, fraction)?;
    let _borrowed = take(&mut digits, b, whole);
    write_parted(alloc, a.negative, whole, &digits)
}
