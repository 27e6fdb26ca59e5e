//! Digits in columns: one number added to another, or taken from it, from the last column to the first.
ghost use Rattle.std.specs.Prelude.{◌≡◌, ◌≤◌, ◌+◌, ◌-◌, ◌*◌, ◌^◌, ◌<◌, ℕ, true, get_or, length, IfErr, IfOk};
ghost use Rattle.std.specs.Char.{is_ascii_digit};
ghost use Rattle.std.specs.List.{list_all};
ghost use Rattle.canonic_number.specs.Number.{worth};
ghost use Rattle.canonic_number.specs.Parts.{AreDigits};
ghost use Rattle.decimal_sum.specs.Columns.{one_if, in_columns};
ghost use Rattle.refusal.specs.declared.Refusal.{Refusal};

use canonic_number::Numeral;
use refusal::Refusal;
use std::alloc::Global;

// A number of bytes, where there can be as many.
pub(crate) fn sized(first: usize, second: usize) -> Result<usize, Refusal>
    ensures sum { IfOk result (λ size. size ≡ first + second) }
    ensures refused { IfErr result (λ refusal. refusal ≡ Refusal.OutOfMemory) }
{
    match first.checked_add(second) {
        Some(size) => Ok(size),
        None => Err(Refusal::OutOfMemory),
    }
}

// The digits of a number in so many columns before the point and after it.
pub(crate) fn put_in_columns(
    alloc: Global,
    number: &Numeral<'_>,
    whole: usize,
    fraction: usize,
) -> Result<Vec<u8>, Refusal>
    requires before { length number.now.whole.now ≤ whole }
    requires after { length number.now.fraction.now ≤ fraction }
    ensures digits { IfOk result (λ digits. digits.items ≡ in_columns whole fraction number.now) }
    ensures refused { IfErr result (λ refusal. refusal ≡ Refusal.OutOfMemory) }
{
    let columns = sized(whole, fraction)?;
    let mut digits = Vec::with_capacity(alloc, columns)?;
    digits.resize(whole - number.whole.len(), b'0')?;
    digits.extend_from_slice(number.whole)?;
    digits.extend_from_slice(number.fraction)?;
    digits.resize(columns, b'0')?;
    Ok(digits)
}

// The digit of a number in a column, where so many columns stand before the point.
fn digit_in(number: &Numeral<'_>, whole: usize, column: usize) -> u8
    requires before { length number.now.whole.now ≤ whole }
    ensures { (fraction : ℕ) → column < whole + fraction → result ≡ get_or (in_columns whole fraction number.now) column 0 }
{
    let first = whole - number.whole.len();
    if column < first {
        b'0'
    } else if column < whole {
        number.whole[column - first]
    } else if column - whole < number.fraction.len() {
        number.fraction[column - whole]
    } else {
        b'0'
    }
}

// One column of a sum, with what is carried into it: its digit, and whether a one is carried on.
fn add_column(digit: u8, other: u8, carried: bool) -> (u8, bool)
    requires digit { is_ascii_digit digit ≡ true }
    requires other { is_ascii_digit other ≡ true }
    ensures value { (result.0 - 48) + one_if result.1 * 10 ≡ (digit - 48) + (other - 48) + one_if carried }
    ensures digit { is_ascii_digit result.0 ≡ true }
{
    let sum = digit + (other - b'0') + u8::from(carried);
    if sum > b'9' {
        (sum - 10, true)
    } else {
        (sum, false)
    }
}

// One column of a difference, with what is borrowed from it: its digit, and whether a one is borrowed from the next.
fn take_column(digit: u8, other: u8, borrowed: bool) -> (u8, bool)
    requires digit { is_ascii_digit digit ≡ true }
    requires other { is_ascii_digit other ≡ true }
    ensures value { (result.0 - 48) + (other - 48) + one_if borrowed ≡ (digit - 48) + one_if result.1 * 10 }
    ensures digit { is_ascii_digit result.0 ≡ true }
{
    let taken = other - b'0' + u8::from(borrowed);
    if digit - b'0' < taken {
        (digit + 10 - taken, true)
    } else {
        (digit - taken, false)
    }
}

// Adds a number to one in columns. Answers whether a one is carried off the first.
pub(crate) fn add(digits: &mut [u8], number: &Numeral<'_>, whole: usize) -> bool
    requires before { length number.now.whole.now ≤ whole }
    requires after { whole + length number.now.fraction.now ≤ length digits.old }
    requires number { AreDigits number.now.whole.now number.now.fraction.now }
    requires digits { list_all is_ascii_digit digits.old ≡ true }
    ensures value { (n : ℕ) → length digits.old ≤ n → worth n digits.new + one_if result * 10 ^ n ≡ worth n digits.old + worth n (in_columns whole (length digits.old - whole) number.now) }
    ensures digits { list_all is_ascii_digit digits.new ≡ true }
    ensures columns { length digits.new ≡ length digits.old }
{
    let mut carried = false;
    let mut at = digits.len();
    'columns: while at > 0 {
        at -= 1;
        let (digit, goes_on) = add_column(digits[at], digit_in(number, whole, at), carried);
        digits[at] = digit;
        carried = goes_on;
    }
    carried
}

// Takes a number from one in columns. Answers whether a one is borrowed from before the first.
pub(crate) fn take(digits: &mut [u8], number: &Numeral<'_>, whole: usize) -> bool
    requires before { length number.now.whole.now ≤ whole }
    requires after { whole + length number.now.fraction.now ≤ length digits.old }
    requires number { AreDigits number.now.whole.now number.now.fraction.now }
    requires digits { list_all is_ascii_digit digits.old ≡ true }
    ensures value { (n : ℕ) → length digits.old ≤ n → worth n digits.new + worth n (in_columns whole (length digits.old - whole) number.now) ≡ worth n digits.old + one_if result * 10 ^ n }
    ensures digits { list_all is_ascii_digit digits.new ≡ true }
    ensures columns { length digits.new ≡ length digits.old }
{
    let mut borrowed = false;
    let mut at = digits.len();
    'columns: while at > 0 {
        at -= 1;
        let (digit, goes_on) = take_column(digits[at], digit_in(number, whole, at), borrowed);
        digits[at] = digit;
        borrowed = goes_on;
    }
    borrowed
}
