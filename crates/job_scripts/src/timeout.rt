//! The timeout of a LOCK line.
ghost use Rattle.std.specs.Prelude.{◌≡◌, ◌<◌, ◌≤◌, ◌+◌, ◌*◌, ◌-◌, ℕ, List, length, MatchOption, IfSome, Option, None, Some, if◌then◌else◌};
ghost use Rattle.std.specs.Option.{option_or};
ghost use Rattle.std.specs.List.{list_all};
ghost use Rattle.m_text.specs.Literal.{number_from};
ghost use Rattle.script.specs.Commands as commands;
ghost use Rattle.script.specs.Locking.{are_few};
ghost use Rattle.job_scripts.specs.Timeouts.{digit_in, thousandths_in, whole_in, fraction_in, millis_in, timeout_in};

use bstr::ByteSlice;
use m_text::{after, split_digits};

/// The most digits of a timeout, before its point and behind it.
const MOST_DIGITS: usize = 9;

// What follows the first colon.
#[tactic(auto, using(crate::proofs::Timeouts::behind_the_first, crate::proofs::Timeouts::without_one))]
fn past_colon(text: &[u8]) -> Option<&[u8]>
    ensures timeout { MatchOption result (timeout_in text.now ≡ None) (λ rest. timeout_in text.now ≡ option_or (millis_in rest.now) (timeout_in rest.now)) }
    ensures shorter { IfSome result (λ rest. length rest.now < length text.now) }
{
    let colon = text.find_byte(b':')?;
    Some(&text[colon + 1..])
}

// Whether there is nothing but blanks.
fn is_blank(text: &[u8]) -> bool
    ensures { result ≡ list_all commands.is_blank text.now }
{
    text.iter().all(|byte| *byte == b' ' || *byte == b'\t')
}

fn digit_value(digit: u8) -> u64
    ensures value { result ≡ digit - 48 }
    ensures small { result ≤ 255 }
{
    u64::from(digit.saturating_sub(b'0'))
}

// The number of at most nine digits.
#[tactic(auto, using(crate::proofs::Timeouts::one_more))]
fn number_of(digits: &[u8]) -> u64
    requires { length digits.now ≤ 9 }
    ensures value { result ≡ number_from 0 digits.now }
    ensures small { result ≤ 28333333305 }
{
    let mut n = 0u64;
    'digits: for digit in digits {
        n = n * 10 + digit_value(*digit);
    }
    n
}

// The value of the digit at this place, where there is one, else 0.
fn digit_at(digits: &[u8], place: usize) -> u64
    ensures value { result ≡ digit_in digits.now place }
    ensures small { result ≤ 255 }
{
    match digits.get(place) {
        Some(digit) => digit_value(*digit),
        None => 0,
    }
}

// How many thousandths the first three digits behind a point are.
fn thousandths(digits: &[u8]) -> u64
    ensures value { result ≡ thousandths_in digits.now }
    ensures small { result ≤ 28305 }
{
    digit_at(digits, 0) * 100 + digit_at(digits, 1) * 10 + digit_at(digits, 2)
}

// So many whole seconds, of one to nine digits, that blanks alone follow, in milliseconds.
fn whole_at(digits: &[u8], rest: &[u8]) -> Option<u64>
    ensures { result ≡ whole_in digits.now rest.now }
{
    if digits.is_empty() || digits.len() > MOST_DIGITS || !is_blank(rest) {
        return None;
    }
    Some(number_of(digits) * 1_000)
}

// The same with a fraction, whose point stands before this text.
fn fraction_at(digits: &[u8], text: &[u8]) -> Option<u64>
    ensures { result ≡ fraction_in digits.now text.now }
{
    let (parts, rest) = split_digits(text);
    if digits.len() > MOST_DIGITS
        || parts.is_empty()
        || parts.len() > MOST_DIGITS
        || !is_blank(rest)
    {
        return None;
    }
    Some(number_of(digits) * 1_000 + thousandths(parts))
}

// How many milliseconds the seconds are that blanks alone follow.
fn millis_at(text: &[u8]) -> Option<u64>
    ensures { result ≡ millis_in text.now }
{
    let (digits, rest) = split_digits(text);
    match after(b'.', rest) {
        Some(behind) => fraction_at(digits, behind),
        None => whole_at(digits, rest),
    }
}

/// How many milliseconds a line with a LOCK waits for its names at most, where it has a timeout: the seconds behind a
/// colon which nothing but blanks follows, of which thousandths count and no less. The line is one that was read; one
/// without a timeout has no such colon.
pub fn timeout_of(line: &[u8]) -> Option<u64>
    ensures { result ≡ timeout_in line.now }
{
    let mut text = line;
    'colons: while let Some(rest) = past_colon(text) {
        if let Some(millis) = millis_at(rest) {
            return Some(millis);
        }
        text = rest;
    }
    None
}
