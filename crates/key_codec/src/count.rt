//! How many subscripts stand in a key's bytes, and where so many end, told without memory.
ghost use Rattle.std.specs.Prelude.{◌≡◌, ◌<◌, ◌≤◌, ◌++◌, ◌∷◌, ℕ, List, IfSome, MatchOption, length, take, nat_eq, not, true};
ghost use Rattle.std.specs.List.{list_all};
ghost use Rattle.key_codec.specs.Key as spec;
ghost use Rattle.key_codec.specs.Key.{long_form, IsSubscriptWithin, AreSubscriptsWithin};
ghost use Rattle.key_codec.specs.Reading as reading;

use crate::read::split_at_end;
use crate::read_subscript::{end_of, take_byte, take_word};
use crate::{ABOVE_ZERO, BELOW_ZERO, END, TEXT, ZERO};

// How many subscripts these keys are, one after the other.
pub(crate) fn count_subscripts(bytes: &[u8]) -> usize
    ensures count { (ss : List (List ℕ)) → AreSubscriptsWithin long_form ss → bytes.now ≡ spec.subscripts_key long_form ss → result ≡ length ss }
    ensures few { result ≤ length bytes.now }
{
    let mut count = 0;
    let mut rest = bytes;
    while let Some(more) = skip_subscript(rest) {
        count += 1;
        rest = more;
    }
    count
}

// What stands behind the first so many of these keys, or behind all where there are no more.
pub(crate) fn past_subscripts(bytes: &[u8], len: usize) -> &[u8]
    ensures { (ss : List (List ℕ)) → AreSubscriptsWithin long_form ss → bytes.now ≡ spec.subscripts_key long_form ss → bytes.now ≡ spec.subscripts_key long_form (take len ss) ++ result.now }
{
    if len == 0 {
        return bytes;
    }
    match skip_subscript(bytes) {
        Some(rest) => past_subscripts(rest, len - 1),
        None => bytes,
    }
}

// What follows the subscript whose key stands in front.
fn skip_subscript(bytes: &[u8]) -> Option<&[u8]>
    ensures behind { (s u : List ℕ) → IsSubscriptWithin long_form s → bytes.now ≡ spec.subscript_key long_form s ++ u → MatchOption result ⊥ (λ rest. rest.now ≡ u) }
    ensures shorter { IfSome result (λ rest. length rest.now < length bytes.now) }
{
    let (tag, behind) = take_byte(bytes)?;
    match tag {
        BELOW_ZERO => skip_number(true, behind),
        ZERO => Some(behind),
        ABOVE_ZERO => skip_number(false, behind),
        TEXT => skip_past(behind, END),
        _ => None,
    }
}

// What follows the number whose key stands in front, less its first byte.
fn skip_number(negative: bool, bytes: &[u8]) -> Option<&[u8]>
    ensures behind { (s u : List ℕ) → IsSubscriptWithin long_form s → reading.tag_of negative ∷ bytes.now ≡ spec.subscript_key long_form s ++ u → MatchOption result ⊥ (λ rest. rest.now ≡ u) }
    ensures shorter { IfSome result (λ rest. length rest.now ≤ length bytes.now) }
{
    let (_, digits) = take_word(bytes)?;
    skip_past(digits, end_of(negative))
}

// What stands after the first such byte.
fn skip_past(bytes: &[u8], end: u8) -> Option<&[u8]>
    ensures behind { (xs u : List ℕ) → list_all (λ b. not (nat_eq b end)) xs ≡ true → bytes.now ≡ xs ++ end ∷ u → MatchOption result ⊥ (λ rest. rest.now ≡ u) }
    ensures shorter { IfSome result (λ rest. length rest.now ≤ length bytes.now) }
{
    let (_, rest) = split_at_end(bytes, end)?;
    Some(rest)
}
