//! `$C` and `$CHAR` with the codes of bytes.
ghost use Rattle.std.specs.Prelude.{◌≡◌, ◌<◌, ◌≤◌, ◌-◌, Some, None, MatchOption, if◌then◌else◌};
ghost use Rattle.collation.specs.Bytes as byte;
ghost use Rattle.m_text.specs.Reading.{GivesUnlessMemory, GivesExactly, rest_of, with_front, parted_at, then_closing};
ghost use Rattle.m_text.specs.Literal.{code_at, chars_at, is_code, number_from};
ghost use Rattle.m_text.specs.Literal as literal;

use crate::front::{after, is_word, number_up_to, split_digits, split_letters};
use collation::Text;
use refusal::Refusal;

// The byte of a code.
fn byte_of(digits: &[u8]) -> Option<u8>
    ensures { result ≡ (if is_code digits.now then Some (number_from 0 digits.now) else None) }
{
    if digits.is_empty() || digits.len() > 3 {
        return None;
    }
    let code = number_up_to(255, digits)?;
    Some(code as u8)
}

fn read_code<'a>(text: &'a [u8], out: &mut Text) -> Result<&'a [u8], Refusal>
    ensures { GivesUnlessMemory (λ rest. (out.new, rest.now)) result (with_front out.old (code_at text.now)) }
{
    let (digits, rest) = split_digits(text);
    match byte_of(digits) {
        Some(byte) => {
            out.extend_from_slice(&[byte])?;
            Ok(rest)
        }
        None => Err(Refusal::BadLine),
    }
}

fn read_codes<'a>(text: &'a [u8], out: &mut Text) -> Result<&'a [u8], Refusal>
    ensures { GivesUnlessMemory (λ rest. (out.new, rest.now)) result (with_front out.old (parted_at code_at byte.comma text.now)) }
{
    let mut rest = text;
    'codes: for _ in 0..text.len() {
        let behind = read_code(rest, out)?;
        match after(b',', behind) {
            Some(more) => rest = more,
            None => return Ok(behind),
        }
    }
    Err(Refusal::BadLine)
}

fn skip_code(text: &[u8]) -> Result<&[u8], Refusal>
    ensures { GivesExactly (λ rest. rest.now) result (rest_of (code_at text.now)) }
{
    let (digits, rest) = split_digits(text);
    match byte_of(digits) {
        Some(_) => Ok(rest),
        None => Err(Refusal::BadLine),
    }
}

fn skip_codes(text: &[u8]) -> Result<&[u8], Refusal>
    ensures { GivesExactly (λ rest. rest.now) result (rest_of (parted_at code_at byte.comma text.now)) }
{
    let mut rest = text;
    'codes: for _ in 0..text.len() {
        let behind = skip_code(rest)?;
        match after(b',', behind) {
            Some(more) => rest = more,
            None => return Ok(behind),
        }
    }
    Err(Refusal::BadLine)
}

// Whether letters are `C` or `CHAR`.
fn is_char_word(letters: &[u8]) -> bool
    ensures { result ≡ literal.is_char_word letters.now }
{
    is_word(b"C", letters) || is_word(b"CHAR", letters)
}

#[tactic(auto, unfolding(crate::specs::Literal::chars_at))]
// What follows the word and its opening parenthesis.
fn codes_of(text: &[u8]) -> Option<&[u8]>
    ensures { MatchOption result (chars_at text.now ≡ None) (λ codes. chars_at text.now ≡ then_closing (parted_at code_at byte.comma codes.now)) }
{
    let (letters, rest) = split_letters(text);
    if !is_char_word(letters) {
        return None;
    }
    after(b'(', rest)
}

// Reads what follows a `$` to the end of `out`, and answers what follows the closing parenthesis.
pub(crate) fn read_chars<'a>(text: &'a [u8], out: &mut Text) -> Result<&'a [u8], Refusal>
    ensures { GivesUnlessMemory (λ rest. (out.new, rest.now)) result (with_front out.old (chars_at text.now)) }
{
    match codes_of(text) {
        Some(codes) => {
            let rest = read_codes(codes, out)?;
            after(b')', rest).ok_or(Refusal::BadLine)
        }
        None => Err(Refusal::BadLine),
    }
}

// What follows the closing parenthesis.
pub(crate) fn skip_chars(text: &[u8]) -> Result<&[u8], Refusal>
    ensures { GivesExactly (λ rest. rest.now) result (rest_of (chars_at text.now)) }
{
    match codes_of(text) {
        Some(codes) => {
            let rest = skip_codes(codes)?;
            after(b')', rest).ok_or(Refusal::BadLine)
        }
        None => Err(Refusal::BadLine),
    }
}
