//! Quoted texts.
ghost use Rattle.std.specs.Prelude.{◌≡◌, ◌||◌, ◌<◌, ◌∷◌, ◌++◌, ◌+◌, length, take, drop, None, Some, IfSome, MatchOption, OnOk};
ghost use Rattle.std.specs.List.{flat_map, position};
ghost use Rattle.collation.specs.Bytes as byte;
ghost use Rattle.m_text.specs.Reading.{GivesUnlessMemory, GivesExactly, begins_with_byte, rest_of, with_front};
ghost use Rattle.m_text.specs.Literal.{quoted_at, is_quote, literal_at};
ghost use Rattle.key_codec.specs.Grown.{GoesOnFrom};
ghost use Rattle.m_text.specs.Written.{doubled, quoted};

use crate::front::after;
use collation::Text;
use refusal::Refusal;
use std::alloc::AllocError;

fn quote_in(text: &[u8]) -> Option<usize>
    ensures { result ≡ position is_quote text.now }
{
    text.iter().position(|byte| *byte == b'"')
}

// The bytes before the place of a quote, and what follows it.
fn split_around(text: &[u8], at: usize) -> (&[u8], &[u8])
    requires { at < length text.now }
    ensures before { result.0.now ≡ take at text.now }
    ensures behind { result.1.now ≡ drop (at + 1) text.now }
{
    (&text[..at], &text[at + 1..])
}

// The bytes before the first quote, and what follows it.
fn split_quote(text: &[u8]) -> Option<(&[u8], &[u8])>
    ensures { MatchOption result (quoted_at text.now ≡ None)
        (λ x. (quoted_at text.now ≡ with_front x.0.now (quoted_at (byte.quote ∷ x.1.now))) × (length x.1.now < length text.now)) }
{
    let at = quote_in(text)?;
    Some(split_around(text, at))
}

// Whether a quote that stands before this is doubled, or more is joined to it.
fn goes_on(rest: &[u8]) -> bool
    ensures { result ≡ (begins_with_byte byte.quote rest.now || begins_with_byte byte.underscore rest.now) }
{
    match rest {
        [] => false,
        [first, ..] => *first == b'"' || *first == b'_',
    }
}

// The string of a quoted text at the front, where no quote is doubled in it and nothing is joined to it, and what follows
// it. It is lent from the text.
pub(crate) fn lend_quoted(text: &[u8]) -> Option<(&[u8], &[u8])>
    ensures { IfSome result (λ x. literal_at text.now ≡ Some (x.0.now, x.1.now)) }
{
    let quoted = after(b'"', text)?;
    let (run, rest) = split_quote(quoted)?;
    if goes_on(rest) {
        None
    } else {
        Some((run, rest))
    }
}

// Reads what follows an opening quote to the end of `out`, and answers what follows the closing quote.
#[tactic(auto, using(crate::proofs::QuotedRuns::runs), unfolding(crate::specs::Literal::quoted_at))]
pub(crate) fn read_quoted<'a>(text: &'a [u8], out: &mut Text) -> Result<&'a [u8], Refusal>
    ensures { GivesUnlessMemory (λ rest. (out.new, rest.now)) result (with_front out.old (quoted_at text.now)) }
{
    let mut rest = text;
    'runs: while let Some((run, after)) = split_quote(rest) {
        out.extend_from_slice(run)?;
        match after {
            [b'"', more @ ..] => {
                out.extend_from_slice(b"\"")?;
                rest = more;
            }
            _ => return Ok(after),
        }
    }
    Err(Refusal::BadLine)
}

// What follows a quoted text, from after its opening quote.
#[tactic(auto, using(crate::proofs::QuotedRuns::runs), unfolding(crate::specs::Literal::quoted_at))]
pub(crate) fn skip_quoted(text: &[u8]) -> Result<&[u8], Refusal>
    ensures { GivesExactly (λ rest. rest.now) result (rest_of (quoted_at text.now)) }
{
    let mut rest = text;
    'runs: while let Some((_, after)) = split_quote(rest) {
        match after {
            [b'"', more @ ..] => rest = more,
            _ => return Ok(after),
        }
    }
    Err(Refusal::BadLine)
}

// A string parted at its first quote, which is written twice.
fn split_doubled(text: &[u8]) -> Option<(&[u8], &[u8])>
    ensures { MatchOption result (flat_map doubled text.now ≡ text.now)
        (λ x. (flat_map doubled text.now ≡ x.0.now ++ (byte.quote ∷ byte.quote ∷ flat_map doubled x.1.now)) × (length x.1.now < length text.now)) }
{
    let at = quote_in(text)?;
    Some(split_around(text, at))
}

// Writes a quoted text.
pub(crate) fn write_quoted(text: &[u8], out: &mut Vec<u8>) -> Result<(), AllocError>
    ensures ok { OnOk result (out.new.items ≡ out.old.items ++ quoted text.now) }
    ensures kept { GoesOnFrom out.old.items out.new.items }
{
    out.push(b'"')?;
    let mut rest = text;
    'runs: while let Some((run, after)) = split_doubled(rest) {
        out.extend_from_slice(run)?;
        out.extend_from_slice(b"\"\"")?;
        rest = after;
    }
    out.extend_from_slice(rest)?;
    out.push(b'"')?;
    Ok(())
}
