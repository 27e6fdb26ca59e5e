//! References and places, read straight into key bytes.
ghost use Rattle.std.specs.Prelude.{◌≡◌, ◌||◌, [], Some, false, true};
ghost use Rattle.collation.specs.Bytes as byte;
ghost use Rattle.collation.specs.Reference.{Reference};
ghost use Rattle.canonic_number.specs.Number.{is_canonic};
ghost use Rattle.key_codec.specs.Draft.{IsDraft, IsJudged};
ghost use Rattle.m_text.specs.Drafts.{Drafts, DraftsSpelled};
ghost use Rattle.m_text.specs.Literal.{literal_at};
ghost use Rattle.m_text.specs.Reading.{Answers, GivesExactly, begins_with_byte, rest_of, with_front, parted_at};
ghost use Rattle.m_text.specs.Place.{subscript_at, subscripts_at, named_at, place_at, ref_at};

use crate::front::{after, split_word};
use crate::literal::{begins_part, make_literal, skip_literal};
use crate::numeral::{split_number, split_whole};
use crate::quoted::lend_quoted;
use canonic_number::{NumberParts, parts, whole_parts};
use key_codec::{Key, KeyDraft};
use refusal::Refusal;
use std::alloc::Global;

// Reads a literal that isn't in the text as it stands.
fn read_made<'a>(alloc: Global, text: &'a [u8], draft: &mut KeyDraft) -> Result<&'a [u8], Refusal>
    ensures { (r : Reference) → IsDraft draft.old r → Drafts draft.new r.name result (with_front r.subscripts (subscript_at text.now)) }
{
    match make_literal(alloc, text) {
        Ok((subscript, rest)) => {
            draft.push(subscript.as_slice())?;
            Ok(rest)
        }
        Err(refusal) => Err(refusal),
    }
}

// Reads a quoted text or `$C`, and what is joined to it.
fn read_string<'a>(alloc: Global, text: &'a [u8], draft: &mut KeyDraft) -> Result<&'a [u8], Refusal>
    ensures { (r : Reference) → IsDraft draft.old r → Drafts draft.new r.name result (with_front r.subscripts (subscript_at text.now)) }
{
    match lend_quoted(text) {
        Some((string, rest)) => {
            draft.push(string)?;
            Ok(rest)
        }
        None => read_made(alloc, text, draft),
    }
}

// Reads a number whose parts are known, or makes it where it isn't canonic.
#[inline(always)]
fn read_judged<'a>(
    alloc: Global,
    text: &'a [u8],
    number: &[u8],
    known: Option<NumberParts<'_>>,
    rest: &'a [u8],
    draft: &mut KeyDraft,
) -> Result<&'a [u8], Refusal>
    requires judged { IsJudged number.now known }
    requires lent { is_canonic number.now ≡ true → literal_at text.now ≡ Some (number.now, rest.now) }
    ensures { (r : Reference) → IsDraft draft.old r → Drafts draft.new r.name result (with_front r.subscripts (subscript_at text.now)) }
{
    if known.is_none() {
        return read_made(alloc, text, draft);
    }
    draft.push_judged(number, known)?;
    Ok(rest)
}

#[tactic(auto, using(crate::proofs::Numbers::canonic_texts), unfolding(crate::specs::Literal::literal_at, crate::specs::Literal::numeric_at))]
fn read_number<'a>(alloc: Global, text: &'a [u8], draft: &mut KeyDraft) -> Result<&'a [u8], Refusal>
    requires { (begins_with_byte byte.quote text.now || begins_with_byte byte.dollar text.now) ≡ false }
    ensures { (r : Reference) → IsDraft draft.old r → Drafts draft.new r.name result (with_front r.subscripts (subscript_at text.now)) }
{
    match split_whole(text) {
        Some((digits, rest)) => {
            read_judged(alloc, text, digits, whole_parts(digits), rest, draft)
        }
        None => {
            let (number, rest) = split_number(text);
            read_judged(alloc, text, number, parts(number), rest, draft)
        }
    }
}

fn read_subscript<'a>(
    alloc: Global,
    text: &'a [u8],
    draft: &mut KeyDraft,
) -> Result<&'a [u8], Refusal>
    ensures { (r : Reference) → IsDraft draft.old r → Drafts draft.new r.name result (with_front r.subscripts (subscript_at text.now)) }
{
    if begins_part(text) {
        read_string(alloc, text, draft)
    } else {
        read_number(alloc, text, draft)
    }
}

fn read_list<'a>(alloc: Global, text: &'a [u8], draft: &mut KeyDraft) -> Result<&'a [u8], Refusal>
    ensures { (r : Reference) → IsDraft draft.old r → Drafts draft.new r.name result (with_front r.subscripts (parted_at subscript_at byte.comma text.now)) }
{
    let mut rest = text;
    'subscripts: for _ in 0..text.len() {
        match read_subscript(alloc, rest, draft) {
            Ok(behind) => match after(b',', behind) {
                Some(more) => rest = more,
                None => return Ok(behind),
            },
            Err(refusal) => return Err(refusal),
        }
    }
    Err(Refusal::BadLine)
}

fn read_subscripts<'a>(
    alloc: Global,
    text: &'a [u8],
    draft: &mut KeyDraft,
) -> Result<&'a [u8], Refusal>
    ensures { (r : Reference) → IsDraft draft.old r → r.subscripts ≡ [] → Drafts draft.new r.name result (subscripts_at text.now) }
{
    match after(b'(', text) {
        Some(list) => match read_list(alloc, list, draft) {
            Ok(rest) => match after(b')', rest) {
                Some(rest) => Ok(rest),
                None => Err(Refusal::BadLine),
            },
            Err(refusal) => Err(refusal),
        },
        None => Ok(text),
    }
}

/// Reads what is spelled as a name word and subscripts at the front of a text, a reference or place without its caret,
/// into a draft, and answers what follows it.
///
/// Whatever faults it has, as `read_draft`. Refusals: `BadLine` where none is spelled there; `OutOfMemory`.
pub fn read_named<'a>(
    alloc: Global,
    text: &'a [u8],
    draft: &mut KeyDraft,
) -> Result<&'a [u8], Refusal>
    ensures { DraftsSpelled draft.new result (named_at text.now) }
{
    let (word, rest) = split_word(text);
    if word.is_empty() {
        return Err(Refusal::BadLine);
    }
    draft.begin(word)?;
    read_subscripts(alloc, rest, draft)
}

/// Reads what is spelled as a reference or place at the front of a text into a draft, and answers what follows it.
///
/// Whatever faults it has: `KeyDraft::key` and `KeyDraft::place` tell them. Refusals: `BadLine` where none is spelled
/// there; `OutOfMemory`.
pub fn read_draft<'a>(
    alloc: Global,
    text: &'a [u8],
    draft: &mut KeyDraft,
) -> Result<&'a [u8], Refusal>
    ensures { DraftsSpelled draft.new result (place_at text.now) }
{
    match after(b'^', text) {
        Some(named) => read_named(alloc, named, draft),
        None => Err(Refusal::BadLine),
    }
}

/// The key of the reference at the front of a text, and what follows it, by way of a draft that serves again.
///
/// Takes memory only for a draft longer than any before, and for a key of over 38 bytes. Refusals, in this order:
/// `BadLine` where no reference is spelled there; then those of `KeyDraft::key`. The limits measure the strings that
/// the literals stand for.
pub fn read_reference<'a>(
    alloc: Global,
    text: &'a [u8],
    draft: &mut KeyDraft,
) -> Result<(Key, &'a [u8]), Refusal>
    ensures exact { Answers (λ x. (x.0, x.1.now)) result (ref_at text.now) }
{
    match read_draft(alloc, text, draft) {
        Ok(rest) => match draft.key(alloc) {
            Ok(key) => Ok((key, rest)),
            Err(refusal) => Err(refusal),
        },
        Err(refusal) => Err(refusal),
    }
}

fn skip_subscript(text: &[u8]) -> Result<&[u8], Refusal>
    ensures { GivesExactly (λ rest. rest.now) result (rest_of (subscript_at text.now)) }
{
    skip_literal(text)
}

fn skip_list(text: &[u8]) -> Result<&[u8], Refusal>
    ensures { GivesExactly (λ rest. rest.now) result (rest_of (parted_at subscript_at byte.comma text.now)) }
{
    let mut rest = text;
    'subscripts: for _ in 0..text.len() {
        let behind = skip_subscript(rest)?;
        match after(b',', behind) {
            Some(more) => rest = more,
            None => return Ok(behind),
        }
    }
    Err(Refusal::BadLine)
}

#[tactic(auto, unfolding(crate::specs::Place::subscripts_at))]
fn skip_subscripts(text: &[u8]) -> Result<&[u8], Refusal>
    ensures { GivesExactly (λ rest. rest.now) result (rest_of (subscripts_at text.now)) }
{
    match after(b'(', text) {
        Some(list) => {
            let rest = skip_list(list)?;
            match after(b')', rest) {
                Some(rest) => Ok(rest),
                None => Err(Refusal::BadLine),
            }
        }
        None => Ok(text),
    }
}

#[tactic(auto, unfolding(crate::specs::Place::named_at))]
fn skip_named(text: &[u8]) -> Result<&[u8], Refusal>
    ensures { GivesExactly (λ rest. rest.now) result (rest_of (named_at text.now)) }
{
    let (word, rest) = split_word(text);
    if word.is_empty() {
        Err(Refusal::BadLine)
    } else {
        skip_subscripts(rest)
    }
}

/// What follows the reference or place at the front of a text, whatever faults it has. Takes no memory.
///
/// Refusals: `BadLine` where none is spelled there.
#[tactic(auto, unfolding(crate::specs::Place::place_at))]
pub fn skip_place(text: &[u8]) -> Result<&[u8], Refusal>
    ensures exact { GivesExactly (λ rest. rest.now) result (rest_of (place_at text.now)) }
{
    match after(b'^', text) {
        Some(named) => skip_named(named),
        None => Err(Refusal::BadLine),
    }
}
