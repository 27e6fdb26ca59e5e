//! What stands after LOCK's word, whatever faults its names have.
ghost use Rattle.std.specs.Prelude.{◌≡◌, List};
ghost use Rattle.collation.specs.Bytes as byte;
ghost use Rattle.collation.specs.Reference.{Resource};
ghost use Rattle.m_text.specs.Reading.{GivesExactly, begins_with_byte, with_front, parted_at};
ghost use Rattle.script.specs.Locking as locking;
ghost use Rattle.script.specs.Sentence.{AreNamed, NamesSpelled, FindsLocking};

use crate::names::Names;
use key_codec::KeyDraft;
use lock_name::{LockCommand, LockNames};
use m_text::{after, read_named, split_digits};
use refusal::Refusal;
use std::alloc::Global;

/// The most digits of a timeout, before its point and behind it.
const MOST_TIMEOUT_DIGITS: usize = 9;

// What a LOCK does with its names, told by its sign.
#[derive(Clone, Copy, Debug)]
pub enum Form {
    Only,
    More,
    Fewer,
}

// The LOCK of this form with these names.
pub(crate) fn locking(form: Form, names: LockNames) -> LockCommand
    ensures { result ≡ locking.locking form names }
{
    match form {
        Form::Only => LockCommand::Only(names),
        Form::More => LockCommand::More(names),
        Form::Fewer => LockCommand::Fewer(names),
    }
}

// The form that a sign tells, and what follows it.
fn split_form(text: &[u8]) -> (Form, &[u8])
    ensures form { result.0 ≡ locking.form_of text.now }
    ensures rest { result.1.now ≡ locking.past_form text.now }
{
    match text {
        [b'+', rest @ ..] => (Form::More, rest),
        [b'-', rest @ ..] => (Form::Fewer, rest),
        _ => (Form::Only, text),
    }
}

// Whether a caret stands there, and what follows it.
fn split_caret(text: &[u8]) -> (bool, &[u8])
    ensures caret { result.0 ≡ begins_with_byte byte.caret text.now }
    ensures rest { result.1.now ≡ locking.past_caret text.now }
{
    match after(b'^', text) {
        Some(rest) => (true, rest),
        None => (false, text),
    }
}

// Reads a lock name to the end of those before it.
fn read_name<'a>(
    alloc: Global,
    text: &'a [u8],
    draft: &mut KeyDraft,
    names: &mut Names,
) -> Result<&'a [u8], Refusal>
    ensures { (ns : List Resource) → AreNamed names.old ns → NamesSpelled names.new result (with_front ns (locking.lock_name_at text.now)) }
{
    let (has_caret, named) = split_caret(text);
    match read_named(alloc, named, draft) {
        Ok(rest) => {
            names.push(alloc, has_caret, draft)?;
            Ok(rest)
        }
        Err(refusal) => Err(refusal),
    }
}

fn read_list<'a>(
    alloc: Global,
    text: &'a [u8],
    draft: &mut KeyDraft,
    names: &mut Names,
) -> Result<&'a [u8], Refusal>
    ensures { (ns : List Resource) → AreNamed names.old ns → NamesSpelled names.new result (with_front ns (parted_at locking.lock_name_at byte.comma text.now)) }
{
    let mut rest = text;
    'names: for _ in 0..text.len() {
        match read_name(alloc, rest, draft, names) {
            Ok(behind) => match after(b',', behind) {
                Some(more) => rest = more,
                None => return Ok(behind),
            },
            Err(refusal) => return Err(refusal),
        }
    }
    Err(Refusal::BadLine)
}

// A lock name, or several in parentheses.
fn read_names<'a>(
    alloc: Global,
    text: &'a [u8],
    draft: &mut KeyDraft,
    names: &mut Names,
) -> Result<&'a [u8], Refusal>
    ensures { NamesSpelled names.new result (locking.lock_names_at text.now) }
{
    names.clear();
    match after(b'(', text) {
        Some(list) => match read_list(alloc, list, draft, names) {
            Ok(rest) => match after(b')', rest) {
                Some(rest) => Ok(rest),
                None => Err(Refusal::BadLine),
            },
            Err(refusal) => Err(refusal),
        },
        None => read_name(alloc, text, draft, names),
    }
}

// What follows one to nine digits.
#[tactic(auto, unfolding(crate::specs::Locking::digits_at))]
fn past_digits(text: &[u8]) -> Result<&[u8], Refusal>
    ensures { GivesExactly (λ rest. rest.now) result (locking.digits_at text.now) }
{
    let (digits, rest) = split_digits(text);
    if digits.is_empty() || digits.len() > MOST_TIMEOUT_DIGITS {
        Err(Refusal::BadLine)
    } else {
        Ok(rest)
    }
}

// What follows seconds: one to nine digits, or up to nine, a point and one to nine.
#[tactic(auto, unfolding(crate::specs::Locking::seconds_at))]
fn past_seconds(text: &[u8]) -> Result<&[u8], Refusal>
    ensures { GivesExactly (λ rest. rest.now) result (locking.seconds_at text.now) }
{
    let (digits, rest) = split_digits(text);
    match after(b'.', rest) {
        Some(fraction) => {
            if digits.len() > MOST_TIMEOUT_DIGITS {
                Err(Refusal::BadLine)
            } else {
                past_digits(fraction)
            }
        }
        None => past_digits(text),
    }
}

// What follows a timeout, or nothing.
#[tactic(auto, unfolding(crate::specs::Locking::timeout_at))]
fn past_timeout(text: &[u8]) -> Result<&[u8], Refusal>
    ensures { GivesExactly (λ rest. rest.now) result (locking.timeout_at text.now) }
{
    match after(b':', text) {
        Some(seconds) => past_seconds(seconds),
        None => Ok(text),
    }
}

// A sign, lock names and a timeout: the form, and what follows them.
#[tactic(auto, unfolding(crate::specs::Locking::locking_at))]
pub(crate) fn read_locking<'a>(
    alloc: Global,
    text: &'a [u8],
    draft: &mut KeyDraft,
    names: &mut Names,
) -> Result<(Form, &'a [u8]), Refusal>
    ensures { FindsLocking names.new result (locking.locking_at text.now) }
{
    let (form, listed) = split_form(text);
    match read_names(alloc, listed, draft, names) {
        Ok(rest) => {
            let rest = past_timeout(rest)?;
            Ok((form, rest))
        }
        Err(refusal) => Err(refusal),
    }
}
