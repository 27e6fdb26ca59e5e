//! Strings, references and keys as text.
ghost use Rattle.std.specs.Prelude.{◌≡◌, ◌<◌, ◌++◌, ◌∷◌, length, decimal, OnOk, OnErr};
ghost use Rattle.std.specs.Bool.{beq};
ghost use Rattle.std.specs.List.{flat_map, position};
ghost use Rattle.collation.specs.Bytes as byte;
ghost use Rattle.key_codec.specs.Grown.{GoesOnFrom};
ghost use Rattle.m_text.specs.Written as written;

use crate::quoted::write_quoted;
use canonic_number::is_canonic;
use itoa::Buffer;
use key_codec::{Key, KeySubscript, KeySubscripts};
use std::alloc::{AllocError, Global};

fn is_plain(byte: u8) -> bool
    ensures { result ≡ written.is_plain byte }
{
    byte >= 32 && byte <= 126
}

// The first byte that isn't of the kind.
fn run_end(plain: bool, text: &[u8]) -> Option<usize>
    ensures { result ≡ position (written.ends_run plain) text.now }
{
    text.iter().position(|byte| is_plain(*byte) != plain)
}

// The longest run at the front, and what follows it.
fn split_run(text: &[u8]) -> (&[u8], &[u8])
    requires { 0 < length text.now }
    ensures runs { written.runs text.now ≡ result.0.now ∷ written.runs result.1.now }
    ensures shorter { length result.1.now < length text.now }
{
    let plain = is_plain(text[0]);
    match run_end(plain, text) {
        Some(n) => text.split_at(n),
        None => text.split_at(text.len()),
    }
}

fn write_code(byte: u8, out: &mut Vec<u8>) -> Result<(), AllocError>
    ensures ok { OnOk result (out.new.items ≡ out.old.items ++ decimal byte) }
    ensures kept { GoesOnFrom out.old.items out.new.items }
{
    let mut buffer = Buffer::new();
    out.extend_from_slice(buffer.format(byte).as_bytes())
}

fn write_more_codes(bytes: &[u8], out: &mut Vec<u8>) -> Result<(), AllocError>
    ensures ok { OnOk result (out.new.items ≡ out.old.items ++ flat_map (λ b. byte.comma ∷ decimal b) bytes.now) }
    ensures kept { GoesOnFrom out.old.items out.new.items }
{
    'codes: for byte in bytes {
        out.push(b',')?;
        write_code(*byte, out)?;
    }
    Ok(())
}

fn write_codes(bytes: &[u8], out: &mut Vec<u8>) -> Result<(), AllocError>
    ensures ok { OnOk result (out.new.items ≡ out.old.items ++ written.parted byte.comma decimal bytes.now) }
    ensures kept { GoesOnFrom out.old.items out.new.items }
{
    match bytes {
        [] => Ok(()),
        [first, rest @ ..] => {
            write_code(*first, out)?;
            write_more_codes(rest, out)
        }
    }
}

fn write_chars(bytes: &[u8], out: &mut Vec<u8>) -> Result<(), AllocError>
    ensures ok { OnOk result (out.new.items ≡ out.old.items ++ written.char_text bytes.now) }
    ensures kept { GoesOnFrom out.old.items out.new.items }
{
    out.extend_from_slice(b"$C(")?;
    write_codes(bytes, out)?;
    out.push(b')')?;
    Ok(())
}

fn write_run(run: &[u8], out: &mut Vec<u8>) -> Result<(), AllocError>
    ensures ok { OnOk result (out.new.items ≡ out.old.items ++ written.run_text run.now) }
    ensures kept { GoesOnFrom out.old.items out.new.items }
{
    match run {
        [] => write_quoted(run, out),
        [first, ..] => {
            if is_plain(*first) {
                write_quoted(run, out)
            } else {
                write_chars(run, out)
            }
        }
    }
}

fn write_runs(text: &[u8], out: &mut Vec<u8>) -> Result<(), AllocError>
    ensures ok { OnOk result (out.new.items ≡ out.old.items ++ written.parted byte.underscore written.run_text (written.runs text.now)) }
    ensures kept { GoesOnFrom out.old.items out.new.items }
{
    let mut rest = text;
    'runs: while !rest.is_empty() {
        let (run, after) = split_run(rest);
        write_run(run, out)?;
        if after.is_empty() {
            return Ok(());
        }
        out.push(b'_')?;
        rest = after;
    }
    Ok(())
}

fn push_literal(string: &[u8], out: &mut Vec<u8>) -> Result<(), AllocError>
    ensures ok { OnOk result (out.new.items ≡ out.old.items ++ written.literal_text string.now) }
    ensures kept { GoesOnFrom out.old.items out.new.items }
{
    match string {
        [] => write_quoted(string, out),
        [_, ..] => {
            if is_canonic(string) {
                out.extend_from_slice(string)
            } else {
                write_runs(string, out)
            }
        }
    }
}

/// Writes a string at the end of `out`, as a literal, in the one way in which it is written.
///
/// A canonic number is written bare; another string as its longest runs of bytes 32 to 126, in quotes, and
/// of other bytes, as `$C` with their codes, joined by `_`. Where memory is refused `out` is as it was.
#[tactic(auto, using(key_codec::specs::laws::Grown::back_to))]
pub fn write_literal(string: &[u8], out: &mut Vec<u8>) -> Result<(), AllocError>
    ensures ok { OnOk result (out.new.items ≡ out.old.items ++ written.literal_text string.now) }
    ensures err { OnErr result (out.new.items ≡ out.old.items) }
{
    let before = out.len();
    match push_literal(string, out) {
        Ok(()) => Ok(()),
        Err(error) => {
            out.truncate(before);
            Err(error)
        }
    }
}

// Writes a subscript that stands in its key with escapes.
fn write_escaped(
    alloc: Global,
    subscript: &KeySubscript<'_>,
    out: &mut Vec<u8>,
) -> Result<(), AllocError>
    ensures ok { OnOk result (out.new.items ≡ out.old.items ++ written.literal_text subscript.now) }
    ensures kept { GoesOnFrom out.old.items out.new.items }
{
    let mut draft = Vec::new(alloc);
    subscript.push_to(&mut draft)?;
    push_literal(draft.as_slice(), out)
}

// Writes a subscript of a key as a literal.
fn write_subscript(subscript: &KeySubscript<'_>, out: &mut Vec<u8>) -> Result<(), AllocError>
    ensures ok { OnOk result (out.new.items ≡ out.old.items ++ written.literal_text subscript.now) }
    ensures kept { GoesOnFrom out.old.items out.new.items }
{
    if subscript.is_number() {
        return subscript.push_to(out);
    }
    match subscript.as_slice() {
        Some(text) => push_literal(text, out),
        None => write_escaped(*out.allocator(), subscript, out),
    }
}

fn write_more_subscripts(subscripts: KeySubscripts<'_>, out: &mut Vec<u8>) -> Result<(), AllocError>
    ensures ok { OnOk result (out.new.items ≡ out.old.items ++ flat_map (λ s. byte.comma ∷ written.literal_text s) subscripts.entry) }
    ensures kept { GoesOnFrom out.old.items out.new.items }
{
    'subscripts: for subscript in subscripts {
        out.push(b',')?;
        write_subscript(&subscript, out)?;
    }
    Ok(())
}

fn write_subscripts(mut subscripts: KeySubscripts<'_>, out: &mut Vec<u8>) -> Result<(), AllocError>
    ensures ok { OnOk result (out.new.items ≡ out.old.items ++ written.subscripts_text subscripts.entry) }
    ensures kept { GoesOnFrom out.old.items out.new.items }
{
    match subscripts.next() {
        Some(first) => {
            out.push(b'(')?;
            write_subscript(&first, out)?;
            write_more_subscripts(subscripts, out)?;
            out.push(b')')?;
            Ok(())
        }
        None => Ok(()),
    }
}

fn push_named(key: &Key, out: &mut Vec<u8>) -> Result<(), AllocError>
    ensures ok { OnOk result (out.new.items ≡ out.old.items ++ (key.now.name ++ written.subscripts_text key.now.subscripts)) }
    ensures kept { GoesOnFrom out.old.items out.new.items }
{
    out.extend_from_slice(key.name())?;
    write_subscripts(key.subscripts(), out)
}

fn push_key(key: &Key, out: &mut Vec<u8>) -> Result<(), AllocError>
    ensures ok { OnOk result (out.new.items ≡ out.old.items ++ written.reference_text key.now) }
    ensures kept { GoesOnFrom out.old.items out.new.items }
{
    out.push(b'^')?;
    push_named(key, out)
}

/// Writes the reference of a key at the end of `out`: a caret, the name, and the subscripts as literals.
///
/// Where memory is refused `out` is as it was.
#[tactic(auto, using(key_codec::specs::laws::Grown::back_to))]
pub fn write_key(key: &Key, out: &mut Vec<u8>) -> Result<(), AllocError>
    ensures ok { OnOk result (out.new.items ≡ out.old.items ++ written.reference_text key.now) }
    ensures err { OnErr result (out.new.items ≡ out.old.items) }
{
    let before = out.len();
    match push_key(key, out) {
        Ok(()) => Ok(()),
        Err(error) => {
            out.truncate(before);
            Err(error)
        }
    }
}

/// Writes the reference of a key at the end of `out` without its caret: the name, and the subscripts as literals.
///
/// Where memory is refused `out` is as it was.
#[tactic(auto, using(key_codec::specs::laws::Grown::back_to))]
pub fn write_named(key: &Key, out: &mut Vec<u8>) -> Result<(), AllocError>
    ensures ok { OnOk result (out.new.items ≡ out.old.items ++ (key.now.name ++ written.subscripts_text key.now.subscripts)) }
    ensures err { OnErr result (out.new.items ≡ out.old.items) }
{
    let before = out.len();
    match push_named(key, out) {
        Ok(()) => Ok(()),
        Err(error) => {
            out.truncate(before);
            Err(error)
        }
    }
}
