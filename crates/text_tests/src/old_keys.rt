//! Old keys: the tables of docs/FORMATS.md, "Old keys", and random references in both forms.
use crate::keys::{Row, TABLE};
use crate::references::reference;
use collation::{Ref, cmp_ref};
use key_codec::{ShortKey, decode_short, encode, encode_short};
use refusal::Refusal;
use std::alloc::Global;
use std::cmp::Ordering;
use std::test::Fail;

// The old keys of the references of the table of keys.
const OLD_KEYS: [&[u8]; 15] = [
    b"\x41\x00",
    b"\x41\x00\x02\x7E\x09\x05\xFF",
    b"\x41\x00\x02\x7E\x09\xFF",
    b"\x41\x00\x02\x7F\x05\xFF",
    b"\x41\x00\x03",
    b"\x41\x00\x04\x80\x06\x00",
    b"\x41\x00\x04\x81\x08\x00",
    b"\x41\x00\x04\x81\x0A\x00",
    b"\x41\x00\x04\x82\x02\x00",
    b"\x41\x00\x04\x82\x02\x00\x03",
    b"\x41\x00\x04\x82\x02\x03\x00",
    b"\x41\x00\x05\x01\x01\x01\x02\x62\x00",
    b"\x41\x00\x05\x30\x30\x37\x00",
    b"\x41\x00\x05\x78\x00",
    b"\x41\x42\x00\x04\x81\x02\x00",
];

fn is_written_as(alloc: Global, reference: &Ref, old: &[u8]) -> Result<bool, Refusal> {
    let written = encode_short(alloc, reference)?;
    Ok(written.as_slice() == old)
}

fn is_read_as(alloc: Global, old: &[u8], reference: &Ref) -> Result<bool, Refusal> {
    let read = decode_short(alloc, old)?;
    Ok(read.as_ref() == Some(reference))
}

fn has_key(alloc: Global, kept: &ShortKey, new: &[u8]) -> Result<bool, Refusal> {
    let key = kept.to_key(alloc)?;
    Ok(key.as_slice() == new)
}

// Whether a `ShortKey` of the reference holds the one, and its key the other.
fn is_kept_as(alloc: Global, of: &Ref, old: &[u8], new: &[u8]) -> Result<bool, Refusal> {
    let kept = ShortKey::of(alloc, of)?;
    Ok(kept.as_slice() == old && has_key(alloc, &kept, new)?)
}

fn is_old_key_of(alloc: Global, of: &Ref, old: &[u8], new: &[u8]) -> Result<bool, Refusal> {
    Ok(
        is_written_as(alloc, of, old)?
            && is_read_as(alloc, old, of)?
            && is_kept_as(alloc, of, old, new)?,
    )
}

fn has_its_old_key(alloc: Global, row: &Row, old: &[u8]) -> Result<bool, Refusal> {
    let reference = reference(alloc, row.0, row.1)?;
    is_old_key_of(alloc, &reference, old, row.2)
}

// The first row whose reference has another old key.
fn first_other(alloc: Global) -> Result<Option<usize>, Refusal> {
    for (i, (row, old)) in TABLE.iter().zip(&OLD_KEYS).enumerate() {
        if !has_its_old_key(alloc, row, old)? {
            return Ok(Some(i));
        }
    }
    Ok(None)
}

#[test]
fn old_keys_are_those_of_the_table(rt: HostRuntime) -> Result<(), Fail> {
    assert_eq!(rt; first_other(rt.alloc())?, None);
    Ok(())
}

fn is_no_old_key(alloc: Global, bytes: &[u8]) -> Result<bool, Refusal> {
    let read = decode_short(alloc, bytes)?;
    Ok(read.is_none())
}

#[test]
fn decode_short_of_bytes_that_are_no_old_key_is_none(rt: HostRuntime) -> Result<(), Fail> {
    let no_keys: &[&[u8]] = &[
        b"\x41",
        b"\x41\x00\x05\x37\x00",
        b"\x41\x00\x04\x81\x01\x00",
        b"\x41\x00\x04\x82\x02\x01\x00",
        b"\x41\x00\x05\x01\x03\x00",
        b"\x41\x00\x05\x78",
        b"\x31\x00",
        // a number cut off before its place; with a place of two bytes; of 128 bytes: a point, 126 zeros and a digit
        b"\x41\x00\x04",
        b"\x41\x00\x04\x01\x01\x08\x00",
        b"\x41\x00\x04\x02\x02\x00",
        // below zero the sign counts too: 125 zeros
        b"\x41\x00\x02\xFC\x09\xFF",
        b"",
    ];
    for bytes in no_keys {
        assert!(rt; is_no_old_key(rt.alloc(), bytes)?, "{bytes:?}");
    }
    Ok(())
}

// Whether the reference has an old key, which is read back.
fn is_read_from_its_old_key(alloc: Global, reference: &Ref) -> Result<bool, Refusal> {
    match encode_short(alloc, reference) {
        Ok(old) => is_read_as(alloc, &old, reference),
        Err(Refusal::SubscriptTooLong) => Ok(false),
        Err(refusal) => Err(refusal),
    }
}

// Whether a text has an old key, which is read back.
fn has_old_key(alloc: Global, text: &[u8]) -> Result<bool, Refusal> {
    let reference = reference(alloc, b"A", &[text])?;
    is_read_from_its_old_key(alloc, &reference)
}

// Whether the bytes are read that would be the old key of a text.
fn is_read(alloc: Global, text: &[u8]) -> Result<bool, Refusal> {
    let mut old = Vec::from_slice(alloc, b"\x41\x00\x05")?;
    old.extend_from_slice(text)?;
    old.push(0)?;
    Ok(!is_no_old_key(alloc, &old)?)
}

// Texts, and whether they are short enough.
const TEXTS: [(&[u8], bool); 5] = [
    (&[b'x'; 1], true),
    (&[b'x'; 126], true),
    (&[b'x'; 127], true),
    (&[b'x'; 128], false),
    (&[b'x'; 255], false),
];

// Whether the text has an old key, and is read from one, as it should.
fn is_short(alloc: Global, text: &[u8], short: bool) -> Result<bool, Refusal> {
    Ok(has_old_key(alloc, text)? == short && is_read(alloc, text)? == short)
}

#[test]
fn texts_of_127_bytes_at_most_have_old_keys(rt: HostRuntime) -> Result<(), Fail> {
    for (text, short) in &TEXTS {
        assert!(rt; is_short(rt.alloc(), text, *short)?, "{text:?}");
    }
    Ok(())
}

#[test]
fn numbers_of_127_bytes_at_most_have_old_keys(rt: HostRuntime) -> Result<(), Fail> {
    assert!(rt; has_old_key(rt.alloc(), &[b'9'; 127])?);
    assert!(rt; !has_old_key(rt.alloc(), &[b'9'; 128])?);
    Ok(())
}

// Bytes of which a few make numbers, and texts that look like them.
const LETTERS: [u8; 9] = *b"-.0129x\0\x01";

// Numbers that look random.
fn next(random: u64) -> u64 {
    random
        .wrapping_mul(6_364_136_223_846_793_005)
        .wrapping_add(1_442_695_040_888_963_407)
}

// Five letters, of which a subscript takes the first one or more.
fn letters(random: u64) -> [u8; 5] {
    let mut taken = [b'x'; 5];
    let mut digits = random >> 33;
    for letter in &mut taken {
        *letter = LETTERS[(digits % 9) as usize];
        digits /= 9;
    }
    taken
}

fn some_of(letters: &[u8; 5], random: u64) -> &[u8] {
    &letters[..(random % 5) as usize + 1]
}

// A reference of one or two subscripts, each of one to five letters.
fn random_reference(alloc: Global, random: u64) -> Result<Ref, Refusal> {
    let second = next(random);
    let (first_letters, second_letters) = (letters(random), letters(second));
    let first = some_of(&first_letters, random);
    if random % 2 == 0 {
        return reference(alloc, b"A", &[first]);
    }
    reference(alloc, b"A", &[first, some_of(&second_letters, second)])
}

fn push_random(alloc: Global, references: &mut Vec<Ref>, random: u64) -> Result<(), Refusal> {
    let reference = random_reference(alloc, random)?;
    references.push(reference)?;
    Ok(())
}

fn random_references(alloc: Global, count: usize) -> Result<Vec<Ref>, Refusal> {
    let mut references = Vec::new(alloc);
    let mut random: u64 = 1;
    for _ in 0..count {
        random = next(random);
        push_random(alloc, &mut references, random)?;
    }
    Ok(references)
}

fn order_of_keys(alloc: Global, a: &Ref, b: &Ref) -> Result<Ordering, Refusal> {
    let (first, second) = (encode(alloc, a)?, encode(alloc, b)?);
    Ok(first.as_slice().cmp(second.as_slice()))
}

fn order_of_old_keys(alloc: Global, a: &Ref, b: &Ref) -> Result<Ordering, Refusal> {
    let (first, second) = (encode_short(alloc, a)?, encode_short(alloc, b)?);
    Ok(first.as_slice().cmp(second.as_slice()))
}

// Whether the keys of both forms compare as the references do.
fn are_ordered(alloc: Global, a: &Ref, b: &Ref) -> Result<bool, Refusal> {
    let order = cmp_ref(a, b);
    Ok(order_of_keys(alloc, a, b)? == order && order_of_old_keys(alloc, a, b)? == order)
}

fn is_read_back(alloc: Global, reference: &Ref) -> Result<bool, Refusal> {
    let old = encode_short(alloc, reference)?;
    let new = encode(alloc, reference)?;
    Ok(is_read_as(alloc, &old, reference)? && is_kept_as(alloc, reference, &old, &new)?)
}

fn is_ordered_among(alloc: Global, here: &Ref, references: &[Ref]) -> Result<bool, Refusal> {
    for there in references {
        if !are_ordered(alloc, here, there)? {
            return Ok(false);
        }
    }
    Ok(true)
}

// The first reference that isn't read back, or compares with another otherwise than their keys do.
fn first_astray(alloc: Global, references: &[Ref]) -> Result<Option<usize>, Refusal> {
    for (i, here) in references.iter().enumerate() {
        if !is_read_back(alloc, here)? || !is_ordered_among(alloc, here, references)? {
            return Ok(Some(i));
        }
    }
    Ok(None)
}

fn first_astray_of(alloc: Global, count: usize) -> Result<Option<usize>, Refusal> {
    let references = random_references(alloc, count)?;
    first_astray(alloc, &references)
}

#[test]
fn keys_of_both_forms_stand_in_the_order_of_references(rt: HostRuntime) -> Result<(), Fail> {
    assert_eq!(rt; first_astray_of(rt.alloc(), 80)?, None);
    Ok(())
}
