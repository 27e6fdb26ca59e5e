//! Key bytes: the tables of docs/FORMATS.md, "Key bytes".
use crate::references::reference;
use collation::Ref;
use key_codec::{Key, KeyRange, decode, encode, sibling_after, sibling_before, subtree_prefix};
use refusal::Refusal;
use std::alloc::Global;
use std::test::Fail;

// Name, subscripts and key bytes.
pub type Row = (&'static [u8], &'static [&'static [u8]], &'static [u8]);

// In the order of references.
pub const TABLE: [Row; 15] = [
    (b"A", &[], b"\x41\x00"),
    (b"A", &[b"-1.5"], b"\x41\x00\x02\x00\xFE\x09\x05\xFF"),
    (b"A", &[b"-1"], b"\x41\x00\x02\x00\xFE\x09\xFF"),
    (b"A", &[b"-.5"], b"\x41\x00\x02\x00\xFF\x05\xFF"),
    (b"A", &[b"0"], b"\x41\x00\x03"),
    (b"A", &[b".5"], b"\x41\x00\x04\x01\x00\x06\x00"),
    (b"A", &[b"7"], b"\x41\x00\x04\x01\x01\x08\x00"),
    (b"A", &[b"9"], b"\x41\x00\x04\x01\x01\x0A\x00"),
    (b"A", &[b"10"], b"\x41\x00\x04\x01\x02\x02\x00"),
    (b"A", &[b"10", b"0"], b"\x41\x00\x04\x01\x02\x02\x00\x03"),
    (b"A", &[b"12"], b"\x41\x00\x04\x01\x02\x02\x03\x00"),
    (b"A", &[b"\0\x01b"], b"\x41\x00\x05\x01\x01\x01\x02\x62\x00"),
    (b"A", &[b"007"], b"\x41\x00\x05\x30\x30\x37\x00"),
    (b"A", &[b"x"], b"\x41\x00\x05\x78\x00"),
    (b"AB", &[b"1"], b"\x41\x42\x00\x04\x01\x01\x02\x00"),
];

fn is_written_as(alloc: Global, reference: &Ref, key: &[u8]) -> Result<bool, Refusal> {
    let written = encode(alloc, reference)?;
    Ok(written.as_slice() == key)
}

fn is_read_as(alloc: Global, key: &[u8], reference: &Ref) -> Result<bool, Refusal> {
    let read = decode(alloc, key)?;
    Ok(read.as_ref() == Some(reference))
}

// Whether a `Key` of the reference holds these bytes and this name.
fn is_kept_as(alloc: Global, of: &Ref, key: &[u8], name: &[u8]) -> Result<bool, Refusal> {
    let kept = Key::of(alloc, of)?;
    Ok(kept.as_slice() == key && kept.name() == name)
}

fn is_key_of(alloc: Global, reference: &Ref, row: &Row) -> Result<bool, Refusal> {
    Ok(
        is_written_as(alloc, reference, row.2)?
            && is_read_as(alloc, row.2, reference)?
            && is_kept_as(alloc, reference, row.2, row.0)?,
    )
}

fn has_its_key(alloc: Global, row: &Row) -> Result<bool, Refusal> {
    let reference = reference(alloc, row.0, row.1)?;
    is_key_of(alloc, &reference, row)
}

// The first row whose reference has another key.
fn first_other(alloc: Global) -> Result<Option<usize>, Refusal> {
    for (i, row) in TABLE.iter().enumerate() {
        if !has_its_key(alloc, row)? {
            return Ok(Some(i));
        }
    }
    Ok(None)
}

#[test]
fn keys_are_those_of_the_table(rt: HostRuntime) -> Result<(), Fail> {
    assert_eq!(rt; first_other(rt.alloc())?, None);
    Ok(())
}

fn key_of(alloc: Global, row: &Row) -> Result<Key, Refusal> {
    let reference = reference(alloc, row.0, row.1)?;
    let key = Key::of(alloc, &reference);
    drop(reference);
    Ok(key?)
}

fn push_key(alloc: Global, keys: &mut Vec<Key>, row: &Row) -> Result<(), Refusal> {
    let key = key_of(alloc, row)?;
    keys.push(key)?;
    Ok(())
}

fn keys_of_the_table(alloc: Global) -> Result<Vec<Key>, Refusal> {
    let mut keys = Vec::new(alloc);
    for row in &TABLE {
        push_key(alloc, &mut keys, row)?;
    }
    Ok(keys)
}

// Whether the key at a place compares with each of the others as their places do.
fn stands_at(key: &Key, place: usize, keys: &[Key]) -> bool {
    for (i, other) in keys.iter().enumerate() {
        if key.cmp(other) != place.cmp(&i) || (key == other) != (place == i) {
            return false;
        }
    }
    true
}

// The first key that doesn't stand in its place.
fn first_displaced(keys: &[Key]) -> Option<usize> {
    for (i, key) in keys.iter().enumerate() {
        if !stands_at(key, i, keys) {
            return Some(i);
        }
    }
    None
}

#[test]
fn keys_stand_in_the_order_of_the_table(rt: HostRuntime) -> Result<(), Fail> {
    let keys = keys_of_the_table(rt.alloc())?;
    assert_eq!(rt; first_displaced(&keys), None);
    Ok(())
}

// Whether the key lies under that of a row of the table.
fn lies_under(key: &Key, keys: &[Key], row: usize) -> bool {
    match keys.get(row) {
        Some(root) => key.is_under(root),
        None => false,
    }
}

// ^A(10) is row 8: under it lie itself and ^A(10,0). The first row that lies elsewhere.
fn first_under_another(keys: &[Key]) -> Option<usize> {
    for (i, key) in keys.iter().enumerate() {
        let found = (lies_under(key, keys, 8), lies_under(key, keys, 0));
        if found != (i == 8 || i == 9, i < 14) {
            return Some(i);
        }
    }
    None
}

#[test]
fn keys_lie_under_their_ancestors_alone(rt: HostRuntime) -> Result<(), Fail> {
    let keys = keys_of_the_table(rt.alloc())?;
    assert_eq!(rt; first_under_another(&keys), None);
    Ok(())
}

fn is_no_key(alloc: Global, bytes: &[u8]) -> Result<bool, Refusal> {
    let read = decode(alloc, bytes)?;
    Ok(read.is_none())
}

#[test]
fn decode_of_bytes_that_are_no_key_is_none(rt: HostRuntime) -> Result<(), Fail> {
    let no_keys: &[&[u8]] = &[
        // the rows of the table
        b"\x41",
        b"\x41\x00\x05\x37\x00",
        b"\x41\x00\x04\x01\x01\x01\x00",
        b"\x41\x00\x04\x01\x02\x02\x01\x00",
        b"\x41\x00\x05\x01\x03\x00",
        b"\x41\x00\x05\x78",
        b"\x31\x00",
        // no name; no bytes; a digit byte out of range; no digit; an empty string; another tag; a number cut off
        b"\x00",
        b"",
        b"\x41\x00\x04\x01\x01\x0B\x00",
        b"\x41\x00\x04\x01\x01\x00",
        b"\x41\x00\x05\x00",
        b"\x41\x00\x06",
        b"\x41\x00\x02",
        // a place cut off; after its first byte; a place past the greatest; an end byte in the place of a digit
        b"\x41\x00\x04",
        b"\x41\x00\x04\x01",
        b"\x41\x00\x04\x02\x00\x02\x00",
        b"\x41\x00\x02\x00\xFE\x00\xFF",
        // a number of 256 bytes: a point, 254 zeros and a digit; 32 subscripts
        b"\x41\x00\x04\x00\x02\x02\x00",
        b"\x41\x00\x03\x03\x03\x03\x03\x03\x03\x03\x03\x03\x03\x03\x03\x03\x03\x03\x03\x03\x03\x03\x03\x03\x03\x03\x03\x03\x03\x03\x03\x03\x03\x03",
    ];
    for bytes in no_keys {
        assert!(rt; is_no_key(rt.alloc(), bytes)?, "{bytes:?}");
    }
    Ok(())
}

// Whether the reference's key has this length and is read back.
fn has_key_of_length(alloc: Global, reference: &Ref, length: usize) -> Result<bool, Refusal> {
    let key = encode(alloc, reference)?;
    Ok(key.len() == length && is_read_as(alloc, key.as_slice(), reference)?)
}

// 31 bytes of name, 00, and 31 strings of 255 escaped bytes, each 1 + 510 + 1.
#[test]
fn longest_key_has_15904_bytes(rt: HostRuntime) -> Result<(), Fail> {
    let name = [b'A'; 31];
    let subscript = [0_u8; 255];
    let subscripts: [&[u8]; 31] = [&subscript; 31];
    let longest = reference(rt.alloc(), &name, &subscripts)?;
    let is_longest = has_key_of_length(rt.alloc(), &longest, 15904);
    drop(longest);
    assert!(rt; is_longest?);
    Ok(())
}

fn is(written: Result<Vec<u8>, Refusal>, expected: &[u8]) -> Result<bool, Refusal> {
    let bytes = written?;
    Ok(bytes.as_slice() == expected)
}

fn has_bounds(alloc: Global, of: &Ref, low: &[u8], high: &[u8]) -> Result<bool, Refusal> {
    Ok(
        is(subtree_prefix(alloc, of), low)?
            && is(sibling_before(alloc, of), low)?
            && is(sibling_after(alloc, of), high)?,
    )
}

fn seven_has_bounds(alloc: Global, low: &[u8], high: &[u8]) -> Result<bool, Refusal> {
    let seven = reference(alloc, b"A", &[b"7"])?;
    has_bounds(alloc, &seven, low, high)
}

#[test]
fn bounds_are_the_key_and_the_key_with_06(rt: HostRuntime) -> Result<(), Fail> {
    let low = b"\x41\x00\x04\x01\x01\x08\x00";
    let high = b"\x41\x00\x04\x01\x01\x08\x00\x06";
    assert!(rt; seven_has_bounds(rt.alloc(), low, high)?);
    Ok(())
}

fn range_under(alloc: Global, row: &Row) -> Result<KeyRange, Refusal> {
    let root = reference(alloc, row.0, row.1)?;
    KeyRange::under(alloc, &root)
}

// The first row of the table that is in the range otherwise than ^A(10) and ^A(10,0) alone would be.
fn first_astray(range: &KeyRange) -> Option<usize> {
    for (i, row) in TABLE.iter().enumerate() {
        if range.contains(row.2) != (i == 8 || i == 9) {
            return Some(i);
        }
    }
    None
}

#[test]
fn range_under_a_reference_contains_its_descendants_alone(rt: HostRuntime) -> Result<(), Fail> {
    let range = range_under(rt.alloc(), &TABLE[8])?;
    assert_eq!(rt; first_astray(&range), None);
    Ok(())
}

// Whether the range goes from `B` on, without an end.
fn is_from_b_on(range: &KeyRange) -> bool {
    range.low() == b"B".as_slice()
        && range.high().is_none()
        && range.contains(b"B")
        && range.contains(b"\xFF\xFF")
        && !range.contains(b"A\xFF")
}

#[test]
fn range_without_end_contains_all_from_its_least_key_on(rt: HostRuntime) -> Result<(), Fail> {
    let low = Vec::from_slice(rt.alloc(), b"B")?;
    let range = KeyRange::new(low, None);
    assert!(rt; is_from_b_on(&range));
    Ok(())
}
