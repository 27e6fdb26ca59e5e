//! How keys compare: as their bytes, one after the other, however many bytes are compared at a time.
use crate::references::reference;
use key_codec::Key;
use refusal::Refusal;
use std::alloc::Global;
use std::test::Fail;

// How many bytes a key of `^A` has besides those of its one text.
const BESIDE: usize = 4;

// Lengths of keys round the multiples of eight, and round the longest that lies in the value.
const LENGTHS: [usize; 25] = [
    5, 7, 8, 9, 15, 16, 17, 23, 24, 25, 29, 30, 31, 32, 33, 34, 37, 38, 39, 40, 41, 48, 56, 63, 64,
];

// How many keys there are of each length.
const EACH: usize = 21;

// The key of so many bytes whose text is of one letter, but for another one at a place.
fn key_with(alloc: Global, length: usize, place: usize, letter: u8) -> Result<Key, Refusal> {
    let mut text = [b'n'; 64];
    if let Some(byte) = text.get_mut(place) {
        *byte = letter;
    }
    let reference = reference(
        alloc,
        b"A",
        &[&text[..length.saturating_sub(BESIDE).min(64)]],
    )?;
    let key = Key::of(alloc, &reference);
    drop(reference);
    Ok(key?)
}

fn push_key(
    alloc: Global,
    keys: &mut Vec<Key>,
    length: usize,
    place: usize,
    letter: u8,
) -> Result<(), Refusal> {
    let key = key_with(alloc, length, place, letter)?;
    keys.push(key)?;
    Ok(())
}

// Puts the keys of a length after the others: one of the letter alone, and some with another letter somewhere.
fn push_keys(alloc: Global, keys: &mut Vec<Key>, length: usize) -> Result<(), Refusal> {
    push_key(alloc, keys, length, 64, b'n')?;
    for place in [0, 3, 4, 11, 12, 27, 28, 33, 34] {
        push_key(alloc, keys, length, place, b'm')?;
        push_key(alloc, keys, length, place, b'o')?;
    }
    let last = length.saturating_sub(BESIDE + 1);
    push_key(alloc, keys, length, last, b'm')?;
    push_key(alloc, keys, length, last, 255)
}

fn keys_of_all_lengths(alloc: Global) -> Result<Vec<Key>, Refusal> {
    let mut keys = Vec::new(alloc);
    for length in LENGTHS {
        push_keys(alloc, &mut keys, length)?;
    }
    Ok(keys)
}

// Whether the first key of each length has so many bytes.
fn have_lengths(keys: &[Key]) -> bool {
    for (i, length) in LENGTHS.iter().enumerate() {
        let found = match keys.get(i.saturating_mul(EACH)) {
            Some(key) => key.as_slice().len(),
            None => 0,
        };
        if found != *length {
            return false;
        }
    }
    true
}

// Whether the key compares with each of these as its bytes do with theirs.
fn compares_as_bytes(key: &Key, others: &[Key]) -> bool {
    for other in others {
        if key.cmp(other) != key.as_slice().cmp(&other.as_slice()) {
            return false;
        }
    }
    true
}

#[test]
fn keys_of_all_lengths_compare_as_their_bytes(rt: HostRuntime) -> Result<(), Fail> {
    let keys = keys_of_all_lengths(rt.alloc())?;
    assert!(rt; have_lengths(&keys));
    for key in &keys {
        assert!(rt; compares_as_bytes(key, &keys));
    }
    Ok(())
}
