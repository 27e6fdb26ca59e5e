//! Keys, spelled at once and by pieces: docs/FORMATS.md, "Key bytes"; docs/RULES.md, "Limits" and "Refusals".
use key_codec::{Key, KeyDraft};
use refusal::Refusal;
use std::alloc::Global;
use std::test::*;
use typed_calls::{LentText, key_below, key_of_name, spell_key};

/// The key of a name and one subscript, by pieces.
pub fn child(alloc: Global, name: &[u8], subscript: &[u8]) -> Result<Key, Refusal> {
    let name = key_of_name(alloc, name)?;
    key_below(alloc, &name, subscript)
}

// The key of a name and subscripts, at once.
fn spelled(alloc: Global, name: &[u8], subscripts: &[LentText<'_>]) -> Result<Key, Refusal> {
    let mut draft = KeyDraft::new(alloc);
    spell_key(alloc, &mut draft, name, subscripts)
}

// Rows of the table: subscripts of ^A, and the key.
const ROWS: [(&[LentText<'static>], &[u8]); 4] = [
    (&[], b"A\0"),
    (
        &[LentText { bytes: b"-1.5" }],
        b"A\0\x02\x00\xFE\x09\x05\xFF",
    ),
    (&[LentText { bytes: b"0" }], b"A\0\x03"),
    (&[LentText { bytes: b"7" }], b"A\0\x04\x01\x01\x08\x00"),
];

fn is_spelled(alloc: Global, subscripts: &[LentText<'_>], bytes: &[u8]) -> Result<bool, Refusal> {
    let key = spelled(alloc, b"A", subscripts)?;
    Ok(key.as_slice() == bytes)
}

#[test]
fn a_key_is_spelled_at_once(rt: HostRuntime) -> Result<(), Fail> {
    for (subscripts, bytes) in &ROWS {
        assert_eq!(rt; is_spelled(rt.alloc(), subscripts, bytes), Ok(true));
    }
    Ok(())
}

fn is_child(alloc: Global, subscript: &[u8], bytes: &[u8]) -> Result<bool, Refusal> {
    let key = child(alloc, b"A", subscript)?;
    Ok(key.as_slice() == bytes)
}

#[test]
fn a_key_is_made_by_pieces(rt: HostRuntime) -> Result<(), Fail> {
    assert_eq!(rt; is_child(rt.alloc(), b"0", b"A\0\x03"), Ok(true));
    assert_eq!(rt;
        is_child(rt.alloc(), b"7", b"A\0\x04\x01\x01\x08\x00"),
        Ok(true)
    );
    Ok(())
}

const ONE: LentText<'static> = LentText { bytes: b"1" };

const TOO_LONG: &[u8] = &[b'9'; 256];

// Names, subscripts, and why there is no such key.
const REFUSED: [(&[u8], &[LentText<'static>], Refusal); 4] = [
    (b"1A", &[ONE], Refusal::BadName),
    (
        b"A",
        &[ONE, LentText { bytes: b"" }],
        Refusal::EmptySubscript,
    ),
    (
        b"A",
        &[LentText { bytes: TOO_LONG }],
        Refusal::SubscriptTooLong,
    ),
    (b"A", &[ONE; 32], Refusal::TooManySubscripts),
];

#[test]
fn a_key_that_is_spelled_is_refused(rt: HostRuntime) -> Result<(), Fail> {
    for (name, subscripts, refusal) in &REFUSED {
        assert_eq!(rt; spelled(rt.alloc(), name, subscripts).err(), Some(*refusal));
    }
    Ok(())
}

/// A key with as many subscripts as there may be.
pub fn deepest(alloc: Global) -> Result<Key, Refusal> {
    spelled(alloc, b"A", &[ONE; 31])
}

fn below_31(alloc: Global) -> Result<Key, Refusal> {
    let key = deepest(alloc)?;
    key_below(alloc, &key, b"1")
}

#[test]
fn a_piece_is_refused(rt: HostRuntime) -> Result<(), Fail> {
    let alloc = rt.alloc();
    assert_eq!(rt; key_of_name(alloc, b"1A").err(), Some(Refusal::BadName));
    assert_eq!(rt;
        child(alloc, b"A", b"").err(),
        Some(Refusal::EmptySubscript)
    );
    assert_eq!(rt;
        child(alloc, b"A", TOO_LONG).err(),
        Some(Refusal::SubscriptTooLong)
    );
    assert_eq!(rt; below_31(alloc).err(), Some(Refusal::TooManySubscripts));
    Ok(())
}
